//! The queue of operations of a shared reactor: what it holds, and what each pass knows of its own calls.

use std::collections::LinkedList;

/// An operation in the queue.
#[derive(Clone, Copy, Debug, PartialEq, Eq, Drop)]
pub struct OpEntry<O> {
    /// The number of the pass that pushed it.
    pub pass: u32,
    /// Its own number among the entries of that pass, from 1.
    pub number: u64,
    /// How many pops of that pass had found the queue empty before the push.
    pub empties: u64,
    /// The operation.
    pub op: O,
}

/// An entry of the pass that pushed it, beside what that pass had popped. No value of it is made.
pub struct PushedOp<O> {
    /// The entry.
    pub entry: OpEntry<O>,
    /// How many entries the pass had popped before the push.
    pub pulled: u64,
}

/// What a pass has pushed and popped. No value of it is made: contracts alone speak of it.
pub struct QueueSeat<O> {
    /// The number of the pass, from 0 in the order in which passes are made.
    pub number: u32,
    /// How many passes were made: of the first pass, itself among them; of any other, by it.
    pub splits: u32,
    /// The entries that the pass pushed, in order.
    pub own: LinkedList<PushedOp<O>>,
    /// The entries that it popped, in order.
    pub pulled: LinkedList<OpEntry<O>>,
}
