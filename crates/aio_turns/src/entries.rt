//! What a deque of places holds, and what each pass knows of its own calls.

use std::collections::LinkedList;

/// A place in a deque.
#[derive(Clone, Copy, Debug, PartialEq, Eq, Drop)]
pub struct TurnEntry {
    /// The number of its push among those of the owner, from 1.
    pub number: u64,
    /// The place.
    pub place: u32,
}

/// What a pass has pushed and pulled. No value of it is made: contracts alone speak of it.
#[derive(Drop)]
pub struct TurnHand {
    /// The entries that it pushed, in order: none, where it is a thief's.
    pub pushed: LinkedList<TurnEntry>,
    /// The entries that it took, in order.
    pub pulled: LinkedList<TurnEntry>,
    /// How many thieves it made: none, where it is a thief's.
    pub thieves: u64,
}
