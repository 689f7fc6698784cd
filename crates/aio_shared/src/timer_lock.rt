//! The book of timers of a reactor behind its lock: here, and nowhere else, the lock is taken.
//!
//! Each call takes the lock and makes one section on the book, which says what it leaves of the book that it
//! found. It gives the lock up before it returns, so nobody has the book while a round waits for events.

ghost use Rattle.std.specs.Prelude.{◌≡◌, [], true, false, OnOk, OnErr, is_some};
ghost use Rattle.aio_ops.specs.Passes.{AppliesItself, Drained};
ghost use Rattle.aio_shared.specs.Reacting.{BeginsAs, ClockGoesOn, Finishes};
ghost use Rattle.aio_shared.specs.TimerCalls.{PushedNothing, Tries};

use crate::locked::Locked;
use crate::waiting::CellRound;
use aio_base::{Clock, OutOfMemory};
use aio_ops::{OpPass, Ops};
use aio_timers::{TimerBook, TimerOp};
use std::sync::Wait;

/// The book of timers of a reactor, which no other module reaches but by these calls.
#[derive(Drop)]
pub(crate) struct TimerLock {
    book: Locked<TimerBook>,
}

impl TimerLock {
    /// The lock of this book, which has no timer.
    pub(crate) fn new(book: TimerBook) -> TimerLock
        requires { book.entries ≡ [] }
    {
        TimerLock {
            book: Locked::new(book),
        }
    }

    /// Drains the queue of operations and begins a round, under the lock of the book.
    pub(crate) fn drain_and_begin<R: Wait, C: Clock>(
        &self,
        queue: &Ops,
        rt: &R,
        ops: &mut OpPass,
        round: &mut CellRound,
        clock: &mut C,
        limit: Option<u64>,
        number: u64,
    ) -> Result<(), OutOfMemory>
        requires ops { ops.old.queue ≡ queue.now }
        requires idle { round.old.running ≡ false }
        ensures begun { OnOk result
            (BeginsAs number (C.bounds clock.old) (C.latest clock.old) (C.latest clock.new) limit
            ops.old ops.new round.new) }
        ensures drained { OnOk result (Drained ops.old ops.new) }
        ensures refused { OnErr result (round.new ≡ round.old) }
        ensures pushed { OnErr result (PushedNothing ops.old ops.new) }
        ensures clock { ClockGoesOn C.bounds C.latest clock.old clock.new }
    {
        let mut opened = self.book.open(rt);
        opened.drain_and_begin(queue, rt, ops, round, clock, limit, number)
    }

    /// Drains the queue of operations and ends a round, under the lock of the book.
    pub(crate) fn drain_and_end<R: Wait, C: Clock>(
        &self,
        queue: &Ops,
        rt: &R,
        ops: &mut OpPass,
        round: &mut CellRound,
        clock: &mut C,
    ) -> Result<(), OutOfMemory>
        requires ops { ops.old.queue ≡ queue.now }
        requires running { round.old.running ≡ true }
        requires waited { is_some round.old.last ≡ true }
        requires hand { round.old.hand ≡ [] }
        ensures finished { OnOk result
            (Finishes (C.bounds clock.old) (C.latest clock.old) (C.latest clock.new)
            ops.old ops.new round.old round.new) }
        ensures drained { OnOk result (Drained ops.old ops.new) }
        ensures refused { OnErr result (round.new ≡ round.old) }
        ensures pushed { OnErr result (PushedNothing ops.old ops.new) }
        ensures clock { ClockGoesOn C.bounds C.latest clock.old clock.new }
    {
        let mut opened = self.book.open(rt);
        opened.drain_and_end(queue, rt, ops, round, clock)
    }

    /// Drains the queue and pushes an operation, under the lock of the book. Whether the queue took it.
    pub(crate) fn drain_and_push<R: Wait>(
        &self,
        queue: &Ops,
        rt: &R,
        p: &mut OpPass,
        op: &TimerOp,
    ) -> Result<bool, OutOfMemory>
        requires belongs { p.old.queue ≡ queue.now }
        ensures tries { Tries op.now p.old p.new result }
    {
        let mut opened = self.book.open(rt);
        opened.drain_and_push(queue, rt, p, op)
    }

    /// Drains the queue and applies an operation to the book, under its lock.
    pub(crate) fn drain_and_apply<R: Wait>(
        &self,
        queue: &Ops,
        rt: &R,
        p: &mut OpPass,
        op: &TimerOp,
    ) -> Result<(), OutOfMemory>
        requires belongs { p.old.queue ≡ queue.now }
        ensures applies { OnOk result (AppliesItself op.now p.old p.new) }
        ensures refused { OnErr result (p.new ≡ p.old) }
    {
        let mut opened = self.book.open(rt);
        opened.drain_and_apply(queue, rt, p, op)
    }
}
