//! A value behind a lock, and what is done to the book of timers that is found behind one.
//!
//! What takes the lock and gives it up is for values of every type, and so does nothing to them. What
//! reaches the book under the lock are the four sections of this file, each of which says what it leaves of
//! the book that it found.

ghost use Rattle.std.specs.Prelude.{◌≡◌, [], true, false, OnOk, OnErr, is_some};
ghost use Rattle.aio_ops.specs.Passes.{AppliesItself, DrainsAndApplies, Drained};
ghost use Rattle.aio_shared.specs.Reacting.{BeginsOver, ClockGoesOn, DrainsAtMost, FinishesOver};
ghost use Rattle.aio_shared.specs.TimerCalls.{PushedNothing, Tries, TriesOver};

use crate::waiting::CellRound;
use aio_base::{Clock, OutOfMemory};
use aio_ops::{OpPass, Ops};
use aio_timers::{TimerBook, TimerOp};
use std::marker::Model;
use std::sync::{Mutex, MutexGuard, Wait};

/// A value behind a lock, which `open` alone reaches.
#[derive(Drop)]
pub(crate) struct Locked<T> {
    value: Mutex<T>,
}

/// The value behind a lock, which is taken until this is let go. Contracts see the value.
#[derive(Drop)]
pub(crate) struct Opened<'a, T> {
    guard: MutexGuard<'a, T>,
}

impl<'a, T> Model for Opened<'a, T> {
    ghost use Rattle.std.specs.Sync.Mutex.{mutex_guard_value};

    ghost Value = { T };

    ghost view = { λ opened. mutex_guard_value opened.guard };
}

impl<T> Locked<T> {
    /// This value behind a lock.
    pub(crate) fn new(value: T) -> Locked<T> {
        Locked {
            value: Mutex::new(value),
        }
    }

    /// Takes the lock, as soon as nobody else has it.
    pub(crate) fn open<R: Wait>(&self, rt: &R) -> Opened<'_, T> {
        Opened {
            guard: self.value.lock(rt),
        }
    }
}

impl Opened<'_, TimerBook> {
    /// Drains the queue of operations into the book and begins a round, by a pass over what the drain left,
    /// at a moment that the clock answers after the drain.
    pub(crate) fn drain_and_begin<R: Wait, C: Clock>(
        &mut self,
        queue: &Ops,
        rt: &R,
        ops: &mut OpPass,
        round: &mut CellRound,
        clock: &mut C,
        limit: Option<u64>,
        number: u64,
    ) -> Result<(), OutOfMemory>
        requires ops { ops.old.queue ≡ queue.now }
        requires idle { round.old.running ≡ false }
        ensures begun { OnOk result
            (BeginsOver number (C.bounds clock.old) (C.latest clock.old) (C.latest clock.new) limit
            ops.old ops.new self.old self.new round.new) }
        ensures drained { OnOk result (Drained ops.old ops.new) }
        ensures refused { OnErr result (round.new ≡ round.old) }
        ensures pushed { OnErr result (PushedNothing ops.old ops.new) }
        ensures kept { OnErr result (DrainsAtMost ops.old ops.new self.old self.new) }
        ensures clock { ClockGoesOn C.bounds C.latest clock.old clock.new }
    {
        let book = &mut *self.guard;
        match queue.drain(rt, ops, book) {
            Err(refused) => return Err(refused),
            Ok(_) => {}
        }
        match round.begin(book, clock, limit, number) {
            Err(refused) => return Err(refused),
            Ok(()) => {}
        }
        Ok(())
    }

    /// Drains the queue of operations into the book and ends a round that has made its wait, by a pass over
    /// what the drain left where the round asks for one, at a moment that the clock answers after the drain.
    pub(crate) fn drain_and_end<R: Wait, C: Clock>(
        &mut self,
        queue: &Ops,
        rt: &R,
        ops: &mut OpPass,
        round: &mut CellRound,
        clock: &mut C,
    ) -> Result<(), OutOfMemory>
        requires ops { ops.old.queue ≡ queue.now }
        requires running { round.old.running ≡ true }
        requires waited { is_some round.old.last ≡ true }
        requires hand { round.old.hand ≡ [] }
        ensures finished { OnOk result
            (FinishesOver (C.bounds clock.old) (C.latest clock.old) (C.latest clock.new)
            ops.old ops.new self.old self.new round.old round.new) }
        ensures drained { OnOk result (Drained ops.old ops.new) }
        ensures refused { OnErr result (round.new ≡ round.old) }
        ensures pushed { OnErr result (PushedNothing ops.old ops.new) }
        ensures kept { OnErr result (DrainsAtMost ops.old ops.new self.old self.new) }
        ensures clock { ClockGoesOn C.bounds C.latest clock.old clock.new }
    {
        let book = &mut *self.guard;
        match queue.drain(rt, ops, book) {
            Err(refused) => return Err(refused),
            Ok(_) => {}
        }
        match round.finish(book, clock) {
            Err(refused) => return Err(refused),
            Ok(()) => {}
        }
        Ok(())
    }

    /// Drains the queue into the book, and then pushes an operation. Whether the queue took it.
    /// `OutOfMemory` where there was no room; then neither.
    pub(crate) fn drain_and_push<R: Wait>(
        &mut self,
        queue: &Ops,
        rt: &R,
        p: &mut OpPass,
        op: &TimerOp,
    ) -> Result<bool, OutOfMemory>
        requires belongs { p.old.queue ≡ queue.now }
        ensures tries { Tries op.now p.old p.new result }
        ensures over { TriesOver op.now p.old p.new self.old self.new result }
    {
        queue.drain(rt, p, &mut *self.guard)?;
        Ok(queue.push(rt, p, *op).is_ok())
    }

    /// Drains the queue into the book, and then applies an operation to it. `OutOfMemory` where there was no
    /// room; then neither.
    pub(crate) fn drain_and_apply<R: Wait>(
        &mut self,
        queue: &Ops,
        rt: &R,
        p: &mut OpPass,
        op: &TimerOp,
    ) -> Result<(), OutOfMemory>
        requires belongs { p.old.queue ≡ queue.now }
        ensures over { OnOk result (DrainsAndApplies op.now p.old p.new self.old self.new) }
        ensures applies { OnOk result (AppliesItself op.now p.old p.new) }
        ensures refused { OnErr result (p.new ≡ p.old) }
        ensures kept { OnErr result (self.new.entries ≡ self.old.entries) }
    {
        queue.apply_after_drain(rt, p, &mut *self.guard, *op)
    }
}
