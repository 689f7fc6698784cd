//! The round of a cell and its waits: here, and nowhere else, a section of that round is made, and the half of
//! its poller that waits is called.
//!
//! A round is begun and finished at a moment that the clock answers in that very call, so no moment is kept
//! from before the wait for the pass at the end. Its events in hand are handled over a table of sources, and
//! dropped by nothing else.

ghost use Rattle.std.specs.Prelude.{◌≡◌, ℕ, [], true, false, OnOk, OnErr, is_some};
ghost use Rattle.aio_words.specs.Seats.{IsIdleOrWaits};
ghost use Rattle.aio_shared.specs.Cells.{Awaits, EndsInRise};
ghost use Rattle.aio_shared.specs.Reacting.{BegunAt, ClockGoesOn, FinishedAt, IsMoment};
ghost use Rattle.aio_sources.specs.Events.{HandlesAt};
ghost use Rattle.aio_sources.specs.Sources.{keys_of};

use aio_base::{Arm, Clock, EventWait, OutOfMemory};
use aio_react::Round;
use aio_sources::SourceTable;
use aio_timers::TimerBook;
use aio_words::RoundSeat;
use std::marker::Model;
use std::sync::Wait;

/// Keeps the round of a cell from all other modules, which read it and make its sections by these calls.
/// Contracts see the round itself.
#[derive(Drop)]
pub(crate) struct CellRound {
    round: Round,
}

impl Model for CellRound {
    ghost use Rattle.aio_source.specs.InHand.{RoundValue};

    ghost Value = { RoundValue };

    ghost view = { λ held. held.round };
}

impl CellRound {
    /// This round, for a cell.
    pub(crate) fn new(round: Round) -> CellRound
        ensures { result ≡ round }
    {
        CellRound { round }
    }

    /// The round, to be read.
    pub(crate) fn as_round(&self) -> &Round
        ensures { result.now ≡ self.now }
    {
        &self.round
    }

    /// Begins the round of this number, by a pass over the book at a moment that the clock answers now.
    /// `OutOfMemory` where there is no memory for the wakers that are due.
    pub(crate) fn begin<C: Clock>(
        &mut self,
        book: &mut TimerBook,
        clock: &mut C,
        limit: Option<u64>,
        number: u64,
    ) -> Result<(), OutOfMemory>
        requires idle { self.old.running ≡ false }
        ensures begun { OnOk result ((now : ℕ)
            × IsMoment (C.bounds clock.old) (C.latest clock.old) (C.latest clock.new) now
            × BegunAt number limit self.new book.new now book.old) }
        ensures refused { OnErr result ((self.new ≡ self.old) × (book.new ≡ book.old)) }
        ensures clock { ClockGoesOn C.bounds C.latest clock.old clock.new }
    {
        let now = clock.now();
        match self.round.begin(book, now, limit, number) {
            Err(refused) => Err(refused),
            Ok(_) => Ok(()),
        }
    }

    /// Handles each event in hand over a table of sources, as by `SourceTable::handle_each`. `OutOfMemory`
    /// leaves in hand what was not handled.
    pub(crate) fn handle_each<R: Wait, A: Arm>(
        &mut self,
        rt: &R,
        table: &SourceTable<A>,
    ) -> Result<(), OutOfMemory>
        ensures handled { HandlesAt (keys_of table.now) A.all_sure self.old self.new }
        ensures none_left { OnOk result (self.new.hand ≡ []) }
    {
        table.handle_each(rt, &mut self.round)
    }

    /// Ends the round, which has made its wait and has no event in hand, at a moment that the clock answers
    /// now: by a pass over the book where it asks for one. `OutOfMemory` where there is no memory for the
    /// wakers that are due; the round then runs on.
    pub(crate) fn finish<C: Clock>(
        &mut self,
        book: &mut TimerBook,
        clock: &mut C,
    ) -> Result<(), OutOfMemory>
        requires running { self.old.running ≡ true }
        requires waited { is_some self.old.last ≡ true }
        requires hand { self.old.hand ≡ [] }
        ensures finished { OnOk result ((now : ℕ)
            × IsMoment (C.bounds clock.old) (C.latest clock.old) (C.latest clock.new) now
            × FinishedAt self.old self.new book.new now book.old) }
        ensures refused { OnErr result ((self.new ≡ self.old) × (book.new ≡ book.old)) }
        ensures clock { ClockGoesOn C.bounds C.latest clock.old clock.new }
    {
        let now = clock.now();
        match self.round.finish(book, now) {
            Err(refused) => Err(refused),
            Ok(_) => Ok(()),
        }
    }
}

/// Keeps the half of a poller that waits from all other modules: `await_events` is the one way to its
/// wait. Contracts see the half itself.
#[derive(Drop)]
pub(crate) struct CellWait<W: EventWait> {
    poller: W,
}

impl<W: EventWait> Model for CellWait<W> {
    ghost Value = { W };

    ghost view = { λ held. held.poller };
}

impl<W: EventWait> CellWait<W> {
    /// This half, for a cell.
    pub(crate) fn new(poller: W) -> CellWait<W>
        ensures { result ≡ poller }
    {
        CellWait { poller }
    }

    /// The half again, where there is no cell for it.
    pub(crate) fn into_inner(self) -> W
        ensures { result ≡ self }
    {
        self.poller
    }

    /// How many waits were made on the half.
    pub(crate) fn waits(&self) -> u64
        ensures { result ≡ W.wait_count self.now }
    {
        self.poller.waits()
    }

    /// One wait for events, for a round without an event in hand. The ticker was raised to the round's
    /// number by the step that the round's seat made last: a load of the ticker while it waits tells of
    /// this round, and the seat has cleared no `notified` in between. The seat is idle, or waits for the
    /// parker whose thread this is.
    pub(crate) fn await_events(&mut self, seat: &RoundSeat, round: &mut CellRound)
        requires mode { IsIdleOrWaits seat.now }
        requires risen { EndsInRise seat.now.view }
        requires number { round.old.number ≡ seat.now.view.seen }
        requires runs { round.old.running ≡ true }
        requires empty { round.old.hand ≡ [] }
        ensures awaits { Awaits W.wait_step round.old round.new self.old self.new
            (W.wait_count self.old) (W.fault_count self.old)
            (W.wait_count self.new) (W.fault_count self.new) (W.is_sure self.old) }
        ensures stays { W.is_sure self.new ≡ W.is_sure self.old }
    {
        // The round keeps what the wait answers: a fault is its first one.
        let _told = round.round.wait(&mut self.poller);
    }
}
