//! A round of a shared reactor, by the member that holds its cell.

ghost use Rattle.std.specs.Prelude.{◌≡◌, ◌↔◌, ℕ, ◌+◌, ◌-◌, ◌^◌, ◌<◌, ◌≤◌, [], true, false, Err, OnOk, OnErr, IfErr};
ghost use Rattle.aio_base.specs.Devices.{TellsFaults};
ghost use Rattle.aio_rules.specs.SharedWords.{after, blocking};
ghost use Rattle.aio_rules.specs.declared.seats.WordStep.TheVariants as word_step;
ghost use Rattle.aio_words.specs.Seats.{Belongs, IsIdleOrWaits, is_waiting};
ghost use Rattle.aio_shared.specs.Cells.{Awaits, EndsInRise};
ghost use Rattle.aio_shared.specs.Notifying.{NotifiesAsWon};
ghost use Rattle.aio_shared.specs.Members.{IsLaterMember, IsMemberOf, moved_on};
ghost use Rattle.aio_shared.specs.OneCell.{IsCellOf};
ghost use Rattle.aio_shared.specs.Reacting.{BeginRefused, BeginsAs, ClockGoesOn, EnterRefused, Enters, Finishes, NotifyFailed, Reacts, Settles, ReportsRound, Wakes, looked, rose, start_of, until};
ghost use Rattle.aio_shared.specs.Reporting.{Reports};
ghost use Rattle.aio_shared.specs.Waking.{TellsFirstWake};
ghost use Rattle.aio_sources.specs.Events.{HandlesSome};
ghost use Rattle.aio_ops.specs.Passes.{Drained};
ghost use Rattle.aio_shared.specs.TimerCalls.{PushedNothing};

use crate::cell::RoundCell;
use crate::members::Member;
use crate::shared::Shared;
use crate::waiting::{CellRound, CellWait};
use crate::waking::wake_each;
use aio_base::{Arm, ArmFault, Clock, CountFault, EventWait, Notify, OutOfMemory};
use aio_ops::OpPass;
use aio_react::{Round, RoundFault};
use aio_source::InHand;
use aio_words::{RoundSeat, Words};
use std::sync::Wait;

/// What a call of `Shared::react_in` did.
#[derive(Clone, Copy, Debug, PartialEq, Eq)]
pub struct ReactedIn {
    /// Whether it went on with a round that an earlier call left running.
    pub resumed: bool,
    /// How many events it handled, at most 1,024, those of unknown keys among them.
    pub events: u32,
    /// How many wakers the round woke.
    pub woken: u64,
}

/// Why a call of `Shared::react_in` did not end its round, or what failed in it first.
#[derive(Clone, Copy, Debug, PartialEq, Eq)]
pub enum ReactFault {
    /// The wait of the round failed, between these two counts of its faults.
    Wait(CountFault),
    /// A source could not be armed again, between these two counts of its faults.
    Arm(ArmFault),
    /// A call of the member's notifier failed, between these two counts of its faults.
    Notify(CountFault),
    /// 2^64 - 1 rounds have begun.
    RoundsSpent,
    /// Memory ran out.
    OutOfMemory,
}

impl<A: Arm, W: EventWait> Shared<A, W> {
    /// A whole round, or the rest of one that an earlier call left running for want of memory
    /// (`async-io` 2, `reactor.rs`, `ReactorLock::react`); then each waker that the round took is woken,
    /// in order. The cell's round seat is idle, or waits for the parker whose thread calls; it is idle
    /// afterwards, or blocks that parker.
    ///
    /// What it does, in order; a round that an earlier call left running goes on at step 7:
    ///
    /// 1. The ticker is read, and the round gets the next number, so that no number is given twice.
    /// 2. The queue of operations is drained into the book of timers, whose lock is held up to step 4,
    ///    so that the pass sees each timer that was registered before it and none that was taken out.
    /// 3. The clock is looked at after the drain, so that what the drain brought and is due by then
    ///    fires in this pass.
    /// 4. The round begins by a pass, which takes the timers that are due. Where it took one, the wait
    ///    has the limit 0, so that no waker in hand sleeps with the thread; else it lasts to the first
    ///    deadline at most, and to `limit`, in nanoseconds, where one is given.
    /// 5. The ticker is raised before the wait, so that who polls meanwhile stores the new number: an
    ///    event of this wait may be older than that poll, and is no news to it.
    /// 6. One wait is made, under no lock but the cell's, so that others use timers and sources
    ///    meanwhile.
    /// 7. A seat that waits clears `notified` and blocks again, after the wait: the notification that it
    ///    stood for has ended that, so the next wake has to call the notifier anew.
    /// 8. Each event in hand takes the waiters of its source, which is then armed for those that are
    ///    left, since an event that was given leaves its source unarmed.
    /// 9. The queue is drained and the clock looked at once more, and the round ends. Where its wait
    ///    had time and gave no event, it makes a second pass, since a deadline may have ended that wait.
    /// 10. Each waker is woken last and under no lock but the cell's, so that a task that is woken finds
    ///     what the round did, and nobody waits for a lock while a notifier is called.
    ///
    /// # Errors
    ///
    /// `Wait`, `Arm` and `Notify` tell the first fault, a round's before one of its wakes, with two
    /// counts that differ or stand at 2^64 - 1; the round has ended all the same, and each waker was
    /// given to `wake`. `RoundsSpent` exactly where a round would have to begin and the ticker stands at
    /// 2^64 - 1; nothing changes but the round seat. `OutOfMemory`: no round runs, as before, or one
    /// runs on with the events and wakers that it has; nobody was woken.
    pub fn react_in<R: Wait, N: Notify, C: Clock>(
        &self,
        rt: &R,
        m: &mut Member<N, W>,
        cell: &mut RoundCell<W>,
        clock: &mut C,
        limit: Option<u64>,
    ) -> Result<ReactedIn, ReactFault>
        requires belongs { IsMemberOf self.now m.old }
        requires cell { IsCellOf m.old.claim cell.old }
        requires seat { IsIdleOrWaits cell.old.seat }
        ensures reacts { Reacts self.now.words.parkers self.now.sure_of_arms
            (record (until (C.latest clock.new) (start_of C.bounds C.latest W.wait_step clock.old))
            { given = limit })
            cell.old cell.new m.old m.new
            (record { before = N.fault_count m.old.notifier; after = N.fault_count m.new.notifier })
            result }
        ensures first { TellsFirstWake N.call_count N.fault_count N.notify_step
            self.now.words.parkers cell.new.round.taken
            m.old.pass.view m.new.pass.view m.old.notifier m.new.notifier result }
        ensures spent { (result ≡ Err ReactFault.RoundsSpent)
            ↔ ((cell.old.round.running ≡ false) × (cell.old.seat.view.seen ≡ 2 ^ 64 - 1)) }
        ensures calls { NotifiesAsWon m.old.pass.view m.new.pass.view
            (N.call_count m.old.notifier) (N.call_count m.new.notifier) }
        ensures seat { cell.new.seat.view.mode ≡ blocking cell.old.seat.view.mode }
        ensures kept { m.new ≡ moved_on m.old m.new }
        ensures belongs { IsMemberOf self.now m.new }
        ensures cell { IsCellOf m.new.claim cell.new }
        ensures later { IsLaterMember N.fault_count N.is_sure m.old m.new }
        ensures faults { TellsFaults N.fault_count N.is_sure m.old.notifier m.new.notifier
            (NotifyFailed result) }
        ensures clock { ClockGoesOn C.bounds C.latest clock.old clock.new }
    {
        let resumed = !cell.round().is_idle();
        let in_hand = cell.round().in_hand() as u32;
        match self.enter_round(rt, m, cell, clock, limit) {
            Err(fault) => return Err(fault),
            Ok(()) => {}
        }
        match self.handle_in_hand(rt, cell) {
            Err(_) => return Err(ReactFault::OutOfMemory),
            Ok(()) => {}
        }
        match self.end_round(rt, m, cell, clock) {
            Err(_) => return Err(ReactFault::OutOfMemory),
            Ok(()) => {}
        }
        self.wake_taken(m, cell, resumed, in_hand)
    }

    /// Begins a round and makes its wait, or goes on with the one that runs. Then a seat that waited
    /// blocks again, on every answer.
    fn enter_round<R: Wait, N: Notify, C: Clock>(
        &self,
        rt: &R,
        m: &mut Member<N, W>,
        cell: &mut RoundCell<W>,
        clock: &mut C,
        limit: Option<u64>,
    ) -> Result<(), ReactFault>
        requires ops { m.old.ops.queue ≡ self.now.ops }
        requires words { Belongs self.now.words cell.old.seat }
        requires seat { IsIdleOrWaits cell.old.seat }
        ensures kept { m.new ≡ record m.old { ops = m.new.ops } }
        ensures entered { OnOk result (Enters
            (record (until (C.latest clock.new) (start_of C.bounds C.latest W.wait_step clock.old))
            { given = limit })
            cell.old cell.new m.old.ops m.new.ops) }
        ensures refused { IfErr result (λ fault.
            EnterRefused fault cell.old cell.new m.old.ops m.new.ops) }
        ensures clock { ClockGoesOn C.bounds C.latest clock.old clock.new }
    {
        let seat = &mut cell.seat;
        let work = &mut *cell.work;
        if work.round.as_round().is_idle() {
            match self.begin_round(rt, &mut m.ops, seat, &mut work.round, clock, limit) {
                Err(fault) => {
                    settle(&self.words, seat);
                    return Err(fault);
                }
                Ok(()) => {
                    wait_for_events(&self.words, seat, &mut work.round, &mut work.wait);
                    return Ok(());
                }
            }
        }
        settle(&self.words, seat);
        Ok(())
    }

    /// Looks at the ticker, begins a round after a drain, and raises the ticker to its number.
    fn begin_round<R: Wait, C: Clock>(
        &self,
        rt: &R,
        ops: &mut OpPass,
        seat: &mut RoundSeat,
        round: &mut CellRound,
        clock: &mut C,
        limit: Option<u64>,
    ) -> Result<(), ReactFault>
        requires ops { ops.old.queue ≡ self.now.ops }
        requires words { Belongs self.now.words seat.old }
        requires idle { round.old.running ≡ false }
        ensures words { seat.new.words ≡ seat.old.words }
        ensures begun { OnOk result (BeginsAs (seat.old.view.seen + 1)
            (C.bounds clock.old) (C.latest clock.old) (C.latest clock.new) limit
            ops.old ops.new round.new) }
        ensures drained { OnOk result (Drained ops.old ops.new) }
        ensures seat { OnOk result (seat.new.view ≡ rose seat.old.view) }
        ensures looked { OnErr result (seat.new.view ≡ looked seat.old.view) }
        ensures room { OnOk result (seat.old.view.seen < 2 ^ 64 - 1) }
        ensures refused { IfErr result (λ fault. BeginRefused fault
            seat.old.view seat.new.view round.old round.new ops.old ops.new) }
        ensures clock { ClockGoesOn C.bounds C.latest clock.old clock.new }
    {
        let rounds = self.words.rounds(seat);
        if rounds == u64::MAX {
            return Err(ReactFault::RoundsSpent);
        }
        match self
            .timers
            .drain_and_begin(&self.ops, rt, ops, round, clock, limit, rounds + 1)
        {
            Err(_) => return Err(ReactFault::OutOfMemory),
            Ok(()) => {}
        }
        match self.words.bump(seat) {
            Ok(_) => Ok(()),
            Err(_) => unreachable!(),
        }
    }

    /// Handles each event in hand. `OutOfMemory` leaves in hand what was not handled.
    fn handle_in_hand<R: Wait>(&self, rt: &R, cell: &mut RoundCell<W>) -> Result<(), OutOfMemory>
        ensures cell { cell.new ≡ record cell.old { round = cell.new.round } }
        ensures handled { HandlesSome self.now.sure_of_arms cell.old.round cell.new.round }
        ensures none_left { OnOk result (cell.new.round.hand ≡ []) }
    {
        let table = self.sources.lock(rt);
        cell.work.round.handle_each(rt, &table)
    }

    /// Ends the round, after a drain, under the lock of the book.
    fn end_round<R: Wait, N: Notify, C: Clock>(
        &self,
        rt: &R,
        m: &mut Member<N, W>,
        cell: &mut RoundCell<W>,
        clock: &mut C,
    ) -> Result<(), OutOfMemory>
        requires ops { m.old.ops.queue ≡ self.now.ops }
        requires running { cell.old.round.running ≡ true }
        requires hand { cell.old.round.hand ≡ [] }
        ensures kept { m.new ≡ record m.old { ops = m.new.ops } }
        ensures cell { cell.new ≡ record cell.old { round = cell.new.round } }
        ensures finished { OnOk result
            (Finishes (C.bounds clock.old) (C.latest clock.old) (C.latest clock.new)
            m.old.ops m.new.ops cell.old.round cell.new.round) }
        ensures drained { OnOk result (Drained m.old.ops m.new.ops) }
        ensures refused { OnErr result (cell.new ≡ cell.old) }
        ensures pushed { OnErr result (PushedNothing m.old.ops m.new.ops) }
        ensures clock { ClockGoesOn C.bounds C.latest clock.old clock.new }
    {
        self.timers
            .drain_and_end(&self.ops, rt, &mut m.ops, &mut cell.work.round, clock)
    }

    /// Wakes each waker that the ended round took, and answers the first fault or what was done.
    fn wake_taken<N: Notify>(
        &self,
        m: &mut Member<N, W>,
        cell: &RoundCell<W>,
        resumed: bool,
        in_hand: u32,
    ) -> Result<ReactedIn, ReactFault>
        requires words { Belongs self.now.words m.old.pass }
        requires few { in_hand ≤ 1024 }
        ensures kept { m.new ≡ record m.old { pass = m.new.pass; notifier = m.new.notifier } }
        ensures woke { Wakes self.now.words.parkers cell.now.round.taken m.old.pass m.new.pass }
        ensures calls { NotifiesAsWon m.old.pass.view m.new.pass.view
            (N.call_count m.old.notifier) (N.call_count m.new.notifier) }
        ensures first { TellsFirstWake N.call_count N.fault_count N.notify_step
            self.now.words.parkers cell.now.round.taken
            m.old.pass.view m.new.pass.view m.old.notifier m.new.notifier result }
        ensures tells { ReportsRound cell.now.round resumed in_hand
            (record { before = N.fault_count m.old.notifier; after = N.fault_count m.new.notifier })
            result }
        ensures faults { TellsFaults N.fault_count N.is_sure m.old.notifier m.new.notifier
            (NotifyFailed result) }
    {
        let round = cell.round();
        let failed = wake_each(&self.words, &mut m.pass, round.woken(), &mut m.notifier);
        report(round, failed, resumed, in_hand)
    }
}

/// Makes the wait of a round that has begun, and then clears `notified`: a seat that waited blocks
/// again.
fn wait_for_events<W: EventWait>(
    words: &Words,
    seat: &mut RoundSeat,
    round: &mut CellRound,
    wait: &mut CellWait<W>,
)
    requires words { Belongs words.now seat.old }
    requires mode { IsIdleOrWaits seat.old }
    requires risen { EndsInRise seat.old.view }
    requires number { round.old.number ≡ seat.old.view.seen }
    requires runs { round.old.running ≡ true }
    requires empty { round.old.hand ≡ [] }
    ensures awaits { Awaits W.wait_step round.old round.new wait.old wait.new
        (W.wait_count wait.old) (W.fault_count wait.old)
        (W.wait_count wait.new) (W.fault_count wait.new) (W.is_sure wait.old) }
    ensures stays { W.is_sure wait.new ≡ W.is_sure wait.old }
    ensures words { seat.new.words ≡ seat.old.words }
    ensures cleared { (found : ℕ)
        × (seat.new.view ≡ after (word_step.SwapNotified found) seat.old.view) }
{
    wait.await_events(seat, round);
    words.waited(seat);
}

/// Clears `notified` for a seat that waits, in a call that made no wait; it blocks again. Any other
/// seat is let be.
fn settle(words: &Words, seat: &mut RoundSeat)
    requires { Belongs words.now seat.old × IsIdleOrWaits seat.old }
    ensures words { seat.new.words ≡ seat.old.words }
    ensures settled { Settles (is_waiting seat.old.view.mode) seat.old.view seat.new.view }
    ensures mode { seat.new.view.mode ≡ blocking seat.old.view.mode }
{
    if seat.is_waiting() {
        words.waited(seat);
    }
}

/// What is answered for a round that ended, by the first fault of its wakes: the round's own fault
/// first.
fn report(
    round: &Round,
    failed: Option<CountFault>,
    resumed: bool,
    in_hand: u32,
) -> Result<ReactedIn, ReactFault>
    requires few { in_hand ≤ 1024 }
    ensures { Reports round.now failed resumed in_hand result }
{
    match round.fault() {
        Some(RoundFault::Wait(fault)) => return Err(ReactFault::Wait(fault)),
        Some(RoundFault::Arm(fault)) => return Err(ReactFault::Arm(fault)),
        None => {}
    }
    if let Some(fault) = failed {
        return Err(ReactFault::Notify(fault));
    }
    let events = if resumed { in_hand } else { round.given() };
    Ok(ReactedIn {
        resumed,
        events,
        woken: round.woken().len() as u64,
    })
}
