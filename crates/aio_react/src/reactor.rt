//! The reactor on one thread.

ghost use Rattle.std.specs.Prelude.{◌≡◌, List, [], Some, false, true, is_some, IfOk, IfErr, OnOk};
ghost use Rattle.std.specs.Borrow.{sem};
ghost use Rattle.aio_base.specs.Machine.{hand_of, is_live};
ghost use Rattle.aio_base.specs.World.{World, ArmedDirection, opening};
ghost use Rattle.aio_react.specs.Cores.{new_core, entry_at};
ghost use Rattle.aio_react.specs.Replies.{empty_hand_refusal};
ghost use Rattle.aio_react.specs.Standing.{Stands};
ghost use Rattle.aio_facts.specs.Armed.{AgreesWithArmed};

mod asks;
mod listeners;
mod polls;
mod reacting;
mod rounds;
mod sources;

use crate::entries::SourceEntry;
use crate::listener_table::ListenerTable;
use crate::refusals::CoreRefusal;
use crate::round::Round;
use aio_base::{
    Event, EventWait, InsertRefusal, Key, Later, Moment, OutOfMemory, Poller, TimerHost, TimerId,
    Waited, Waker,
};
use aio_source::{InHand, KeyTable};
use aio_timers::{TimerBook, TimerOp};
use std::alloc::Global;
use std::marker::Model;

/// How many ids a pass draws at most.
const IDS: u64 = 0xff_ffff_ffff;

/// A reactor on one thread (`async-io` 2, `reactor.rs`, `Reactor`): a poller, the sources that are
/// registered with it, their listeners, the registered timers and the round.
///
/// Contracts see the poller beside plain lists and numbers. Each listener's source lives, counts it
/// and holds the ticket of its first poll.
///
/// The poller may be hostile: it may give events of any keys and directions, and each of its calls may
/// fail. Each call of a core then returns where the poller's calls do, a refusal is one of those that the
/// call names, and an event that finds no memory stays in hand for the next `handle`. That a poller gives
/// its events, that those it gives did happen, time and progress are not promised.
#[derive(Drop)]
pub struct Core<P> {
    poller: P,
    sources: KeyTable<SourceEntry>,
    listeners: ListenerTable,
    ticker: u64,
    book: TimerBook,
    ids_drawn: u64,
    round: Round,
    alloc: Global,
}

impl<P> Model for Core<P> {
    ghost use Rattle.std.specs.Prelude.{◌≤◌, ◌-◌, ◌^◌};
    ghost use Rattle.aio_react.specs.Cores.{CoreValue, AreKeyed, AreListed};

    ghost Value = { P × CoreValue };

    ghost view = { λ c. (
      c.poller,
      record {
        sources = c.sources;
        listeners = c.listeners;
        ticker = c.ticker;
        book = c.book.entries;
        ids_drawn = c.ids_drawn;
        round = c.round;
      },
    ) };

    ghost invariant = { λ c. AreKeyed c.sources × AreListed c.sources c.listeners
        × (c.ids_drawn ≤ 2 ^ 40 - 1) };
}

impl<P: Poller> Core<P> {
    ghost use Rattle.std.specs.Prelude.{◌≤◌, None, option_map, IsSome, IfSome, length};
    ghost use Rattle.std.specs.Option.{option_or};
    ghost use Rattle.aio_base.specs.declared.steps.Step.TheVariants as step;
    ghost use Rattle.aio_base.specs.Machine.{wait_round};
    ghost use Rattle.aio_base.specs.Devices.{PollerStep, TellsFaults};
    ghost use Rattle.aio_react.specs.Lending.{LendsPoller};
    ghost use Rattle.aio_react.specs.Meeting.{Meets};
    ghost use Rattle.aio_react.specs.Parts.{MeetsPart};
    ghost use Rattle.aio_react.specs.Replies.{wait_phase, wait_failure, wait_given, wait_reply};
    ghost use Rattle.aio_source.specs.declared.in_hand.RoundFault.TheVariants.{Wait};

    /// A reactor with no source, no listener, no timer and no round, and with room for 4,096
    /// sources and 8,192 listeners. It stands for the opening world with the interests that the poller tells. Where
    /// memory ran out the poller is handed back.
    #[tactic(auto, using(crate::proofs::steps::Opening::opening_stands))]
    pub fn new(alloc: Global, poller: P) -> Result<Core<P>, P>
        ensures core { IfOk result (λ core. core ≡ (poller, new_core)) }
        ensures stands { (armed : List ArmedDirection) → AgreesWithArmed (P.interests poller) armed
            → IfOk result (λ core. Stands (P.interests core.0) core.1
            (record opening { armed = armed })) }
        ensures refused { IfErr result (λ back. back ≡ poller) }
    {
        let Ok(round) = Round::new(alloc) else {
            return Err(poller);
        };
        let Ok(sources) = KeyTable::new(alloc) else {
            return Err(poller);
        };
        let Ok(listeners) = ListenerTable::new(alloc) else {
            return Err(poller);
        };
        Ok(Core {
            poller,
            sources,
            listeners,
            ticker: 0,
            book: TimerBook::new(alloc),
            ids_drawn: 0,
            round,
            alloc,
        })
    }

    /// How many rounds have begun.
    pub fn ticker(&self) -> u64
        ensures value { result ≡ self.now.1.ticker }
        ensures world { (w : World) → Stands (P.interests self.now.0) self.now.1 w
            → result ≡ w.rounds }
    {
        self.ticker
    }

    /// Whether a source has this key.
    #[tactic(auto, using(crate::proofs::sources::Living::live_stands))]
    pub fn live(&self, key: Key) -> bool
        ensures value { result ≡ is_some (entry_at self.now.1.sources key.0) }
        ensures world { (w : World) → Stands (P.interests self.now.0) self.now.1 w
            → result ≡ is_live w.live key.0 }
    {
        self.sources.is_taken(key)
    }

    /// Waits once in the running round, for at most its limit, where no event is in hand. `NoRound`
    /// exactly where no round runs, and then `EventsLeft` exactly where events are in hand: both
    /// leave all as it was. `WaitFault` only where the poller's count of faults rose; the round
    /// keeps it where it kept none. It takes no memory.
    #[inline(always)]
    pub fn wait(&mut self) -> Result<Waited, CoreRefusal>
        ensures meets { Meets (PollerStep P.arm_step P.wait_step) P.interests step.Wait None
            (wait_reply result) [] self.old.1.round.limit self.old self.new }
        ensures phase { wait_phase result ≡ empty_hand_refusal self.old.1.round }
        ensures part { MeetsPart (PollerStep P.arm_step P.wait_step) P.interests wait_round None
            (wait_reply result) [] self.old.1.round.limit self.old self.new }
        ensures refused { IsSome (wait_phase result) → self.new ≡ self.old }
        ensures given { wait_phase result ≡ None
            → length self.new.1.round.hand ≡ wait_given result }
        ensures bound { wait_given result ≤ 1024 }
        ensures runs { self.new.1.round.running ≡ self.old.1.round.running }
        ensures book { self.new.1.book ≡ self.old.1.book }
        ensures kept { self.new.1.round.fault
            ≡ option_or self.old.1.round.fault (option_map Wait (wait_failure result)) }
        ensures faults { TellsFaults P.fault_count P.is_sure self.old.0 self.new.0
            (IsSome (wait_failure result)) }
        ensures fault { IfSome (wait_failure result) (λ fault. fault ≡ record {
          before = P.fault_count self.old.0;
          after = P.fault_count self.new.0;
        }) }
    {
        match require_empty_hand(&self.round) {
            Ok(()) => {}
            Err(refusal) => return Err(refusal),
        }
        match self.round.wait(&mut self.poller) {
            Ok(waited) => Ok(waited),
            Err(fault) => Err(CoreRefusal::WaitFault(fault)),
        }
    }

    /// The events in hand, in order: those of the running round's last wait that were not handled yet. None
    /// where no round runs.
    #[tactic(auto, using(crate::proofs::rounds::IdleRounds::hand_stands))]
    pub fn in_hand(&self) -> &[Event]
        ensures value { result.now ≡ self.now.1.round.hand }
        ensures bound { length result.now ≤ 1024 }
        ensures idle { self.now.1.round.running ≡ false → result.now ≡ [] }
        ensures world { (w : World) → Stands (P.interests self.now.0) self.now.1 w
            → result.now ≡ hand_of w.round }
    {
        self.round.hand()
    }

    /// Where no round runs, the wakers that are to be woken for the last one, in order.
    pub fn woken(&self) -> &[Waker]
        ensures { result.now ≡ self.now.1.round.taken }
    {
        self.round.woken()
    }

    /// The poller, to be told or asked.
    pub fn poller(&mut self) -> &mut P
        ensures* lends { sem 𝓛 (LendsPoller P.row self.entry result) }
        ensures value { result.now ≡ self.old.0 }
    {
        &mut self.poller
    }
}

impl<P: Poller> Later for Core<P> {
    ghost use Rattle.std.specs.Prelude.{true, refl};

    ghost notifier_is_sure = { λ c. true };

    ghost is_later = { λ old new. Unit {0} };

    ghost later_than_itself = { λ c. tt };

    ghost later_than_later = { λ a b c first second. tt };

    ghost stays_sure = { λ a b later. refl };
}

/// A core hosts timers as pass 0: its ids are 1, 2, 3 and so on. It has nobody to notify, and
/// removes without memory.
impl<P: Poller> TimerHost for Core<P> {
    ghost use Rattle.aio_react.specs.Hosting.{core_rules};

    ghost rules = { core_rules };

    fn ids_left(&self) -> bool {
        self.ids_drawn != IDS
    }

    fn insert_timer(&mut self, at: Moment, waker: Waker) -> Result<TimerId, InsertRefusal> {
        match self.book.reserve(1) {
            Ok(()) => {}
            Err(_) => return Err(InsertRefusal::OutOfMemory),
        }
        let id = TimerId(self.ids_drawn + 1);
        self.book.apply(TimerOp::Insert(at, id, waker));
        self.ids_drawn += 1;
        Ok(id)
    }

    fn remove_timer(&mut self, at: Moment, id: TimerId) -> Result<(), OutOfMemory> {
        self.book.apply(TimerOp::Remove(at, id));
        Ok(())
    }
}

/// Refuses where no round runs, or where an event is in hand.
fn require_empty_hand(round: &Round) -> Result<(), CoreRefusal>
    ensures phase { OnOk result ((round.now.running ≡ true) × (round.now.hand ≡ [])) }
    ensures refused { IfErr result (λ refusal. Some refusal ≡ empty_hand_refusal round.now) }
{
    if round.is_idle() {
        return Err(CoreRefusal::NoRound);
    }
    let left = round.in_hand();
    if left > 0 {
        return Err(CoreRefusal::EventsLeft(left as u32));
    }
    Ok(())
}
