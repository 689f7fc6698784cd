//! The sections of a core's round (`async-io` 2, `reactor.rs`, `ReactorLock::react`).

ghost use Rattle.std.specs.Prelude.{◌≡◌, ◌≢◌, ℕ, ◌+◌, [], false, drop, Option, None, Some, option_map, slice_get, IsSome, IfSome, IfOk, OnOk, OnErr};
ghost use Rattle.std.specs.Option.{option_or};
ghost use Rattle.aio_base.specs.declared.names.Event.{Event};
ghost use Rattle.aio_base.specs.declared.steps.Step.TheVariants as step;
ghost use Rattle.aio_base.specs.Devices.{PollerStep, TellsFaults};
ghost use Rattle.aio_base.specs.Machine.{handle_round, finish_round};
ghost use Rattle.aio_base.specs.Timers.{due_wakers};
ghost use Rattle.aio_source.specs.declared.in_hand.RoundFault.TheVariants.{Arm};
ghost use Rattle.aio_react.specs.Asking.{UsesPoller, handle_part};
ghost use Rattle.aio_react.specs.Meeting.{Meets};
ghost use Rattle.aio_react.specs.Parts.{MeetsPart};
ghost use Rattle.aio_react.specs.Replies.{empty_hand_refusal};
ghost use Rattle.aio_source.specs.InHand.{arm_told};
ghost use Rattle.aio_react.specs.Rounds.{HasRisen};
ghost use Rattle.aio_react.specs.Sections.{IsRefusedBy, begin_refusal, core_begun, begin_reply, handle_refusal, handle_reply, handle_fault, finish_reply, finish_wakes};

use super::{Core, require_empty_hand};
use crate::outcomes::Handled;
use crate::refusals::CoreRefusal;
use aio_base::{Moment, Poller};
use aio_source::{InHand, RoundFault};

impl<P: Poller> Core<P> {
    /// Begins a round at the moment `now`, with a pass over the timers. Answers its number, to which
    /// the count of rounds is raised, and the limit of its waits in nanoseconds: 0 where the pass
    /// took a timer, otherwise the lesser of the time to the first deadline and the given limit,
    /// each where there is one. `Locked` exactly where a round runs, and then `RoundsSpent` exactly
    /// where 2^64 - 1 rounds have begun; `OutOfMemory` where there is no memory for the wakers that
    /// are due. All is as before then.
    #[inline(always)]
    pub fn begin(
        &mut self,
        now: Moment,
        given: Option<u64>,
    ) -> Result<(u64, Option<u64>), CoreRefusal>
        ensures meets { IfSome (begin_reply result) (λ reply. Meets
            (PollerStep P.arm_step P.wait_step) P.interests (step.Begin given) (Some now)
            reply [] None self.old self.new) }
        ensures cause { IsRefusedBy (begin_refusal self.old.1) result }
        ensures refused { OnErr result (self.new ≡ self.old) }
        ensures poller { self.new.0 ≡ self.old.0 }
        ensures begun { OnOk result (self.new.1 ≡ core_begun self.old.1 now given) }
        ensures number { IfOk result (λ answer. answer.0 ≡ self.old.1.ticker + 1) }
    {
        if !self.round.is_idle() {
            return Err(CoreRefusal::Locked);
        }
        let Some(number) = self.ticker.checked_add(1) else {
            return Err(CoreRefusal::RoundsSpent);
        };
        match self.round.begin(&mut self.book, now, given, number) {
            Ok(limit) => {
                self.ticker = number;
                Ok((number, limit))
            }
            Err(_) => Err(CoreRefusal::OutOfMemory),
        }
    }

    /// Handles the first event in hand: the waiters of its directions are taken, to be woken when
    /// the round ends, and the poller is armed again where a waiter of the source is left. An event
    /// whose key no source has is dropped. Answers the event's key, and the fault of an arm that
    /// failed, which the round keeps where it kept none; the event is handled all the same.
    /// `NoRound` exactly where no round runs, and then `NothingInHand` exactly where no event is in
    /// hand; `OutOfMemory` where there is no memory for the waiters, and the event stays in hand.
    /// All is as before then.
    #[inline(always)]
    pub fn handle(&mut self) -> Result<Handled, CoreRefusal>
        ensures meets { IfSome (handle_reply result) (λ reply. Meets
            (PollerStep P.arm_step P.wait_step) P.interests step.Handle None
            reply [] None self.old self.new) }
        ensures part { (limit : Option ℕ) → IfSome (handle_reply result) (λ reply. MeetsPart
            (PollerStep P.arm_step P.wait_step) P.interests handle_round None
            reply [] limit self.old self.new) }
        ensures cause { IsRefusedBy (handle_refusal self.old.1.round) result }
        ensures refused { OnErr result (self.new ≡ self.old) }
        ensures first { IfOk result (λ handled. option_map (λ (event : Event). event.key)
            (slice_get self.old.1.round.hand 0) ≡ Some handled.key) }
        ensures hand { OnOk result (self.new.1.round.hand ≡ drop 1 self.old.1.round.hand) }
        ensures runs { self.new.1.round.running ≡ self.old.1.round.running }
        ensures book { self.new.1.book ≡ self.old.1.book }
        ensures kept { self.new.1.round.fault
            ≡ option_or self.old.1.round.fault (option_map Arm (handle_fault result)) }
        ensures lent { IfOk result (λ handled.
            UsesPoller P.arm_step P.interests P.rest P.fault_count P.is_sure
            (handle_part self.old.1) (arm_told handled.fault) self.old.0 self.new.0) }
        ensures faults { TellsFaults P.fault_count P.is_sure self.old.0 self.new.0
            (IsSome (handle_fault result)) }
        ensures fault { IfOk result (λ handled. IfSome handled.fault (λ fault. fault ≡ record {
          key = handled.key;
          before = P.fault_count self.old.0;
          after = P.fault_count self.new.0;
        })) }
    {
        if self.round.is_idle() {
            return Err(CoreRefusal::NoRound);
        }
        let Some(event) = self.round.peek() else {
            return Err(CoreRefusal::NothingInHand);
        };
        let key = event.key;
        match self.sources.get_mut(key) {
            Some(entry) => match self.round.handle(&mut entry.source, &mut self.poller) {
                Ok(fault) => Ok(Handled { key, fault }),
                Err(_) => Err(CoreRefusal::OutOfMemory),
            },
            None => {
                self.round.skip();
                Ok(Handled { key, fault: None })
            }
        }
    }

    /// Ends the running round, where no event is in hand, with a second pass over the timers at the
    /// moment `now` where its last wait gave no event and had time to wait. Answers its first fault;
    /// `woken` has the wakers that are to be woken then. `NoRound` exactly where no round runs, and
    /// then `EventsLeft` exactly where events are in hand; `OutOfMemory` where there is no memory for
    /// the wakers that are due, so only where some are, and the round runs on. All is as before then.
    #[inline(always)]
    pub fn finish(&mut self, now: Moment) -> Result<Option<RoundFault>, CoreRefusal>
        ensures meets { IfSome (finish_reply result) (λ reply. Meets
            (PollerStep P.arm_step P.wait_step) P.interests step.Finish (Some now)
            reply (finish_wakes result self.new.1.round) None self.old self.new) }
        ensures part { (limit : Option ℕ) → IfSome (finish_reply result) (λ reply. MeetsPart
            (PollerStep P.arm_step P.wait_step) P.interests finish_round (Some now)
            reply (finish_wakes result self.new.1.round) limit self.old self.new) }
        ensures cause { IsRefusedBy (empty_hand_refusal self.old.1.round) result }
        ensures refused { OnErr result (self.new ≡ self.old) }
        ensures wanting { OnErr result (empty_hand_refusal self.old.1.round ≡ None
            → due_wakers now self.old.1.book ≢ []) }
        ensures poller { self.new.0 ≡ self.old.0 }
        ensures idle { OnOk result (self.new.1.round.running ≡ false) }
        ensures fault { IfOk result (λ fault. fault ≡ self.old.1.round.fault) }
        ensures rose { IfOk result (λ fault. IfSome fault HasRisen) }
    {
        match require_empty_hand(&self.round) {
            Ok(()) => {}
            Err(refusal) => return Err(refusal),
        }
        match self.round.finish(&mut self.book, now) {
            Ok(fault) => Ok(fault),
            Err(_) => Err(CoreRefusal::OutOfMemory),
        }
    }
}
