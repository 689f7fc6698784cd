//! A whole round of a core (`async-io` 2, `reactor.rs`, `ReactorLock::react`).

ghost use Rattle.std.specs.Prelude.{◌≡◌, ◌≢◌, ℕ, [], true, false, Option, None, Some, IsSome, IfSome, OnOk, OnErr};
ghost use Rattle.aio_base.specs.declared.steps.Answer.TheVariants.{Empty};
ghost use Rattle.aio_base.specs.declared.steps.Step.TheVariants as step;
ghost use Rattle.aio_base.specs.Devices.{PollerStep, TellsFaults};
ghost use Rattle.aio_base.specs.Machine.{handle_each};
ghost use Rattle.aio_base.specs.Timers.{limit_of};
ghost use Rattle.aio_react.specs.Meeting.{Meets};
ghost use Rattle.aio_react.specs.Parts.{MeetsPart};
ghost use Rattle.aio_react.specs.Reacting.{react_reply, react_wakes, react_fault, RisesWithin, FaultsSince, MeetsRound, Handles, Stopped};
ghost use Rattle.aio_react.specs.Sections.{IsRefusedBy, begin_refusal};

use super::Core;
use crate::outcomes::Reacted;
use crate::refusals::CoreRefusal;
use aio_base::{Moment, OutOfMemory, Poller, Waited};
use aio_source::InHand;

impl<P: Poller> Core<P> {
    /// A whole round at the moment `now`, all in one step of the machine: a begin with the given
    /// limit, one wait, the handling of each event that it gave, and a finish. With no limit it is the
    /// machine's step of that name. `woken` has the wakers that are to be woken then. A wait or an arm
    /// that fails stops nothing, and the first fault is answered at the end. `Locked` exactly where a round runs, and then `RoundsSpent` exactly where
    /// 2^64 - 1 rounds have begun; all is as before then. `OutOfMemory` where memory ran out: before
    /// the begin all is as before, and no round runs; after it an event is in hand whose waiters found
    /// no memory, and the round runs on with its events, wakers and first fault, which this call met,
    /// for `handle` and `finish`. So a wait that failed or was interrupted never ends in it.
    #[inline(always)]
    pub fn react(&mut self, now: Moment, given: Option<u64>) -> Result<Reacted, CoreRefusal>
        ensures meets { IfSome (react_reply result) (λ reply. MeetsRound
            (PollerStep P.arm_step P.wait_step) P.interests given now
            reply (react_wakes result self.new.1.round) self.old self.new) }
        ensures alone { given ≡ None → IfSome (react_reply result) (λ reply. Meets
            (PollerStep P.arm_step P.wait_step) P.interests step.React (Some now)
            reply (react_wakes result self.new.1.round) (limit_of now self.old.1.book None)
            self.old self.new) }
        ensures cause { IsRefusedBy (begin_refusal self.old.1) result }
        ensures refused { IsSome (begin_refusal self.old.1) → self.new ≡ self.old }
        ensures unbegun { OnErr result
            (self.new.1.round.running ≡ false → self.new ≡ self.old) }
        ensures stopped { OnErr result (begin_refusal self.old.1 ≡ None
            → self.new.1.round.running ≡ true → Stopped
            (PollerStep P.arm_step P.wait_step) P.interests given now self.old self.new) }
        ensures kept { OnErr result (begin_refusal self.old.1 ≡ None
            → self.new.1.round.running ≡ true → IfSome self.new.1.round.fault
            (RisesWithin (P.fault_count self.old.0) (P.fault_count self.new.0))) }
        ensures wanting { OnErr result (begin_refusal self.old.1 ≡ None
            → self.new.1.round.running ≡ true → self.new.1.round.hand ≢ []) }
        ensures idle { OnOk result (self.new.1.round.running ≡ false) }
        ensures faults { TellsFaults P.fault_count P.is_sure self.old.0 self.new.0
            (IsSome (react_fault result)) }
        ensures fault { IfSome (react_fault result)
            (RisesWithin (P.fault_count self.old.0) (P.fault_count self.new.0)) }
    {
        let (number, _) = match self.begin(now, given) {
            Ok(begun) => begun,
            Err(refusal) => return Err(refusal),
        };
        let events = match self.wait() {
            Ok(Waited::Given(n)) => n,
            Ok(Waited::Interrupted) => 0,
            Err(_) => 0,
        };
        match self.handle_all() {
            Ok(()) => {}
            Err(_) => return Err(CoreRefusal::OutOfMemory),
        }
        match self.finish(now) {
            Ok(fault) => Ok(Reacted {
                number,
                events,
                fault,
            }),
            Err(_) => Err(CoreRefusal::OutOfMemory),
        }
    }

    /// Handles the events in hand of the running round, one after the other, until none is.
    /// `OutOfMemory` where there is no memory for the waiters of one, which stays in hand with those
    /// behind it.
    fn handle_all(&mut self) -> Result<(), OutOfMemory>
        requires { self.old.1.round.running ≡ true }
        ensures part { OnOk result ((limit : Option ℕ) → MeetsPart
            (PollerStep P.arm_step P.wait_step) P.interests (handle_each self.old.1.round.hand)
            None Empty [] limit self.old self.new) }
        ensures handles { Handles (PollerStep P.arm_step P.wait_step) P.interests
            self.old self.new }
        ensures runs { self.new.1.round.running ≡ true }
        ensures hand { OnOk result (self.new.1.round.hand ≡ []) }
        ensures wanting { OnErr result (self.new.1.round.hand ≢ []) }
        ensures book { self.new.1.book ≡ self.old.1.book }
        ensures faults { (start : P) → FaultsSince P.fault_count P.is_sure
            start self.old.0 self.old.1.round.fault → FaultsSince P.fault_count P.is_sure
            start self.new.0 self.new.1.round.fault }
    {
        while self.round.in_hand() > 0 {
            match self.handle() {
                Ok(_) => {}
                Err(_) => return Err(OutOfMemory),
            }
        }
        Ok(())
    }
}
