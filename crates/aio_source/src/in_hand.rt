//! The events of a round that are in hand, as a trait with a written meaning for whoever has the sources.

ghost use Rattle.std.specs.Prelude.{◌≡◌, ◌≢◌, ◌≤◌, [], false, None, Some, IfOk, OnErr, length, option_map, slice_get};
ghost use Rattle.aio_base.specs.declared.names.Event.{Event};
ghost use Rattle.aio_source.specs.InHand.{arm_told, handled, handling_first, skipped, taken_first};
ghost use Rattle.aio_source.specs.Lent.{arm_answer, fault_of, UsesArm, arm_of, settled};

use crate::source::SourceState;
use aio_base::{Arm, ArmFault, CountFault, Event, OutOfMemory};

/// What failed in a round first.
#[derive(Clone, Copy, Debug, PartialEq, Eq)]
pub enum RoundFault {
    /// A wait of the round failed, between these two counts of the poller's faults.
    Wait(CountFault),
    /// An arm of the round failed, between these two counts of the lent arm's faults.
    Arm(ArmFault),
}

/// A round whose events are in hand: they are handled by their sources one by one, or skipped, and nothing
/// else is done to the round meanwhile. An idle round has none.
pub trait InHand {
    ghost use Rattle.aio_source.specs.InHand.{RoundValue};

    /// The round, as contracts see it.
    ghost round: { Self → RoundValue };

    /// The first event in hand. `None` exactly where none is, as on an idle round.
    fn peek(&self) -> Option<Event>
        ensures value { result ≡ slice_get (round self.now).hand 0 }
        ensures none { result ≡ None → (round self.now).hand ≡ [] }
        ensures idle { (round self.now).running ≡ false → result ≡ None };

    /// How many events are in hand.
    fn in_hand(&self) -> usize
        ensures value { result ≡ length (round self.now).hand }
        ensures bound { result ≤ 1024 }
        ensures none { result ≡ 0 → (round self.now).hand ≡ [] }
        ensures idle { (round self.now).running ≡ false → result ≡ 0 };

    /// Handles the first event in hand on its source: the wakers that it takes join those of the
    /// round, and the arm is lent to the source, which arms it once at most. Answers the fault of
    /// an arm that failed, which is kept where no fault was; the event is handled all the same.
    /// `OutOfMemory` where there is no memory for the wakers; the event then stays in hand, and all
    /// is as before.
    fn handle<A: Arm>(
        &mut self,
        s: &mut SourceState,
        arm: &mut A,
    ) -> Result<Option<ArmFault>, OutOfMemory>
        requires { option_map (λ (event : Event). event.key) (slice_get (round self.old).hand 0)
            ≡ Some s.old.key }
        ensures round { IfOk result (λ fault.
            round self.new ≡ handled (round self.old) (taken_first (round self.old) s.old) fault) }
        ensures source { let p = handling_first (round self.old) s.old in
            IfOk result (λ fault. s.new ≡ settled p.arms (arm_answer (arm_told fault)) p.source) }
        ensures lent { let p = handling_first (round self.old) s.old in
            IfOk result (λ fault. UsesArm A.arm_step A.interests A.rest A.fault_count A.is_sure
            p.arms (arm_of p.source) (arm_answer (arm_told fault)) arm.old arm.new) }
        ensures fault { IfOk result (λ fault. arm_told fault ≡ fault_of s.old.key
            (A.fault_count arm.old) (A.fault_count arm.new) (arm_answer (arm_told fault))) }
        ensures key { s.new.key ≡ s.old.key }
        ensures refused { OnErr result
            ((round self.new ≡ round self.old) × (s.new ≡ s.old) × (arm.new ≡ arm.old)) };

    /// Drops the first event in hand, whose key no source has. It takes no memory.
    fn skip(&mut self)
        requires { (round self.old).hand ≢ [] }
        ensures { round self.new ≡ skipped (round self.old) };
}
