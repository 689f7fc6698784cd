//! A thread's way into a reactor, as a host of timers and tasks.

ghost use Rattle.std.specs.Prelude.{◌≡◌, ◌==◌, ◌-◌, ◌^◌, ◌≤◌, IsTrue, None};
ghost use Rattle.aio_rules.specs.SharedWords.{after};
ghost use Rattle.aio_rules.specs.WordCalls.{wake_steps};
ghost use Rattle.aio_rules.specs.declared.seats.WordStep.TheVariants as word_step;
ghost use Rattle.aio_base.specs.Hosts.{NotifierTells, wake_fault};
ghost use Rattle.aio_words.specs.Calls.{Offers};
ghost use Rattle.aio_shared.specs.Inside.{IsLaterInside, inside_rules, with_seat};

use crate::members::Member;
use crate::shared::Shared;
use aio_base::{
    Arm, CountFault, EventWait, Host, InsertRefusal, Later, Moment, Notify, OutOfMemory, TimerHost,
    TimerId, Waker,
};
use std::alloc::Global;
use std::marker::Model;
use std::sync::{Arc, Wait};

/// How many ids a member draws at most.
const IDS: u64 = 0xff_ffff_ffff;

/// A reactor with the member of one thread, as a host of the timers and tasks of that thread. The
/// member belongs to the reactor. Its calls may wait, as those of the reactor do.
#[derive(Drop)]
pub struct Inside<R: Wait, N: Notify, A: Arm, W: EventWait> {
    /// The handle by which calls may wait.
    pub rt: R,
    /// The reactor.
    pub shared: Arc<Shared<A, W>, Global>,
    /// The member of this thread.
    pub member: Member<N, W>,
}

impl<R: Wait, N: Notify, A: Arm, W: EventWait> Model for Inside<R, N, A, W> {
    ghost use Rattle.std.specs.Arc.{arc_value};
    ghost use Rattle.aio_shared.specs.Inside.{InsideValue};
    ghost use Rattle.aio_shared.specs.Members.{IsMemberOf};

    ghost Value = { InsideValue N };

    ghost view = { λ i. record { shared = arc_value i.shared; member = i.member } };

    ghost invariant = { λ i. IsMemberOf (arc_value i.shared) i.member };
}

impl<R: Wait, N: Notify, A: Arm, W: EventWait> Later for Inside<R, N, A, W> {
    ghost use Rattle.aio_shared.specs.Inside.{IsLaterInside};
    ghost use Rattle.aio_shared.specs.Later.{later_further, later_itself};

    ghost notifier_is_sure = { λ i. N.is_sure i.member.notifier };

    ghost is_later = { IsLaterInside N.fault_count N.is_sure };

    ghost later_than_itself = { later_itself N.fault_count N.is_sure };

    ghost later_than_later = { later_further N.fault_count N.is_sure };

    ghost stays_sure = { λ a b later. later.member.sure };
}

/// Timers are registered by the member, under the ids that it draws.
impl<R: Wait, N: Notify, A: Arm, W: EventWait> TimerHost for Inside<R, N, A, W> {
    ghost use Rattle.aio_shared.specs.Inside.{inside_rules};

    ghost rules = { inside_rules N.call_count N.fault_count N.notify_step };

    fn ids_left(&self) -> bool {
        self.member.ids != IDS
    }

    fn insert_timer(&mut self, at: Moment, waker: Waker) -> Result<TimerId, InsertRefusal> {
        self.shared
            .insert_timer(&self.rt, &mut self.member, at, waker)
    }

    fn remove_timer(&mut self, at: Moment, id: TimerId) -> Result<(), OutOfMemory> {
        self.shared.remove_timer(&self.rt, &mut self.member, at, id)
    }
}

/// Rounds are counted, and tasks woken, by the member's seat at the words.
impl<R: Wait, N: Notify, A: Arm, W: EventWait> Host for Inside<R, N, A, W> {
    fn ticker(&mut self) -> u64
        ensures loaded { self.new.member.pass.view
            ≡ after (word_step.LoadTicker result) self.old.member.pass.view }
        ensures kept { self.new
            ≡ with_seat self.old self.new.member.pass self.old.member.notifier }
        ensures looks { (inside_rules N.call_count N.fault_count N.notify_step).looked
            self.old result self.new }
        ensures least { self.old.member.pass.view.seen ≤ result }
        ensures later { IsLaterInside N.fault_count N.is_sure self.old self.new }
        ensures notifier { NotifierTells (N.is_sure self.old.member.notifier)
            (N.fault_count self.old.member.notifier) (N.fault_count self.new.member.notifier) None }
        ensures pass { self.new.member.ops.number ≡ self.old.member.ops.number }
        ensures ids { self.new.member.ids ≡ self.old.member.ids }
    {
        self.shared.ticker_by(&mut self.member)
    }

    fn wake(&mut self, waker: Waker) -> Result<(), CountFault>
        ensures woke { Offers N.call_count N.notify_step
            (wake_steps waker.0 self.old.shared.words.parkers)
            self.old.member.pass.view self.new.member.pass.view
            self.old.member.notifier self.new.member.notifier result }
        ensures kept { self.new
            ≡ with_seat self.old self.new.member.pass self.new.member.notifier }
        ensures wakes { (inside_rules N.call_count N.fault_count N.notify_step).woke
            self.old waker result self.new }
        ensures notifier { NotifierTells (N.is_sure self.old.member.notifier)
            (N.fault_count self.old.member.notifier) (N.fault_count self.new.member.notifier)
            (wake_fault result) }
        ensures later { IsLaterInside N.fault_count N.is_sure self.old self.new }
        ensures pass { self.new.member.ops.number ≡ self.old.member.ops.number }
        ensures ids { self.new.member.ids ≡ self.old.member.ids }
    {
        self.shared.wake_by(&mut self.member, waker)
    }
}
