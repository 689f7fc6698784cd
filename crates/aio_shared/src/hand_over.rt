//! The wakes by which a thread hands over: of the other parkers, and of every task.

ghost use Rattle.std.specs.Prelude.{◌≡◌};
ghost use Rattle.aio_words.specs.Seats.{Belongs};
ghost use Rattle.aio_shared.specs.HandOver.{all_slots, first_slots_but};
ghost use Rattle.aio_shared.specs.Members.{IsLaterMember, IsMemberOf};
ghost use Rattle.aio_shared.specs.Waking.{MemberWakes, WakesThese};

use crate::members::Member;
use crate::shared::Shared;
use crate::waking::first_of;
use aio_base::{Arm, CountFault, EventWait, Notify, Waker};
use aio_words::{Pass, Words};

impl<A: Arm, W: EventWait> Shared<A, W> {
    /// Wakes the first slot of each parker but this one, in order. It is for whoever stops to make
    /// rounds while the threads of other parkers may be parked: each that is woken polls its task,
    /// tries the reactor lock, and makes rounds by itself where it has it (`async-io` 2 has a thread of
    /// its own for this, `driver.rs`, `main_loop`).
    ///
    /// # Errors
    ///
    /// The first fault of the member's notifier, between two counts of its faults in this call. The
    /// others were woken all the same.
    pub fn wake_other_parkers<N: Notify>(
        &self,
        m: &mut Member<N, W>,
        parker: u32,
    ) -> Result<(), CountFault>
        requires belongs { IsMemberOf self.now m.old }
        ensures wakes { MemberWakes N.call_count N.fault_count N.is_sure N.notify_step
            self.now.words.parkers (first_slots_but parker) m.old m.new result }
        ensures kept { m.new ≡ record m.old { pass = m.new.pass; notifier = m.new.notifier } }
        ensures belongs { IsMemberOf self.now m.new }
        ensures later { IsLaterMember N.fault_count N.is_sure m.old m.new }
    {
        match wake_first_slots(&self.words, &mut m.pass, parker, &mut m.notifier) {
            Some(fault) => Err(fault),
            None => Ok(()),
        }
    }

    /// Wakes every slot of every parker, in the order of their wakers. It is for whoever was told that
    /// an arm failed: a source may be armed no longer then, until the task that waits for it polls it
    /// again.
    ///
    /// # Errors
    ///
    /// The first fault of the member's notifier, between two counts of its faults in this call. The
    /// others were woken all the same.
    pub fn wake_all_slots<N: Notify>(&self, m: &mut Member<N, W>) -> Result<(), CountFault>
        requires belongs { IsMemberOf self.now m.old }
        ensures wakes { MemberWakes N.call_count N.fault_count N.is_sure N.notify_step
            self.now.words.parkers all_slots m.old m.new result }
        ensures kept { m.new ≡ record m.old { pass = m.new.pass; notifier = m.new.notifier } }
        ensures belongs { IsMemberOf self.now m.new }
        ensures later { IsLaterMember N.fault_count N.is_sure m.old m.new }
    {
        match wake_slots(&self.words, &mut m.pass, &mut m.notifier) {
            Some(fault) => Err(fault),
            None => Ok(()),
        }
    }
}

/// Wakes the first slot of each parker but this one, in order, also past one that failed. The first
/// fault, where there was one.
fn wake_first_slots<N: Notify>(
    words: &Words,
    p: &mut Pass,
    parker: u32,
    n: &mut N,
) -> Option<CountFault>
    requires { Belongs words.now p.old }
    ensures wakes { WakesThese N.call_count N.fault_count N.is_sure N.notify_step words.now.parkers
        (first_slots_but parker) p.old p.new n.old n.new result }
{
    let mut first = None;
    for other in 0..16u32 {
        if other == parker {
            continue;
        }
        let woken = words.wake(p, Waker(64 * other), n);
        first = first_of(first, woken);
    }
    first
}

/// Wakes every slot, in order, also past one that failed. The first fault, where there was one.
fn wake_slots<N: Notify>(words: &Words, p: &mut Pass, n: &mut N) -> Option<CountFault>
    requires { Belongs words.now p.old }
    ensures wakes { WakesThese N.call_count N.fault_count N.is_sure N.notify_step words.now.parkers
        all_slots p.old p.new n.old n.new result }
{
    let mut first = None;
    for slot in 0..1024u32 {
        let woken = words.wake(p, Waker(slot), n);
        first = first_of(first, woken);
    }
    first
}
