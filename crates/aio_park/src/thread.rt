//! A thread of a reactor, which runs tasks.

ghost use Rattle.std.specs.Prelude.{◌≡◌, ◌↔◌, ℕ, ◌+◌, ◌<◌, ◌≤◌, length, Err, IfOk, IfErr, OnOk, OnErr};
ghost use Rattle.aio_ops.specs.Passes.{pass_limit};
ghost use Rattle.aio_shared.specs.HandOver.{all_slots, first_slots_but};
ghost use Rattle.aio_shared.specs.Inside.{IsLaterInside};
ghost use Rattle.aio_shared.specs.Members.{IsNewMember, with_one_more_made};
ghost use Rattle.aio_shared.specs.Starting.{IsFirstMember, IsNewReactor};
ghost use Rattle.aio_shared.specs.Waking.{MemberWakes};
ghost use Rattle.aio_park.specs.Blocking.{HasFaultCause, IsPast, PolledUntil, gained, taken_of};
ghost use Rattle.aio_park.specs.Driving.{TurnsOver};

use crate::blocking::block_on;
use crate::rounds::BlockFault;
use aio_base::{Arm, Clock, CountFault, EventWait, Notify, OutOfMemory, Task};
use aio_ops::PassRefusal;
use aio_shared::{Inside, Shared};
use std::alloc::Global;
use std::sync::{Arc, Wait};

/// A thread of a reactor: its way into the reactor, its parker and its clock. No other thread uses the
/// parker at the same time.
#[derive(Drop)]
pub struct Thread<R: Wait, N: Notify, A: Arm, W: EventWait, C> {
    /// The reactor, with the member of this thread.
    pub host: Inside<R, N, A, W>,
    /// The clock of this thread.
    pub clock: C,
    /// The parker of this thread.
    pub parker: u32,
    ghost below: { parker < host.shared.words.parkers },
}

impl<R: Wait + Copy, N: Notify + Drop, A: Arm + Drop, W: EventWait + Drop, C: Drop> Thread<
    R,
    N,
    A,
    W,
    C,
> {
    /// The first thread of a new reactor for so many threads, 1 to 16, which has parker 0. The reactor
    /// waits by `wait`, and its wait is ended by `notifier`. `OutOfMemory` where memory ran out; `wait`,
    /// `notifier` and `clock` are let go then.
    pub fn new(
        alloc: Global,
        rt: R,
        parkers: u32,
        wait: W,
        notifier: N,
        clock: C,
    ) -> Result<Thread<R, N, A, W, C>, OutOfMemory>
        requires { (1 ≤ parkers) × (parkers ≤ 16) }
        ensures reactor { IfOk result (λ thread.
            IsNewReactor parkers A.all_sure thread.host.shared) }
        ensures member { IfOk result (λ thread. IsFirstMember
            thread.host.shared (W.is_sure wait) notifier thread.host.member) }
        ensures parker { IfOk result (λ thread. thread.parker ≡ 0) }
        ensures clock { IfOk result (λ thread. thread.clock ≡ clock) }
    {
        let Ok((shared, member)) = Shared::new(alloc, parkers, wait, notifier) else {
            return Err(OutOfMemory);
        };
        let Ok(shared) = Arc::new(alloc, shared) else {
            return Err(OutOfMemory);
        };
        let host = Inside { rt, shared, member };
        Ok(Thread {
            host,
            clock,
            parker: 0,
        })
    }

    /// Another thread of the same reactor, with this parker and this clock, made by the first one. Its
    /// notifier is a twin of that of this thread.
    ///
    /// # Errors
    ///
    /// `PassesSpent` exactly where 2^24 members were made, and otherwise `OutOfMemory` where memory ran out.
    /// On both this thread is as it was.
    pub fn another(&mut self, parker: u32, clock: C) -> Result<Thread<R, N, A, W, C>, PassRefusal>
        requires first { self.old.host.member.ops.number ≡ 0 }
        requires parker { parker < self.old.host.shared.words.parkers }
        ensures shared { IfOk result (λ other. other.host.shared ≡ self.old.host.shared) }
        ensures made { IfOk result (λ other.
            IsNewMember self.old.host.shared self.old.host.member other.host.member) }
        ensures parker { IfOk result (λ other. other.parker ≡ parker) }
        ensures clock { IfOk result (λ other. other.clock ≡ clock) }
        ensures counted { OnOk result (self.new.host ≡ record self.old.host {
          member = with_one_more_made self.old.host.member;
        }) }
        ensures spent { (result ≡ Err PassRefusal.PassesSpent)
            ↔ (self.old.host.member.ops.splits ≡ pass_limit) }
        ensures refused { OnErr result (self.new.host ≡ self.old.host) }
        ensures first { self.new.host.member.ops.number ≡ 0 }
        ensures kept { (self.new.parker ≡ self.old.parker) × (self.new.clock ≡ self.old.clock) }
    {
        if self.host.member.is_spent() {
            return Err(PassRefusal::PassesSpent);
        }
        let rt = self.host.rt;
        let Ok(shared) = Arc::try_clone(&self.host.shared) else {
            return Err(PassRefusal::OutOfMemory);
        };
        let member = match shared.member(&rt, &mut self.host.member) {
            Ok(member) => member,
            Err(refusal) => return Err(refusal),
        };
        let host = Inside { rt, shared, member };
        Ok(Thread {
            host,
            clock,
            parker,
        })
    }
}

impl<R: Wait + Copy, N: Notify, A: Arm, W: EventWait, C: Clock> Thread<R, N, A, W, C> {
    /// Polls a task until it ends, and makes rounds of the reactor in between: `block_on`, with the
    /// host, the parker and the clock of this thread.
    pub fn run<T: Task<Inside<R, N, A, W>>>(
        &mut self,
        task: &mut T,
    ) -> Result<T::Output, BlockFault>
        ensures output { IfOk result (λ output.
            (moment : ℕ) → IsPast (C.bounds self.old.clock) moment
            → T.gives task.old (N.is_sure self.old.host.member.notifier) moment output) }
        ensures polled { PolledUntil T.poll_step
            (TurnsOver W N.fault_count W.wait_step self.old.host.shared self.old.parker)
            self.old.parker
            (record {
              bounds = C.bounds self.old.clock;
              before = C.latest self.old.clock;
              after = C.latest self.new.clock;
            })
            task.old self.old.host result task.new self.new.host }
        ensures polls { T.poll_count task.new ≤ T.poll_count task.old + length
            (taken_of self.old.parker
            (gained self.old.host.member.pass.view self.new.host.member.pass.view)) + 1 }
        ensures pending { OnErr result ((moment : ℕ) (output : T.Output)
            → IsPast (C.bounds self.old.clock) moment
            → T.gives task.new (N.is_sure self.old.host.member.notifier) moment output
            → T.gives task.old (N.is_sure self.old.host.member.notifier) moment output) }
        ensures cause { IfErr result (HasFaultCause N.fault_count N.is_sure
            self.old.host.member self.new.host.member) }
        ensures cell { self.new.host.member.claim.holds ≡ self.old.host.member.claim.holds }
        ensures later { IsLaterInside N.fault_count N.is_sure self.old.host self.new.host }
        ensures parker { self.new.parker ≡ self.old.parker }
        ensures bounds { C.bounds self.new.clock ≡ C.bounds self.old.clock }
        ensures latest { C.latest self.old.clock ≤ C.latest self.new.clock }
    {
        block_on(&mut self.host, self.parker, &mut self.clock, task)
    }

    /// Wakes the first slot of each other parker, also past one that failed. It is for a thread that
    /// stops making rounds while others may be parked, so that one of them makes rounds.
    ///
    /// # Errors
    ///
    /// The first fault of the notifier, between two counts of its faults in this call.
    pub fn hand_over(&mut self) -> Result<(), CountFault>
        ensures wakes { MemberWakes N.call_count N.fault_count N.is_sure N.notify_step
            self.old.host.shared.words.parkers (first_slots_but self.old.parker)
            self.old.host.member self.new.host.member result }
        ensures later { IsLaterInside N.fault_count N.is_sure self.old.host self.new.host }
        ensures kept { (self.new.parker ≡ self.old.parker) × (self.new.clock ≡ self.old.clock) }
    {
        let host = &mut self.host;
        host.shared
            .wake_other_parkers(&mut host.member, self.parker)
    }

    /// Wakes every slot of every parker, also past one that failed. It is for a thread that was told
    /// that an arm failed, so that every task polls its sources again.
    ///
    /// # Errors
    ///
    /// The first fault of the notifier, between two counts of its faults in this call.
    pub fn wake_all(&mut self) -> Result<(), CountFault>
        ensures wakes { MemberWakes N.call_count N.fault_count N.is_sure N.notify_step
            self.old.host.shared.words.parkers all_slots
            self.old.host.member self.new.host.member result }
        ensures later { IsLaterInside N.fault_count N.is_sure self.old.host self.new.host }
        ensures kept { (self.new.parker ≡ self.old.parker) × (self.new.clock ≡ self.old.clock) }
    {
        let host = &mut self.host;
        host.shared.wake_all_slots(&mut host.member)
    }
}
