//! The calls on timers: an operation joins the queue, or is applied to the book by the call itself.

ghost use Rattle.std.specs.Prelude.{◌≡◌, ◌+◌, IsTrue, OnOk, OnErr};
ghost use Rattle.aio_base.specs.Hosts.{NotifierTells, has_id_left, insert_fault};
ghost use Rattle.aio_shared.specs.Members.{IsLaterMember, IsMemberOf};
ghost use Rattle.aio_shared.specs.TimerCalls.{CarriesOut, GivesUp, Inserts, IsLaterPass, RemovesTimer};
ghost use Rattle.aio_shared.specs.Reporting.{told_of};

use crate::members::Member;
use crate::shared::Shared;
use aio_base::{
    Arm, CountFault, EventWait, InsertRefusal, Moment, Notify, OutOfMemory, TimerId, Waker,
};
use aio_ops::OpPass;
use aio_timers::TimerOp;
use std::sync::Wait;

/// How often a call drains the queue and pushes its operation again, at most.
const TRIES: u32 = 1_000;

impl<A: Arm, W: EventWait> Shared<A, W> {
    /// Registers a timer for a deadline, with the waker of the task that waits for it, under the next
    /// id of the member: 2^40 times the number of its seat at the queue, and its count of ids after the call
    /// (`async-io` 2, `reactor.rs`, `Reactor::insert_timer`). Whoever waits for events is told. A
    /// member draws at most 2^40 - 1 ids.
    ///
    /// The operation joins the queue. Where that is full, it is drained and the operation is pushed once
    /// more, at most 1,000 times; where it is full all the same, the call applies the operation itself
    /// after one more drain.
    ///
    /// # Errors
    ///
    /// `OutOfMemory`, only where the queue was full at a step of this call: nothing is registered, and
    /// no id is drawn. `Notify`, only where the member's notifier failed: the timer is registered all
    /// the same.
    pub fn insert_timer<R: Wait, N: Notify>(
        &self,
        rt: &R,
        m: &mut Member<N, W>,
        at: Moment,
        waker: Waker,
    ) -> Result<TimerId, InsertRefusal>
        requires belongs { IsMemberOf self.now m.old }
        requires ids { IsTrue (has_id_left m.old.ids) }
        ensures inserts { Inserts N.call_count N.notify_step at waker m.old m.new result }
        ensures kept { m.new ≡ record m.old {
          pass = m.new.pass;
          ops = m.new.ops;
          notifier = m.new.notifier;
          ids = m.new.ids;
        } }
        ensures notifier { NotifierTells (N.is_sure m.old.notifier)
            (N.fault_count m.old.notifier) (N.fault_count m.new.notifier) (insert_fault result) }
        ensures belongs { IsMemberOf self.now m.new }
        ensures later { IsLaterMember N.fault_count N.is_sure m.old m.new }
    {
        let id = m.next_id();
        match self.carry_out(rt, &mut m.ops, &TimerOp::Insert(at, id, waker)) {
            Err(_) => Err(InsertRefusal::OutOfMemory),
            Ok(()) => {
                m.ids += 1;
                let told = self.words.notify(&mut m.pass, &mut m.notifier);
                registered(id, told)
            }
        }
    }

    /// Takes the registration with this deadline and id out, where there is one, by an operation that
    /// goes the way of an insert (`async-io` 2, `reactor.rs`, `Reactor::remove_timer`). Nobody is told.
    /// `OutOfMemory`, only where the queue was full at a step of this call: nothing is taken out.
    pub fn remove_timer<R: Wait, N: Notify>(
        &self,
        rt: &R,
        m: &mut Member<N, W>,
        at: Moment,
        id: TimerId,
    ) -> Result<(), OutOfMemory>
        requires belongs { IsMemberOf self.now m.old }
        ensures removes { RemovesTimer at id m.old m.new result }
        ensures belongs { IsMemberOf self.now m.new }
        ensures later { IsLaterMember N.fault_count N.is_sure m.old m.new }
    {
        self.carry_out(rt, &mut m.ops, &TimerOp::Remove(at, id))
    }

    /// Carries an operation out: it joins the queue, or is applied by this call. `OutOfMemory` where
    /// there was no room for a drain; then neither.
    fn carry_out<R: Wait>(&self, rt: &R, p: &mut OpPass, op: &TimerOp) -> Result<(), OutOfMemory>
        requires belongs { p.old.queue ≡ self.now.ops }
        ensures done { OnOk result (CarriesOut op.now p.old p.new) }
        ensures refused { OnErr result (GivesUp p.old p.new) }
        ensures later { IsLaterPass p.old p.new }
    {
        if self.ops.push(rt, p, *op).is_ok() {
            return Ok(());
        }
        let mut tries = 0;
        while tries < TRIES {
            if self.timers.drain_and_push(&self.ops, rt, p, op)? {
                return Ok(());
            }
            tries += 1;
        }
        self.timers.drain_and_apply(&self.ops, rt, p, op)
    }
}

/// What an insert answers that registered its timer under this id, by the answer of its notify.
fn registered(id: TimerId, told: Result<(), CountFault>) -> Result<TimerId, InsertRefusal>
    ensures { result ≡ told_of id told }
{
    match told {
        Ok(()) => Ok(id),
        Err(fault) => Err(InsertRefusal::Notify { id, fault }),
    }
}
