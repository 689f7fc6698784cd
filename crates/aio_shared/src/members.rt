//! The members of a reactor, one for each thread.

ghost use Rattle.std.specs.Prelude.{◌≡◌, ◌==◌, ◌↔◌, ℕ, ◌+◌, ◌^◌, ◌≤◌, IsTrue, Err, IfOk, OnOk, OnErr};
ghost use Rattle.std.specs.Borrow.{sem};
ghost use Rattle.aio_rules.specs.SharedWords.{after};
ghost use Rattle.aio_rules.specs.WordCalls.{wake_steps};
ghost use Rattle.aio_rules.specs.declared.seats.WordStep.TheVariants as word_step;
ghost use Rattle.aio_ops.specs.Passes.{pass_limit};
ghost use Rattle.aio_base.specs.Hosts.{NotifierTells, has_id_left, next_id, wake_fault};
ghost use Rattle.aio_words.specs.Calls.{Offers};
ghost use Rattle.aio_shared.specs.Lending.{LendsPass};
ghost use Rattle.aio_shared.specs.Members.{IsLaterMember, IsMemberOf, IsNewMember, with_one_more_made};

use crate::round_lock::Claim;
use crate::shared::Shared;
use aio_base::{Arm, CountFault, EventWait, Notify, TimerId, Waker};
use aio_ops::{OpPass, PassRefusal};
use aio_words::{Pass, Words};
use std::marker::Model;
use std::sync::Wait;

/// What one thread may do with a reactor, and what it did: its seat at the words, its seat at the
/// queue of operations on timers, its notifier, and how many ids it has drawn.
pub struct Member<N, W: EventWait> {
    pub(crate) claim: Claim<W>,
    pub(crate) pass: Pass,
    pub(crate) ops: OpPass,
    pub(crate) notifier: N,
    pub(crate) ids: u64,
}

impl<N, W: EventWait> Model for Member<N, W> {
    ghost use Rattle.std.specs.Prelude.{◌-◌, ◌^◌, ◌≤◌};
    ghost use Rattle.aio_shared.specs.Members.{MemberValue};

    ghost Value = { MemberValue N };

    ghost view = { λ m. record {
      claim = m.claim;
      pass = m.pass;
      ops = m.ops;
      notifier = m.notifier;
      ids = m.ids;
    } };

    ghost invariant = { λ m. m.ids ≤ 2 ^ 40 - 1 };
}

impl<N: Drop, W: EventWait + Drop> Drop for Member<N, W> {
    fn drop(self) {
        let Member {
            claim: _,
            pass: _,
            ops: _,
            notifier: _,
            ids: _,
        } = self;
    }
}

impl<A: Arm, W: EventWait> Shared<A, W> {
    /// The words of the reactor.
    pub fn words(&self) -> &Words
        ensures { result.now ≡ self.now.words }
    {
        &self.words
    }

    /// A member for another thread, made by the first one, which counts it. Its seat has seen what the
    /// seat of `m` has seen and has done nothing; its notifier is a twin of that of `m`.
    ///
    /// # Errors
    ///
    /// `PassesSpent` exactly where 2^24 members were made, and otherwise `OutOfMemory` where there was
    /// none for the twin. On both `m` is as it was.
    pub fn member<R: Wait, N: Notify + Drop>(
        &self,
        rt: &R,
        m: &mut Member<N, W>,
    ) -> Result<Member<N, W>, PassRefusal>
        requires belongs { IsMemberOf self.now m.old }
        requires first { m.old.ops.number ≡ 0 }
        ensures made { IfOk result (λ made. IsNewMember self.now m.old made) }
        ensures twin { IfOk result (λ made. IsTrue (N.is_sure m.old.notifier)
            → IsTrue (N.is_sure made.notifier)) }
        ensures counted { OnOk result (m.new ≡ with_one_more_made m.old) }
        ensures spent { (result ≡ Err PassRefusal.PassesSpent) ↔ (m.old.ops.splits ≡ pass_limit) }
        ensures refused { OnErr result (m.new ≡ m.old) }
    {
        if m.ops.is_spent() {
            return Err(PassRefusal::PassesSpent);
        }
        match m.notifier.twin() {
            Err(_) => Err(PassRefusal::OutOfMemory),
            Ok(notifier) => match self.ops.pass(rt, &mut m.ops) {
                Err(refusal) => Err(refusal),
                Ok(ops) => Ok(Member {
                    claim: self.lock.member(&mut m.claim),
                    pass: self.words.pass(&mut m.pass),
                    ops,
                    notifier,
                    ids: 0,
                }),
            },
        }
    }

    /// The number of rounds begun, by one load of the member's seat.
    pub(crate) fn ticker_by<N: Notify>(&self, m: &mut Member<N, W>) -> u64
        requires belongs { IsMemberOf self.now m.old }
        ensures loaded { m.new.pass.view ≡ after (word_step.LoadTicker result) m.old.pass.view }
        ensures kept { m.new ≡ record m.old { pass = m.new.pass } }
        ensures least { m.old.pass.view.seen ≤ result }
        ensures belongs { IsMemberOf self.now m.new }
        ensures later { IsLaterMember N.fault_count N.is_sure m.old m.new }
    {
        self.words.ticker(&mut m.pass)
    }

    /// Wakes a task by the member's seat and notifier, as `Words::wake` does.
    pub(crate) fn wake_by<N: Notify>(
        &self,
        m: &mut Member<N, W>,
        waker: Waker,
    ) -> Result<(), CountFault>
        requires belongs { IsMemberOf self.now m.old }
        ensures woke { Offers N.call_count N.notify_step (wake_steps waker.0 self.now.words.parkers)
            m.old.pass.view m.new.pass.view m.old.notifier m.new.notifier result }
        ensures kept { m.new ≡ record m.old { pass = m.new.pass; notifier = m.new.notifier } }
        ensures notifier { NotifierTells (N.is_sure m.old.notifier)
            (N.fault_count m.old.notifier) (N.fault_count m.new.notifier) (wake_fault result) }
        ensures belongs { IsMemberOf self.now m.new }
        ensures later { IsLaterMember N.fault_count N.is_sure m.old m.new }
    {
        self.words.wake(&mut m.pass, waker, &mut m.notifier)
    }
}

impl<N, W: EventWait> Member<N, W> {
    /// The member's seat at the words, to be used in calls on them. The member has afterwards the seat
    /// that the borrower left; all else of it stays.
    pub fn words_pass(&mut self) -> &mut Pass
        ensures* lends { sem 𝓛 (LendsPass N.row W.row W.Faults W.wait_count W.wait_step self.entry result) }
        ensures value { result.now ≡ self.old.pass }
    {
        &mut self.pass
    }

    /// The id that the member draws next.
    pub(crate) fn next_id(&self) -> TimerId
        requires { IsTrue (has_id_left self.now.ids) }
        ensures { result ≡ next_id self.now.ops.number self.now.ids }
    {
        TimerId(((self.ops.number() as u64) << 40) + self.ids + 1)
    }

    /// Whether no further member can be made, as far as this one has counted them: it counts 2^24.
    pub fn is_spent(&self) -> bool
        ensures { result ≡ (self.now.ops.splits == pass_limit) }
    {
        self.ops.is_spent()
    }
}
