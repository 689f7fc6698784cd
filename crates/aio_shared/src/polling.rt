//! What a thread does inside a source: it enters the source, works on it once with the number of rounds
//! begun, and leaves it; then it wakes whom a poll replaced.

ghost use Rattle.std.specs.Prelude.{◌≡◌, true, false, List, length, None, Some, IfOk, IfErr, IfSome};
ghost use Rattle.aio_base.specs.Hosts.{NotifierTells, wake_fault};
ghost use Rattle.aio_shared.specs.Inside.{IsLaterInside, with_seat};
ghost use Rattle.aio_source.specs.Visits.{IsUnsureArm, arm_fault_of};
ghost use Rattle.aio_future.specs.Visits.{PollsCell, TriesCell};
ghost use Rattle.aio_shared.specs.Polling.{LeavesInside, VisitsOnce, WakesReplaced, WorksOn, answer_of, arm_fault_in};
ghost use Rattle.aio_sources.specs.Sources.{Adds, HandsBack, TableEntry, entry_of, is_full, keys_of, outside, refusal_of};
ghost use Rattle.aio_sources.specs.Visiting.{visited_once};

use crate::inside::Inside;
use aio_base::{Arm, ArmFault, CountFault, Dir, EventWait, Host, Notify, Poll, Waker};
use aio_future::{Attempt, PollDir, TryDir};
use aio_source::{Visit, Visited};
use aio_sources::{InsertFault, SourceRef};
use std::sync::Wait;

/// Why what a thread waits for at a source did not come. Its waker waits all the same.
#[derive(Clone, Copy, Debug, PartialEq, Eq)]
pub enum PollFault {
    /// The poller could not be armed, so maybe no event of the source comes until it is polled again.
    Arm(ArmFault),
    /// The notifier failed when the waker that this one replaced was woken, so that one's thread may not
    /// know of it.
    Notify(CountFault),
}

/// What work inside a source came to, and with which number of rounds begun.
#[derive(Clone, Copy, Debug, Drop, PartialEq, Eq)]
pub struct Entered<O> {
    /// How many rounds had begun as the thread entered.
    pub rounds: u64,
    /// What the work came to.
    pub visited: Visited<O>,
}

impl<R: Wait, N: Notify, A: Arm, W: EventWait> Inside<R, N, A, W> {
    /// Loads the number of rounds begun, takes a source out of its lock, as soon as no round visits it,
    /// makes one visit with that number, and puts the source back.
    fn enter_and_leave<V: Visit<A>>(
        &mut self,
        s: &mut SourceRef<A>,
        visit: &mut V,
    ) -> Entered<V::Output>
        requires outside { s.old.inside ≡ false }
        ensures visits { VisitsOnce A.rest (λ found ticker visited put. (ticker ≡ result.rounds)
            × V.visits visit.old found ticker visited visit.new put) s.old s.new
            self.old.member.pass.view self.new.member.pass.view result.visited }
        ensures arm { IfSome (arm_fault_of result.visited.answer)
            (IsUnsureArm A.all_sure s.old.key) }
        ensures kept { self.new
            ≡ with_seat self.old self.new.member.pass self.old.member.notifier }
        ensures notifier { NotifierTells (N.is_sure self.old.member.notifier)
            (N.fault_count self.old.member.notifier) (N.fault_count self.new.member.notifier) None }
        ensures later { IsLaterInside N.fault_count N.is_sure self.old self.new }
    {
        let rounds = self.ticker();
        let visited = s.visit(&self.rt, visit, rounds);
        Entered { rounds, visited }
    }

    /// Wakes the waker that a poll replaced, where it replaced one.
    fn wake_replaced(&mut self, replaced: Option<Waker>) -> Result<(), CountFault>
        ensures woke { WakesReplaced N.call_count N.notify_step self.old.shared.words.parkers
            replaced self.old.member.pass.view self.new.member.pass.view
            self.old.member.notifier self.new.member.notifier result }
        ensures kept { self.new
            ≡ with_seat self.old self.new.member.pass self.new.member.notifier }
        ensures notifier { NotifierTells (N.is_sure self.old.member.notifier)
            (N.fault_count self.old.member.notifier) (N.fault_count self.new.member.notifier)
            (wake_fault result) }
        ensures later { IsLaterInside N.fault_count N.is_sure self.old self.new }
    {
        match replaced {
            None => Ok(()),
            Some(waker) => self.wake(waker),
        }
    }

    /// Makes a visit of a source: loads the number of rounds begun, enters the source, works on it, leaves
    /// it, and wakes the waker that this work replaced.
    pub fn visit_source<V: Visit<A>>(
        &mut self,
        s: &mut SourceRef<A>,
        visit: &mut V,
    ) -> Poll<Result<V::Output, PollFault>>
        requires outside { s.old.inside ≡ false }
        ensures works { WorksOn N.call_count N.notify_step A.rest (λ found ticker visited put.
            V.visits visit.old found ticker visited visit.new put)
            s.old s.new self.old self.new result }
        ensures leaves { LeavesInside N.fault_count N.is_sure A.all_sure s.old.key
            self.old self.new result }
    {
        let visited = self.enter_and_leave(s, visit).visited;
        let woken = self.wake_replaced(visited.replaced);
        told(visited.answer, woken)
    }

    /// Polls a direction of a source of this reactor with a waker, and wakes the waker that this one
    /// replaced (`async-io` 2, `reactor.rs`, `Source::poll_ready`). Ready where a round that began after
    /// the poll waiter was stored has handled an event of the direction.
    pub fn poll_source(
        &mut self,
        s: &mut SourceRef<A>,
        dir: Dir,
        w: Waker,
    ) -> Poll<Result<(), PollFault>>
        requires outside { s.old.inside ≡ false }
        ensures polls { WorksOn N.call_count N.notify_step A.rest
            (PollsCell A.arm_step A.interests A.rest A.fault_count A.is_sure
            (record { dir = dir; waker = w })) s.old s.new self.old self.new result }
        ensures token { s.new ≡ visited_once s.old s.old.rest }
        ensures leaves { LeavesInside N.fault_count N.is_sure A.all_sure s.old.key
            self.old self.new result }
    {
        let mut poll = PollDir { dir, waker: w };
        self.visit_source(s, &mut poll)
    }

    /// Makes such a visit, whose attempt stays lent.
    fn try_by<T: Attempt<A>>(
        &mut self,
        s: &mut SourceRef<A>,
        trying: &mut TryDir<'_, T>,
    ) -> Entered<T::Output>
        requires outside { s.old.inside ≡ false }
        ensures tries { VisitsOnce A.rest (λ found ticker tried put. (ticker ≡ result.rounds)
            × TriesCell A.arm_step A.interests A.rest A.fault_count A.is_sure T.attempts
            trying.old.poll trying.old.attempt.now found ticker tried trying.new.attempt.now put)
            s.old s.new self.old.member.pass.view self.new.member.pass.view result.visited }
        ensures lent { trying.new.attempt.ghost_name ≡ trying.old.attempt.ghost_name }
        ensures arm { IfSome (arm_fault_of result.visited.answer)
            (IsUnsureArm A.all_sure s.old.key) }
        ensures kept { self.new
            ≡ with_seat self.old self.new.member.pass self.old.member.notifier }
        ensures notifier { NotifierTells (N.is_sure self.old.member.notifier)
            (N.fault_count self.old.member.notifier) (N.fault_count self.new.member.notifier) None }
        ensures later { IsLaterInside N.fault_count N.is_sure self.old self.new }
    {
        self.enter_and_leave(s, trying)
    }

    /// Makes an attempt as `try_source` does, tells with which number of rounds, and hands the waker out
    /// that it replaced, to be woken.
    pub fn try_entered<T: Attempt<A>>(
        &mut self,
        s: &mut SourceRef<A>,
        dir: Dir,
        w: Waker,
        attempt: &mut T,
    ) -> Entered<T::Output>
        requires outside { s.old.inside ≡ false }
        ensures tries { VisitsOnce A.rest (λ found ticker tried put. (ticker ≡ result.rounds)
            × TriesCell A.arm_step A.interests A.rest A.fault_count A.is_sure T.attempts
            (record { dir = dir; waker = w }) attempt.old found ticker tried attempt.new put)
            s.old s.new self.old.member.pass.view self.new.member.pass.view result.visited }
        ensures arm { IfSome (arm_fault_of result.visited.answer)
            (IsUnsureArm A.all_sure s.old.key) }
        ensures kept { self.new
            ≡ with_seat self.old self.new.member.pass self.old.member.notifier }
        ensures notifier { NotifierTells (N.is_sure self.old.member.notifier)
            (N.fault_count self.old.member.notifier) (N.fault_count self.new.member.notifier) None }
        ensures later { IsLaterInside N.fault_count N.is_sure self.old self.new }
    {
        let poll = PollDir { dir, waker: w };
        let mut trying = TryDir { attempt, poll };
        self.try_by(s, &mut trying)
    }

    /// Makes an attempt on the connection of a source of this reactor; where it would block, polls a
    /// direction with a waker, and wakes the waker that this one replaced (`async-io` 2, `lib.rs`,
    /// `Async::read_with` and `write_with`). Where the direction is ready both are done once more, and the
    /// second poll is never ready. So it is pending only where the last attempt would block.
    pub fn try_source<T: Attempt<A>>(
        &mut self,
        s: &mut SourceRef<A>,
        dir: Dir,
        w: Waker,
        attempt: &mut T,
    ) -> Poll<Result<T::Output, PollFault>>
        requires outside { s.old.inside ≡ false }
        ensures tries { WorksOn N.call_count N.notify_step A.rest (λ found ticker tried put.
            TriesCell A.arm_step A.interests A.rest A.fault_count A.is_sure T.attempts
            (record { dir = dir; waker = w }) attempt.old found ticker tried attempt.new put)
            s.old s.new self.old self.new result }
        ensures token { s.new ≡ visited_once s.old s.new.rest }
        ensures leaves { LeavesInside N.fault_count N.is_sure A.all_sure s.old.key
            self.old self.new result }
    {
        let tried = self.try_entered(s, dir, w, attempt).visited;
        let woken = self.wake_replaced(tried.replaced);
        told(tried.answer, woken)
    }
}

impl<R: Wait, N: Notify, A: Arm + Drop, W: EventWait> Inside<R, N, A, W> {
    /// A source over this connection joins the reactor, as soon as nobody else has the table of its
    /// sources: `Sources::insert`, with its refusals, each of which hands the connection back.
    pub fn insert_source(&self, io: A) -> Result<SourceRef<A>, (A, InsertFault)>
        ensures token { IfOk result (λ s.
            s ≡ outside self.now.shared.words.identity (entry_of s) (A.rest io)) }
        ensures added { IfOk result (λ s. Adds A.arm_step s.key io) }
        ensures back { IfErr result (λ back. (entries : List TableEntry)
            × HandsBack A.arm_step A.rest A.fault_count A.is_sure (keys_of entries) io back
            × (is_full (refusal_of result) ≡ true → length entries ≡ 4096)) }
    {
        let mut sources = self.shared.sources(&self.rt);
        sources.insert(io)
    }
}

/// What work inside a source answers, by what it came to and by the answer of the wake.
fn told<O>(
    answer: Poll<Result<O, ArmFault>>,
    woken: Result<(), CountFault>,
) -> Poll<Result<O, PollFault>>
    ensures answer { result ≡ answer_of answer woken }
    ensures arm { arm_fault_in result ≡ arm_fault_of answer }
{
    match answer {
        Poll::Ready(Ok(output)) => Poll::Ready(Ok(output)),
        Poll::Ready(Err(fault)) => Poll::Ready(Err(PollFault::Arm(fault))),
        Poll::Pending => match woken {
            Ok(()) => Poll::Pending,
            Err(fault) => Poll::Ready(Err(PollFault::Notify(fault))),
        },
    }
}
