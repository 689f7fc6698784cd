//! What the threads of a reactor are made of, before they run.

ghost use Rattle.std.specs.Prelude.{◌≡◌, ℕ, ◌+◌, ◌<◌, ◌≤◌, length, map, Ok, IfOk, IfErr, OnOk, OnErr};
ghost use Rattle.std.specs.Arc.{arc_value};
ghost use Rattle.std.specs.List.{AllByRecursion};
ghost use Rattle.aio_ops.specs.Passes.{pass_limit};
ghost use Rattle.aio_shared.specs.Members.{IsMemberOf, with_one_more_made};
ghost use Rattle.aio_park.specs.Posts.{HaveParkers, IsPostOf, PostValue, member_terms, with_made};
ghost use Rattle.aio_park.specs.Stopping.{IsFirstFault};

use crate::thread::Thread;
use crate::to_end::WorkerFault;
use aio_base::{Arm, Clock, EventWait, Notify, OutOfMemory};
use aio_ops::PassRefusal;
use aio_shared::{Inside, Member, Shared};
use std::alloc::Global;
use std::collections::VecDeque;
use std::marker::Model;
use std::sync::{Arc, Wait};

/// What one thread of a reactor has, whatever it serves: the reactor, a member of it, a clock and a
/// parker, which no other thread uses at the same time. It has no runtime yet, so a job may own it that
/// is handed one only as it runs.
#[derive(Drop)]
pub struct Post<N: Notify, C, A: Arm, W: EventWait> {
    /// The reactor.
    pub shared: Arc<Shared<A, W>, Global>,
    /// The member of the thread.
    pub member: Member<N, W>,
    /// The clock of the thread.
    pub clock: C,
    /// The parker of the thread.
    pub parker: u32,
}

impl<N: Notify, C, A: Arm, W: EventWait> Model for Post<N, C, A, W> {
    ghost use Rattle.std.specs.Prelude.{◌<◌};
    ghost use Rattle.std.specs.Arc.{arc_value};
    ghost use Rattle.aio_shared.specs.Members.{IsMemberOf};
    ghost use Rattle.aio_park.specs.Posts.{PostValue};

    ghost Value = { PostValue N C };

    ghost view = { λ p. record {
      shared = arc_value p.shared;
      member = p.member;
      clock = p.clock;
      parker = p.parker;
    } };

    ghost invariant = { λ p. IsMemberOf (arc_value p.shared) p.member
        × (p.parker < (arc_value p.shared).words.parkers) };
}

impl<N: Notify, C, A: Arm, W: EventWait> Post<N, C, A, W> {
    /// The thread of this post, which runs by this runtime. A job whose task is one over any host makes
    /// its thread as it runs, by the runtime that it is handed; one whose task is over the host of one
    /// runtime alone makes it at once, and keeps the runtime.
    pub fn into_thread<R: Wait>(self, rt: R) -> Thread<R, N, A, W, C>
        ensures host { result.host ≡ record { shared = self.shared; member = self.member } }
        ensures clock { result.clock ≡ self.clock }
        ensures parker { result.parker ≡ self.parker }
    {
        let Post {
            shared,
            member,
            clock,
            parker,
        } = self;
        let host = Inside { rt, shared, member };
        Thread {
            host,
            clock,
            parker,
        }
    }
}

/// So many posts of a reactor, with its parkers from 0 on. Each has a member that the first one made, and a
/// twin of the clock; its notifier is a twin of that of the first member, which stays with the caller.
/// `OutOfMemory` where memory ran out; the posts are let go.
pub fn posts_of<R: Wait, N: Notify + Drop, C: Clock + Drop, A: Arm + Drop, W: EventWait + Drop>(
    alloc: Global,
    rt: &R,
    shared: &Arc<Shared<A, W>, Global>,
    first: &mut Member<N, W>,
    clock: &C,
    count: u32,
) -> Result<VecDeque<Post<N, C, A, W>>, OutOfMemory>
    requires belongs { IsMemberOf (arc_value shared.now) first.old }
    requires first { first.old.ops.number ≡ 0 }
    requires left { first.old.ops.splits + count ≤ pass_limit }
    requires parkers { count ≤ (arc_value shared.now).words.parkers }
    ensures count { IfOk result (λ posts. length posts.items ≡ count) }
    ensures parkers { IfOk result (λ posts.
        HaveParkers (λ (p : PostValue N C). p.parker) 0 posts.items) }
    ensures posts { IfOk result (λ posts. AllByRecursion (IsPostOf C.bounds N.is_sure
        (arc_value shared.now) (member_terms C.bounds N.is_sure first.old clock.now)) posts.items) }
    ensures made { OnOk result (first.new ≡ with_made count first.old) }
    ensures some { (made : ℕ) × (made ≤ count) × (first.new ≡ with_made made first.old) }
    ensures belongs { IsMemberOf (arc_value shared.now) first.new }
{
    let mut posts = VecDeque::new(alloc);
    for parker in 0..count {
        let post = post_of(rt, shared, first, clock, parker)?;
        if posts.push_back(post).is_err() {
            return Err(OutOfMemory);
        }
    }
    Ok(posts)
}

/// A post with this parker. Where memory ran out the first member is as it was.
fn post_of<R: Wait, N: Notify + Drop, C: Clock + Drop, A: Arm + Drop, W: EventWait + Drop>(
    rt: &R,
    shared: &Arc<Shared<A, W>, Global>,
    first: &mut Member<N, W>,
    clock: &C,
    parker: u32,
) -> Result<Post<N, C, A, W>, OutOfMemory>
    requires belongs { IsMemberOf (arc_value shared.now) first.old }
    requires first { first.old.ops.number ≡ 0 }
    requires left { first.old.ops.splits < pass_limit }
    requires parker { parker < (arc_value shared.now).words.parkers }
    ensures parker { IfOk result (λ post. post.parker ≡ parker) }
    ensures post { IfOk result (IsPostOf C.bounds N.is_sure (arc_value shared.now)
        (member_terms C.bounds N.is_sure first.old clock.now)) }
    ensures made { OnOk result (first.new ≡ with_one_more_made first.old) }
    ensures refused { OnErr result (first.new ≡ first.old) }
{
    let clock = clock.twin()?;
    let Ok(shared) = Arc::try_clone(shared) else {
        return Err(OutOfMemory);
    };
    let member = match shared.member(rt, first) {
        Ok(member) => member,
        Err(PassRefusal::PassesSpent) => unreachable!(),
        Err(PassRefusal::OutOfMemory) => return Err(OutOfMemory),
    };
    Ok(Post {
        shared,
        member,
        clock,
        parker,
    })
}

/// What the threads that ran some jobs came to, in their order.
///
/// # Errors
///
/// The fault of the first one that has one, or want of memory. All ends are let go then.
pub fn ends_of<X: Drop>(
    alloc: Global,
    ended: Vec<Result<X, WorkerFault>>,
) -> Result<VecDeque<X>, WorkerFault>
    ensures ends { IfOk result (λ ends. ended.items ≡ map Ok ends.items) }
    ensures fault { IfErr result (IsFirstFault ended.items) }
{
    let mut ends = VecDeque::new(alloc);
    let mut left = VecDeque::from(ended);
    while let Some(next) = left.pop_front() {
        let end = next?;
        if ends.push_back(end).is_err() {
            return Err(WorkerFault::OutOfMemory);
        }
    }
    Ok(ends)
}
