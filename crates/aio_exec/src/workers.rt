//! The workers of an executor: a post at the reactor for each, and its work.

ghost use Rattle.std.specs.Prelude.{◌≡◌, ◌+◌, ◌*◌, ◌≤◌, ℕ, length, map, IfOk};
ghost use Rattle.std.specs.List.{AllByRecursion};
ghost use Rattle.aio_jobs.specs.Dealing.{GivesInTurn};
ghost use Rattle.aio_ops.specs.Passes.{pass_limit};
ghost use Rattle.aio_park.specs.Posts.{HaveParkers, PostValue, RunsUnder, ThreadTerms, member_terms, post_terms};
ghost use Rattle.aio_work.specs.Starting.{numbers, places_of};
ghost use Rattle.aio_exec.specs.Workers.{WorkerValue};

use crate::worker::Worker;
use aio_base::{Arm, Clock, EventWait, Later, Notify, OutOfMemory};
use aio_park::{Post, Thread, posts_of};
use aio_shared::Inside;
use aio_work::{Desks, Shift, Work, shifts_of};
use std::alloc::Global;
use std::collections::VecDeque;
use std::sync::Wait;

/// The workers for so many tasks. Each has a post that the caller's thread made, and its row of the
/// places, which are dealt to them in turn. `OutOfMemory` where memory ran out.
pub(crate) fn workers_of<
    R: Wait + Copy + Drop,
    N: Notify + Drop,
    C: Clock + Drop,
    A: Arm + Drop,
    W: EventWait + Drop,
    K: Work<Inside<R, N, A, W>> + Drop,
>(
    alloc: Global,
    caller: &mut Thread<R, N, A, W, C>,
    desks: Desks<Inside<R, N, A, W>, K>,
    workers: u32,
    tasks: u32,
) -> Result<Vec<Worker<R, N, C, A, W, Inside<R, N, A, W>, K>>, OutOfMemory>
where
    K::Output: Drop,
    requires workers { (1 ≤ workers) × (workers ≤ 16) }
    requires few { tasks ≤ 64 * workers }
    requires first { caller.old.host.member.ops.number ≡ 0 }
    requires left { caller.old.host.member.ops.splits + workers ≤ pass_limit }
    requires parkers { workers ≤ caller.old.host.shared.words.parkers }
    ensures dealt { IfOk result (λ made. GivesInTurn
        (map (λ (w : WorkerValue). w.places) made.items) (numbers 0 tasks)) }
    ensures parkers { IfOk result (λ made.
        HaveParkers (λ (w : WorkerValue). w.parker) 0 made.items) }
    ensures under { IfOk result (λ made. AllByRecursion (λ (w : WorkerValue).
        RunsUnder (member_terms C.bounds N.is_sure caller.old.host.member caller.old.clock) w.terms)
        made.items) }
    ensures wait { caller.new.host.member.claim.sure_of_wait
        ≡ caller.old.host.member.claim.sure_of_wait }
    ensures notifier { caller.new.host.member.notifier ≡ caller.old.host.member.notifier }
{
    let rt = caller.host.rt;
    let shifts = shifts_of(alloc, rt, desks, workers, tasks)?;
    let host = &mut caller.host;
    let posts = posts_of(
        alloc,
        &rt,
        &host.shared,
        &mut host.member,
        &caller.clock,
        workers,
    )?;
    at_posts(alloc, posts, shifts, workers)
}

/// A worker for each of these posts, with its work.
fn at_posts<
    R: Wait + Drop,
    N: Notify + Drop,
    C: Clock + Drop,
    A: Arm + Drop,
    W: EventWait + Drop,
    H: Later,
    K: Work<H> + Drop,
>(
    alloc: Global,
    posts: VecDeque<Post<N, C, A, W>>,
    shifts: VecDeque<Shift<R, H, K>>,
    count: u32,
) -> Result<Vec<Worker<R, N, C, A, W, H, K>>, OutOfMemory>
where
    K::Output: Drop,
    requires posts { length posts.items ≡ count }
    requires shifts { length shifts.items ≡ count }
    ensures places { IfOk result (λ made. map (λ (w : WorkerValue). w.places) made.items
        ≡ map (λ s. places_of s.workload.own) shifts.items) }
    ensures parkers { IfOk result (λ made. map (λ (w : WorkerValue). w.parker) made.items
        ≡ map (λ (p : PostValue N C). p.parker) posts.items) }
    ensures terms { IfOk result (λ made. map (λ (w : WorkerValue). w.terms) made.items
        ≡ map (post_terms C.bounds N.is_sure) posts.items) }
{
    let Ok(mut workers) = Vec::with_capacity(alloc, count as usize) else {
        return Err(OutOfMemory);
    };
    let mut posts = posts;
    let mut shifts = shifts;
    for _made in 0..count {
        let Some(post) = posts.pop_front() else {
            unreachable!()
        };
        let Some(shift) = shifts.pop_front() else {
            unreachable!()
        };
        workers.push_reserved(Worker::new(post, shift));
    }
    Ok(workers)
}
