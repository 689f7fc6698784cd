//! The answers of tasks are collected.

ghost use Rattle.std.specs.Prelude.{◌≡◌, ◌≤◌, ◌∷◌, ℕ, List, [], true, IfOk, IfErr, vec_capacity};
ghost use Rattle.std.specs.List.{AllZip};
ghost use Rattle.std.specs.VecDeque.{deque_len};
ghost use Rattle.aio_park.specs.Stopping.{StopsFor};
ghost use Rattle.aio_shared.specs.Inside.{IsLaterInside};

use aio_base::{Arm, Clock, EventWait, Notify};
use aio_park::{Thread, WorkerFault, run_to_end};
use aio_shared::Inside;
use aio_work::{Kept, Progress, Work};
use std::collections::VecDeque;
use std::sync::Wait;

/// The answer of a task: the one with which it has ended, or else the one to which this thread runs it.
fn finish<
    R: Wait + Copy,
    N: Notify,
    C: Clock,
    A: Arm,
    W: EventWait,
    K: Work<Inside<R, N, A, W>> + Drop,
>(
    thread: &mut Thread<R, N, A, W, C>,
    kept: Kept<Inside<R, N, A, W>, K>,
) -> Result<K::Output, WorkerFault>
where
    K::Output: Drop,
    ensures allowed { IfOk result (λ output. (about : ℕ) → kept ≡ about ∷ []
        → K.allows about output ≡ true) }
    ensures cause { IfErr result (StopsFor thread.old.host.member.claim.sure_of_wait
        (N.is_sure thread.old.host.member.notifier)) }
    ensures later { IsLaterInside N.fault_count N.is_sure thread.old.host thread.new.host }
{
    let rt = thread.host.rt;
    match kept.open(&rt).into_progress() {
        Progress::Ended(output) => Ok(output),
        Progress::Running(mut task) => run_to_end(thread, &mut task),
    }
}

/// The answers of all tasks, in their order, in a list that has room for them.
///
/// # Errors
///
/// Those of `run_to_end`, at a task that had not ended. The tasks that are left are given up.
pub(crate) fn finish_all<
    R: Wait + Copy,
    N: Notify,
    C: Clock,
    A: Arm,
    W: EventWait,
    K: Work<Inside<R, N, A, W>> + Drop,
>(
    thread: &mut Thread<R, N, A, W, C>,
    kept: VecDeque<Kept<Inside<R, N, A, W>, K>>,
    answers: Vec<K::Output>,
) -> Result<Vec<K::Output>, WorkerFault>
where
    K::Output: Drop,
    requires none { answers.items ≡ [] }
    requires room { deque_len kept ≤ vec_capacity answers }
    ensures allowed { IfOk result (λ outputs. (abouts : List ℕ)
        → AllZip (λ (k : List ℕ) about. k ≡ about ∷ []) kept.items abouts
        → AllZip (λ about output. K.allows about output ≡ true) abouts outputs.items) }
    ensures cause { IfErr result (StopsFor thread.old.host.member.claim.sure_of_wait
        (N.is_sure thread.old.host.member.notifier)) }
{
    let mut outputs = answers;
    let mut left = kept;
    while let Some(next) = left.pop_front() {
        match finish(thread, next) {
            Err(fault) => return Err(fault),
            Ok(output) => outputs.push_reserved(output),
        }
    }
    Ok(outputs)
}
