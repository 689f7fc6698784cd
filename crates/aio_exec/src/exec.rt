//! The executor.

ghost use Rattle.std.specs.Prelude.{◌≡◌, ◌≤◌, ◌+◌, ◌*◌, true, length, IfOk, IfErr, IsTrue};
ghost use Rattle.std.specs.List.{AllZip};
ghost use Rattle.aio_ops.specs.Passes.{pass_limit};
ghost use Rattle.aio_park.specs.Stopping.{StopsFor};
ghost use Rattle.aio_exec.specs.Workers.{HasExecCause, fault_of_worker};

use crate::finishing::finish_all;
use crate::workers::workers_of;
use aio_base::{Arm, Clock, CountFault, EventWait, Notify, OutOfMemory, Spawner};
use aio_park::{Thread, WorkerFault, ends_of};
use aio_shared::Inside;
use aio_work::{Desks, Seated, Work, seat_tasks};
use std::alloc::Global;
use std::sync::Wait;
use std::thread::Threads;

/// Why an executor stopped. The tasks that had not ended by then are given up.
#[derive(Clone, Copy, Debug, PartialEq, Eq)]
pub enum ExecFault {
    /// A wait of the reactor failed, between these two counts of its faults.
    Wait(CountFault),
    /// The notifier of a thread failed, between these two counts of its faults.
    Notify(CountFault),
    /// Memory ran out.
    OutOfMemory,
}

/// Runs tasks to their ends, by so many workers, 1 to 16, with at most 64 tasks for each, and answers
/// what each task came to, in the order of the tasks: an answer that a task allows which is about the
/// same. It waits.
///
/// Each worker is a job of the spawner with a member of one new reactor, a parker of its own, a twin of
/// the clock, and a deque. Task i, from 0, begins in the deque of worker i modulo the workers. A worker
/// takes the first of its deque, and steals from the others where that is empty; a stolen task belongs to
/// the thief, and its wakers are those of the thief's parker. A task is polled by one worker at a time. Once
/// the jobs have ended, the caller runs those tasks that have not.
///
/// The waiting half may be lent (`Lent`), and is used until the call returns. Notifier and clock have twins,
/// which are used in their places. `A` is the type of the connections that tasks may add to the reactor.
///
/// # Errors
///
/// `Wait` only where the given wait is not sure, and `Notify` only where the given notifier is not;
/// `OutOfMemory` where memory ran out. Where several workers stop for a fault, that of the first of them is
/// told, once all have stopped.
pub fn exec_run<
    R: Wait + Threads + Sync + Send + Copy + Drop,
    A: Arm + Send + Drop,
    W: EventWait + Send + Drop,
    N: Notify + Send + Drop,
    C: Clock + Send + Drop,
    T: Spawner,
    K: Work<Inside<R, N, A, W>> + Send + Drop,
>(
    rt: &R,
    alloc: Global,
    wait: W,
    notify: &N,
    clock: &C,
    spawner: &mut T,
    workers: u32,
    tasks: Vec<K>,
) -> Result<Vec<K::Output>, ExecFault>
where
    K::Output: Send + Drop,
    requires workers { (1 ≤ workers) × (workers ≤ 16) }
    requires tasks { length tasks.items ≤ 64 * workers }
    ensures allowed { IfOk result (λ outputs.
        AllZip (λ task output. K.allows (K.about_of task) output ≡ true)
        tasks.items outputs.items) }
    ensures cause { IfErr result (HasExecCause (W.is_sure wait) (N.is_sure notify.now)) }
{
    let Ok(mut caller) = caller_of(alloc, *rt, workers, wait, notify, clock) else {
        return Err(ExecFault::OutOfMemory);
    };
    match run_tasks(rt, alloc, spawner, &mut caller, workers, tasks) {
        Ok(outputs) => Ok(outputs),
        Err(fault) => Err(fault_of(fault)),
    }
}

/// What an executor tells of the fault for which a thread stopped.
fn fault_of(fault: WorkerFault) -> ExecFault
    ensures { result ≡ fault_of_worker fault }
{
    match fault {
        WorkerFault::Wait(fault) => ExecFault::Wait(fault),
        WorkerFault::Notify(fault) => ExecFault::Notify(fault),
        WorkerFault::OutOfMemory => ExecFault::OutOfMemory,
    }
}

/// The caller's own thread, the first one of a new reactor with so many parkers.
fn caller_of<R: Wait + Copy, N: Notify + Drop, C: Clock + Drop, A: Arm + Drop, W: EventWait + Drop>(
    alloc: Global,
    rt: R,
    workers: u32,
    wait: W,
    notify: &N,
    clock: &C,
) -> Result<Thread<R, N, A, W, C>, OutOfMemory>
    requires { (1 ≤ workers) × (workers ≤ 16) }
    ensures first { IfOk result (λ thread. (thread.host.member.ops.number ≡ 0)
        × (thread.host.member.ops.splits ≡ 1)) }
    ensures parkers { IfOk result (λ thread. thread.host.shared.words.parkers ≡ workers) }
    ensures wait { IfOk result (λ thread.
        thread.host.member.claim.sure_of_wait ≡ W.is_sure wait) }
    ensures notifier { IfOk result (λ thread. IsTrue (N.is_sure notify.now)
        → IsTrue (N.is_sure thread.host.member.notifier)) }
{
    let notifier = notify.twin()?;
    let clock = clock.twin()?;
    Thread::new(alloc, rt, workers, wait, notifier, clock)
}

/// Puts the tasks at their desks, runs the workers, and collects the answers.
fn run_tasks<
    R: Wait + Threads + Sync + Send + Copy + Drop,
    N: Notify + Send + Drop,
    C: Clock + Send + Drop,
    A: Arm + Send + Drop,
    W: EventWait + Send + Drop,
    T: Spawner,
    K: Work<Inside<R, N, A, W>> + Send + Drop,
>(
    rt: &R,
    alloc: Global,
    spawner: &mut T,
    caller: &mut Thread<R, N, A, W, C>,
    workers: u32,
    tasks: Vec<K>,
) -> Result<Vec<K::Output>, WorkerFault>
where
    K::Output: Send + Drop,
    requires workers { (1 ≤ workers) × (workers ≤ 16) }
    requires tasks { length tasks.items ≤ 64 * workers }
    requires first { caller.old.host.member.ops.number ≡ 0 }
    requires left { caller.old.host.member.ops.splits + workers ≤ pass_limit }
    requires parkers { workers ≤ caller.old.host.shared.words.parkers }
    ensures allowed { IfOk result (λ outputs.
        AllZip (λ task output. K.allows (K.about_of task) output ≡ true)
        tasks.items outputs.items) }
    ensures cause { IfErr result (StopsFor caller.old.host.member.claim.sure_of_wait
        (N.is_sure caller.old.host.member.notifier)) }
{
    let count = tasks.len();
    let Ok(answers) = Vec::with_capacity(alloc, count) else {
        return Err(WorkerFault::OutOfMemory);
    };
    let Ok(seated) = seat_tasks(alloc, tasks) else {
        return Err(WorkerFault::OutOfMemory);
    };
    let Seated { kept, desks } = seated;
    match run_workers(rt, alloc, spawner, caller, desks, workers, count as u32) {
        Err(fault) => Err(fault),
        Ok(()) => finish_all(caller, kept, answers),
    }
}

/// Runs the workers, until each has ended.
fn run_workers<
    R: Wait + Threads + Sync + Send + Copy + Drop,
    N: Notify + Send + Drop,
    C: Clock + Send + Drop,
    A: Arm + Send + Drop,
    W: EventWait + Send + Drop,
    T: Spawner,
    K: Work<Inside<R, N, A, W>> + Send + Drop,
>(
    rt: &R,
    alloc: Global,
    spawner: &mut T,
    caller: &mut Thread<R, N, A, W, C>,
    desks: Desks<Inside<R, N, A, W>, K>,
    workers: u32,
    tasks: u32,
) -> Result<(), WorkerFault>
where
    K::Output: Send + Drop,
    requires workers { (1 ≤ workers) × (workers ≤ 16) }
    requires few { tasks ≤ 64 * workers }
    requires first { caller.old.host.member.ops.number ≡ 0 }
    requires left { caller.old.host.member.ops.splits + workers ≤ pass_limit }
    requires parkers { workers ≤ caller.old.host.shared.words.parkers }
    ensures cause { IfErr result (StopsFor caller.old.host.member.claim.sure_of_wait
        (N.is_sure caller.old.host.member.notifier)) }
    ensures wait { caller.new.host.member.claim.sure_of_wait
        ≡ caller.old.host.member.claim.sure_of_wait }
    ensures notifier { caller.new.host.member.notifier ≡ caller.old.host.member.notifier }
{
    let Ok(jobs) = workers_of(alloc, caller, desks, workers, tasks) else {
        return Err(WorkerFault::OutOfMemory);
    };
    let Ok(ended) = spawner.run_all(alloc, rt, jobs) else {
        return Err(WorkerFault::OutOfMemory);
    };
    match ends_of(alloc, ended) {
        Err(fault) => return Err(fault),
        Ok(_) => {}
    }
    Ok(())
}
