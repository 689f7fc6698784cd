//! A task that a thread serves to its end, whatever its rounds fault.

ghost use Rattle.std.specs.Prelude.{◌≡◌, ◌≤◌, false, ℕ, Ok, IfOk, IfErr};
ghost use Rattle.aio_base.specs.Devices.{Rose};
ghost use Rattle.aio_park.specs.Blocking.{IsPast};
ghost use Rattle.aio_shared.specs.Inside.{IsLaterInside};
ghost use Rattle.aio_shared.specs.HandOver.{all_slots};
ghost use Rattle.aio_shared.specs.Waking.{MemberWakes};
ghost use Rattle.aio_park.specs.Driving.{TurnsOver};
ghost use Rattle.aio_park.specs.Stopping.{StopsFor};
ghost use Rattle.aio_park.specs.ToEnd.{PollsUntilReady, RunsThenHandsOver, RunsToEnd, RunsWhereMade};

use crate::blocking::poll_once;
use crate::thread::Thread;
use aio_base::{Arm, Clock, CountFault, EventWait, Notify, OutOfMemory, Poll, Task};
use aio_shared::{Inside, ReactFault};
use std::sync::Wait;

/// Why a thread stops before its task has ended.
#[derive(Clone, Copy, Debug, PartialEq, Eq)]
pub enum WorkerFault {
    /// A wait of the reactor failed, between these two counts of its faults.
    Wait(CountFault),
    /// The thread's notifier failed, between these two counts of its faults.
    Notify(CountFault),
    /// Memory ran out.
    OutOfMemory,
}

/// Runs a task to its end. After the fault of an arm every slot is woken, so that each task polls
/// its sources again, and the thread goes on. Once no round can begin any more, it hands over to
/// the other parkers and polls the task over and over.
///
/// # Errors
///
/// The fault of a wait, or of the thread's notifier, and want of memory: these end it. The task is
/// as its last poll left it.
pub fn run_to_end<
    R: Wait + Copy,
    N: Notify,
    C: Clock,
    A: Arm,
    W: EventWait,
    T: Task<Inside<R, N, A, W>>,
>(thread: &mut Thread<R, N, A, W, C>, task: &mut T) -> Result<T::Output, WorkerFault>
    ensures output { IfOk result (λ output.
        (moment : ℕ) → IsPast (C.bounds thread.old.clock) moment
        → T.gives task.old (N.is_sure thread.old.host.member.notifier) moment output) }
    ensures cause { IfErr result (StopsFor thread.old.host.member.claim.sure_of_wait
        (N.is_sure thread.old.host.member.notifier)) }
    ensures runs { RunsToEnd T.poll_step
        (λ shared. TurnsOver W N.fault_count W.wait_step shared thread.old.parker)
        N.call_count N.fault_count N.is_sure N.notify_step thread.old.parker
        (record {
          bounds = C.bounds thread.old.clock;
          before = C.latest thread.old.clock;
          after = C.latest thread.new.clock;
        })
        task.old thread.old.host result task.new thread.new.host }
    ensures later { IsLaterInside N.fault_count N.is_sure thread.old.host thread.new.host }
    ensures parker { thread.new.parker ≡ thread.old.parker }
{
    let rt = thread.host.rt;
    for _ in rt.forever() {
        match thread.run(task) {
            Ok(output) => return Ok(output),
            Err(ReactFault::Wait(fault)) => return Err(WorkerFault::Wait(fault)),
            Err(ReactFault::Notify(fault)) => return Err(WorkerFault::Notify(fault)),
            Err(ReactFault::OutOfMemory) => return Err(WorkerFault::OutOfMemory),
            Err(ReactFault::RoundsSpent) => {
                let _passed_over = thread.hand_over();
                return Ok(poll_over_and_over(thread, task));
            }
            Err(ReactFault::Arm(_)) => match wake_all(&mut thread.host) {
                Ok(()) => {}
                Err(fault) => return Err(WorkerFault::Notify(fault)),
            },
        }
    }
    unreachable!()
}

/// Runs a task to its end as `run_to_end` does, where there was memory for it; and then, whatever came of
/// it, wakes a slot of each other parker, so that one of them makes rounds in place of this thread. A
/// fault of these wakes is passed over, as the slots are woken all the same.
///
/// # Errors
///
/// Those of `run_to_end`; and `OutOfMemory` where there was none for the task.
pub fn run_then_hand_over<
    R: Wait + Copy,
    N: Notify,
    C: Clock,
    A: Arm,
    W: EventWait,
    T: Task<Inside<R, N, A, W>> + Drop,
>(
    thread: &mut Thread<R, N, A, W, C>,
    task: Result<T, OutOfMemory>,
) -> Result<T::Output, WorkerFault>
    ensures output { IfOk result (λ output. (ran : T) × (task ≡ Ok ran)
        × ((moment : ℕ) → IsPast (C.bounds thread.old.clock) moment
        → T.gives ran (N.is_sure thread.old.host.member.notifier) moment output)) }
    ensures cause { IfErr result (StopsFor thread.old.host.member.claim.sure_of_wait
        (N.is_sure thread.old.host.member.notifier)) }
    ensures ran { RunsThenHandsOver T.poll_step
        (λ shared. TurnsOver W N.fault_count W.wait_step shared thread.old.parker)
        N.call_count N.fault_count N.is_sure N.notify_step thread.old.parker
        (record {
          bounds = C.bounds thread.old.clock;
          before = C.latest thread.old.clock;
          after = C.latest thread.new.clock;
        })
        task thread.old.host result thread.new.host }
    ensures later { IsLaterInside N.fault_count N.is_sure thread.old.host thread.new.host }
    ensures parker { thread.new.parker ≡ thread.old.parker }
{
    let ended = run_made(thread, task);
    let _passed_over = thread.hand_over();
    ended
}

/// Runs a task to its end as `run_to_end` does, where there was memory for it.
fn run_made<
    R: Wait + Copy,
    N: Notify,
    C: Clock,
    A: Arm,
    W: EventWait,
    T: Task<Inside<R, N, A, W>> + Drop,
>(
    thread: &mut Thread<R, N, A, W, C>,
    task: Result<T, OutOfMemory>,
) -> Result<T::Output, WorkerFault>
    ensures output { IfOk result (λ output. (ran : T) × (task ≡ Ok ran)
        × ((moment : ℕ) → IsPast (C.bounds thread.old.clock) moment
        → T.gives ran (N.is_sure thread.old.host.member.notifier) moment output)) }
    ensures cause { IfErr result (StopsFor thread.old.host.member.claim.sure_of_wait
        (N.is_sure thread.old.host.member.notifier)) }
    ensures ran { RunsWhereMade T.poll_step
        (λ shared. TurnsOver W N.fault_count W.wait_step shared thread.old.parker)
        N.call_count N.fault_count N.is_sure N.notify_step thread.old.parker
        (record {
          bounds = C.bounds thread.old.clock;
          before = C.latest thread.old.clock;
          after = C.latest thread.new.clock;
        })
        task thread.old.host result thread.new.host }
    ensures later { IsLaterInside N.fault_count N.is_sure thread.old.host thread.new.host }
    ensures parker { thread.new.parker ≡ thread.old.parker }
{
    match task {
        Err(_) => Err(WorkerFault::OutOfMemory),
        Ok(mut task) => run_to_end(thread, &mut task),
    }
}

/// Wakes every slot of every parker. `Err` is the first fault of the notifier.
fn wake_all<R: Wait, N: Notify, A: Arm, W: EventWait>(
    host: &mut Inside<R, N, A, W>,
) -> Result<(), CountFault>
    ensures wakes { MemberWakes N.call_count N.fault_count N.is_sure N.notify_step
        host.old.shared.words.parkers all_slots host.old.member host.new.member result }
    ensures later { IsLaterInside N.fault_count N.is_sure host.old host.new }
    ensures cause { IfErr result (λ fault. (N.is_sure host.old.member.notifier ≡ false)
        × Rose fault.before fault.after) }
{
    host.shared.wake_all_slots(&mut host.member)
}

/// Polls a task until it ends, each time with a mask of all ones, without a wait in between.
fn poll_over_and_over<
    R: Wait + Copy,
    N: Notify,
    C: Clock,
    A: Arm,
    W: EventWait,
    T: Task<Inside<R, N, A, W>>,
>(thread: &mut Thread<R, N, A, W, C>, task: &mut T) -> T::Output
    ensures output { (moment : ℕ) → IsPast (C.bounds thread.old.clock) moment
        → T.gives task.old (N.is_sure thread.old.host.member.notifier) moment result }
    ensures polled { PollsUntilReady T.poll_step thread.old.parker
        (record {
          bounds = C.bounds thread.old.clock;
          before = C.latest thread.old.clock;
          after = C.latest thread.new.clock;
        })
        task.old thread.old.host result task.new thread.new.host }
    ensures bounds { C.bounds thread.new.clock ≡ C.bounds thread.old.clock }
    ensures latest { C.latest thread.old.clock ≤ C.latest thread.new.clock }
    ensures later { IsLaterInside N.fault_count N.is_sure thread.old.host thread.new.host }
    ensures parker { thread.new.parker ≡ thread.old.parker }
{
    let rt = thread.host.rt;
    for _ in rt.forever() {
        let parker = thread.parker;
        match poll_once(&mut thread.host, parker, u64::MAX, &mut thread.clock, task) {
            Poll::Ready(output) => return output,
            Poll::Pending => {}
        }
    }
    unreachable!()
}
