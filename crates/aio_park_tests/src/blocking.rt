//! What no clause says of a thread that blocks on a task: that it makes rounds, and that a task is polled
//! where it was woken and nowhere else; and of one that makes rounds alone.

ghost use Rattle.std.specs.Prelude.{◌≤◌};

use crate::acts::Act::{Count, Drive, Never, Sleep, WakeItself};
use crate::acts::Came::{Ended, Events, Failed, Stopped, Waits};
use crate::acts::{Act, Came};
use crate::asserts::MEMORY;
use crate::readers::plays;
use crate::waits::PromptWait;
use aio_base::CountFault;
use aio_devices::{FailingWait, MemNotify, MemWait, SureArm};
use aio_park::BlockFault;
use std::alloc::Global;
use std::process::Abort;

/// Devices that never fail, whose waits give an event of each of so many keys.
fn sure(keys: u32) -> (MemNotify, SureArm, MemWait)
    requires { keys ≤ 1024 }
{
    (MemNotify::new(), SureArm::new(7), MemWait::new(keys))
}

/// The same, but the wait with this number fails.
fn failing(
    rt: &impl Abort,
    alloc: Global,
    keys: u32,
    number: u64,
) -> (MemNotify, SureArm, FailingWait)
    requires { keys ≤ 1024 }
{
    let fails = vec![in alloc; number].expect(rt, MEMORY);
    (
        MemNotify::new(),
        SureArm::new(7),
        FailingWait::new(keys, fails),
    )
}

/// What a wait that fails for the first time comes to.
const FIRST_FAULT: BlockFault = BlockFault::Wait(CountFault {
    before: 0,
    after: 1,
});

// The clock is looked at before a poll, and before and after each wait that gave no event. So it is the first
// pass of the second round that finds the timer due.
const SLEEPS: [(Act, Came); 2] = [(Sleep(5), Ended(5, 2)), (Count, Waits(2))];

#[test]
fn a_thread_reacts_until_its_timer_fires(rt: HostRuntime) {
    plays(&rt, rt.alloc(), sure(0), (3, 5), &SLEEPS);
}

const WAKES_ITSELF: [(Act, Came); 2] = [(WakeItself(4), Ended(0, 4)), (Count, Waits(3))];

#[test]
fn a_task_that_wakes_itself_is_polled_once_for_each_wake(rt: HostRuntime) {
    plays(&rt, rt.alloc(), sure(0), (1, 0), &WAKES_ITSELF);
}

const WAKES_ITSELF_A_THOUSAND_TIMES: [(Act, Came); 2] = [
    (WakeItself(1001), Ended(0, 1001)),
    (Count, Waits(1000)),
];

#[test]
fn a_task_is_woken_a_thousand_times(rt: HostRuntime) {
    let rows = &WAKES_ITSELF_A_THOUSAND_TIMES;
    plays(&rt, rt.alloc(), sure(0), (1, 0), rows);
}

// Each wait that is to last fails.
const WAITS_ONCE: [(Act, Came); 4] = [
    (WakeItself(4), Ended(0, 4)),
    (Count, Waits(3)),
    (Never, Failed(FIRST_FAULT, 1)),
    (Count, Waits(4)),
];

#[test]
fn a_round_waits_only_where_the_task_was_not_woken(rt: HostRuntime) {
    let devices = (MemNotify::new(), SureArm::new(7), PromptWait::new());
    plays(&rt, rt.alloc(), devices, (1, 0), &WAITS_ONCE);
}

const WAIT_FAILS: [(Act, Came); 2] = [(Never, Failed(FIRST_FAULT, 1)), (Count, Waits(1))];

#[test]
fn a_failed_wait_is_told_and_the_cell_goes_back(rt: HostRuntime) {
    let devices = failing(&rt, rt.alloc(), 0, 1);
    plays(&rt, rt.alloc(), devices, (1, 0), &WAIT_FAILS);
}

const DRIVES: [(Act, Came); 3] = [
    (Drive(3), Events(6)),
    (Count, Waits(3)),
    (Drive(0), Events(0)),
];

#[test]
fn a_driver_sums_up_the_events_of_its_rounds(rt: HostRuntime) {
    plays(&rt, rt.alloc(), sure(2), (1, 0), &DRIVES);
}

const DRIVES_ON: [(Act, Came); 2] = [(Drive(1000), Events(2000)), (Count, Waits(1000))];

#[test]
fn a_driver_makes_a_thousand_rounds(rt: HostRuntime) {
    plays(&rt, rt.alloc(), sure(2), (1, 0), &DRIVES_ON);
}

const DRIVER_FAILS: [(Act, Came); 2] = [(Drive(3), Stopped(FIRST_FAULT)), (Count, Waits(2))];

#[test]
fn a_driver_tells_a_failed_wait_and_gives_the_cell_back(rt: HostRuntime) {
    let devices = failing(&rt, rt.alloc(), 2, 2);
    plays(&rt, rt.alloc(), devices, (1, 0), &DRIVER_FAILS);
}
