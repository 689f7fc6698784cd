//! What no clause says of a thread that waits for a source of its own: that a waker which another one
//! replaced is woken, and that a fault of an arm or of a notifier is told where it was met, and not twice.

use crate::acts::Act::{Count, Poll, Read, Take};
use crate::acts::Came::{Ended, Failed, Mask, Pending, Told, Waits};
use crate::acts::{Act, Came};
use crate::asserts::MEMORY;
use crate::readers::plays;
use aio_base::{ArmFault, CountFault, Dir, Event, Interest, Key};
use aio_devices::{
    FailingArm, FailingNotify, MemNotify, MemWait, ScriptedWait, SureArm, WaitAnswer,
};
use aio_park::BlockFault;
use aio_shared::PollFault;
use std::alloc::Global;
use std::process::Abort;

const REPLACES_A_WAKER: [(Act, Came); 3] = [
    (Poll(Dir::Read, 3), Pending),
    (Poll(Dir::Read, 5), Pending),
    (Take, Mask(1 << 3)),
];

#[test]
fn the_waker_that_another_one_replaced_is_woken(rt: HostRuntime) {
    let devices = (MemNotify::new(), SureArm::new(7), MemWait::new(0));
    plays(&rt, rt.alloc(), devices, (0, 0), &REPLACES_A_WAKER);
}

/// A connection of which the call with this number fails, by its arm.
fn failing(rt: &impl Abort, alloc: Global, call: u64) -> FailingArm {
    FailingArm::new(7, vec![in alloc; call].expect(rt, MEMORY))
}

/// The first fault of the arm of the first source.
const ARM_FAULT: ArmFault = ArmFault {
    key: Key(0),
    before: 0,
    after: 1,
};

const ARM_FAILS_AT_A_POLL: [(Act, Came); 2] = [
    (Poll(Dir::Read, 3), Told(PollFault::Arm(ARM_FAULT))),
    (Poll(Dir::Read, 3), Pending),
];

#[test]
fn a_failed_arm_is_told_by_the_poll_that_met_it(rt: HostRuntime) {
    let io = failing(&rt, rt.alloc(), 2);
    let devices = (MemNotify::new(), io, MemWait::new(0));
    plays(&rt, rt.alloc(), devices, (0, 0), &ARM_FAILS_AT_A_POLL);
}

/// A wait that gives one event of the read direction for key 0.
fn readable_once(rt: &impl Abort, alloc: Global) -> ScriptedWait {
    let event = Event {
        key: Key(0),
        on: Interest::READ,
    };
    let answer = WaitAnswer::Gives(vec![in alloc; event].expect(rt, MEMORY));
    ScriptedWait::new(vec![in alloc; answer].expect(rt, MEMORY))
}

const ARM_FAILS_IN_A_ROUND: [(Act, Came); 3] = [
    (Poll(Dir::Write, 1), Pending),
    (Read, Failed(BlockFault::Arm(ARM_FAULT), 1)),
    (Read, Ended(0, 2)),
];

#[test]
fn a_failed_arm_of_a_round_is_handed_on_and_the_task_goes_on(rt: HostRuntime) {
    let wait = readable_once(&rt, rt.alloc());
    let devices = (MemNotify::new(), failing(&rt, rt.alloc(), 4), wait);
    plays(&rt, rt.alloc(), devices, (1, 0), &ARM_FAILS_IN_A_ROUND);
}

const NOTIFIER_FAILS: [(Act, Came); 2] = [
    (
        Read,
        Failed(
            BlockFault::Notify(CountFault {
                before: 0,
                after: 1,
            }),
            1,
        ),
    ),
    (Count, Waits(1)),
];

#[test]
fn a_failed_notifier_of_a_round_is_handed_on(rt: HostRuntime) {
    let devices = (FailingNotify::new(), SureArm::new(7), MemWait::new(1));
    plays(&rt, rt.alloc(), devices, (1, 0), &NOTIFIER_FAILS);
}
