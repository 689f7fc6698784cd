//! What no clause says of a source: that its calls succeed with ample memory, through the bound `Arm` too, over
//! an arm that counts and over the poller in memory, and how they follow one another.

use crate::arms::{CountingArm, Told};
use crate::asserts::{MEMORY, same};
use crate::polling::Act::{
    Arms, Asked, FailNext, Handle, Holds, Listen, ListenAgain, Look, Poll, ReadySince, Taken,
    Unlisten,
};
use crate::polling::Came::{Armed, Count, Done, Failed, Gone, Is, Listened, Looked};
use crate::polling::{
    Act, Came, FIRST_FAULT, KEY, Polling, READY, REPLACES, THIRD_FAULT, TOLD, WAITS,
};
use aio_base::{Dir, Interest, Waker};
use aio_script::ScriptPoller;
use aio_source::{SourceCell, SourceState};
use std::alloc::Global;
use std::process::Abort;

/// Asserts that what these acts come to over this arm is what stands beside each, and which wakers they took.
fn plays<A: Told + Drop>(
    rt: &impl Abort,
    alloc: Global,
    arm: A,
    rows: &[(Act, Came)],
    taken: &[Waker],
) {
    let mut polling = Polling::new(rt, alloc, arm);
    polling.plays(rt, rows);
    same(rt, polling.taken.as_slice(), taken);
}

const WAITS_FOR_A_LATER_ROUND: [(Act, Came); 17] = [
    (Poll(Dir::Read, 1, 0), WAITS),
    (Arms, Armed(1, Interest::READ)),
    (Poll(Dir::Read, 1, 0), WAITS),
    (Arms, Armed(1, Interest::READ)),
    (Poll(Dir::Read, 2, 0), REPLACES),
    (Arms, Armed(1, Interest::READ)),
    (Poll(Dir::Write, 3, 0), WAITS),
    (Arms, Armed(2, Interest::READ_WRITE)),
    (Look(Dir::Read), Looked(1, 0)),
    (Handle(Interest::READ, 1), Done),
    (Taken, Count(1)),
    (Arms, Armed(3, Interest::WRITE)),
    (ReadySince(Dir::Read, 0, 0), Is(true)),
    (Poll(Dir::Read, 2, 1), READY),
    (Look(Dir::Read), Looked(0, 1)),
    (Poll(Dir::Read, 2, 1), WAITS),
    (Taken, Count(1)),
];

#[test]
fn polls_wait_for_an_event_of_a_later_round(rt: HostRuntime) {
    let rows = &WAITS_FOR_A_LATER_ROUND;
    plays(&rt, rt.alloc(), CountingArm::new(), rows, &[Waker(2)]);
}

const ARMS_WHAT_STILL_WAITS: [(Act, Came); 12] = [
    (Poll(Dir::Read, 1, 0), WAITS),
    (Poll(Dir::Write, 2, 0), WAITS),
    (Handle(Interest::NONE, 1), Done),
    (Taken, Count(0)),
    (Arms, Armed(3, Interest::READ_WRITE)),
    (Handle(Interest::READ_WRITE, 5), Done),
    (Look(Dir::Read), Looked(0, 5)),
    (Asked, Came::Asked(Interest::NONE, false)),
    (Handle(Interest::READ_WRITE, 3), Done),
    (Look(Dir::Read), Looked(0, 5)),
    (Asked, Came::Asked(Interest::NONE, false)),
    (Arms, Armed(3, Interest::READ_WRITE)),
];

#[test]
fn an_event_arms_what_still_waits(rt: HostRuntime) {
    let rows = &ARMS_WHAT_STILL_WAITS;
    let taken = [Waker(2), Waker(1)];
    plays(&rt, rt.alloc(), CountingArm::new(), rows, &taken);
}

const LISTENS: [(Act, Came); 13] = [
    (Listen(Dir::Read, 11, 4), Listened(4, 0)),
    (Listen(Dir::Read, 12, 4), Listened(4, 0)),
    (Listen(Dir::Read, 13, 4), Listened(4, 0)),
    (Arms, Armed(1, Interest::READ)),
    (Unlisten(1), Done),
    (Unlisten(1), Gone),
    (ListenAgain(1, 12), Gone),
    (Poll(Dir::Read, 1, 4), WAITS),
    (Look(Dir::Read), Looked(3, 0)),
    (ListenAgain(0, 14), WAITS),
    (Handle(Interest::READ, 5), Done),
    (ListenAgain(0, 14), READY),
    (ListenAgain(0, 14), READY),
];

#[test]
fn listeners_stay_ready(rt: HostRuntime) {
    let taken = [Waker(1), Waker(14), Waker(13)];
    plays(&rt, rt.alloc(), CountingArm::new(), &LISTENS, &taken);
}

const TELLS_A_FAILED_ARM: [(Act, Came); 14] = [
    (Poll(Dir::Read, 1, 0), WAITS),
    (Poll(Dir::Write, 2, 0), WAITS),
    (FailNext, Done),
    (Handle(Interest::READ, 1), Failed(FIRST_FAULT)),
    (Taken, Count(1)),
    (Asked, Came::Asked(Interest::NONE, true)),
    (FailNext, Done),
    (Poll(Dir::Write, 2, 1), TOLD),
    (FailNext, Done),
    (Listen(Dir::Read, 5, 1), Failed(THIRD_FAULT)),
    (Holds(0), Is(true)),
    (Look(Dir::Read), Looked(1, 1)),
    (Poll(Dir::Write, 2, 1), WAITS),
    (Asked, Came::Asked(Interest::READ_WRITE, false)),
];

#[test]
fn a_failed_arm_is_told_and_made_again(rt: HostRuntime) {
    let rows = &TELLS_A_FAILED_ARM;
    plays(&rt, rt.alloc(), CountingArm::new(), rows, &[Waker(1)]);
}

// An event of no direction takes nobody, and arms what still waits. One of a later round takes the waker; one
// of an earlier round lowers no tick.
const LISTENS_TO_THE_POLLER: [(Act, Came); 11] = [
    (Listen(Dir::Read, 11, 4), Listened(4, 0)),
    (Arms, Armed(0, Interest::READ)),
    (Handle(Interest::NONE, 5), Done),
    (Taken, Count(0)),
    (Arms, Armed(0, Interest::READ)),
    (Handle(Interest::READ, 9), Done),
    (Look(Dir::Read), Looked(0, 9)),
    (Handle(Interest::READ, 6), Done),
    (Look(Dir::Read), Looked(0, 9)),
    (ListenAgain(0, 12), READY),
    (ListenAgain(0, 12), READY),
];

#[test]
fn listeners_are_armed_and_stay_ready(rt: HostRuntime) {
    let poller = ScriptPoller::new(rt.alloc()).expect(&rt, MEMORY);
    plays(
        &rt,
        rt.alloc(),
        poller,
        &LISTENS_TO_THE_POLLER,
        &[Waker(11)],
    );
}

const FAILS_BY_THE_POLLER: [(Act, Came); 6] = [
    (Poll(Dir::Read, 1, 0), WAITS),
    (Poll(Dir::Write, 2, 0), WAITS),
    (FailNext, Done),
    (Handle(Interest::READ, 1), Failed(FIRST_FAULT)),
    (Poll(Dir::Write, 2, 1), WAITS),
    (Arms, Armed(0, Interest::WRITE)),
];

#[test]
fn a_failed_arm_keeps_the_taken_wakers(rt: HostRuntime) {
    let poller = ScriptPoller::new(rt.alloc()).expect(&rt, MEMORY);
    plays(&rt, rt.alloc(), poller, &FAILS_BY_THE_POLLER, &[Waker(1)]);
}

/// What is left of the directions once the waiter of reading is taken.
const WITHOUT_READING: Interest = Interest {
    priority: true,
    ..Interest::WRITE
};

const ALL_THREE_WAIT: [(Act, Came); 10] = [
    (Poll(Dir::Priority, 3, 0), WAITS),
    (Poll(Dir::Read, 1, 0), WAITS),
    (Poll(Dir::Write, 2, 0), WAITS),
    (Arms, Armed(0, Interest::ALL)),
    (Handle(Interest::READ, 1), Done),
    (Arms, Armed(0, WITHOUT_READING)),
    (Poll(Dir::Read, 1, 1), READY),
    (Poll(Dir::Read, 1, 1), WAITS),
    (Handle(Interest::ALL, 2), Done),
    (Poll(Dir::Priority, 3, 2), READY),
];

#[test]
fn an_event_leaves_the_waiters_of_other_directions_and_takes_urgent_ones_last(rt: HostRuntime) {
    let poller = ScriptPoller::new(rt.alloc()).expect(&rt, MEMORY);
    let taken = [Waker(1), Waker(2), Waker(1), Waker(3)];
    plays(&rt, rt.alloc(), poller, &ALL_THREE_WAIT, &taken);
}

const LISTENS_FOR_PRIORITY: [(Act, Came); 7] = [
    (Listen(Dir::Priority, 11, 4), Listened(4, 0)),
    (Arms, Armed(0, Interest::PRIORITY)),
    (Handle(Interest::READ_WRITE, 5), Done),
    (Taken, Count(0)),
    (Arms, Armed(0, Interest::PRIORITY)),
    (Handle(Interest::PRIORITY, 6), Done),
    (ListenAgain(0, 12), READY),
];

#[test]
fn a_listener_waits_for_urgent_readiness(rt: HostRuntime) {
    let poller = ScriptPoller::new(rt.alloc()).expect(&rt, MEMORY);
    let rows = &LISTENS_FOR_PRIORITY;
    plays(&rt, rt.alloc(), poller, rows, &[Waker(11)]);
}

const FAILS_WITH_PRIORITY_LEFT: [(Act, Came); 7] = [
    (Poll(Dir::Read, 1, 0), WAITS),
    (Poll(Dir::Priority, 3, 0), WAITS),
    (FailNext, Done),
    (Handle(Interest::READ, 1), Failed(FIRST_FAULT)),
    (Asked, Came::Asked(Interest::NONE, true)),
    (Poll(Dir::Priority, 3, 1), WAITS),
    (Arms, Armed(0, Interest::PRIORITY)),
];

#[test]
fn a_failed_arm_is_made_again_for_urgent_readiness_alone(rt: HostRuntime) {
    let poller = ScriptPoller::new(rt.alloc()).expect(&rt, MEMORY);
    let rows = &FAILS_WITH_PRIORITY_LEFT;
    plays(&rt, rt.alloc(), poller, rows, &[Waker(1)]);
}

/// Takes what several threads may share, and lets it go.
fn send_away<T: Send + Sync + Drop>(_value: T) {}

#[test]
fn a_source_may_go_to_another_thread(rt: HostRuntime) {
    let state = SourceState::new(rt.alloc(), KEY);
    same(&rt, state.key(), KEY);
    send_away(SourceCell {
        state,
        io: CountingArm::new(),
    });
}
