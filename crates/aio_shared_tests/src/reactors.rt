//! What no clause says of a whole reactor: that its parts work together with ample memory.

use crate::acts::Act::React;
use crate::acts::Came::Round;
use crate::acts::Row;
use crate::asserts::same;
use crate::owners::owner_over;
use crate::scripts::one_by_one;
use aio_base::{Interest, Poll};
use aio_devices::{MemNotify, ScriptedWait, SureArm};
use std::alloc::Global;
use std::process::Abort;
use std::sync::Wait;

const SECOND_TAKES: Row = Row {
    shows: "an event takes the waiters of its source",
    keys: 0,
    now: 30,
    acts: &[
        (React, Round(1, 0)),
        (React, Round(1, 1)),
        (React, Round(1, 0)),
    ],
};

/// Polls a source and raises the number of its connection, asserts what rounds over this wait come to, and
/// that the number stayed.
fn polls_and_plays<R: Wait + Abort>(rt: &R, alloc: Global, wait: ScriptedWait) {
    let devices = (MemNotify::new(), SureArm::new(7), wait);
    let mut owner = owner_over(rt, alloc, devices, 30);
    let (polled, number) = owner.poll_and_count(3);
    same(rt, (polled.answer == Poll::Pending, number), (true, 8));
    owner.plays(rt, &SECOND_TAKES);
    same(rt, owner.poll_and_count(3).1, 9);
    drop(owner);
}

#[test]
fn an_event_takes_the_waiters_of_its_source(rt: HostRuntime) {
    let wait = one_by_one(&rt, rt.alloc(), &[1, 0, 0], Interest::READ_WRITE);
    polls_and_plays(&rt, rt.alloc(), wait);
}
