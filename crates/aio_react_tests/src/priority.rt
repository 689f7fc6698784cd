//! What no clause says of a core whose tasks wait for three directions: that its calls succeed with ample memory, and
//! how they follow one another.

use crate::asserts::{moment, same};
use crate::cores::new_core;
use aio_base::{Dir, Event, Interest, Key, Poll, Waker};
use aio_react::Core;
use aio_script::ScriptPoller;
use std::process::Abort;

/// The answer of a poll that is ready.
const READY: Poll<bool> = Poll::Ready(true);

/// Polls a direction of source 0: whether it is ready, and not for a fault.
fn poll(rt: &impl Abort, core: &mut Core<ScriptPoller>, dir: Dir, waker: u32) -> Poll<bool> {
    let polled = core
        .poll(Key(0), dir, Waker(waker))
        .ok()
        .expect(rt, "source 0 is there");
    match polled.answer {
        Poll::Ready(answer) => Poll::Ready(answer.is_ok()),
        Poll::Pending => Poll::Pending,
    }
}

/// Has the poller note an event of source 0, and makes a round: its number, its events, and whether it met
/// no fault.
fn round(rt: &impl Abort, core: &mut Core<ScriptPoller>, on: Interest) -> (u64, u32, bool) {
    let event = Event { key: Key(0), on };
    core.poller()
        .give(event)
        .ok()
        .expect(rt, crate::asserts::MEMORY);
    let reacted = core
        .react(moment(rt, 0), None)
        .ok()
        .expect(rt, "no round runs");
    (reacted.number, reacted.events, reacted.fault.is_none())
}

/// What is armed of source 0.
fn armed(core: &mut Core<ScriptPoller>) -> Interest {
    core.poller().armed(Key(0))
}

#[test]
fn one_event_wakes_a_waiter_of_each_direction_and_priority_last(rt: HostRuntime) {
    let mut core = new_core(&rt, rt.alloc());
    same(&rt, core.add().ok(), Some(Key(0)));
    same(&rt, poll(&rt, &mut core, Dir::Priority, 3), Poll::Pending);
    same(&rt, poll(&rt, &mut core, Dir::Read, 1), Poll::Pending);
    same(&rt, poll(&rt, &mut core, Dir::Write, 2), Poll::Pending);
    same(&rt, armed(&mut core), Interest::ALL);
    same(&rt, round(&rt, &mut core, Interest::ALL), (1, 1, true));
    same(&rt, core.woken(), [Waker(2), Waker(1), Waker(3)].as_slice());
    same(&rt, poll(&rt, &mut core, Dir::Priority, 3), READY);
    same(&rt, poll(&rt, &mut core, Dir::Priority, 3), Poll::Pending);
    same(&rt, armed(&mut core), Interest::PRIORITY);
}

#[test]
fn an_event_without_priority_leaves_its_waiter(rt: HostRuntime) {
    let mut core = new_core(&rt, rt.alloc());
    same(&rt, core.add().ok(), Some(Key(0)));
    same(&rt, poll(&rt, &mut core, Dir::Read, 1), Poll::Pending);
    same(&rt, poll(&rt, &mut core, Dir::Priority, 3), Poll::Pending);
    same(&rt, round(&rt, &mut core, Interest::READ), (1, 1, true));
    same(&rt, core.woken(), [Waker(1)].as_slice());
    same(&rt, armed(&mut core), Interest::PRIORITY);
    same(&rt, round(&rt, &mut core, Interest::PRIORITY), (2, 1, true));
    same(&rt, core.woken(), [Waker(3)].as_slice());
    same(&rt, armed(&mut core), Interest::NONE);
}
