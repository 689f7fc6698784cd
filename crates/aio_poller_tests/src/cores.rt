//! A reactor over the adapter: a task that waits is woken, whatever mode the raw poller is in.

use crate::adapters::{MODES, adapter};
use crate::asserts::{MEMORY, same};
use aio_base::{Dir, Interest, Key, Moment, Poll, Waker};
use aio_modes::{Mode, OneShot, RawScript};
use aio_react::Core;
use std::alloc::Global;
use std::process::Abort;

/// A reactor over an adapter in this mode.
fn reactor(rt: &impl Abort, alloc: Global, mode: Mode) -> Core<OneShot<RawScript>> {
    Core::new(alloc, adapter(rt, alloc, mode))
        .ok()
        .expect(rt, MEMORY)
}

/// Whether the task waits that polls a source for readability.
fn waits(rt: &impl Abort, core: &mut Core<OneShot<RawScript>>, key: Key) -> bool {
    let polled = core
        .poll(key, Dir::Read, Waker(7))
        .ok()
        .expect(rt, "a live source");
    matches!(&polled.answer, Poll::Pending)
}

#[test]
fn a_task_that_waits_is_woken_in_each_mode(rt: HostRuntime) {
    for mode in MODES {
        let mut core = reactor(&rt, rt.alloc(), mode);
        let added = core.add().ok();
        same(&rt, added, Some(Key(0)));
        same(&rt, waits(&rt, &mut core, Key(0)), true);
        core.poller().become_ready(Key(0), Interest::READ);
        let now = Moment::new(0).expect(&rt, "a moment");
        let done = core.react(now, None).ok().expect(&rt, "no round runs");
        same(&rt, (done.number, done.events, done.fault), (1, 1, None));
        same(&rt, core.woken().first().copied(), Some(Waker(7)));
        same(&rt, core.woken().len(), 1);
        same(&rt, waits(&rt, &mut core, Key(0)), false);
    }
}
