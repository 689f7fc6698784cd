//! What no clause says of a timer on a host in memory: that its calls succeed with ample memory, and go together.

use crate::asserts::{MEMORY, same};
use crate::hosts::{ListHost, Trouble};
use crate::relays::moment;
use aio_base::{TimerHost, Waker};
use aio_future::{Poll, Timer, TimerFault};
use aio_react::Core;
use aio_script::ScriptPoller;
use std::alloc::Global;
use std::process::Abort;

/// Polls a timer at a moment with waker 1, through the bound alone.
fn poll_at<H: TimerHost>(
    rt: &impl Abort,
    timer: &mut Timer,
    host: &mut H,
    now: u64,
) -> Poll<Result<u64, TimerFault>> {
    match timer.poll(host, moment(rt, now), Waker(1)) {
        Poll::Ready(Ok(at)) => Poll::Ready(Ok(at.get())),
        Poll::Ready(Err(fault)) => Poll::Ready(Err(fault)),
        Poll::Pending => Poll::Pending,
    }
}

/// Asserts what three polls at one moment answer.
fn fires_twice<H: TimerHost>(rt: &impl Abort, timer: &mut Timer, host: &mut H) {
    for answer in [Poll::Ready(Ok(10)), Poll::Ready(Ok(20)), Poll::Pending] {
        same(rt, poll_at(rt, timer, host, 25), answer);
    }
}

/// Asserts that a timer which waits is set anew, fires for each period that has passed, and is closed.
fn is_set_anew<H: TimerHost>(rt: &impl Abort, host: &mut H) {
    let mut timer = Timer::at(moment(rt, 50));
    same(rt, poll_at(rt, &mut timer, host, 0), Poll::Pending);
    same(rt, timer.set_every(host, moment(rt, 10), 10), Ok(()));
    fires_twice(rt, &mut timer, host);
    same(rt, timer.close(host).is_ok(), true);
}

/// A core over the poller in memory.
fn new_core(rt: &impl Abort, alloc: Global) -> Core<ScriptPoller> {
    let poller = ScriptPoller::new(alloc).expect(rt, MEMORY);
    Core::new(alloc, poller).ok().expect(rt, MEMORY)
}

#[test]
fn a_timer_that_is_set_anew_fires_for_each_period(rt: HostRuntime) {
    let mut host = ListHost::new(rt.alloc(), Trouble::Nothing);
    is_set_anew(&rt, &mut host);
    same(&rt, host.timers(), 0);
    drop(host);
    is_set_anew(&rt, &mut new_core(&rt, rt.alloc()));
}
