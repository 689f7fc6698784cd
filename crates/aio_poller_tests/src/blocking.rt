//! A wait in memory that lasts until it is told: where nobody ends it, it fails after its looks.

use crate::asserts::{MEMORY, same};
use aio_base::{EventWait, Failed, Faults, Notify, Waited};
use aio_devices::{BlockingNotify, BlockingWait, blocking_pair};
use std::alloc::Global;
use std::process::Abort;
use std::sync::Wait;

/// What one wait without a limit, and with no room, came to.
fn waited<R: Wait>(wait: &mut BlockingWait<R>, alloc: Global) -> Result<Waited, Failed> {
    let mut out = Vec::new(alloc);
    wait.wait(&mut out, 0, None)
}

/// Asserts what the first three waits of a pair answer: the middle one of them was told, the others look in vain.
fn fails_unless_told<R: Wait + Copy>(
    rt: &impl Abort,
    alloc: Global,
    wait: &mut BlockingWait<R>,
    notify: &mut BlockingNotify<R>,
) {
    same(rt, waited(wait, alloc), Err(Failed));
    same(rt, (wait.waits(), wait.faults()), (1, 1));
    same(rt, notify.notify(), Ok(()));
    same(rt, waited(wait, alloc), Ok(Waited::Given(0)));
    same(rt, waited(wait, alloc), Err(Failed));
    same(rt, (wait.waits(), wait.faults()), (3, 2));
}

#[test]
fn a_wait_in_memory_that_nobody_ends_fails_after_its_looks(rt: HostRuntime) {
    let (mut wait, mut notify) = blocking_pair(&rt, rt.alloc(), 50).expect(&rt, MEMORY);
    fails_unless_told(&rt, rt.alloc(), &mut wait, &mut notify);
    drop(wait);
    drop(notify);
}
