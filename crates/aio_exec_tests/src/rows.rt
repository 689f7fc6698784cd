//! What no clause says of an executor.

use crate::asserts::{MEMORY, same};
use crate::flags::Flagged;
use crate::wakers::SelfWaking;
use aio_base::{Lent, Moment};
use aio_conns::MemConn;
use aio_devices::{MemClock, MemNotify, MemWait, clock_at};
use aio_exec::exec_run;
use aio_jobs::ThreadSpawner;
use std::alloc::Global;
use std::process::Abort;
use std::sync::atomic::AtomicU32;
use std::sync::{Arc, Wait};
use std::thread::Threads;

/// A clock that stands still.
fn still_clock(rt: &impl Abort, alloc: Global) -> MemClock {
    let start = Moment::new(0).expect(rt, "0 is a moment");
    clock_at(alloc, start).expect(rt, MEMORY)
}

/// What tasks saw that set these flags and look for those, by two workers on threads.
fn seen<R: Wait + Threads + Sync + Send + Copy + Abort + Drop>(
    rt: &R,
    alloc: Global,
    tasks: &[(u32, u32)],
) -> Vec<bool> {
    let flags = Arc::new(alloc, AtomicU32::new(0)).expect(rt, MEMORY);
    let mut made = Vec::new(alloc);
    for (sets, looks_for) in tasks {
        let task = Flagged::new(&flags, *sets, *looks_for).expect(rt, MEMORY);
        made.push(task).expect(rt, MEMORY);
    }
    assert!(rt; made.len() <= 128);
    let clock = still_clock(rt, alloc);
    let ended = exec_run::<_, MemConn, _, _, _, _, _>(
        rt,
        alloc,
        MemWait::new(0),
        &MemNotify::new(),
        &clock,
        &mut ThreadSpawner,
        2,
        made,
    );
    ended.ok().expect(rt, "the run ends")
}

#[test]
fn two_tasks_run_at_the_same_time(rt: HostRuntime) {
    let found = seen(&&rt, rt.alloc(), &[(1, 2), (2, 1)]);
    same(&rt, found.as_slice(), [true, true].as_slice());
}

#[test]
fn a_waiting_task_is_stolen(rt: HostRuntime) {
    let found = seen(&&rt, rt.alloc(), &[(1, 4), (2, 0), (4, 0)]);
    same(&rt, found.as_slice(), [true, true, true].as_slice());
}

/// How many of so many tasks, of which a later one wakes itself less often, answered their own number, by so
/// many workers over a lent wait.
fn in_order<R: Wait + Threads + Sync + Send + Copy + Abort + Drop>(
    rt: &R,
    alloc: Global,
    tasks: u32,
    workers: u32,
) -> u64 {
    let mut made = Vec::new(alloc);
    for task in 0..tasks {
        made.push(SelfWaking::new(task as u64, 2 + 63 % (task + 1)))
            .expect(rt, MEMORY);
    }
    assert!(rt; workers >= 1);
    assert!(rt; workers <= 16);
    assert!(rt; made.len() <= 64 * workers as usize);
    let mut wait = MemWait::new(0);
    let clock = still_clock(rt, alloc);
    let ended = exec_run::<_, MemConn, _, _, _, _, _>(
        rt,
        alloc,
        Lent { inner: &mut wait },
        &MemNotify::new(),
        &clock,
        &mut ThreadSpawner,
        workers,
        made,
    );
    let mut next = 0;
    for number in ended.ok().expect(rt, "the run ends") {
        if number == next {
            next = number.wrapping_add(1);
        }
    }
    next
}

#[test]
fn tasks_that_wake_themselves_answer_in_their_order(rt: HostRuntime) {
    let found = in_order(&&rt, rt.alloc(), 64, 1);
    same(&rt, found, 64);
}

#[test]
fn sixteen_workers_have_the_tasks_of_sixteen_and_end(rt: HostRuntime) {
    let found = in_order(&&rt, rt.alloc(), 1024, 16);
    same(&rt, found, 1024);
}

#[test]
fn workers_without_tasks_end(rt: HostRuntime) {
    let found = in_order(&&rt, rt.alloc(), 0, 16);
    same(&rt, found, 0);
}
