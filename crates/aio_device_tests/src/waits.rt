//! What no clause says of a wait beside others: that a notify of another thread or of a twin ends it, and that no
//! event is lost for want of room.

use crate::asserts::{MEMORY, same};
use crate::joined::{Joined, LONG, accepted, client_of, connected, one_event, send_all, watch};
use aio_base::{Arm, Event, EventWait, Failed, Faults, Interest, Key, Notify};
use aio_mio::{MioConn, MioNotify, MioWait};
use std::alloc::Global;
use std::net::Net;
use std::process::Abort;
use std::thread::{Threads, join, sleep};
use std::time::{Clock, Duration};

// A wait without a limit, and beside it a notify that comes a while later. What both answer.
fn end_later<R: Threads + Clock + Sync>(
    rt: &R,
    alloc: Global,
    wait: &mut MioWait,
    notify: &mut MioNotify,
) -> (Result<bool, Failed>, Result<(), Failed>) {
    join(
        rt,
        || one_event(wait, alloc, None).map(|event| event.is_none()),
        || {
            sleep(rt, Duration::from_millis(20));
            notify.notify()
        },
    )
}

#[test]
fn a_notify_of_another_thread_ends_a_wait_without_an_event(rt: HostRuntime) {
    for _ in 0..5 {
        let mut j = connected(&rt, rt.alloc());
        let ended = end_later(&rt, rt.alloc(), &mut j.wait, &mut j.notify);
        same(&rt, ended, (Ok(true), Ok(())));
        drop(j);
    }
}

/// A wait without a limit, and beside it an arm that comes a while later. What both answer.
fn arm_later<R: Threads + Clock + Sync>(
    rt: &R,
    alloc: Global,
    wait: &mut MioWait,
    conn: &mut MioConn,
) -> (Result<Option<Event>, Failed>, Result<(), Failed>) {
    join(
        rt,
        || one_event(wait, alloc, None),
        || {
            sleep(rt, Duration::from_millis(20));
            conn.arm(Key(7), Interest::READ)
        },
    )
}

/// What is not read yet.
const NOT_READ: Event = Event {
    key: Key(7),
    on: Interest::READ,
};

#[test]
fn an_arm_of_another_thread_ends_a_wait_with_the_edge_that_came_before(rt: HostRuntime) {
    let mut j = connected(&rt, rt.alloc());
    same(&rt, watch(&mut j.conn, 7, Interest::READ), Ok(()));
    same(&rt, send_all(&mut j.client, &[1]), true);
    let first = one_event(&mut j.wait, rt.alloc(), LONG);
    same(&rt, first, Ok(Some(NOT_READ)));
    for _ in 0..5 {
        let ended = arm_later(&rt, rt.alloc(), &mut j.wait, &mut j.conn);
        same(&rt, ended, (Ok(Some(NOT_READ)), Ok(())));
    }
    drop(j);
}

/// Asserts that a twin of this notifier ends a wait, and counts for itself.
fn twin_ends(rt: &impl Abort, alloc: Global, wait: &mut MioWait, notify: &MioNotify) {
    let mut twin = notify.twin().expect(rt, MEMORY);
    same(rt, twin.notify(), Ok(()));
    same(rt, one_event(wait, alloc, None), Ok(None));
    same(rt, (twin.calls(), notify.calls()), (1, 0));
    same(rt, (twin.faults(), notify.faults()), (0, 0));
    drop(twin);
}

#[test]
fn a_twin_ends_the_same_waits_and_counts_for_itself(rt: HostRuntime) {
    let mut j = connected(&rt, rt.alloc());
    twin_ends(&rt, rt.alloc(), &mut j.wait, &j.notify);
    drop(j);
}

/// The events of two connections.
const ONE: Event = Event {
    key: Key(1),
    on: Interest::WRITE,
};

const OTHER: Event = Event {
    key: Key(2),
    on: Interest::WRITE,
};

/// Asserts that the first event of two connections comes before they are taken out, and the second after that.
fn gives_both<R: Net + Copy>(
    rt: &impl Abort,
    alloc: Global,
    j: &mut Joined<R>,
    second: &mut MioConn,
) {
    let wait = &mut j.wait;
    same(rt, watch(&mut j.conn, 1, Interest::WRITE), Ok(()));
    same(rt, watch(second, 2, Interest::WRITE), Ok(()));
    let first = one_event(wait, alloc, LONG);
    same(rt, first, Ok(Some(ONE)));
    same(rt, j.conn.remove(Key(1)), Ok(()));
    same(rt, second.remove(Key(2)), Ok(()));
    let next = one_event(wait, alloc, Some(0));
    same(rt, next, Ok(Some(OTHER)));
    same(rt, one_event(wait, alloc, Some(0)), Ok(None));
    same(rt, wait.waits(), 3);
}

#[test]
fn what_there_is_no_room_for_is_given_by_the_next_wait(rt: HostRuntime) {
    let mut j = connected(&rt, rt.alloc());
    let client = client_of(&rt, j.used);
    let mut conn = accepted(&rt, &mut j.port);
    gives_both(&rt, rt.alloc(), &mut j, &mut conn);
    drop(conn);
    drop(client);
    drop(j);
}
