//! What no clause says of a thread that sleeps in a wait: that what another thread does ends the sleep, and
//! that one thread's rounds serve the other. The waits last until they are told; where a wake is lost, they
//! fail after a count of looks.

use crate::acts::Act::{Await, Drive, Follow, Give, HandOver, Poll, Rest, SetTimer, Wake, WakeAll};
use crate::acts::Came::{Done, Ended, Events, Mask};
use crate::acts::{Act, Came};
use crate::clocks::still_clocks;
use crate::teams::play_blocking;
use aio_base::Dir;
use std::alloc::Global;
use std::process::Abort;
use std::sync::Wait;
use std::thread::Threads;

/// How often both tables are carried out, each time with the second thread a turn later.
const TIMES: u32 = 20;

/// Two threads over devices that block carry out these tables at once, the second one so many turns late.
/// Their clocks stand still at these moments.
fn plays<R: Threads + Wait + Sync + Abort>(
    rt: &R,
    alloc: Global,
    moments: (u64, u64),
    rows: &[(Act, Came)],
    rows_of_other: &[(Act, Came)],
    late: u32,
) {
    let clocks = still_clocks(rt, alloc, (0, moments.0), (0, moments.1));
    play_blocking(rt, alloc, 2, clocks, (rows, rows_of_other), late);
}

/// Two threads carry out these tables at once, again and again. Their clocks stand still at these moments.
fn play_each_time<R: Threads + Wait + Sync + Abort>(
    rt: &R,
    alloc: Global,
    moments: (u64, u64),
    rows: &[(Act, Came)],
    rows_of_other: &[(Act, Came)],
) {
    for late in 0..TIMES {
        plays(rt, alloc, moments, rows, rows_of_other, late);
    }
}

const RESTS_FOR_5: [(Act, Came); 1] = [(Rest(1 << 5), Ended(1 << 5))];

const WAKES_5: [(Act, Came); 2] = [(Follow, Done), (Wake(5), Done)];

#[test]
fn a_wake_of_another_thread_ends_a_sleep(rt: HostRuntime) {
    play_each_time(&rt, rt.alloc(), (5, 5), &RESTS_FOR_5, &WAKES_5);
}

const RESTS_FOR_3: [(Act, Came); 1] = [(Rest(1 << 3), Ended(1 << 3))];

const TIMER_WAKES_3: [(Act, Came); 2] = [(Follow, Done), (SetTimer(5, 3), Done)];

#[test]
fn a_timer_of_another_thread_ends_a_sleep(rt: HostRuntime) {
    play_each_time(&rt, rt.alloc(), (5, 5), &RESTS_FOR_3, &TIMER_WAKES_3);
}

const RESTS_BEFORE_A_LATE_TIMER: [(Act, Came); 2] = [
    (SetTimer(1_000_000_000_000_000, 4), Done),
    (Rest(1 << 3), Ended(1 << 3)),
];

#[test]
fn an_earlier_timer_of_another_thread_shortens_a_sleep(rt: HostRuntime) {
    let rows = &RESTS_BEFORE_A_LATE_TIMER;
    play_each_time(&rt, rt.alloc(), (5, 5), rows, &TIMER_WAKES_3);
}

const RESTS_FOR_0: [(Act, Came); 1] = [(Rest(1), Ended(1))];

const HANDS_OVER: [(Act, Came); 2] = [(Follow, Done), (HandOver, Done)];

const RESTS_FOR_63: [(Act, Came); 1] = [(Rest(1 << 63), Ended(1 << 63))];

const WAKES_ALL: [(Act, Came); 2] = [(Follow, Done), (WakeAll, Done)];

#[test]
fn a_thread_that_hands_over_ends_the_sleep_of_another(rt: HostRuntime) {
    play_each_time(&rt, rt.alloc(), (5, 5), &RESTS_FOR_0, &HANDS_OVER);
    play_each_time(&rt, rt.alloc(), (5, 5), &RESTS_FOR_63, &WAKES_ALL);
}

/// A key, and the direction that is polled there.
const SOURCES: [(u32, Dir); 4] = [
    (0, Dir::Read),
    (0, Dir::Write),
    (5, Dir::Read),
    (70, Dir::Write),
];

#[test]
fn an_event_ends_a_sleep(rt: HostRuntime) {
    for (key, dir) in SOURCES {
        let rests = [(Poll(key, dir, 9), Done), (Rest(1 << 9), Ended(1 << 9))];
        let gives = [(Follow, Done), (Give(key, dir), Done)];
        plays(&rt, rt.alloc(), (5, 5), &rests, &gives, key);
    }
}

const DRIVES: [(Act, Came); 2] = [(Drive(1), Events(0)), (HandOver, Done)];

const RESTS_FOR_A_TIMER: [(Act, Came); 3] = [
    (Follow, Done),
    (SetTimer(5, 66), Done),
    (Rest(1 << 2), Ended(1 << 2)),
];

#[test]
fn a_driver_is_told_of_a_timer_of_another_thread(rt: HostRuntime) {
    play_each_time(&rt, rt.alloc(), (5, 5), &DRIVES, &RESTS_FOR_A_TIMER);
}

// The driver begins once the other has polled.
const DRIVES_AN_EVENT: [(Act, Came); 3] = [
    (Await, Mask(1 << 1)),
    (Drive(1), Events(1)),
    (HandOver, Done),
];

#[test]
fn a_source_of_one_thread_is_served_by_the_rounds_of_another(rt: HostRuntime) {
    for (key, dir) in SOURCES {
        let rests = [
            (Poll(key, dir, 64 + 9), Done),
            (Wake(1), Done),
            (Follow, Done),
            (Give(key, dir), Done),
            (Rest(1 << 9), Ended(1 << 9)),
        ];
        plays(&rt, rt.alloc(), (5, 5), &DRIVES_AN_EVENT, &rests, 0);
    }
}

const DRIVES_TWICE: [(Act, Came); 2] = [(Drive(2), Events(0)), (HandOver, Done)];

// The timer ends the first wait. By the driver's clock it is not due in the second round, which waits for it.
const PARKS_FOR_A_TIMER: [(Act, Came); 3] = [
    (Follow, Done),
    (SetTimer(20_000, 66), Done),
    (Rest(1 << 2), Ended(1 << 2)),
];

#[test]
fn a_thread_that_stops_hands_over_to_one_that_is_parked(rt: HostRuntime) {
    let moments = (5, 20_000);
    play_each_time(&rt, rt.alloc(), moments, &DRIVES_TWICE, &PARKS_FOR_A_TIMER);
}
