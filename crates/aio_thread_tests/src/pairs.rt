//! What no clause says of two threads that block on timers: that one is served by the rounds of the other,
//! and that each goes on by itself once it is woken.

use crate::acts::Act::{Await, Follow, HandOver, Hold, Rest, Sleep, Wake, WakeItself};
use crate::acts::Came::{Done, Ended, Mask};
use crate::acts::{Act, Came};
use crate::clocks::still_clocks;
use crate::teams::{play_blocking, play_instant};
use std::alloc::Global;
use std::process::Abort;
use std::sync::Wait;
use std::thread::Threads;

/// Two threads carry out these tables at the same time: over devices that answer at once, and then over such
/// as block until they are told. Their clocks stand at 0 for so many looks, and then at 5.
fn plays<R: Threads + Wait + Sync + Abort>(
    rt: &R,
    alloc: Global,
    looks: (usize, usize),
    rows: &[(Act, Came)],
    rows_of_other: &[(Act, Came)],
) {
    let tables = (rows, rows_of_other);
    let (times, times_of_other) = ((looks.0, 5), (looks.1, 5));
    let clocks = still_clocks(rt, alloc, times, times_of_other);
    play_instant(rt, alloc, 2, clocks, tables);
    let clocks = still_clocks(rt, alloc, times, times_of_other);
    play_blocking(rt, alloc, 2, clocks, tables, 0);
}

// It has the reactor lock until the other wakes it.
const REACTS_FOR_BOTH: [(Act, Came); 1] = [(Rest(1 << 7), Ended(1 << 7))];

const SLEEPS_AND_WAKES: [(Act, Came); 3] = [(Follow, Done), (Sleep(5), Ended(5)), (Wake(7), Done)];

#[test]
fn a_parked_thread_is_served_by_the_rounds_of_another(rt: HostRuntime) {
    plays(&rt, rt.alloc(), (0, 1), &REACTS_FOR_BOTH, &SLEEPS_AND_WAKES);
}

// It hands over only where the other has taken the mask that it woke: else both wakes would be in one.
const HOLDS_THE_CELL: [(Act, Came); 3] = [
    (Hold(64 + 9, 1000), Done),
    (Await, Mask(1 << 7)),
    (HandOver, Done),
];

const SLEEPS_ONCE_IT_IS_HELD: [(Act, Came); 3] = [
    (Await, Mask(1 << 9)),
    (Wake(7), Done),
    (Sleep(5), Ended(5)),
];

#[test]
fn a_parked_thread_reacts_by_itself_once_it_is_woken(rt: HostRuntime) {
    let (rows, rows_of_other) = (&HOLDS_THE_CELL, &SLEEPS_ONCE_IT_IS_HELD);
    plays(&rt, rt.alloc(), (0, 2), rows, rows_of_other);
}

// By its clock the timer of the other is never due: it ends before.
const ENDS_FIRST: [(Act, Came); 2] = [(WakeItself(3), Ended(3)), (HandOver, Done)];

const SLEEPS: [(Act, Came); 1] = [(Sleep(5), Ended(5))];

#[test]
fn a_thread_that_ends_wakes_the_other_which_goes_on(rt: HostRuntime) {
    plays(&rt, rt.alloc(), (1000, 3), &ENDS_FIRST, &SLEEPS);
}
