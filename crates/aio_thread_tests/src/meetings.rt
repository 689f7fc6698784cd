//! What no clause says of threads that wait for each other: that all of them end, over devices that answer at
//! once and over such as block until they are told.

ghost use Rattle.std.specs.Prelude.{◌≤◌};

use crate::acts::Act::{HandOver, Meet, MeetLater};
use crate::acts::Came::{Done, Ended};
use crate::acts::{Act, Came};
use crate::asserts::moment;
use crate::clocks::shared_clocks;
use crate::teams::{play_blocking, play_instant};
use std::alloc::Global;
use std::process::Abort;
use std::sync::Wait;
use std::thread::Threads;

/// So many threads carry out these tables at the same time: over devices that answer at once, and then over
/// such as block until they are told. They share a clock.
pub(crate) fn plays<R: Threads + Wait + Sync + Abort>(
    rt: &R,
    alloc: Global,
    threads: u32,
    rows: &[(Act, Came)],
    rows_of_others: &[(Act, Came)],
)
    requires { (1 ≤ threads) × (threads ≤ 16) }
{
    let tables = (rows, rows_of_others);
    let start = moment(rt, 0);
    play_instant(rt, alloc, threads, shared_clocks(rt, alloc, start), tables);
    play_blocking(
        rt,
        alloc,
        threads,
        shared_clocks(rt, alloc, start),
        tables,
        0,
    );
}

const MEETS_THE_OTHER: [(Act, Came); 2] = [(Meet(1, 100), Ended(0)), (HandOver, Done)];

const MEETS_THE_FIRST: [(Act, Came); 2] = [(Meet(0, 100), Ended(0)), (HandOver, Done)];

// No timer ends a wait: each one that lasts is ended by the other's wake alone.
#[test]
fn two_threads_meet_a_hundred_times_without_a_timer(rt: HostRuntime) {
    plays(&rt, rt.alloc(), 2, &MEETS_THE_OTHER, &MEETS_THE_FIRST);
}

const WAITS_FOR_THE_OTHER: [(Act, Came); 2] = [(MeetLater(1, 100), Ended(0)), (HandOver, Done)];

const WAITS_FOR_THE_FIRST: [(Act, Came); 2] = [(MeetLater(0, 100), Ended(0)), (HandOver, Done)];

#[test]
fn two_threads_wait_for_each_other_a_hundred_times(rt: HostRuntime) {
    plays(
        &rt,
        rt.alloc(),
        2,
        &WAITS_FOR_THE_OTHER,
        &WAITS_FOR_THE_FIRST,
    );
}
