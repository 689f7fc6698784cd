//! What no clause says of the wakes by which a thread hands over: what is in the masks of two parkers then.

use crate::acts::Act::{HandOver, Take, WakeAll};
use crate::acts::Came::{Done, Mask};
use crate::acts::{Act, Came};
use crate::asserts::{MEMORY, moment, same};
use crate::players::Player;
use crate::teams::over_instant;
use aio_base::Clock;
use aio_devices::{MemClock, MemNotify, MemWait, clock_at};
use std::alloc::Global;
use std::process::Abort;
use std::sync::Wait;

type Quiet<'a, R> = Player<'a, R, MemNotify, MemWait, MemClock>;

/// The two threads of a new reactor, the first one last.
fn two<R: Wait + Copy + Abort>(rt: R, alloc: Global) -> Vec<Quiet<'static, R>> {
    let clock = clock_at(alloc, moment(&rt, 0)).expect(&rt, MEMORY);
    let clock_of_first = clock.twin().expect(&rt, MEMORY);
    let team = over_instant(rt, alloc, 2, clock_of_first);
    team.players(rt, alloc, &clock, (&[], &[]), 0)
}

/// Has the thread at this place carry out a table. Whether there is one.
fn play_at<R: Wait + Copy + Abort>(
    threads: &mut [Quiet<'_, R>],
    place: usize,
    rows: &[(Act, Came)],
) -> bool {
    match threads.get_mut(place) {
        Some(thread) => {
            thread.plays(rows);
            true
        }
        None => false,
    }
}

/// The place of a thread, and what it does.
type Turn = (usize, &'static [(Act, Came)]);

/// The two threads of a new reactor carry out these tables, one after the other.
fn plays_in_turn<R: Wait + Copy + Abort>(rt: R, alloc: Global, turns: &[Turn]) {
    let mut threads = two(rt, alloc);
    for (place, rows) in turns {
        same(&rt, play_at(&mut threads, *place, rows), true);
    }
}

const HANDS_OVER: &[(Act, Came)] = &[(HandOver, Done), (Take, Mask(0))];

const HANDS_BACK: &[(Act, Came)] = &[(Take, Mask(1)), (HandOver, Done), (Take, Mask(0))];

const IS_WOKEN: &[(Act, Came)] = &[(Take, Mask(1))];

#[test]
fn a_thread_that_hands_over_wakes_the_other_parker_and_not_its_own(rt: HostRuntime) {
    let turns: [Turn; 3] = [(1, HANDS_OVER), (0, HANDS_BACK), (1, IS_WOKEN)];
    plays_in_turn(&rt, rt.alloc(), &turns);
}

const WAKES_ALL: &[(Act, Came)] = &[(WakeAll, Done), (Take, Mask(u64::MAX))];

const IS_WHOLLY_WOKEN: &[(Act, Came)] = &[(Take, Mask(u64::MAX))];

#[test]
fn every_slot_of_both_parkers_is_woken(rt: HostRuntime) {
    let turns: [Turn; 3] = [(1, WAKES_ALL), (0, IS_WHOLLY_WOKEN), (1, &[])];
    plays_in_turn(&rt, rt.alloc(), &turns);
}
