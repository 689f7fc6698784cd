//! More threads than two, up to as many as a reactor has parkers at most, each blocked on a task.

use crate::acts::Act::{HandOver, Rest, Sleep, SleepInTurn, WakeNext};
use crate::acts::Came::{Done, Ended};
use crate::acts::{Act, Came};
use crate::meetings::plays;

const BEGINS_THE_RING: [(Act, Came); 3] = [
    (WakeNext(1), Done),
    (Rest(1 << 1), Ended(1 << 1)),
    (HandOver, Done),
];

const HANDS_ON: [(Act, Came); 3] = [
    (Rest(1 << 1), Ended(1 << 1)),
    (WakeNext(1), Done),
    (HandOver, Done),
];

#[test]
fn a_wake_goes_round_sixteen_blocked_threads(rt: HostRuntime) {
    plays(&rt, rt.alloc(), 16, &BEGINS_THE_RING, &HANDS_ON);
}

const SLEEPS: [(Act, Came); 2] = [(Sleep(200), Ended(200)), (HandOver, Done)];

#[test]
fn the_timers_of_sixteen_blocked_threads_fire(rt: HostRuntime) {
    plays(&rt, rt.alloc(), 16, &SLEEPS, &SLEEPS);
}

const SLEEPS_IN_TURN: [(Act, Came); 2] = [(SleepInTurn, Done), (HandOver, Done)];

#[test]
fn threads_whose_timers_come_one_after_the_other_hand_over(rt: HostRuntime) {
    for _ in 0..50 {
        plays(&rt, rt.alloc(), 4, &SLEEPS_IN_TURN, &SLEEPS_IN_TURN);
    }
}
