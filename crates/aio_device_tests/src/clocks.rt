//! What no clause says of the machine's clock: that it goes on, and that its twin counts from the same
//! start.

use crate::asserts::same;
use aio_base::{Clock, Moment};
use aio_mio::RealClock;
use std::thread::sleep;
use std::time::{self, Duration};

// The nanoseconds that pass between two looks with a sleep of two milliseconds in between.
fn slept<R: time::Clock + Copy>(rt: &R, clock: &mut RealClock<R>) -> u64 {
    let before = clock.now().get();
    sleep(rt, Duration::from_millis(2));
    clock.now().get().saturating_sub(before)
}

#[test]
fn a_clock_counts_nanoseconds_from_its_making(rt: HostRuntime) {
    let mut clock = RealClock::new(&rt);
    same(&rt, clock.now().get() < 60_000_000_000, true);
    let passed = slept(&rt, &mut clock);
    same(&rt, 2_000_000 <= passed && passed < 60_000_000_000, true);
}

#[test]
fn a_twin_counts_from_the_same_start(rt: HostRuntime) {
    let mut clock = RealClock::new(&rt);
    let passed = slept(&rt, &mut clock);
    let mut twin = clock.twin().expect(&rt, "a twin");
    same(&rt, passed <= twin.now().get(), true);
}

// Whether no look of so many answers an earlier moment than the one before it.
fn never_goes_back<R: time::Clock + Copy>(clock: &mut RealClock<R>, looks: u32) -> bool {
    let mut last = clock.now();
    for _ in 0..looks {
        let now: Moment = clock.now();
        if now < last {
            return false;
        }
        last = now;
    }
    true
}

#[test]
fn a_clock_never_goes_back(rt: HostRuntime) {
    let mut clock = RealClock::new(&rt);
    same(&rt, never_goes_back(&mut clock, 1_000), true);
}
