//! Jobs that run on the caller and on threads, and a gate that holds nothing.

ghost use Rattle.std.specs.Prelude.{◌≡◌};

use crate::asserts::{MEMORY, same};
use aio_base::{Gate, Job, Spawner};
use aio_jobs::{CallerSpawner, OpenGate, ThreadSpawner};
use std::alloc::Global;
use std::process::Abort;
use std::sync::Wait;
use std::sync::atomic::{AtomicU32, Ordering};
use std::thread::{Threads, yield_now};

/// A job that ends with its number, once others had so many turns.
#[derive(Drop)]
struct Numbered {
    number: u64,
    turns: usize,
}

impl Job for Numbered {
    ghost use Rattle.std.specs.Prelude.{◌≡◌};

    type End = u64;

    ghost may_end = { λ job end. end ≡ job.number };

    fn run<R: Wait + Threads + Sync + Send + Copy>(self, _rt: &R) -> u64 {
        for _ in 0..self.turns {
            yield_now();
        }
        self.number
    }
}

/// Jobs of these numbers. The earlier ones take longer.
fn jobs(rt: &impl Abort, alloc: Global, numbers: &[u64]) -> Vec<Numbered> {
    let mut jobs = Vec::new(alloc);
    let mut turns: usize = 1000;
    for number in numbers {
        turns = turns.saturating_sub(50);
        let number = *number;
        jobs.push(Numbered { number, turns }).expect(rt, MEMORY);
    }
    jobs
}

/// Asserts that jobs of these numbers end with them, in their order.
fn end_in_order<S: Spawner, R: Wait + Threads + Sync + Send + Copy + Abort>(
    spawner: &mut S,
    alloc: Global,
    rt: &R,
    numbers: &[u64],
) {
    let jobs = jobs(rt, alloc, numbers);
    let ends = spawner.run_all(alloc, rt, jobs).expect(rt, MEMORY);
    same(rt, ends.as_slice(), numbers);
}

/// The numbers of no job, of three, and of sixteen.
const NUMBERS: &[&[u64]] = &[
    &[],
    &[3, 1, 2],
    &[9, 8, 7, 6, 5, 4, 3, 2, 1, 0, 10, 11, 12, 13, 14, 15],
];

#[test]
fn the_ends_of_jobs_stand_in_their_order(rt: HostRuntime) {
    for numbers in NUMBERS {
        end_in_order(&mut CallerSpawner, rt.alloc(), &&rt, numbers);
        end_in_order(&mut ThreadSpawner, rt.alloc(), &&rt, numbers);
    }
}

/// How often a job looks at the flag of another.
const MOST_LOOKS: u32 = 10_000_000;

/// A job that sets its flag, and ends with whether it saw that of another.
#[derive(Drop)]
struct Meeting<'a> {
    own: &'a AtomicU32,
    other: &'a AtomicU32,
}

impl Job for Meeting<'_> {
    ghost use Rattle.std.specs.Prelude.{⊤};

    type End = bool;

    ghost may_end = { λ job end. ⊤ };

    fn run<R: Wait + Threads + Sync + Send + Copy>(self, _rt: &R) -> bool {
        self.own.store(1, Ordering::SeqCst);
        for _ in 0..MOST_LOOKS {
            if self.other.load(Ordering::SeqCst) == 1 {
                return true;
            }
            yield_now();
        }
        false
    }
}

/// What two jobs come to that wait for each other.
fn meet<S: Spawner, R: Wait + Threads + Sync + Send + Copy + Abort>(
    spawner: &mut S,
    alloc: Global,
    rt: &R,
) -> Vec<bool> {
    let (one, two) = (&AtomicU32::new(0), &AtomicU32::new(0));
    let first = Meeting {
        own: one,
        other: two,
    };
    let second = Meeting {
        own: two,
        other: one,
    };
    let jobs = vec![in alloc; first, second].expect(rt, MEMORY);
    spawner.run_all(alloc, rt, jobs).expect(rt, MEMORY)
}

#[test]
fn two_jobs_on_threads_run_side_by_side(rt: HostRuntime) {
    let met = meet(&mut ThreadSpawner, rt.alloc(), &&rt);
    same(&rt, met.as_slice(), [true, true].as_slice());
}

#[test]
fn an_open_gate_holds_nothing(rt: HostRuntime) {
    let goes_on = OpenGate.hold(&&rt, 1);
    OpenGate.passed(1);
    same(&rt, goes_on, true);
}
