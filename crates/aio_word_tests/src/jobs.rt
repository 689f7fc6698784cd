//! What no clause says of two jobs on eight cells: that they succeed where memory is left, wherever they run.
//! The numbers of steps are those of a plain model that was written apart from this program; they are the
//! same in every schedule.

ghost use Rattle.std.specs.Prelude.{◌<◌, ◌^◌};

use crate::asserts::{MEMORY, same, same_in};
use aio_base::{Placement, Spawner};
use aio_record::{StressCell, stress};
use std::cell::Cell;
use std::process::Abort;
use std::sync::Wait;
use std::thread::Threads;

/// Runs jobs where a test chooses, and counts how often it is asked where.
#[derive(Drop)]
struct CountingSpawner {
    placement: Placement,
    asked: Cell<u32>,
}

impl Spawner for CountingSpawner {
    fn placement(&self) -> Placement {
        self.asked.set(self.asked.get().saturating_add(1));
        self.placement
    }
}

/// How many steps of a cell a job made.
fn made_by(cell: &StressCell, job: u32) -> usize {
    let mut count = 0usize;
    for step in 0..cell.cell().steps() {
        if cell.job(step) == job {
            count = count.saturating_add(1);
        }
    }
    count
}

/// Calls and a seed, and how many calls of the first and of the second job are for each cell.
#[derive(Clone, Copy)]
struct Row {
    calls: u32,
    seed: u64,
    firsts: [usize; 8],
    seconds: [usize; 8],
}

const ROWS: [Row; 3] = [
    Row {
        calls: 1000,
        seed: 1,
        firsts: [108, 131, 121, 135, 120, 121, 129, 135],
        seconds: [147, 135, 112, 117, 118, 136, 111, 124],
    },
    // The second job draws what seed 0 gives.
    Row {
        calls: 100,
        seed: 281_474_976_710_655,
        firsts: [15, 8, 17, 12, 9, 12, 11, 16],
        seconds: [19, 14, 17, 9, 12, 13, 7, 9],
    },
    Row {
        calls: 0,
        seed: 0,
        firsts: [0; 8],
        seconds: [0; 8],
    },
];

/// Asserts that a job made so many steps of each cell.
fn assert_made(rt: &impl Abort, cells: &[StressCell], job: u32, wanted: &[usize; 8]) {
    same(rt, cells.len(), wanted.len());
    for (cell, count) in cells.iter().zip(wanted.iter()) {
        same_in(rt, job, made_by(cell, job), *count);
    }
}

/// Runs two jobs there, by one call of the spawner, and asserts what came of them.
fn assert_row<R: Wait + Threads + Sync + Send + Copy + AllocGlobal + Abort>(
    rt: &R,
    row: Row,
    placement: Placement,
)
    requires { row.seed < 2 ^ 48 }
{
    let mut spawner = CountingSpawner {
        placement,
        asked: Cell::new(0),
    };
    let cells = stress(rt, rt.alloc(), &mut spawner, row.calls, row.seed).expect(rt, MEMORY);
    assert_made(rt, &cells, 0, &row.firsts);
    assert_made(rt, &cells, 1, &row.seconds);
    same(rt, spawner.asked.get(), 1);
}

#[test]
fn two_jobs_make_the_calls_of_their_seeds(rt: HostRuntime) {
    for row in ROWS {
        assert_row(&rt, row, Placement::Caller);
        assert_row(&rt, row, Placement::Threads);
    }
}
