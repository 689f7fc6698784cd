//! What no clause says of a recorded cell: that its calls succeed where memory is left, and that the
//! definition of a history means what was worked out by hand.

use crate::asserts::{MEMORY, same, same_in};
use Told::{GoesOn, Takes, Waits};
use aio_base::{Dir, Interest, Poll, Waker};
use aio_history::CellStep;
use aio_record::RecordedCell;
use std::process::Abort;

/// An event that names one direction.
const READING: Interest = Interest::READ;

/// The greatest waker, and the greatest round or ticker.
const LAST_WAKER: u32 = u32::MAX;

const LAST: u64 = u64::MAX;

/// A call with its answer: a poll that waits or goes on, by its direction, its waker and its ticker; and an
/// event, by its directions, its round and how many wakers it takes.
#[derive(Clone, Copy)]
enum Told {
    Waits(Dir, u32, u64),
    GoesOn(Dir, u32, u64),
    Takes(Interest, u64, u32),
}

/// Calls on a cell with what each has to answer.
const HISTORIES: &[&[Told]] = &[
    // Round 1 is above neither the ticker of the second mark nor the round before it.
    &[
        Waits(Dir::Read, 1, 0),
        Takes(READING, 1, 1),
        GoesOn(Dir::Read, 1, 1),
        Waits(Dir::Read, 2, 1),
        Takes(READING, 1, 1),
        Waits(Dir::Read, 2, 1),
    ],
    // An event of no direction takes nobody, and one of reading and writing takes both who wait for these.
    &[
        Waits(Dir::Read, 1, 0),
        Waits(Dir::Write, 2, 0),
        Takes(Interest::NONE, 1, 0),
        Takes(Interest::READ_WRITE, 1, 2),
        Takes(Interest::READ_WRITE, 2, 0),
        GoesOn(Dir::Write, 2, 5),
        GoesOn(Dir::Read, 3, 5),
        Waits(Dir::Read, 3, 5),
    ],
    // The same waker is stored once, with its first ticker; another one is stored anew.
    &[
        Waits(Dir::Read, 1, 0),
        Waits(Dir::Read, 1, 9),
        Takes(READING, 5, 1),
        GoesOn(Dir::Read, 1, 9),
        Waits(Dir::Read, 1, 0),
        Waits(Dir::Read, 2, 9),
        Takes(READING, 9, 1),
        Waits(Dir::Read, 2, 9),
    ],
    // A smaller round that comes later tells nothing new, and round 0 never does.
    &[
        Takes(READING, 7, 0),
        Waits(Dir::Read, 1, 0),
        Takes(READING, 6, 1),
        Waits(Dir::Read, 1, 0),
        Takes(READING, 0, 1),
        Waits(Dir::Read, 1, 0),
        Takes(READING, 8, 1),
        GoesOn(Dir::Read, 1, 0),
    ],
    // The thousandth round is as any other.
    &[
        Waits(Dir::Read, 1, 999),
        Takes(READING, 1_000, 1),
        GoesOn(Dir::Read, 1, 1_000),
        Waits(Dir::Read, 1, 1_000),
        Takes(READING, 1_000, 1),
        Waits(Dir::Read, 1, 1_000),
        Takes(READING, 1_001, 1),
        GoesOn(Dir::Read, 2, 1_001),
    ],
    // One event takes the waiters of all directions, and one of reading tells nothing of urgent readiness.
    &[
        Waits(Dir::Priority, 3, 0),
        Waits(Dir::Read, 1, 0),
        Waits(Dir::Write, 2, 0),
        Takes(Interest::ALL, 1, 3),
        GoesOn(Dir::Priority, 3, 1),
        Waits(Dir::Priority, 3, 1),
        Takes(READING, 2, 0),
        Waits(Dir::Priority, 3, 2),
        Takes(Interest::PRIORITY, 2, 1),
        GoesOn(Dir::Priority, 3, 2),
    ],
    // The ends of the ranges.
    &[
        Waits(Dir::Write, LAST_WAKER, LAST),
        Takes(Interest::READ_WRITE, LAST, 1),
        Waits(Dir::Write, LAST_WAKER, LAST - 1),
        Waits(Dir::Read, 0, LAST - 1),
        Takes(Interest::READ_WRITE, LAST, 2),
        Waits(Dir::Read, 0, 0),
    ],
];

/// The step that is told.
fn step_of(told: Told) -> CellStep {
    match told {
        Waits(dir, waker, ticker) => poll_step(dir, Waker(waker), ticker, Poll::Pending),
        GoesOn(dir, waker, ticker) => poll_step(dir, Waker(waker), ticker, Poll::Ready(())),
        Takes(on, round, taken) => CellStep::Handle { on, round, taken },
    }
}

/// The step of a poll.
fn poll_step(dir: Dir, waker: Waker, ticker: u64, answer: Poll<()>) -> CellStep {
    CellStep::Poll {
        dir,
        waker,
        ticker,
        answer,
    }
}

/// Makes the call of a step, and answers the step that it came to.
fn call(rt: &impl Abort, cell: &mut RecordedCell, wanted: CellStep) -> CellStep {
    match wanted {
        CellStep::Poll {
            dir,
            waker,
            ticker,
            ..
        } => {
            let answer = cell.poll(dir, waker, ticker).expect(rt, MEMORY);
            poll_step(dir, waker, ticker, answer)
        }
        CellStep::Handle { on, round, .. } => {
            let taken = cell.handle(on, round).expect(rt, MEMORY);
            CellStep::Handle { on, round, taken }
        }
    }
}

/// Makes the calls of steps on a new cell, and asserts that they answer so.
fn assert_answers<R: Abort + AllocGlobal>(rt: &R, row: usize, steps: &[Told]) {
    let mut cell = RecordedCell::new(rt.alloc());
    for told in steps {
        let step = step_of(*told);
        same_in(rt, row, call(rt, &mut cell, step), step);
    }
    same(rt, cell.steps(), steps.len());
    drop(cell);
}

#[test]
fn a_cell_answers_as_its_history_says(rt: HostRuntime) {
    for (row, steps) in HISTORIES.iter().enumerate() {
        assert_answers(&rt, row, steps);
    }
}
