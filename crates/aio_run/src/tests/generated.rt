//! What no clause says of traces that a number describes: that their commands succeed where memory is
//! left, and which steps and counts the definitions give. The counts of long runs are those of a plain
//! model that was written apart from this program.

use crate::tests::asserts::same;
use crate::tests::runs::{FIRST_FAULT, Failing, NOTHING_FAILS, ends, run_over};
use crate::{Status, Why};
use std::process::Abort;
use std::sync::Wait;
use std::thread::Threads;

/// Words, and what is written for them. Leading zeros are read.
const WRITTEN: &[(&[&str], &[u8])] = &[
    (&["gen", "0", "0"], b"trace 1\n"),
    (&["gen", "2", "0"], b"trace 1\nadd\nevent 6 w\n"),
    (
        &["gen", "002", "00000000000000000000000000000000"],
        b"trace 1\nadd\nevent 6 w\n",
    ),
    (
        &["gen", "6", "1"],
        b"trace 1\nevent 5 w\npoll 6 w 36\nadd\npoll 2 w 27\nevent 2 rw\nnew 4 w\n",
    ),
    (
        &["sum", "0", "281474976710655"],
        b"steps 0 ready 0 pending 0 wakes 0 rounds 0 refused 0\n",
    ),
    (
        &["sum", "2", "0"],
        b"steps 2 ready 0 pending 0 wakes 0 rounds 0 refused 0\n",
    ),
    (
        &["sum", "01000", "1"],
        b"steps 1000 ready 81 pending 207 wakes 181 rounds 136 refused 149\n",
    ),
    (
        &["sum", "1000", "0"],
        b"steps 1000 ready 68 pending 197 wakes 174 rounds 124 refused 177\n",
    ),
    (
        &["sum", "100000", "1"],
        b"steps 100000 ready 10146 pending 21056 wakes 19809 rounds 12479 refused 14635\n",
    ),
];

/// Runs these words over an input whose first read would fail.
fn write_row<R: Wait + Threads + Sync + Send + Copy + AllocGlobal + Abort>(
    rt: &R,
    words: &[&str],
    out: &[u8],
) {
    let failing = Failing {
        reads: &[1],
        ..NOTHING_FAILS
    };
    let wanted = (out, b"".as_slice(), 0);
    let why = ends(rt, words, b"trace 1\n", 1, failing, wanted);
    same(rt, why, Why::Done);
}

#[test]
fn a_trace_is_made_and_summed_without_the_input(rt: HostRuntime) {
    for (words, out) in WRITTEN {
        write_row(&rt, words, out);
    }
}

/// The words that make the trace.
const MADE: &[&str] = &["gen", "20000", "1"];

/// Makes the trace where this write fails, and asserts that its front was written.
fn make_front<R: Wait + Threads + Sync + Send + Copy + AllocGlobal + Abort>(
    rt: &R,
    trace: &[u8],
    writes: &'static [u64],
) {
    let failing = Failing {
        writes,
        ..NOTHING_FAILS
    };
    let ran = run_over(rt, MADE, b"", 1, failing);
    let out = ran.out.bytes();
    let is_front = trace.starts_with(out) && trace != out;
    let found = (is_front, ran.status, ran.err.bytes());
    same(rt, found, (true, NOT_WRITTEN, b"write fault\n".as_slice()));
}

/// The status of a run whose first fault was that of a write.
const NOT_WRITTEN: Status = Status {
    exit: 4,
    why: Why::WriteFault(FIRST_FAULT),
};

/// Asserts that the trace is replayed to its end.
fn replay_made<R: Wait + Threads + Sync + Send + Copy + AllocGlobal + Abort>(rt: &R, trace: &[u8]) {
    let replayed = run_over(rt, &["replay"], trace, 4096, NOTHING_FAILS);
    same(rt, replayed.status.exit, 0);
}

/// The write that fails.
const FAILING_WRITES: &[&[u64]] = &[&[1], &[2], &[3]];

#[test]
fn a_made_trace_is_replayed_or_left_at_its_front(rt: HostRuntime) {
    let made = run_over(&rt, MADE, b"", 1, NOTHING_FAILS);
    let trace = made.out.bytes();
    replay_made(&rt, trace);
    for writes in FAILING_WRITES {
        make_front(&rt, trace, writes);
    }
}
