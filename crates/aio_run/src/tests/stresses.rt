//! What no clause says of `stress`: that it comes to its line where memory is left, also with as many calls
//! as may be asked for, and that its jobs are run by the lent spawner.

use crate::Why;
use crate::tests::asserts::{same, same_in};
use crate::tests::kits::{Course, NOTHING_COMES};
use crate::tests::runs::{
    FIRST_FAULT, Failing, NOTHING_FAILS, Wrote, assert_ran, run_with, source_of,
};
use aio_base::Placement;
use aio_conns::MemPort;
use std::process::Abort;
use std::sync::Wait;
use std::thread::Threads;

/// Numbers of calls and seeds, where the jobs run, and what is written. Leading zeros are read.
const ROWS: &[(&str, &str, Placement, &[u8])] = &[
    (
        "1000",
        "1",
        Placement::Threads,
        b"calls 2000 replayed 2000\n",
    ),
    (
        "1000",
        "1",
        Placement::Caller,
        b"calls 2000 replayed 2000\n",
    ),
    ("0", "0", Placement::Threads, b"calls 0 replayed 0\n"),
    (
        "007",
        "281474976710655",
        Placement::Threads,
        b"calls 14 replayed 14\n",
    ),
    (
        "100000",
        "1",
        Placement::Threads,
        b"calls 200000 replayed 200000\n",
    ),
];

/// Runs `stress` over an input whose first read would fail, with its jobs at this place and with this output.
/// Asserts what it wrote and told, its exit status, and that of the devices the spawner alone was used, once. Why
/// it ended.
fn stress_by<R: Wait + Threads + Sync + Send + Copy + AllocGlobal + Abort>(
    rt: &R,
    (calls, seed): (&str, &str),
    placement: Placement,
    failing: Failing,
    wanted: Wrote<'_>,
) -> Why {
    let course = Course {
        placement,
        ..NOTHING_COMES
    };
    let mut source = source_of(rt, rt.alloc(), b"", 1, &[1]);
    let port = MemPort::new(Vec::new(rt.alloc()));
    let words = ["stress", calls, seed];
    let ran = run_with(rt, &words, &mut source, failing, port, course);
    assert_ran(rt, &ran, wanted, words);
    same_in(rt, words, ran.counts, [0, 0, 0, 0, 1]);
    ran.status.why
}

#[test]
fn two_jobs_come_to_their_line(rt: HostRuntime) {
    for (calls, seed, placement, line) in ROWS {
        let wanted = (*line, b"".as_slice(), 0);
        let _why = stress_by(&rt, (calls, seed), *placement, NOTHING_FAILS, wanted);
    }
}

#[test]
fn a_line_that_cannot_be_written_is_a_write_fault(rt: HostRuntime) {
    let failing = Failing {
        writes: &[1],
        ..NOTHING_FAILS
    };
    let wanted = (b"".as_slice(), b"write fault\n".as_slice(), 4);
    let why = stress_by(&rt, ("5", "1"), Placement::Caller, failing, wanted);
    same(&rt, why, Why::WriteFault(FIRST_FAULT));
}
