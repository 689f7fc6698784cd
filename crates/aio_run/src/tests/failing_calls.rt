//! A trace of which a read or a write fails, whichever of them it is: what was written is a front
//! of its answers, and the status names the device.

ghost use Rattle.std.specs.Prelude.{None, false};

use crate::tests::asserts::{same, same_in};
use crate::tests::kits::NOTHING_COMES;
use crate::tests::runs::{FIRST_FAULT, NOTHING_FAILS, Ran, run_from, run_into, sink_of, source_of};
use crate::tests::traces::{ORDINARY, ORDINARY_ANSWERS};
use crate::{Status, Why};
use aio_base::Faults;
use aio_bytes::{MemSink, Sink, SinkRefusal};
use aio_conns::MemPort;
use std::alloc::AllocGlobal;
use std::process::Abort;
use std::sync::Wait;
use std::thread::Threads;

/// A number that no call of these runs has.
const NONE_HAS: u64 = 1000;

/// A status, and what is told to the user with it.
type Ended = (Status, &'static [u8]);

/// All was read and written.
const DONE: Ended = (
    Status {
        exit: 0,
        why: Why::Done,
    },
    b"",
);

/// The first fault of the input.
const NOT_READ: Ended = (
    Status {
        exit: 3,
        why: Why::ReadFault(FIRST_FAULT),
    },
    b"read fault\n",
);

/// The first fault of the output.
const NOT_WRITTEN: Ended = (
    Status {
        exit: 4,
        why: Why::WriteFault(FIRST_FAULT),
    },
    b"write fault\n",
);

/// Asserts the status of a run of the ordinary trace and what it told. Whether it wrote a front of
/// the answers, and how many bytes that has.
fn wrote_front(rt: &impl Abort, number: u64, ran: &Ran, ended: Ended) -> (bool, usize) {
    same_in(rt, number, (ran.status, ran.err.bytes()), ended);
    let out = ran.out.bytes();
    (ORDINARY_ANSWERS.starts_with(out), out.len())
}

/// Replays the ordinary trace, of which a read gives one byte and the one of this number fails, and asserts how
/// that ended. Whether it wrote a front of the answers, and how many bytes that has.
fn fail_read<R: Wait + Threads + Sync + Send + Copy + AllocGlobal + Abort>(
    rt: &R,
    number: u64,
    ended: Ended,
) -> (bool, usize) {
    let mut source = source_of(rt, rt.alloc(), ORDINARY, 1, &[number]);
    let ran = run_from(rt, &["replay"], &mut source, NOTHING_FAILS);
    wrote_front(rt, number, &ran, ended)
}

#[test]
fn whichever_read_fails_a_front_of_the_answers_is_written(rt: HostRuntime) {
    // Those of the 50 bytes, and the one that finds the end.
    for number in 1..52 {
        let (front, _) = fail_read(&rt, number, NOT_READ);
        same_in(&rt, number, front, true);
    }
    same(&rt, fail_read(&rt, NONE_HAS, DONE), (true, 53));
}

/// A sink in memory that takes one byte a write.
#[derive(Drop)]
struct Narrow {
    held: MemSink,
}

impl Faults for Narrow {
    ghost fault_count = { λ s. s.held.fault_count };

    ghost is_sure = { λ _. false };

    ghost all_sure = { false };

    fn faults(&self) -> u64 {
        self.held.faults()
    }

    ghost sure_below_top = { λ s sure. Prim.cc };

    ghost each_sure = { λ s sure. Prim.cc };
}

impl Sink for Narrow {
    ghost contents = { λ _. None };

    ghost write_step = { λ old piece answer new. Unit {0} };

    fn write(&mut self, piece: &[u8]) -> Result<usize, SinkRefusal> {
        self.held.write(&piece[..1])
    }
}

/// Replays the ordinary trace into a sink that takes one byte a write. The status, what was told, and what the
/// devices count.
fn write_narrow<R: Wait + Threads + Sync + Send + Copy + AllocGlobal + Abort>(
    rt: &R,
    out: &mut Narrow,
) -> (Status, MemSink, [u64; 5]) {
    let mut source = source_of(rt, rt.alloc(), ORDINARY, 1, &[]);
    let port = MemPort::new(Vec::new(rt.alloc()));
    run_into(rt, &["replay"], &mut source, out, &[], port, NOTHING_COMES)
}

/// The same where the write of this number fails, asserting how that ended. Whether it wrote a front of the answers,
/// and how many bytes that has.
fn fail_write<R: Wait + Threads + Sync + Send + Copy + AllocGlobal + Abort>(
    rt: &R,
    number: u64,
    ended: Ended,
) -> (bool, usize) {
    let held = sink_of(rt, rt.alloc(), &[number]);
    let mut out = Narrow { held };
    let (status, err, counts) = write_narrow(rt, &mut out);
    let ran = Ran {
        status,
        out: out.held,
        err,
        counts,
    };
    wrote_front(rt, number, &ran, ended)
}

#[test]
fn whichever_write_fails_a_front_of_the_answers_is_written(rt: HostRuntime) {
    // Each fails before it took a byte.
    for number in 1..54_u64 {
        let wrote = fail_write(&rt, number, NOT_WRITTEN);
        same_in(&rt, number, wrote, (true, number as usize - 1));
    }
    same(&rt, fail_write(&rt, NONE_HAS, DONE), (true, 53));
}
