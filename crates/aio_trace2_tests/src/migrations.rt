//! Traces of the first version that are written in the second, called through their bounds, where memory
//! is left.

use crate::asserts::{MEMORY, same};
use aio_base::{CountFault, Reason};
use aio_bytes::{MemSink, MemSource, Sink, Source};
use aio_migrate::migrate;
use aio_replay::ReplayEnd;
use std::alloc::Global;
use std::process::Abort;

/// How a migration ended.
fn ended<S: Source, K: Sink>(alloc: Global, input: &mut S, out: &mut K) -> ReplayEnd {
    migrate(alloc, input, out)
}

/// Asserts how the migration of a trace ends, and what it writes.
fn migrates(rt: &impl Abort, alloc: Global, trace: &[u8], end: ReplayEnd, text: &[u8]) {
    let bytes = trace.to_vec(alloc).expect(rt, MEMORY);
    let mut input = MemSource::new(bytes, 7, Vec::new(alloc));
    let mut out = MemSink::new(alloc, Vec::new(alloc));
    same(rt, ended(alloc, &mut input, &mut out), end);
    same(rt, out.bytes(), text);
}

/// A refusal of this line.
fn refused(line: u64, reason: Reason) -> ReplayEnd {
    ReplayEnd::Refused { line, reason }
}

#[test]
fn equal_steps_are_repeated(rt: HostRuntime) {
    let trace = b"trace 1\nadd\nevent 0 r\n event  00 r\nreact\n";
    let text = b"trace 2\nadd\nrepeat 2\nevent 0 r\nreact\n";
    migrates(&rt, rt.alloc(), trace, ReplayEnd::Done, text);
}

#[test]
fn a_trace_without_steps_is_its_header(rt: HostRuntime) {
    migrates(&rt, rt.alloc(), b" trace\t1", ReplayEnd::Done, b"trace 2\n");
}

#[test]
fn another_header_writes_nothing(rt: HostRuntime) {
    let alloc = rt.alloc();
    migrates(&rt, alloc, b"", refused(1, Reason::Header), b"");
    migrates(
        &rt,
        alloc,
        b"trace 2\nadd\n",
        refused(1, Reason::Header),
        b"",
    );
}

#[test]
fn the_steps_before_a_refused_line_are_written(rt: HostRuntime) {
    let end = refused(4, Reason::Command);
    let text = b"trace 2\nrepeat 2\nadd\n";
    migrates(&rt, rt.alloc(), b"trace 1\nadd\nadd\nx\nadd\n", end, text);
}

/// A trace of so many equal steps.
fn many(rt: &impl Abort, alloc: Global, steps: u32) -> Vec<u8> {
    let mut trace = b"trace 1\n".to_vec(alloc).expect(rt, MEMORY);
    for _ in 0..steps {
        trace.extend_from_slice(b"react\n").expect(rt, MEMORY);
    }
    trace
}

#[test]
fn more_than_one_line_may_repeat_is_several_parts(rt: HostRuntime) {
    let alloc = rt.alloc();
    let one_more = many(&rt, alloc, 100_001);
    let parts = b"trace 2\nrepeat 100000\nreact\nreact\n";
    migrates(&rt, alloc, one_more.as_slice(), ReplayEnd::Done, parts);
    let twice = many(&rt, alloc, 200_000);
    let text = b"trace 2\nrepeat 100000\nreact\nrepeat 100000\nreact\n";
    migrates(&rt, alloc, twice.as_slice(), ReplayEnd::Done, text);
}

#[test]
fn a_failed_write_ends_with_its_counts(rt: HostRuntime) {
    let alloc = rt.alloc();
    let bytes = b"trace 1\nadd\nadd\n".to_vec(alloc).expect(&rt, MEMORY);
    let mut input = MemSource::new(bytes, 64, Vec::new(alloc));
    let mut out = MemSink::new(alloc, vec![in alloc; 1].expect(&rt, MEMORY));
    let fault = CountFault {
        before: 0,
        after: 1,
    };
    same(
        &rt,
        ended(alloc, &mut input, &mut out),
        ReplayEnd::WriteFault(fault),
    );
    same(&rt, out.bytes(), b"".as_slice());
}
