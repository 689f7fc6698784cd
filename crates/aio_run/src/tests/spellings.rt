//! In which spellings a line is read, and why a line that reads as no step is refused.

use crate::tests::asserts::{MEMORY, same_in};
use crate::tests::runs::{
    NOTHING_FAILS, Wrote, assert_ran, replay_rows, replay_so, run_from, source_of,
};
use aio_bytes::{MemSource, Source};
use std::alloc::Global;
use std::process::Abort;
use std::sync::Wait;
use std::thread::Threads;

/// Traces that are read to their end, and the answers.
const READ: &[(&[u8], &[u8])] = &[
    (b"trace 1\n poll  007 r 1 \n", b"no source\n"),
    (b"trace 1\n\tadd\n", b"key 0\n"),
    (b"trace 1\nadd \t \n", b"key 0\n"),
    (b"trace 1\r\nadd\r\npoll 0 r 1\r\n", b"key 0\npending\n"),
    (b"trace 1\nadd \r", b"key 0\n"),
    (b"  trace  1 \r\nadd", b"key 0\n"),
    (b"\ttrace\t1\nadd\n", b"key 0\n"),
    (b"trace 1\npoll 00 r 000000000001\n", b"no source\n"),
    (
        b"trace 1\nnow 1000000000000000000",
        b"at 1000000000000000000\n",
    ),
    (
        b"trace 1\nnow 0000000000000000000000000000000000000007\n",
        b"at 7\n",
    ),
    (
        b"trace 1\ntimer  every\t010 010\nbegin 05\nbegin none\n",
        b"timer 1\nbegin 1 wait 5\nlocked\n",
    ),
    (
        b"trace 1\nadd\nevent 000 rw\nfault \t wait\n",
        b"key 0\nnoted\nnoted\n",
    ),
];

/// Traces with a line that is refused, the answers to the lines before it, and what is told.
const REFUSED: &[(&[u8], &[u8], &[u8])] = &[
    (
        b"trace 1\nadd\nevent 0 r\npoll 0 x 1\n",
        b"key 0\nnoted\n",
        b"line 4: direction\n",
    ),
    // The first refused line decides, and none behind it is run.
    (
        b"trace 1\nadd\ninterrupts\nadd\n\n",
        b"key 0\n",
        b"line 3: command\n",
    ),
    // A first line that is no header, whatever else is wrong with it.
    (b"", b"", b"line 1: header\n"),
    (b"\ntrace 1\n", b"", b"line 1: header\n"),
    (b"trace 01\n", b"", b"line 1: header\n"),
    (b"trace\nadd\n", b"", b"line 1: header\n"),
    (b"trace 1 2\n", b"", b"line 1: header\n"),
    (b"trace 3\n", b"", b"line 1: header\n"),
    (b"trace 1\r\r\n", b"", b"line 1: header\n"),
    (b"trace\x001\n", b"", b"line 1: header\n"),
    (b"trace 1\xff\n", b"", b"line 1: header\n"),
    // A second header is a line like any other.
    (b"trace 1\ntrace 1\n", b"", b"line 2: command\n"),
    // A byte that a line may not hold, wherever it stands.
    (b"trace 1\nadd\x00\n", b"", b"line 2: byte\n"),
    (b"trace 1\n\x7f\n", b"", b"line 2: byte\n"),
    (b"trace 1\n\x80\n", b"", b"line 2: byte\n"),
    (b"trace 1\nadd\r\r\n", b"", b"line 2: byte\n"),
    (b"trace 1\nadd\r \n", b"", b"line 2: byte\n"),
    (b"trace 1\npoll x \xff\n", b"", b"line 2: byte\n"),
    // No word.
    (b"trace 1\n\nadd\n", b"", b"line 2: empty\n"),
    (b"trace 1\n \t \r\n", b"", b"line 2: empty\n"),
    // The first word that is not what its place asks.
    (b"trace 1\nAdd\n", b"", b"line 2: command\n"),
    (b"trace 1\nadd 1\n", b"", b"line 2: count\n"),
    (b"trace 1\npoll\n", b"", b"line 2: count\n"),
    (b"trace 1\npoll 0 r\n", b"", b"line 2: count\n"),
    (b"trace 1\ntimer\n", b"", b"line 2: count\n"),
    (b"trace 1\nset 5\n", b"", b"line 2: count\n"),
    (b"trace 1\nfault\n", b"", b"line 2: count\n"),
    (b"trace 1\nbegin none 0\n", b"", b"line 2: count\n"),
    (b"trace 1\npoll x\n", b"", b"line 2: number\n"),
    (b"trace 1\npoll 4294967296 r 1\n", b"", b"line 2: number\n"),
    (b"trace 1\nevent 4294967296 r", b"", b"line 2: number\n"),
    (
        b"trace 1\nnow 1000000000000000001\n",
        b"",
        b"line 2: number\n",
    ),
    (b"trace 1\ntimer every 1 0\n", b"", b"line 2: number\n"),
    (b"trace 1\nbegin x\n", b"", b"line 2: number\n"),
    (b"trace 1\nset x at 5\n", b"", b"line 2: number\n"),
    (b"trace 1\npoll 0 rw 1\n", b"", b"line 2: direction\n"),
    (b"trace 1\nevent 0 wr\n", b"", b"line 2: flags\n"),
    (b"trace 1\ntimer foo\n", b"", b"line 2: choice\n"),
    (b"trace 1\nfault x\n", b"", b"line 2: choice\n"),
    (
        b"trace 1\ntimer never\nset 1 never\n",
        b"timer 1\n",
        b"line 3: choice\n",
    ),
    (b"trace 1\nset 5 on 1\n", b"", b"line 2: choice\n"),
];

#[test]
fn a_line_is_read_in_each_of_its_spellings(rt: HostRuntime) {
    replay_rows(&rt, READ, &[1, 4096]);
}

/// Replays each refused trace, of which a read gives at most so many bytes, for each of these numbers, and
/// asserts what is told.
fn refuse_rows<R: Wait + Threads + Sync + Send + Copy + AllocGlobal + Abort>(
    rt: &R,
    rows: &[(&[u8], &[u8], &[u8])],
    pieces: &[usize],
) {
    for piece in pieces {
        for (trace, out, err) in rows {
            replay_so(rt, trace, *piece, (out, err, 2));
        }
    }
}

#[test]
fn the_first_refused_line_is_told_with_its_reason(rt: HostRuntime) {
    refuse_rows(&rt, REFUSED, &[1, 4096]);
}

/// The line is read.
const IS_READ: Wrote<'static> = (b"key 0\n", b"", 0);

/// The line is refused.
const IS_LONG: Wrote<'static> = (b"", b"line 2: long\n", 2);

/// Lines of so many bytes, blanks with `add` in front of them, and what a replay writes and tells.
const LENGTHS: &[(usize, Wrote<'static>)] = &[
    (255, IS_READ),
    (256, IS_READ),
    (257, IS_LONG),
    (258, IS_LONG),
    (100_000, IS_LONG),
];

/// A trace with one line `add`, which blanks and this last byte make so many bytes long.
fn long_line(rt: &impl Abort, alloc: Global, len: usize, last: u8) -> Vec<u8> {
    let mut trace = b"trace 1\nadd".to_vec(alloc).expect(rt, MEMORY);
    for _ in 4..len {
        trace.push(b' ').expect(rt, MEMORY);
    }
    trace.push(last).expect(rt, MEMORY);
    trace
}

fn read_long_line<R: Wait + Threads + Sync + Send + Copy + AllocGlobal + Abort>(
    rt: &R,
    len: usize,
    last: u8,
    wanted: Wrote<'_>,
) {
    let trace = long_line(rt, rt.alloc(), len, last);
    replay_so(rt, trace.as_slice(), 4096, wanted);
}

#[test]
fn a_line_has_at_most_256_bytes(rt: HostRuntime) {
    for (len, wanted) in LENGTHS {
        read_long_line(&rt, *len, b' ', *wanted);
        read_long_line(&rt, *len, b'\r', *wanted);
    }
}

/// A header that blanks make so many bytes long, and a line behind it.
fn long_header(rt: &impl Abort, alloc: Global, len: usize) -> Vec<u8> {
    let mut trace = b"trace 1".to_vec(alloc).expect(rt, MEMORY);
    for _ in 7..len {
        trace.push(b' ').expect(rt, MEMORY);
    }
    trace.extend_from_slice(b"\nadd\n").expect(rt, MEMORY);
    trace
}

/// Replays a trace with a header of so many bytes.
fn read_long_header<R: Wait + Threads + Sync + Send + Copy + AllocGlobal + Abort>(
    rt: &R,
    len: usize,
    wanted: Wrote<'_>,
) {
    let trace = long_header(rt, rt.alloc(), len);
    replay_so(rt, trace.as_slice(), 4096, wanted);
}

/// The first line is no header.
const IS_NO_HEADER: Wrote<'static> = (b"", b"line 1: header\n", 2);

#[test]
fn a_header_has_at_most_256_bytes(rt: HostRuntime) {
    read_long_header(&rt, 256, IS_READ);
    read_long_header(&rt, 257, IS_NO_HEADER);
}

#[test]
fn a_long_line_of_other_bytes_is_long(rt: HostRuntime) {
    let mut trace = b"trace 1\n".to_vec(rt.alloc()).expect(&rt, MEMORY);
    let zeros = vec![in rt.alloc(); 0; 257].expect(&rt, MEMORY);
    trace
        .extend_from_slice(zeros.as_slice())
        .expect(&rt, MEMORY);
    replay_so(&rt, trace.as_slice(), 4096, IS_LONG);
}

#[test]
fn a_first_line_without_end_is_refused_by_its_first_257_bytes(rt: HostRuntime) {
    let line = vec![in rt.alloc(); b'a'; 300].expect(&rt, MEMORY);
    let mut source = source_of(&rt, rt.alloc(), line.as_slice(), 4096, &[]);
    let ran = run_from(&rt, &["replay"], &mut source, NOTHING_FAILS);
    assert_ran(&rt, &ran, IS_NO_HEADER, "no end");
    assert_left(&rt, &mut source, 43);
}

/// Asserts that so many bytes are left in the source at least.
fn assert_left(rt: &impl Abort, source: &mut MemSource, least: usize) {
    let mut rest = [0; 300];
    let left = source.read(&mut rest).ok().unwrap_or(0);
    same_in(rt, left, left >= least, true);
}
