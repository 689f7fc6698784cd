//! Runs of commands over devices in memory, and assertions on what comes of them.

use crate::tests::asserts::{MEMORY, same_in};
use crate::tests::kits::{Course, NOTHING_COMES, counts, kit_of};
use crate::{Status, Why, run};
use aio_base::{CountFault, Port};
use aio_bytes::{MemSink, MemSource, Sink, Source};
use aio_conns::MemPort;
use std::alloc::Global;
use std::fmt::Debug;
use std::process::Abort;
use std::sync::Wait;
use std::thread::Threads;

/// What a call answered, what it wrote, and what its devices count.
#[derive(Drop)]
pub(crate) struct Ran {
    pub(crate) status: Status,
    pub(crate) out: MemSink,
    pub(crate) err: MemSink,
    pub(crate) counts: [u64; 5],
}

/// The numbers of the calls that fail, from 1: the reads of the input, and the writes of the output
/// and of what is told to the user.
#[derive(Clone, Copy)]
pub(crate) struct Failing {
    pub(crate) reads: &'static [u64],
    pub(crate) writes: &'static [u64],
    pub(crate) tells: &'static [u64],
}

pub(crate) const NOTHING_FAILS: Failing = Failing {
    reads: &[],
    writes: &[],
    tells: &[],
};

/// The first fault of a device.
pub(crate) const FIRST_FAULT: CountFault = CountFault {
    before: 0,
    after: 1,
};

/// A source of these bytes, of which a read gives at most `piece`, and one where that is 0; the reads of these
/// numbers fail.
pub(crate) fn source_of(
    rt: &impl Abort,
    alloc: Global,
    bytes: &[u8],
    piece: usize,
    fails: &[u64],
) -> MemSource {
    let bytes = bytes.to_vec(alloc).expect(rt, MEMORY);
    let fails = fails.to_vec(alloc).expect(rt, MEMORY);
    MemSource::new(bytes, piece.max(1), fails)
}

/// A sink that holds nothing; the writes of these numbers fail.
pub(crate) fn sink_of(rt: &impl Abort, alloc: Global, fails: &[u64]) -> MemSink {
    MemSink::new(alloc, fails.to_vec(alloc).expect(rt, MEMORY))
}

/// Runs the command of these words over an input in memory, of which a read gives at most `piece`
/// bytes, and one where that is 0.
pub(crate) fn run_over<R: Wait + Threads + Sync + Send + Copy + AllocGlobal + Abort>(
    rt: &R,
    words: &[&str],
    input: &[u8],
    piece: usize,
    failing: Failing,
) -> Ran {
    let mut source = source_of(rt, rt.alloc(), input, piece, failing.reads);
    run_from(rt, words, &mut source, failing)
}

/// Runs the command of these words over this source, and devices to which nothing comes.
pub(crate) fn run_from<R: Wait + Threads + Sync + Send + Copy + AllocGlobal + Abort, S: Source>(
    rt: &R,
    words: &[&str],
    source: &mut S,
    failing: Failing,
) -> Ran {
    let port = MemPort::new(Vec::new(rt.alloc()));
    run_with(rt, words, source, failing, port, NOTHING_COMES)
}

/// The same over this port, and devices of this course.
pub(crate) fn run_with<
    R: Wait + Threads + Sync + Send + Copy + AllocGlobal + Abort,
    S: Source,
    P: Port + Drop,
>(rt: &R, words: &[&str], source: &mut S, failing: Failing, port: P, course: Course) -> Ran
where
    P::C: Send + Drop,
{
    let mut out = sink_of(rt, rt.alloc(), failing.writes);
    let tells = failing.tells;
    let (status, err, counts) = run_into(rt, words, source, &mut out, tells, port, course);
    Ran {
        status,
        out,
        err,
        counts,
    }
}

/// The same into this output, where the calls of these numbers fail that tell the user. The status, what was
/// told, and what the devices count.
pub(crate) fn run_into<
    R: Wait + Threads + Sync + Send + Copy + AllocGlobal + Abort,
    S: Source,
    K: Sink,
    P: Port + Drop,
>(
    rt: &R,
    words: &[&str],
    source: &mut S,
    out: &mut K,
    tells: &[u64],
    port: P,
    course: Course,
) -> (Status, MemSink, [u64; 5])
where
    P::C: Send + Drop,
{
    let alloc = rt.alloc();
    let texts = texts_of(rt, alloc, words);
    let mut err = sink_of(rt, alloc, tells);
    let mut kit = kit_of(rt, alloc, port, course);
    let status = run(rt, alloc, texts.as_slice(), source, out, &mut err, &mut kit);
    (status, err, counts(&kit))
}

fn texts_of(rt: &impl Abort, alloc: Global, words: &[&str]) -> Vec<String> {
    let mut texts = Vec::new(alloc);
    for word in words {
        let text = String::from_str(alloc, *word).expect(rt, MEMORY);
        texts.push(text).expect(rt, MEMORY);
    }
    texts
}

/// What a command writes to the output, what it tells the user, and its exit status.
pub(crate) type Wrote<'a> = (&'a [u8], &'a [u8], u8);

/// Asserts what a call wrote and told, and its exit status, naming what it was a call of where they differ.
pub(crate) fn assert_ran<T: Copy + Debug + PartialEq>(
    rt: &impl Abort,
    ran: &Ran,
    wanted: Wrote<'_>,
    of: T,
) {
    let wrote = (ran.out.bytes(), ran.err.bytes(), ran.status.exit);
    same_in(rt, of, wrote, wanted);
}

/// Runs the command of these words over an input in memory, in the same way, and asserts what it wrote and told,
/// and its exit status. Why it ended.
pub(crate) fn ends<R: Wait + Threads + Sync + Send + Copy + AllocGlobal + Abort>(
    rt: &R,
    words: &[&str],
    input: &[u8],
    piece: usize,
    failing: Failing,
    wanted: Wrote<'_>,
) -> Why {
    let ran = run_over(rt, words, input, piece, failing);
    assert_ran(rt, &ran, wanted, (words, input));
    ran.status.why
}

/// Replays each trace, of which a read gives at most so many bytes, for each of these numbers, and asserts its
/// answers.
pub(crate) fn replay_rows<R: Wait + Threads + Sync + Send + Copy + AllocGlobal + Abort>(
    rt: &R,
    rows: &[(&[u8], &[u8])],
    pieces: &[usize],
) {
    for piece in pieces {
        for (trace, out) in rows {
            replay_so(rt, trace, *piece, (out, b"", 0));
        }
    }
}

/// Replays a trace, of which a read gives at most `piece` bytes, and asserts what that writes and tells.
pub(crate) fn replay_so<R: Wait + Threads + Sync + Send + Copy + AllocGlobal + Abort>(
    rt: &R,
    trace: &[u8],
    piece: usize,
    wanted: Wrote<'_>,
) {
    let _why = ends(rt, &["replay"], trace, piece, NOTHING_FAILS, wanted);
}
