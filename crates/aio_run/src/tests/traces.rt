//! What no clause says: that a call succeeds where memory is left, that each answer is written
//! before a read that may wait, and that the definitions mean what the worked traces say.

ghost use Rattle.std.specs.Prelude.{None, false};

use crate::tests::asserts::{MEMORY, same, same_in};
use crate::tests::runs::{
    FIRST_FAULT, Failing, NOTHING_FAILS, assert_ran, ends, replay_rows, run_from, run_over,
};
use crate::{Status, Why};
use aio_base::{Failed, Faults, Reason};
use aio_bytes::{Source, Torn};
use std::alloc::{AllocError, Global};
use std::process::Abort;
use std::sync::Wait;
use std::thread::Threads;

const USAGE: &[u8] =
    b"usage: replay; gen N SEED; sum N SEED; relay PORT WORKERS IDLE PAIRS; stress CALLS SEED\n";

/// A trace in which a task waits for a source and is woken.
pub(crate) const ORDINARY: &[u8] = b"trace 1\nadd\npoll 0 r 7\nevent 0 r\nreact\npoll 0 r 7\n";

/// The answers to that trace.
pub(crate) const ORDINARY_ANSWERS: &[u8] =
    b"key 0\npending\nnoted\nround 1 events 1 ok\nwake 7\nready\n";

/// Traces, and the answers to each; all lines of each are read.
const TRACES: &[(&[u8], &[u8])] = &[
    (b"trace 1\n", b""),
    (b"trace 1", b""),
    (ORDINARY, ORDINARY_ANSWERS),
    // A second waker replaces the first, which is woken.
    (
        b"trace 1\nadd\npoll 0 r 1\npoll 0 r 2\n",
        b"key 0\npending\npending\nwake 1\n",
    ),
    // A direction that is left waiting is armed again; one event wakes Write before Read.
    (
        b"trace 1\nadd\npoll 0 r 1\npoll 0 w 2\nevent 0 r\nreact\npoll 0 r 1\npoll 0 r 1\nevent 0 rw\nreact\n",
        b"key 0\npending\npending\nnoted\nround 1 events 1 ok\nwake 1\nready\npending\nnoted\nround 2 events 1 ok\nwake 2\nwake 1\n",
    ),
    // An event of an unknown key is counted and wakes nobody.
    (
        b"trace 1\nevent 9 rw\nreact\n",
        b"noted\nround 1 events 1 ok\n",
    ),
    // A due fault shows which polls arm: the same waker does not, unless its source is broken.
    (
        b"trace 1\nadd\npoll 0 r 1\nfault arm\npoll 0 r 1\npoll 0 w 2\npoll 0 r 1\n",
        b"key 0\npending\nnoted\npending\nfault arm\npending\n",
    ),
    // An arm that fails in a round stops nothing; the next poll arms again.
    (
        b"trace 1\nadd\npoll 0 r 1\npoll 0 w 2\nfault arm\nevent 0 r\nreact\npoll 0 w 2\nevent 0 w\nreact\n",
        b"key 0\npending\npending\nnoted\nnoted\nround 1 events 1 fault arm\nwake 1\npending\nnoted\nround 2 events 1 ok\nwake 2\n",
    ),
    // Listeners are woken in the order of their first poll; one that is ready stays so.
    (
        b"trace 1\nadd\nnew 0 r\nnew 0 r\nnew 0 r\nstep 1 11\nstep 2 12\nstep 3 13\ndrop 2\nnew 0 r\nstep 4 14\nevent 0 r\nreact\nstep 4 14\nstep 4 14\n",
        b"key 0\nlistener 1\nlistener 2\nlistener 3\npending\npending\npending\ndropped\nlistener 4\npending\nnoted\nround 1 events 1 ok\nwake 11\nwake 13\nwake 14\nready\nready\n",
    ),
    // The order is that of the first polls, and not that of the numbers.
    (
        b"trace 1\nadd\nnew 0 r\nnew 0 r\nstep 2 12\nstep 1 11\nevent 0 r\nreact\n",
        b"key 0\nlistener 1\nlistener 2\npending\npending\nnoted\nround 1 events 1 ok\nwake 12\nwake 11\n",
    ),
    // Each kind of call fails once where it was told to.
    (
        b"trace 1\nfault add\nadd\nadd\nfault remove\ndel 0\nadd\nfault arm\npoll 0 r 3\npoll 0 r 3\nevent 0 r\nreact\n",
        b"noted\nfault add\nkey 0\nnoted\nfault remove\nkey 0\nnoted\nfault arm\npending\nnoted\nround 1 events 1 ok\nwake 3\n",
    ),
    // What is not there, or is in use, is told.
    (
        b"trace 1\nadd\nnew 0 w\ndel 0\ndrop 1\ndel 0\npoll 0 r 1\ndel 0\nnew 0 r\nstep 1 5\ndrop 1\nstep 0 5\ndrop 0\n",
        b"key 0\nlistener 1\nin use\ndropped\ngone\nno source\nno source\nno source\nno listener\nno listener\nno listener\nno listener\n",
    ),
    // A waker that is given up with its source or its listener is not woken; a key is used again.
    (
        b"trace 1\nadd\nadd\npoll 0 r 1\nnew 1 r\nstep 1 2\ndrop 1\ndel 0\nadd\nevent 0 r\nevent 1 r\nreact\npoll 0 r 3\n",
        b"key 0\nkey 1\npending\nlistener 1\npending\ndropped\ngone\nkey 0\nnoted\nnoted\nround 1 events 2 ok\npending\n",
    ),
    (b"trace 1\nadd\nadd", b"key 0\nkey 1\n"),
    (b"trace 1\npoll 4294967295 w 4294967295\n", b"no source\n"),
];

/// Traces with timers, and the answers to each in the same way.
const TIMER_TRACES: &[(&[u8], &[u8])] = &[
    // Timers of one deadline fire in the order in which they were registered.
    (
        b"trace 1\ntimer at 150\ntimer at 150\ntick 1 5\ntick 2 4\nnow 150\nreact\n",
        b"timer 1\ntimer 2\npending\npending\nat 150\nround 1 events 0 ok\nwake 5\nwake 4\n",
    ),
    // A poll fires one period at most, also where several were missed.
    (
        b"trace 1\ntimer every 10 10\nnow 35\ntick 1 5\ntick 1 5\ntick 1 5\ntick 1 5\n",
        b"timer 1\nat 35\nready 10\nready 20\nready 30\npending\n",
    ),
    // A period that ends past the last moment is the last one.
    (
        b"trace 1\ntimer every 1000000000000000000 1\nnow 1000000000000000000\ntick 1 5\ntick 1 5\n",
        b"timer 1\nat 1000000000000000000\nready 1000000000000000000\npending\n",
    ),
    // A timer that is given up fires no more, and its number stays taken.
    (
        b"trace 1\ntimer at 50\ntick 1 5\nend 1\nnow 60\nreact\ntick 1 5\n",
        b"timer 1\npending\nended\nat 60\nround 1 events 0 ok\nno timer\n",
    ),
    // A timer that is set fires at its new deadline, for the task that waits; the clock stays.
    (
        b"trace 1\ntimer at 50\ntick 1 5\nset 1 at 20\ntimer never\ntick 2 6\nset 2 at 20\nnow 20\nreact\ntick 2 6\nnow 19\n",
        b"timer 1\npending\nset\ntimer 2\npending\nset\nat 20\nround 1 events 0 ok\nwake 5\nready 20\nback 20\n",
    ),
    // A timer that is set gets a period too.
    (
        b"trace 1\ntimer at 50\ntick 1 1\nset 1 every 10 10\nnow 25\ntick 1 1\ntick 1 1\ntick 1 1\n",
        b"timer 1\npending\nset\nat 25\nready 10\nready 20\npending\n",
    ),
    // A round wakes for its timers before it wakes for its events; numbers of timers and of listeners
    // are counted apart.
    (
        b"trace 1\nadd\nnew 0 r\nstep 1 1\ntimer at 10\ntick 1 2\nnow 10\nevent 0 r\nreact\n",
        b"key 0\nlistener 1\npending\ntimer 1\npending\nat 10\nnoted\nround 1 events 1 ok\nwake 2\nwake 1\n",
    ),
    // The task that polled last is woken, once.
    (
        b"trace 1\ntimer at 5\ntick 1 1\ntick 1 2\ntick 1 2\nnow 5\nreact\nreact\ntick 1 3\ntick 1 3\n",
        b"timer 1\npending\npending\npending\nat 5\nround 1 events 0 ok\nwake 2\nround 2 events 0 ok\nready 5\npending\n",
    ),
    // A number that no timer has.
    (
        b"trace 1\ntick 1 1\nset 0 at 1\nset 4294967295 every 1 1\nend 1\n",
        b"no timer\nno timer\nno timer\nno timer\n",
    ),
    (
        b"trace 1\nnow 1000000000000000000",
        b"at 1000000000000000000\n",
    ),
];

/// Traces with rounds in sections, and the answers to each; all lines of each are read.
const SECTION_TRACES: &[(&[u8], &[u8])] = &[
    // An event of the running round is not fresh: a poll after it waits for another.
    (
        b"trace 1\nadd\nbegin none\npoll 0 r 7\nevent 0 r\nwait\nhandle\nfinish\npoll 0 r 7\n",
        b"key 0\nbegin 1 wait none\npending\nnoted\ngiven 1\nhandled 0\nend ok\nwake 7\npending\n",
    ),
    // A stale event meets a new source under the key of the old one.
    (
        b"trace 1\nadd\npoll 0 r 1\nevent 0 r\nbegin none\nwait\ndel 0\nadd\npoll 0 r 2\nhandle\nfinish\npoll 0 r 2\n",
        b"key 0\npending\nnoted\nbegin 1 wait none\ngiven 1\ngone\nkey 0\npending\nhandled 0\nend ok\nwake 2\npending\n",
    ),
    // A deadline that is reached while the round waits is found by its second pass.
    (
        b"trace 1\nnow 100\ntimer at 150\ntick 1 5\nbegin none\nnow 150\nwait\nfinish\ntick 1 5\ntick 1 5\n",
        b"at 100\ntimer 1\npending\nbegin 1 wait 50\nat 150\ngiven 0\nend ok\nwake 5\nready 150\npending\n",
    ),
    // A wait that fails ends a round by its fault, which loses no waker that the first pass took.
    (
        b"trace 1\ntimer at 10\ntick 1 5\nnow 10\nfault wait\nbegin none\nwait\nfinish\n",
        b"timer 1\npending\nat 10\nnoted\nbegin 1 wait 0\nfault wait\nend fault wait\nwake 5\n",
    ),
    // A wait that is interrupted asks for no second pass; the next round finds the timer.
    (
        b"trace 1\ntimer at 10\ntick 1 5\ninterrupt\nbegin none\nnow 10\nwait\nfinish\nreact\n",
        b"timer 1\npending\nnoted\nbegin 1 wait 10\nat 10\ninterrupted\nend ok\nround 2 events 0 ok\nwake 5\n",
    ),
    // What comes in the wrong phase of a round, or asks for what is not there, is told.
    (
        b"trace 1\nadd\nhandle\nbegin 0\nreact\nevent 0 r\nwait\nfinish\nhandle\nhandle\nfinish\nnew 0 w\ndel 0\ndrop 1\ndel 0\npoll 0 r 1\n",
        b"key 0\nno round\nbegin 1 wait 0\nlocked\nnoted\ngiven 1\nevents 1\nhandled 0\nempty\nend ok\nlistener 1\nin use\ndropped\ngone\nno source\n",
    ),
    // Sources, listeners and timers in rounds of both kinds.
    (
        b"trace 1\nadd\nadd\nnew 0 r\nstep 1 64\npoll 1 r 65\ntimer at 1000\ntick 1 65\nevent 0 r\nbegin none\nwait\nhandle\nfinish\nstep 1 64\ndrop 1\nnow 1000\nreact\ntick 1 65\npoll 1 r 65\ndel 1\n",
        b"key 0\nkey 1\nlistener 1\npending\npending\ntimer 1\npending\nnoted\nbegin 1 wait 1000\ngiven 1\nhandled 0\nend ok\nwake 64\nready\ndropped\nat 1000\nround 2 events 0 ok\nwake 65\nready 1000\npending\ngone\n",
    ),
    // A second wait of a round gives what the first could not, and the round keeps its first fault.
    (
        b"trace 1\nadd\npoll 0 r 1\nevent 0 r\nbegin none\nfault wait\nwait\nwait\nhandle\nfinish\n",
        b"key 0\npending\nnoted\nbegin 1 wait none\nnoted\nfault wait\ngiven 1\nhandled 0\nend fault wait\nwake 1\n",
    ),
];

#[test]
fn traces_are_answered_however_they_are_read(rt: HostRuntime) {
    replay_rows(&rt, TRACES, &[1, 7, 4096]);
}

#[test]
fn timers_fire_in_order_and_once(rt: HostRuntime) {
    replay_rows(&rt, TIMER_TRACES, &[1, 4096]);
}

#[test]
fn rounds_are_answered_section_by_section(rt: HostRuntime) {
    replay_rows(&rt, SECTION_TRACES, &[1, 4096]);
}

/// Words that are no command.
const OTHER_WORDS: &[&[&str]] = &[
    &[],
    &[""],
    &["replay", "x"],
    &["Replay"],
    &["gen"],
    &["gen", "1"],
    &["gen", "1", "2", "3"],
    &["Gen", "1", "0"],
    &["gen ", "1", "0"],
    &["gen", "1000000", "0"],
    &["gen", "4294967296", "0"],
    &["gen", "1", "281474976710656"],
    &["gen", "18446744073709551616", "0"],
    &["gen", "-1", "0"],
    &["gen", "+1", "0"],
    &["gen", "1", "+0"],
    &["gen", "x", "0"],
    &["gen", "1x", "0"],
    &["gen", "", "0"],
    &["gen", "1", ""],
    &["gen 1 0"],
    &["sum", " 0", "1"],
    &["sum", "1000000", "1"],
    &["sum", "replay"],
    &["relay"],
    &["relay", "0", "1", "1"],
    &["relay", "0", "1", "1", "1", "1"],
    &["relay", "65536", "1", "1", "1"],
    &["relay", "0", "0", "1000", "1"],
    &["relay", "0", "17", "1000", "2"],
    &["relay", "0", "2", "1000", "129"],
    &["relay", "0", "16", "1000", "1025"],
    &["relay", "0", "1", "0", "1"],
    &["relay", "0", "1", "1000000000000000001", "1"],
    &["relay", "0", "1", "1000", "0"],
    &["relay", "0", "1", "1000", "65"],
    &["relay", "+0", "1", "1000", "1"],
    &["Relay", "0", "1", "1000", "1"],
    &["stress"],
    &["stress", "1"],
    &["stress", "1", "1", "1"],
    &["stress", "x", "1"],
    &["stress", "1", "x"],
    &["stress", "-1", "1"],
    &["stress", "1", "+1"],
    &["stress", "100001", "0"],
    &["stress", "1", "281474976710656"],
    &["Stress", "1", "1"],
];

/// Runs words that are no command, and asserts that no device was used.
fn refuse_words<R: Wait + Threads + Sync + Send + Copy + AllocGlobal + Abort>(
    rt: &R,
    words: &[&str],
) {
    let ran = run_over(rt, words, ORDINARY, 4096, NOTHING_FAILS);
    assert_ran(rt, &ran, (b"", USAGE, 1), words);
    same(rt, (ran.status.why, ran.counts), (Why::Usage, [0; 5]));
}

#[test]
fn other_words_are_no_command_and_use_no_device(rt: HostRuntime) {
    for words in OTHER_WORDS {
        refuse_words(&rt, words);
    }
}

/// The read of the ordinary trace that fails, where each gives one byte, and what was written then.
const FAILING_READS: &[(&[u64], &[u8])] = &[
    (&[1], b""),
    (&[9], b""),
    (&[12], b""),
    (&[13], b"key 0\n"),
    (&[23], b"key 0\n"),
    (&[24], b"key 0\npending\n"),
    (
        &[40],
        b"key 0\npending\nnoted\nround 1 events 1 ok\nwake 7\n",
    ),
    (&[51], ORDINARY_ANSWERS),
];

fn fail_read<R: Wait + Threads + Sync + Send + Copy + AllocGlobal + Abort>(
    rt: &R,
    reads: &'static [u64],
    out: &[u8],
) {
    let failing = Failing {
        reads,
        ..NOTHING_FAILS
    };
    let wanted = (out, b"read fault\n".as_slice(), 3);
    let why = ends(rt, &["replay"], ORDINARY, 1, failing, wanted);
    same(rt, why, Why::ReadFault(FIRST_FAULT));
}

#[test]
fn a_failing_read_leaves_the_answers_before_it(rt: HostRuntime) {
    for (reads, out) in FAILING_READS {
        fail_read(&rt, reads, out);
    }
}

/// A trace whose first 257 bytes, which one read gives, end in the middle of its last line; and the
/// answers to the lines before that.
fn adds_across_a_read(rt: &impl Abort, alloc: Global) -> (Vec<u8>, Vec<u8>) {
    let (mut trace, answers) = adds(rt, alloc, 62);
    trace.extend_from_slice(b"add\n").expect(rt, MEMORY);
    (trace, answers)
}

/// Replays a trace that is all in hand, of which the second read fails.
fn fail_second_read<R: Wait + Threads + Sync + Send + Copy + AllocGlobal + Abort>(
    rt: &R,
    trace: &[u8],
    writes: &'static [u64],
    out: &[u8],
) {
    let failing = Failing {
        writes,
        ..NOTHING_FAILS
    };
    let mut source = Torn::new(trace.to_vec(rt.alloc()).expect(rt, MEMORY));
    let ran = run_from(rt, &["replay"], &mut source, failing);
    assert_ran(rt, &ran, (out, b"read fault\n", 3), writes);
}

#[test]
fn answers_gathered_before_a_failing_read_are_sent(rt: HostRuntime) {
    let (trace, answers) = adds_across_a_read(&rt, rt.alloc());
    fail_second_read(&rt, trace.as_slice(), &[], answers.as_slice());
    fail_second_read(&rt, trace.as_slice(), &[1], b"");
}

/// The write of the answers to the ordinary trace that fails, where each line is read alone, and what
/// was written then.
const FAILING_WRITES: &[(&[u64], &[u8])] = &[
    (&[1], b""),
    (&[2], b"key 0\n"),
    (&[4], b"key 0\npending\nnoted\n"),
    (
        &[5, 6],
        b"key 0\npending\nnoted\nround 1 events 1 ok\nwake 7\n",
    ),
];

fn fail_write<R: Wait + Threads + Sync + Send + Copy + AllocGlobal + Abort>(
    rt: &R,
    writes: &'static [u64],
    out: &[u8],
) {
    let failing = Failing {
        writes,
        ..NOTHING_FAILS
    };
    let wanted = (out, b"write fault\n".as_slice(), 4);
    let why = ends(rt, &["replay"], ORDINARY, 1, failing, wanted);
    same(rt, why, Why::WriteFault(FIRST_FAULT));
}

#[test]
fn a_failing_write_leaves_the_answers_before_it(rt: HostRuntime) {
    for (writes, out) in FAILING_WRITES {
        fail_write(&rt, writes, out);
    }
}

#[test]
fn a_user_who_cannot_be_told_changes_no_status(rt: HostRuntime) {
    let failing = Failing {
        tells: &[1],
        ..NOTHING_FAILS
    };
    let why = ends(&rt, &["replay"], b"", 4096, failing, (b"", b"", 2));
    let header = Why::Refused {
        line: 1,
        reason: Reason::Header,
    };
    same(&rt, why, header);
}

/// Replays a trace that is read to its end, and asserts its answers without writing them where they
/// differ, as they are many.
fn replay_whole<R: Wait + Threads + Sync + Send + Copy + AllocGlobal + Abort>(
    rt: &R,
    trace: &[u8],
    answers: &[u8],
) {
    let ran = run_over(rt, &["replay"], trace, 4096, NOTHING_FAILS);
    let wrote = (ran.status.exit, ran.out.bytes() == answers);
    same(rt, wrote, (0, true));
}

/// The header and so many lines `add`, and their answers.
fn adds(rt: &impl Abort, alloc: Global, count: u32) -> (Vec<u8>, Vec<u8>) {
    let mut trace = b"trace 1\n".to_vec(alloc).expect(rt, MEMORY);
    let mut answers = Vec::new(alloc);
    for key in 0..count {
        trace.extend_from_slice(b"add\n").expect(rt, MEMORY);
        put(rt, &mut answers, format!(in alloc; "key {key}\n"));
    }
    (trace, answers)
}

/// Replays a trace with these lines behind it, and asserts its answers with these behind them.
fn replay_longer<R: Wait + Threads + Sync + Send + Copy + AllocGlobal + Abort>(
    rt: &R,
    trace: &mut Vec<u8>,
    answers: &mut Vec<u8>,
    lines: &[u8],
    told: &[u8],
) {
    trace.extend_from_slice(lines).expect(rt, MEMORY);
    answers.extend_from_slice(told).expect(rt, MEMORY);
    replay_whole(rt, trace.as_slice(), answers.as_slice());
}

#[test]
fn a_reactor_holds_4096_sources(rt: HostRuntime) {
    let (mut trace, mut answers) = adds(&rt, rt.alloc(), 4096);
    let lines = b"add\ndel 7\nadd\n";
    let told = b"full\ngone\nkey 7\n";
    replay_longer(&rt, &mut trace, &mut answers, lines, told);
}

/// Puts the lines behind a trace by which the listener and the timer of this number wait, and their answers
/// behind the answers.
fn put_waiting(rt: &impl Abort, alloc: Global, trace: &mut Vec<u8>, answers: &mut Vec<u8>, n: u32) {
    let lines = format!(in alloc; "new 0 r\nstep {n} 5\ntimer at 9\ntick {n} 5\n");
    let told = format!(in alloc; "listener {n}\npending\ntimer {n}\npending\n");
    put(rt, trace, lines);
    put(rt, answers, told);
}

/// Puts a text behind others, where memory was left for it.
fn put(rt: &impl Abort, texts: &mut Vec<u8>, text: Result<String, AllocError>) {
    let text = text.expect(rt, MEMORY);
    texts.extend_from_slice(text.as_bytes()).expect(rt, MEMORY);
}

/// A trace in which so many listeners and as many timers wait, and its answers.
fn waiting(rt: &impl Abort, alloc: Global, count: u32) -> (Vec<u8>, Vec<u8>) {
    let mut trace = b"trace 1\nadd\n".to_vec(alloc).expect(rt, MEMORY);
    let mut answers = b"key 0\n".to_vec(alloc).expect(rt, MEMORY);
    for n in 1..=count {
        put_waiting(rt, alloc, &mut trace, &mut answers, n);
    }
    (trace, answers)
}

/// What comes of a round that wakes so many listeners and as many timers.
fn wakes(rt: &impl Abort, alloc: Global, count: u32) -> Vec<u8> {
    let mut told = b"at 9\nnoted\nround 1 events 1 ok\n"
        .to_vec(alloc)
        .expect(rt, MEMORY);
    for _ in 0..count {
        told.extend_from_slice(b"wake 5\nwake 5\n")
            .expect(rt, MEMORY);
    }
    told
}

#[test]
fn listeners_and_timers_are_as_many_as_memory_holds(rt: HostRuntime) {
    let (mut trace, mut answers) = waiting(&rt, rt.alloc(), 65_537);
    let told = wakes(&rt, rt.alloc(), 65_537);
    let lines = b"now 9\nevent 0 r\nreact\n";
    replay_longer(&rt, &mut trace, &mut answers, lines, told.as_slice());
}

/// A trace that is longer than memory would hold well: a few lines, and then one line again and again, up to so
/// many bytes.
#[derive(Drop)]
struct Long {
    head: &'static [u8],
    line: &'static [u8],
    given: u64,
    end: u64,
}

impl Faults for Long {
    ghost fault_count = { λ _. 0 };

    ghost is_sure = { λ _. false };

    ghost all_sure = { false };

    fn faults(&self) -> u64 {
        0
    }

    ghost sure_below_top = { λ s sure. Prim.cc };

    ghost each_sure = { λ s sure. sure };
}

impl Source for Long {
    ghost remaining = { λ _. None };

    ghost in_hand = { λ _. 0 };

    ghost read_step = { λ old room answer new. Unit {0} };

    fn in_hand(&self) -> usize {
        0
    }

    fn read(&mut self, buf: &mut [u8]) -> Result<usize, Failed> {
        let left = self.end.saturating_sub(self.given);
        let count = if (buf.len() as u64) < left {
            buf.len()
        } else {
            left as usize
        };
        for byte in buf[..count].iter_mut() {
            *byte = byte_at(self.head, self.line, self.given);
            self.given = self.given.saturating_add(1);
        }
        Ok(count)
    }
}

/// The byte at this place of a few lines with another one behind them again and again. 0 where that is empty.
fn byte_at(head: &[u8], line: &[u8], place: u64) -> u8 {
    let place = place as usize;
    if place < head.len() {
        return head[place];
    }
    if line.is_empty() {
        return 0;
    }
    line[(place - head.len()) % line.len()]
}

#[test]
fn a_trace_without_end_is_refused_past_its_millionth_line(rt: HostRuntime) {
    let mut source = Long {
        head: b"trace 1\n",
        line: b"react\n",
        given: 0,
        end: u64::MAX,
    };
    let ran = run_from(&rt, &["replay"], &mut source, NOTHING_FAILS);
    let told = b"line 1000001: lines\n".as_slice();
    same(
        &rt,
        (ran.status, ran.err.bytes()),
        (PAST_THE_MILLIONTH, told),
    );
    assert_counted(&rt, ran.out.bytes(), ROUNDS, 999_999);
    same_in(&rt, source.given, source.given <= 257_000_257, true);
}

/// The status of a run that was refused past its millionth line.
const PAST_THE_MILLIONTH: Status = Status {
    exit: 2,
    why: Why::Refused {
        line: 1_000_001,
        reason: Reason::Lines,
    },
};

/// How the answer of a round without events begins and ends.
const ROUNDS: (&[u8], &[u8]) = (b"round ", b" events 0 ok\n");

/// How the answer of a new listener begins and ends.
const LISTENERS: (&[u8], &[u8]) = (b"listener ", b"\n");

/// A trace of a million lines, of which all but the first two ask for a new listener.
fn listeners_to_the_last_line() -> Long {
    Long {
        head: b"trace 1\nadd\n",
        line: b"new 0 r\n",
        given: 0,
        end: 12 + 8 * 999_998,
    }
}

/// What comes behind the answer to `add`, or nothing where that does not come first.
fn past_add(answers: &[u8]) -> &[u8] {
    answers.strip_prefix(b"key 0\n").unwrap_or(b"")
}

#[test]
fn listeners_come_up_to_the_millionth_line(rt: HostRuntime) {
    let mut source = listeners_to_the_last_line();
    let ran = run_from(&rt, &["replay"], &mut source, NOTHING_FAILS);
    same(&rt, ran.status.exit, 0);
    assert_counted(&rt, past_add(ran.out.bytes()), LISTENERS, 999_998);
}

/// Asserts that the answers are so many, each with the next number from 1 on between this beginning and this
/// end, and nothing else.
fn assert_counted(rt: &impl Abort, answers: &[u8], between: (&[u8], &[u8]), count: u32) {
    let mut rest = answers;
    for number in 0..count {
        match past_answer(rest, between, number as u64 + 1) {
            Some(more) => rest = more,
            None => same_in(rt, "answers that came one after the other", number, count),
        }
    }
    same(rt, rest.is_empty(), true);
}

/// What comes behind the answer with this number, where that comes first.
fn past_answer<'a>(answers: &'a [u8], between: (&[u8], &[u8]), number: u64) -> Option<&'a [u8]> {
    let (found, rest) = past_number(answers.strip_prefix(between.0)?);
    if found != number {
        return None;
    }
    rest.strip_prefix(between.1)
}

/// A number of at most six digits, without leading zeros, and what comes behind it. 0 where there is none.
fn past_number(text: &[u8]) -> (u64, &[u8]) {
    let mut number: u64 = 0;
    let mut rest = text;
    for _ in 0..6 {
        match rest.split_first() {
            Some((digit, more)) if digit.is_ascii_digit() && (number > 0 || *digit > b'0') => {
                number = number.wrapping_mul(10).wrapping_add((*digit - b'0') as u64);
                rest = more;
            }
            _ => return (number, rest),
        }
    }
    (number, rest)
}
