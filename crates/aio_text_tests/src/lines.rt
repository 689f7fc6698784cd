//! The lines of the language one by one, both ways, and the first steps of two seeds.

use crate::asserts::{MEMORY, moment, same, same_in};
use crate::steps::{can_be_written, read_back};
use aio_base::{Answer, Dir, EndWord, Event, Interest, Key, OutOfMemory, Step, Waker, Which};
use aio_generator::{Steps, gen_steps};
use aio_trace::{LineFault, read_line};
use aio_writing::{write_answer, write_line, write_reply};
use std::alloc::Global;
use std::process::Abort;

/// The longest limit of a wait, the longest period and the last moment, in nanoseconds.
const LONGEST: u64 = 1_000_000_000_000_000_000;

/// Lines, and the step of each, of which it is the one spelling.
const STEPS: [(&str, Step); 26] = [
    ("add", Step::Add),
    ("del 4294967295", Step::Del(Key(4_294_967_295))),
    ("poll 0 r 7", Step::Poll(Key(0), Dir::Read, Waker(7))),
    (
        "poll 4294967295 w 0",
        Step::Poll(Key(4_294_967_295), Dir::Write, Waker(0)),
    ),
    ("new 4095 w", Step::New(Key(4095), Dir::Write)),
    ("step 0 4294967295", Step::StepEar(0, Waker(4_294_967_295))),
    ("drop 2", Step::DropEar(2)),
    ("timer never", Step::TimerNever),
    ("tick 4294967295 64", Step::Tick(4_294_967_295, Waker(64))),
    ("end 1", Step::End(1)),
    (
        "event 0 -",
        Step::Note(Event {
            key: Key(0),
            on: Interest::NONE,
        }),
    ),
    (
        "event 3 r",
        Step::Note(Event {
            key: Key(3),
            on: Interest::READ,
        }),
    ),
    (
        "event 3 w",
        Step::Note(Event {
            key: Key(3),
            on: Interest::WRITE,
        }),
    ),
    (
        "event 9 rw",
        Step::Note(Event {
            key: Key(9),
            on: Interest::READ_WRITE,
        }),
    ),
    ("fault add", Step::Fault(Which::Add)),
    ("fault arm", Step::Fault(Which::Arm)),
    ("fault remove", Step::Fault(Which::Remove)),
    ("fault wait", Step::Fault(Which::Wait)),
    ("interrupt", Step::Interrupt),
    ("begin none", Step::Begin(None)),
    ("begin 0", Step::Begin(Some(0))),
    ("begin 1000000000000000000", Step::Begin(Some(LONGEST))),
    ("wait", Step::Wait),
    ("handle", Step::Handle),
    ("finish", Step::Finish),
    ("react", Step::React),
];

/// Writes a step and reads the line, where it has one.
fn read_again(alloc: Global, step: &Step) -> Option<Result<Step, LineFault>> {
    if !can_be_written(step) {
        return None;
    }
    match read_back(alloc, step) {
        Ok(read) => Some(read),
        Err(OutOfMemory) => None,
    }
}

/// Asserts that a step is written as this line, with a line feed.
fn is_written(rt: &impl Abort, alloc: Global, line: &str, step: &Step) {
    let has_one = can_be_written(step);
    same_in(rt, line, has_one, true);
    assert!(rt; has_one);
    let mut out = Vec::new(alloc);
    write_line(step, &mut out).expect(rt, MEMORY);
    same(rt, out.split_last(), Some((&b'\n', line.as_bytes())));
}

/// Asserts what a line reads as.
fn reads(rt: &impl Abort, line: &str, wanted: Result<Step, LineFault>) {
    same_in(rt, line, read_line(line.as_bytes()), wanted);
}

/// Asserts that a line reads as this step, and that it is its one spelling.
fn spells(rt: &impl Abort, alloc: Global, line: &str, step: Step) {
    reads(rt, line, Ok(step));
    is_written(rt, alloc, line, &step);
    same_in(rt, line, read_again(alloc, &step), Some(Ok(step)));
}

/// Asserts the same of each of these lines.
fn spells_each(rt: &impl Abort, alloc: Global, rows: &[(&str, Step)]) {
    for (line, step) in rows {
        spells(rt, alloc, line, *step);
    }
}

#[test]
fn each_form_reads_as_its_step_and_is_written_so(rt: HostRuntime) {
    spells_each(&rt, rt.alloc(), &STEPS);
}

#[test]
fn each_form_with_a_moment_reads_as_its_step_and_is_written_so(rt: HostRuntime) {
    let alloc = rt.alloc();
    let (first, ten, last) = (moment(&rt, 0), moment(&rt, 10), moment(&rt, LONGEST));
    let every = Step::SetEvery(3, ten, LONGEST);
    spells(&rt, alloc, "timer at 0", Step::TimerAt(first));
    spells(&rt, alloc, "timer every 10 1", Step::TimerEvery(ten, 1));
    spells(
        &rt,
        alloc,
        "set 0 at 1000000000000000000",
        Step::SetAt(0, last),
    );
    spells(&rt, alloc, "set 3 every 10 1000000000000000000", every);
    spells(&rt, alloc, "now 1000000000000000000", Step::Now(last));
}

/// A poll of source 7 by the first task.
const POLL: Step = Step::Poll(Key(7), Dir::Read, Waker(1));

/// Lines in other spellings, and the step of each.
const OTHER_SPELLINGS: [(&str, Step); 7] = [
    (" poll  007 r 1 ", POLL),
    ("\tpoll\t7 \t r\t1\t", POLL),
    ("poll 7 r 0000000000000000000000001\r", POLL),
    (
        "event 00 rw \r",
        Step::Note(Event {
            key: Key(0),
            on: Interest::READ_WRITE,
        }),
    ),
    ("  add", Step::Add),
    ("begin 00", Step::Begin(Some(0))),
    ("del 0004294967295", Step::Del(Key(4_294_967_295))),
];

/// Asserts that each of these lines reads as its step.
fn reads_each(rt: &impl Abort, rows: &[(&str, Step)]) {
    for (line, step) in rows {
        reads(rt, line, Ok(*step));
    }
}

#[test]
fn other_spellings_read_as_the_same_step(rt: HostRuntime) {
    reads_each(&rt, &OTHER_SPELLINGS);
}

/// Lines that are no step, and the fault of each.
const FAULTS: &[(&str, LineFault)] = &[
    ("", LineFault::Empty),
    ("\t", LineFault::Empty),
    ("\r", LineFault::Empty),
    ("add\r\r", LineFault::Byte),
    ("add\r ", LineFault::Byte),
    ("poll x\u{7f}", LineFault::Byte),
    ("ad\u{e9}", LineFault::Byte),
    ("nothing \0", LineFault::Byte),
    ("trace 1", LineFault::Command),
    ("ADD", LineFault::Command),
    ("adds", LineFault::Command),
    ("add 1", LineFault::Count),
    ("poll", LineFault::Count),
    ("poll 0 r", LineFault::Count),
    ("poll 0 r 1 2", LineFault::Count),
    ("timer", LineFault::Count),
    ("timer never 1", LineFault::Count),
    ("set 5", LineFault::Count),
    ("set 5 every 1", LineFault::Count),
    ("fault", LineFault::Count),
    ("begin", LineFault::Count),
    ("begin none 1", LineFault::Count),
    ("poll x", LineFault::Number),
    ("poll -1 r 1", LineFault::Number),
    ("poll 4294967296 r 1", LineFault::Number),
    ("poll 18446744073709551616 r 1", LineFault::Number),
    ("poll 1x r 1", LineFault::Number),
    ("set x at 5", LineFault::Number),
    ("begin x", LineFault::Number),
    ("begin 1000000000000000001", LineFault::Number),
    ("timer every 1 0", LineFault::Number),
    ("timer every 1 1000000000000000001", LineFault::Number),
    ("now 1000000000000000001", LineFault::Number),
    ("poll 0 x", LineFault::Direction),
    ("poll 0 x 1", LineFault::Direction),
    ("new 0 rw", LineFault::Direction),
    ("poll 0 p 1", LineFault::Direction),
    ("new 0 p", LineFault::Direction),
    ("event 0 wr", LineFault::Flags),
    ("event 0 --", LineFault::Flags),
    ("event 0 p", LineFault::Flags),
    ("event 0 rwp", LineFault::Flags),
    ("timer foo", LineFault::Choice),
    ("set 5 never", LineFault::Choice),
    ("fault x", LineFault::Choice),
];

#[test]
fn lines_have_their_faults(rt: HostRuntime) {
    for (line, fault) in FAULTS {
        reads(&rt, line, Err(*fault));
    }
}

/// Asserts what the first 256 bytes of a line read as, and that one more is too long.
fn reads_up_to_256(rt: &impl Abort, line: &[u8], wanted: Result<Step, LineFault>) {
    same(rt, read_line(&line[..line.len().min(256)]), wanted);
    same(rt, read_line(line), Err(LineFault::Long));
}

/// The line `add` with so many blanks behind it that it has this length.
fn padded(rt: &impl Abort, alloc: Global, len: usize) -> Vec<u8> {
    let mut line = b"add".to_vec(alloc).expect(rt, MEMORY);
    for _ in 3..len {
        line.push(b' ').expect(rt, MEMORY);
    }
    line
}

#[test]
fn a_line_has_at_most_256_bytes(rt: HostRuntime) {
    let long = padded(&rt, rt.alloc(), 257);
    reads_up_to_256(&rt, long.as_slice(), Ok(Step::Add));
    // None of these bytes may stand in a line.
    let zeros = vec![in rt.alloc(); 0; 257].expect(&rt, MEMORY);
    reads_up_to_256(&rt, zeros.as_slice(), Err(LineFault::Byte));
}

/// A source was handled.
const HANDLED: Answer = Answer::Handled {
    key: Key(7),
    fault: false,
};

/// A source was handled whose arm failed.
const HANDLED_WITH_A_FAULT: Answer = Answer::Handled {
    key: Key(7),
    fault: true,
};

/// A whole round in which nothing failed.
const CLEAN_ROUND: Answer = Answer::Round {
    number: 1,
    events: 2,
    end: EndWord::Clean,
};

/// A whole round whose wait failed.
const ROUND_WITHOUT_A_WAIT: Answer = Answer::Round {
    number: 1,
    events: 2,
    end: EndWord::FaultWait,
};

/// A whole round in which an arm failed.
const ROUND_WITHOUT_AN_ARM: Answer = Answer::Round {
    number: 1,
    events: 2,
    end: EndWord::FaultArm,
};

/// Answers, and the line of each.
const ANSWERS: [(Answer, &str); 36] = [
    (Answer::KeyIs(Key(4095)), "key 4095\n"),
    (Answer::Full, "full\n"),
    (Answer::FaultAdd, "fault add\n"),
    (Answer::Gone, "gone\n"),
    (Answer::NoSource, "no source\n"),
    (Answer::InUse, "in use\n"),
    (Answer::FaultRemove, "fault remove\n"),
    (Answer::Ready, "ready\n"),
    (Answer::Pending, "pending\n"),
    (Answer::FaultArm, "fault arm\n"),
    (Answer::Listener(1), "listener 1\n"),
    (Answer::NoListener, "no listener\n"),
    (Answer::Dropped, "dropped\n"),
    (Answer::Timer(20), "timer 20\n"),
    (Answer::NoTimer, "no timer\n"),
    (Answer::Set, "set\n"),
    (Answer::Ended, "ended\n"),
    (Answer::Noted, "noted\n"),
    (
        Answer::Begin {
            number: 1,
            limit: None,
        },
        "begin 1 wait none\n",
    ),
    (
        Answer::Begin {
            number: 2,
            limit: Some(0),
        },
        "begin 2 wait 0\n",
    ),
    (Answer::Locked, "locked\n"),
    (Answer::Given(1024), "given 1024\n"),
    (Answer::Interrupted, "interrupted\n"),
    (Answer::FaultWait, "fault wait\n"),
    (Answer::NoRound, "no round\n"),
    (Answer::Events(3), "events 3\n"),
    (HANDLED, "handled 7\n"),
    (HANDLED_WITH_A_FAULT, "handled 7 fault arm\n"),
    (Answer::Empty, "empty\n"),
    (Answer::End(EndWord::Clean), "end ok\n"),
    (Answer::End(EndWord::FaultWait), "end fault wait\n"),
    (Answer::End(EndWord::FaultArm), "end fault arm\n"),
    (CLEAN_ROUND, "round 1 events 2 ok\n"),
    (ROUND_WITHOUT_A_WAIT, "round 1 events 2 fault wait\n"),
    (ROUND_WITHOUT_AN_ARM, "round 1 events 2 fault arm\n"),
    (Answer::Wake(Waker(4_294_967_295)), "wake 4294967295\n"),
];

/// Asserts that an answer is written as this line, behind another one.
fn answers(rt: &impl Abort, alloc: Global, answer: &Answer, line: &str) {
    let mut out = b"noted\n".to_vec(alloc).expect(rt, MEMORY);
    write_answer(answer, &mut out).expect(rt, MEMORY);
    same(rt, out.strip_prefix(b"noted\n"), Some(line.as_bytes()));
}

/// Asserts that each of these answers is written as its line.
fn answers_each(rt: &impl Abort, alloc: Global, rows: &[(Answer, &str)]) {
    for (answer, line) in rows {
        answers(rt, alloc, answer, line);
    }
}

#[test]
fn each_answer_is_written(rt: HostRuntime) {
    answers_each(&rt, rt.alloc(), &ANSWERS);
}

#[test]
fn each_answer_with_a_moment_is_written(rt: HostRuntime) {
    let alloc = rt.alloc();
    let last = moment(&rt, LONGEST);
    answers(
        &rt,
        alloc,
        &Answer::ReadyAt(last),
        "ready 1000000000000000000\n",
    );
    answers(&rt, alloc, &Answer::At(last), "at 1000000000000000000\n");
    answers(
        &rt,
        alloc,
        &Answer::Back(last),
        "back 1000000000000000000\n",
    );
}

/// Writes an answer with its wakes, of which none are left then.
fn reply(rt: &impl Abort, answer: Answer, wakes: &mut Vec<Waker>, out: &mut Vec<u8>) {
    write_reply(answer, wakes, out).expect(rt, MEMORY);
    same(rt, wakes.len(), 0);
}

/// The wakes of the second of two replies.
const THREE_WAKES: &[Waker] = &[Waker(2), Waker(0), Waker(4_294_967_295)];

/// What the two replies come to.
const REPLIES: &str = "noted\nround 1 events 2 fault arm\nwake 2\nwake 0\nwake 4294967295\n";

#[test]
fn replies_follow_what_was_written(rt: HostRuntime) {
    let mut out = Vec::new(rt.alloc());
    reply(&rt, Answer::Noted, &mut Vec::new(rt.alloc()), &mut out);
    let mut wakes = THREE_WAKES.to_vec(rt.alloc()).expect(&rt, MEMORY);
    reply(&rt, ROUND_WITHOUT_AN_ARM, &mut wakes, &mut out);
    same(&rt, out.as_slice(), REPLIES.as_bytes());
}

/// The two steps of seed 0, as lines.
const TWO_STEPS: &[&str] = &["add", "event 6 w"];

/// The first steps of seed 1, as lines.
const MORE_STEPS: &[&str] = &[
    "event 5 w",
    "poll 6 w 36",
    "add",
    "poll 2 w 27",
    "event 2 rw",
    "new 4 w",
    "new 1 r",
    "event 4 r",
    "poll 7 w 40",
    "poll 0 r 30",
    "end 1",
    "end 1",
    "add",
    "react",
    "poll 5 w 39",
    "react",
    "new 7 r",
    "poll 7 w 37",
    "drop 3",
    "react",
    "event 5 w",
    "react",
    "event 7 r",
    "poll 6 w 62",
];

/// Asserts that there are the steps of these lines, and no others.
fn gives(rt: &impl Abort, steps: &mut Steps, lines: &[&str]) {
    for line in lines {
        same_in(rt, *line, steps.next(), read_line(line.as_bytes()).ok());
    }
    same(rt, steps.next(), None);
}

#[test]
fn a_seed_gives_its_steps(rt: HostRuntime) {
    gives(&rt, &mut gen_steps(2, 0), TWO_STEPS);
    gives(&rt, &mut gen_steps(24, 1), MORE_STEPS);
}
