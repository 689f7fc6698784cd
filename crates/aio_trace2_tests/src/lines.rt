//! Names, and the lines of the second version one by one, both ways.

ghost use Rattle.std.specs.Prelude.{◌≡◌, ◌↔◌, IsTrue};
ghost use Rattle.std.specs.Bool.{OnTrue};
ghost use Rattle.aio_base.specs.Lines.{IsInRange};
ghost use Rattle.aio_tasks.specs.Lines2.{IsInRange2, IsWaking};

use crate::asserts::{MEMORY, same, same_in};
use aio_base::{Dir, Event, Interest, Key, Step, Waker};
use aio_tasks::{Line2, LineFault2, Name, Step2};
use aio_trace2::{read_line2, write_line2};
use std::alloc::Global;
use std::process::Abort;

/// The longest limit of a wait and the longest period, in nanoseconds.
const LONGEST: u64 = 1_000_000_000_000_000_000;

/// Bytes, and whether they are a name.
const NAMES: [(&str, bool); 11] = [
    ("a", true),
    ("z9", true),
    ("abcdefghij123456", true),
    ("repeat", true),
    ("", false),
    ("abcdefghij1234567", false),
    ("7a", false),
    ("Web", false),
    ("wEb", false),
    ("a-b", false),
    ("a ", false),
];

#[test]
fn names_are_letters_and_then_digits_too(rt: HostRuntime) {
    for (bytes, is_name) in &NAMES {
        same_in(&rt, *bytes, Name::new(bytes.as_bytes()).is_some(), *is_name);
    }
}

/// The name of these letters.
fn name(rt: &impl Abort, letters: &str) -> Name {
    Name::new(letters.as_bytes()).expect(rt, "the letters are a name")
}

#[test]
fn a_name_has_the_bytes_that_it_was_made_of(rt: HostRuntime) {
    same(&rt, name(&rt, "web2").as_bytes(), b"web2".as_slice());
}

/// Whether `write_line2` takes a line.
fn can_be_written(line: &Line2) -> bool
    ensures { OnTrue result (IsInRange2 line.now) }
{
    match *line {
        Line2::Step(Step2::Plain(step)) => is_in_range(&step),
        Line2::Step(Step2::Named(step, _)) => is_waking(&step),
        Line2::Step(Step2::Task(_, _)) => true,
        Line2::Repeat(times) => times >= 1 && times <= 100_000,
    }
}

/// Whether the period or the limit of a step, if it has one, is one that a line can spell.
fn is_in_range(step: &Step) -> bool
    ensures { IsTrue result ↔ IsInRange step.now }
{
    match *step {
        Step::TimerEvery(_, period) | Step::SetEvery(_, _, period) => {
            period >= 1 && period <= LONGEST
        }
        Step::Begin(Some(limit)) => limit <= LONGEST,
        _ => true,
    }
}

/// Whether a step is a poll for the task of a name.
fn is_waking(step: &Step) -> bool
    ensures { OnTrue result (IsWaking step.now) }
{
    match *step {
        Step::Poll(_, _, waker) | Step::StepEar(_, waker) | Step::Tick(_, waker) => waker.0 == 0,
        _ => false,
    }
}

/// Asserts that a line is written so, with a line feed.
fn is_written(rt: &impl Abort, alloc: Global, line: &str, read: &Line2) {
    let has_one = can_be_written(read);
    same_in(rt, line, has_one, true);
    assert!(rt; has_one);
    let mut out = Vec::new(alloc);
    write_line2(read, &mut out).expect(rt, MEMORY);
    same(rt, out.split_last(), Some((&b'\n', line.as_bytes())));
}

/// Asserts that a line reads as this, and that it is its one spelling.
fn spells(rt: &impl Abort, alloc: Global, line: &str, wanted: Line2) {
    same_in(rt, line, read_line2(line.as_bytes()), Ok(wanted));
    is_written(rt, alloc, line, &wanted);
}

/// A line with a step of the first version.
fn plain(step: Step) -> Line2 {
    Line2::Step(Step2::Plain(step))
}

/// A poll of source 0.
fn poll(direction: Dir) -> Step {
    Step::Poll(Key(0), direction, Waker(0))
}

#[test]
fn each_poll_with_a_name_reads_so_and_is_written_so(rt: HostRuntime) {
    let alloc = rt.alloc();
    let web = name(&rt, "web");
    let named = |step| Line2::Step(Step2::Named(step, web));
    spells(&rt, alloc, "poll 0 r web", named(poll(Dir::Read)));
    spells(&rt, alloc, "poll 0 w web", named(poll(Dir::Write)));
    spells(&rt, alloc, "poll 0 p web", named(poll(Dir::Priority)));
    spells(&rt, alloc, "step 7 web", named(Step::StepEar(7, Waker(0))));
    spells(&rt, alloc, "tick 7 web", named(Step::Tick(7, Waker(0))));
}

#[test]
fn tasks_and_repeats_read_so_and_are_written_so(rt: HostRuntime) {
    let alloc = rt.alloc();
    let task = Line2::Step(Step2::Task(name(&rt, "a1"), Waker(7)));
    spells(&rt, alloc, "task a1 7", task);
    let add = Line2::Step(Step2::Task(name(&rt, "add"), Waker(4_294_967_295)));
    spells(&rt, alloc, "task add 4294967295", add);
    spells(&rt, alloc, "repeat 1", Line2::Repeat(1));
    spells(&rt, alloc, "repeat 100000", Line2::Repeat(100_000));
}

/// The directions of an event: whether it names reading, writing and urgent readiness.
const FLAGS: [(&str, [bool; 3]); 8] = [
    ("event 9 -", [false, false, false]),
    ("event 9 r", [true, false, false]),
    ("event 9 w", [false, true, false]),
    ("event 9 p", [false, false, true]),
    ("event 9 rw", [true, true, false]),
    ("event 9 rp", [true, false, true]),
    ("event 9 wp", [false, true, true]),
    ("event 9 rwp", [true, true, true]),
];

#[test]
fn events_name_three_directions(rt: HostRuntime) {
    for (line, flags) in &FLAGS {
        let [read, write, priority] = *flags;
        let on = Interest {
            read,
            write,
            priority,
        };
        let event = Event { key: Key(9), on };
        spells(&rt, rt.alloc(), *line, plain(Step::Note(event)));
    }
}

#[test]
fn other_lines_are_those_of_the_first_version(rt: HostRuntime) {
    let alloc = rt.alloc();
    spells(&rt, alloc, "add", plain(Step::Add));
    spells(
        &rt,
        alloc,
        "new 4 p",
        plain(Step::New(Key(4), Dir::Priority)),
    );
    spells(&rt, alloc, "poll 0 p 0", plain(poll(Dir::Priority)));
    spells(&rt, alloc, "begin none", plain(Step::Begin(None)));
    spells(&rt, alloc, "react", plain(Step::React));
}

#[test]
fn a_line_has_many_spellings(rt: HostRuntime) {
    let repeat = Ok(Line2::Repeat(2));
    same(&rt, read_line2(b"\trepeat \t0002 \r"), repeat);
    let task = Ok(Line2::Step(Step2::Task(name(&rt, "a"), Waker(7))));
    same(&rt, read_line2(b" task\ta  00000000007"), task);
}

/// Lines that are none of the second version, and the fault of each.
const FAULTS: [(&str, LineFault2); 34] = [
    ("", LineFault2::Empty),
    ("task a\u{7f} 1", LineFault2::Byte),
    ("trace 2", LineFault2::Command),
    ("tasks a 1", LineFault2::Command),
    ("poll 0 r a-b", LineFault2::Name),
    ("poll 0 r wEb", LineFault2::Name),
    ("poll 0 r abcdefghij1234567", LineFault2::Name),
    ("poll 0 r web-", LineFault2::Name),
    ("poll 0 r Web", LineFault2::Number),
    ("poll 0 r -a", LineFault2::Number),
    ("poll 0 r 7a", LineFault2::Number),
    ("poll 0 r 4294967296", LineFault2::Number),
    ("poll 0 r", LineFault2::Count),
    ("poll 0 r web 1", LineFault2::Count),
    ("poll 0 q web", LineFault2::Direction),
    ("new 0 rp", LineFault2::Direction),
    ("event 0 pr", LineFault2::Flags),
    ("event 0 wrp", LineFault2::Flags),
    ("event 0 pw", LineFault2::Flags),
    ("event x p", LineFault2::Number),
    ("event 0", LineFault2::Count),
    ("event 0 p 1", LineFault2::Count),
    ("task", LineFault2::Count),
    ("task 7 8", LineFault2::Name),
    ("task web", LineFault2::Count),
    ("task web api", LineFault2::Number),
    ("task web 4294967296", LineFault2::Number),
    ("task web 1 2", LineFault2::Count),
    ("repeat", LineFault2::Count),
    ("repeat 0", LineFault2::Number),
    ("repeat 100001", LineFault2::Number),
    ("repeat x", LineFault2::Number),
    ("repeat 2 3", LineFault2::Count),
    ("set n at 5", LineFault2::Number),
];

/// The fault of a line, if it has one.
fn fault_of(line: &[u8]) -> Option<LineFault2> {
    match read_line2(line) {
        Ok(_) => None,
        Err(fault) => Some(fault),
    }
}

#[test]
fn lines_have_their_faults(rt: HostRuntime) {
    for (line, fault) in &FAULTS {
        same_in(&rt, *line, fault_of(line.as_bytes()), Some(*fault));
    }
}

#[test]
fn a_line_of_257_bytes_is_too_long(rt: HostRuntime) {
    let zeros = vec![in rt.alloc(); 0; 257].expect(&rt, MEMORY);
    same(&rt, fault_of(&zeros[..256]), Some(LineFault2::Byte));
    same(&rt, fault_of(zeros.as_slice()), Some(LineFault2::Long));
}
