//! Writing a line of the second version, at the end of a block of output.

ghost use Rattle.std.specs.Prelude.{◌≡◌, ◌++◌, OnErr, OnOk, vec_capacity};
ghost use Rattle.aio_base.specs.Lines.{IsInRange};
ghost use Rattle.aio_base.specs.Text.{ended_line};
ghost use Rattle.aio_writing.specs.Writing.{LacksRoom, Pushes};
ghost use Rattle.aio_tasks.specs.Lines2.{IsInRange2, IsWaking, written_line2};
ghost use Rattle.aio_tasks.specs.declared.steps.Line2.{Line2};
ghost use Rattle.aio_tasks.specs.declared.steps.Step2.{Step2};

use aio_base::{Dir, Event, OutOfMemory, Step, Waker};
use aio_tasks::{Line2, Name, Step2};
use aio_writing::{push_before, push_numbered, push_step};
use std::alloc::AllocError;

/// Puts the one spelling of a line, with its line feed, at the end of a block.
///
/// # Errors
///
/// `OutOfMemory` only where there was no room for the line, and then `out` holds what it held.
pub fn write_line2(line: &Line2, out: &mut Vec<u8>) -> Result<(), OutOfMemory>
    requires { IsInRange2 line.now }
    ensures ok { OnOk result (out.new.items ≡ out.old.items ++ ended_line (written_line2 line.now)) }
    ensures err { OnErr result (out.new.items ≡ out.old.items) }
    ensures full { OnErr result (LacksRoom (vec_capacity out.old) out.old.items
        (ended_line (written_line2 line.now))) }
{
    let written = out.len();
    match push_line2(line, out) {
        Ok(()) => Ok(()),
        Err(_) => {
            out.truncate(written);
            Err(OutOfMemory)
        }
    }
}

/// Writes a line, maybe a part of it where memory runs out.
#[tactic(auto, unfolding(aio_tasks::specs::Lines2::written_line2))]
fn push_line2(line: &Line2, out: &mut Vec<u8>) -> Result<(), AllocError>
    requires { IsInRange2 line.now }
    ensures pushes { Pushes out.old out.new (ended_line (written_line2 line.now)) result }
{
    match *line {
        Line2::Step(Step2::Plain(step)) => push_plain(&step, out),
        Line2::Step(Step2::Named(step, name)) => push_named(&step, &name, out),
        Line2::Step(Step2::Task(name, waker)) => push_task(out, &name, waker),
        Line2::Repeat(times) => push_numbered(out, b"repeat ", u64::from(times)),
    }
}

/// Writes the line of a step: as the first version does, but for an event.
fn push_plain(step: &Step, out: &mut Vec<u8>) -> Result<(), AllocError>
    requires { IsInRange step.now }
    ensures pushes { Pushes out.old out.new
        (ended_line (written_line2 (Line2.Step (Step2.Plain step.now)))) result }
{
    match *step {
        Step::Note(event) => push_event(out, event),
        _ => push_step(step, out),
    }
}

/// Writes the line of an event, with urgent readiness among its directions.
#[tactic(auto, unfolding(aio_tasks::specs::Lines2::written_line2))]
fn push_event(out: &mut Vec<u8>, event: Event) -> Result<(), AllocError>
    ensures pushes { Pushes out.old out.new
        (ended_line (written_line2 (Line2.Step (Step2.Plain (Step.Note event))))) result }
{
    match push_before(out, b"event ", u64::from(event.key.0)) {
        Ok(()) => {}
        Err(error) => return Err(error),
    }
    out.extend_from_slice(match (event.on.read, event.on.write, event.on.priority) {
        (false, false, false) => b" -\n".as_slice(),
        (true, false, false) => b" r\n",
        (false, true, false) => b" w\n",
        (false, false, true) => b" p\n",
        (true, true, false) => b" rw\n",
        (true, false, true) => b" rp\n",
        (false, true, true) => b" wp\n",
        (true, true, true) => b" rwp\n",
    })
}

/// Writes the line of a step of a task with a name.
#[tactic(auto, unfolding(aio_tasks::specs::Lines2::written_line2))]
fn push_named(step: &Step, name: &Name, out: &mut Vec<u8>) -> Result<(), AllocError>
    requires { IsWaking step.now }
    ensures pushes { Pushes out.old out.new
        (ended_line (written_line2 (Line2.Step (Step2.Named step.now name.now)))) result }
{
    match *step {
        Step::Poll(key, Dir::Read, _) => match push_before(out, b"poll ", u64::from(key.0)) {
            Ok(()) => push_name(out, b" r ", name),
            Err(error) => Err(error),
        },
        Step::Poll(key, Dir::Write, _) => match push_before(out, b"poll ", u64::from(key.0)) {
            Ok(()) => push_name(out, b" w ", name),
            Err(error) => Err(error),
        },
        Step::Poll(key, Dir::Priority, _) => match push_before(out, b"poll ", u64::from(key.0)) {
            Ok(()) => push_name(out, b" p ", name),
            Err(error) => Err(error),
        },
        Step::StepEar(listener, _) => match push_before(out, b"step ", u64::from(listener)) {
            Ok(()) => push_name(out, b" ", name),
            Err(error) => Err(error),
        },
        Step::Tick(timer, _) => match push_before(out, b"tick ", u64::from(timer)) {
            Ok(()) => push_name(out, b" ", name),
            Err(error) => Err(error),
        },
        _ => unreachable!(),
    }
}

/// Writes `task NAME W`.
#[tactic(auto, unfolding(aio_tasks::specs::Lines2::written_line2))]
fn push_task(out: &mut Vec<u8>, name: &Name, waker: Waker) -> Result<(), AllocError>
    ensures pushes { Pushes out.old out.new
        (ended_line (written_line2 (Line2.Step (Step2.Task name.now waker)))) result }
{
    match out.extend_from_slice(b"task ") {
        Ok(()) => {}
        Err(error) => return Err(error),
    }
    match out.extend_from_slice(name.as_bytes()) {
        Ok(()) => push_numbered(out, b" ", u64::from(waker.0)),
        Err(error) => Err(error),
    }
}

/// Writes the end of a line that ends with a name: these words, the name, and a line feed.
fn push_name(out: &mut Vec<u8>, words: &[u8], name: &Name) -> Result<(), AllocError>
    ensures pushes { Pushes out.old out.new (ended_line (words.now ++ name.now)) result }
{
    match out.extend_from_slice(words) {
        Ok(()) => {}
        Err(error) => return Err(error),
    }
    match out.extend_from_slice(name.as_bytes()) {
        Ok(()) => out.extend_from_slice(b"\n"),
        Err(error) => Err(error),
    }
}
