//! The lines of steps.

ghost use Rattle.std.specs.Prelude.{◌≡◌, ◌++◌, [], ◌∷◌, codes, decimal};
ghost use Rattle.aio_base.specs.Lines.{IsInRange, written_line};
ghost use Rattle.aio_base.specs.Text.{dir_text, ended_line, flags_text, limit_text, which_text};
ghost use Rattle.aio_writing.specs.Writing.{Pushes};

use crate::writing::{push_before, push_numbered};
use aio_base::{Dir, Event, Key, Moment, Step, Waker, Which};
use std::alloc::AllocError;

/// Writes a step's line, with its line feed; `AllocError` where memory runs out, maybe behind a part of
/// it.
#[tactic(auto, unfolding(aio_base::specs::Lines::written_line))]
pub fn push_step(step: &Step, out: &mut Vec<u8>) -> Result<(), AllocError>
    requires { IsInRange step.now }
    ensures pushes { Pushes out.old out.new (ended_line (written_line step.now)) result }
{
    match *step {
        Step::Add => out.extend_from_slice(b"add\n"),
        Step::Del(key) => push_numbered(out, b"del ", u64::from(key.0)),
        Step::Poll(key, direction, waker) => push_poll(out, key, direction, waker),
        Step::New(key, direction) => push_new(out, key, direction),
        Step::StepEar(listener, waker) => {
            push_two(out, b"step ", u64::from(listener), u64::from(waker.0))
        }
        Step::DropEar(listener) => push_numbered(out, b"drop ", u64::from(listener)),
        Step::TimerAt(deadline) => push_numbered(out, b"timer at ", deadline.get()),
        Step::TimerEvery(deadline, period) => {
            push_two(out, b"timer every ", deadline.get(), period)
        }
        Step::TimerNever => out.extend_from_slice(b"timer never\n"),
        Step::Tick(timer, waker) => push_two(out, b"tick ", u64::from(timer), u64::from(waker.0)),
        Step::SetAt(timer, deadline) => push_set_at(out, timer, deadline),
        Step::SetEvery(timer, deadline, period) => push_set_every(out, timer, deadline, period),
        Step::End(timer) => push_numbered(out, b"end ", u64::from(timer)),
        Step::Now(moment) => push_numbered(out, b"now ", moment.get()),
        Step::Note(event) => push_event(out, event),
        Step::Fault(kind) => push_fault(out, kind),
        Step::Begin(limit) => push_begin_step(out, limit),
        Step::Interrupt => out.extend_from_slice(b"interrupt\n"),
        Step::Wait => out.extend_from_slice(b"wait\n"),
        Step::Handle => out.extend_from_slice(b"handle\n"),
        Step::Finish => out.extend_from_slice(b"finish\n"),
        Step::React => out.extend_from_slice(b"react\n"),
    }
}

/// Writes the line of a poll of a source.
fn push_poll(out: &mut Vec<u8>, key: Key, direction: Dir, waker: Waker) -> Result<(), AllocError>
    ensures pushes { Pushes out.old out.new (ended_line (codes "poll " ++ decimal key.0 ++ codes " "
        ++ dir_text direction ++ codes " " ++ decimal waker.0)) result }
{
    match push_before(out, b"poll ", u64::from(key.0)) {
        Ok(()) => push_poller(out, direction, waker),
        Err(error) => Err(error),
    }
}

/// Writes the end of the line of a poll: its direction and its waker.
fn push_poller(out: &mut Vec<u8>, direction: Dir, waker: Waker) -> Result<(), AllocError>
    ensures pushes { Pushes out.old out.new (ended_line (codes " " ++ dir_text direction
        ++ codes " " ++ decimal waker.0)) result }
{
    push_numbered(out, &[b' ', letter(direction), b' '], u64::from(waker.0))
}

/// The letter of a direction.
fn letter(direction: Dir) -> u8
    ensures { dir_text direction ≡ result ∷ [] }
{
    match direction {
        Dir::Read => b'r',
        Dir::Write => b'w',
        Dir::Priority => b'p',
    }
}

/// Writes the line of a new listener.
fn push_new(out: &mut Vec<u8>, key: Key, direction: Dir) -> Result<(), AllocError>
    ensures pushes { Pushes out.old out.new (ended_line (codes "new " ++ decimal key.0 ++ codes " "
        ++ dir_text direction)) result }
{
    match push_before(out, b"new ", u64::from(key.0)) {
        Ok(()) => {}
        Err(error) => return Err(error),
    }
    out.extend_from_slice(&[b' ', letter(direction), b'\n'])
}

/// Writes a line of words and two numbers.
fn push_two(out: &mut Vec<u8>, words: &[u8], first: u64, second: u64) -> Result<(), AllocError>
    ensures pushes { Pushes out.old out.new (ended_line (words.now ++ decimal first ++ codes " "
        ++ decimal second)) result }
{
    match push_before(out, words, first) {
        Ok(()) => push_numbered(out, b" ", second),
        Err(error) => Err(error),
    }
}

/// Writes the line that sets a timer to a deadline.
fn push_set_at(out: &mut Vec<u8>, timer: u32, deadline: Moment) -> Result<(), AllocError>
    ensures pushes { Pushes out.old out.new (ended_line (codes "set " ++ decimal timer
        ++ codes " at " ++ decimal deadline)) result }
{
    match push_before(out, b"set ", u64::from(timer)) {
        Ok(()) => push_numbered(out, b" at ", deadline.get()),
        Err(error) => Err(error),
    }
}

/// Writes the line that sets a timer to a deadline and a period.
fn push_set_every(
    out: &mut Vec<u8>,
    timer: u32,
    deadline: Moment,
    period: u64,
) -> Result<(), AllocError>
    ensures pushes { Pushes out.old out.new (ended_line (codes "set " ++ decimal timer
        ++ codes " every " ++ decimal deadline ++ codes " " ++ decimal period)) result }
{
    match push_before(out, b"set ", u64::from(timer)) {
        Ok(()) => push_two(out, b" every ", deadline.get(), period),
        Err(error) => Err(error),
    }
}

/// Writes the line of an event.
fn push_event(out: &mut Vec<u8>, event: Event) -> Result<(), AllocError>
    ensures pushes { Pushes out.old out.new (ended_line (codes "event " ++ decimal event.key.0
        ++ codes " " ++ flags_text event.on)) result }
{
    match push_before(out, b"event ", u64::from(event.key.0)) {
        Ok(()) => {}
        Err(error) => return Err(error),
    }
    out.extend_from_slice(match (event.on.read, event.on.write) {
        (false, false) => b" -\n".as_slice(),
        (true, false) => b" r\n",
        (false, true) => b" w\n",
        (true, true) => b" rw\n",
    })
}

/// Writes the line of a fault.
fn push_fault(out: &mut Vec<u8>, kind: Which) -> Result<(), AllocError>
    ensures pushes { Pushes out.old out.new (ended_line (codes "fault "
        ++ which_text kind)) result }
{
    out.extend_from_slice(match kind {
        Which::Add => b"fault add\n".as_slice(),
        Which::Arm => b"fault arm\n",
        Which::Remove => b"fault remove\n",
        Which::Wait => b"fault wait\n",
    })
}

/// Writes the line that begins a round.
fn push_begin_step(out: &mut Vec<u8>, limit: Option<u64>) -> Result<(), AllocError>
    ensures pushes { Pushes out.old out.new (ended_line (codes "begin "
        ++ limit_text limit)) result }
{
    match limit {
        None => out.extend_from_slice(b"begin none\n"),
        Some(limit) => push_numbered(out, b"begin ", limit),
    }
}
