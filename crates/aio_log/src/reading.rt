//! What a line of a log is. A step or an event is read as in a trace, written again and compared with the
//! line; an answer is written and compared. So no line is read by rules of a log's own.

ghost use Rattle.std.specs.Prelude.{◌≡◌, ℕ, ◌≤◌, ◌++◌, List, IfOk, IfSome, OnOk, Some, None, if◌then◌else◌};
ghost use Rattle.std.specs.Prelude.{bytes_eq, codes, decimal, drop, false};
ghost use Rattle.aio_base.specs.Lines.{IsInRange, NamesNoPriority, written_line};
ghost use Rattle.aio_base.specs.Text.{answer_line, ended_line};
ghost use Rattle.aio_base.specs.World.{Fails, Succeeds};
ghost use Rattle.aio_log.specs.Calls.{poller_answer};
ghost use Rattle.aio_log.specs.Entries.{has_entry, log_header};
ghost use Rattle.std.specs.Result.{result_ok};
ghost use Rattle.aio_log.specs.Places.{event_of, given_in, noted_in, poller_told, step_of};

use aio_base::{Answer, Event, LineFault, OutOfMemory, Step};
use aio_trace::read_line;
use aio_writing::{write_answer, write_line};

/// The most events that one wait may give.
const WAIT_ROOM: u32 = 1024;

/// How the one call on the poller ended, by the line of the step's answer. Of the events that a wait gave
/// the lines behind tell.
#[derive(Clone, Copy, Debug, PartialEq, Eq)]
pub enum CallTold {
    /// It was done, or no call was made.
    Done,
    /// It failed.
    Failed,
    /// It was a wait, and was interrupted.
    Interrupted,
}

/// Whether a line is the header of a log. It takes no memory.
pub fn is_log_header(line: &[u8]) -> bool
    ensures { result ≡ bytes_eq line.now log_header }
{
    line == b"log 1".as_slice()
}

/// Whether a log has an entry of a step.
pub fn has_entry(step: &Step) -> bool
    ensures { result ≡ has_entry step.now }
{
    match step {
        Step::Note(_) => false,
        Step::Fault(_) => false,
        Step::Interrupt => false,
        Step::React => false,
        _ => true,
    }
}

/// The step that a line is, if it is the one spelling of a step that has an entry. The text in `room` is
/// lost.
///
/// # Errors
///
/// `OutOfMemory` where `room` could not be grown.
pub fn step_of(line: &[u8], room: &mut Vec<u8>) -> Result<Option<Step>, OutOfMemory>
    ensures step { IfOk result (λ step. step ≡ step_of line.now) }
    ensures range { IfOk result (λ step. IfSome step IsInRange) }
{
    let Ok(step) = read_line(line) else {
        return Ok(None);
    };
    if !has_entry(&step) {
        return Ok(None);
    }
    match is_step(line, &step, room) {
        Ok(true) => Ok(Some(step)),
        Ok(false) => Ok(None),
        Err(error) => Err(error),
    }
}

/// Whether a line is the one spelling of this step.
fn is_step(line: &[u8], step: &Step, room: &mut Vec<u8>) -> Result<bool, OutOfMemory>
    requires range { IsInRange step.now }
    requires names { NamesNoPriority step.now }
    ensures { IfOk result (λ same. same ≡ bytes_eq line.now (written_line step.now)) }
{
    room.clear();
    match write_line(step, room) {
        Ok(()) => Ok(is_ended(room.as_slice(), line)),
        Err(error) => Err(error),
    }
}

/// Whether a line is the one of this answer. The text in `room` is lost.
///
/// # Errors
///
/// `OutOfMemory` where `room` could not be grown.
pub fn is_answer(line: &[u8], answer: &Answer, room: &mut Vec<u8>) -> Result<bool, OutOfMemory>
    ensures { IfOk result (λ same. same ≡ bytes_eq line.now (answer_line answer.now)) }
{
    room.clear();
    match write_answer(answer, room) {
        Ok(()) => Ok(is_ended(room.as_slice(), line)),
        Err(error) => Err(error),
    }
}

/// Whether a text is a line with its line feed.
fn is_ended(text: &[u8], line: &[u8]) -> bool
    ensures { (written : List ℕ) → text.now ≡ ended_line written → result ≡ bytes_eq line.now written }
{
    match text {
        [front @ .., _] => line == front,
        [] => false,
    }
}

/// How many events a line says that a wait gave, if it says `given` and as many as one wait may give. The
/// text in `room` is lost.
///
/// # Errors
///
/// `OutOfMemory` where `room` could not be grown.
pub fn given_in(line: &[u8], room: &mut Vec<u8>) -> Result<Option<u32>, OutOfMemory>
    ensures { IfOk result (λ count. count ≡ given_in line.now) }
{
    let Some(digits) = line.strip_prefix(b"given ".as_slice()) else {
        return Ok(None);
    };
    let Some(count) = number_in(digits) else {
        return Ok(None);
    };
    if count > WAIT_ROOM {
        return Ok(None);
    }
    match is_answer(line, &Answer::Given(count), room) {
        Ok(true) => Ok(Some(count)),
        Ok(false) => Ok(None),
        Err(error) => Err(error),
    }
}

/// The number that digits spell, in its one spelling at least.
fn number_in(digits: &[u8]) -> Option<u32>
    ensures { (n : ℕ) → n ≤ 1024 → digits.now ≡ decimal n → result ≡ Some n }
{
    let Ok(digits) = str::from_utf8(digits) else {
        return None;
    };
    digits.parse::<u32>().ok()
}

/// The event that a line is, if it is the one spelling of an event that a wait gave. The text in `room`
/// is lost.
///
/// # Errors
///
/// `OutOfMemory` where `room` could not be grown.
pub fn event_of(line: &[u8], room: &mut Vec<u8>) -> Result<Option<Event>, OutOfMemory>
    ensures { IfOk result (λ event. event ≡ event_of line.now) }
{
    let Some(places) = line.strip_prefix(b"got".as_slice()) else {
        return Ok(None);
    };
    match put_event(places, room) {
        Ok(()) => {}
        Err(error) => return Err(error),
    }
    let Some(event) = noted_in(read_line(room.as_slice())) else {
        return Ok(None);
    };
    match is_event(places, event, room) {
        Ok(true) => Ok(Some(event)),
        Ok(false) => Ok(None),
        Err(error) => Err(error),
    }
}

/// The event of an `event` step, where that was read.
fn noted_in(read: Result<Step, LineFault>) -> Option<Event>
    ensures { result ≡ noted_in (result_ok read) }
{
    match read {
        Ok(Step::Note(event)) => Some(event),
        _ => None,
    }
}

/// Puts the line of an `event` step with these places into `room`.
fn put_event(places: &[u8], room: &mut Vec<u8>) -> Result<(), OutOfMemory>
    ensures { OnOk result (room.new.items ≡ codes "event" ++ places.now) }
{
    room.clear();
    room.extend_from_slice(b"event")?;
    room.extend_from_slice(places)?;
    Ok(())
}

/// Whether these are the places of an event, as they are written.
fn is_event(places: &[u8], event: Event, room: &mut Vec<u8>) -> Result<bool, OutOfMemory>
    requires { event.on.priority ≡ false }
    ensures { IfOk result (λ same. same
        ≡ bytes_eq places.now (drop 5 (written_line (Step.Note event)))) }
{
    room.clear();
    match write_line(&Step::Note(event), room) {
        Ok(()) => Ok(is_behind_event(room.as_slice(), places)),
        Err(error) => Err(error),
    }
}

/// Whether a text is the word `event`, and then these bytes and a line feed.
fn is_behind_event(text: &[u8], places: &[u8]) -> bool
    ensures { (written : List ℕ) → text.now ≡ ended_line written
        → written ≡ codes "event" ++ drop 5 written → result ≡ bytes_eq places.now (drop 5 written) }
{
    match text.strip_prefix(b"event".as_slice()) {
        Some(behind) => is_ended(behind, places),
        None => false,
    }
}

/// What the poller answered to the one call of a step, by the line of the step's answer.
pub fn call_told(step: &Step, line: &[u8]) -> CallTold
    ensures { poller_answer result ≡ poller_told step.now line.now }
{
    match step {
        Step::Handle => failed_where(line.ends_with(b" fault arm".as_slice())),
        Step::Wait => wait_told(line),
        _ => failed_where(line.starts_with(b"fault ".as_slice())),
    }
}

/// The same of a wait.
fn wait_told(line: &[u8]) -> CallTold
    ensures { poller_answer result ≡ poller_told Step.Wait line.now }
{
    if line.starts_with(b"fault ".as_slice()) {
        return CallTold::Failed;
    }
    if line == b"interrupted".as_slice() {
        return CallTold::Interrupted;
    }
    CallTold::Done
}

/// A call that failed, or not.
fn failed_where(failed: bool) -> CallTold
    ensures { poller_answer result ≡ (if failed then Fails else Succeeds) }
{
    if failed {
        CallTold::Failed
    } else {
        CallTold::Done
    }
}
