//! Steps of the language: whether a line can spell a step, and a line that is written and read back.

ghost use Rattle.std.specs.Prelude.{◌≡◌, ◌↔◌, IsTrue, IfOk, Ok};
ghost use Rattle.std.specs.Bool.{OnTrue};
ghost use Rattle.aio_base.specs.Lines.{HasSpelling, IsInRange, NamesNoPriority};

use aio_base::{Dir, LineFault, OutOfMemory, Step};
use aio_trace::laws::a_written_line_reads_as_its_step_alone;
use aio_trace::read_line;
use aio_writing::write_line;
use std::alloc::Global;

/// The longest limit of a wait and the longest period, in nanoseconds.
const LONGEST: u64 = 1_000_000_000_000_000_000;

/// Whether `write_line` takes a step.
pub(crate) fn can_be_written(step: &Step) -> bool
    ensures range { OnTrue result (IsInRange step.now) }
    ensures names { OnTrue result (NamesNoPriority step.now) }
{
    is_in_range(step) && names_no_priority(step)
}

/// Whether the period or the limit of a step, if it has one, is one that a line can spell.
fn is_in_range(step: &Step) -> bool
    ensures { IsTrue result ↔ IsInRange step.now }
{
    match *step {
        Step::TimerEvery(_, period) | Step::SetEvery(_, _, period) => {
            period >= 1 && period <= LONGEST
        }
        Step::Begin(Some(limit)) => limit <= LONGEST,
        _ => true,
    }
}

/// Whether no direction of a step is Priority, for which a line has no word.
fn names_no_priority(step: &Step) -> bool
    ensures { IsTrue result ↔ NamesNoPriority step.now }
{
    match *step {
        Step::Poll(_, Dir::Priority, _) | Step::New(_, Dir::Priority) => false,
        Step::Note(event) => !event.on.priority,
        _ => true,
    }
}

/// Writes the line of a step and reads it, without its line feed: it reads as the step.
///
/// # Errors
///
/// `OutOfMemory` where there is no memory for the line.
pub(crate) fn read_back(alloc: Global, step: &Step) -> Result<Result<Step, LineFault>, OutOfMemory>
    requires range { IsInRange step.now }
    requires names { NamesNoPriority step.now }
    ensures { HasSpelling step.now → IfOk result (λ read. read ≡ Ok step.now) }
{
    let mut line = Vec::new(alloc);
    match write_line(step, &mut line) {
        Ok(()) => {}
        Err(refusal) => return Err(refusal),
    }
    let _line_feed = line.pop();
    a_written_line_reads_as_its_step_alone();
    Ok(read_line(line.as_slice()))
}
