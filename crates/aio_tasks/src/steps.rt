//! What the lines of the second version read as, and their faults.

use crate::names::Name;
use aio_base::{LineFault, Step, Waker};

/// One step of a run with tasks.
#[derive(Clone, Copy, Debug, PartialEq, Eq)]
pub enum Step2 {
    /// A step as the first version has it, which may also name urgent readiness.
    Plain(Step),
    /// A poll of a source, of a listener or of a timer for the task of this name; its own waker is 0.
    Named(Step, Name),
    /// `task NAME W`: the waker is called by this name from now on.
    Task(Name, Waker),
}

/// What one line of the second version says.
#[derive(Clone, Copy, Debug, PartialEq, Eq)]
pub enum Line2 {
    /// A step.
    Step(Step2),
    /// `repeat N`: the next line is a step, and runs so often, 1 to 100,000 times.
    Repeat(u32),
}

/// Whom a word in a waker's place stands for.
#[derive(Clone, Copy, Debug, PartialEq, Eq)]
pub enum Who {
    /// The waker of this number.
    Numbered(u32),
    /// The waker of this name.
    Called(Name),
}

/// What is wrong with a line that the second version does not have.
#[derive(Clone, Copy, Debug, PartialEq, Eq)]
pub enum LineFault2 {
    /// `long`: more than 256 bytes.
    Long,
    /// `byte`: a byte that may not stand where it does.
    Byte,
    /// `empty`: no word.
    Empty,
    /// `command`: the first word is no command.
    Command,
    /// `count`: a word is missing, or one too many.
    Count,
    /// `number`: a word that should be a number is none, or is out of range.
    Number,
    /// `direction`: a word that should be `r`, `w` or `p` is none of them.
    Direction,
    /// `flags`: a word that should be the directions of an event is none of the eight.
    Flags,
    /// `choice`: the word behind `timer`, `set N` or `fault` is none of those that may stand there.
    Choice,
    /// `name`: a word that should be a name is none.
    Name,
}

impl From<LineFault> for LineFault2 {
    ghost use Rattle.std.specs.Prelude.{◌≡◌};
    ghost use Rattle.aio_tasks.specs.Lines2.{wide};

    ghost from_gives = { λ fault wider. wider ≡ wide fault };

    /// What the fault is called in the second version.
    #[inline]
    fn from(fault: LineFault) -> LineFault2 {
        match fault {
            LineFault::Long => LineFault2::Long,
            LineFault::Byte => LineFault2::Byte,
            LineFault::Empty => LineFault2::Empty,
            LineFault::Command => LineFault2::Command,
            LineFault::Count => LineFault2::Count,
            LineFault::Number => LineFault2::Number,
            LineFault::Direction => LineFault2::Direction,
            LineFault::Flags => LineFault2::Flags,
            LineFault::Choice => LineFault2::Choice,
        }
    }
}
