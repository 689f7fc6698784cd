//! What a version of the language has of its own, and the first version.

ghost use Rattle.std.specs.Prelude.{◌≡◌, bytes_eq};
ghost use Rattle.aio_base.specs.Lines.{with_waker};

use crate::words::next_number;
use aio_base::{Dir, Interest, LineFault, Step, Waker};

/// A version of the language, as its lines are read: what stands in the places in which versions differ,
/// and which lines a version alone has.
pub trait Dialect {
    ghost use Rattle.std.specs.Prelude.{◌≡◌, ◌∷◌, Ok, Err, MatchResult};
    ghost use Rattle.aio_base.specs.Lines.{ADirection, AWaker, SomeFlags, Version, read, take_value, value_of, words_in};

    /// What a line reads as.
    type Line: Drop;

    /// What is wrong with a line that reads as none.
    type Fault: Drop;

    /// What a word in a waker's place stands for.
    type Waker: Drop;

    /// What the version has of its own.
    ghost table: { Version Self.Line Self.Fault Self.Waker };

    /// The waker that a text's first word stands for, and what follows it.
    fn take_waker(text: &[u8]) -> Result<(Self::Waker, &[u8]), Self::Fault>
        ensures { MatchResult result
            (λ r. take_value table AWaker (words_in text.now) ≡ Ok (r.0, words_in r.1.now))
            (λ f. take_value table AWaker (words_in text.now) ≡ Err f) };

    /// The direction that a word names.
    fn direction(word: &[u8]) -> Result<Dir, Self::Fault>
        ensures { result ≡ value_of table ADirection word.now };

    /// The directions of an event that a word names.
    fn flags(word: &[u8]) -> Result<Interest, Self::Fault>
        ensures { result ≡ value_of table SomeFlags word.now };

    /// The line of a step.
    fn line(step: Step) -> Self::Line
        ensures { result ≡ table.line step };

    /// The line of a step with this waker in place of its own.
    fn waking(waker: Self::Waker, step: Step) -> Self::Line
        ensures { result ≡ table.waking waker step };

    /// A fault that each version has.
    fn fault(fault: LineFault) -> Self::Fault
        ensures { result ≡ table.fault fault };

    /// A line whose first word is no command that each version has, read from that word on.
    fn own(word: &[u8], rest: &[u8]) -> Result<Self::Line, Self::Fault>
        ensures { result ≡ read table table.own (word.now ∷ words_in rest.now) };
}

/// The first version, whose lines are the steps.
pub(crate) struct First;

impl Dialect for First {
    ghost use Rattle.aio_base.specs.Lines.{first};

    type Line = Step;

    type Fault = LineFault;

    type Waker = u32;

    ghost table = { first };

    #[inline(always)]
    fn take_waker(text: &[u8]) -> Result<(u32, &[u8]), LineFault> {
        match next_number(text, u64::from(u32::MAX)) {
            Ok((number, rest)) => Ok((number as u32, rest)),
            Err(fault) => Err(fault),
        }
    }

    #[inline]
    fn direction(word: &[u8]) -> Result<Dir, LineFault> {
        if word_is(word, b"r") {
            Ok(Dir::Read)
        } else if word_is(word, b"w") {
            Ok(Dir::Write)
        } else {
            Err(LineFault::Direction)
        }
    }

    #[inline]
    fn flags(word: &[u8]) -> Result<Interest, LineFault> {
        if word_is(word, b"-") {
            Ok(Interest::NONE)
        } else if word_is(word, b"r") {
            Ok(Interest::READ)
        } else if word_is(word, b"w") {
            Ok(Interest::WRITE)
        } else if word_is(word, b"rw") {
            Ok(Interest::READ_WRITE)
        } else {
            Err(LineFault::Flags)
        }
    }

    #[inline]
    fn line(step: Step) -> Step {
        step
    }

    #[inline(always)]
    fn waking(waker: u32, step: Step) -> Step {
        with_waker(step, Waker(waker))
    }

    #[inline]
    fn fault(fault: LineFault) -> LineFault {
        fault
    }

    #[inline]
    fn own(_word: &[u8], _rest: &[u8]) -> Result<Step, LineFault> {
        Err(LineFault::Command)
    }
}

/// A step with this waker in place of its own, where it has one.
#[inline(always)]
pub fn with_waker(step: Step, waker: Waker) -> Step
    ensures { result ≡ with_waker step waker }
{
    match step {
        Step::Poll(key, direction, _) => Step::Poll(key, direction, waker),
        Step::StepEar(listener, _) => Step::StepEar(listener, waker),
        Step::Tick(timer, _) => Step::Tick(timer, waker),
        other => other,
    }
}

/// Whether a word is this text.
#[inline]
pub fn word_is(word: &[u8], text: &[u8]) -> bool
    ensures { result ≡ bytes_eq word.now text.now }
{
    word == text
}
