//! The places of a line of any version: each is read from the front of what is left of the line.

ghost use Rattle.std.specs.Prelude.{◌≡◌, ◌≤◌, ◌^◌, Ok, Err, IfOk, MatchResult};
ghost use Rattle.aio_base.specs.Lines.{ADirection, ALimit, AMoment, ANumber, APeriod, SomeFlags, ended, read, take_value, waker_rest, words_in};
ghost use Rattle.aio_base.specs.declared.steps.Step.{Step};

use crate::dialect::{Dialect, word_is};
use crate::words::{has_ended, next_number, next_word};
use aio_base::{Dir, Interest, LineFault, Moment, Step};

/// The last moment, in nanoseconds.
const LAST_MOMENT: u64 = 1_000_000_000_000_000_000;

/// The key, listener or timer that a text's first word spells, and what follows it.
pub(crate) fn take_number<D: Dialect>(text: &[u8]) -> Result<(u32, &[u8]), D::Fault>
    ensures { MatchResult result
        (λ r. take_value D.table ANumber (words_in text.now) ≡ Ok (r.0, words_in r.1.now))
        (λ f. take_value D.table ANumber (words_in text.now) ≡ Err f) }
{
    match next_number(text, u64::from(u32::MAX)) {
        Ok((number, rest)) => Ok((number as u32, rest)),
        Err(fault) => Err(D::fault(fault)),
    }
}

/// The nanoseconds of a moment that a text's first word spells, and what follows it.
pub(crate) fn take_moment<D: Dialect>(text: &[u8]) -> Result<(u64, &[u8]), D::Fault>
    ensures taken { MatchResult result
        (λ r. take_value D.table AMoment (words_in text.now) ≡ Ok (r.0, words_in r.1.now))
        (λ f. take_value D.table AMoment (words_in text.now) ≡ Err f) }
    ensures bound { IfOk result (λ r. r.0 ≤ 10 ^ 18) }
{
    match next_number(text, LAST_MOMENT) {
        Ok(taken) => Ok(taken),
        Err(fault) => Err(D::fault(fault)),
    }
}

/// The moment of so many nanoseconds.
pub(crate) fn moment_at(nanoseconds: u64) -> Moment
    requires { nanoseconds ≤ 10 ^ 18 }
    ensures { result ≡ nanoseconds }
{
    match Moment::new(nanoseconds) {
        Some(moment) => moment,
        None => unreachable!(),
    }
}

/// The period in nanoseconds that a text's first word spells, and what follows it.
pub(crate) fn take_period<D: Dialect>(text: &[u8]) -> Result<(u64, &[u8]), D::Fault>
    ensures { MatchResult result
        (λ r. take_value D.table APeriod (words_in text.now) ≡ Ok (r.0, words_in r.1.now))
        (λ f. take_value D.table APeriod (words_in text.now) ≡ Err f) }
{
    let (period, rest) = match next_number(text, LAST_MOMENT) {
        Ok(taken) => taken,
        Err(fault) => return Err(D::fault(fault)),
    };
    if period == 0 {
        return Err(D::fault(LineFault::Number));
    }
    Ok((period, rest))
}

/// The limit in nanoseconds that a text's first word names, or none, and what follows it.
pub(crate) fn take_limit<D: Dialect>(text: &[u8]) -> Result<(Option<u64>, &[u8]), D::Fault>
    ensures { MatchResult result
        (λ r. take_value D.table ALimit (words_in text.now) ≡ Ok (r.0, words_in r.1.now))
        (λ f. take_value D.table ALimit (words_in text.now) ≡ Err f) }
{
    let Some((word, rest)) = next_word(text) else {
        return Err(D::fault(LineFault::Count));
    };
    if word_is(word, b"none") {
        return Ok((None, rest));
    }
    match next_number(text, LAST_MOMENT) {
        Ok((limit, rest)) => Ok((Some(limit), rest)),
        Err(fault) => Err(D::fault(fault)),
    }
}

/// The direction that a text's first word names, and what follows it.
pub(crate) fn take_direction<D: Dialect>(text: &[u8]) -> Result<(Dir, &[u8]), D::Fault>
    ensures { MatchResult result
        (λ r. take_value D.table ADirection (words_in text.now) ≡ Ok (r.0, words_in r.1.now))
        (λ f. take_value D.table ADirection (words_in text.now) ≡ Err f) }
{
    let Some((word, rest)) = next_word(text) else {
        return Err(D::fault(LineFault::Count));
    };
    match D::direction(word) {
        Ok(direction) => Ok((direction, rest)),
        Err(fault) => Err(fault),
    }
}

/// The directions of an event that a text's first word names, and what follows it.
pub(crate) fn take_flags<D: Dialect>(text: &[u8]) -> Result<(Interest, &[u8]), D::Fault>
    ensures { MatchResult result
        (λ r. take_value D.table SomeFlags (words_in text.now) ≡ Ok (r.0, words_in r.1.now))
        (λ f. take_value D.table SomeFlags (words_in text.now) ≡ Err f) }
{
    let Some((word, rest)) = next_word(text) else {
        return Err(D::fault(LineFault::Count));
    };
    match D::flags(word) {
        Ok(on) => Ok((on, rest)),
        Err(fault) => Err(fault),
    }
}

/// The line of a step, behind which no word may follow.
pub(crate) fn end<D: Dialect>(step: Step, text: &[u8]) -> Result<D::Line, D::Fault>
    ensures { result ≡ ended D.table (D.table.line step) (words_in text.now) }
{
    if has_ended(text) {
        Ok(D::line(step))
    } else {
        Err(D::fault(LineFault::Count))
    }
}

/// The line of a step with a waker, which is the last word, in place of its own.
#[inline(always)]
pub(crate) fn end_with_waker<D: Dialect>(step: Step, text: &[u8]) -> Result<D::Line, D::Fault>
    ensures { result ≡ read D.table (waker_rest D.table step) (words_in text.now) }
{
    let (waker, rest) = match D::take_waker(text) {
        Ok(taken) => taken,
        Err(fault) => return Err(fault),
    };
    if has_ended(rest) {
        Ok(D::waking(waker, step))
    } else {
        Err(D::fault(LineFault::Count))
    }
}
