//! The lines that the second version reads in its own way, each read behind its command.

ghost use Rattle.std.specs.Prelude.{◌≡◌, Ok, Err, MatchResult};
ghost use Rattle.aio_base.specs.Lines.{ended, words_in};
ghost use Rattle.aio_tasks.specs.Lines2.{event_read, flags_named, many_flags, name_value, named_of, number_value, repeat_read, taken, task_read, times_value, two};

use aio_base::{Event, Interest, Key, Step, Waker};
use aio_tasks::{Line2, LineFault2, Name, Step2};
use aio_trace::{has_ended, next_number, next_word, word_is};

/// The most times that one line may repeat a step.
const REPEAT_LIMIT: u64 = 100_000;

/// A line `event K F`, whose directions are read with urgent readiness.
pub(crate) fn read_event(text: &[u8]) -> Result<Line2, LineFault2>
    ensures { result ≡ event_read (words_in text.now) }
{
    let (key, rest) = match take_number(text) {
        Ok(taken) => taken,
        Err(fault) => return Err(fault),
    };
    let Some((word, rest)) = next_word(rest) else {
        return Err(LineFault2::Count);
    };
    let Some(on) = flags_named(word) else {
        return Err(LineFault2::Flags);
    };
    let event = Event { key: Key(key), on };
    end(Line2::Step(Step2::Plain(Step::Note(event))), rest)
}

/// Which directions of an event a word stands for.
fn flags_named(word: &[u8]) -> Option<Interest>
    ensures { result ≡ flags_named word.now }
{
    if word_is(word, b"-") {
        Some(Interest::NONE)
    } else if word_is(word, b"r") {
        Some(Interest::READ)
    } else if word_is(word, b"w") {
        Some(Interest::WRITE)
    } else if word_is(word, b"p") {
        Some(Interest::PRIORITY)
    } else {
        more_flags_named(word)
    }
}

/// The same of two directions or three.
fn more_flags_named(word: &[u8]) -> Option<Interest>
    ensures { result ≡ named_of many_flags word.now }
{
    if word_is(word, b"rw") {
        Some(Interest::READ_WRITE)
    } else if word_is(word, b"rp") {
        Some(Interest {
            read: true,
            ..Interest::PRIORITY
        })
    } else if word_is(word, b"wp") {
        Some(Interest {
            write: true,
            ..Interest::PRIORITY
        })
    } else if word_is(word, b"rwp") {
        Some(Interest::ALL)
    } else {
        None
    }
}

/// A line `task NAME W`.
pub(crate) fn read_task(text: &[u8]) -> Result<Line2, LineFault2>
    ensures { result ≡ task_read (words_in text.now) }
{
    let (name, rest) = match take_name(text) {
        Ok(taken) => taken,
        Err(fault) => return Err(fault),
    };
    match take_number(rest) {
        Ok((waker, rest)) => end(Line2::Step(Step2::Task(name, Waker(waker))), rest),
        Err(fault) => Err(fault),
    }
}

/// A line `repeat N`.
pub(crate) fn read_repeat(text: &[u8]) -> Result<Line2, LineFault2>
    ensures { result ≡ repeat_read (words_in text.now) }
{
    match take_times(text) {
        Ok((times, rest)) => end(Line2::Repeat(times), rest),
        Err(fault) => Err(fault),
    }
}

/// The key or waker that a text's first word spells, and what follows it.
fn take_number(text: &[u8]) -> Result<(u32, &[u8]), LineFault2>
    ensures { MatchResult result
        (λ r. taken number_value (words_in text.now) ≡ Ok (r.0, words_in r.1.now))
        (λ f. taken number_value (words_in text.now) ≡ Err f) }
{
    match next_number(text, u64::from(u32::MAX)) {
        Ok((number, rest)) => Ok((number as u32, rest)),
        Err(fault) => Err(LineFault2::from(fault)),
    }
}

/// The number of times, 1 to 100,000, that a text's first word spells, and what follows it.
fn take_times(text: &[u8]) -> Result<(u32, &[u8]), LineFault2>
    ensures { MatchResult result
        (λ r. taken times_value (words_in text.now) ≡ Ok (r.0, words_in r.1.now))
        (λ f. taken times_value (words_in text.now) ≡ Err f) }
{
    let (times, rest) = match next_number(text, REPEAT_LIMIT) {
        Ok(taken) => taken,
        Err(fault) => return Err(LineFault2::from(fault)),
    };
    if times == 0 {
        return Err(LineFault2::Number);
    }
    Ok((times as u32, rest))
}

/// The name that is a text's first word, and what follows it.
fn take_name(text: &[u8]) -> Result<(Name, &[u8]), LineFault2>
    ensures { MatchResult result
        (λ r. taken name_value (words_in text.now) ≡ Ok (r.0, words_in r.1.now))
        (λ f. taken name_value (words_in text.now) ≡ Err f) }
{
    let Some((word, rest)) = next_word(text) else {
        return Err(LineFault2::Count);
    };
    match Name::new(word) {
        Some(name) => Ok((name, rest)),
        None => Err(LineFault2::Name),
    }
}

/// A line behind which no word may follow.
fn end(line: Line2, text: &[u8]) -> Result<Line2, LineFault2>
    ensures { result ≡ ended two line (words_in text.now) }
{
    if has_ended(text) {
        Ok(line)
    } else {
        Err(LineFault2::Count)
    }
}
