//! The lines of any version, each read behind its command.

ghost use Rattle.std.specs.Prelude.{◌≡◌, ◌∷◌};
ghost use Rattle.aio_base.specs.Lines.{begin_rest, clock_lines, del_rest, drop_rest, end_rest, event_rest, fault_rest, listener_poll_rest, new_rest, now_rest, poll_rest, read, round_lines, set_at_rest, set_every_rest, set_rest, tick_rest, timer_at_rest, timer_every_rest, timer_rest, words_in, words_read};

use crate::dialect::{Dialect, word_is};
use crate::places::{
    end, end_with_waker, moment_at, take_direction, take_flags, take_limit, take_moment,
    take_number, take_period,
};
use crate::words::next_word;
use aio_base::{Event, Key, LineFault, Step, Waker, Which};

/// What the words of a line read as by the table of a version, or their first fault. It takes no memory.
///
/// # Errors
///
/// `Empty` where there is no word; else that of the first word that is not what its place asks.
pub fn read_words<D: Dialect>(body: &[u8]) -> Result<D::Line, D::Fault>
    ensures { result ≡ words_read D.table (words_in body.now) }
{
    let Some((word, rest)) = next_word(body) else {
        return Err(D::fault(LineFault::Empty));
    };
    if word_is(word, b"add") {
        end::<D>(Step::Add, rest)
    } else if word_is(word, b"del") {
        read_del::<D>(rest)
    } else if word_is(word, b"poll") {
        read_poll::<D>(rest)
    } else if word_is(word, b"new") {
        read_new::<D>(rest)
    } else if word_is(word, b"step") {
        read_listener_poll::<D>(rest)
    } else if word_is(word, b"drop") {
        read_drop::<D>(rest)
    } else {
        read_clock_line::<D>(word, rest)
    }
}

/// The same of a line of a timer, of the clock or of an event, or of those below.
fn read_clock_line<D: Dialect>(word: &[u8], rest: &[u8]) -> Result<D::Line, D::Fault>
    ensures { result ≡ read D.table (clock_lines D.table) (word.now ∷ words_in rest.now) }
{
    if word_is(word, b"timer") {
        read_timer::<D>(rest)
    } else if word_is(word, b"tick") {
        read_tick::<D>(rest)
    } else if word_is(word, b"set") {
        read_set::<D>(rest)
    } else if word_is(word, b"end") {
        read_end::<D>(rest)
    } else if word_is(word, b"now") {
        read_now::<D>(rest)
    } else if word_is(word, b"event") {
        read_event::<D>(rest)
    } else {
        read_round_line::<D>(word, rest)
    }
}

/// The same of a line of a fault or of a round, or of one that the version alone has.
fn read_round_line<D: Dialect>(word: &[u8], rest: &[u8]) -> Result<D::Line, D::Fault>
    ensures { result ≡ read D.table (round_lines D.table) (word.now ∷ words_in rest.now) }
{
    if word_is(word, b"fault") {
        read_fault::<D>(rest)
    } else if word_is(word, b"interrupt") {
        end::<D>(Step::Interrupt, rest)
    } else if word_is(word, b"begin") {
        read_begin::<D>(rest)
    } else if word_is(word, b"wait") {
        end::<D>(Step::Wait, rest)
    } else if word_is(word, b"handle") {
        end::<D>(Step::Handle, rest)
    } else if word_is(word, b"finish") {
        end::<D>(Step::Finish, rest)
    } else if word_is(word, b"react") {
        end::<D>(Step::React, rest)
    } else {
        D::own(word, rest)
    }
}

/// A line `del K`, read behind its command.
fn read_del<D: Dialect>(text: &[u8]) -> Result<D::Line, D::Fault>
    ensures { result ≡ read D.table (del_rest D.table) (words_in text.now) }
{
    match take_number::<D>(text) {
        Ok((key, rest)) => end::<D>(Step::Del(Key(key)), rest),
        Err(fault) => Err(fault),
    }
}

/// A line `poll K D W`, read behind its command.
fn read_poll<D: Dialect>(text: &[u8]) -> Result<D::Line, D::Fault>
    ensures { result ≡ read D.table (poll_rest D.table) (words_in text.now) }
{
    let (key, rest) = match take_number::<D>(text) {
        Ok(taken) => taken,
        Err(fault) => return Err(fault),
    };
    match take_direction::<D>(rest) {
        Ok((direction, rest)) => {
            end_with_waker::<D>(Step::Poll(Key(key), direction, Waker(0)), rest)
        }
        Err(fault) => Err(fault),
    }
}

/// A line `new K D`, read behind its command.
fn read_new<D: Dialect>(text: &[u8]) -> Result<D::Line, D::Fault>
    ensures { result ≡ read D.table (new_rest D.table) (words_in text.now) }
{
    let (key, rest) = match take_number::<D>(text) {
        Ok(taken) => taken,
        Err(fault) => return Err(fault),
    };
    match take_direction::<D>(rest) {
        Ok((direction, rest)) => end::<D>(Step::New(Key(key), direction), rest),
        Err(fault) => Err(fault),
    }
}

/// A line `step N W`, read behind its command.
fn read_listener_poll<D: Dialect>(text: &[u8]) -> Result<D::Line, D::Fault>
    ensures { result ≡ read D.table (listener_poll_rest D.table) (words_in text.now) }
{
    match take_number::<D>(text) {
        Ok((listener, rest)) => end_with_waker::<D>(Step::StepEar(listener, Waker(0)), rest),
        Err(fault) => Err(fault),
    }
}

/// A line `drop N`, read behind its command.
fn read_drop<D: Dialect>(text: &[u8]) -> Result<D::Line, D::Fault>
    ensures { result ≡ read D.table (drop_rest D.table) (words_in text.now) }
{
    match take_number::<D>(text) {
        Ok((listener, rest)) => end::<D>(Step::DropEar(listener), rest),
        Err(fault) => Err(fault),
    }
}

/// A line `tick N W`, read behind its command.
fn read_tick<D: Dialect>(text: &[u8]) -> Result<D::Line, D::Fault>
    ensures { result ≡ read D.table (tick_rest D.table) (words_in text.now) }
{
    match take_number::<D>(text) {
        Ok((timer, rest)) => end_with_waker::<D>(Step::Tick(timer, Waker(0)), rest),
        Err(fault) => Err(fault),
    }
}

/// A line `timer at T`, `timer every T P` or `timer never`, read behind its command.
fn read_timer<D: Dialect>(text: &[u8]) -> Result<D::Line, D::Fault>
    ensures { result ≡ read D.table (timer_rest D.table) (words_in text.now) }
{
    let Some((choice, rest)) = next_word(text) else {
        return Err(D::fault(LineFault::Count));
    };
    if word_is(choice, b"at") {
        read_timer_at::<D>(rest)
    } else if word_is(choice, b"every") {
        read_timer_every::<D>(rest)
    } else if word_is(choice, b"never") {
        end::<D>(Step::TimerNever, rest)
    } else {
        Err(D::fault(LineFault::Choice))
    }
}

/// A line `timer at T`, read behind its choice.
fn read_timer_at<D: Dialect>(text: &[u8]) -> Result<D::Line, D::Fault>
    ensures { result ≡ read D.table (timer_at_rest D.table) (words_in text.now) }
{
    match take_moment::<D>(text) {
        Ok((moment, rest)) => end::<D>(Step::TimerAt(moment_at(moment)), rest),
        Err(fault) => Err(fault),
    }
}

/// A line `timer every T P`, read behind its choice.
fn read_timer_every<D: Dialect>(text: &[u8]) -> Result<D::Line, D::Fault>
    ensures { result ≡ read D.table (timer_every_rest D.table) (words_in text.now) }
{
    let (moment, rest) = match take_moment::<D>(text) {
        Ok(taken) => taken,
        Err(fault) => return Err(fault),
    };
    match take_period::<D>(rest) {
        Ok((period, rest)) => end::<D>(Step::TimerEvery(moment_at(moment), period), rest),
        Err(fault) => Err(fault),
    }
}

/// A line `set N at T` or `set N every T P`, read behind its command.
fn read_set<D: Dialect>(text: &[u8]) -> Result<D::Line, D::Fault>
    ensures { result ≡ read D.table (set_rest D.table) (words_in text.now) }
{
    let (timer, rest) = match take_number::<D>(text) {
        Ok(taken) => taken,
        Err(fault) => return Err(fault),
    };
    let Some((choice, rest)) = next_word(rest) else {
        return Err(D::fault(LineFault::Count));
    };
    if word_is(choice, b"at") {
        read_set_at::<D>(timer, rest)
    } else if word_is(choice, b"every") {
        read_set_every::<D>(timer, rest)
    } else {
        Err(D::fault(LineFault::Choice))
    }
}

/// A line `set N at T`, read behind its choice.
fn read_set_at<D: Dialect>(timer: u32, text: &[u8]) -> Result<D::Line, D::Fault>
    ensures { result ≡ read D.table (set_at_rest D.table timer) (words_in text.now) }
{
    match take_moment::<D>(text) {
        Ok((moment, rest)) => end::<D>(Step::SetAt(timer, moment_at(moment)), rest),
        Err(fault) => Err(fault),
    }
}

/// A line `set N every T P`, read behind its choice.
fn read_set_every<D: Dialect>(timer: u32, text: &[u8]) -> Result<D::Line, D::Fault>
    ensures { result ≡ read D.table (set_every_rest D.table timer) (words_in text.now) }
{
    let (moment, rest) = match take_moment::<D>(text) {
        Ok(taken) => taken,
        Err(fault) => return Err(fault),
    };
    match take_period::<D>(rest) {
        Ok((period, rest)) => end::<D>(Step::SetEvery(timer, moment_at(moment), period), rest),
        Err(fault) => Err(fault),
    }
}

/// A line `end N`, read behind its command.
fn read_end<D: Dialect>(text: &[u8]) -> Result<D::Line, D::Fault>
    ensures { result ≡ read D.table (end_rest D.table) (words_in text.now) }
{
    match take_number::<D>(text) {
        Ok((timer, rest)) => end::<D>(Step::End(timer), rest),
        Err(fault) => Err(fault),
    }
}

/// A line `now T`, read behind its command.
fn read_now<D: Dialect>(text: &[u8]) -> Result<D::Line, D::Fault>
    ensures { result ≡ read D.table (now_rest D.table) (words_in text.now) }
{
    match take_moment::<D>(text) {
        Ok((moment, rest)) => end::<D>(Step::Now(moment_at(moment)), rest),
        Err(fault) => Err(fault),
    }
}

/// A line `event K F`, read behind its command.
fn read_event<D: Dialect>(text: &[u8]) -> Result<D::Line, D::Fault>
    ensures { result ≡ read D.table (event_rest D.table) (words_in text.now) }
{
    let (key, rest) = match take_number::<D>(text) {
        Ok(taken) => taken,
        Err(fault) => return Err(fault),
    };
    let (on, rest) = match take_flags::<D>(rest) {
        Ok(taken) => taken,
        Err(fault) => return Err(fault),
    };
    let event = Event { key: Key(key), on };
    end::<D>(Step::Note(event), rest)
}

/// A line `fault X`, read behind its command.
fn read_fault<D: Dialect>(text: &[u8]) -> Result<D::Line, D::Fault>
    ensures { result ≡ read D.table (fault_rest D.table) (words_in text.now) }
{
    let Some((kind, rest)) = next_word(text) else {
        return Err(D::fault(LineFault::Count));
    };
    if word_is(kind, b"add") {
        end::<D>(Step::Fault(Which::Add), rest)
    } else if word_is(kind, b"arm") {
        end::<D>(Step::Fault(Which::Arm), rest)
    } else if word_is(kind, b"remove") {
        end::<D>(Step::Fault(Which::Remove), rest)
    } else if word_is(kind, b"wait") {
        end::<D>(Step::Fault(Which::Wait), rest)
    } else {
        Err(D::fault(LineFault::Choice))
    }
}

/// A line `begin L`, read behind its command.
fn read_begin<D: Dialect>(text: &[u8]) -> Result<D::Line, D::Fault>
    ensures { result ≡ read D.table (begin_rest D.table) (words_in text.now) }
{
    match take_limit::<D>(text) {
        Ok((limit, rest)) => end::<D>(Step::Begin(limit), rest),
        Err(fault) => Err(fault),
    }
}
