//! Lines in their plainest spelling: one space between words, no other blank, and numbers of a few
//! digits. They are read from their front in one pass, compiled in place where they are used, and
//! the arm that read a step hands it on; every other line is left to `reading`.

ghost use Rattle.std.specs.Prelude.{◌≡◌, ◌++◌, ◌∷◌, ◌↔◌, ◌<◌, ◌≤◌, ◌+◌, ◌^◌, ℕ, true, [], None, Ok, Some, IfSome, MatchOption, OnSome, length};
ghost use Rattle.aio_base.specs.Lines.{ADirection, AMoment, ANumber, begin_rest, event_rest, fault_rest, first, listener_poll_rest, new_rest, poll_rest, read, set_every_rest, set_rest, take_value, tick_rest, timer_every_rest, timer_rest, words_in, words_read};
ghost use Rattle.aio_base.specs.declared.steps.Step.{Step};
ghost use Rattle.aio_trace.specs.Words.{take_number};
ghost use Rattle.aio_trace.specs.Taking.{HandsStep};

use crate::places::moment_at;
use crate::taking::StepTaker;
use aio_base::{Dir, Event, Interest, Key, Moment, Step, Waker, Which};

/// So many digits stand for no more than a key, a waker, a listener or a timer may be.
const NUMBER_DIGITS: usize = 9;

/// So many digits stand for no more than a moment, a period or a limit may be.
const MOMENT_DIGITS: usize = 18;

/// Hands the step that a line in its plainest spelling reads as to a taker, in the arm that read it;
/// `None` for any other line, and then the taker is as it was. The commonest commands are looked for
/// first.
#[inline(always)]
pub(crate) fn take_common<T: StepTaker>(line: &[u8], taker: &mut T) -> Option<T::Answer>
    requires ready { T.is_ready taker.old }
    ensures { MatchOption result (taker.new ≡ taker.old)
        (λ answer. HandsStep T.takes taker.old line.now answer taker.new) }
{
    if let [a, b, c, d, e, f, places @ ..] = line {
        if are_letters([*a, *b, *c, *d], *b"even") && are_two([*e, *f], *b"t ") {
            let Some(step) = event_step(places) else {
                return None;
            };
            return Some(hand(line, step, taker));
        }
    }
    if let [b'p', b'o', b'l', b'l', b' ', places @ ..] = line {
        let Some(step) = poll_step(places) else {
            return None;
        };
        return Some(hand(line, step, taker));
    }
    take_two_numbers(line, taker)
}

/// The same of a poll of a listener or a timer, and of the rarer commands.
#[inline(always)]
fn take_two_numbers<T: StepTaker>(line: &[u8], taker: &mut T) -> Option<T::Answer>
    requires ready { T.is_ready taker.old }
    ensures { MatchOption result (taker.new ≡ taker.old)
        (λ answer. HandsStep T.takes taker.old line.now answer taker.new) }
{
    if let Some([b' ', places @ ..]) = behind(line, *b"step") {
        let Some((listener, waker)) = number_and_waker(places) else {
            return None;
        };
        return Some(hand(line, Step::StepEar(listener, waker), taker));
    }
    if let Some([b' ', places @ ..]) = behind(line, *b"tick") {
        let Some((timer, waker)) = number_and_waker(places) else {
            return None;
        };
        return Some(hand(line, Step::Tick(timer, waker), taker));
    }
    take_rarer(line, taker)
}

/// Whether four bytes are these letters, by one comparison.
#[inline(always)]
fn are_letters(front: [u8; 4], letters: [u8; 4]) -> bool
    ensures { (result ≡ true) ↔ (front ≡ letters) }
{
    u32::from_le_bytes(front) == u32::from_le_bytes(letters)
}

/// The same of two bytes.
#[inline(always)]
fn are_two(front: [u8; 2], letters: [u8; 2]) -> bool
    ensures { (result ≡ true) ↔ (front ≡ letters) }
{
    u16::from_le_bytes(front) == u16::from_le_bytes(letters)
}

/// The same of the other commands.
#[inline(always)]
fn take_rarer<T: StepTaker>(line: &[u8], taker: &mut T) -> Option<T::Answer>
    requires ready { T.is_ready taker.old }
    ensures { MatchOption result (taker.new ≡ taker.old)
        (λ answer. HandsStep T.takes taker.old line.now answer taker.new) }
{
    match line {
        b"react" => Some(hand(line, Step::React, taker)),
        b"add" => Some(hand(line, Step::Add, taker)),
        b"handle" => Some(hand(line, Step::Handle, taker)),
        b"wait" => Some(hand(line, Step::Wait, taker)),
        b"finish" => Some(hand(line, Step::Finish, taker)),
        b"interrupt" => Some(hand(line, Step::Interrupt, taker)),
        _ => take_with_places(line, taker),
    }
}

/// The same of the other commands that have places.
#[inline(always)]
fn take_with_places<T: StepTaker>(line: &[u8], taker: &mut T) -> Option<T::Answer>
    requires ready { T.is_ready taker.old }
    ensures { MatchOption result (taker.new ≡ taker.old)
        (λ answer. HandsStep T.takes taker.old line.now answer taker.new) }
{
    if let Some(places) = behind(line, *b"now ") {
        let Some(moment) = whole_moment(places) else {
            return None;
        };
        return Some(hand(line, Step::Now(moment), taker));
    }
    if let Some(choice) = behind_word(line, *b"timer") {
        return take_timer(line, choice, taker);
    }
    if let Some(places) = behind(line, *b"set ") {
        return take_set(line, places, taker);
    }
    if let Some(limit) = behind_word(line, *b"begin") {
        let Some(step) = begin_step(limit) else {
            return None;
        };
        return Some(hand(line, step, taker));
    }
    if let Some(places) = behind(line, *b"end ") {
        let Some(timer) = whole_number(places) else {
            return None;
        };
        return Some(hand(line, Step::End(timer), taker));
    }
    take_rarest(line, taker)
}

/// The same of the other commands that have places.
#[inline(always)]
fn take_rarest<T: StepTaker>(line: &[u8], taker: &mut T) -> Option<T::Answer>
    requires ready { T.is_ready taker.old }
    ensures { MatchOption result (taker.new ≡ taker.old)
        (λ answer. HandsStep T.takes taker.old line.now answer taker.new) }
{
    if let Some([b' ', places @ ..]) = behind(line, *b"drop") {
        let Some(listener) = whole_number(places) else {
            return None;
        };
        return Some(hand(line, Step::DropEar(listener), taker));
    }
    if let Some(places) = behind(line, *b"new ") {
        let Some(step) = new_step(places) else {
            return None;
        };
        return Some(hand(line, step, taker));
    }
    if let Some(places) = behind(line, *b"del ") {
        let Some(key) = whole_number(places) else {
            return None;
        };
        return Some(hand(line, Step::Del(Key(key)), taker));
    }
    let Some(kind) = behind_word(line, *b"fault") else {
        return None;
    };
    let Some(step) = fault_step(kind) else {
        return None;
    };
    Some(hand(line, step, taker))
}

/// What follows these four letters at the front of a text; `None` for a text with others.
#[inline(always)]
fn behind(text: &[u8], letters: [u8; 4]) -> Option<&[u8]>
    ensures { IfSome result (λ rest. text.now ≡ letters ++ rest.now) }
{
    let [a, b, c, d, rest @ ..] = text else {
        return None;
    };
    if !are_letters([*a, *b, *c, *d], letters) {
        return None;
    }
    Some(rest)
}

/// What follows this word of five letters and a space at the front of a text; `None` for a text
/// with others.
#[inline(always)]
fn behind_word(text: &[u8], word: [u8; 5]) -> Option<&[u8]>
    ensures { IfSome result (λ rest. text.now ≡ word ++ (32 ∷ rest.now)) }
{
    let [a, b, c, d, e] = word;
    let Some([last, b' ', rest @ ..]) = behind(text, [a, b, c, d]) else {
        return None;
    };
    if *last != e {
        return None;
    }
    Some(rest)
}

/// The same of a line `timer at T`, `timer every T P` or `timer never`, read behind its command.
#[inline(always)]
fn take_timer<T: StepTaker>(line: &[u8], choice: &[u8], taker: &mut T) -> Option<T::Answer>
    requires ready { T.is_ready taker.old }
    requires line { (s : Step) → read first (timer_rest first) (words_in choice.now) ≡ Ok s
        → words_read first (words_in line.now) ≡ Ok s }
    requires short { length line.now ≤ length choice.now + 6 }
    ensures { MatchOption result (taker.new ≡ taker.old)
        (λ answer. HandsStep T.takes taker.old line.now answer taker.new) }
{
    if let [b'a', b't', b' ', places @ ..] = choice {
        let Some(deadline) = whole_moment(places) else {
            return None;
        };
        return Some(hand(line, Step::TimerAt(deadline), taker));
    }
    if let Some(places) = behind_word(choice, *b"every") {
        let Some((first, period)) = first_and_period(places) else {
            return None;
        };
        return Some(hand(line, Step::TimerEvery(first, period), taker));
    }
    if let Some(b"r") = behind(choice, *b"neve") {
        return Some(hand(line, Step::TimerNever, taker));
    }
    None
}

/// The same of a line `set N at T` or `set N every T P`, read behind its command.
#[inline(always)]
fn take_set<T: StepTaker>(line: &[u8], places: &[u8], taker: &mut T) -> Option<T::Answer>
    requires ready { T.is_ready taker.old }
    requires line { (s : Step) → read first (set_rest first) (words_in places.now) ≡ Ok s
        → words_read first (words_in line.now) ≡ Ok s }
    requires short { length line.now ≤ length places.now + 4 }
    ensures { MatchOption result (taker.new ≡ taker.old)
        (λ answer. HandsStep T.takes taker.old line.now answer taker.new) }
{
    let Some((timer, choice)) = first_number(places) else {
        return None;
    };
    if let [b'a', b't', b' ', places @ ..] = choice {
        let Some(deadline) = whole_moment(places) else {
            return None;
        };
        return Some(hand(line, Step::SetAt(timer, deadline), taker));
    }
    let Some(places) = behind_word(choice, *b"every") else {
        return None;
    };
    let Some((first, period)) = first_and_period(places) else {
        return None;
    };
    Some(hand(line, Step::SetEvery(timer, first, period), taker))
}

/// Hands the step that a line was read as to a taker.
#[inline(always)]
fn hand<T: StepTaker>(line: &[u8], step: Step, taker: &mut T) -> T::Answer
    requires ready { T.is_ready taker.old }
    requires read { words_read first (words_in line.now) ≡ Ok step }
    requires short { length line.now ≤ 256 }
    ensures { HandsStep T.takes taker.old line.now result taker.new }
{
    taker.take(step)
}

/// The step of a line `poll K D W`, read behind its command.
#[inline(always)]
fn poll_step(places: &[u8]) -> Option<Step>
    ensures read { IfSome result (λ s. read first (poll_rest first) (words_in places.now) ≡ Ok s) }
    ensures short { OnSome result (length places.now ≤ 22) }
{
    let Some((key, rest)) = first_number(places) else {
        return None;
    };
    let Some((direction, rest)) = first_direction(rest) else {
        return None;
    };
    let Some(waker) = whole_number(rest) else {
        return None;
    };
    Some(Step::Poll(Key(key), direction, Waker(waker)))
}

/// The step of a line `event K F`, read behind its command.
#[inline(always)]
fn event_step(places: &[u8]) -> Option<Step>
    ensures read { IfSome result (λ s. read first (event_rest first) (words_in places.now) ≡ Ok s) }
    ensures short { OnSome result (length places.now ≤ 12) }
{
    let Some((key, rest)) = first_number(places) else {
        return None;
    };
    let on = match rest {
        b"r" => Interest::READ,
        b"w" => Interest::WRITE,
        b"rw" => Interest::READ_WRITE,
        b"-" => Interest::NONE,
        _ => return None,
    };
    let event = Event { key: Key(key), on };
    Some(Step::Note(event))
}

/// The listener or timer and the waker that are the two words of a text.
#[inline(always)]
fn number_and_waker(places: &[u8]) -> Option<(u32, Waker)>
    ensures listener { IfSome result (λ r.
        read first (listener_poll_rest first) (words_in places.now) ≡ Ok (Step.StepEar r.0 r.1)) }
    ensures timer { IfSome result (λ r.
        read first (tick_rest first) (words_in places.now) ≡ Ok (Step.Tick r.0 r.1)) }
    ensures short { OnSome result (length places.now ≤ 20) }
{
    let Some((number, rest)) = first_number(places) else {
        return None;
    };
    let Some(waker) = whole_number(rest) else {
        return None;
    };
    Some((number, Waker(waker)))
}

/// The step of a line `new K D`, read behind its command.
#[inline(always)]
fn new_step(places: &[u8]) -> Option<Step>
    ensures read { IfSome result (λ s. read first (new_rest first) (words_in places.now) ≡ Ok s) }
    ensures short { OnSome result (length places.now ≤ 11) }
{
    let Some((key, rest)) = first_number(places) else {
        return None;
    };
    match rest {
        b"r" => Some(Step::New(Key(key), Dir::Read)),
        b"w" => Some(Step::New(Key(key), Dir::Write)),
        _ => None,
    }
}

/// The step of a line `begin L`, read behind its command.
#[inline(always)]
fn begin_step(places: &[u8]) -> Option<Step>
    ensures read { IfSome result (λ s. read first (begin_rest first) (words_in places.now) ≡ Ok s) }
    ensures short { OnSome result (length places.now ≤ 19) }
{
    match places {
        b"none" => Some(Step::Begin(None)),
        _ => match whole_nanoseconds(places) {
            Some(limit) => Some(Step::Begin(Some(limit))),
            None => None,
        },
    }
}

/// The step of a line `fault X`, read behind its command.
#[inline(always)]
fn fault_step(kind: &[u8]) -> Option<Step>
    ensures read { IfSome result (λ s. read first (fault_rest first) (words_in kind.now) ≡ Ok s) }
    ensures short { OnSome result (length kind.now ≤ 6) }
{
    match kind {
        b"add" => Some(Step::Fault(Which::Add)),
        b"arm" => Some(Step::Fault(Which::Arm)),
        b"remove" => Some(Step::Fault(Which::Remove)),
        b"wait" => Some(Step::Fault(Which::Wait)),
        _ => None,
    }
}

/// The key, listener or timer that is the first word of a text, and what follows it.
#[inline(always)]
fn first_number(text: &[u8]) -> Option<(u32, &[u8])>
    ensures read { IfSome result (λ r.
        take_value first ANumber (words_in text.now) ≡ Ok (r.0, words_in r.1.now)) }
    ensures short { IfSome result (λ r. length text.now ≤ length r.1.now + 10) }
{
    match few_digits(text, NUMBER_DIGITS) {
        Some((number, rest)) => Some((number as u32, rest)),
        None => None,
    }
}

/// The key, waker, listener or timer that is the one word of a text.
#[inline(always)]
fn whole_number(text: &[u8]) -> Option<u32>
    ensures read { IfSome result (λ n.
        take_value first ANumber (words_in text.now) ≡ Ok (n, [])) }
    ensures short { OnSome result (length text.now ≤ 10) }
{
    match first_number(text) {
        Some((number, [])) => Some(number),
        _ => None,
    }
}

/// The nanoseconds that are the first word of a text, and what follows them.
#[inline(always)]
fn first_nanoseconds(text: &[u8]) -> Option<(u64, &[u8])>
    ensures read { IfSome result (λ r.
        take_value first AMoment (words_in text.now) ≡ Ok (r.0, words_in r.1.now)) }
    ensures bound { IfSome result (λ r. r.0 ≤ 10 ^ 18) }
    ensures short { IfSome result (λ r. length text.now ≤ length r.1.now + 19) }
{
    few_digits(text, MOMENT_DIGITS)
}

/// The nanoseconds that are the one word of a text.
#[inline(always)]
fn whole_nanoseconds(text: &[u8]) -> Option<u64>
    ensures read { IfSome result (λ n.
        take_value first AMoment (words_in text.now) ≡ Ok (n, [])) }
    ensures bound { IfSome result (λ n. n ≤ 10 ^ 18) }
    ensures short { OnSome result (length text.now ≤ 19) }
{
    match first_nanoseconds(text) {
        Some((nanoseconds, [])) => Some(nanoseconds),
        _ => None,
    }
}

/// The moment that is the one word of a text.
#[inline(always)]
fn whole_moment(text: &[u8]) -> Option<Moment>
    ensures read { IfSome result (λ m.
        take_value first AMoment (words_in text.now) ≡ Ok (m, [])) }
    ensures short { OnSome result (length text.now ≤ 19) }
{
    match whole_nanoseconds(text) {
        Some(nanoseconds) => Some(moment_at(nanoseconds)),
        None => None,
    }
}

/// The moment and the period in nanoseconds that are the two words of a text.
#[inline(always)]
fn first_and_period(text: &[u8]) -> Option<(Moment, u64)>
    ensures timer { IfSome result (λ r.
        read first (timer_every_rest first) (words_in text.now) ≡ Ok (Step.TimerEvery r.0 r.1)) }
    ensures set { IfSome result (λ r. (timer : ℕ)
        → read first (set_every_rest first timer) (words_in text.now)
        ≡ Ok (Step.SetEvery timer r.0 r.1)) }
    ensures short { OnSome result (length text.now ≤ 38) }
{
    let Some((first, rest)) = first_nanoseconds(text) else {
        return None;
    };
    match whole_nanoseconds(rest) {
        Some(period) if period > 0 => Some((moment_at(first), period)),
        _ => None,
    }
}

/// The number of at most so many digits at the front of a text, up to a space or the end of the
/// text, and what follows the space; `None` for any other text.
#[inline(always)]
fn few_digits(text: &[u8], digits: usize) -> Option<(u64, &[u8])>
    requires { digits ≤ 18 }
    ensures read { IfSome result (λ r. (most : ℕ) → r.0 ≤ most
        → take_number most (words_in text.now) ≡ Ok (r.0, words_in r.1.now)) }
    ensures small { IfSome result (λ r. r.0 < 10 ^ digits) }
    ensures short { IfSome result (λ r. length text.now ≤ length r.1.now + digits + 1) }
{
    let front = &text[..text.len().min(digits)];
    let mut value: u64 = 0;
    for (at, byte) in front.iter().enumerate() {
        let digit = u64::from(*byte).wrapping_sub(u64::from(b'0'));
        if digit > 9 {
            if at > 0 && *byte == b' ' {
                return Some((value, &text[at + 1..]));
            }
            return None;
        }
        value = 10 * value + digit;
    }
    if front.is_empty() || front.len() < text.len() {
        return None;
    }
    Some((value, &[]))
}

/// The direction at the front of a text, with a space behind it, and what follows that.
#[inline(always)]
fn first_direction(text: &[u8]) -> Option<(Dir, &[u8])>
    ensures read { IfSome result (λ r.
        take_value first ADirection (words_in text.now) ≡ Ok (r.0, words_in r.1.now)) }
    ensures short { IfSome result (λ r. length text.now ≤ length r.1.now + 2) }
{
    match text {
        [b'r', b' ', rest @ ..] => Some((Dir::Read, rest)),
        [b'w', b' ', rest @ ..] => Some((Dir::Write, rest)),
        _ => None,
    }
}
