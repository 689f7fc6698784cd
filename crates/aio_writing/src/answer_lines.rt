//! The lines of answers and wakes.

ghost use Rattle.std.specs.Prelude.{◌≡◌, ◌≤◌, ◌++◌, [], codes, decimal, flat_map, OnErr, OnOk};
ghost use Rattle.aio_base.specs.Script.{reply_text};
ghost use Rattle.aio_base.specs.Text.{answer_line, end_text, ended_line, fault_text, limit_text};
ghost use Rattle.aio_writing.specs.Writing.{Pushes};

use crate::writing::{push_before, push_known, push_numbered};
use aio_base::{Answer, EndWord, Key, Waker};
use itoa::write_digits;
use std::alloc::AllocError;

/// Writes an answer's line and then one line for each of `wakes`, which is left empty; maybe a part of
/// them where memory runs out.
#[inline]
#[tactic(auto, unfolding(aio_base::specs::Script::reply_text))]
pub(crate) fn push_reply(
    answer: Answer,
    wakes: &mut Vec<Waker>,
    out: &mut Vec<u8>,
) -> Result<(), AllocError>
    ensures pushes { Pushes out.old out.new (reply_text answer wakes.old.items) result }
    ensures taken { OnOk result (wakes.new.items ≡ []) }
    ensures left { OnErr result (wakes.new.items ≡ wakes.old.items) }
{
    match push_answer(answer, out) {
        Ok(()) => {}
        Err(error) => return Err(error),
    }
    if wakes.is_empty() {
        return Ok(());
    }
    match push_wakes(wakes.as_slice(), out) {
        Ok(()) => {
            wakes.clear();
            Ok(())
        }
        Err(error) => Err(error),
    }
}

/// Writes one line for each wake.
#[inline(never)]
#[tactic(auto, unfolding(aio_base::specs::Text::answer_line))]
fn push_wakes(wakes: &[Waker], out: &mut Vec<u8>) -> Result<(), AllocError>
    ensures pushes { Pushes out.old out.new
        (flat_map (λ waker. ended_line (answer_line (Answer.Wake waker))) wakes.now) result }
{
    for waker in wakes {
        push_wake(out, *waker)?;
    }
    Ok(())
}

/// Writes the line of a wake.
#[inline(never)]
fn push_wake(out: &mut Vec<u8>, waker: Waker) -> Result<(), AllocError>
    ensures pushes { Pushes out.old out.new (ended_line (codes "wake " ++ decimal waker.0)) result }
{
    push_known(out, b"wake ", u64::from(waker.0))
}

/// Writes the line of a new listener.
#[inline(never)]
fn push_listener(out: &mut Vec<u8>, number: u64) -> Result<(), AllocError>
    ensures pushes { Pushes out.old out.new (ended_line (codes "listener " ++ decimal number)) result }
{
    push_known(out, b"listener ", number)
}

/// Writes the line of a new timer.
#[inline(never)]
fn push_timer(out: &mut Vec<u8>, number: u64) -> Result<(), AllocError>
    ensures pushes { Pushes out.old out.new (ended_line (codes "timer " ++ decimal number)) result }
{
    push_known(out, b"timer ", number)
}

/// Writes an answer's line. All answers have their arms here, in the function that is handed the
/// answer, so one jump finds each.
#[inline]
#[tactic(auto, unfolding(aio_base::specs::Text::answer_line))]
pub(crate) fn push_answer(answer: Answer, out: &mut Vec<u8>) -> Result<(), AllocError>
    ensures pushes { Pushes out.old out.new (ended_line (answer_line answer)) result }
{
    match answer {
        Answer::Ready => out.extend_from_slice(b"ready\n"),
        Answer::Pending => out.extend_from_slice(b"pending\n"),
        Answer::Noted => out.extend_from_slice(b"noted\n"),
        Answer::Full => out.extend_from_slice(b"full\n"),
        Answer::FaultAdd => out.extend_from_slice(b"fault add\n"),
        Answer::Gone => out.extend_from_slice(b"gone\n"),
        Answer::NoSource => out.extend_from_slice(b"no source\n"),
        Answer::InUse => out.extend_from_slice(b"in use\n"),
        Answer::FaultRemove => out.extend_from_slice(b"fault remove\n"),
        Answer::FaultArm => out.extend_from_slice(b"fault arm\n"),
        Answer::NoListener => out.extend_from_slice(b"no listener\n"),
        Answer::Dropped => out.extend_from_slice(b"dropped\n"),
        Answer::NoTimer => out.extend_from_slice(b"no timer\n"),
        Answer::Set => out.extend_from_slice(b"set\n"),
        Answer::Ended => out.extend_from_slice(b"ended\n"),
        Answer::Locked => out.extend_from_slice(b"locked\n"),
        Answer::Interrupted => out.extend_from_slice(b"interrupted\n"),
        Answer::FaultWait => out.extend_from_slice(b"fault wait\n"),
        Answer::NoRound => out.extend_from_slice(b"no round\n"),
        Answer::Empty => out.extend_from_slice(b"empty\n"),
        Answer::KeyIs(key) => push_numbered(out, b"key ", u64::from(key.0)),
        Answer::Listener(number) => push_listener(out, number),
        Answer::Timer(number) => push_timer(out, number),
        Answer::ReadyAt(deadline) => push_numbered(out, b"ready ", deadline.get()),
        Answer::At(moment) => push_numbered(out, b"at ", moment.get()),
        Answer::Back(moment) => push_numbered(out, b"back ", moment.get()),
        Answer::Given(count) => push_numbered(out, b"given ", u64::from(count)),
        Answer::Events(count) => push_numbered(out, b"events ", u64::from(count)),
        Answer::Wake(waker) => push_wake(out, waker),
        Answer::Begin { number, limit } => push_begin(out, number, limit),
        Answer::Handled { key, fault } => push_handled(out, key, fault),
        Answer::End(end) => push_end(out, end),
        Answer::Round {
            number,
            events,
            end,
        } => push_round(out, number, events, end),
    }
}

/// Writes the line of a whole round.
fn push_round(out: &mut Vec<u8>, number: u64, events: u32, end: EndWord) -> Result<(), AllocError>
    ensures pushes { Pushes out.old out.new (ended_line (codes "round " ++ decimal number
        ++ codes " events " ++ decimal events ++ codes " " ++ end_text end)) result }
{
    match end {
        EndWord::Clean => push_round_line(out, number, events, b" ok\n"),
        EndWord::FaultWait => push_round_line(out, number, events, b" fault wait\n"),
        EndWord::FaultArm => push_round_line(out, number, events, b" fault arm\n"),
    }
}

/// Writes the line of a whole round, with this text behind its events, by one copy. It is made from
/// its end.
fn push_round_line<const N: usize>(
    out: &mut Vec<u8>,
    number: u64,
    events: u32,
    end: &[u8; N],
) -> Result<(), AllocError>
    requires { N ≤ 12 }
    ensures pushes { Pushes out.old out.new (codes "round " ++ decimal number ++ codes " events "
        ++ decimal events ++ end.now) result }
{
    let mut line = [0; 72];
    let end_at = 72 - N;
    line[end_at..].copy_from_slice(end);
    let events_at = write_digits(u64::from(events), &mut line, end_at);
    let word_at = events_at - 8;
    line[word_at..events_at].copy_from_slice(b" events ");
    let number_at = write_digits(number, &mut line, word_at);
    let start = number_at - 6;
    line[start..number_at].copy_from_slice(b"round ");
    out.extend_from_slice(&line[start..])
}

/// Writes the line of the end of a round.
fn push_end(out: &mut Vec<u8>, end: EndWord) -> Result<(), AllocError>
    ensures pushes { Pushes out.old out.new (ended_line (codes "end " ++ end_text end)) result }
{
    out.extend_from_slice(match end {
        EndWord::Clean => b"end ok\n".as_slice(),
        EndWord::FaultWait => b"end fault wait\n".as_slice(),
        EndWord::FaultArm => b"end fault arm\n".as_slice(),
    })
}

/// Writes the line of a round that begins.
fn push_begin(out: &mut Vec<u8>, number: u64, limit: Option<u64>) -> Result<(), AllocError>
    ensures pushes { Pushes out.old out.new (ended_line (codes "begin " ++ decimal number
        ++ codes " wait " ++ limit_text limit)) result }
{
    match push_before(out, b"begin ", number) {
        Ok(()) => push_wait(out, limit),
        Err(error) => Err(error),
    }
}

/// Writes the end of that line: how long the round may wait.
fn push_wait(out: &mut Vec<u8>, limit: Option<u64>) -> Result<(), AllocError>
    ensures pushes { Pushes out.old out.new (ended_line (codes " wait "
        ++ limit_text limit)) result }
{
    match limit {
        None => out.extend_from_slice(b" wait none\n"),
        Some(limit) => push_numbered(out, b" wait ", limit),
    }
}

/// Writes the line of an event that was handled.
fn push_handled(out: &mut Vec<u8>, key: Key, fault: bool) -> Result<(), AllocError>
    ensures pushes { Pushes out.old out.new (ended_line (codes "handled " ++ decimal key.0
        ++ fault_text fault)) result }
{
    if !fault {
        return push_numbered(out, b"handled ", u64::from(key.0));
    }
    match push_before(out, b"handled ", u64::from(key.0)) {
        Ok(()) => out.extend_from_slice(b" fault arm\n"),
        Err(error) => Err(error),
    }
}
