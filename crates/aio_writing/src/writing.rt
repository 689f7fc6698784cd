//! Writing the line of a step, the line of an answer, and what a whole step gives, at the end of a
//! block of output.

ghost use Rattle.std.specs.Prelude.{◌≡◌, ◌≤◌, ◌++◌, [], decimal, OnErr, OnOk, vec_capacity};
ghost use Rattle.aio_base.specs.Lines.{IsInRange, NamesNoPriority, written_line};
ghost use Rattle.aio_base.specs.Script.{reply_text};
ghost use Rattle.aio_base.specs.Text.{answer_line, ended_line};
ghost use Rattle.aio_writing.specs.Writing.{LacksRoom, Pushes};

use crate::answer_lines::{push_answer, push_reply};
use crate::step_lines::push_step;
use aio_base::{Answer, OutOfMemory, Step, Waker};
use itoa::{Buffer, write_digits};
use std::alloc::AllocError;

/// Writes the line of a step, with its line feed.
///
/// # Errors
///
/// `OutOfMemory` only where there was no room for the line, and then `out` holds what it held.
pub fn write_line(step: &Step, out: &mut Vec<u8>) -> Result<(), OutOfMemory>
    requires range { IsInRange step.now }
    requires names { NamesNoPriority step.now }
    ensures ok { OnOk result (out.new.items ≡ out.old.items ++ ended_line (written_line step.now)) }
    ensures err { OnErr result (out.new.items ≡ out.old.items) }
    ensures full { OnErr result (LacksRoom (vec_capacity out.old) out.old.items
        (ended_line (written_line step.now))) }
{
    let written = out.len();
    match push_step(step, out) {
        Ok(()) => Ok(()),
        Err(_) => {
            out.truncate(written);
            Err(OutOfMemory)
        }
    }
}

/// Writes the line of an answer, with its line feed.
///
/// # Errors
///
/// `OutOfMemory` only where there was no room for the line, and then `out` holds what it held.
pub fn write_answer(answer: &Answer, out: &mut Vec<u8>) -> Result<(), OutOfMemory>
    ensures ok { OnOk result (out.new.items ≡ out.old.items
        ++ ended_line (answer_line answer.now)) }
    ensures err { OnErr result (out.new.items ≡ out.old.items) }
    ensures full { OnErr result (LacksRoom (vec_capacity out.old) out.old.items
        (ended_line (answer_line answer.now))) }
{
    let written = out.len();
    match push_answer(*answer, out) {
        Ok(()) => Ok(()),
        Err(_) => {
            out.truncate(written);
            Err(OutOfMemory)
        }
    }
}

/// Writes what a step gives: the line of its answer, and then one line for each of its wakes, in
/// order, which are taken out of `wakes`.
///
/// # Errors
///
/// `OutOfMemory` only where there was no room for them all, and then `out` and `wakes` hold what they
/// held.
#[inline]
pub fn write_reply(
    answer: Answer,
    wakes: &mut Vec<Waker>,
    out: &mut Vec<u8>,
) -> Result<(), OutOfMemory>
    ensures ok { OnOk result (out.new.items
        ≡ out.old.items ++ reply_text answer wakes.old.items) }
    ensures taken { OnOk result (wakes.new.items ≡ []) }
    ensures err { OnErr result (out.new.items ≡ out.old.items) }
    ensures left { OnErr result (wakes.new.items ≡ wakes.old.items) }
    ensures full { OnErr result (LacksRoom (vec_capacity out.old) out.old.items
        (reply_text answer wakes.old.items)) }
{
    let written = out.len();
    match push_reply(answer, wakes, out) {
        Ok(()) => Ok(()),
        Err(_) => {
            out.truncate(written);
            Err(OutOfMemory)
        }
    }
}

/// Writes a line of a word and a number; `AllocError` where memory runs out, maybe behind a part of it.
#[inline(never)]
pub fn push_numbered<const N: usize>(
    out: &mut Vec<u8>,
    word: &[u8; N],
    number: u64,
) -> Result<(), AllocError>
    requires { N ≤ 11 }
    ensures pushes { Pushes out.old out.new (ended_line (word.now ++ decimal number)) result }
{
    push_known(out, word, number)
}

/// The same, compiled where it is used, for a word that is known there. Where there is room for the longest
/// such line, it is written in place, with line feeds behind the word that the digits then replace but for
/// one: the digits are counted first, and nothing that was just written is read again.
#[inline(always)]
pub(crate) fn push_known<const N: usize>(
    out: &mut Vec<u8>,
    word: &[u8; N],
    number: u64,
) -> Result<(), AllocError>
    requires { N ≤ 11 }
    ensures pushes { Pushes out.old out.new (ended_line (word.now ++ decimal number)) result }
{
    let len = out.len();
    if out.capacity() - len < 32 {
        return push_close(out, word, number);
    }
    let mut uncounted = [0; 20];
    let count = 20 - write_digits(number, &mut uncounted, 20);
    out.extend_from_slice(word)?;
    out.extend_from_slice(&[b'\n'; 21])?;
    let end = len + N + count;
    write_digits(number, out.as_mut_slice(), end);
    out.truncate(end + 1);
    Ok(())
}

/// The same by one copy, where there is little room. The line is made from its end: the digits go before
/// the line feed, and the word before them.
#[inline(never)]
fn push_close<const N: usize>(
    out: &mut Vec<u8>,
    word: &[u8; N],
    number: u64,
) -> Result<(), AllocError>
    requires { N ≤ 11 }
    ensures pushes { Pushes out.old out.new (ended_line (word.now ++ decimal number)) result }
{
    let mut line = [b'\n'; 32];
    let digits = write_digits(number, &mut line, 31);
    let start = digits - N;
    line[start..digits].copy_from_slice(word);
    out.extend_from_slice(&line[start..])
}

/// Writes words, and a number in decimal digits behind them; `AllocError` where memory runs out, maybe
/// behind a part of them.
#[inline(always)]
pub fn push_before(out: &mut Vec<u8>, words: &[u8], number: u64) -> Result<(), AllocError>
    ensures pushes { Pushes out.old out.new (words.now ++ decimal number) result }
{
    match out.extend_from_slice(words) {
        Ok(()) => push_number(out, number),
        Err(error) => Err(error),
    }
}

/// Writes a number in decimal digits.
fn push_number(out: &mut Vec<u8>, number: u64) -> Result<(), AllocError>
    ensures pushes { Pushes out.old out.new (decimal number) result }
{
    let mut digits = Buffer::new();
    out.extend_from_slice(digits.format(number).as_bytes())
}
