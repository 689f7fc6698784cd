//! The text of a relay.

ghost use Rattle.std.specs.Prelude.{◌≡◌, ◌++◌, codes, decimal, IfOk, OnErr, OnOk};
ghost use Rattle.aio_writing.specs.Writing.{KeepsFront};
ghost use Rattle.aio_line.specs.Texts.{listening_line, outcome_text, pair_line, pair_lines, side_text};

use aio_pairs::{PairEnd, Side};
use itoa::Buffer;
use std::alloc::{AllocError, Global};

/// Room for the longest line of a pair.
const LINE_ROOM: usize = 80;

/// The first line of a relay's text, which names the port in use, with its line feed.
///
/// # Errors
///
/// `AllocError` where memory ran out.
pub fn listening_text(alloc: Global, port: u16) -> Result<Vec<u8>, AllocError>
    ensures { IfOk result (λ text. text.items ≡ listening_line port) }
{
    let mut text = Vec::with_capacity(alloc, LINE_ROOM)?;
    push_numbered(&mut text, b"listening ", u64::from(port))?;
    text.push(b'\n')?;
    Ok(text)
}

/// The lines of pairs that came to these ends, the first of which is the end of pair 1.
///
/// # Errors
///
/// `AllocError` where memory ran out.
pub fn pair_lines(alloc: Global, ends: &[PairEnd]) -> Result<Vec<u8>, AllocError>
    ensures { IfOk result (λ text. text.items ≡ pair_lines 1 ends.now) }
{
    let mut text = Vec::new(alloc);
    let mut number = 0;
    for end in ends {
        number += 1;
        push_pair_line(&mut text, number, *end)?;
    }
    Ok(text)
}

/// Writes the line of the pair of this number behind a text, with its line feed.
///
/// # Errors
///
/// `AllocError` where memory ran out; the text is as it was then.
pub fn push_pair_line(text: &mut Vec<u8>, number: u64, end: PairEnd) -> Result<(), AllocError>
    ensures ok { OnOk result (text.new.items ≡ text.old.items ++ pair_line number end) }
    ensures err { OnErr result (text.new.items ≡ text.old.items) }
{
    let written = text.len();
    match push_pair(text, number, end) {
        Ok(()) => Ok(()),
        Err(refused) => {
            text.truncate(written);
            Err(refused)
        }
    }
}

/// The same, where a part of the line may stand behind the text once memory ran out.
fn push_pair(text: &mut Vec<u8>, number: u64, end: PairEnd) -> Result<(), AllocError>
    ensures ok { OnOk result (text.new.items ≡ text.old.items ++ pair_line number end) }
    ensures kept { OnErr result (KeepsFront text.old.items text.new.items) }
{
    push_numbered(text, b"pair ", number)?;
    text.push(b' ')?;
    push_outcome(text, end)?;
    text.push(b'\n')?;
    Ok(())
}

/// Writes what a pair came to behind a text.
#[tactic(auto, unfolding(crate::specs::Texts::outcome_text))]
fn push_outcome(text: &mut Vec<u8>, end: PairEnd) -> Result<(), AllocError>
    ensures ok { OnOk result (text.new.items ≡ text.old.items ++ outcome_text end) }
    ensures kept { OnErr result (KeepsFront text.old.items text.new.items) }
{
    match end {
        PairEnd::Ended { to_a, to_b } => push_two(text, b"ended ", to_a, to_b),
        PairEnd::Idle { last, now } => push_two(text, b"idle ", last.get(), now.get()),
        PairEnd::TooLong { side, at } => push_too_long(text, side, at),
        PairEnd::ReadFault(_) => text.extend_from_slice(b"read fault"),
        PairEnd::WriteFault(_) => text.extend_from_slice(b"write fault"),
        PairEnd::ArmFault(_) => text.extend_from_slice(b"arm fault"),
        PairEnd::NotifyFault(_) => text.extend_from_slice(b"notify fault"),
        PairEnd::OutOfMemory => text.extend_from_slice(b"out of memory"),
    }
}

/// Writes which side has a line that is too long, and after how many of its bytes.
fn push_too_long(text: &mut Vec<u8>, side: Side, at: u64) -> Result<(), AllocError>
    ensures ok { OnOk result (text.new.items
        ≡ text.old.items ++ (codes "too long " ++ side_text side ++ codes " " ++ decimal at)) }
    ensures kept { OnErr result (KeepsFront text.old.items text.new.items) }
{
    match side {
        Side::A => push_numbered(text, b"too long a ", at),
        Side::B => push_numbered(text, b"too long b ", at),
    }
}

/// Writes a word and two numbers with a space between them.
fn push_two(text: &mut Vec<u8>, word: &[u8], first: u64, second: u64) -> Result<(), AllocError>
    ensures ok { OnOk result (text.new.items
        ≡ text.old.items ++ (word.now ++ decimal first ++ codes " " ++ decimal second)) }
    ensures kept { OnErr result (KeepsFront text.old.items text.new.items) }
{
    push_numbered(text, word, first)?;
    push_numbered(text, b" ", second)
}

/// Writes a word and a number.
fn push_numbered(text: &mut Vec<u8>, word: &[u8], number: u64) -> Result<(), AllocError>
    ensures ok { OnOk result (text.new.items ≡ text.old.items ++ (word.now ++ decimal number)) }
    ensures kept { OnErr result (KeepsFront text.old.items text.new.items) }
{
    let mut digits = Buffer::new();
    text.extend_from_slice(word)?;
    text.extend_from_slice(digits.format(number).as_bytes())
}
