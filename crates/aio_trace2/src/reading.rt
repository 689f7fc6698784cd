//! Reading a line of the second version. It takes no memory.

ghost use Rattle.std.specs.Prelude.{◌≡◌, ◌↔◌, Ok, Err, Some};
ghost use Rattle.aio_base.specs.Lines.{words_in};
ghost use Rattle.aio_tasks.specs.Lines2.{Reads2, fault_of2, second_read, words_read2};
ghost use Rattle.aio_tasks.specs.declared.steps.Line2.{Line2};
ghost use Rattle.aio_tasks.specs.declared.steps.LineFault2.{LineFault2};

use crate::own_lines::{read_event, read_repeat, read_task};
use aio_base::{Dir, Interest, LineFault, Step, Waker};
use aio_tasks::names::is_letter;
use aio_tasks::{Line2, LineFault2, Name, Step2, Who};
use aio_trace::{
    Dialect, LINE_BYTES, all_allowed, body_of, next_number, next_word, read_words, with_waker,
    word_is,
};

/// What a line reads as, given without its line feed, or what is wrong with it: exactly one of the two.
/// It takes no memory.
///
/// # Errors
///
/// The first of these that a line has. `Long`: more than 256 bytes. `Byte`: a byte that a line may not
/// hold. `Empty`: no word. Then its words from left to right, the first that is not what its place asks:
/// `Command`, `Number`, `Name`, `Direction`, `Flags`, `Choice`; or `Count` where a word is missing, or one
/// follows the last.
pub fn read_line2(line: &[u8]) -> Result<Line2, LineFault2>
    ensures line { (m : Line2) → Reads2 m line.now ↔ (result ≡ Ok m) }
    ensures fault { (f : LineFault2) → (fault_of2 line.now ≡ Some f) ↔ (result ≡ Err f) }
{
    read_any_line(line)
}

/// The same, as one equation.
#[tactic(auto, unfolding(aio_tasks::specs::Lines2::second_read))]
fn read_any_line(line: &[u8]) -> Result<Line2, LineFault2>
    ensures { result ≡ second_read line.now }
{
    if line.len() > LINE_BYTES {
        return Err(LineFault2::Long);
    }
    let body = body_of(line);
    if !all_allowed(body) {
        return Err(LineFault2::Byte);
    }
    read_words2(body)
}

/// What the words of a line read as: one of the version's own lines, or one of those of the table.
fn read_words2(body: &[u8]) -> Result<Line2, LineFault2>
    ensures { result ≡ words_read2 (words_in body.now) }
{
    let Some((word, rest)) = next_word(body) else {
        return Err(LineFault2::Empty);
    };
    if word_is(word, b"event") {
        read_event(rest)
    } else if word_is(word, b"task") {
        read_task(rest)
    } else if word_is(word, b"repeat") {
        read_repeat(rest)
    } else {
        read_words::<Second>(body)
    }
}

/// The second version, in what the table asks of it.
struct Second;

impl Dialect for Second {
    ghost use Rattle.aio_tasks.specs.Lines2.{two};

    type Line = Line2;

    type Fault = LineFault2;

    type Waker = Who;

    ghost table = { two };

    #[inline]
    fn take_waker(text: &[u8]) -> Result<(Who, &[u8]), LineFault2> {
        let Some((word, rest)) = next_word(text) else {
            return Err(LineFault2::Count);
        };
        let [first, ..] = word else {
            return Err(LineFault2::Number);
        };
        if is_letter(*first) {
            return match Name::new(word) {
                Some(name) => Ok((Who::Called(name), rest)),
                None => Err(LineFault2::Name),
            };
        }
        match next_number(text, u64::from(u32::MAX)) {
            Ok((number, rest)) => Ok((Who::Numbered(number as u32), rest)),
            Err(fault) => Err(LineFault2::from(fault)),
        }
    }

    #[inline]
    fn direction(word: &[u8]) -> Result<Dir, LineFault2> {
        if word_is(word, b"r") {
            Ok(Dir::Read)
        } else if word_is(word, b"w") {
            Ok(Dir::Write)
        } else if word_is(word, b"p") {
            Ok(Dir::Priority)
        } else {
            Err(LineFault2::Direction)
        }
    }

    #[inline]
    fn flags(_word: &[u8]) -> Result<Interest, LineFault2> {
        Err(LineFault2::Flags)
    }

    #[inline]
    fn line(step: Step) -> Line2 {
        Line2::Step(Step2::Plain(step))
    }

    #[inline]
    fn waking(waker: Who, step: Step) -> Line2 {
        match waker {
            Who::Numbered(waker) => Line2::Step(Step2::Plain(with_waker(step, Waker(waker)))),
            Who::Called(name) => Line2::Step(Step2::Named(step, name)),
        }
    }

    #[inline]
    fn fault(fault: LineFault) -> LineFault2 {
        LineFault2::from(fault)
    }

    #[inline]
    fn own(_word: &[u8], _rest: &[u8]) -> Result<Line2, LineFault2> {
        Err(LineFault2::Command)
    }
}
