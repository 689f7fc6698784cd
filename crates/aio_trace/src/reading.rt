//! Reading the step of a line. It takes no memory. A line in its plainest spelling is read by
//! `common`; any other is read here, and looked at once more where it reads as no step.

ghost use Rattle.std.specs.Prelude.{◌≡◌, ◌↔◌, Some, Ok, Err, if◌then◌else◌};
ghost use Rattle.std.specs.List.{list_all};
ghost use Rattle.aio_base.specs.Lines.{Reads, body_of, fault_of, first, is_allowed, line_read};
ghost use Rattle.aio_base.specs.Trace.{is_header};
ghost use Rattle.aio_base.specs.declared.steps.LineFault.{LineFault};
ghost use Rattle.aio_base.specs.declared.steps.Step.{Step};
ghost use Rattle.aio_trace.specs.Taking.{HandsLine};

use crate::commands::read_words;
use crate::common::take_common;
use crate::dialect::First;
use crate::taking::{HandsOut, StepTaker};
use crate::words::next_word;
use aio_base::{LineFault, Step};

/// The most bytes of a line, without its line feed.
pub const LINE_BYTES: usize = 256;

/// The step that a line reads as, given without its line feed, or what is wrong with it: exactly
/// one of the two. It takes no memory.
///
/// # Errors
///
/// The first of these that a line has. `Long`: more than 256 bytes. `Byte`: a byte that a line may
/// not hold. `Empty`: no word. Then its words from left to right, the first that is not what its
/// place asks: `Command`, `Number`, `Direction`, `Flags`, `Choice`; or `Count` where a word is
/// missing, or one follows the last.
#[inline(always)]
pub fn read_line(line: &[u8]) -> Result<Step, LineFault>
    ensures step { (s : Step) → Reads s line.now ↔ (result ≡ Ok s) }
    ensures fault { (f : LineFault) → (fault_of line.now ≡ Some f) ↔ (result ≡ Err f) }
{
    hand_line(line, &mut HandsOut)
}

/// Hands the step that a line reads as, given without its line feed, to a taker in the arm that read
/// it, and answers what the taker answered. It takes no memory itself.
///
/// # Errors
///
/// What is wrong with a line that reads as no step, as `read_line` says; the taker is then as it was.
#[inline(always)]
pub fn hand_line<T: StepTaker>(line: &[u8], taker: &mut T) -> Result<T::Answer, LineFault>
    requires ready { T.is_ready taker.old }
    ensures { HandsLine T.takes taker.old line.now result taker.new }
{
    match take_common(line, taker) {
        Some(answer) => Ok(answer),
        None => match read_any_line(line) {
            Ok(step) => Ok(taker.take(step)),
            Err(fault) => Err(fault),
        },
    }
}

/// The step that any line reads as, or what is wrong with it.
#[inline(never)]
fn read_any_line(line: &[u8]) -> Result<Step, LineFault>
    ensures { result ≡ line_read first line.now }
{
    if line.len() > LINE_BYTES {
        return Err(LineFault::Long);
    }
    let body = body_of(line);
    match read_words::<First>(body) {
        Ok(step) => Ok(step),
        Err(fault) => Err(byte_before(body, fault)),
    }
}

/// Whether a line, given without its line feed, is the header of a trace: it has at most 256 bytes,
/// and its words are `trace` and `1`. It takes no memory.
pub fn is_header(line: &[u8]) -> bool
    ensures { result ≡ is_header line.now }
{
    if line.len() > LINE_BYTES {
        return false;
    }
    let Some((first, rest)) = next_word(body_of(line)) else {
        return false;
    };
    let Some((second, rest)) = next_word(rest) else {
        return false;
    };
    first == b"trace".as_slice() && second == b"1".as_slice() && next_word(rest).is_none()
}

/// A line without the one carriage return that may stand at its end.
pub fn body_of(line: &[u8]) -> &[u8]
    ensures { result.now ≡ body_of line.now }
{
    if line.is_empty() {
        return line;
    }
    let last = line.len() - 1;
    if line[last] == b'\r' {
        &line[..last]
    } else {
        line
    }
}

/// The fault of a line whose words have this fault: a byte that a line may not hold comes before
/// it.
fn byte_before(body: &[u8], fault: LineFault) -> LineFault
    ensures { result ≡ (if list_all is_allowed body.now then fault else LineFault.Byte) }
{
    if all_allowed(body) {
        fault
    } else {
        LineFault::Byte
    }
}

/// Whether a line may hold each of these bytes.
pub fn all_allowed(body: &[u8]) -> bool
    ensures { result ≡ list_all is_allowed body.now }
{
    body.iter().all(|byte| *byte == b' ' || *byte == b'\t' || (*byte >= 33 && *byte <= 126))
}
