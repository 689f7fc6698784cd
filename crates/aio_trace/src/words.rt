//! The words of a line's body, taken from its front one after the other. It takes no memory, and
//! looks at each byte once, at those of a long run of spaces or zeros by blocks.

ghost use Rattle.std.specs.Prelude.{◌≡◌, ◌↔◌, ◌<◌, ◌≤◌, ◌^◌, [], ◌∷◌, Ok, Err, false, true, length, slice_index, MatchOption, MatchResult};
ghost use Rattle.aio_base.specs.Lines.{is_blank, words_in};
ghost use Rattle.aio_trace.specs.Words.{take_number};

use crate::runs::leading_run;
use aio_base::LineFault;

/// Whether a byte parts words: a space or a tab.
fn is_blank(byte: u8) -> bool
    ensures { result ≡ is_blank byte }
{
    byte == b' ' || byte == b'\t'
}

/// The text from its first byte on that is no blank.
fn skip_blanks(text: &[u8]) -> &[u8]
    ensures words { words_in result.now ≡ words_in text.now }
    ensures first { 0 < length result.now → is_blank (slice_index result.now 0) ≡ false }
{
    for at in leading_run(text, b' ')..text.len() {
        if !is_blank(text[at]) {
            return &text[at..];
        }
    }
    &[]
}

/// The first word of a text, and what follows it; `None` where the text has no word.
pub fn next_word(text: &[u8]) -> Option<(&[u8], &[u8])>
    ensures { MatchOption result (words_in text.now ≡ [])
        (λ r. words_in text.now ≡ r.0.now ∷ words_in r.1.now) }
{
    let text = skip_blanks(text);
    if text.is_empty() {
        return None;
    }
    for (at, byte) in text.iter().enumerate() {
        if is_blank(*byte) {
            return Some((&text[..at], &text[at + 1..]));
        }
    }
    Some((text, &[]))
}

/// The number, at most `most`, that the first word of a text spells, and what follows it; or the
/// fault of that word, or of there being none.
pub fn next_number(text: &[u8], most: u64) -> Result<(u64, &[u8]), LineFault>
    requires { most ≤ 10 ^ 18 }
    ensures { MatchResult result
        (λ r. take_number most (words_in text.now) ≡ Ok (r.0, words_in r.1.now))
        (λ f. take_number most (words_in text.now) ≡ Err f) }
{
    let text = skip_blanks(text);
    if text.is_empty() {
        return Err(LineFault::Count);
    }
    let mut value: u64 = 0;
    for at in leading_run(text, b'0')..text.len() {
        let byte = text[at];
        if byte < b'0' || byte > b'9' {
            return if is_blank(byte) {
                Ok((value, &text[at + 1..]))
            } else {
                Err(LineFault::Number)
            };
        }
        value = 10 * value + u64::from(byte - b'0');
        if value > most {
            return Err(LineFault::Number);
        }
    }
    Ok((value, &[]))
}

/// Whether a text has no word.
pub fn has_ended(text: &[u8]) -> bool
    ensures { (result ≡ true) ↔ (words_in text.now ≡ []) }
{
    skip_blanks(text).is_empty()
}
