//! Numbers that words spell.

ghost use Rattle.std.specs.Prelude.{◌≡◌, ◌==◌, ℕ, MatchOption, slice_index};
ghost use Rattle.aio_line.specs.Words.{SpellsFromTo, SpellsUpTo};

/// The number that a word spells, where it is at most `most`: one or more decimal digits, with leading
/// zeros or without, and no sign. `None` exactly where the word spells no such number.
pub fn number_up_to(word: &str, most: u64) -> Option<u64>
    ensures { MatchOption result ((n : ℕ) → SpellsUpTo most n word.now → ⊥)
        (λ n. SpellsUpTo most n word.now) }
{
    // `parse` would take a plus before the digits.
    if has_plus(word) {
        return None;
    }
    match word.parse::<u64>() {
        Ok(number) if number <= most => Some(number),
        _ => None,
    }
}

/// The same of a number that is at least `least` too.
pub(crate) fn number_from_to(word: &str, least: u64, most: u64) -> Option<u64>
    ensures { MatchOption result ((n : ℕ) → SpellsFromTo least most n word.now → ⊥)
        (λ n. SpellsFromTo least most n word.now) }
{
    let number = number_up_to(word, most)?;
    if number < least {
        return None;
    }
    Some(number)
}

/// Whether a word begins with a plus.
fn has_plus(word: &str) -> bool
    ensures { result ≡ (slice_index word.now 0 == 43) }
{
    word.as_bytes().first() == Some(&b'+')
}
