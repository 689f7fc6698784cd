//! Names, by which a trace of the second version calls tasks.

ghost use Rattle.std.specs.Prelude.{◌≡◌};
ghost use Rattle.std.specs.List.{list_all};
ghost use Rattle.aio_tasks.specs.Names.{is_later, is_letter, is_name};

use std::marker::Model;

/// The most bytes of a name.
const NAME_BYTES: usize = 16;

/// The name of a task: 1 to 16 bytes, of which the first is a letter `a` to `z` and each further one such a
/// letter or a digit.
#[derive(Clone, Copy, Debug, PartialEq, Eq, Hash)]
pub struct Name {
    /// The bytes of the name, and zeros behind them.
    letters: [u8; 16],
    /// How many bytes the name has.
    count: u8,
}

impl Model for Name {
    ghost use Rattle.std.specs.Prelude.{◌≡◌, ℕ, ◌-◌, List, ◌++◌, length, replicate, take, true};
    ghost use Rattle.aio_tasks.specs.Names.{is_name};

    ghost Value = { List ℕ };

    ghost view = { λ n. take n.count n.letters };

    ghost invariant = { λ n. (n.letters ≡ take n.count n.letters ++ replicate (16 - n.count) 0)
        × (length (take n.count n.letters) ≡ n.count) × (is_name (take n.count n.letters) ≡ true) };

    ghost inverse = { λ bytes. record { letters = bytes ++ replicate (16 - length bytes) 0; count = length bytes } };
}

impl Name {
    ghost use Rattle.std.specs.Prelude.{◌≡◌, true, SomeIff};
    ghost use Rattle.aio_tasks.specs.Names.{is_name};

    /// The name of these bytes; `None` exactly where they are no name. It takes no memory.
    pub fn new(bytes: &[u8]) -> Option<Name>
        ensures { SomeIff result (is_name bytes.now ≡ true) bytes.now }
    {
        if !is_name(bytes) {
            return None;
        }
        let mut letters = [0; 16];
        letters[..bytes.len()].copy_from_slice(bytes);
        Some(Name {
            letters,
            count: bytes.len() as u8,
        })
    }

    /// What the name is written as.
    pub fn as_bytes(&self) -> &[u8]
        ensures value { result.now ≡ self.now }
        ensures name { is_name result.now ≡ true }
    {
        &self.letters[..usize::from(self.count)]
    }
}

/// Whether a byte is a letter `a` to `z`.
pub fn is_letter(byte: u8) -> bool
    ensures { result ≡ is_letter byte }
{
    byte >= b'a' && byte <= b'z'
}

/// Whether a byte is such a letter or a digit.
fn is_later(byte: u8) -> bool
    ensures { result ≡ is_later byte }
{
    is_letter(byte) || (byte >= b'0' && byte <= b'9')
}

/// Whether all of these bytes are.
fn are_later(bytes: &[u8]) -> bool
    ensures { result ≡ list_all is_later bytes.now }
{
    bytes.iter().all(|byte| is_later(*byte))
}

/// Whether bytes can be those of a name.
fn is_name(bytes: &[u8]) -> bool
    ensures { result ≡ is_name bytes.now }
{
    let [first, rest @ ..] = bytes else {
        return false;
    };
    if !is_letter(*first) {
        return false;
    }
    if rest.len() >= NAME_BYTES {
        return false;
    }
    are_later(rest)
}
