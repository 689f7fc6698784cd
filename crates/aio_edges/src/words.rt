//! What a word says of a key, and the bits that each step gives it or takes from it.

ghost use Rattle.std.specs.Prelude.{◌≡◌};
ghost use Rattle.aio_edges.specs.Words as words;

use aio_base::{Dir, Interest};
use aio_modes::common_of;

/// Reading may be ready: an edge of it came that no call has used up.
const READ_EDGE: u64 = 1;

/// The same of writing.
const WRITE_EDGE: u64 = 2;

/// Reading is armed.
const READ_ARMED: u64 = 4;

/// Writing is armed.
const WRITE_ARMED: u64 = 8;

/// All that may be armed.
pub(crate) const ARMED: u64 = READ_ARMED | WRITE_ARMED;

/// The source ended or failed, or has urgent data: a call that moved fewer bytes than it might have does not show
/// that nothing is left.
const UNSURE: u64 = 16;

/// The word of a source that has just joined: each direction may be ready, and nothing is armed.
pub(crate) const JOINED: u64 = READ_EDGE | WRITE_EDGE;

/// The bits of the edges of these directions. Urgent readiness has none.
pub(crate) fn edge_bits(on: Interest) -> u64
    ensures { result ≡ words.edge_bits on }
{
    match (on.read, on.write) {
        (true, true) => READ_EDGE | WRITE_EDGE,
        (true, false) => READ_EDGE,
        (false, true) => WRITE_EDGE,
        (false, false) => 0,
    }
}

/// The bit of the edge of one direction.
pub(crate) fn edge_bit(dir: Dir) -> u64
    ensures { result ≡ words.edge_bit dir }
{
    match dir {
        Dir::Read => READ_EDGE,
        Dir::Write => WRITE_EDGE,
        Dir::Priority => 0,
    }
}

/// The bits by which these directions are armed. Urgent readiness has none.
pub(crate) fn armed_bits(on: Interest) -> u64
    ensures { result ≡ words.armed_bits on }
{
    match (on.read, on.write) {
        (true, true) => ARMED,
        (true, false) => READ_ARMED,
        (false, true) => WRITE_ARMED,
        (false, false) => 0,
    }
}

/// The bits of what the system told: edges of these directions, and whether it told more than that.
pub(crate) fn told_bits(on: Interest, unsure: bool) -> u64
    ensures { result ≡ words.told_bits on unsure }
{
    if unsure {
        edge_bits(on) | UNSURE
    } else {
        edge_bits(on)
    }
}

/// Whether a call that moved fewer bytes than it might have does not show that nothing is left.
pub(crate) fn is_unsure_in(word: u64) -> bool
    ensures { result ≡ words.is_unsure_in word }
{
    word & UNSURE != 0
}

/// The directions that may be ready.
fn edges_in(word: u64) -> Interest
    ensures { result ≡ words.edges_in word }
{
    Interest {
        read: word & READ_EDGE != 0,
        write: word & WRITE_EDGE != 0,
        priority: false,
    }
}

/// The directions that are armed.
fn armed_in(word: u64) -> Interest
    ensures { result ≡ words.armed_in word }
{
    Interest {
        read: word & READ_ARMED != 0,
        write: word & WRITE_ARMED != 0,
        priority: false,
    }
}

/// What is owed: the directions that are armed and may be ready.
pub(crate) fn owed_in(word: u64) -> Interest
    ensures { result ≡ words.owed_in word }
{
    common_of(armed_in(word), edges_in(word))
}
