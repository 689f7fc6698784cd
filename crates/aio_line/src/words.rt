//! The words that ask for a relay.

ghost use Rattle.std.specs.Prelude.{◌≡◌, ℕ, [], ◌∷◌, MatchOption, IfSome, map, string_bytes};
ghost use Rattle.aio_line.specs.Words.{IsRelay, IsServable};
ghost use Rattle.aio_line.specs.declared.words.RelayOrder.{RelayOrder};

use crate::numbers::{number_from_to, number_up_to};

/// The greatest port.
const GREATEST_PORT: u64 = 65_535;

/// The most workers of a relay.
const MOST_WORKERS: u64 = 16;

/// The longest idle time, 10^18 nanoseconds.
const LONGEST_IDLE: u64 = 1_000_000_000_000_000_000;

/// The most pairs of one worker.
const PAIRS_OF_WORKER: u64 = 64;

/// What a relay is asked for.
#[derive(Clone, Copy, Debug, PartialEq, Eq)]
pub struct RelayOrder {
    /// The port to bind; 0 for one of the device's own choice.
    pub port: u16,
    /// How many workers serve the pairs.
    pub workers: u32,
    /// After how many nanoseconds without a byte a pair ends.
    pub idle: u64,
    /// How many pairs of connections are served.
    pub pairs: u32,
}

/// What the words `relay PORT WORKERS IDLE PAIRS` ask for. PORT is 0 to 65,535, WORKERS 1 to 16, IDLE 1 to
/// 10^18 and PAIRS 1 to 64 for each worker, each in decimal digits, with leading zeros or without, and no
/// sign. `None` exactly where the words are no such ones.
pub fn relay_order(words: &[String]) -> Option<RelayOrder>
    ensures words { MatchOption result
        ((order : RelayOrder) → IsRelay order (map string_bytes words.now) → ⊥)
        (λ order. IsRelay order (map string_bytes words.now)) }
    ensures servable { IfSome result (λ order. IsServable order) }
{
    match words {
        [name, port, workers, idle, pairs] => named_order(
            name.as_str(),
            port.as_str(),
            workers.as_str(),
            idle.as_str(),
            pairs.as_str(),
        ),
        _ => None,
    }
}

/// The same of a name and four words of numbers.
fn named_order(name: &str, port: &str, workers: &str, idle: &str, pairs: &str) -> Option<RelayOrder>
    ensures words { MatchOption result
        ((order : RelayOrder) → IsRelay order (name.now ∷ port.now ∷ workers.now ∷ idle.now ∷ pairs.now ∷ []) → ⊥)
        (λ order. IsRelay order (name.now ∷ port.now ∷ workers.now ∷ idle.now ∷ pairs.now ∷ [])) }
    ensures servable { IfSome result (λ order. IsServable order) }
{
    if name != "relay" {
        return None;
    }
    let port = number_up_to(port, GREATEST_PORT)? as u16;
    let workers = number_from_to(workers, 1, MOST_WORKERS)?;
    let idle = number_from_to(idle, 1, LONGEST_IDLE)?;
    let pairs = number_from_to(pairs, 1, PAIRS_OF_WORKER * workers)? as u32;
    Some(RelayOrder {
        port,
        workers: workers as u32,
        idle,
        pairs,
    })
}
