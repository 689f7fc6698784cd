//! The commands of the program, read from its words.

ghost use Rattle.std.specs.Prelude.{◌≡◌, ℕ, [], ◌∷◌, MatchOption, codes, map, string_bytes};
ghost use Rattle.aio_commands.specs.Commands.{Names};
ghost use Rattle.aio_commands.specs.declared.commands.Command.{Command};
ghost use Rattle.aio_line.specs.Words.{IsRelay};
ghost use Rattle.aio_line.specs.declared.words.RelayOrder.{RelayOrder};

use aio_line::{RelayOrder, number_up_to, relay_order};

/// The most steps of a trace that a number describes.
const MOST_STEPS: u64 = 999_999;

/// The most calls of a job of `stress`.
const MOST_CALLS: u64 = 100_000;

/// The greatest seed, 2^48 - 1.
const GREATEST_SEED: u64 = (1 << 48) - 1;

/// A command of the program, with what its words say.
#[derive(Clone, Copy, Debug, PartialEq, Eq)]
pub enum Command {
    /// `replay`: runs the steps of a trace, and writes their answers.
    Replay,
    /// `gen N SEED`: writes the trace of the first `n` steps, at most 999,999, that a seed below 2^48
    /// gives.
    Gen { n: u32, seed: u64 },
    /// `sum N SEED`: runs these steps, and writes what they came to.
    Sum { n: u32, seed: u64 },
    /// `relay PORT WORKERS IDLE PAIRS`: serves pairs of connections, and writes what each came to.
    Relay(RelayOrder),
    /// `stress CALLS SEED`: lets two jobs make so many calls each, at most 100,000, on shared cells, drawn
    /// from a seed below 2^48 and from the next one, and writes how many were made and recorded.
    Stress { calls: u32, seed: u64 },
}

/// The command that the words name; `None` where they name none that is built.
pub fn command_of(words: &[String]) -> Option<Command>
    ensures { MatchOption result
        ((command : Command) → Names command (map string_bytes words.now) → ⊥)
        (λ command. Names command (map string_bytes words.now)) }
{
    match words {
        [name] => named_alone(name.as_str()),
        [name, count, seed] => named_with_seed(name.as_str(), count.as_str(), seed.as_str()),
        [_, _, _, _, _] => named_relay(words),
        _ => None,
    }
}

/// The relay that the words ask for.
fn named_relay(words: &[String]) -> Option<Command>
    ensures { MatchOption result
        ((order : RelayOrder) → IsRelay order (map string_bytes words.now) → ⊥)
        (λ command. Names command (map string_bytes words.now)) }
{
    match relay_order(words) {
        Some(order) => Some(Command::Relay(order)),
        None => None,
    }
}

/// The command that one word names.
fn named_alone(name: &str) -> Option<Command>
    ensures { MatchOption result
        ((command : Command) → Names command (name.now ∷ []) → ⊥)
        (λ command. Names command (name.now ∷ [])) }
{
    match name {
        "replay" => Some(Command::Replay),
        _ => None,
    }
}

/// The command that a name, a number and a seed name.
fn named_with_seed(name: &str, count: &str, seed: &str) -> Option<Command>
    ensures { MatchOption result
        ((command : Command) → Names command (name.now ∷ count.now ∷ seed.now ∷ []) → ⊥)
        (λ command. Names command (name.now ∷ count.now ∷ seed.now ∷ [])) }
{
    if name == "stress" {
        return named_stress(count, seed);
    }
    named_with_steps(name, count, seed)
}

/// What `stress` asks for with a number of calls and a seed. Numbers are decimal digits, with leading
/// zeros or without, and no sign.
fn named_stress(calls: &str, seed: &str) -> Option<Command>
    ensures { MatchOption result
        ((command : Command) → Names command (codes "stress" ∷ calls.now ∷ seed.now ∷ []) → ⊥)
        (λ command. Names command (codes "stress" ∷ calls.now ∷ seed.now ∷ [])) }
{
    let Some(calls) = number_up_to(calls, MOST_CALLS) else {
        return None;
    };
    let Some(seed) = number_up_to(seed, GREATEST_SEED) else {
        return None;
    };
    let calls = calls as u32;
    Some(Command::Stress { calls, seed })
}

/// The command that a name, a number of steps and a seed name, where the name is not `stress`. Numbers are
/// decimal digits, with leading zeros or without, and no sign.
fn named_with_steps(name: &str, steps: &str, seed: &str) -> Option<Command>
    ensures { MatchOption result
        ((command : Command) → Names command (name.now ∷ steps.now ∷ seed.now ∷ [])
        → name.now ≡ codes "stress")
        (λ command. Names command (name.now ∷ steps.now ∷ seed.now ∷ [])) }
{
    let n = number_up_to(steps, MOST_STEPS)? as u32;
    let seed = number_up_to(seed, GREATEST_SEED)?;
    match name {
        "gen" => Some(Command::Gen { n, seed }),
        "sum" => Some(Command::Sum { n, seed }),
        _ => None,
    }
}
