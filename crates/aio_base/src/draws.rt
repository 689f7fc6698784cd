//! Draws of numbers from a seed: the same numbers on every machine, for traces and tests that a
//! number describes.

ghost use Rattle.std.specs.Prelude.{◌≡◌, ℕ, ◌^◌, ◌<◌};
ghost use Rattle.aio_base.specs.Generated.{drawn, next_state};

use std::marker::Model;

/// Numbers below 2^32, drawn one after the other by the linear congruence of `drand48` (POSIX): its
/// state has 48 bits, of which a draw is the upper 32. Seen by contracts as its state.
#[derive(Clone, Copy, Debug, PartialEq, Eq)]
pub struct Draws {
    state: u64,
}

impl Model for Draws {
    ghost Value = { ℕ };

    ghost view = { λ d. d.state };

    ghost invariant = { λ d. d.state < 2 ^ 48 };

    ghost inverse = { λ n. record { state = n } };
}

impl Draws {
    /// The draws from a seed.
    pub fn new(seed: u64) -> Draws
        requires { seed < 2 ^ 48 }
        ensures { result ≡ seed }
    {
        Draws { state: seed }
    }

    /// The next number. It takes no memory.
    #[tactic(auto, unfolding(crate::specs::Generated::next_state))]
    pub fn draw(&mut self) -> u32
        ensures number { result ≡ drawn (next_state self.old) }
        ensures state { self.new ≡ next_state self.old }
    {
        let product = self.state.wrapping_mul(25_214_903_917);
        self.state = product.wrapping_add(11) % (1 << 48);
        (self.state / 65536) as u32
    }
}
