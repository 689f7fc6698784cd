//! The calls that a seed gives for eight sources.

ghost use Rattle.std.specs.Prelude.{◌≡◌, ℕ, ◌<◌, ◌≤◌, ◌^◌};
ghost use Rattle.aio_base.specs.Generated.{dir_drawn};
ghost use Rattle.aio_history.specs.DrawnCalls.{call_drawn, calls_from, drawn_calls};

use crate::steps::CellCall;
use aio_base::{Dir, Draws, Interest, Waker};
use std::marker::Model;

/// A call for one of eight sources.
#[derive(Clone, Copy, Debug, PartialEq, Eq)]
pub struct DrawnCall {
    /// The source, 0 to 7.
    pub cell: usize,
    /// The call.
    pub call: CellCall,
}

/// Calls for eight sources, one after the other, without end. Contracts see the state of the draws that
/// they are made by.
#[derive(Drop)]
pub struct CellDraws {
    draws: Draws,
}

impl Model for CellDraws {
    ghost use Rattle.std.specs.Prelude.{ℕ};

    ghost Value = { ℕ };

    ghost view = { λ d. d.draws };
}

impl CellDraws {
    /// The calls of a seed; those of 2^48 are the calls of 0.
    #[tactic(auto, using(crate::proofs::Drawn::of_seed))]
    pub fn new(seed: u64) -> CellDraws
        requires { seed ≤ 2 ^ 48 }
        ensures { (calls cell : ℕ) → calls_from calls result cell ≡ drawn_calls seed calls cell }
    {
        CellDraws {
            draws: Draws::new(seed % (1 << 48)),
        }
    }

    /// The next call. It takes no memory.
    pub fn next_call(&mut self) -> DrawnCall
        ensures cell { result.cell ≡ (call_drawn self.old).cell }
        ensures call { result.call ≡ (call_drawn self.old).call }
        ensures after { self.new ≡ (call_drawn self.old).after }
        ensures bound { result.cell < 8 }
    {
        let cell = (self.draws.draw() % 8) as usize;
        let kind = self.draws.draw() % 4;
        if kind == 0 {
            let round = u64::from(self.draws.draw() % 1000);
            let on = Interest::READ_WRITE;
            return DrawnCall {
                cell,
                call: CellCall::Handle { on, round },
            };
        }
        let dir = dir_of(self.draws.draw());
        let waker = Waker(self.draws.draw() % 64);
        DrawnCall {
            cell,
            call: CellCall::Poll {
                dir,
                waker,
                ticker: 0,
            },
        }
    }
}

/// The direction that a number stands for.
fn dir_of(number: u32) -> Dir
    ensures { result ≡ dir_drawn number }
{
    if number % 2 == 0 {
        Dir::Read
    } else {
        Dir::Write
    }
}
