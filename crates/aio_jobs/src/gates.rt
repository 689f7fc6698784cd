//! A gate that holds nothing back. What one costs that does hold a pair is told at the pair in its
//! slot: the idle time runs on, and the other pairs of the worker wait with it.

ghost use Rattle.std.specs.Prelude.{◌≡◌, true};

use aio_base::Gate;
use std::sync::Wait;
use std::thread::Threads;

/// A gate through which each pair goes at once.
#[derive(Clone, Copy, Debug, Drop, PartialEq, Eq)]
pub struct OpenGate;

impl Gate for OpenGate {
    fn hold<R: Wait + Threads + Sync + Send + Copy>(&self, _rt: &R, _pair: u32) -> bool
        ensures { result ≡ true }
    {
        true
    }

    fn passed(&self, _pair: u32) {}
}
