//! What a worker holds.

ghost use Rattle.std.specs.Prelude.{◌≡◌, vec_len};

use crate::deques::{OtherDeque, OwnDeque};
use crate::slots::Held;
use std::collections::VecDeque;

/// What a worker holds: its deque, thieves at the deques of the others, and its 64 slots.
pub struct Workload {
    /// The deque of the worker.
    pub own: OwnDeque,
    /// The deques of the others, in the order in which the worker looks at them.
    pub others: VecDeque<OtherDeque>,
    /// What each slot has.
    pub slots: Vec<Held>,
    ghost all: { vec_len slots ≡ 64 },
}

impl Drop for Workload {
    fn drop(self) {
        let Workload {
            own: _,
            others: _,
            slots: _,
        } = self;
    }
}
