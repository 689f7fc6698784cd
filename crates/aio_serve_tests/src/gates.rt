//! A gate that notes its calls.

use aio_base::Gate;
use std::sync::Wait;
use std::sync::atomic::{AtomicU32, Ordering};
use std::thread::Threads;

/// What is added to the number of a pair that had its end.
const ENDED: u32 = 5;

/// A gate that holds nothing and notes its calls in their order, each a digit behind those before: the
/// number of a pair that it may hold, and a number that is greater by 5 where a pair had its end.
#[derive(Drop)]
pub(crate) struct NotingGate {
    digits: AtomicU32,
}

impl NotingGate {
    /// A gate that was not called yet.
    pub(crate) fn new() -> NotingGate {
        NotingGate {
            digits: AtomicU32::new(0),
        }
    }

    /// The digits so far, as a number.
    pub(crate) fn digits(&self) -> u32 {
        self.digits.load(Ordering::SeqCst)
    }

    // Puts a digit behind those before.
    fn note(&self, digit: u32) {
        let after = self.digits().wrapping_mul(10).wrapping_add(digit);
        self.digits.store(after, Ordering::SeqCst);
    }
}

impl Gate for NotingGate {
    fn hold<R: Wait + Threads + Sync + Send + Copy>(&self, _rt: &R, pair: u32) -> bool {
        self.note(pair);
        true
    }

    fn passed(&self, pair: u32) {
        self.note(pair.wrapping_add(ENDED));
    }
}
