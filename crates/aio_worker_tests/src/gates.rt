//! A gate that notes what pairs come to, and may hold one for another.

use aio_base::Gate;
use std::sync::Wait;
use std::sync::atomic::{AtomicU32, Ordering};
use std::thread::{Threads, yield_now};

/// How often a held pair looks whether it may go on.
const MOST_LOOKS: u32 = 10_000_000;

/// How far another pair is to come until a held one may go on.
#[derive(Clone, Copy)]
pub(crate) enum Until {
    /// It is about to be polled for the first time.
    Begun(u32),
    /// It had its end.
    Ended(u32),
}

/// A gate that notes the pairs that had their ends, in their order, each number a digit behind those before,
/// and which pairs it let go that it had to hold.
#[derive(Drop)]
pub(crate) struct NotingGate {
    holds: &'static [(u32, Until)],
    begun: AtomicU32,
    ended: AtomicU32,
    digits: AtomicU32,
    let_go: AtomicU32,
}

/// The bit of a pair.
fn bit(pair: u32) -> u32 {
    1 << (pair % 32)
}

/// Sets the bit of a pair.
fn note(pairs: &AtomicU32, pair: u32) {
    pairs.fetch_or(bit(pair), Ordering::SeqCst);
}

impl NotingGate {
    /// A gate that was not called yet, and holds these pairs until another one has come so far.
    pub(crate) fn new(holds: &'static [(u32, Until)]) -> NotingGate {
        NotingGate {
            holds,
            begun: AtomicU32::new(0),
            ended: AtomicU32::new(0),
            digits: AtomicU32::new(0),
            let_go: AtomicU32::new(0),
        }
    }

    /// The pairs that had their ends so far, as the digits of a number.
    pub(crate) fn ended_pairs(&self) -> u32 {
        self.digits.load(Ordering::SeqCst)
    }

    /// Which pairs it held and let go, as bits.
    pub(crate) fn let_go(&self) -> u32 {
        self.let_go.load(Ordering::SeqCst)
    }

    /// Holds a pair until another has come so far. Whether that came.
    fn wait_until(&self, until: Until) -> bool {
        let (pairs, pair) = match until {
            Until::Begun(pair) => (&self.begun, pair),
            Until::Ended(pair) => (&self.ended, pair),
        };
        for _ in 0..MOST_LOOKS {
            if pairs.load(Ordering::SeqCst) & bit(pair) != 0 {
                return true;
            }
            yield_now();
        }
        false
    }

    /// For what a pair is held.
    fn held_until(&self, pair: u32) -> Option<Until> {
        for (held, until) in self.holds {
            if *held == pair {
                return Some(*until);
            }
        }
        None
    }
}

impl Gate for NotingGate {
    fn hold<R: Wait + Threads + Sync + Send + Copy>(&self, _rt: &R, pair: u32) -> bool {
        note(&self.begun, pair);
        match self.held_until(pair) {
            Some(until) if self.wait_until(until) => {
                note(&self.let_go, pair);
                true
            }
            Some(_) => false,
            None => true,
        }
    }

    fn passed(&self, pair: u32) {
        let after = self.ended_pairs().wrapping_mul(10).wrapping_add(pair);
        self.digits.store(after, Ordering::SeqCst);
        note(&self.ended, pair);
    }
}
