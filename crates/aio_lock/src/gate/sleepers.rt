//! How many threads sleep at a lock. Each function makes one operation on that number, and a thread that
//! counted itself cannot be let go before it has counted itself out.

use std::sync::atomic::{AtomicU64, Ordering};

/// How many threads sleep at a lock, or are about to.
#[derive(Drop)]
pub struct Sleepers {
    count: AtomicU64,
}

/// A thread that counted itself among those who sleep.
pub struct Sleeper<'a> {
    sleepers: &'a Sleepers,
}

impl Sleepers {
    /// None yet.
    pub fn none() -> Sleepers {
        Sleepers {
            count: AtomicU64::new(0),
        }
    }

    /// Counts a thread that is about to sleep.
    pub fn count_in(&self) -> Sleeper<'_> {
        self.count.fetch_add(1, Ordering::SeqCst);
        Sleeper { sleepers: self }
    }

    /// Whether any thread has counted itself and not counted itself out.
    pub fn has_any(&self) -> bool {
        self.count.load(Ordering::SeqCst) != 0
    }
}

impl Sleeper<'_> {
    /// The thread sleeps no longer.
    pub fn count_out(self) {
        let Sleeper { sleepers } = self;
        sleepers.count.fetch_sub(1, Ordering::SeqCst);
    }
}
