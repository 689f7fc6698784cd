//! How a notify ends a wait, with a call of the system only where a wait may be inside it.
//!
//! Whether a wait is under way and how often it was told to end is one word, and each call changes it in
//! one step: a notify counts on and sees whether a wait is under way, a wait that begins says so and sees
//! whether it was told. So one of the two sees the other: the wait that begins finds the count, or the
//! notify finds the wait and calls the waker. A wait that is over leaves 0: what was told until then has
//! been told to a wait that ends, and whoever waited looks afterwards for what there is to do.

ghost use Rattle.std.specs.Prelude.{◌≡◌, ◌<◌, ◌%◌, ◌↔◌, true, false, Some, None, IsTrue};
ghost use Rattle.aio_mio.specs.Waits.{planned};

use mio::Waker;
use std::io;
use std::sync::atomic::{AtomicU64, Ordering};

/// The word while a wait is under way that was not told to end; the word is odd while one is.
const UNDER_WAY: u64 = 1;

/// What a notify adds, so that the count of notifies stands above `UNDER_WAY`.
const TOLD: u64 = 2;

/// What the half that waits and its notifiers share.
#[derive(Drop)]
pub(crate) struct Wakes {
    waker: Waker,
    word: AtomicU64,
}

impl Wakes {
    /// No wait is under way, and nothing was told.
    pub(crate) fn new(waker: Waker) -> Wakes {
        Wakes {
            waker,
            word: AtomicU64::new(0),
        }
    }

    /// Ends the wait that is under way, or the next one. An error is that of the waker's write.
    pub(crate) fn tell(&self) -> io::Result<()> {
        let before = self.word.fetch_add(TOLD, Ordering::SeqCst);
        if is_under_way(before) {
            return self.waker.wake();
        }
        Ok(())
    }

    /// Ends the wait that is under way, if one is. A wait that begins after the call finds by itself what there is
    /// to give. An error is that of the waker's write.
    pub(crate) fn interrupt(&self) -> io::Result<()> {
        if is_under_way(self.word.load(Ordering::SeqCst)) {
            return self.waker.wake();
        }
        Ok(())
    }

    /// A wait is under way from now on. Whether it was told to end before it began.
    pub(crate) fn begin(&self) -> bool {
        let before = self.word.swap(UNDER_WAY, Ordering::SeqCst);
        was_told(before)
    }

    /// The wait is over, and with it all that was told while it was under way.
    pub(crate) fn end(&self) {
        self.word.store(0, Ordering::SeqCst);
    }
}

/// Whether a wait is under way by this word.
fn is_under_way(word: u64) -> bool
    ensures { IsTrue result ↔ word % 2 ≡ 1 }
{
    word % TOLD == UNDER_WAY
}

/// Whether a wait was told to end by this word.
fn was_told(word: u64) -> bool
    ensures { IsTrue result ↔ 1 < word }
{
    word >= TOLD
}

/// What a wait does.
#[derive(Clone, Copy, Debug, PartialEq, Eq)]
pub(crate) enum Plan {
    /// It ends without a look at the system.
    PassesOver,
    /// It looks at the system for at most so many nanoseconds.
    Looks(Option<u64>),
}

/// What a wait does that has this limit. Where it was told to end before it began it does not wait, and does
/// not even look, unless it is one that only looks or the wait before it was passed over. So a reactor that
/// is told without pause still gets the events of every other wait.
pub(crate) fn plan_of(told: bool, passed: bool, limit: Option<u64>) -> Plan
    ensures { result ≡ planned told passed limit }
{
    if !told {
        return Plan::Looks(limit);
    }
    if passed {
        return Plan::Looks(Some(0));
    }
    match limit {
        Some(0) => Plan::Looks(Some(0)),
        Some(_) | None => Plan::PassesOver,
    }
}
