//! Tasks that set a flag and look for another's.

use aio_base::{Cx, Later, OutOfMemory, Poll, Task};
use aio_work::Work;
use std::alloc::Global;
use std::sync::Arc;
use std::sync::atomic::{AtomicU32, Ordering};
use std::thread::yield_now;

/// How often a task looks at most.
const LOOKS: u32 = 10_000_000;

/// A task that, inside its first poll, sets flags and looks for others. Its answer is whether it saw all of
/// these.
#[derive(Drop)]
pub(crate) struct Flagged {
    flags: Arc<AtomicU32, Global>,
    sets: u32,
    looks_for: u32,
    polls: u64,
}

impl Flagged {
    /// A task that sets the flags of the one mask and looks for those of the other.
    pub(crate) fn new(
        flags: &Arc<AtomicU32, Global>,
        sets: u32,
        looks_for: u32,
    ) -> Result<Flagged, OutOfMemory> {
        match Arc::try_clone(flags) {
            Ok(flags) => Ok(Flagged {
                flags,
                sets,
                looks_for,
                polls: 0,
            }),
            Err(_) => Err(OutOfMemory),
        }
    }

    /// Looks for the flags, and yields the thread after each look.
    fn look(&self) -> bool {
        for _look in 0..LOOKS {
            let seen = self.flags.load(Ordering::SeqCst);
            if seen & self.looks_for == self.looks_for {
                return true;
            }
            yield_now();
        }
        false
    }
}

impl<H: Later> Task<H> for Flagged {
    ghost use Rattle.std.specs.Prelude.{⊤};

    type Output = bool;

    ghost gives = { λ task sure moment seen. ⊤ };

    ghost poll_step = { λ old host cx answer new left. ⊤ };

    ghost poll_count = { λ task. task.polls };

    fn poll(&mut self, _host: &mut H, _cx: Cx) -> Poll<bool> {
        self.polls = self.polls.saturating_add(1);
        self.flags.fetch_or(self.sets, Ordering::SeqCst);
        Poll::Ready(self.look())
    }

    fn polls(&self) -> u64 {
        self.polls
    }

    ghost gives_later = { λ task sure a b seen bound given. tt };
}

/// Any answer is allowed.
impl<H: Later> Work<H> for Flagged {
    ghost use Rattle.std.specs.Prelude.{true, refl};

    ghost about_of = { λ task. 0 };

    ghost allows = { λ about seen. true };

    fn about(&self) -> u64 {
        0
    }

    ghost about_stays = { λ old host cx answer new left step. refl };

    ghost gives_allowed = { λ task sure moment seen given. refl };
}
