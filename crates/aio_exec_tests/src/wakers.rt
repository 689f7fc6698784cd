//! Tasks that wake themselves.

use aio_base::{Cx, Host, Poll, Task};
use aio_work::Work;

/// A task that is about a number, wakes itself at each poll but the last, and answers the number.
#[derive(Drop)]
pub(crate) struct SelfWaking {
    about: u64,
    left: u32,
    polls: u64,
}

impl SelfWaking {
    /// A task about this number that wakes itself so often.
    pub(crate) fn new(about: u64, wakes: u32) -> SelfWaking {
        SelfWaking {
            about,
            left: wakes,
            polls: 0,
        }
    }
}

impl<H: Host> Task<H> for SelfWaking {
    ghost use Rattle.std.specs.Prelude.{◌≡◌};

    type Output = u64;

    ghost gives = { λ task sure moment number. number ≡ task.about };

    ghost poll_step = { λ old host cx answer new left. new.about ≡ old.about };

    ghost poll_count = { λ task. task.polls };

    fn poll(&mut self, host: &mut H, cx: Cx) -> Poll<u64> {
        self.polls = self.polls.saturating_add(1);
        if self.left == 0 {
            return Poll::Ready(self.about);
        }
        self.left -= 1;
        let _passed_over = host.wake(cx.own_waker());
        Poll::Pending
    }

    fn polls(&self) -> u64 {
        self.polls
    }

    ghost gives_later = { λ task sure a b number bound given. given };
}

impl<H: Host> Work<H> for SelfWaking {
    ghost use Rattle.std.specs.Prelude.{◌==◌};
    ghost use Rattle.std.proofs.lemmas.Bool.{eq-eqb};

    ghost about_of = { λ task. task.about };

    ghost allows = { λ about number. number == about };

    fn about(&self) -> u64 {
        self.about
    }

    ghost about_stays = { λ old host cx answer new left step. step };

    ghost gives_allowed = { λ task sure moment number given. eq-eqb number task.about given };
}
