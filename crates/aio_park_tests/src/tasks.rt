//! Tasks that end at one of their polls, once a source is readable, or never, and the links of a chain.

ghost use Rattle.std.specs.Prelude.{◌≡◌, false};

use aio_base::{Arm, Cx, Dir, EventWait, Host, Later, Notify, Poll, Task, Waker};
use aio_shared::{Inside, PollFault, SourceRef};
use std::sync::Wait;

/// A task that wakes itself at each poll, and ends at the poll with this number, with this answer.
#[derive(Drop)]
pub(crate) struct WakesItself {
    last: u64,
    answer: u64,
    /// How often it was polled.
    pub(crate) polls: u64,
}

impl WakesItself {
    pub(crate) fn until(last: u64, answer: u64) -> WakesItself {
        WakesItself {
            last,
            answer,
            polls: 0,
        }
    }
}

impl<H: Host> Task<H> for WakesItself {
    ghost use Rattle.std.specs.Prelude.{⊤};

    type Output = u64;

    ghost gives = { λ task sure moment output. ⊤ };

    ghost poll_step = { λ old host cx answer new left. ⊤ };

    ghost poll_count = { λ task. task.polls };

    fn poll(&mut self, host: &mut H, cx: Cx) -> Poll<u64> {
        self.polls = self.polls.saturating_add(1);
        if self.polls >= self.last {
            return Poll::Ready(self.answer);
        }
        let _told = host.wake(cx.own_waker());
        Poll::Pending
    }

    fn polls(&self) -> u64 {
        self.polls
    }

    ghost gives_later = { λ task sure a b output later given. tt };
}

/// A task that never ends, and waits for nothing.
#[derive(Drop)]
pub(crate) struct Never {
    /// How often it was polled.
    pub(crate) polls: u64,
}

impl<H: Later> Task<H> for Never {
    ghost use Rattle.std.specs.Prelude.{⊤};

    type Output = u64;

    ghost gives = { λ task sure moment output. ⊤ };

    ghost poll_step = { λ old host cx answer new left. ⊤ };

    ghost poll_count = { λ task. task.polls };

    fn poll(&mut self, _host: &mut H, _cx: Cx) -> Poll<u64> {
        self.polls = self.polls.saturating_add(1);
        Poll::Pending
    }

    fn polls(&self) -> u64 {
        self.polls
    }

    ghost gives_later = { λ task sure a b output later given. tt };
}

/// A task of a group that ends at its second poll, answers its slot, and wakes the slot after its own then.
/// That of slot 0 wakes itself at its first poll.
#[derive(Drop)]
pub(crate) struct Link {
    polls: u64,
}

impl Link {
    pub(crate) fn new() -> Link {
        Link { polls: 0 }
    }
}

/// The waker of the next slot, where this is not the last one of its parker.
fn next_waker(waker: Waker) -> Option<Waker> {
    if waker.0 % 64 == 63 {
        return None;
    }
    Some(Waker(waker.0.wrapping_add(1)))
}

/// Wakes this, where there is one.
fn wake_next<H: Host>(host: &mut H, waker: Option<Waker>)
    ensures { H.is_later host.old host.new }
{
    if let Some(waker) = waker {
        let _told = host.wake(waker);
    }
}

impl<H: Host> Task<H> for Link {
    ghost use Rattle.std.specs.Prelude.{⊤};

    type Output = u64;

    ghost gives = { λ task sure moment output. ⊤ };

    ghost poll_step = { λ old host cx answer new left. ⊤ };

    ghost poll_count = { λ task. task.polls };

    fn poll(&mut self, host: &mut H, cx: Cx) -> Poll<u64> {
        self.polls = self.polls.saturating_add(1);
        let own = cx.own_waker();
        if self.polls > 1 {
            wake_next(host, next_waker(own));
            return Poll::Ready(u64::from(own.0 % 64));
        }
        if own.0 % 64 == 0 {
            wake_next(host, Some(own));
        }
        Poll::Pending
    }

    fn polls(&self) -> u64 {
        self.polls
    }

    ghost gives_later = { λ task sure a b output later given. tt };
}

/// A task that ends once its source is readable, or with the fault of a poll.
#[derive(Drop)]
pub(crate) struct Readable<A: Arm> {
    /// The source, which is outside.
    pub(crate) source: SourceRef<A>,
    /// How often it was polled.
    pub(crate) polls: u64,
    ghost outside: { source.inside ≡ false },
}

impl<R: Wait, N: Notify, A: Arm, W: EventWait> Task<Inside<R, N, A, W>> for Readable<A> {
    ghost use Rattle.std.specs.Prelude.{⊤};

    type Output = Result<(), PollFault>;

    ghost gives = { λ task sure moment output. ⊤ };

    ghost poll_step = { λ old host cx answer new left. ⊤ };

    ghost poll_count = { λ task. task.polls };

    fn poll(&mut self, host: &mut Inside<R, N, A, W>, cx: Cx) -> Poll<Result<(), PollFault>> {
        self.polls = self.polls.saturating_add(1);
        host.poll_source(&mut self.source, Dir::Read, cx.own_waker())
    }

    fn polls(&self) -> u64 {
        self.polls
    }

    ghost gives_later = { λ task sure a b output later given. tt };
}
