//! A task that attempts an operation on a source until it succeeds or a moment comes.

ghost use Rattle.std.specs.Prelude.{◌≡◌, false, None, Some};
ghost use Rattle.aio_future.specs.Timers.{new_timer};

use aio_base::{Arm, Cx, Dir, EventWait, Moment, Notify, Poll, Task};
use aio_future::{Sleep, Timer, TimerFault};
use aio_shared::{Attempt, Inside, PollFault, SourceRef};
use std::sync::Wait;

/// Why neither the operation succeeded nor the moment came.
#[derive(Clone, Copy, Debug, PartialEq, Eq)]
pub enum UntilFault {
    /// The poller could not be armed, or the task of a replaced waker may not know that it was woken.
    Source(PollFault),
    /// The timer has no id or no memory, or a thread that waits may not know of it.
    Timer(TimerFault),
}

/// A task that attempts an operation on a source until it succeeds, but no longer than until a moment
/// (`async-io` 2, a `Timer` raced with `Async::read_with` or `write_with`). The operation comes first, so
/// where both are there at one poll it has succeeded. After a fault it may be polled further.
///
/// A source that is let go stays in its reactor, and a timer that is let go stays registered. So take the
/// task apart afterwards, and close both: `sleep.timer` by `close`, `source` by `close_source`.
#[derive(Drop)]
pub struct TryUntil<A: Arm, T> {
    /// The source, of the reactor of the thread that polls the task.
    pub source: SourceRef<A>,
    /// The direction to wait for where the operation would block.
    pub dir: Dir,
    /// The operation.
    pub attempt: T,
    /// The moment.
    pub sleep: Sleep,
    /// How often the task was polled.
    pub polls: u64,
    ghost outside: { source.inside ≡ false },
}

impl<A: Arm, T> TryUntil<A, T> {
    /// A task that was not polled yet. It takes no memory.
    pub fn new(source: SourceRef<A>, dir: Dir, attempt: T, until: Moment) -> TryUntil<A, T>
        requires outside { source.inside ≡ false }
        ensures source { result.source ≡ source }
        ensures dir { result.dir ≡ dir }
        ensures attempt { result.attempt ≡ attempt }
        ensures timer { result.sleep.timer ≡ new_timer (Some until) None }
        ensures polls { (result.polls ≡ 0) × (result.sleep.polls ≡ 0) }
    {
        TryUntil {
            source,
            dir,
            attempt,
            sleep: Sleep {
                timer: Timer::at(until),
                polls: 0,
            },
            polls: 0,
        }
    }
}

impl<R: Wait, N: Notify, A: Arm, W: EventWait, T: Attempt<A> + Copy + Drop> Task<Inside<R, N, A, W>>
    for TryUntil<A, T> {
    ghost use Rattle.std.specs.Prelude.{◌≡◌};
    ghost use Rattle.aio_base.specs.Devices.{raised};
    ghost use Rattle.aio_base.specs.Tasks.{own_waker};
    ghost use Rattle.aio_base.specs.declared.names.Waker.{Waker};
    ghost use Rattle.aio_shared.specs.Polling.{WorksOn};
    ghost use Rattle.aio_future.specs.Visits.{TriesCell};
    ghost use Rattle.aio_park.specs.Until.{EndsBy, TriesThenSleeps, ends_later};

    /// What the operation gave, or `None` where the moment came first.
    type Output = Result<Option<T::Output>, UntilFault>;

    ghost gives = { λ t. EndsBy A.all_sure t.source.key t.sleep.timer.deadline };

    ghost poll_step = { λ old host cx answer new left. (new.polls ≡ raised old.polls)
        × (new.dir ≡ old.dir) × (new.attempt ≡ old.attempt)
        × TriesThenSleeps
        (λ slept sleep after host_old host_left. ⟦<Sleep as Task<Inside<R, N, A, W>>>⟧.poll_step
        sleep host_old cx slept after host_left)
        (λ tried token token_left host_old between. (waker : Waker)
        × (waker.0 ≡ own_waker cx.parker cx.mask) × (attempt : T)
        × WorksOn N.call_count N.notify_step A.rest (λ found ticker visited put.
        TriesCell A.arm_step A.interests A.rest A.fault_count A.is_sure T.attempts
        (record { dir = old.dir; waker = waker }) old.attempt found ticker visited attempt put)
        token token_left host_old between tried)
        old.source new.source host left old.sleep new.sleep answer };

    ghost poll_count = { λ t. t.polls };

    fn poll(
        &mut self,
        host: &mut Inside<R, N, A, W>,
        cx: Cx,
    ) -> Poll<Result<Option<T::Output>, UntilFault>> {
        self.polls = self.polls.saturating_add(1);
        let now = cx.now;
        let parker = cx.parker;
        let mask = cx.mask;
        let waker = cx.own_waker();
        let mut attempt = self.attempt;
        match host.try_source(&mut self.source, self.dir, waker, &mut attempt) {
            Poll::Ready(Ok(output)) => return Poll::Ready(Ok(Some(output))),
            Poll::Ready(Err(fault)) => return Poll::Ready(Err(UntilFault::Source(fault))),
            Poll::Pending => {}
        }
        match self.sleep.poll(host, Cx { parker, mask, now }) {
            Poll::Ready(Ok(_)) => Poll::Ready(Ok(None)),
            Poll::Ready(Err(fault)) => Poll::Ready(Err(UntilFault::Timer(fault))),
            Poll::Pending => Poll::Pending,
        }
    }

    fn polls(&self) -> u64 {
        self.polls
    }

    ghost gives_later = { λ t. ends_later A.all_sure t.source.key t.sleep.timer.deadline };
}
