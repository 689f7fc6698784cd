//! A task that sleeps until a moment.

ghost use Rattle.std.specs.Prelude.{◌≡◌, None, Some};
ghost use Rattle.aio_base.specs.Polls.{IfReady};
ghost use Rattle.aio_future.specs.Sleeping.{FiresBy, PollsTimer};
ghost use Rattle.aio_future.specs.Timers.{new_timer};

use crate::answers::TimerFault;
use crate::timer::Timer;
use aio_base::{Cx, Moment, Poll, Task, TimerHost, Waker};

/// A task that is ready once its timer has fired, with the deadline, or with the fault of a poll of the
/// timer (`async-io` 2, `lib.rs`, `Timer` as a future). After a fault it may be polled further, and goes on
/// as `TimerFault` says. Polled again once it was ready, it is pending.
#[derive(Debug, Drop)]
pub struct Sleep {
    /// The timer.
    pub timer: Timer,
    /// How often the task was polled.
    pub polls: u64,
}

impl Sleep {
    /// A task that sleeps until this moment, and was not polled yet. It takes no memory.
    pub fn until(deadline: Moment) -> Sleep
        ensures timer { result.timer ≡ new_timer (Some deadline) None }
        ensures polls { result.polls ≡ 0 }
    {
        Sleep {
            timer: Timer::at(deadline),
            polls: 0,
        }
    }
}

/// Polls a timer for a task.
fn poll_timer<H: TimerHost>(
    timer: &mut Timer,
    host: &mut H,
    now: Moment,
    waker: Waker,
) -> Poll<Result<Moment, TimerFault>>
    ensures fires { IfReady result
        (FiresBy timer.old.deadline (H.notifier_is_sure host.old) now) }
    ensures polls { PollsTimer H.rules H.is_later H.notifier_is_sure now waker
        timer.old host.old result timer.new host.new }
{
    timer.poll(host, now, waker)
}

impl<H: TimerHost> Task<H> for Sleep {
    ghost use Rattle.std.specs.Prelude.{◌≡◌};
    ghost use Rattle.aio_base.specs.Devices.{raised};
    ghost use Rattle.aio_base.specs.Tasks.{own_waker};
    ghost use Rattle.aio_future.specs.Sleeping.{FiresBy, PollsTimer, fires_later};

    type Output = Result<Moment, TimerFault>;

    ghost gives = { λ t. FiresBy t.timer.deadline };

    ghost poll_step = { λ old host cx answer new left. (new.polls ≡ raised old.polls)
        × PollsTimer H.rules H.is_later H.notifier_is_sure
        cx.now (record { 0 = own_waker cx.parker cx.mask }) old.timer host answer new.timer left };

    ghost poll_count = { λ t. t.polls };

    fn poll(&mut self, host: &mut H, cx: Cx) -> Poll<Result<Moment, TimerFault>> {
        self.polls = self.polls.saturating_add(1);
        poll_timer(&mut self.timer, host, cx.now, cx.own_waker())
    }

    fn polls(&self) -> u64 {
        self.polls
    }

    ghost gives_later = { λ t. fires_later t.timer.deadline };
}
