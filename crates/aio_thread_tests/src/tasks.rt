//! Tasks that end once a slot was woken, at one of their polls, or after meetings with another thread.

ghost use Rattle.std.specs.Prelude.{◌≡◌};

use aio_base::{Cx, Host, Later, Moment, Poll, Task, TimerHost, Waker};
use aio_future::Timer;

/// A task that ends once one of these slots was woken after its first poll, and answers which of them were.
#[derive(Drop)]
pub(crate) struct Rests {
    slots: u64,
    polls: u64,
}

impl Rests {
    pub(crate) fn until(slots: u64) -> Rests {
        Rests { slots, polls: 0 }
    }
}

impl<H: Later> Task<H> for Rests {
    ghost use Rattle.std.specs.Prelude.{⊤};

    type Output = u64;

    ghost gives = { λ task sure moment output. ⊤ };

    ghost poll_step = { λ old host cx answer new left. ⊤ };

    ghost poll_count = { λ task. task.polls };

    fn poll(&mut self, _host: &mut H, cx: Cx) -> Poll<u64> {
        self.polls = self.polls.saturating_add(1);
        let woken = cx.mask & self.slots;
        if self.polls == 1 || woken == 0 {
            return Poll::Pending;
        }
        Poll::Ready(woken)
    }

    fn polls(&self) -> u64 {
        self.polls
    }

    ghost gives_later = { λ task sure a b output later given. tt };
}

/// A task that wakes itself at each poll, and ends at the poll with this number, which it answers.
#[derive(Drop)]
pub(crate) struct WakesItself {
    last: u64,
    polls: u64,
}

impl WakesItself {
    pub(crate) fn until(last: u64) -> WakesItself {
        WakesItself { last, polls: 0 }
    }
}

impl<H: Host> Task<H> for WakesItself {
    ghost use Rattle.std.specs.Prelude.{⊤};

    type Output = u64;

    ghost gives = { λ task sure moment output. ⊤ };

    ghost poll_step = { λ old host cx answer new left. ⊤ };

    ghost poll_count = { λ task. task.polls };

    fn poll(&mut self, host: &mut H, cx: Cx) -> Poll<u64> {
        self.polls = self.polls.saturating_add(1);
        if self.polls >= self.last {
            return Poll::Ready(self.polls);
        }
        let _told = host.wake(cx.own_waker());
        Poll::Pending
    }

    fn polls(&self) -> u64 {
        self.polls
    }

    ghost gives_later = { λ task sure a b output later given. tt };
}

/// A task that meets that of another parker again and again: at each meeting it wakes the other, and waits for
/// the other's wake, and for a timer where it is to. Meetings use two slots by turns, as the other may be one
/// meeting ahead. It answers how many meetings are left.
#[derive(Drop)]
pub(crate) struct Meets {
    other: u32,
    left: u32,
    /// Whether each meeting waits for a timer too.
    timed: bool,
    begun: bool,
    fired: bool,
    woken: (bool, bool),
    timer: Timer,
    polls: u64,
}

impl Meets {
    /// So many meetings with the task of this parker.
    pub(crate) fn new(other: u32, times: u32, timed: bool) -> Meets {
        Meets {
            other,
            left: times,
            timed,
            begun: false,
            fired: false,
            woken: (false, false),
            timer: Timer::never(),
            polls: 0,
        }
    }

    /// Whether this meeting has the first of the two slots.
    fn is_even(&self) -> bool {
        self.left % 2 == 0
    }

    /// Notes which wakes came. The mask of the first poll tells nothing.
    fn note(&mut self, mask: u64)
        ensures { self.new.polls ≡ self.old.polls }
    {
        if self.polls > 1 {
            self.woken.0 |= mask & 2 != 0;
            self.woken.1 |= mask & 4 != 0;
        }
    }

    /// Takes the wake of this meeting, where it came.
    fn take_wake(&mut self) -> bool
        ensures { self.new.polls ≡ self.old.polls }
    {
        let came = if self.is_even() {
            self.woken.0
        } else {
            self.woken.1
        };
        if came && self.is_even() {
            self.woken.0 = false;
        } else if came {
            self.woken.1 = false;
        }
        came
    }

    /// The waker of this meeting's slot of the other parker.
    fn waker_of_other(&self) -> Waker {
        let slot = if self.is_even() { 1 } else { 2 };
        Waker(self.other.wrapping_mul(64).wrapping_add(slot))
    }

    /// Begins a meeting, where none has begun: wakes the other, and sets the timer.
    fn begin<H: Host>(&mut self, host: &mut H, now: Moment)
        ensures later { H.is_later host.old host.new }
        ensures polls { self.new.polls ≡ self.old.polls }
    {
        if self.begun {
            return;
        }
        let _told = host.wake(self.waker_of_other());
        if let Some(at) = Moment::new(now.get() + 3) {
            self.timer = Timer::at(at);
        }
        self.begun = true;
        self.fired = !self.timed;
    }

    /// Polls the timer, where it has not fired.
    fn wait<H: TimerHost>(&mut self, host: &mut H, now: Moment, waker: Waker)
        ensures later { H.is_later host.old host.new }
        ensures polls { self.new.polls ≡ self.old.polls }
    {
        if !self.fired {
            self.fired = self.timer.poll(host, now, waker) != Poll::Pending;
        }
    }

    /// Ends the meeting, where its wake came and its timer fired.
    fn end(&mut self)
        ensures { self.new.polls ≡ self.old.polls }
    {
        if self.fired && self.take_wake() {
            self.begun = false;
            self.left = self.left.saturating_sub(1);
        }
    }

    /// Wakes the own task, where the next meeting is to begin.
    fn go_on<H: Host>(&self, host: &mut H, waker: Waker)
        ensures { H.is_later host.old host.new }
    {
        if !self.begun {
            let _told = host.wake(waker);
        }
    }
}

impl<H: Host> Task<H> for Meets {
    ghost use Rattle.std.specs.Prelude.{⊤};

    type Output = u64;

    ghost gives = { λ task sure moment output. ⊤ };

    ghost poll_step = { λ old host cx answer new left. ⊤ };

    ghost poll_count = { λ task. task.polls };

    fn poll(&mut self, host: &mut H, cx: Cx) -> Poll<u64> {
        self.polls = self.polls.saturating_add(1);
        self.note(cx.mask);
        self.begin(host, cx.now);
        let waker = Waker(cx.parker.wrapping_mul(64));
        self.wait(host, cx.now, waker);
        self.end();
        if self.left == 0 {
            return Poll::Ready(0);
        }
        self.go_on(host, waker);
        Poll::Pending
    }

    fn polls(&self) -> u64 {
        self.polls
    }

    ghost gives_later = { λ task sure a b output later given. tt };
}
