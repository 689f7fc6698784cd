//! A timer over a host of its own, as the rows of a table use it.

use crate::asserts::same_in;
use crate::hosts::{LAST_ID, ListHost, PASS};
use aio_base::{Moment, TimerHost, Waker};
use aio_future::{Poll, Timer, TimerFault};
use std::mem;
use std::process::Abort;

/// The last moment, and the longest period, in nanoseconds.
pub(crate) const LAST_MOMENT: u64 = 1_000_000_000_000_000_000;

/// What is done with a timer. Moments and periods are in nanoseconds.
#[derive(Clone, Copy)]
pub(crate) enum Act {
    /// Polls it at this moment with this waker.
    Poll(u64, u32),
    /// Sets it to this moment.
    SetAt(u64),
    /// Sets it to this moment, with this period behind it.
    SetEvery(u64, u64),
    /// Gives it up, and has a timer without a deadline in its place.
    Close,
    /// Has the host refuse registrations from now on, or not, and removals in the same way.
    Refuse(bool, bool),
    /// Looks at the host's registration.
    Registered,
    /// Looks at the timer's deadline, and whether it will fire.
    Look,
    /// Counts the ids that the host has drawn.
    Drawn,
}

/// What comes of it.
#[derive(Clone, Copy)]
pub(crate) enum Came {
    /// Nothing failed.
    Done,
    /// The timer waits.
    Pending,
    /// It fired, for this moment.
    Ready(u64),
    /// The host had no memory.
    NoMemory,
    /// The host had no id.
    IdsSpent,
    /// The timer fired, for this moment, or did not, and the host's notifier failed after so many faults, which
    /// are so many then.
    Untold(Option<u64>, u64, u64),
    /// The host has one registration: its moment, its waker and the count of its id.
    Only(u64, u32, u64),
    /// It has none.
    Nothing,
    /// The deadline, where there is one, and whether the timer will fire.
    Looked(Option<u64>, bool),
    /// So many.
    Count(u64),
    /// Something else.
    Other,
}

/// What came, as it is compared: which it is, its numbers, and the moment that may be there.
fn told(came: Came) -> (&'static str, [u64; 3], Option<u64>) {
    match came {
        Came::Done => ("done", [0; 3], None),
        Came::Pending => ("pending", [0; 3], None),
        Came::Ready(at) => ("ready", [at, 0, 0], None),
        Came::NoMemory => ("no memory", [0; 3], None),
        Came::IdsSpent => ("ids spent", [0; 3], None),
        Came::Untold(fired, before, after) => ("untold", [before, after, 0], fired),
        Came::Only(at, waker, id) => ("only", [at, waker as u64, id], None),
        Came::Nothing => ("nothing", [0; 3], None),
        Came::Looked(deadline, fires) => ("looked", [fires as u64, 0, 0], deadline),
        Came::Count(count) => ("count", [count, 0, 0], None),
        Came::Other => ("other", [0; 3], None),
    }
}

/// A timer and its host.
#[derive(Drop)]
pub(crate) struct Hosted {
    pub(crate) host: ListHost,
    pub(crate) timer: Timer,
}

/// What a fault of a timer is in a table.
fn faulted(fault: TimerFault) -> Came {
    match fault {
        TimerFault::OutOfMemory => Came::NoMemory,
        TimerFault::IdsSpent => Came::IdsSpent,
        TimerFault::Notify { fired, fault } => {
            Came::Untold(fired.map(Moment::get), fault.before, fault.after)
        }
    }
}

/// Polls a timer, through the bound alone.
fn poll<H: TimerHost>(timer: &mut Timer, host: &mut H, now: Moment, waker: u32) -> Came {
    match timer.poll(host, now, Waker(waker)) {
        Poll::Ready(Ok(at)) => Came::Ready(at.get()),
        Poll::Ready(Err(fault)) => faulted(fault),
        Poll::Pending => Came::Pending,
    }
}

/// Sets a timer, in the same way, with a period where that is not 0.
fn set<H: TimerHost>(timer: &mut Timer, host: &mut H, first: Moment, period: u64) -> Came {
    let answer = if period >= 1 && period <= LAST_MOMENT {
        timer.set_every(host, first, period)
    } else {
        timer.set_at(host, first)
    };
    match answer {
        Ok(()) => Came::Done,
        Err(fault) => faulted(fault),
    }
}

/// The one registration of a host.
fn only(host: &ListHost) -> Came {
    if host.registered.len() > 1 {
        return Came::Other;
    }
    match host.registered.first() {
        Some((at, waker, id)) if id.0 >> 40 == PASS => {
            Came::Only(at.get(), waker.0, id.0 & LAST_ID)
        }
        Some(_) => Came::Other,
        None => Came::Nothing,
    }
}

impl Hosted {
    /// Does this at a moment: a poll or a setting.
    fn act_at(&mut self, at: u64, act: Act) -> Came {
        let Some(at) = Moment::new(at) else {
            return Came::Other;
        };
        match act {
            Act::Poll(_, waker) => poll(&mut self.timer, &mut self.host, at, waker),
            Act::SetEvery(_, period) => set(&mut self.timer, &mut self.host, at, period),
            _ => set(&mut self.timer, &mut self.host, at, 0),
        }
    }

    /// Gives the timer up. Where the host has no memory it stays.
    fn close(&mut self) -> Came {
        let timer = mem::replace(&mut self.timer, Timer::never());
        match timer.close(&mut self.host) {
            Ok(()) => Came::Done,
            Err(timer) => {
                self.timer = timer;
                Came::NoMemory
            }
        }
    }

    /// Looks at the timer.
    fn look(&self) -> Came {
        let deadline = self.timer.deadline().map(Moment::get);
        Came::Looked(deadline, self.timer.will_fire())
    }

    /// Does this.
    fn act(&mut self, act: Act) -> Came {
        match act {
            Act::Poll(at, _) | Act::SetAt(at) | Act::SetEvery(at, _) => self.act_at(at, act),
            Act::Close => self.close(),
            Act::Refuse(inserts, removals) => {
                self.host.refuses_insert = inserts;
                self.host.refuses_removal = removals;
                Came::Done
            }
            Act::Registered => only(&self.host),
            Act::Look => self.look(),
            Act::Drawn => Came::Count(self.host.drawn),
        }
    }

    /// Asserts that what these acts come to is what stands beside each.
    pub(crate) fn plays(&mut self, rt: &impl Abort, shows: &str, rows: &[(Act, Came)]) {
        for (act, came) in rows {
            same_in(rt, shows, told(self.act(*act)), told(*came));
        }
    }
}
