//! The timer and its calls.

ghost use Rattle.std.specs.Prelude.{◌≡◌, ◌&&◌, ◌<◌, Some, None, IfSome, IsTrue, is_some, MatchResult, OnOk, OnErr};
ghost use Rattle.aio_base.specs.Devices.{HasCause};
ghost use Rattle.aio_base.specs.TimerWork.{firing, next_deadline, waiting};
ghost use Rattle.aio_base.specs.Trace.{IsPeriod};
ghost use Rattle.aio_base.specs.World.{is_waker};
ghost use Rattle.aio_future.specs.Timers.{IsTimer, new_timer, registration_of, state_of, poll_work, set_work, change_work, RemovesOwn, RefusesRemoval, Worked, poll_fault, poll_answer, set_fault};

use crate::answers::TimerFault;
use crate::number_or_none::NumberOrNone;
use aio_base::{InsertRefusal, Moment, OutOfMemory, Poll, TimerHost, TimerId, Waker};
use std::marker::Model;

/// Nanoseconds of a moment or of a period, where there are any: the greatest number is neither.
type Span = NumberOrNone<NO_SPAN>;

const NO_SPAN: u64 = u64::MAX;

/// The number of the id that a host drew, where there is one: the ids of a host count from 1.
type DrawnId = NumberOrNone<0>;

/// A timer that fires at a deadline, maybe again after each period, and registers itself with a host
/// once it is polled before its deadline (`async-io` 2, `lib.rs`, `Timer` as a stream).
///
/// Moments and periods are in nanoseconds. Letting a timer go leaves its registration where it is;
/// `close` takes it out.
#[derive(Debug, Drop)]
pub struct Timer {
    deadline: Span,
    period: Span,
    id: DrawnId,
    kept: Option<Waker>,
}

impl Model for Timer {
    ghost use Rattle.aio_future.specs.NumbersOrNone.{id_of};
    ghost use Rattle.aio_future.specs.Timers.{TimerValue, IsTimer};

    ghost Value = { TimerValue };

    ghost view = { λ t. record { deadline = t.deadline; period = t.period; id = id_of t.id; kept = t.kept } };

    ghost invariant = { λ t. IsTimer (record { deadline = t.deadline; period = t.period; id = id_of t.id; kept = t.kept }) };
}

impl Timer {
    /// A timer that fires once, at `t`. It takes no memory.
    pub fn at(t: Moment) -> Timer
        ensures { result ≡ new_timer (Some t) None }
    {
        Timer {
            deadline: Span::of(t.get()),
            period: Span::none(),
            id: DrawnId::none(),
            kept: None,
        }
    }

    /// A timer that fires at `first` and then after every `period` of 1 to 10^18 nanoseconds, as long
    /// as the moments last. It takes no memory.
    pub fn every(first: Moment, period: u64) -> Timer
        requires { IsPeriod period }
        ensures { result ≡ new_timer (Some first) (Some period) }
    {
        Timer {
            deadline: Span::of(first.get()),
            period: Span::of(period),
            id: DrawnId::none(),
            kept: None,
        }
    }

    /// A timer that never fires, unless it is set. It takes no memory.
    pub fn never() -> Timer
        ensures { result ≡ new_timer None None }
    {
        Timer {
            deadline: Span::none(),
            period: Span::none(),
            id: DrawnId::none(),
            kept: None,
        }
    }

    /// Whether the timer has a deadline to fire at.
    pub fn will_fire(&self) -> bool
        ensures { result ≡ is_some self.now.deadline }
    {
        self.deadline.get().is_some()
    }

    /// The moment at which the timer fires next; `None` where it was made without one, or is over.
    pub fn deadline(&self) -> Option<Moment>
        ensures value { result ≡ self.now.deadline }
        ensures sound { IsTimer self.now }
    {
        match self.deadline.get() {
            Some(nanoseconds) => Moment::new(nanoseconds),
            None => None,
        }
    }

    /// Answers `Ready` with the deadline where `now` has reached it, and has the timer go on to its
    /// next deadline, if it has one. Otherwise it is pending, and waits with `waker`. Where it waits
    /// with `waker` already it does nothing, also where a pass has taken its registration: polled at a
    /// moment before the one of that pass, it stays pending.
    ///
    /// A fault leaves what `TimerFault` says: `IdsSpent` exactly where the timer has to be registered
    /// and the host has no id left, `OutOfMemory` where memory ran out, `Notify` only where the
    /// host's notifier is not sure and its count of faults rose.
    pub fn poll<H: TimerHost>(
        &mut self,
        host: &mut H,
        now: Moment,
        waker: Waker,
    ) -> Poll<Result<Moment, TimerFault>>
        ensures answer { result
            ≡ poll_answer (poll_work self.old now waker).reached (poll_fault result) }
        ensures worked { Worked H.rules H.is_later H.notifier_is_sure (poll_work self.old now waker)
            host.old host.new self.old self.new (poll_fault result) }
        ensures sound { IsTimer self.old }
    {
        let Some(deadline) = self.deadline() else {
            return Poll::Pending;
        };
        if deadline <= now {
            match self.fire(host, deadline, waker) {
                Ok(()) => Poll::Ready(Ok(deadline)),
                Err(fault) => Poll::Ready(Err(fault)),
            }
        } else {
            match self.wait(host, deadline, waker) {
                Ok(()) => Poll::Pending,
                Err(fault) => Poll::Ready(Err(fault)),
            }
        }
    }

    /// Sets the deadline, and registers the timer anew where it keeps a waker. Its faults are those
    /// of `poll`, and `Notify` tells no deadline that was reached.
    pub fn set_at<H: TimerHost>(&mut self, host: &mut H, t: Moment) -> Result<(), TimerFault>
        ensures worked { Worked H.rules H.is_later H.notifier_is_sure (set_work self.old t None)
            host.old host.new self.old self.new (set_fault result) }
        ensures sound { IsTimer self.old }
    {
        self.set(host, t, None)
    }

    /// Sets the deadline and the period of 1 to 10^18 nanoseconds, and registers the timer anew where
    /// it keeps a waker. Its faults are those of `poll`, and `Notify` tells no deadline that was
    /// reached.
    pub fn set_every<H: TimerHost>(
        &mut self,
        host: &mut H,
        first: Moment,
        period: u64,
    ) -> Result<(), TimerFault>
        requires { IsPeriod period }
        ensures worked { Worked H.rules H.is_later H.notifier_is_sure
            (set_work self.old first (Some period))
            host.old host.new self.old self.new (set_fault result) }
        ensures sound { IsTimer self.old }
    {
        self.set(host, first, Some(period))
    }

    /// Ends the timer, and takes its registration out. Where memory ran out, which only a timer that
    /// is registered meets, it hands the timer back as it was.
    pub fn close<H: TimerHost>(mut self, host: &mut H) -> Result<(), Timer>
        ensures closed { MatchResult result
            (λ done. RemovesOwn H.rules (registration_of self) host.old host.new)
            (λ timer. (timer ≡ self)
            × RefusesRemoval H.rules (registration_of self) host.old host.new) }
        ensures sound { IsTimer self }
        ensures ids { H.rules.drawn host.new ≡ H.rules.drawn host.old }
        ensures cause { HasCause (H.rules.faults host.old) (H.rules.faults host.new)
            (H.notifier_is_sure host.old) ⊥ }
        ensures later { H.is_later host.old host.new }
        ensures pass { H.rules.pass host.new ≡ H.rules.pass host.old }
    {
        match self.unregister(host) {
            Ok(()) => Ok(()),
            Err(OutOfMemory) => Err(self),
        }
    }

    /// Sets the deadline, and the period where one is given.
    fn set<H: TimerHost>(
        &mut self,
        host: &mut H,
        deadline: Moment,
        period: Option<u64>,
    ) -> Result<(), TimerFault>
        requires { IfSome period IsPeriod }
        ensures worked { Worked H.rules H.is_later H.notifier_is_sure
            (set_work self.old deadline period)
            host.old host.new self.old self.new (set_fault result) }
        ensures sound { IsTimer self.old }
    {
        let next = Timer {
            deadline: Span::of(deadline.get()),
            period: match period {
                Some(given) => Span::of(given),
                None => self.period,
            },
            id: DrawnId::none(),
            kept: self.kept,
        };
        self.change_to(host, next, None)
    }

    /// Goes on to the deadline after one that was reached, or ends where there is none.
    fn fire<H: TimerHost>(
        &mut self,
        host: &mut H,
        deadline: Moment,
        waker: Waker,
    ) -> Result<(), TimerFault>
        ensures { Worked H.rules H.is_later H.notifier_is_sure
            (firing (state_of self.old) deadline waker (next_deadline deadline self.old.period))
            host.old host.new self.old self.new (set_fault result) }
    {
        let next = match moment_after(deadline, self.period.get()) {
            Some(following) => Timer {
                deadline: Span::of(following.get()),
                period: self.period,
                id: DrawnId::none(),
                kept: Some(waker),
            },
            None => Timer {
                period: self.period,
                ..Timer::never()
            },
        };
        self.change_to(host, next, Some(deadline))
    }

    /// Waits for the deadline with this waker.
    fn wait<H: TimerHost>(
        &mut self,
        host: &mut H,
        deadline: Moment,
        waker: Waker,
    ) -> Result<(), TimerFault>
        requires { self.old.deadline ≡ Some deadline }
        ensures { Worked H.rules H.is_later H.notifier_is_sure
            (waiting (is_some self.old.id) (state_of self.old) deadline waker)
            host.old host.new self.old self.new (set_fault result) }
    {
        if self.waits_with(waker) {
            return Ok(());
        }
        let next = Timer {
            deadline: Span::of(deadline.get()),
            period: self.period,
            id: DrawnId::none(),
            kept: Some(waker),
        };
        self.change_to(host, next, None)
    }

    /// Whether the timer is registered with this waker.
    fn waits_with(&self, waker: Waker) -> bool
        ensures { result ≡ (is_some self.now.id && is_waker waker self.now.kept) }
    {
        self.id.get().is_some() && self.kept == Some(waker)
    }

    /// Takes the registration out, where there is one. On a refusal the timer is as it was.
    fn unregister<H: TimerHost>(&mut self, host: &mut H) -> Result<(), OutOfMemory>
        ensures removed { OnOk result
            (RemovesOwn H.rules (registration_of self.old) host.old host.new) }
        ensures cleared { OnOk result (self.new ≡ record self.old { id = None }) }
        ensures refused { OnErr result ((self.new ≡ self.old)
            × RefusesRemoval H.rules (registration_of self.old) host.old host.new) }
        ensures sound { IsTimer self.old }
        ensures ids { H.rules.drawn host.new ≡ H.rules.drawn host.old }
        ensures cause { HasCause (H.rules.faults host.old) (H.rules.faults host.new)
            (H.notifier_is_sure host.old) ⊥ }
        ensures later { H.is_later host.old host.new }
        ensures pass { H.rules.pass host.new ≡ H.rules.pass host.old }
    {
        if let (Some(deadline), Some(id)) = (self.deadline(), self.id.get()) {
            host.remove_timer(deadline, TimerId(id))?;
        }
        self.id = DrawnId::none();
        Ok(())
    }

    /// Takes the registration out, has the timer become `next`, which has no id, and registers it
    /// where it has a deadline and keeps a waker. `reached` is the deadline that was reached, if one
    /// was.
    fn change_to<H: TimerHost>(
        &mut self,
        host: &mut H,
        next: Timer,
        reached: Option<Moment>,
    ) -> Result<(), TimerFault>
        requires { next.id ≡ None }
        ensures { Worked H.rules H.is_later H.notifier_is_sure (change_work next reached)
            host.old host.new self.old self.new (set_fault result) }
    {
        let wanted = next.deadline().zip(next.kept);
        if wanted.is_some() && !host.ids_left() {
            return Err(TimerFault::IdsSpent);
        }
        if self.unregister(host).is_err() {
            return Err(TimerFault::OutOfMemory);
        }
        let Some((at, waker)) = wanted else {
            *self = next;
            return Ok(());
        };
        match host.insert_timer(at, waker) {
            Ok(id) => {
                *self = next.with_id(id);
                Ok(())
            }
            Err(InsertRefusal::Notify { id, fault }) => {
                *self = next.with_id(id);
                Err(TimerFault::Notify {
                    fired: reached,
                    fault,
                })
            }
            Err(InsertRefusal::OutOfMemory) => Err(TimerFault::OutOfMemory),
        }
    }

    /// The timer, registered under this id.
    fn with_id(self, id: TimerId) -> Timer
        requires waits { IsTrue (is_some self.deadline && is_some self.kept) }
        requires drawn { 0 < id.0 }
        ensures { result ≡ record self { id = Some id } }
    {
        Timer {
            id: DrawnId::of(id.0),
            ..self
        }
    }
}

/// The moment a period after a deadline; `None` where there is no period, or past the last moment.
fn moment_after(deadline: Moment, period: Option<u64>) -> Option<Moment>
    requires { IfSome period IsPeriod }
    ensures { result ≡ next_deadline deadline period }
{
    match period {
        Some(period) => Moment::new(deadline.get() + period),
        None => None,
    }
}
