//! A pair of connections as a task.

ghost use Rattle.std.specs.Prelude.{◌≡◌, ℕ, ◌+◌, ◌<◌, ◌≤◌, ◌||◌, ◌==◌, ◌^◌, true, false, length, nat_lt, max, IfOk, IfErr, IsOk, Ok, Err, None, if◌then◌else◌};
ghost use Rattle.aio_base.specs.Devices.{raised};
ghost use Rattle.aio_base.specs.Polls.{IfReady, WhilePending};
ghost use Rattle.aio_pairs.specs.Calls.{CallsFor, HostGoesOn, RoseIn};
ghost use Rattle.aio_pairs.specs.Exchanges.{IsLongThere, IsReason, OneFailed, stop_in};
ghost use Rattle.aio_pairs.specs.Fits.{of_side};
ghost use Rattle.aio_base.specs.Hosts.{has_id_left};
ghost use Rattle.aio_relay.specs.Pairs.{IsPair, IsDone, BothDone, BothShort, IsToldBeforeWait, Passed, PollsPair, fresh_pair, may_come_to};
ghost use Rattle.aio_relay.specs.Waiting.{Sets, IsSetTo, WaitFailed, Waits, WakesIf, idle_from};

use crate::passing::exchange;
use crate::waiting::{WaitFault, give_up, idle_moment, set_timer, wake};
use aio_base::{Cx, Host, Moment, Poll, Task, Tells, Waker};
use aio_future::Timer;
use aio_pairs::{BLOCK, Backlog, End, PairEnd, Side, Tally};
use std::alloc::Global;
use std::marker::Model;

/// Two connections, of which each is written the whole lines of the other.
///
/// A poll passes lines both ways until neither side can go on, or 65,536 bytes of one were read; in that
/// case it wakes its own waker. Lines that were read and cannot be written yet wait, and nothing more is
/// read of their side meanwhile. A line without a line feed at the end of a side is never written.
///
/// A pair ends once both sides have ended and their lines were written, or once no byte went over for
/// its idle time; and at a line that is too long or a fault at once. The poll that ends it takes the
/// registration of its timer out at last, unless memory runs out.
#[derive(Drop)]
pub struct Pair<E: Tells> {
    a: E,
    b: E,
    from_a: Backlog,
    from_b: Backlog,
    idle: u64,
    last: Moment,
    timer: Timer,
    polls: u64,
    // Whether the last poll read a block of a side.
    has_more: bool,
}

impl<E: Tells> Model for Pair<E> {
    ghost use Rattle.aio_relay.specs.Pairs.{PairState, IsPair};

    ghost Value = { PairState E };

    ghost view = { λ p. record {
      a = p.a;
      b = p.b;
      from_a = p.from_a;
      from_b = p.from_b;
      idle = p.idle;
      last = p.last;
      timer = p.timer;
      polls = p.polls;
      has_more = p.has_more;
    } };

    ghost invariant = { λ p. IsPair E.telling (record {
      a = p.a;
      b = p.b;
      from_a = p.from_a;
      from_b = p.from_b;
      idle = p.idle;
      last = p.last;
      timer = p.timer;
      polls = p.polls;
      has_more = p.has_more;
    }) };
}

impl<E: Tells> Pair<E> {
    /// A pair over two connections, sides A and B. It is idle once no byte went over for `idle`
    /// nanoseconds, 1 to 10^18, from `start` on. Where memory ran out both come back.
    pub fn new(alloc: Global, a: E, b: E, idle: u64, start: Moment) -> Result<Pair<E>, (E, E)>
        requires some { 0 < idle }
        requires bound { idle ≤ 10 ^ 18 }
        ensures fresh { IfOk result (λ pair. pair ≡ fresh_pair a b idle start) }
        ensures back { IfErr result (λ ends. (ends.0 ≡ a) × (ends.1 ≡ b)) }
    {
        let (Ok(from_a), Ok(from_b)) = (Backlog::new(alloc), Backlog::new(alloc)) else {
            return Err((a, b));
        };
        Ok(Pair {
            a,
            b,
            from_a,
            from_b,
            idle,
            last: start,
            timer: Timer::never(),
            polls: 0,
            has_more: false,
        })
    }

    /// The connection of a side.
    pub fn end(&self, side: Side) -> &E
        ensures { result.now ≡ of_side side self.now.a self.now.b }
    {
        match side {
            Side::A => &self.a,
            Side::B => &self.b,
        }
    }

    /// Whether the last poll read 65,536 bytes of a side, so that a poll at once may find more.
    pub fn has_more(&self) -> bool
        ensures { result ≡ self.now.has_more }
    {
        self.has_more
    }

    /// Both connections back, that of side A first.
    pub fn into_ends(self) -> (E, E)
        ensures { result ≡ (self.a, self.b) }
    {
        (self.a, self.b)
    }

    // Whether both sides have ended and all lines were written.
    fn is_done(&self) -> bool
        ensures done { result ≡ true → BothDone self.now }
        ensures not_yet { result ≡ false → ¬ BothDone self.now }
        ensures sound { IsPair E.telling self.now }
    {
        if is_side_done(&self.from_a) {
            return is_side_done(&self.from_b);
        }
        false
    }

    // Whether no byte went over for the idle time.
    fn is_idle(&self, now: Moment) -> bool
        ensures idle { result ≡ true → self.now.last + self.now.idle ≤ now }
        ensures not_yet { result ≡ false → now < self.now.last + self.now.idle }
    {
        self.last.get() + self.idle <= now.get()
    }

    // The end of a pair that is done.
    fn ended(&self) -> PairEnd
        ensures { result ≡ PairEnd.Ended self.now.from_b.forwarded self.now.from_a.forwarded }
    {
        PairEnd::Ended {
            to_a: self.from_b.forwarded(),
            to_b: self.from_a.forwarded(),
        }
    }

    // The end of a pair that is idle.
    fn idled(&self, now: Moment) -> PairEnd
        ensures { result ≡ PairEnd.Idle self.now.last now }
    {
        PairEnd::Idle {
            last: self.last,
            now,
        }
    }

    // Passes lines both ways. Answers whether a block of a side was read.
    fn pass<H: Host>(&mut self, host: &mut H, now: Moment, w: Waker) -> Result<bool, PairEnd>
    where
        E: End<H>,
        ensures passed { Passed E.end_step E.telling E.is_sure E.fault_count
            (CallsFor H.rules H.is_later H.notifier_is_sure w) host.old host.new self.old self.new
            now (IsOk result) (stop_in result) }
        ensures block { IfOk result (λ more. more ≡ self.new.has_more) }
        ensures short { IsOk result → BothShort self.new }
        ensures reason { IfErr result (IsReason (IsLongThere self.new.from_a self.new.from_b)
            (OneFailed E.is_sure E.fault_count self.old.a self.new.a self.old.b self.new.b)
            (RoseIn (H.rules.faults host.old) (H.rules.faults host.new)
            (H.notifier_is_sure host.old))) }
        ensures timer { self.new.timer ≡ self.old.timer }
        ensures polls { self.new.polls ≡ raised self.old.polls }
        ensures host { HostGoesOn H.rules H.is_later host.old host.new }
    {
        self.polls = self.polls.saturating_add(1);
        let mut tally_a = Tally::new();
        let mut tally_b = Tally::new();
        let passed = exchange(
            &mut self.a,
            &mut self.b,
            &mut self.from_a,
            &mut self.from_b,
            &mut tally_a,
            &mut tally_b,
            host,
            w,
        );
        let moved_a = tally_a.has_moved();
        let moved_b = tally_b.has_moved();
        self.last = last_after(moved_a, moved_b, self.last, now);
        self.has_more = has_block(tally_a, tally_b);
        match passed {
            Ok(()) => Ok(self.has_more),
            Err(end) => Err(end),
        }
    }

    // Polls the pair. Where that ends it, its timer may still be registered.
    fn poll_on<H: Host>(&mut self, host: &mut H, cx: Cx) -> Poll<PairEnd>
    where
        E: End<H>,
        ensures ready { IfReady result (λ end. may_come_to E.telling E.is_sure self.old
            (H.notifier_is_sure host.old) cx.now end) }
        ensures pending { WhilePending result ((moment : ℕ) (end : PairEnd) → cx.now ≤ moment
            → may_come_to E.telling E.is_sure self.new (H.notifier_is_sure host.old) moment end
            → may_come_to E.telling E.is_sure self.old (H.notifier_is_sure host.old) moment end) }
        ensures step { PollsPair E.end_step E.telling E.is_sure E.fault_count H.rules
            H.is_later H.notifier_is_sure self.old host.old cx result self.new host.new }
        ensures host { HostGoesOn H.rules H.is_later host.old host.new }
        ensures stays { IfReady result (λ end. IsToldBeforeWait end
            → self.new.timer ≡ self.old.timer) }
    {
        let now = cx.now;
        let w = cx.own_waker();
        let at_once = match self.pass(host, now, w) {
            Ok(at_once) => at_once,
            Err(end) => return Poll::Ready(end),
        };
        if self.is_done() {
            return Poll::Ready(self.ended());
        }
        if self.is_idle(now) {
            return Poll::Ready(self.idled(now));
        }
        match self.wait(host, now, w, at_once) {
            Ok(()) => Poll::Pending,
            Err(WaitFault::Notify(fault)) => Poll::Ready(PairEnd::NotifyFault(fault)),
            Err(WaitFault::OutOfMemory) => Poll::Ready(PairEnd::OutOfMemory),
        }
    }

    // Has the pair polled again: when it will be idle, and at once where a block was read.
    fn wait<H: Host>(
        &mut self,
        host: &mut H,
        now: Moment,
        w: Waker,
        at_once: bool,
    ) -> Result<(), WaitFault>
        requires { now < self.old.last + self.old.idle }
        ensures rest { self.new ≡ record self.old { timer = self.new.timer } }
        ensures sets { Sets (idle_from self.old.last self.old.idle) w
            (has_id_left (H.rules.drawn host.new)) (H.rules.faults host.old)
            (H.rules.faults host.new) (H.notifier_is_sure host.old) self.new.timer result }
        ensures waits { Waits H.rules H.is_later H.notifier_is_sure at_once
            (idle_from self.old.last self.old.idle) now w self.old.timer self.new.timer
            host.old host.new result }
        ensures host { HostGoesOn H.rules H.is_later host.old host.new }
    {
        match wake_if(host, at_once, w) {
            Ok(()) => {
                let due = idle_moment(self.last, self.idle);
                set_timer(&mut self.timer, due, host, now, w)
            }
            Err(fault) => Err(fault),
        }
    }
}

impl<H: Host, E: End<H>> Task<H> for Pair<E> {
    ghost use Rattle.aio_pairs.specs.Fits.{to_give};
    ghost use Rattle.aio_relay.specs.Pairs.{may_come_to, fits-longer, PollsTask};

    type Output = PairEnd;

    ghost gives = { may_come_to E.telling E.is_sure };

    ghost poll_step = { PollsTask E.end_step E.telling E.is_sure E.fault_count
        H.rules H.is_later H.notifier_is_sure };

    ghost poll_count = { λ p. p.polls };

    fn poll(&mut self, host: &mut H, cx: Cx) -> Poll<PairEnd> {
        match self.poll_on(host, cx) {
            Poll::Pending => Poll::Pending,
            Poll::Ready(end) => {
                give_up(&mut self.timer, host);
                Poll::Ready(end)
            }
        }
    }

    fn polls(&self) -> u64 {
        self.polls
    }

    ghost gives_later = { λ p sure early late end order fits. fits-longer
        (to_give p.from_a (E.telling p.a) (E.is_sure p.a)) (to_give p.from_b (E.telling p.b) (E.is_sure p.b))
        p.last p.idle sure early late end order fits };
}

// Whether a side has ended and all its lines were written.
fn is_side_done(side: &Backlog) -> bool
    ensures done { result ≡ true → IsDone side.now }
    ensures not_yet { result ≡ false → ¬ IsDone side.now }
{
    if side.ended() {
        !side.has_lines()
    } else {
        false
    }
}

// Whether a block of a side was read.
fn has_block(a: Tally, b: Tally) -> bool
    ensures { result ≡ (a.read == BLOCK || b.read == BLOCK) }
{
    a.read == BLOCK || b.read == BLOCK
}

// The moment of the last byte that went over.
fn last_after(moved_a: bool, moved_b: bool, last: Moment, now: Moment) -> Moment
    ensures { result ≡ (if moved_a || moved_b then max last now else last) }
{
    if (moved_a || moved_b) && last < now {
        now
    } else {
        last
    }
}

// Wakes a waker where that is asked for.
fn wake_if<H: Host>(host: &mut H, asked: bool, w: Waker) -> Result<(), WaitFault>
    ensures wakes { WakesIf H.rules asked w host.old host.new result }
    ensures fails { IfErr result (WaitFailed (H.rules.faults host.old) (H.rules.faults host.new)
        (H.notifier_is_sure host.old)) }
    ensures host { HostGoesOn H.rules H.is_later host.old host.new }
{
    if asked { wake(host, w) } else { Ok(()) }
}
