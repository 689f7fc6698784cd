//! A pair while a worker serves it: what stands in its slot of the worker's group.

ghost use Rattle.std.specs.Prelude.{◌≡◌, ◌<◌, ◌≤◌, ◌^◌, ℕ, IfOk};
ghost use Rattle.aio_base.specs.Polls.{IfReady, WhilePending};
ghost use Rattle.aio_pairs.specs.declared.outcomes.PairEnd.{PairEnd};
ghost use Rattle.aio_relay.specs.Pairs.{may_come_to};
ghost use Rattle.aio_serve.specs.Served.{ClosesBoth, PollsInARow, PollsOpen, first_stage, latest_at, stage_gives};
ghost use Rattle.aio_serve.specs.declared.served.Stage.TheVariants.{Open, Over};
ghost use Rattle.aio_shared.specs.Inside.{IsLaterInside};
ghost use Rattle.aio_sources.specs.Sources.{Removes};

use aio_base::{
    ArmFault, Clock, Conn, Cx, EventWait, Gate, Moment, Notify, OutOfMemory, Poll, Task,
};
use aio_pairs::PairEnd;
use aio_places::{Place, SourceEnd};
use aio_relay::Pair;
use aio_shared::Inside;
use std::alloc::Global;
use std::marker::Model;
use std::mem;
use std::sync::Wait;
use std::thread::Threads;

/// How many polls in which they read a block the pairs of a worker have in a turn: what one pair after the
/// other passes is still in the processor's caches where it is polled again at once, and in turns of a
/// block each it is not. A turn is not to last long, since the worker makes no round of the reactor meanwhile.
const POLLS_IN_A_TURN: u32 = 128;

/// How far a pair is.
#[derive(Drop)]
pub enum Stage<P> {
    /// It is polled.
    Open(P),
    /// It ends with this fault, without a poll.
    Refused(ArmFault),
    /// It has told its end.
    Over,
}

/// A pair in its slot. The gate may hold it before its first poll, and is told once it has ended; its
/// sources are closed by then. A pair of which a connection could not join the reactor is not held, and
/// ends at the first poll with the fault of that.
///
/// The idle time of a pair runs from the moment at which its worker begins, also while the gate holds
/// it. The worker polls none of its pairs meanwhile: a gate that waits there for what another pair of
/// the same worker has yet to do, as for a later one to come to the gate, waits for ever.
///
/// It has a clock of its own, and each poll of the pair has the moment that this clock answers right before it, or
/// the moment of the turn where that is later. So an idle time runs from the poll in which the last byte went over,
/// however long the turn is.
pub struct Served<'g, C: Conn, W: EventWait, K: Clock, G> {
    stage: Stage<Pair<SourceEnd<C, W>>>,
    clock: K,
    gate: &'g G,
    number: u32,
    polls: u64,
    // How many pairs have their turns with it, itself among them.
    pairs: u32,
}

impl<'g, C: Conn, W: EventWait, K: Clock, G> Model for Served<'g, C, W, K, G> {
    ghost use Rattle.aio_serve.specs.Served.{ServedValue};

    ghost Value = { ServedValue };

    ghost view = { λ served. record {
      stage = served.stage;
      polls = served.polls;
      bounds = K.bounds served.clock;
    } };
}

impl<'g, C: Conn + Drop, W: EventWait + Drop, K: Clock + Drop, G> Drop for Served<'g, C, W, K, G> {
    fn drop(self) {
        let Served {
            stage: _,
            clock: _,
            gate: _,
            number: _,
            polls: _,
            pairs: _,
        } = self;
    }
}

impl<'g, C: Conn + Drop, W: EventWait + Drop, K: Clock + Drop, G> Served<'g, C, W, K, G> {
    /// What stands in the slot of a place. The pair is idle once no byte went over for `idle`
    /// nanoseconds, 1 to 10^18, from `start` on, by this clock. `OutOfMemory` where there was no memory for what the
    /// pair keeps of its sides; it is let go then, and its sources stay in the reactor.
    pub fn new(
        alloc: Global,
        place: Place<C, W>,
        idle: u64,
        start: Moment,
        gate: &'g G,
        clock: K,
    ) -> Result<Served<'g, C, W, K, G>, OutOfMemory>
        requires some { 0 < idle }
        requires bound { idle ≤ 10 ^ 18 }
        ensures { IfOk result (λ served. served
            ≡ record { stage = first_stage idle start place; polls = 0; bounds = K.bounds clock }) }
    {
        Served::among(alloc, place, idle, start, gate, clock, 1)
    }

    /// The same of one of so many pairs that have their turns with it.
    pub(crate) fn among(
        alloc: Global,
        place: Place<C, W>,
        idle: u64,
        start: Moment,
        gate: &'g G,
        clock: K,
        pairs: u32,
    ) -> Result<Served<'g, C, W, K, G>, OutOfMemory>
        requires some { 0 < idle }
        requires bound { idle ≤ 10 ^ 18 }
        ensures { IfOk result (λ served. served
            ≡ record { stage = first_stage idle start place; polls = 0; bounds = K.bounds clock }) }
    {
        let Place { number, sides } = place;
        let stage = match sides {
            Err(fault) => Stage::Refused(fault),
            Ok((a, b)) => match Pair::new(alloc, a, b, idle, start) {
                Ok(pair) => Stage::Open(pair),
                Err(_) => return Err(OutOfMemory),
            },
        };
        Ok(Served {
            stage,
            clock,
            gate,
            number,
            polls: 0,
            pairs,
        })
    }
}

impl<C: Conn + Drop, W: EventWait + Drop, K: Clock + Drop, G: Gate> Served<'_, C, W, K, G> {
    // Polls a pair, and again at once where it may have more to read. One that ends is over; any other
    // is as open as before.
    fn poll_open<R: Wait, N: Notify>(
        &mut self,
        mut pair: Pair<SourceEnd<C, W>>,
        host: &mut Inside<R, N, C, W>,
        cx: Cx,
    ) -> Poll<PairEnd>
        requires { self.old.stage ≡ Over }
        ensures ready { IfReady result (λ end. stage_gives (Open pair)
            (N.is_sure host.old.member.notifier) (latest_at self.old.bounds cx.now) end) }
        ensures pending { WhilePending result ((moment : ℕ) (end : PairEnd)
            → latest_at self.old.bounds cx.now ≤ moment
            → stage_gives self.new.stage (N.is_sure host.old.member.notifier) moment end
            → stage_gives (Open pair) (N.is_sure host.old.member.notifier) moment end) }
        ensures step { PollsOpen
            ⟦<Pair<SourceEnd<C, W>> as Task<Inside<R, N, C, W>>>⟧.poll_step
            (Removes C.arm_step C.rest C.fault_count)
            pair host.old cx result self.new.stage host.new }
        ensures polls { self.new.polls ≡ self.old.polls }
        ensures bounds { self.new.bounds ≡ self.old.bounds }
        ensures later { IsLaterInside N.fault_count N.is_sure host.old host.new }
    {
        if let Poll::Ready(end) = poll_in_a_row(&mut pair, &mut self.clock, host, cx, self.pairs) {
            self.close(pair, &host.rt);
            return Poll::Ready(end);
        }
        self.stage = Stage::Open(pair);
        Poll::Pending
    }

    // Closes both ends of a pair that has ended, and tells the gate. A fault of a close is passed over: the
    // source is gone all the same, and the pair has its end.
    fn close<R: Wait>(&self, pair: Pair<SourceEnd<C, W>>, rt: &R)
        ensures both { ClosesBoth (Removes C.arm_step C.rest C.fault_count) pair }
    {
        let (a, b) = pair.into_ends();
        let _passed_over = a.close(rt);
        let _passed_over = b.close(rt);
        self.gate.passed(self.number);
    }
}

// How often one of so many pairs is polled in a row at most.
fn polls_in_a_row(pairs: u32) -> u32
    ensures some { 1 ≤ result }
    ensures most { result ≤ 128 }
{
    if pairs == 0 {
        return 1;
    }
    (POLLS_IN_A_TURN / pairs).max(1).min(POLLS_IN_A_TURN)
}

// The moment of a poll: that of the clock, or the worker's where that is later.
fn moment_of<K: Clock>(clock: &mut K, least: Moment) -> Moment
    ensures order { least ≤ result }
    ensures latest { result ≤ latest_at (K.bounds clock.old) least }
    ensures bounds { K.bounds clock.new ≡ K.bounds clock.old }
{
    let now = clock.now();
    if now.get() < least.get() { least } else { now }
}

// Polls one of so many pairs, and again at once while it reads a block in each poll.
fn poll_in_a_row<R: Wait, N: Notify, C: Conn + Drop, W: EventWait + Drop, K: Clock>(
    pair: &mut Pair<SourceEnd<C, W>>,
    clock: &mut K,
    host: &mut Inside<R, N, C, W>,
    cx: Cx,
    pairs: u32,
) -> Poll<PairEnd>
    ensures ready { IfReady result (λ end. stage_gives (Open pair.old)
        (N.is_sure host.old.member.notifier) (latest_at (K.bounds clock.old) cx.now) end) }
    ensures pending { WhilePending result ((moment : ℕ) (end : PairEnd)
        → latest_at (K.bounds clock.old) cx.now ≤ moment
        → stage_gives (Open pair.new) (N.is_sure host.old.member.notifier) moment end
        → stage_gives (Open pair.old) (N.is_sure host.old.member.notifier) moment end) }
    ensures step { PollsInARow
        ⟦<Pair<SourceEnd<C, W>> as Task<Inside<R, N, C, W>>>⟧.poll_step
        pair.old host.old cx result pair.new host.new }
    ensures bounds { K.bounds clock.new ≡ K.bounds clock.old }
    ensures later { IsLaterInside N.fault_count N.is_sure host.old host.new }
{
    let Cx { parker, mask, now } = cx;
    let mut polls_left = polls_in_a_row(pairs);
    loop {
        let now = moment_of(clock, now);
        match pair.poll(host, Cx { parker, mask, now }) {
            Poll::Ready(end) => return Poll::Ready(end),
            Poll::Pending => {}
        }
        polls_left -= 1;
        if polls_left == 0 || !pair.has_more() {
            return Poll::Pending;
        }
    }
}

impl<
    R: Wait + Threads + Sync + Send + Copy,
    N: Notify,
    C: Conn + Drop,
    W: EventWait + Drop,
    K: Clock + Drop,
    G: Gate,
> Task<Inside<R, N, C, W>> for Served<'_, C, W, K, G> {
    ghost use Rattle.aio_serve.specs.Served.{PollsServed, served_gives, served_gives_later};
    ghost use Rattle.aio_sources.specs.Sources.{Removes};

    type Output = PairEnd;

    ghost gives = { served_gives };

    ghost poll_step = { PollsServed
        ⟦<Pair<SourceEnd<C, W>> as Task<Inside<R, N, C, W>>>⟧.poll_step
        (Removes C.arm_step C.rest C.fault_count) };

    ghost poll_count = { λ served. served.polls };

    fn poll(&mut self, host: &mut Inside<R, N, C, W>, cx: Cx) -> Poll<PairEnd> {
        let is_first = self.polls == 0;
        self.polls = self.polls.saturating_add(1);
        match mem::replace(&mut self.stage, Stage::Over) {
            Stage::Open(pair) => {
                if is_first {
                    let _passed_over = self.gate.hold(&host.rt, self.number);
                }
                self.poll_open(pair, host, cx)
            }
            Stage::Refused(fault) => {
                self.gate.passed(self.number);
                Poll::Ready(PairEnd::ArmFault(fault))
            }
            Stage::Over => Poll::Pending,
        }
    }

    fn polls(&self) -> u64 {
        self.polls
    }

    ghost gives_later = { served_gives_later };
}
