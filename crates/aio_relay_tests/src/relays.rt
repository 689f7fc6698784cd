//! A pair over connections in memory with its host, which carries out the acts of a table.

ghost use Rattle.std.specs.Prelude.{◌<◌};

use crate::asserts::{MEMORY, same_in};
use crate::hosts::{ListHost, Trouble};
use aio_base::{Conn, CountFault, Cx, Host, Key, Moment, Poll, Task};
use aio_conns::{MemConn, Peer, SILENT};
use aio_future::TryFault;
use aio_relay::{MemEnd, Pair, PairEnd, Side};
use aio_source::{SourceCell, SourceState};
use std::alloc::Global;
use std::process::Abort;

/// A pair that is to be made, what is done with it, and what comes of each act.
#[derive(Clone, Copy)]
pub(crate) struct Row<'a> {
    /// What it shows.
    pub(crate) shows: &'static str,
    /// What the other end of side A does.
    pub(crate) a: Peer<'a>,
    /// What that of side B does.
    pub(crate) b: Peer<'a>,
    /// What its host meets.
    pub(crate) trouble: Trouble,
    /// Its idle time.
    pub(crate) idle: u64,
    /// The moment from which on it counts.
    pub(crate) start: u64,
    /// The acts, with what comes of each.
    pub(crate) acts: &'a [(Act, Came)],
}

/// Two connections over which nothing comes.
pub(crate) const QUIET: Row<'static> = Row {
    shows: "",
    a: SILENT,
    b: SILENT,
    trouble: Trouble::Nothing,
    idle: 1000,
    start: 0,
    acts: &[],
};

/// What is done with a pair.
#[derive(Clone, Copy)]
pub(crate) enum Act {
    /// Polls it at this moment, by slot 0.
    At(u64),
    /// Polls it at this moment, by slot 1.
    BySlotOne(u64),
    /// Looks which timers are registered.
    Timers,
    /// Takes which slots were woken.
    Woken,
    /// Looks whether a side was sent this text and no more.
    Sent(Side, &'static str),
    /// Counts the bytes that a side was sent.
    Length(Side),
}

/// What comes of it.
#[derive(Clone, Copy)]
pub(crate) enum Came {
    /// The pair waits.
    Waits,
    /// It is idle: the moment of the last byte, and that of the poll.
    Idles(u64, u64),
    /// It ends, and so many bytes were written to sides A and B.
    Ended(u64, u64),
    /// A line of a side is too long, at this place.
    TooLong(Side, u64),
    /// A call of a connection failed.
    Fails(TryFault),
    /// The host's notifier failed.
    NotifyFails(CountFault),
    /// There was no memory.
    NoMemory,
    /// One timer is registered, for this moment with this waker.
    One(u64, u32),
    /// So many timers, not one, or so many bytes.
    Count(usize),
    /// The slots, bit by bit.
    Slots(u64),
    /// Whether it is so.
    Is(bool),
}

/// What came, as it is compared: which it is, its numbers, its side, and the call that failed.
fn told(came: Came) -> (&'static str, [u64; 2], Option<Side>, Option<TryFault>) {
    match came {
        Came::Waits => ("waits", [0; 2], None, None),
        Came::Idles(last, now) => ("idles", [last, now], None, None),
        Came::Ended(to_a, to_b) => ("ended", [to_a, to_b], None, None),
        Came::TooLong(side, at) => ("too long", [at, 0], Some(side), None),
        Came::Fails(fault) => ("fails", [0; 2], None, Some(fault)),
        Came::NotifyFails(fault) => ("notify fails", [fault.before, fault.after], None, None),
        Came::NoMemory => ("no memory", [0; 2], None, None),
        Came::One(at, waker) => ("one", [at, waker as u64], None, None),
        Came::Count(count) => ("count", [count as u64, 0], None, None),
        Came::Slots(slots) => ("slots", [slots, 0], None, None),
        Came::Is(so) => ("is", [so as u64, 0], None, None),
    }
}

/// An end over a new source of a connection.
pub(crate) fn end_of<C>(alloc: Global, key: Key, io: C) -> MemEnd<C>
    requires { key.0 < 4096 }
{
    let state = SourceState::new(alloc, key);
    MemEnd {
        cell: SourceCell { state, io },
    }
}

/// A pair with its host.
#[derive(Drop)]
pub(crate) struct Relay {
    host: ListHost,
    pair: Pair<MemEnd<MemConn>>,
}

/// The longest idle time.
const LONGEST_IDLE: u64 = 1_000_000_000_000_000_000;

/// A pair over two connections, which have the keys 0 and 1. Its idle time is 1 to 10^18.
pub(crate) fn pair_of<C: Conn + Drop>(
    rt: &impl Abort,
    alloc: Global,
    sides: (C, C),
    idle: u64,
    start: Moment,
) -> Pair<MemEnd<C>> {
    let a = end_of(alloc, Key(0), sides.0);
    let b = end_of(alloc, Key(1), sides.1);
    let pair = Pair::new(alloc, a, b, idle.clamp(1, LONGEST_IDLE), start).ok();
    pair.expect(rt, MEMORY)
}

/// The same over connections to these peers, of which calls may fail.
pub(crate) fn pair_over(
    rt: &impl Abort,
    alloc: Global,
    (a, b): (&Peer<'_>, &Peer<'_>),
    idle: u64,
    start: Moment,
) -> Pair<MemEnd<MemConn>> {
    let a = a.connection(alloc).expect(rt, MEMORY);
    let b = b.connection(alloc).expect(rt, MEMORY);
    pair_of(rt, alloc, (a, b), idle, start)
}

impl Relay {
    /// The pair of a row, with a new host.
    fn new(rt: &impl Abort, alloc: Global, row: &Row<'_>) -> Relay {
        let start = moment(rt, row.start);
        Relay {
            pair: pair_over(rt, alloc, (&row.a, &row.b), row.idle, start),
            host: ListHost::new(alloc, row.trouble),
        }
    }

    /// Polls the pair.
    fn poll(&mut self, now: Moment, mask: u64) -> Came {
        let cx = Cx {
            parker: 0,
            mask,
            now,
        };
        came_of(poll(&mut self.pair, &mut self.host, cx))
    }

    /// Which timers are registered.
    fn timers(&self) -> Came {
        match self.host.only_timer() {
            Some((at, waker)) => Came::One(at, waker),
            None => Came::Count(self.host.timers()),
        }
    }

    /// What a side was sent.
    fn sent(&self, side: Side) -> &[u8] {
        self.pair.end(side).cell.io.sent()
    }

    /// Does this.
    fn act(&mut self, rt: &impl Abort, act: Act) -> Came {
        match act {
            Act::At(now) => self.poll(moment(rt, now), 1),
            Act::BySlotOne(now) => self.poll(moment(rt, now), 2),
            Act::Timers => self.timers(),
            Act::Woken => Came::Slots(self.host.take_woken()),
            Act::Sent(side, text) => Came::Is(self.sent(side) == text.as_bytes()),
            Act::Length(side) => Came::Count(self.sent(side).len()),
        }
    }

    /// Asserts that what these acts come to is what stands beside each.
    fn plays(&mut self, rt: &impl Abort, row: &Row<'_>) {
        for (act, came) in row.acts {
            same_in(rt, row.shows, told(self.act(rt, *act)), told(*came));
        }
    }
}

/// Polls a task, through the bound alone.
pub(crate) fn poll<H: Host, T: Task<H>>(task: &mut T, host: &mut H, cx: Cx) -> Poll<T::Output> {
    task.poll(host, cx)
}

/// What the answer to a poll comes to.
fn came_of(answer: Poll<PairEnd>) -> Came {
    let Poll::Ready(end) = answer else {
        return Came::Waits;
    };
    match end {
        PairEnd::Ended { to_a, to_b } => Came::Ended(to_a, to_b),
        PairEnd::Idle { last, now } => Came::Idles(last.get(), now.get()),
        PairEnd::TooLong { side, at } => Came::TooLong(side, at),
        PairEnd::ReadFault(fault) => Came::Fails(TryFault::Read(fault)),
        PairEnd::WriteFault(fault) => Came::Fails(TryFault::Write(fault)),
        PairEnd::ArmFault(fault) => Came::Fails(TryFault::Arm(fault)),
        PairEnd::NotifyFault(fault) => Came::NotifyFails(fault),
        PairEnd::OutOfMemory => Came::NoMemory,
    }
}

/// The moment so many nanoseconds after the clock's start.
pub(crate) fn moment(rt: &impl Abort, nanoseconds: u64) -> Moment {
    Moment::new(nanoseconds).expect(rt, "the moment is at most 10^18")
}

/// Makes the pair of a row, and asserts that what its acts come to is what stands beside each.
pub(crate) fn plays(rt: &impl Abort, alloc: Global, row: &Row<'_>) {
    let mut relay = Relay::new(rt, alloc, row);
    relay.plays(rt, row);
}

/// The same of each row of a table.
pub(crate) fn plays_each(rt: &impl Abort, alloc: Global, rows: &[Row<'_>]) {
    for row in rows {
        plays(rt, alloc, row);
    }
}
