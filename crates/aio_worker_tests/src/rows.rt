//! A server over connections in memory, as the rows of a table tell it.

ghost use Rattle.std.specs.Prelude.{◌≡◌};

use crate::asserts::{MEMORY, same_in};
use aio_base::{ArmFault, CountFault, EventWait, Gate, Key, Moment, Parts, Placement, Spawner};
use aio_conns::{ENDS, MemPort, Peer};
use aio_devices::{FailingWait, MemClock, MemNotify, clock_until, fault_after};
use aio_pairs::{PairEnd, Side};
use aio_serve::{ServeFault, serve};
use std::alloc::Global;
use std::process::Abort;
use std::sync::Wait;
use std::thread::Threads;

/// What a server is asked for, and what comes of it.
#[derive(Clone, Copy)]
pub(crate) struct Row<'a> {
    /// What it shows.
    pub(crate) shows: &'static str,
    /// What the other ends of the connections do, in turn those of sides A and B.
    pub(crate) peers: &'a [Peer<'a>],
    /// How many workers there are.
    pub(crate) workers: u32,
    /// Where they run.
    pub(crate) placement: Placement,
    /// After how many nanoseconds without a byte a pair ends.
    pub(crate) idle: u64,
    /// The ends of the pairs.
    pub(crate) ends: &'a [End],
}

/// One worker on the caller.
pub(crate) const ALONE: Row<'static> = Row {
    shows: "",
    peers: &[],
    workers: 1,
    placement: Placement::Caller,
    idle: 1000,
    ends: &[],
};

/// The end of a pair.
#[derive(Clone, Copy)]
pub(crate) enum End {
    /// All came, and so many bytes were written to side B.
    Ended(u64),
    /// Nothing came between these two moments.
    Idle(u64, u64),
    /// A line of side A is too long, at this place.
    TooLong(u64),
    /// A read failed after so many faults of its connection.
    ReadFault(u64),
    /// An arm of this key failed, as its connection's first fault.
    ArmFault(u32),
}

/// Sends two bytes of a line, then nothing for once, and then a line feed, and ends.
pub(crate) const HALTS: Peer<'static> = Peer {
    first: b"ab",
    blocks: true,
    last: b"\n",
    ..ENDS
};

/// The first fault of a device.
pub(crate) const FIRST: CountFault = CountFault {
    before: 0,
    after: 1,
};

/// Jobs run where a row says.
#[derive(Drop)]
struct Chosen {
    placement: Placement,
}

impl Spawner for Chosen {
    fn placement(&self) -> Placement {
        self.placement
    }
}

/// The moment so many nanoseconds after the clock's start.
pub(crate) fn moment(rt: &impl Abort, nanoseconds: u64) -> Moment
    ensures { result ≡ nanoseconds }
{
    Moment::new(nanoseconds).expect(rt, "the moment is at most 10^18")
}

/// A clock that stands at 0 for so many looks, and then at this moment.
pub(crate) fn clock_to(rt: &impl Abort, alloc: Global, (looks, at): (usize, u64)) -> MemClock {
    clock_until(alloc, looks, moment(rt, at)).expect(rt, MEMORY)
}

/// Of a clock that stands still, at 0.
pub(crate) const STILL: (usize, u64) = (0, 0);

/// A port that hands out connections to these peers.
pub(crate) fn port_of(rt: &impl Abort, alloc: Global, peers: &[Peer<'_>]) -> MemPort {
    let mut conns = Vec::new(alloc);
    for peer in peers {
        let conn = peer.connection(alloc).expect(rt, MEMORY);
        conns.push(conn).expect(rt, MEMORY);
    }
    MemPort::new(conns)
}

/// What the server of a row comes to over this wait, clock and gate.
pub(crate) fn served<
    R: Wait + Threads + Sync + Send + Copy + Abort,
    W: EventWait + Send,
    G: Gate + Sync,
>(
    rt: &R,
    alloc: Global,
    row: &Row<'_>,
    devices: (&mut W, &mut MemClock, &mut G),
) -> Result<Vec<PairEnd>, ServeFault> {
    let (wait, clock, gate) = devices;
    let parts = Parts {
        port: &mut port_of(rt, alloc, row.peers),
        wait,
        notify: &mut MemNotify::new(),
        clock,
        gate,
        spawner: &mut Chosen {
            placement: row.placement,
        },
    };
    let pairs = (row.peers.len() / 2).clamp(1, 64) as u32;
    let workers = row.workers.clamp(1, 16);
    serve(rt, alloc, parts, workers, row.idle.clamp(1, 1000), pairs)
}

/// An end, as the server tells it.
fn told(rt: &impl Abort, end: End) -> PairEnd {
    match end {
        End::Ended(to_b) => PairEnd::Ended { to_a: 0, to_b },
        End::Idle(last, now) => PairEnd::Idle {
            last: moment(rt, last),
            now: moment(rt, now),
        },
        End::TooLong(at) => PairEnd::TooLong { side: Side::A, at },
        End::ReadFault(before) => PairEnd::ReadFault(fault_after(before)),
        End::ArmFault(key) => PairEnd::ArmFault(ArmFault {
            key: Key(key),
            before: 0,
            after: 1,
        }),
    }
}

/// The ends of a row.
fn wanted(rt: &impl Abort, alloc: Global, ends: &[End]) -> Vec<PairEnd> {
    let mut wanted = Vec::new(alloc);
    for end in ends {
        wanted.push(told(rt, *end)).expect(rt, MEMORY);
    }
    wanted
}

/// Asserts that the pairs of a row come to its ends over this wait, clock and gate.
pub(crate) fn plays<
    R: Wait + Threads + Sync + Send + Copy + Abort,
    W: EventWait + Send,
    G: Gate + Sync,
>(rt: &R, alloc: Global, row: &Row<'_>, devices: (&mut W, &mut MemClock, &mut G)) {
    let wanted = wanted(rt, alloc, row.ends);
    same_in(rt, row.shows, served(rt, alloc, row, devices), Ok(wanted));
}

/// The same over a wait that gives events of so many keys, 1,024 at most, and a clock that stands still. How often
/// the server waited.
pub(crate) fn waits_of<R: Wait + Threads + Sync + Send + Copy + Abort, G: Gate + Sync>(
    rt: &R,
    alloc: Global,
    row: &Row<'_>,
    keys: u32,
    gate: &mut G,
) -> u64 {
    let mut wait = FailingWait::new(keys.min(1024), Vec::new(alloc));
    let mut clock = clock_to(rt, alloc, STILL);
    plays(rt, alloc, row, (&mut wait, &mut clock, gate));
    wait.waits()
}
