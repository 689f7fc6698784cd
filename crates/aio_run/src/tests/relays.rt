//! What no clause says of a relay: that a port which is not bound ends it before anything is written, and that
//! it serves pairs to their ends.

use crate::tests::asserts::{MEMORY, same};
use crate::tests::kits::{Course, NOTHING_COMES};
use crate::tests::runs::{
    FIRST_FAULT, Failing, NOTHING_FAILS, Wrote, assert_ran, run_with, source_of,
};
use crate::{Which6, Why};
use aio_base::{Placement, Port};
use aio_conns::{ClosedPort, ENDS, MemPort, Peer, SILENT};
use std::alloc::{AllocGlobal, Global};
use std::process::Abort;
use std::sync::Wait;
use std::thread::Threads;

/// Sends a line in two pieces and two bytes behind it, and ends.
const TORN: Peer<'static> = Peer {
    first: b"ab",
    blocks: true,
    last: b"\ncd",
    ..ENDS
};

/// Bytes that are one too many for a line whose end is still to come.
const LONG: &[u8] = &[b'a'; 4096];

/// A relay: how many workers and pairs it is asked for, what the other ends of its connections do, in turn
/// those of sides A and B, what its devices do, and what comes of it.
struct Row {
    workers: &'static str,
    pairs: &'static str,
    peers: &'static [Peer<'static>],
    course: Course,
    failing: Failing,
    wanted: Wrote<'static>,
    why: Why,
}

/// Each wait gives an event of each of four connections.
const FOUR_KEYS: Course = Course {
    keys: 4,
    ..NOTHING_COMES
};

/// The same, with workers on threads.
const ON_THREADS: Course = Course {
    placement: Placement::Threads,
    ..FOUR_KEYS
};

/// What a relay writes of two pairs of which side A sent a line of three bytes.
const TWO_ENDED: Wrote<'static> = (
    b"listening 4000\npair 1 ended 0 3\npair 2 ended 0 3\n",
    b"",
    0,
);

/// Why a relay stops for the first fault of its port.
const PORT_FAULT: Why = Why::DeviceFault {
    which: Which6::Port,
    fault: FIRST_FAULT,
};

/// Why it stops for that of its wait.
const WAIT_FAULT: Why = Why::DeviceFault {
    which: Which6::Wait,
    fault: FIRST_FAULT,
};

/// Relays over ports that can be bound.
const ROWS: &[Row] = &[
    Row {
        workers: "1",
        pairs: "2",
        peers: &[TORN, ENDS, TORN, ENDS],
        course: FOUR_KEYS,
        failing: NOTHING_FAILS,
        wanted: TWO_ENDED,
        why: Why::Done,
    },
    // Two workers, one after the other.
    Row {
        workers: "2",
        pairs: "2",
        peers: &[TORN, ENDS, TORN, ENDS],
        course: FOUR_KEYS,
        failing: NOTHING_FAILS,
        wanted: TWO_ENDED,
        why: Why::Done,
    },
    // Two on threads.
    Row {
        workers: "2",
        pairs: "2",
        peers: &[TORN, ENDS, TORN, ENDS],
        course: ON_THREADS,
        failing: NOTHING_FAILS,
        wanted: TWO_ENDED,
        why: Why::Done,
    },
    // Sixteen on threads, of which two have a pair.
    Row {
        workers: "16",
        pairs: "2",
        peers: &[TORN, ENDS, TORN, ENDS],
        course: ON_THREADS,
        failing: NOTHING_FAILS,
        wanted: TWO_ENDED,
        why: Why::Done,
    },
    // A port with too few connections.
    Row {
        workers: "1",
        pairs: "2",
        peers: &[TORN, ENDS, TORN],
        course: FOUR_KEYS,
        failing: NOTHING_FAILS,
        wanted: (b"listening 4000\n", b"device fault\n", 6),
        why: PORT_FAULT,
    },
    // The same with two workers on threads.
    Row {
        workers: "2",
        pairs: "2",
        peers: &[TORN, ENDS, TORN],
        course: ON_THREADS,
        failing: NOTHING_FAILS,
        wanted: (b"listening 4000\n", b"device fault\n", 6),
        why: PORT_FAULT,
    },
    // A wait that fails.
    Row {
        workers: "1",
        pairs: "2",
        peers: &[TORN, ENDS, TORN, ENDS],
        course: Course {
            fails: &[1],
            ..FOUR_KEYS
        },
        failing: NOTHING_FAILS,
        wanted: (b"listening 4000\n", b"device fault\n", 6),
        why: WAIT_FAULT,
    },
    // An output that takes the first line alone.
    Row {
        workers: "1",
        pairs: "2",
        peers: &[TORN, ENDS, TORN, ENDS],
        course: FOUR_KEYS,
        failing: Failing {
            writes: &[2],
            ..NOTHING_FAILS
        },
        wanted: (b"listening 4000\n", b"write fault\n", 4),
        why: Why::WriteFault(FIRST_FAULT),
    },
    // Pairs that come to each of the ends that connections alone can bring about. The first call of each
    // connection is its add.
    Row {
        workers: "1",
        pairs: "8",
        peers: &[
            TORN,
            ENDS,
            Peer {
                first: b"x\n",
                ..SILENT
            },
            SILENT,
            Peer {
                first: LONG,
                ..SILENT
            },
            SILENT,
            ENDS,
            Peer {
                first: b"x\n",
                last: LONG,
                ..ENDS
            },
            Peer {
                first: b"x\n",
                fails: &[2],
                ..ENDS
            },
            ENDS,
            TORN,
            // It is read to its end before there is a line to write.
            Peer {
                fails: &[3],
                ..ENDS
            },
            Peer {
                first: b"x\n",
                fails: &[1],
                ..ENDS
            },
            ENDS,
            // It is armed as its read is blocked.
            Peer {
                fails: &[3],
                ..SILENT
            },
            ENDS,
        ],
        course: Course {
            keys: 16,
            until: 1000,
            ..NOTHING_COMES
        },
        failing: NOTHING_FAILS,
        wanted: (
            b"listening 4000\npair 1 ended 0 3\npair 2 idle 0 1000\npair 3 too long a 4096\n\
pair 4 too long b 4098\npair 5 read fault\npair 6 write fault\npair 7 arm fault\npair 8 arm fault\n",
            b"",
            0,
        ),
        why: Why::Done,
    },
];

/// A port that hands out connections to these peers.
fn port_of(rt: &impl Abort, alloc: Global, peers: &[Peer<'_>]) -> MemPort {
    let mut conns = Vec::new(alloc);
    for peer in peers {
        let conn = peer.connection(alloc).expect(rt, MEMORY);
        conns.push(conn).expect(rt, MEMORY);
    }
    MemPort::new(conns)
}

/// Runs a relay over a port, and asserts what came of it.
fn relay_over<R: Wait + Threads + Sync + Send + Copy + AllocGlobal + Abort, P: Port + Drop>(
    rt: &R,
    port: P,
    row: &Row,
)
where
    P::C: Send + Drop,
{
    let mut source = source_of(rt, rt.alloc(), b"", 1, &[]);
    let words = ["relay", "0", row.workers, "1000", row.pairs];
    let ran = run_with(rt, &words, &mut source, row.failing, port, row.course);
    assert_ran(rt, &ran, row.wanted, row.why);
    same(rt, ran.status.why, row.why);
}

#[test]
fn a_relay_tells_what_its_pairs_come_to_and_why_it_stops(rt: HostRuntime) {
    for row in ROWS {
        relay_over(&&rt, port_of(&rt, rt.alloc(), row.peers), row);
    }
}

/// A relay over a port that cannot be bound.
const NOT_BOUND: Row = Row {
    workers: "1",
    pairs: "2",
    peers: &[],
    course: FOUR_KEYS,
    failing: NOTHING_FAILS,
    wanted: (b"", b"device fault\n", 6),
    why: PORT_FAULT,
};

#[test]
fn a_port_that_is_not_bound_ends_a_relay(rt: HostRuntime) {
    relay_over(&&rt, ClosedPort::new(), &NOT_BOUND);
}
