//! What no clause says of several workers, each on a thread: that they serve their pairs side by side,
//! and that whoever ends, or stops for a fault, leaves no other one parked for good. Where that went
//! wrong the tests would not end.

use crate::asserts::{MEMORY, same};
use crate::gates::{NotingGate, Until};
use crate::rows::{
    ALONE, End, FIRST, HALTS, Row, STILL, clock_to, plays, port_of, served, waits_of,
};
use aio_base::{ArmFault, Key, Parts, Placement};
use aio_conns::{ENDS, Peer, SILENT};
use aio_devices::{FailingWait, MemNotify};
use aio_pairs::PairEnd;
use aio_serve::{OpenGate, ServeFault, ThreadSpawner, serve};
use std::alloc::Global;
use std::process::Abort;
use std::sync::Wait;
use std::thread::Threads;

/// Two workers on threads.
const TWO: Row<'static> = Row {
    workers: 2,
    placement: Placement::Threads,
    ..ALONE
};

const SIDE_BY_SIDE: Row<'static> = Row {
    shows: "pairs of two workers are served side by side",
    peers: &[HALTS, ENDS, HALTS, ENDS],
    ends: &[End::Ended(3), End::Ended(3)],
    ..TWO
};

#[test]
fn pairs_of_two_workers_are_served_side_by_side(rt: HostRuntime) {
    let mut gate = NotingGate::new(&[(1, Until::Ended(2))]);
    waits_of(&&rt, rt.alloc(), &SIDE_BY_SIDE, 14, &mut gate);
    same(&rt, (gate.let_go(), gate.ended_pairs()), (1 << 1, 21));
}

/// Seven pairs, of which the third sends a line that is too long, the sixth fails its first read, and each
/// other one sends another number of bytes.
const SEVEN: [Peer<'static>; 14] = [
    Peer {
        first: b"",
        ..HALTS
    },
    ENDS,
    Peer {
        first: b"a",
        ..HALTS
    },
    ENDS,
    Peer {
        first: &[b'a'; 4096],
        ..ENDS
    },
    ENDS,
    Peer {
        first: b"abc",
        ..HALTS
    },
    ENDS,
    Peer {
        first: b"abcd",
        ..HALTS
    },
    ENDS,
    Peer {
        fails: &[2],
        ..ENDS
    },
    ENDS,
    Peer {
        first: b"abcdef",
        ..HALTS
    },
    ENDS,
];

/// What these come to.
const SEVEN_ENDS: [End; 7] = [
    End::Ended(1),
    End::Ended(2),
    End::TooLong(4096),
    End::Ended(4),
    End::Ended(5),
    End::ReadFault(0),
    End::Ended(7),
];

/// Servers whose pairs each come to their ends, whoever serves them.
const ROWS: &[Row<'static>] = &[
    Row {
        shows: "one worker on a thread serves all pairs",
        peers: &[HALTS, ENDS, HALTS, ENDS],
        workers: 1,
        ends: &[End::Ended(3), End::Ended(3)],
        ..TWO
    },
    Row {
        shows: "ends stand in the order of the pairs, on threads",
        peers: &SEVEN,
        workers: 3,
        ends: &SEVEN_ENDS,
        ..TWO
    },
    Row {
        shows: "ends stand in the order of the pairs, on the caller",
        peers: &SEVEN,
        workers: 3,
        ends: &SEVEN_ENDS,
        ..ALONE
    },
    Row {
        shows: "workers without pairs end at once",
        peers: &[
            Peer {
                first: b"a",
                ..HALTS
            },
            ENDS,
            HALTS,
            ENDS,
        ],
        workers: 16,
        ends: &[End::Ended(2), End::Ended(3)],
        ..TWO
    },
    // The add is the first call of a connection.
    Row {
        shows: "a connection that cannot join ends its pair alone",
        peers: &[
            HALTS,
            ENDS,
            Peer {
                fails: &[1],
                ..HALTS
            },
            ENDS,
            HALTS,
            ENDS,
            HALTS,
            ENDS,
        ],
        ends: &[
            End::Ended(3),
            End::ArmFault(2),
            End::Ended(3),
            End::Ended(3),
        ],
        ..TWO
    },
];

#[test]
fn ends_stand_in_the_order_of_the_pairs_whoever_serves_them(rt: HostRuntime) {
    for row in ROWS {
        waits_of(&&rt, rt.alloc(), row, 14, &mut OpenGate);
    }
}

/// Pair 1 ends at its first poll, the others after rounds.
const UNEVEN: Row<'static> = Row {
    shows: "a worker that ends leaves nobody parked",
    peers: &[
        Peer {
            first: b"x\n",
            ..ENDS
        },
        ENDS,
        Peer {
            first: b"a",
            ..HALTS
        },
        ENDS,
        HALTS,
        ENDS,
        Peer {
            first: b"abc",
            ..HALTS
        },
        ENDS,
    ],
    workers: 4,
    ends: &[End::Ended(2), End::Ended(2), End::Ended(3), End::Ended(4)],
    ..TWO
};

#[test]
fn a_worker_that_ends_leaves_nobody_parked(rt: HostRuntime) {
    for _time in 0..200 {
        waits_of(&&rt, rt.alloc(), &UNEVEN, 14, &mut OpenGate);
    }
}

/// No event ever comes for pair 2: only the time that passes ends it.
const IDLE_AT_LAST: Row<'static> = Row {
    shows: "a pair is idle though the worker that made rounds has ended",
    peers: &[HALTS, ENDS, SILENT, SILENT],
    ends: &[End::Ended(3), End::Idle(0, 1000)],
    ..TWO
};

// Over a wait that gives events of the connections of pair 1 alone, and a clock that comes to the idle time once
// it was looked at a thousand times.
#[test]
fn a_worker_that_ends_leaves_time_to_the_others(rt: HostRuntime) {
    for _time in 0..20 {
        let mut wait = FailingWait::new(2, Vec::new(rt.alloc()));
        let mut clock = clock_to(&rt, rt.alloc(), (1000, 1000));
        let devices = (&mut wait, &mut clock, &mut OpenGate);
        plays(&&rt, rt.alloc(), &IDLE_AT_LAST, devices);
    }
}

/// Three pairs that send nothing and never end, each of another worker.
const NOTHING_COMES: Row<'static> = Row {
    peers: &[SILENT; 6],
    workers: 3,
    ..TWO
};

/// Whether they stop over a wait that fails, for its fault.
fn stops<R: Wait + Threads + Sync + Send + Copy + Abort>(rt: &R, alloc: Global) -> bool {
    let fails = [1, 2, 3, 4, 5, 6].to_vec(alloc).expect(rt, MEMORY);
    let mut wait = FailingWait::new(6, fails);
    let devices = (&mut wait, &mut clock_to(rt, alloc, STILL), &mut OpenGate);
    let stopped = served(rt, alloc, &NOTHING_COMES, devices);
    matches!(stopped, Err(ServeFault::Wait(_)))
}

#[test]
fn a_worker_that_stops_for_a_fault_leaves_nobody_parked(rt: HostRuntime) {
    for _time in 0..100 {
        same(&rt, stops(&&rt, rt.alloc()), true);
    }
}

/// The ends of four pairs over two workers on threads, of which the second one's side A fails these calls.
fn ends_with_a_failing_call<R: Wait + Threads + Sync + Send + Copy + Abort>(
    rt: &R,
    alloc: Global,
    fails: &[u64],
) -> Vec<PairEnd> {
    let failing = Peer {
        first: b"ab",
        blocks: true,
        last: b"\n",
        fails,
        ..ENDS
    };
    let peers = [HALTS, ENDS, failing, ENDS, HALTS, ENDS, HALTS, ENDS];
    let parts = Parts {
        port: &mut port_of(rt, alloc, &peers),
        wait: &mut FailingWait::new(8, Vec::new(alloc)),
        notify: &mut MemNotify::new(),
        clock: &mut clock_to(rt, alloc, STILL),
        gate: &mut OpenGate,
        spawner: &mut ThreadSpawner,
    };
    serve(rt, alloc, parts, 2, 1000, 4).expect(rt, "the pairs come to their ends")
}

/// What a failing call of its side A can bring a pair to.
const OF_A_FAILING_CALL: [PairEnd; 4] = [
    PairEnd::ReadFault(FIRST),
    PairEnd::ArmFault(ArmFault {
        key: Key(2),
        before: 0,
        after: 1,
    }),
    PairEnd::WriteFault(FIRST),
    ENDED,
];

/// The end of the other pairs.
const ENDED: PairEnd = PairEnd::Ended { to_a: 0, to_b: 3 };

/// The ends of the other three of four pairs, and whether a failing call can bring about that of the second.
fn of_four(ends: &[PairEnd]) -> Option<([PairEnd; 3], bool)> {
    match ends {
        [first, second, third, fourth] => {
            let may_be = OF_A_FAILING_CALL.contains(second);
            Some(([*first, *third, *fourth], may_be))
        }
        _ => None,
    }
}

#[test]
fn a_failing_call_ends_its_own_pair_at_most(rt: HostRuntime) {
    for number in 1..13 {
        let ends = ends_with_a_failing_call(&&rt, rt.alloc(), &[number]);
        same(&rt, of_four(&ends), Some(([ENDED; 3], true)));
    }
}
