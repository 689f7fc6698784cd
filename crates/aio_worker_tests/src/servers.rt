//! What no clause says of a server: that it serves its pairs side by side to their ends, and that
//! it waits by the wait that it was lent.

use crate::asserts::{MEMORY, same};
use crate::gates::NotingGate;
use crate::rows::{ALONE, End, HALTS, Row, moment, plays, waits_of};
use aio_conns::{ENDS, Peer};
use aio_devices::{FailingWait, MemClock};
use aio_serve::OpenGate;
use std::alloc::Global;
use std::process::Abort;

/// Sends a line at once, and ends.
const PROMPT: Peer<'static> = Peer {
    first: b"x\n",
    ..ENDS
};

/// Pairs of one worker. The first call of a connection is its add.
const ROWS: &[Row<'static>] = &[
    Row {
        shows: "a connection that could not join ends its pair",
        peers: &[
            Peer {
                fails: &[1],
                ..HALTS
            },
            ENDS,
        ],
        ends: &[End::ArmFault(0)],
        ..ALONE
    },
    Row {
        shows: "a failed read ends its pair",
        peers: &[
            Peer {
                fails: &[2],
                ..HALTS
            },
            ENDS,
        ],
        ends: &[End::ReadFault(0)],
        ..ALONE
    },
];

#[test]
fn a_failing_connection_ends_its_pair(rt: HostRuntime) {
    for row in ROWS {
        waits_of(&&rt, rt.alloc(), row, 4, &mut NotingGate::new(&[]));
    }
}

const TWO_PAIRS: Row<'static> = Row {
    shows: "a server serves two pairs to their ends",
    peers: &[
        Peer {
            last: b"\ncd",
            ..HALTS
        },
        ENDS,
        Peer {
            last: b"\ncd",
            ..HALTS
        },
        ENDS,
    ],
    ends: &[End::Ended(3), End::Ended(3)],
    ..ALONE
};

#[test]
fn a_server_waits_by_the_wait_that_it_was_lent(rt: HostRuntime) {
    let waits = waits_of(&&rt, rt.alloc(), &TWO_PAIRS, 4, &mut NotingGate::new(&[]));
    same(&rt, waits > 0, true);
}

const HALTS_FIRST: Row<'static> = Row {
    shows: "a pair that halts does not hold up the next",
    peers: &[HALTS, ENDS, PROMPT, ENDS],
    ends: &[End::Ended(3), End::Ended(2)],
    ..ALONE
};

// The gate is told of pair 2 before pair 1.
#[test]
fn a_pair_that_halts_does_not_hold_up_the_next(rt: HostRuntime) {
    let mut gate = NotingGate::new(&[]);
    waits_of(&&rt, rt.alloc(), &HALTS_FIRST, 4, &mut gate);
    same(&rt, gate.ended_pairs(), 21);
}

const ALL_TO_GIVE: Row<'static> = Row {
    shows: "a pair with all to give ends whatever the clock does",
    peers: &[PROMPT, ENDS],
    idle: 1,
    ends: &[End::Ended(2)],
    ..ALONE
};

/// A clock that gives three moments.
fn leaping_clock(rt: &impl Abort, alloc: Global) -> MemClock {
    let (first, second, third) = (moment(rt, 0), moment(rt, 1000), moment(rt, 2000));
    MemClock::new(vec![in alloc; first, second, third].expect(rt, MEMORY))
}

#[test]
fn a_pair_with_all_to_give_ends_whatever_the_clock_does(rt: HostRuntime) {
    let mut wait = FailingWait::new(2, Vec::new(rt.alloc()));
    let mut clock = leaping_clock(&rt, rt.alloc());
    let devices = (&mut wait, &mut clock, &mut OpenGate);
    plays(&&rt, rt.alloc(), &ALL_TO_GIVE, devices);
}
