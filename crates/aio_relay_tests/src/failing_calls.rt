//! A pair of which a call of one connection fails, whichever call of the connection it is: the pair
//! ends by that fault, and what it has written is nothing or whole lines.

use crate::asserts::same;
use crate::hosts::{ListHost, Trouble};
use crate::lines::poll_to_end;
use crate::peers::TORN;
use crate::relays::{moment, pair_over};
use aio_base::{ArmFault, CountFault, Faults, Key};
use aio_conns::{ENDS, MemConn, Peer};
use aio_relay::{MemEnd, Pair, PairEnd, Side};
use std::alloc::Global;
use std::process::Abort;

/// The first fault of a device.
const FIRST: CountFault = CountFault {
    before: 0,
    after: 1,
};

/// Where no call fails.
const NO_FAULT: PairEnd = PairEnd::Ended { to_a: 0, to_b: 3 };

/// What a pair came to: its end, how many calls failed of its sides A and B, and whether nothing
/// was written to A and nothing or one line to B.
#[derive(Clone, Copy)]
struct Came {
    end: Option<PairEnd>,
    faults: (u64, u64),
    whole: bool,
}

/// Polls a pair to its end.
fn poll_on(rt: &impl Abort, alloc: Global, pair: &mut Pair<MemEnd<MemConn>>) -> Came {
    let mut host = ListHost::new(alloc, Trouble::Nothing);
    let end = poll_to_end(pair, &mut host, moment(rt, 0));
    let a = &pair.end(Side::A).cell.io;
    let b = &pair.end(Side::B).cell.io;
    let lines = b.sent().is_empty() || b.sent() == b"ab\n".as_slice();
    Came {
        end,
        faults: (a.faults(), b.faults()),
        whole: a.sent().is_empty() && lines,
    }
}

/// What a pair over these peers comes to.
fn comes_to(rt: &impl Abort, alloc: Global, a: &Peer<'_>, b: &Peer<'_>) -> Came {
    let mut pair = pair_over(rt, alloc, (a, b), 1000, moment(rt, 0));
    poll_on(rt, alloc, &mut pair)
}

/// Whether a pair came to its end without a fault, or to one of these where a call failed.
fn is_one_of(came: &Came, faults: &[PairEnd]) -> bool {
    let Some(end) = came.end else {
        return false;
    };
    match came.faults {
        (0, 0) => end == NO_FAULT,
        _ => faults.contains(&end),
    }
}

/// The call of this number of a side fails. Side A sends a line in two pieces and the front of another, and side B
/// ends at once.
fn fail(rt: &impl Abort, alloc: Global, side: Side, number: u64) -> Came {
    let fails = [number];
    let fails = fails.as_slice();
    match side {
        Side::A => comes_to(rt, alloc, &Peer { fails, ..TORN }, &ENDS),
        Side::B => comes_to(rt, alloc, &TORN, &Peer { fails, ..ENDS }),
    }
}

/// Asserts of each call of a side that its fault, which is one of these, ends the pair, where the pair comes to make
/// the call, as it does the first: then so many calls failed of sides A and B.
fn fail_each(rt: &impl Abort, alloc: Global, side: Side, first: (u64, u64), faults: &[PairEnd]) {
    same(rt, fail(rt, alloc, side, 1).faults, first);
    for number in 1..13 {
        let came = fail(rt, alloc, side, number);
        let ended = is_one_of(&came, faults);
        same(rt, (number, ended, came.whole), (number, true, true));
    }
}

/// The faults of side A.
const FAULTS_OF_A: [PairEnd; 2] = [
    PairEnd::ReadFault(FIRST),
    PairEnd::ArmFault(ArmFault {
        key: Key(0),
        before: 0,
        after: 1,
    }),
];

#[test]
fn whichever_call_of_side_a_fails_a_pair_ends_by_its_fault(rt: HostRuntime) {
    fail_each(&rt, rt.alloc(), Side::A, (1, 0), &FAULTS_OF_A);
}

/// Those of side B, which is written to as well.
const FAULTS_OF_B: [PairEnd; 3] = [
    PairEnd::ReadFault(FIRST),
    PairEnd::WriteFault(FIRST),
    PairEnd::ArmFault(ArmFault {
        key: Key(1),
        before: 0,
        after: 1,
    }),
];

#[test]
fn whichever_call_of_side_b_fails_a_pair_ends_by_its_fault(rt: HostRuntime) {
    fail_each(&rt, rt.alloc(), Side::B, (0, 1), &FAULTS_OF_B);
}
