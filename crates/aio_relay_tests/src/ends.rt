//! What a pair comes to, each end with its cause, and how it waits.

use crate::hosts::Trouble;
use crate::peers::TORN;
use crate::relays::Act::{At, BySlotOne, Sent, Timers, Woken};
use crate::relays::Came::{Count, Fails, Idles, Is, NoMemory, NotifyFails, One, Slots, Waits};
use crate::relays::{QUIET, Row, plays_each};
use aio_base::{ArmFault, CountFault, Key};
use aio_conns::{ENDS, Peer, SILENT};
use aio_future::TryFault;
use aio_relay::Side;

/// Sends a line, and nothing after that.
const ONE_LINE: Peer<'static> = Peer {
    first: b"x\n",
    ..SILENT
};

/// Pairs that wait, until they are idle where they come to that.
const WAITING: &[Row<'static>] = &[
    Row {
        shows: "a pair is idle once its time has passed",
        a: ONE_LINE,
        acts: &[
            (At(0), Waits),
            (At(999), Waits),
            (Timers, One(1000, 0)),
            (At(1000), Idles(0, 1000)),
            (Sent(Side::B, "x\n"), Is(true)),
            (Timers, Count(0)),
        ],
        ..QUIET
    },
    // The second poll moves the last byte, and the clock goes back after that.
    Row {
        shows: "the idle time counts from the last byte",
        a: Peer {
            first: b"x",
            blocks: true,
            last: b"\n",
            ..SILENT
        },
        acts: &[
            (At(5), Waits),
            (Timers, One(1005, 0)),
            (At(7), Waits),
            (At(6), Waits),
            (Timers, One(1007, 0)),
            (At(1006), Waits),
            (At(1010), Idles(7, 1010)),
        ],
        ..QUIET
    },
    Row {
        shows: "a timer is kept up to the last moment",
        idle: 1_000_000_000_000_000_000,
        acts: &[(At(0), Waits), (Timers, One(1_000_000_000_000_000_000, 0))],
        ..QUIET
    },
    Row {
        shows: "no timer is kept past the last moment",
        idle: 1_000_000_000_000_000_000,
        start: 1,
        acts: &[(At(1), Waits), (Timers, Count(0)), (Woken, Slots(0))],
        ..QUIET
    },
    Row {
        shows: "a pair wakes itself where no id is left",
        trouble: Trouble::IdsSpent,
        acts: &[
            (At(0), Waits),
            (Timers, Count(0)),
            (Woken, Slots(1)),
            (BySlotOne(999), Waits),
            (At(1000), Idles(0, 1000)),
        ],
        ..QUIET
    },
    Row {
        shows: "a waker that another replaces is woken",
        acts: &[
            (At(0), Waits),
            (Woken, Slots(0)),
            (BySlotOne(0), Waits),
            (Woken, Slots(1)),
            (Timers, One(1000, 1)),
        ],
        ..QUIET
    },
    Row {
        shows: "a waker that another replaces at a write that waits is woken",
        a: Peer {
            first: b"line\n",
            ..ENDS
        },
        b: Peer { room: 3, ..ENDS },
        acts: &[
            (At(0), Waits),
            (Sent(Side::B, "lin"), Is(true)),
            (Woken, Slots(0)),
            (BySlotOne(1), Waits),
            (Woken, Slots(1)),
        ],
        ..QUIET
    },
];

#[test]
fn a_pair_waits_until_it_is_idle(rt: HostRuntime) {
    plays_each(&rt, rt.alloc(), WAITING);
}

/// The first fault of a device.
const FIRST: CountFault = CountFault {
    before: 0,
    after: 1,
};

/// The first fault of the source under a key, in an arm.
const FIRST_OF_A: ArmFault = ArmFault {
    key: Key(0),
    before: 0,
    after: 1,
};

const FIRST_OF_B: ArmFault = ArmFault {
    key: Key(1),
    before: 0,
    after: 1,
};

// The first call is a read that is blocked, and the second one an arm.
const NOT_ARMED: Peer<'static> = Peer {
    fails: &[2],
    ..SILENT
};

/// Sends a line in two pieces, of which the first cannot be read.
const NOT_READ: Peer<'static> = Peer {
    fails: &[1],
    ..TORN
};

/// Pairs that end by a fault.
const FAILING: &[Row<'static>] = &[
    Row {
        shows: "a failed read of side A ends a pair",
        a: NOT_READ,
        b: ENDS,
        acts: &[(At(0), Fails(TryFault::Read(FIRST))), (Timers, Count(0))],
        ..QUIET
    },
    Row {
        shows: "a failed read of side B ends a pair",
        a: ENDS,
        b: NOT_READ,
        acts: &[(At(0), Fails(TryFault::Read(FIRST))), (Timers, Count(0))],
        ..QUIET
    },
    // Side B is read after its first write, and not before.
    Row {
        shows: "a failed write ends a pair",
        a: ONE_LINE,
        b: Peer {
            fails: &[1],
            ..SILENT
        },
        acts: &[
            (At(0), Fails(TryFault::Write(FIRST))),
            (Sent(Side::B, ""), Is(true)),
        ],
        ..QUIET
    },
    Row {
        shows: "a failed arm of side A ends a pair",
        a: NOT_ARMED,
        acts: &[(At(0), Fails(TryFault::Arm(FIRST_OF_A)))],
        ..QUIET
    },
    Row {
        shows: "a failed arm of side B ends a pair",
        b: NOT_ARMED,
        acts: &[(At(0), Fails(TryFault::Arm(FIRST_OF_B)))],
        ..QUIET
    },
    Row {
        shows: "a failed notifier ends a pair",
        trouble: Trouble::Notifier,
        acts: &[(At(0), NotifyFails(FIRST)), (Timers, Count(0))],
        ..QUIET
    },
    Row {
        shows: "a failed wake of a replaced waker ends a pair",
        trouble: Trouble::Wakes,
        acts: &[
            (At(0), Waits),
            (BySlotOne(0), NotifyFails(FIRST)),
            (Woken, Slots(1)),
            (Timers, Count(0)),
        ],
        ..QUIET
    },
    Row {
        shows: "a host without memory ends a pair",
        trouble: Trouble::Memory,
        acts: &[(At(0), NoMemory), (Timers, Count(0))],
        ..QUIET
    },
];

#[test]
fn each_fault_of_a_device_ends_a_pair(rt: HostRuntime) {
    plays_each(&rt, rt.alloc(), FAILING);
}
