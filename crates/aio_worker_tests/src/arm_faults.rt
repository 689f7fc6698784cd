//! What no clause says of workers after the fault of an arm in a round: that they go on, and that each slot of
//! each of them is woken, so that their pairs are polled again without an event.

use crate::asserts::{MEMORY, same};
use crate::gates::{NotingGate, Until};
use crate::rows::{ALONE, End, HALTS, Row, STILL, clock_to, plays};
use aio_base::{Event, EventWait, Interest, Key, Placement};
use aio_conns::{ENDS, Peer, SILENT};
use aio_devices::{ScriptedWait, WaitAnswer};
use aio_serve::OpenGate;
use std::alloc::Global;
use std::process::Abort;

/// Gives one event of a connection, and nothing after that.
fn gives_once(rt: &impl Abort, alloc: Global, key: u32, on: Interest) -> ScriptedWait {
    let event = Event { key: Key(key), on };
    let events = vec![in alloc; event].expect(rt, MEMORY);
    let mut answers = Vec::new(alloc);
    answers.push(WaitAnswer::Gives(events)).expect(rt, MEMORY);
    ScriptedWait::new(answers)
}

/// Two pairs of one worker.
///
/// Side A of the first takes two bytes of a line and sends nothing: so its add, two reads, two writes and an
/// arm for each direction come to seven calls, and then it waits to read and to write. The eighth is the arm
/// of a round that had an event of one of them. It fails, and so does the read after it.
///
/// Side A of the second is blocked once. No event comes for it: its slot is woken for the fault alone.
const OF_ONE_WORKER: Row<'static> = Row {
    shows: "a worker goes on with each pair after the fault of an arm",
    peers: &[
        Peer {
            room: 2,
            fails: &[8, 9],
            ..SILENT
        },
        Peer {
            first: b"abc\n",
            ..ENDS
        },
        HALTS,
        ENDS,
    ],
    ends: &[End::ReadFault(1), End::Ended(3)],
    ..ALONE
};

// The worker waits once. Its clock comes to the idle time once it was looked at a thousand times.
#[test]
fn a_worker_goes_on_with_each_pair_after_the_fault_of_an_arm(rt: HostRuntime) {
    let mut wait = gives_once(&rt, rt.alloc(), 0, Interest::READ);
    let mut clock = clock_to(&rt, rt.alloc(), (1000, 1000));
    let devices = (&mut wait, &mut clock, &mut OpenGate);
    plays(&&rt, rt.alloc(), &OF_ONE_WORKER, devices);
    same(&rt, wait.waits(), 1);
}

/// Six pairs of two workers, of which each has three.
///
/// Side A of pair 4 sends nothing: after its add, a read and an arm it waits for its reading. The fourth call is
/// the arm of a round that had an event which nobody waits for. It fails, and so does the read after it.
///
/// The others are blocked once, and no event comes for them.
const OF_TWO_WORKERS: Row<'static> = Row {
    shows: "each slot of each worker is woken after the fault of an arm",
    peers: &[
        Peer {
            first: b"a",
            ..HALTS
        },
        ENDS,
        HALTS,
        ENDS,
        Peer {
            first: b"abc",
            ..HALTS
        },
        ENDS,
        Peer {
            fails: &[4, 5],
            ..SILENT
        },
        SILENT,
        Peer {
            first: b"abcde",
            ..HALTS
        },
        ENDS,
        Peer {
            first: b"abcdef",
            ..HALTS
        },
        ENDS,
    ],
    workers: 2,
    placement: Placement::Threads,
    ends: &[
        End::Ended(2),
        End::Ended(3),
        End::Ended(4),
        End::ReadFault(1),
        End::Ended(6),
        End::Ended(7),
    ],
    ..ALONE
};

/// The first worker begins once the second has polled pair 4, and the second goes on once a pair of the first had
/// its end: so it is the first that makes the round.
const IN_TURN: &[(u32, Until)] = &[(1, Until::Begun(6)), (6, Until::Ended(1))];

// No time passes: a pair that was not woken would never end. The gate tells the pairs that it held and let go, as
// bits.
#[test]
fn each_slot_of_each_worker_is_woken_after_the_fault_of_an_arm(rt: HostRuntime) {
    let mut wait = gives_once(&rt, rt.alloc(), 6, Interest::WRITE);
    let mut clock = clock_to(&rt, rt.alloc(), STILL);
    let mut gate = NotingGate::new(IN_TURN);
    let devices = (&mut wait, &mut clock, &mut gate);
    plays(&&rt, rt.alloc(), &OF_TWO_WORKERS, devices);
    same(&rt, gate.let_go(), 1 << 1 | 1 << 6);
}
