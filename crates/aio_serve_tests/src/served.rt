//! What no clause says of pairs in the slots of a worker: which of them ask the gate and when, in
//! which order the gate is told of their ends, and that the keys of their sources are free then.

ghost use Rattle.std.specs.Prelude.{◌^◌, ◌≤◌};

use crate::asserts::{MEMORY, same};
use crate::gates::NotingGate;
use crate::moments::moment;
use crate::pairs::{HALTING, IDLE, Server, Sides, end_of, ends_over, next_key, server};
use aio_base::{ArmFault, Key};
use aio_conns::{ENDS, MemConn, Peer, SILENT};
use aio_devices::{MemClock, MemWait};
use aio_park::Group;
use aio_places::Place;
use aio_relay::PairEnd;
use aio_serve::Served;
use std::alloc::Global;
use std::process::Abort;
use std::sync::Wait;
use std::thread::Threads;

/// What stands in a slot, of pairs over connections in memory.
type MemServed<'g> = Served<'g, MemConn, MemWait, MemClock, NotingGate>;

/// The slots of a worker whose pairs are over connections in memory.
type Slots<'g> = Group<MemServed<'g>, PairEnd>;

/// The place of a pair over such connections.
pub(crate) type MemPlace = Place<MemConn, MemWait>;

/// The fault of an arm.
pub(crate) const ARM_FAULT: ArmFault = ArmFault {
    key: Key(3),
    before: 0,
    after: 1,
};

/// The place of a pair that is refused.
pub(crate) fn refused_place(number: u32) -> MemPlace {
    Place {
        number,
        sides: Err(ARM_FAULT),
    }
}

/// The place of a pair over two connections.
pub(crate) fn place_over<R: Wait + Copy + Abort>(
    server: &Server<R>,
    alloc: Global,
    number: u32,
    sides: &Sides,
) -> MemPlace {
    Place {
        number,
        sides: Ok(ends_over(server, alloc, sides)),
    }
}

/// A clock of two moments, which stays at the second.
fn clock_of(rt: &impl Abort, alloc: Global, first: u64, second: u64) -> MemClock
    requires order { first ≤ second }
    requires end { second ≤ 10 ^ 18 }
{
    let moments = vec![in alloc; moment(rt, first), moment(rt, second)];
    MemClock::new(moments.expect(rt, MEMORY))
}

/// Adds the slot of a place, with this clock.
fn seat<'g>(
    rt: &impl Abort,
    slots: &mut Slots<'g>,
    alloc: Global,
    place: MemPlace,
    gate: &'g NotingGate,
    clock: MemClock,
) {
    let served = Served::new(alloc, place, IDLE, moment(rt, 0), gate, clock).expect(rt, MEMORY);
    slots.add(served).ok().expect(rt, "there is a slot");
}

/// Serves a pair over these connections, which has number 1, and a refused one with number 2. Their
/// ends.
fn serve_two<R: Wait + Threads + Sync + Send + Copy + Abort>(
    server: &mut Server<R>,
    alloc: Global,
    sides: &Sides,
    gate: &NotingGate,
) -> Vec<PairEnd> {
    let rt = server.host.rt;
    let place = place_over(server, alloc, 1, sides);
    let mut slots = Group::new(alloc, 0);
    let clock = clock_of(&rt, alloc, 0, 0);
    seat(&rt, &mut slots, alloc, place, gate, clock);
    let clock = clock_of(&rt, alloc, 0, 0);
    seat(&rt, &mut slots, alloc, refused_place(2), gate, clock);
    end_of(server, &mut slots)
}

/// What came of two pairs: their ends, the digits that their gate noted, and the keys of two
/// sources that were made after that.
type Outcome = (Vec<PairEnd>, u32, (Key, Key));

/// What comes of a pair over these connections, and of a refused one, at a new thread.
fn outcome<R: Wait + Threads + Sync + Send + Copy + Abort>(
    rt: R,
    alloc: Global,
    sides: &Sides,
) -> Outcome {
    let mut server = server(rt, alloc, 1000);
    let gate = NotingGate::new();
    let ends = serve_two(&mut server, alloc, sides, &gate);
    let first = next_key(&server, alloc);
    (ends, gate.digits(), (first, next_key(&server, alloc)))
}

/// The ends of the two pairs.
const TWO_ENDS: [PairEnd; 2] = [
    PairEnd::Ended { to_a: 0, to_b: 3 },
    PairEnd::ArmFault(ARM_FAULT),
];

#[test]
fn a_refused_pair_asks_no_gate_and_ends_while_another_is_blocked(rt: HostRuntime) {
    let (ends, digits, _keys) = outcome(&rt, rt.alloc(), &HALTING);
    same(&rt, (ends.as_slice(), digits), (TWO_ENDS.as_slice(), 176));
}

/// Side A sends the same without a halt.
const PROMPT: Sides = [
    Peer {
        first: b"ab\ncd",
        ..ENDS
    },
    ENDS,
];

#[test]
fn a_pair_asks_the_gate_before_a_first_poll_that_ends_it(rt: HostRuntime) {
    let (ends, digits, _keys) = outcome(&rt, rt.alloc(), &PROMPT);
    same(&rt, (ends.as_slice(), digits), (TWO_ENDS.as_slice(), 167));
}

#[test]
fn the_keys_of_a_pair_are_free_after_its_end(rt: HostRuntime) {
    let (_ends, _digits, keys) = outcome(&rt, rt.alloc(), &HALTING);
    same(&rt, keys, (Key(0), Key(1)));
}

/// Side A sends a line, and nothing comes after that.
const FALLS_SILENT: Sides = [
    Peer {
        first: b"x\n",
        blocks: true,
        ..SILENT
    },
    SILENT,
];

/// The end of a pair over silent connections, whose slot's clock shows 7 at its first poll and then 1,100. That of
/// its worker comes from 0 to 1,000, by which alone it would be idle from 0 to 1,000.
fn idle_end<R: Wait + Threads + Sync + Send + Copy + Abort>(
    rt: R,
    alloc: Global,
    gate: &NotingGate,
) -> Vec<PairEnd> {
    let mut server = server(rt, alloc, 20);
    let place = place_over(&server, alloc, 1, &FALLS_SILENT);
    let mut slots = Group::new(alloc, 0);
    let clock = clock_of(&rt, alloc, 7, 1_100);
    seat(&rt, &mut slots, alloc, place, gate, clock);
    end_of(&mut server, &mut slots)
}

#[test]
fn an_idle_time_runs_from_the_poll_in_which_the_last_byte_went_over(rt: HostRuntime) {
    let gate = NotingGate::new();
    let ends = idle_end(&rt, rt.alloc(), &gate);
    let (last, now) = (moment(&rt, 7), moment(&rt, 1_100));
    same(&rt, ends.as_slice(), &[PairEnd::Idle { last, now }]);
}
