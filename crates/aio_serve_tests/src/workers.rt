//! What no clause says of workers: that they serve their pairs to the end.

use crate::asserts::{MEMORY, same};
use crate::gates::NotingGate;
use crate::pairs::{HALTING, IDLE, Server, Sides, server};
use crate::served::{ARM_FAULT, MemPlace, place_over, refused_place};
use aio_base::Job;
use aio_conns::MemConn;
use aio_devices::{MemClock, MemNotify, MemWait};
use aio_park::{Post, Thread};
use aio_relay::PairEnd;
use aio_serve::Worker;
use aio_shared::Inside;
use std::alloc::Global;
use std::collections::VecDeque;
use std::process::Abort;
use std::sync::Wait;

/// A worker whose pairs are over connections in memory.
type MemWorker<'g> = Worker<'g, MemNotify, MemClock, MemConn, MemWait, NotingGate>;

/// The place of a pair that is refused, with number 1, and behind it that of one over these connections.
fn places_over<R: Wait + Copy + Abort>(
    server: &Server<R>,
    alloc: Global,
    sides: &Sides,
) -> VecDeque<MemPlace> {
    let rt = server.host.rt;
    let mut places = VecDeque::new(alloc);
    places.push_back(refused_place(1)).expect(&rt, MEMORY);
    let place = place_over(server, alloc, 2, sides);
    places.push_back(place).expect(&rt, MEMORY);
    places
}

/// A worker that serves these places.
fn worker_of<'g, R: Wait + Copy + Abort>(
    rt: R,
    alloc: Global,
    sides: &Sides,
    gate: &'g NotingGate,
) -> MemWorker<'g> {
    let server = server(rt, alloc, 1000);
    let places = places_over(&server, alloc, sides);
    if places.len() > 64 || server.parker >= 16 {
        rt.panic("too many");
    }
    let Thread {
        host,
        clock,
        parker,
    } = server;
    let Inside { shared, member, .. } = host;
    let post = Post {
        shared,
        member,
        clock,
        parker,
    };
    Worker::new(post, places, IDLE, gate, alloc)
}

#[test]
fn a_worker_serves_its_places_in_their_order(rt: HostRuntime) {
    let gate = NotingGate::new();
    let worker = worker_of(&rt, rt.alloc(), &HALTING, &gate);
    let ends = worker.run(&&rt).expect(&rt, "the pairs come to their ends");
    let wanted = [
        PairEnd::ArmFault(ARM_FAULT),
        PairEnd::Ended { to_a: 0, to_b: 3 },
    ];
    same(&rt, ends.as_slice(), wanted.as_slice());
}
