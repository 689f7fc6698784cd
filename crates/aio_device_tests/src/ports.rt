//! What no clause says of a port: that it listens where it says, and what it refuses.

use crate::asserts::same;
use crate::joined::{accepted, client_of, connected, read_some, send_all};
use aio_base::{Did, Failed, Faults, Port};
use aio_mio::{MioPort, mio_parts};
use std::alloc::Global;
use std::net::Net;
use std::process::Abort;
use std::sync::Wait;

/// What another port answers that is bound to the one in use, and its faults then.
fn bind<R: Net + Copy + Abort>(rt: &R, alloc: Global, used: u16) -> (Result<u16, Failed>, u64) {
    let (mut other, wait, notify) = mio_parts(alloc, rt).expect(rt, "devices");
    let answer = (other.bind(used), other.faults());
    drop(other);
    drop(wait);
    drop(notify);
    answer
}

#[test]
fn a_port_in_use_is_refused(rt: HostRuntime) {
    let j = connected(&rt, rt.alloc());
    same(&rt, bind(&rt, rt.alloc(), j.used), (Err(Failed), 1));
    drop(j);
}

#[test]
fn a_port_is_used_again_once_its_listener_is_gone(rt: HostRuntime) {
    let j = connected(&rt, rt.alloc());
    let used = j.used;
    drop(j);
    same(&rt, bind(&rt, rt.alloc(), used), (Ok(used), 0));
}

#[test]
fn a_port_that_is_not_bound_accepts_nothing(rt: HostRuntime) {
    let (mut port, wait, notify) = mio_parts(rt.alloc(), &rt).expect(&rt, "devices");
    same(&rt, port.accept(&rt).is_err(), true);
    same(&rt, port.faults(), 1);
    drop(port);
    drop(wait);
    drop(notify);
}

/// What a read of the next connection of a port comes to, and its first byte.
fn read_next<R: Net + Copy + Wait + Abort>(
    rt: &R,
    port: &mut MioPort<R>,
) -> (Result<Did, Failed>, u8) {
    let mut conn = accepted(rt, port);
    let answer = read_some(&mut conn);
    drop(conn);
    answer
}

#[test]
fn connections_are_accepted_in_the_order_of_their_clients(rt: HostRuntime) {
    let mut j = connected(&rt, rt.alloc());
    let mut first = client_of(&rt, j.used);
    let mut last = client_of(&rt, j.used);
    same(
        &rt,
        send_all(&mut first, &[1]) && send_all(&mut last, &[2]),
        true,
    );
    let (one, other) = (read_next(&rt, &mut j.port), read_next(&rt, &mut j.port));
    same(&rt, one, (Ok(Did::Bytes(1)), 1));
    same(&rt, other, (Ok(Did::Bytes(1)), 2));
    drop(first);
    drop(last);
    drop(j);
}
