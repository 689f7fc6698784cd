//! What no clause says of a port in memory: which connection comes when.

use crate::asserts::{MEMORY, same};
use aio_base::{Conn, Did, Failed, Faults, Port};
use aio_conns::{ENDS, MemConn, MemPort, Peer};
use std::alloc::Global;
use std::process::Abort;
use std::sync::Wait;

/// The first byte that a connection gives.
fn first_byte<C: Conn>(conn: &mut C) -> Option<u8> {
    let mut buf = [0];
    match conn.read(&mut buf) {
        Ok(Did::Bytes(1)) => Some(buf[0]),
        _ => None,
    }
}

/// Takes the next connection of a port. The first byte that it gives, and the faults of the port so far.
fn accept<R: Wait, P: Port>(rt: &R, port: &mut P) -> (Option<u8>, u64)
where
    P::C: Drop,
{
    let byte = match port.accept(rt) {
        Ok(mut conn) => first_byte(&mut conn),
        Err(Failed) => None,
    };
    (byte, port.faults())
}

/// A connection that gives this text.
fn giving(rt: &impl Abort, alloc: Global, text: &str) -> MemConn {
    let peer = Peer {
        last: text.as_bytes(),
        ..ENDS
    };
    peer.connection(alloc).expect(rt, MEMORY)
}

/// A port of connections that give these texts.
fn port_of(rt: &impl Abort, alloc: Global, texts: &[&str]) -> MemPort {
    let mut conns = Vec::new(alloc);
    for text in texts {
        conns.push(giving(rt, alloc, text)).expect(rt, MEMORY);
    }
    MemPort::new(conns)
}

/// Asserts that a port has a number of its own where none is asked for, and else the one that is.
fn is_bound(rt: &impl Abort, port: &mut MemPort) {
    same(rt, port.bind(0), Ok(4000));
    same(rt, port.bind(7), Ok(7));
}

/// Asserts that three connections come in order, and then faults alone.
fn hands_out_three<R: Wait + Abort, P: Port>(rt: &R, port: &mut P)
where
    P::C: Drop,
{
    let wanted = [
        (Some(b'a'), 0),
        (Some(b'b'), 0),
        (Some(b'c'), 0),
        (None, 1),
        (None, 2),
    ];
    for answer in wanted {
        same(rt, accept(rt, port), answer);
    }
}

#[test]
fn a_port_hands_its_three_connections_out_in_order(rt: HostRuntime) {
    let mut port = port_of(&rt, rt.alloc(), &["a", "b", "c"]);
    is_bound(&rt, &mut port);
    hands_out_three(&rt, &mut port);
}
