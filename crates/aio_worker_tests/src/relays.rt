//! What no clause says of a relay over sockets: that its devices are made, that a line comes to the other
//! client, and that the text tells how many bytes went to each side.

use crate::asserts::same;
use crate::clients::{Seen, joined, pass_a_line};
use aio_bytes::StdSink;
use aio_jobs::{Kit, SixDevices};
use aio_line::RelayOrder;
use aio_mio::{RealClock, mio_parts};
use aio_serve::{CallerSpawner, OpenGate, RelayStop, relay};
use std::alloc::Global;
use std::net::{Net, TcpListener, TcpStream};
use std::process::Abort;
use std::sync::Wait;
use std::thread::{Threads, join};
use std::time::Clock;

/// One pair, on a port of the system's choice. Twenty seconds without a byte end it, which is far longer
/// than what it waits for takes.
const ONE_PAIR: RelayOrder = RelayOrder {
    port: 0,
    workers: 1,
    idle: 20_000_000_000,
    pairs: 1,
};

// Runs a relay over sockets that writes its text to a stream, which ends with it.
fn relay_to<R: Wait + Threads + Net + Clock + Sync + Send + Copy + Abort>(
    rt: &R,
    alloc: Global,
    text: TcpStream,
) -> Result<(), RelayStop> {
    let (port, wait, notify) = mio_parts(alloc, rt).expect(rt, "the devices are made");
    let mut kit = Kit {
        devices: SixDevices {
            port,
            wait,
            notify,
            clock: RealClock::new(rt),
            gate: OpenGate,
            spawner: CallerSpawner,
        },
    };
    let mut out = StdSink::new(text);
    relay(rt, alloc, &mut out, &mut kit, ONE_PAIR)
}

// Runs a relay, and beside it clients that read its text and pass a line. What both come to.
fn relay_a_line<
    R: Wait
        + Threads
        + Net<Listener = TcpListener, Stream = TcpStream>
        + Clock
        + Sync
        + Send
        + Copy
        + Abort,
>(rt: &R, alloc: Global) -> (Result<(), RelayStop>, Seen) {
    let (written, read) = joined(rt);
    join(
        rt,
        move || relay_to(rt, alloc, written),
        move || pass_a_line(rt, alloc, read),
    )
}

#[test]
fn a_line_goes_from_one_client_to_the_other(rt: HostRuntime) {
    let (stopped, seen) = relay_a_line(&rt, rt.alloc());
    same(&rt, stopped, Ok(()));
    same(&rt, (seen.sent, seen.came), (true, Some(*b"ab\n")));
    same(&rt, seen.text.as_str(), "pair 1 ended 0 3\n");
}
