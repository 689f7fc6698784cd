//! A server of which the first wait fails.

use crate::asserts::{MEMORY, same};
use crate::rows::{ALONE, FIRST, HALTS, Row, STILL, clock_to, served};
use aio_base::EventWait;
use aio_conns::{ENDS, Peer};
use aio_devices::FailingWait;
use aio_serve::{OpenGate, ServeFault};

/// Sends a line in two pieces, and then the front of another.
const TORN: Peer<'static> = Peer {
    last: b"\ncd",
    ..HALTS
};

/// Two pairs of one worker, of which side A sends a line.
const TWO_PAIRS: Row<'static> = Row {
    peers: &[TORN, ENDS, TORN, ENDS],
    ..ALONE
};

#[test]
fn a_server_stops_by_the_fault_of_its_first_wait(rt: HostRuntime) {
    let fails = vec![in rt.alloc(); 1].expect(&rt, MEMORY);
    let mut wait = FailingWait::new(4, fails);
    let mut clock = clock_to(&rt, rt.alloc(), STILL);
    let devices = (&mut wait, &mut clock, &mut OpenGate);
    let fault = served(&&rt, rt.alloc(), &TWO_PAIRS, devices).err();
    same(
        &rt,
        (fault, wait.waits()),
        (Some(ServeFault::Wait(FIRST)), 1),
    );
}
