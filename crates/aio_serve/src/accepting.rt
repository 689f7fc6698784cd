//! Connections are accepted before any is served.

ghost use Rattle.std.specs.Prelude.{◌≡◌, true, length, IfOk, IfErr};
ghost use Rattle.aio_serve.specs.Accepted.{HandedAtMost, HandedOut};
ghost use Rattle.aio_serve.specs.Servers.{HasServeCause};

use crate::server::ServeFault;
use aio_base::{CountFault, Port};
use std::alloc::Global;
use std::sync::Wait;

/// So many connections of a port, in the order in which it hands them out. All room is taken before
/// the first is accepted. It waits as the port does.
///
/// # Errors
///
/// `Port` with the two counts of the accept that failed, and `OutOfMemory` where there was no room.
/// The connections that were accepted by then are let go.
pub(crate) fn accept_all<R: Wait, P: Port>(
    alloc: Global,
    rt: &R,
    port: &mut P,
    count: u32,
) -> Result<Vec<P::C>, ServeFault>
where
    P::C: Drop,
    ensures first { IfOk result (λ conns.
        HandedOut (P.waiting port.old) conns.items (P.waiting port.new)) }
    ensures count { IfOk result (λ conns. length conns.items ≡ count) }
    ensures handed { HandedAtMost count (P.waiting port.old) (P.waiting port.new) }
    ensures cause { IfErr result (HasServeCause
        (P.fault_count port.old) (P.fault_count port.new) true true) }
{
    let Ok(mut conns) = Vec::with_capacity(alloc, count as usize) else {
        return Err(ServeFault::OutOfMemory);
    };
    for _accepted in 0..count {
        let before = port.faults();
        match port.accept(rt) {
            Ok(conn) => conns.push_reserved(conn),
            Err(_) => {
                let after = port.faults();
                return Err(ServeFault::Port(CountFault { before, after }));
            }
        }
    }
    Ok(conns)
}
