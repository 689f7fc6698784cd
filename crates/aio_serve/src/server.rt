//! A server of lines: it accepts connections in pairs, passes the lines of each to the other, and
//! answers how each pair ended.

ghost use Rattle.std.specs.Prelude.{◌≡◌, ◌≤◌, ◌*◌, ◌^◌, List, length, IfOk, IfErr, IfSome, OnOk};
ghost use Rattle.aio_serve.specs.Accepted.{HandedAtMost, HandedOut};
ghost use Rattle.aio_serve.specs.Places.{EndsFit};
ghost use Rattle.aio_serve.specs.Servers.{HasServeCause, fault_of_worker};

use crate::accepting::accept_all;
use crate::joining::run_workers;
use crate::starting::workers_of;
use aio_base::{Clock, CountFault, EventWait, Gate, Lent, Notify, Parts, Port, Spawner};
use aio_pairs::PairEnd;
use aio_park::WorkerFault;
use aio_places::begin;
use std::alloc::Global;
use std::sync::Wait;
use std::thread::Threads;

/// Why a server stopped. The pairs that had not ended by then are given up.
#[derive(Clone, Copy, Debug, PartialEq, Eq)]
pub enum ServeFault {
    /// The port failed as a connection was to be accepted, between these two counts of its faults.
    Port(CountFault),
    /// A wait of the reactor failed, between these two counts of its faults.
    Wait(CountFault),
    /// The notifier of a worker failed, between these two counts of its faults.
    Notify(CountFault),
    /// Memory ran out.
    OutOfMemory,
}

/// Accepts two connections for each of so many pairs, and passes the whole lines of either to the
/// other until each pair has its end, which is told in the order of the pairs. The first two
/// connections are sides A and B of the first pair, the next two those of the second, and so on.
/// The pairs go to the workers, 1 to 16, in turn. Each worker is a job of the spawner with a member of
/// the one reactor, a parker of its own and a twin of the clock. The idle time, 1 to 10^18, is in
/// nanoseconds. That of a pair runs from the moment at which its worker begins, also while the gate holds
/// the pair. It waits.
///
/// The lent wait is used until the call returns. Notifier and clock have twins, which are used in
/// their places.
///
/// # Errors
///
/// `Port` where an accept failed, before any pair is served; `Wait` only where the lent wait is not
/// sure, and `Notify` only where the lent notifier is not; `OutOfMemory` where memory ran out. Where
/// several workers stop for a fault, that of the first of them is told, once all have stopped. A fault
/// of a connection ends its own pair alone. Whatever the answer, the port handed out its first
/// connections, two for each pair at most.
pub fn serve<
    R: Wait + Threads + Sync + Send + Copy,
    P: Port,
    W: EventWait + Send,
    N: Notify + Send + Drop,
    C: Clock + Send + Drop,
    G: Gate + Sync,
    T: Spawner,
>(
    rt: &R,
    alloc: Global,
    parts: Parts<'_, P, W, N, C, G, T>,
    workers: u32,
    idle: u64,
    pairs: u32,
) -> Result<Vec<PairEnd>, ServeFault>
where
    P::C: Send + Drop,
    requires workers { (1 ≤ workers) × (workers ≤ 16) }
    requires idle { (1 ≤ idle) × (idle ≤ 10 ^ 18) }
    requires pairs { (1 ≤ pairs) × (pairs ≤ 64 * workers) }
    ensures accepted { OnOk result ((conns : List P.C)
        × HandedOut (P.waiting parts.entry.port.now) conns (P.waiting parts.exit.0.now)
        × (length conns ≡ 2 * pairs)) }
    ensures handed { HandedAtMost (2 * pairs)
        (P.waiting parts.entry.port.now) (P.waiting parts.exit.0.now) }
    ensures ends { IfOk result (λ ends. IfSome (P.waiting parts.entry.port.now) (λ conns.
        EndsFit P.C.telling P.C.is_sure (record {
          bounds = C.bounds parts.entry.clock.now;
          idle = idle;
          is_sure = N.is_sure parts.entry.notify.now;
        }) conns ends.items)) }
    ensures count { IfOk result (λ ends. length ends.items ≡ pairs) }
    ensures cause { IfErr result (HasServeCause
        (P.fault_count parts.entry.port.now) (P.fault_count parts.exit.0.now)
        (W.is_sure parts.entry.wait.now) (N.is_sure parts.entry.notify.now)) }
{
    let Parts {
        port,
        wait,
        notify,
        clock,
        gate,
        spawner,
    } = parts;
    match accept_all(alloc, rt, port, 2 * pairs) {
        Err(fault) => Err(fault),
        Ok(conns) => {
            let Ok(begun) = begin(
                rt,
                alloc,
                Lent { inner: wait },
                notify,
                conns,
                workers,
                pairs,
            ) else {
                return Err(ServeFault::OutOfMemory);
            };
            let Ok(workers) = workers_of(alloc, rt, begun, clock, gate, idle, workers) else {
                return Err(ServeFault::OutOfMemory);
            };
            match run_workers(alloc, rt, spawner, workers) {
                Ok(ends) => Ok(ends),
                Err(fault) => Err(fault_of(fault)),
            }
        }
    }
}

/// What a server tells of the fault for which a worker stopped.
fn fault_of(fault: WorkerFault) -> ServeFault
    ensures { result ≡ fault_of_worker fault }
{
    match fault {
        WorkerFault::Wait(fault) => ServeFault::Wait(fault),
        WorkerFault::Notify(fault) => ServeFault::Notify(fault),
        WorkerFault::OutOfMemory => ServeFault::OutOfMemory,
    }
}
