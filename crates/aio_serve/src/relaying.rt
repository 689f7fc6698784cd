//! The command `relay`, over lent devices and an output.

ghost use Rattle.std.specs.Prelude.{◌≡◌, ◌≤◌, IsTrue, IfErr, IfOk, OnErr};
ghost use Rattle.aio_base.specs.Connections.{IsInUse};
ghost use Rattle.aio_base.specs.Devices.{Rose, TellsFaults};
ghost use Rattle.aio_bytes.specs.Sinks.{HasFailed, Writes};
ghost use Rattle.aio_line.specs.Texts.{listening_line, pair_lines};
ghost use Rattle.aio_line.specs.Words.{IsServable};
ghost use Rattle.aio_serve.specs.Relays.{HasRelayCause, MayEndSo, RelayWrites};
ghost use Rattle.aio_serve.specs.Relays.{TakesAfterFirst, has_output_failed};
ghost use Rattle.aio_serve.specs.Relays.{stop_written, terms_of};
ghost use Rattle.aio_serve.specs.Servers.{HasServeCause};

use crate::server::{ServeFault, serve};
use aio_base::{Clock, CountFault, EventWait, Gate, Notify, Parts, Port, Spawner};
use aio_bytes::{Sink, SinkRefusal, write_all};
use aio_jobs::{Devices, SixDevices};
use aio_line::{RelayOrder, listening_text, pair_lines};
use aio_pairs::PairEnd;
use std::alloc::Global;
use std::sync::Wait;
use std::thread::Threads;

/// Why a relay was not done.
#[derive(Clone, Copy, Debug, PartialEq, Eq)]
pub enum RelayStop {
    /// The port could not be bound: its counts of faults before and after the relay.
    Bind(CountFault),
    /// The server stopped.
    Served(ServeFault),
    /// The output failed: its counts of faults before and after the relay.
    Output(CountFault),
    /// Memory ran out for the text.
    OutOfMemory,
}

/// Binds the port that is asked for on 127.0.0.1, writes `listening P` with the port in use, serves as
/// many pairs of the port's connections as are asked for, and then writes a line for each pair in the
/// order of the pairs: `pair I` and what it came to. What a pair came to stops nothing. `out` gets each of
/// the two pieces by itself, so the port is known before any connection comes.
///
/// It takes the connections 2i - 1 and 2i of the port for sides A and B of pair i.
///
/// # Errors
///
/// - `Bind`: only where the port's count of faults rose; `out` is as it was.
/// - `Served`, of which `Port` only where the port's count of faults rose after it was bound; `Wait` and
///   `Notify` only where that device isn't sure, and its two counts differ or stand at 2^64 - 1;
///   `OutOfMemory` at any time. `out` grew by the first line.
/// - `Output`: only where the count of faults of `out` rose. `out` grew by a front part of the text.
/// - `OutOfMemory`: at any time. `out` grew by a front part of the text.
pub fn relay<R: Wait + Threads + Sync + Send + Copy, K: Sink, D: Devices>(
    rt: &R,
    alloc: Global,
    out: &mut K,
    devices: &mut D,
    order: RelayOrder,
) -> Result<(), RelayStop>
where
    <D::P as Port>::C: Send + Drop,
    requires { IsServable order }
    ensures written { RelayWrites K.contents (D.P.own_port (D.six devices.old).port) order.port
        (MayEndSo D.P.C.telling D.P.C.is_sure
        (terms_of (D.C.bounds (D.six devices.old).clock) order.idle
        (D.N.is_sure (D.six devices.old).notify))
        (D.P.waiting (D.six devices.old).port) order.pairs)
        result out.old out.new }
    ensures order { TakesAfterFirst (D.P.waiting (D.six devices.old).port)
        (D.P.waiting (D.six devices.new).port) (D.P.own_port (D.six devices.old).port)
        order.port (K.contents out.old) (K.contents out.new) }
    ensures cause { IfErr result (HasRelayCause
        (D.P.fault_count (D.six devices.old).port) (D.P.fault_count (D.six devices.new).port)
        (D.W.is_sure (D.six devices.old).wait) (D.N.is_sure (D.six devices.old).notify)
        (K.fault_count out.old) (K.fault_count out.new)) }
    ensures output { TellsFaults K.fault_count K.is_sure
        out.old out.new (IsTrue (has_output_failed result)) }
{
    relay_over(rt, alloc, out, devices.lend(), order)
}

/// The same over the six devices.
fn relay_over<
    R: Wait + Threads + Sync + Send + Copy,
    K: Sink,
    P: Port,
    W: EventWait + Send,
    N: Notify + Send + Drop,
    C: Clock + Send + Drop,
    G: Gate + Sync,
    T: Spawner,
>(
    rt: &R,
    alloc: Global,
    out: &mut K,
    six: &mut SixDevices<P, W, N, C, G, T>,
    order: RelayOrder,
) -> Result<(), RelayStop>
where
    P::C: Send + Drop,
    requires { IsServable order }
    ensures written { RelayWrites K.contents (P.own_port six.old.port) order.port
        (MayEndSo P.C.telling P.C.is_sure
        (terms_of (C.bounds six.old.clock) order.idle (N.is_sure six.old.notify))
        (P.waiting six.old.port) order.pairs)
        result out.old out.new }
    ensures order { TakesAfterFirst (P.waiting six.old.port) (P.waiting six.new.port)
        (P.own_port six.old.port) order.port (K.contents out.old) (K.contents out.new) }
    ensures cause { IfErr result (HasRelayCause
        (P.fault_count six.old.port) (P.fault_count six.new.port)
        (W.is_sure six.old.wait) (N.is_sure six.old.notify)
        (K.fault_count out.old) (K.fault_count out.new)) }
    ensures output { TellsFaults K.fault_count K.is_sure
        out.old out.new (IsTrue (has_output_failed result)) }
{
    let before = out.faults();
    let port = match bind(&mut six.port, order.port) {
        Ok(port) => port,
        Err(fault) => return Err(RelayStop::Bind(fault)),
    };
    match write_listening(alloc, out, port) {
        Ok(()) => {}
        Err(refusal) => return Err(stop_of(refusal, before, out.faults())),
    }
    let ends = match serve_six(rt, alloc, six, order) {
        Ok(ends) => ends,
        Err(fault) => return Err(RelayStop::Served(fault)),
    };
    match write_pairs(alloc, out, ends.as_slice()) {
        Ok(()) => Ok(()),
        Err(refusal) => Err(stop_of(refusal, before, out.faults())),
    }
}

/// Binds a port, and answers the one in use; else the port's counts of faults before and after the call.
fn bind<P: Port>(device: &mut P, asked: u16) -> Result<u16, CountFault>
    ensures port { IfOk result (IsInUse (P.own_port device.old) asked) }
    ensures waiting { P.waiting device.new ≡ P.waiting device.old }
    ensures later { P.fault_count device.old ≤ P.fault_count device.new }
    ensures counts { IfErr result (λ fault. fault ≡ record {
      before = P.fault_count device.old;
      after = P.fault_count device.new;
    }) }
    ensures rose { IfErr result (λ fault. Rose fault.before fault.after) }
{
    let before = device.faults();
    match device.bind(asked) {
        Ok(port) => Ok(port),
        Err(_) => Err(CountFault {
            before,
            after: device.faults(),
        }),
    }
}

/// Serves the pairs of the port's connections by the six devices.
fn serve_six<
    R: Wait + Threads + Sync + Send + Copy,
    P: Port,
    W: EventWait + Send,
    N: Notify + Send + Drop,
    C: Clock + Send + Drop,
    G: Gate + Sync,
    T: Spawner,
>(
    rt: &R,
    alloc: Global,
    six: &mut SixDevices<P, W, N, C, G, T>,
    order: RelayOrder,
) -> Result<Vec<PairEnd>, ServeFault>
where
    P::C: Send + Drop,
    requires { IsServable order }
    ensures ends { IfOk result (λ ends. MayEndSo P.C.telling P.C.is_sure
        (terms_of (C.bounds six.old.clock) order.idle (N.is_sure six.old.notify))
        (P.waiting six.old.port) order.pairs ends.items) }
    ensures cause { IfErr result (HasServeCause
        (P.fault_count six.old.port) (P.fault_count six.new.port)
        (W.is_sure six.old.wait) (N.is_sure six.old.notify)) }
{
    let parts = Parts {
        port: &mut six.port,
        wait: &mut six.wait,
        notify: &mut six.notify,
        clock: &mut six.clock,
        gate: &mut six.gate,
        spawner: &mut six.spawner,
    };
    serve(rt, alloc, parts, order.workers, order.idle, order.pairs)
}

/// Why a relay stops where the output refused so, with its counts of faults before and after the relay.
fn stop_of(refusal: SinkRefusal, before: u64, after: u64) -> RelayStop
    ensures { result ≡ stop_written refusal (record { before = before; after = after }) }
{
    match refusal {
        SinkRefusal::Failed => RelayStop::Output(CountFault { before, after }),
        SinkRefusal::OutOfMemory => RelayStop::OutOfMemory,
    }
}

/// Writes the first line.
fn write_listening<K: Sink>(alloc: Global, out: &mut K, port: u16) -> Result<(), SinkRefusal>
    ensures written { Writes result (K.contents out.old) (K.contents out.new)
        (listening_line port) }
    ensures faults { TellsFaults K.fault_count K.is_sure out.old out.new (HasFailed result) }
{
    match listening_text(alloc, port) {
        Ok(text) => write_all(out, text.as_slice()),
        Err(_) => Err(SinkRefusal::OutOfMemory),
    }
}

/// Writes the lines of all pairs.
fn write_pairs<K: Sink>(alloc: Global, out: &mut K, ends: &[PairEnd]) -> Result<(), SinkRefusal>
    ensures written { Writes result (K.contents out.old) (K.contents out.new)
        (pair_lines 1 ends.now) }
    ensures faults { TellsFaults K.fault_count K.is_sure out.old out.new (HasFailed result) }
{
    match pair_lines(alloc, ends) {
        Ok(text) => write_all(out, text.as_slice()),
        Err(_) => Err(SinkRefusal::OutOfMemory),
    }
}
