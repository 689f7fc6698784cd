//! The command `relay`, as the program ends by it.

ghost use Rattle.std.specs.Prelude.{◌≡◌, ◌≢◌, ℕ, false};
ghost use Rattle.aio_commands.specs.Commands.{TellsCounts, is_read_fault, is_write_fault};
ghost use Rattle.aio_line.specs.Words.{IsServable};
ghost use Rattle.aio_replay.specs.Driving.{Causes};
ghost use Rattle.aio_run.specs.Relaying.{Relayed, why_relayed, why_served};
ghost use Rattle.aio_serve.specs.Relays.{MayEndSo, TakesAfterFirst, terms_of};

use aio_base::Port;
use aio_bytes::Sink;
use aio_commands::{Which6, Why};
use aio_jobs::Devices;
use aio_line::RelayOrder;
use aio_serve::{RelayStop, ServeFault, relay};
use std::alloc::Global;
use std::sync::Wait;
use std::thread::Threads;

/// Runs the relay that is asked for, over the lent devices.
pub(crate) fn run_relay<R: Wait + Threads + Sync + Send + Copy, K: Sink, D: Devices>(
    rt: &R,
    alloc: Global,
    order: RelayOrder,
    out: &mut K,
    devices: &mut D,
) -> Why
where
    <D::P as Port>::C: Send + Drop,
    requires { IsServable order }
    ensures usage { result ≢ Why.Usage }
    ensures relays { Relayed K.contents (D.P.own_port (D.six devices.old).port) order.port
        (MayEndSo D.P.C.telling D.P.C.is_sure
        (terms_of (D.C.bounds (D.six devices.old).clock) order.idle
        (D.N.is_sure (D.six devices.old).notify))
        (D.P.waiting (D.six devices.old).port) order.pairs)
        (D.P.fault_count (D.six devices.old).port) (D.P.fault_count (D.six devices.new).port)
        (D.W.is_sure (D.six devices.old).wait) (D.N.is_sure (D.six devices.old).notify)
        (K.fault_count out.old) (K.fault_count out.new) result out.old out.new }
    ensures order { TakesAfterFirst (D.P.waiting (D.six devices.old).port)
        (D.P.waiting (D.six devices.new).port) (D.P.own_port (D.six devices.old).port)
        order.port (K.contents out.old) (K.contents out.new) }
    ensures counts { (reads : ℕ) → TellsCounts result reads reads
        (K.fault_count out.old) (K.fault_count out.new) }
    ensures no_read { is_read_fault result ≡ false }
    ensures cause { Causes K.fault_count K.is_sure out.old out.new (is_write_fault result) }
{
    let answer = relay(rt, alloc, out, devices, order);
    why_of_relay(answer)
}

/// Why the program ends, where a relay ended so.
fn why_of_relay(answer: Result<(), RelayStop>) -> Why
    ensures { result ≡ why_relayed answer }
{
    match answer {
        Ok(()) => Why::Done,
        Err(RelayStop::Bind(fault)) => Why::DeviceFault {
            which: Which6::Port,
            fault,
        },
        Err(RelayStop::Served(fault)) => why_of_server(fault),
        Err(RelayStop::Output(fault)) => Why::WriteFault(fault),
        Err(RelayStop::OutOfMemory) => Why::OutOfMemory,
    }
}

/// Why the program ends, where its server stopped for this fault.
fn why_of_server(fault: ServeFault) -> Why
    ensures { result ≡ why_served fault }
{
    match fault {
        ServeFault::Port(fault) => Why::DeviceFault {
            which: Which6::Port,
            fault,
        },
        ServeFault::Wait(fault) => Why::DeviceFault {
            which: Which6::Wait,
            fault,
        },
        ServeFault::Notify(fault) => Why::DeviceFault {
            which: Which6::Notify,
            fault,
        },
        ServeFault::OutOfMemory => Why::OutOfMemory,
    }
}
