//! The top call of the program.

ghost use Rattle.std.specs.Prelude.{◌≡◌, ◌≢◌, ◌↔◌, map, string_bytes};
ghost use Rattle.aio_commands.specs.Commands.{Names, TellsCounts, WritesCause, exit_of};
ghost use Rattle.aio_commands.specs.Commands.{is_read_fault, is_write_fault, text_of};
ghost use Rattle.aio_commands.specs.declared.commands.Command.{Command};
ghost use Rattle.aio_replay.specs.Driving.{Causes};
ghost use Rattle.aio_run.specs.Ending.{Observers, Ran};

use crate::relaying::run_relay;
use aio_base::Port;
use aio_bytes::{Sink, Source};
use aio_commands::{
    Command, Status, Why, command_of, exit_status, run_gen, run_replay, run_stress, run_sum, tell,
};
use aio_jobs::Devices;
use std::alloc::Global;
use std::sync::Wait;
use std::thread::Threads;

/// Runs the command that the words name, over an input, an output, a sink for what is told to the user
/// and six devices.
///
/// - `replay` reads a trace from `input` and writes the answers and wakes of its steps to `out`.
/// - `gen N SEED` writes the trace of the first N steps that SEED gives to `out`, the header before
///   them. N is 0 to 999,999 and SEED 0 to 281,474,976,710,655, each in decimal digits, with leading
///   zeros or without, and no sign. It reads nothing of `input`.
/// - `sum N SEED` runs these steps on a core over the poller in memory, and writes one line to `out`:
///   how many there were, how many answers told ready and how many pending, how many wakers were
///   woken, how many whole rounds were run and how many steps were refused. The line is the same each
///   time. It reads nothing of `input`.
/// - `relay PORT WORKERS IDLE PAIRS` binds PORT of 127.0.0.1, writes `listening P` with the port in use to
///   `out`, takes two connections for each pair, serves the pairs by WORKERS workers until each has ended,
///   and writes a line for each pair. PORT is 0 to 65,535, 0 for a port of the device's own choice,
///   WORKERS 1 to 16, IDLE 1 to 10^18 nanoseconds and PAIRS 1 to 64 for each worker. It reads nothing of
///   `input`, and may wait.
/// - `stress CALLS SEED` lets two jobs make CALLS calls each on eight recorded cells that they share, and
///   writes `calls C replayed C` to `out`, C being twice CALLS: how many calls the jobs made, and how many
///   steps the cells have. CALLS is 0 to 100,000 and SEED 0 to 281,474,976,710,655. It runs the jobs by the
///   spawner and touches no other device, reads nothing of `input`, and may wait.
///
/// No other command touches a device.
///
/// How it ends:
///
/// - `Why::Done`: the command was done, and `out` grew by exactly its output. Of `replay`: the input was
///   read to its end, and no line of it is refused.
/// - `Why::Usage`: exactly where the words name none of these commands; `input`, `out` and the devices are
///   as they were.
/// - `Why::Refused`, of `replay` alone: exactly the first refused line and its reason, unless a fault
///   came before; `out` grew by the output of the steps before it. A line is refused for the first of
///   its faults, `Long`, `Byte`, `Empty`, `Command`, `Count`, `Number`, `Direction`, `Flags` or
///   `Choice`; the first line where it is no header, and the one past the millionth, whatever it holds.
/// - `Why::ReadFault`, of `replay` alone, `Why::WriteFault`: only where the count of faults of `input`, or
///   of `out`, rose in this call, by the two counts. `out` grew by a front part of the output.
/// - `Why::DeviceFault`, of `relay` alone: the port, only where its count of faults rose in this call; the
///   wait or the notifier, only where it isn't sure and the two counts differ or stand at 2^64 - 1. `out`
///   is as it was where the port was not bound, and else has the first line.
/// - `Why::OutOfMemory`: at any time. `out` grew by a front part of the output.
///
/// The text for the user is written to `err` as far as that takes it; a refusal of `err` changes no
/// status. What `replay` takes of `input` is the front of what it has left, at most 257,000,257 bytes:
/// 257 times the lines that a trace may have, and one line more. Of a refused line it is at most 257
/// bytes, behind the lines before it.
///
/// No clause of this call says that it returns, since what is handed a runtime may wait. It hands that to
/// a relay and to `stress` alone: the other commands are `run_replay`, `run_gen` and `run_sum`, which are
/// handed none, and so are proved to return where the calls of `input` and `out` do.
pub fn run<R: Wait + Threads + Sync + Send + Copy, S: Source, K: Sink, E: Sink, D: Devices>(
    rt: &R,
    alloc: Global,
    words: &[String],
    input: &mut S,
    out: &mut K,
    err: &mut E,
    devices: &mut D,
) -> Status
where
    <D::P as Port>::C: Send + Drop,
    ensures exit { result.exit ≡ exit_of result.why }

    // The words are refused exactly where they name no command; else they name one.
    ensures usage { (result.why ≡ Why.Usage)
        ↔ ((command : Command) → Names command (map string_bytes words.now) → ⊥) }
    ensures named { result.why ≢ Why.Usage
        → (command : Command) × Names command (map string_bytes words.now) }
    ensures untouched { result.why ≡ Why.Usage
        → (input.new ≡ input.old) × (out.new ≡ out.old) × (devices.new ≡ devices.old) }

    // How that command ended, by the cases of `Ran`: what it wrote, which of input, output and devices it
    // left as they were, and for which causes it may end. Of a replay, for every list of bytes that the
    // source has left: `out` grows by the machine's output, and between two steps nobody is forgotten.
    ensures ran { let see : Observers S K D D.P D.W D.N D.C D.G D.T D.P.C = record {
      remaining = S.remaining;
      contents = K.contents;
      write_faults = K.fault_count;
      six = D.six;
      own_port = D.P.own_port;
      waiting = D.P.waiting;
      port_faults = D.P.fault_count;
      telling = D.P.C.telling;
      is_sure_conn = D.P.C.is_sure;
      is_sure_wait = D.W.is_sure;
      is_sure_notify = D.N.is_sure;
      bounds = D.C.bounds;
    } in
        (command : Command) → Names command (map string_bytes words.now)
        → Ran see command result.why
        (record { input = input.old; out = out.old; devices = devices.old })
        (record { input = input.new; out = out.new; devices = devices.new }) }

    // A fault comes only of a device that failed, and is told by its counts.
    ensures counts { TellsCounts result.why (S.fault_count input.old) (S.fault_count input.new)
        (K.fault_count out.old) (K.fault_count out.new) }
    ensures read_cause { Causes S.fault_count S.is_sure
        input.old input.new (is_read_fault result.why) }
    ensures write_cause { Causes K.fault_count K.is_sure
        out.old out.new (is_write_fault result.why) }

    // The user is told why, as far as `err` takes it; a refusal of `err` changes nothing else.
    ensures told { WritesCause E.contents E.write_step E.fault_count E.is_sure err.old err.new
        (text_of result.why) }
{
    let why = match command_of(words) {
        Some(Command::Replay) => run_replay(alloc, input, out),
        Some(Command::Gen { n, seed }) => run_gen(alloc, n, seed, out),
        Some(Command::Sum { n, seed }) => run_sum(alloc, n, seed, out),
        Some(Command::Relay(order)) => run_relay(rt, alloc, order, out, devices),
        Some(Command::Stress { calls, seed }) => run_stress(rt, alloc, calls, seed, out, devices),
        None => Why::Usage,
    };
    let _ = tell(err, why);
    Status {
        exit: exit_status(why),
        why,
    }
}
