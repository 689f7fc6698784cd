//! The command `replay`, as the program ends by it.

ghost use Rattle.std.specs.Prelude.{◌≡◌, ◌≢◌, ℕ, List, Some, false};
ghost use Rattle.aio_base.specs.Trace.{line_limit, trace_of};
ghost use Rattle.aio_bytes.specs.Unread.{LeavesAllBut};
ghost use Rattle.aio_commands.specs.Commands.{TellsCounts, WritesTold, bytes_taken, why_of};
ghost use Rattle.aio_commands.specs.Commands.{is_device_fault, is_read_fault, is_write_fault};
ghost use Rattle.aio_replay.specs.Driving.{Causes, most_bytes};
ghost use Rattle.aio_replay.specs.Language.{run_of};

use crate::status::Why;
use aio_bytes::{Sink, Source};
use aio_replay::{ReplayEnd, replay};
use std::alloc::Global;

/// The command `replay`: replays the trace of an input, and lets go of the core that ran it. It is handed
/// no runtime, so it can't wait.
pub fn run_replay<S: Source, K: Sink>(alloc: Global, input: &mut S, out: &mut K) -> Why
    ensures usage { result ≢ Why.Usage }
    ensures no_device { is_device_fault result ≡ false }
    ensures replays { (bytes : List ℕ) → S.remaining input.old ≡ Some bytes
        → WritesTold (run_of (trace_of bytes)) result (S.remaining input.new)
        (K.contents out.old) (K.contents out.new) }
    ensures taken { (bytes : List ℕ) → S.remaining input.old ≡ Some bytes
        → LeavesAllBut (bytes_taken line_limit result bytes) (S.remaining input.new) bytes }
    ensures most { (bytes : List ℕ) → S.remaining input.old ≡ Some bytes
        → LeavesAllBut (most_bytes line_limit) (S.remaining input.new) bytes }
    ensures counts { TellsCounts result (S.fault_count input.old) (S.fault_count input.new)
        (K.fault_count out.old) (K.fault_count out.new) }
    ensures read_cause { Causes S.fault_count S.is_sure
        input.old input.new (is_read_fault result) }
    ensures write_cause { Causes K.fault_count K.is_sure
        out.old out.new (is_write_fault result) }
{
    let (end, _) = replay(alloc, input, out);
    cause_of(end)
}

/// Why the program ends, where a replay ended so.
fn cause_of(end: ReplayEnd) -> Why
    ensures { result ≡ why_of end }
{
    match end {
        ReplayEnd::Done => Why::Done,
        ReplayEnd::Refused { line, reason } => Why::Refused { line, reason },
        ReplayEnd::ReadFault(fault) => Why::ReadFault(fault),
        ReplayEnd::WriteFault(fault) => Why::WriteFault(fault),
        ReplayEnd::OutOfMemory => Why::OutOfMemory,
    }
}
