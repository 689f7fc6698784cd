//! A whole trace, from the one version into the other.

ghost use Rattle.std.specs.Prelude.{◌≡◌, ℕ, List, Some};
ghost use Rattle.aio_base.specs.Trace.{line_limit};
ghost use Rattle.aio_bytes.specs.Unread.{LeavesAllBut};
ghost use Rattle.aio_replay.specs.Driving.{Causes, most_bytes};
ghost use Rattle.aio_replay.specs.Ends.{TellsCounts, WritesTold, tells_read_fault, tells_write_fault};
ghost use Rattle.aio_migrate.specs.MigratedInputs.{migrated_input};

use crate::blocks::Migrator;
use aio_base::CountFault;
use aio_bytes::{Sink, SinkRefusal, Source};
use aio_replay::ReplayEnd;
use aio_replay::driver::Driver;
use aio_replay::ends::{Cause, End};
use std::alloc::Global;

/// Brings a trace of the first version into the second: what `input` has left is read, nothing is run, and
/// the text goes to `out`. A row of equal steps is written as one step, with a line in front that says
/// how often it comes; of a row of more than 100,000 these come first, as often as there are more. It
/// holds two lines and a count meanwhile, however long the input is. How it ended:
///
/// - `ReplayEnd::Done`: the input was read to its end, no line of it is refused, and `out` grew by
///   exactly the text of its steps.
/// - `ReplayEnd::Refused`: exactly the first refused line and its reason, as `replay` says of the first
///   version, unless a fault came before; `out` grew by the text of the steps before it, and by nothing
///   where that is line 1, which any other header is refused at.
/// - `ReplayEnd::ReadFault`, `ReplayEnd::WriteFault`: only where the count of faults of `input`, or of
///   `out`, rose in this call, by the two counts. `out` grew by a front part of the text.
/// - `ReplayEnd::OutOfMemory`: at any time. `out` grew by a front part of the text.
///
/// What is taken of `input` is the front of what it has left, at most 257,000,257 bytes.
pub fn migrate<S: Source, K: Sink>(alloc: Global, input: &mut S, out: &mut K) -> ReplayEnd
    ensures migrates { (bytes : List ℕ) → S.remaining input.old ≡ Some bytes
        → WritesTold (migrated_input bytes) result (S.remaining input.new)
        (K.contents out.old) (K.contents out.new) }
    ensures most { (bytes : List ℕ) → S.remaining input.old ≡ Some bytes
        → LeavesAllBut (most_bytes line_limit) (S.remaining input.new) bytes }
    ensures counts { TellsCounts result (S.fault_count input.old) (S.fault_count input.new)
        (K.fault_count out.old) (K.fault_count out.new) }
    ensures read_cause { Causes S.fault_count S.is_sure
        input.old input.new (tells_read_fault result) }
    ensures write_cause { Causes K.fault_count K.is_sure
        out.old out.new (tells_write_fault result) }
{
    let reads = input.faults();
    let writes = out.faults();
    let Ok(mut driver) = Driver::new(alloc, Migrator::new(alloc)) else {
        return ReplayEnd::OutOfMemory;
    };
    match driver.drive(input, out) {
        End::Done => ReplayEnd::Done,
        End::Refused { line, reason } => ReplayEnd::Refused { line, reason },
        End::Stopped(stop) => match (stop.cause, stop.sent) {
            (Cause::Read, _) => {
                return ReplayEnd::ReadFault(CountFault {
                    before: reads,
                    after: input.faults(),
                });
            }
            (Cause::Write, Err(SinkRefusal::Failed)) => {
                return ReplayEnd::WriteFault(CountFault {
                    before: writes,
                    after: out.faults(),
                });
            }
            _ => return ReplayEnd::OutOfMemory,
        },
    }
}
