//! What the program ends with: its exit status, and the text that tells the user why.

ghost use Rattle.std.specs.Prelude.{◌≡◌, ◌++◌, IfErr, codes};
ghost use Rattle.aio_base.specs.Devices.{TellsFaults};
ghost use Rattle.aio_base.specs.Text.{ended_line, reason_text};
ghost use Rattle.aio_bytes.specs.Sinks.{HasFailed, RefusedBy, Writes};
ghost use Rattle.aio_commands.specs.Commands.{exit_of, refusal_text, text_of};

use crate::status::Why;
use aio_base::Reason;
use aio_bytes::{Sink, SinkRefusal, write_all};
use itoa::Buffer;

/// The text where the words are no command.
const USAGE: &[u8] =
    b"usage: replay; gen N SEED; sum N SEED; relay PORT WORKERS IDLE PAIRS; stress CALLS SEED\n";

/// The exit status of the program where it ends for this cause.
pub fn exit_status(why: Why) -> u8
    ensures { result ≡ exit_of why }
{
    match why {
        Why::Done => 0,
        Why::Usage => 1,
        Why::Refused { .. } => 2,
        Why::ReadFault(_) => 3,
        Why::WriteFault(_) => 4,
        Why::OutOfMemory => 5,
        Why::DeviceFault { .. } => 6,
    }
}

/// Tells the user why the program ends, where that is not plain; or what kept `err` from taking it. It
/// takes no memory.
pub fn tell<E: Sink>(err: &mut E, why: Why) -> Result<(), SinkRefusal>
    ensures written { Writes result (E.contents err.old) (E.contents err.new) (text_of why) }
    ensures refused { IfErr result (RefusedBy E.write_step err.new) }
    ensures cause { TellsFaults E.fault_count E.is_sure err.old err.new (HasFailed result) }
{
    match why {
        Why::Done => Ok(()),
        Why::Usage => write_all(err, USAGE),
        Why::Refused { line, reason } => tell_refusal(err, line, reason),
        Why::ReadFault(_) => write_all(err, b"read fault\n"),
        Why::WriteFault(_) => write_all(err, b"write fault\n"),
        Why::OutOfMemory => write_all(err, b"out of memory\n"),
        Why::DeviceFault { .. } => write_all(err, b"device fault\n"),
    }
}

/// Tells the user which line of a trace is refused, and why.
fn tell_refusal<E: Sink>(err: &mut E, line: u64, reason: Reason) -> Result<(), SinkRefusal>
    ensures written { Writes result (E.contents err.old) (E.contents err.new)
        (refusal_text line reason) }
    ensures refused { IfErr result (RefusedBy E.write_step err.new) }
    ensures cause { TellsFaults E.fault_count E.is_sure err.old err.new (HasFailed result) }
{
    match write_all(err, b"line ") {
        Ok(()) => {}
        Err(refusal) => return Err(refusal),
    }
    let mut digits = Buffer::new();
    match write_all(err, digits.format(line).as_bytes()) {
        Ok(()) => {}
        Err(refusal) => return Err(refusal),
    }
    write_all(err, refusal_end(reason))
}

/// How the line ends that tells why a line of a trace is refused.
fn refusal_end(reason: Reason) -> &'static [u8]
    ensures { result.now ≡ ended_line (codes ": " ++ reason_text reason) }
{
    match reason {
        Reason::Long => b": long\n",
        Reason::Byte => b": byte\n",
        Reason::Empty => b": empty\n",
        Reason::Command => b": command\n",
        Reason::Count => b": count\n",
        Reason::Number => b": number\n",
        Reason::Direction => b": direction\n",
        Reason::Flags => b": flags\n",
        Reason::Choice => b": choice\n",
        Reason::Header => b": header\n",
        Reason::Lines => b": lines\n",
    }
}
