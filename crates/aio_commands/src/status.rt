//! How a call of the program ended.

use aio_base::{CountFault, Reason};

/// How a call of the program ended, by its exit status and by its cause.
#[derive(Clone, Copy, Debug, PartialEq, Eq)]
pub struct Status {
    /// The exit status of the program, 0 to 6 in the order of `Why`.
    pub exit: u8,
    pub why: Why,
}

/// Why a call of the program ended.
#[derive(Clone, Copy, Debug, PartialEq, Eq)]
pub enum Why {
    /// The command was done; a trace was read to its end.
    Done,
    /// The words are no command that is built.
    Usage,
    /// This line of the trace, counted from 1 with the header, is refused.
    Refused { line: u64, reason: Reason },
    /// The input failed: its counts of faults before and after the call.
    ReadFault(CountFault),
    /// The output failed: its counts of faults before and after the call.
    WriteFault(CountFault),
    /// Memory ran out.
    OutOfMemory,
    /// A device of a relay failed, between these two counts of its faults.
    DeviceFault { which: Which6, fault: CountFault },
}

/// The devices of a running command.
#[derive(Clone, Copy, Debug, PartialEq, Eq)]
pub enum Which6 {
    Port,
    Wait,
    Notify,
}
