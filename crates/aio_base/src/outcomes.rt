//! What calls of devices answer, and the faults that are told upwards.

ghost use Rattle.std.specs.Prelude.{◌≡◌};

use crate::names::Key;
use std::alloc::{AllocError, AllocFailed};

/// What a wait that did not fail answers: so many events were given, or it was interrupted.
#[derive(Clone, Copy, Debug, PartialEq, Eq)]
pub enum Waited {
    /// So many events were given, maybe none.
    Given(u32),
    /// The wait was interrupted, and gave no event.
    Interrupted,
}

/// Whether what was polled for is there (`core::task::Poll`).
#[derive(Clone, Copy, Debug, Drop, PartialEq, Eq)]
pub enum Poll<T> {
    /// It is there, and here it is.
    Ready(T),
    /// It is not there yet.
    Pending,
}

/// The answer of a device that failed.
#[derive(Clone, Copy, Debug, PartialEq, Eq)]
pub struct Failed;

/// The answer where memory ran out.
#[derive(Clone, Copy, Debug, PartialEq, Eq)]
pub struct OutOfMemory;

/// An allocation that was refused is told as want of memory by `?`.
impl From<AllocError> for OutOfMemory {
    fn from(_refused: AllocError) -> OutOfMemory {
        OutOfMemory
    }
}

/// A growth that was refused is told so too; the value that found no room is let go.
impl<T: Drop> From<AllocFailed<T>> for OutOfMemory {
    fn from(_refused: AllocFailed<T>) -> OutOfMemory {
        OutOfMemory
    }
}

/// The fault of a device, told by its count of faults before and after the call.
#[derive(Clone, Copy, Debug, PartialEq, Eq)]
pub struct CountFault {
    /// The count of faults before the call.
    pub before: u64,
    /// The count of faults after the call.
    pub after: u64,
}

/// The fault of a poller that could not be armed for a source, told by its two counts of faults.
#[derive(Clone, Copy, Debug, PartialEq, Eq)]
pub struct ArmFault {
    /// The source that could not be armed.
    pub key: Key,
    /// The count of faults before the call.
    pub before: u64,
    /// The count of faults after the call.
    pub after: u64,
}

/// The kinds of call of a poller.
#[derive(Clone, Copy, Debug, PartialEq, Eq)]
pub enum Which {
    /// Registering a source, written `add`.
    Add,
    /// Arming the interest of a source, written `arm`.
    Arm,
    /// Taking a source out, written `remove`.
    Remove,
    /// Waiting for events, written `wait`.
    Wait,
}

/// What a poller in memory was told to answer and has not answered yet: a failure of the next call
/// of a kind, and an interrupt of the next wait that does not fail. The machine keeps it beside the
/// noted events.
#[derive(Clone, Copy, Debug, PartialEq, Eq)]
pub struct DueFaults {
    /// The next registration fails.
    pub add: bool,
    /// The next arming fails.
    pub arm: bool,
    /// The next removal fails.
    pub remove: bool,
    /// The next wait fails.
    pub wait: bool,
    /// The next wait that does not fail is interrupted.
    pub interrupt: bool,
}

impl DueFaults {
    ghost use Rattle.aio_base.specs.World.{nothing_due};
    ghost use Rattle.aio_base.specs.Machine.{with_due};

    /// Nothing was told.
    pub fn none() -> DueFaults
        ensures { result ≡ nothing_due }
    {
        DueFaults {
            add: false,
            arm: false,
            remove: false,
            wait: false,
            interrupt: false,
        }
    }

    /// The next call of this kind fails. Told twice, still one call fails.
    pub fn fail_next(&mut self, which: Which)
        ensures { self.new ≡ with_due which self.old }
    {
        match which {
            Which::Add => self.add = true,
            Which::Arm => self.arm = true,
            Which::Remove => self.remove = true,
            Which::Wait => self.wait = true,
        }
    }
}

/// How a round ended: clean, written `ok`, or with its first fault.
#[derive(Clone, Copy, Debug, PartialEq, Eq)]
pub enum EndWord {
    /// No call failed, written `ok`.
    Clean,
    /// The wait was the first call that failed, written `fault wait`.
    FaultWait,
    /// Arming was the first call that failed, written `fault arm`.
    FaultArm,
}
