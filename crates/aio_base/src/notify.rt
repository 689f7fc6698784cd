//! What ends a wait of a poller from another thread.

ghost use Rattle.std.specs.Prelude.{◌≡◌, ℕ, IsTrue, IfOk, IsErr, Result};

use crate::devices::Faults;
use crate::outcomes::{Failed, OutOfMemory};

/// What ends the wait of a poller, or the next one where none is running (`polling` 3, `lib.rs`,
/// `Poller::notify`). That a call ends a wait is a matter of the outside, and no clause says it.
pub trait Notify: Faults {
    ghost use Rattle.aio_base.specs.declared.outcomes.Failed.{Failed};
    ghost use Rattle.aio_base.specs.Devices.{TellsFaults, raised};

    /// The number of its notifies so far.
    ghost call_count: { Self → ℕ };

    /// The object's state before a notify, its answer and the state after it.
    ghost notify_step: { Self → Result (Unit {0}) Failed → Self → Type 0 };

    /// Notifies. `Failed` only where the count of faults rose. Takes no memory.
    fn notify(&mut self) -> Result<(), Failed>
        ensures step { notify_step self.old result self.new }
        ensures calls { call_count self.new ≡ raised (call_count self.old) }
        ensures faults { TellsFaults Self.fault_count Self.is_sure self.old self.new (IsErr result) };

    /// The number of its notifies: every notify raises it, whatever it answers, or it stands at
    /// 2^64 - 1. No other call changes it.
    fn calls(&self) -> u64
        ensures { result ≡ call_count self.now };

    /// An object that serves another thread, and counts its notifies and its faults for itself. The
    /// twin of a sure object is sure. `OutOfMemory` where memory ran out.
    fn twin(&self) -> Result<Self, OutOfMemory>
        ensures { IsTrue (Self.is_sure self.now) → IfOk result (λ twin. IsTrue (Self.is_sure twin)) };
}
