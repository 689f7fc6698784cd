//! Pollers that are in another mode than oneshot.

ghost use Rattle.std.specs.Prelude.{◌≡◌, ℕ, ◌+◌, ◌≤◌, ◌<◌, Option, vec_len, vec_capacity};

use crate::mode::Mode;
use aio_base::{Event, Failed, Faults, Interest, Key, Waited};

/// A poller in one of three modes. Where it tells its lists, `RawDid` says what each call makes of
/// them.
pub trait RawPoller: Faults {
    ghost use Rattle.aio_base.specs.Devices.{AddOf, ArmOf, RemoveOf, PollerMove, Armed};
    ghost use Rattle.aio_modes.specs.declared.mode.Mode.{Mode};
    ghost use Rattle.aio_modes.specs.Raw.{RawLists, RawDid, RawWaited};

    /// The mode, which no call changes.
    ghost mode_of: { Self → Mode };

    /// What is asked for, what is ready and what became ready, where the object tells it.
    ghost told: { Self → Option RawLists };

    /// The object's state before a call, the call with its answer, and the state after it.
    ghost raw_step: { Self → PollerMove → Self → Type 0 };

    /// The mode. Takes no memory.
    fn mode(&self) -> Mode
        ensures { result ≡ mode_of self.now };

    /// Registers a source, for which nothing is asked. `Failed` only where the count of faults
    /// rose.
    fn add(&mut self, key: Key) -> Result<(), Failed>
        requires { key.0 < 4096 }
        ensures { RawDid raw_step told mode_of Self.fault_count Self.is_sure
            self.old (Armed (AddOf key) result) self.new };

    /// Asks for these directions of a source, in place of those before. `Failed` only where the
    /// count of faults rose.
    fn set(&mut self, key: Key, on: Interest) -> Result<(), Failed>
        requires { key.0 < 4096 }
        ensures { RawDid raw_step told mode_of Self.fault_count Self.is_sure
            self.old (Armed (ArmOf key on) result) self.new };

    /// Takes a source out. `Failed` only where the count of faults rose.
    fn remove(&mut self, key: Key) -> Result<(), Failed>
        requires { key.0 < 4096 }
        ensures { RawDid raw_step told mode_of Self.fault_count Self.is_sure
            self.old (Armed (RemoveOf key) result) self.new };

    /// Waits for events, at most `limit` nanoseconds where there is a limit, and adds at most
    /// `room` of them at the end of `out`. A wait that is interrupted or that fails adds none.
    /// `Failed` only where the count of faults rose. Takes no memory.
    fn wait(
        &mut self,
        out: &mut Vec<Event>,
        room: u32,
        limit: Option<u64>,
    ) -> Result<Waited, Failed>
        requires { vec_len out.old + room ≤ vec_capacity out.old }
        ensures added { RawWaited raw_step told mode_of Self.fault_count Self.is_sure
            self.old (record { room = room; limit = limit }) result
            out.old.items out.new.items self.new }
        ensures capacity { vec_capacity out.old ≤ vec_capacity out.new };
}
