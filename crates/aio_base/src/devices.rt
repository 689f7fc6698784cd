//! The devices of a reactor, as traits with a written meaning.
//!
//! What a device tells (its interests, its being sure) and the relation of a call are ghost members:
//! contracts see them, and no body can branch on them. What is told stays told, and what is not told
//! stays untold. A generic body can answer a device's fault only after a call that failed, since only
//! such a call lets the count of faults rise.

ghost use Rattle.std.specs.Prelude.{◌≡◌, ℕ, ◌+◌, ◌-◌, ◌^◌, ◌<◌, ◌≤◌, Bool, IsTrue, List, Option, Result, vec_len, vec_capacity, IsErr};

use crate::names::{Event, Interest, Key};
use crate::outcomes::{Failed, Waited};

/// An object of the outside with a count of its faults, which no call lets fall and which stands
/// still at 2^64 - 1.
pub trait Faults {
    /// The count of faults so far.
    ghost fault_count: { Self → ℕ };

    /// Whether the object tells that it is sure: no call of it ever fails. No call changes this.
    ghost is_sure: { Self → Bool };

    /// Whether the type tells that all its values are sure.
    ghost all_sure: { Bool };

    /// The count of faults.
    fn faults(&self) -> u64
        ensures { result ≡ fault_count self.now };

    ghost sure_below_top: { (s : Self) → IsTrue (is_sure s) → fault_count s < 2 ^ 64 - 1 };

    ghost each_sure: { (s : Self) → IsTrue all_sure → IsTrue (is_sure s) };
}

/// What registers sources and arms their interest (`polling` 3, `lib.rs`: `Poller::add`, `modify`
/// and `delete` in oneshot mode).
pub trait Arm: Faults {
    ghost use Rattle.aio_base.specs.declared.outcomes.Failed.{Failed};
    ghost use Rattle.aio_base.specs.Devices.{TellsFaults, Interests, ArmCall, AddOf, ArmOf, RemoveOf, Arms};

    /// The armed interest of each key, where the object tells it. An object that tells it does so
    /// after each call, and one that does not never begins to.
    ghost interests: { Self → Option Interests };

    /// Numbers that no call of this trait changes.
    ghost rest: { Self → List ℕ };

    /// The object's state before a call, the call, its answer and the state after it.
    ghost arm_step: { Self → ArmCall → Result (Unit {0}) Failed → Self → Type 0 };

    /// Registers a source; its interest is none. `Failed` only where the count of faults rose.
    fn add(&mut self, key: Key) -> Result<(), Failed>
        requires { key.0 < 4096 }
        ensures step { arm_step self.old (AddOf key) result self.new }
        ensures interests { Arms (interests self.old) (AddOf key) result (interests self.new) }
        ensures rest { rest self.new ≡ rest self.old }
        ensures faults { TellsFaults Self.fault_count Self.is_sure
            self.old self.new (IsErr result) };

    /// Arms a source: its interest is `on` until an event of it is given. `Failed` only where the
    /// count of faults rose.
    fn arm(&mut self, key: Key, on: Interest) -> Result<(), Failed>
        requires { key.0 < 4096 }
        ensures step { arm_step self.old (ArmOf key on) result self.new }
        ensures interests { Arms (interests self.old) (ArmOf key on) result (interests self.new) }
        ensures rest { rest self.new ≡ rest self.old }
        ensures faults { TellsFaults Self.fault_count Self.is_sure
            self.old self.new (IsErr result) };

    /// Takes a source out. `Failed` only where the count of faults rose.
    fn remove(&mut self, key: Key) -> Result<(), Failed>
        requires { key.0 < 4096 }
        ensures step { arm_step self.old (RemoveOf key) result self.new }
        ensures interests { Arms (interests self.old) (RemoveOf key) result (interests self.new) }
        ensures rest { rest self.new ≡ rest self.old }
        ensures faults { TellsFaults Self.fault_count Self.is_sure
            self.old self.new (IsErr result) };
}

/// What waits for events (`polling` 3, `lib.rs`, `Poller::wait`).
pub trait EventWait: Faults {
    ghost use Rattle.aio_base.specs.declared.names.Event.{Event};
    ghost use Rattle.aio_base.specs.declared.outcomes.Failed.{Failed};
    ghost use Rattle.aio_base.specs.declared.outcomes.Waited.{Waited};
    ghost use Rattle.aio_base.specs.Devices.{TellsFaults, raised, WaitCall};
    ghost use Rattle.aio_base.specs.Waits.{AddsEvents};

    /// The number of waits so far.
    ghost wait_count: { Self → ℕ };

    /// The object's state before a wait, the wait, its answer, the events that it added and the
    /// state after it.
    ghost wait_step: { Self → WaitCall → Result Waited Failed → List Event → Self → Type 0 };

    /// Waits for events, at most `limit` nanoseconds where there is a limit, and adds at most `room`
    /// of them at the end of `out`. A wait that is interrupted or that fails adds none. `Failed` only
    /// where the count of faults rose. Takes no memory.
    fn wait(
        &mut self,
        out: &mut Vec<Event>,
        room: u32,
        limit: Option<u64>,
    ) -> Result<Waited, Failed>
        requires { vec_len out.old + room ≤ vec_capacity out.old }
        ensures added { AddsEvents
            (wait_step self.old (record { room = room; limit = limit }) result)
            self.new result room out.old.items out.new.items }
        ensures capacity { vec_capacity out.old ≤ vec_capacity out.new }
        ensures waits { wait_count self.new ≡ raised (wait_count self.old) }
        ensures faults { TellsFaults Self.fault_count Self.is_sure
            self.old self.new (IsErr result) };

    /// The number of waits: every wait raises it, or it stands at 2^64 - 1.
    fn waits(&self) -> u64
        ensures { result ≡ wait_count self.now };
}

/// A poller in oneshot mode (`polling` 3, `lib.rs`): each event that is given clears the whole
/// interest of its key, which must be armed again.
///
/// A poller that tells its interests and arms any cannot take a relation that always holds for its
/// waits: by the law `wait_clears` the relation has to say which interests are left. One that tells
/// none can. Either way its rest has to carry its number of waits, by the law `waits_in_rest`.
pub trait Poller: Arm + EventWait {
    ghost use Rattle.aio_base.specs.declared.names.Event.{Event};
    ghost use Rattle.aio_base.specs.declared.outcomes.Failed.{Failed};
    ghost use Rattle.aio_base.specs.declared.outcomes.Waited.{Waited};
    ghost use Rattle.aio_base.specs.Devices.{Becomes, clear_interests, WaitCall};

    /// Where interests are told, a wait clears those of the keys that its events name, and no other.
    ghost wait_clears: { (old new : Self) (call : WaitCall)
        (answer : Result Waited Failed) (added : List Event)
        → Self.wait_step old call answer added new
        → Becomes (Self.interests old) (Self.interests new) (clear_interests added) };

    /// The number of waits is read off the rest, which no arming changes.
    ghost waits_in_rest: { (a b : Self) → Self.rest a ≡ Self.rest b
        → Self.wait_count a ≡ Self.wait_count b };
}
