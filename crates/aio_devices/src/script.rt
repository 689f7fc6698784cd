//! Calls that fail by a script.

ghost use Rattle.std.specs.Prelude.{◌≡◌, is_err, IsErr};
ghost use Rattle.aio_base.specs.Devices.{HasCause};
ghost use Rattle.aio_devices.specs.Scripts.{after_call, fails_never, fault_count, is_next_failing, new_script};

use aio_base::Failed;
use std::marker::Model;

/// The calls of a device, numbered from 1 over all kinds: those whose numbers stand in a list fail.
/// So where the list is empty none does, and no fault is counted. No call takes memory.
#[derive(Drop)]
pub struct Script {
    fails: Vec<u64>,
    calls: u64,
    faults: u64,
}

impl Model for Script {
    ghost use Rattle.std.specs.Prelude.{◌≡◌, ◌==◌, IsTrue, length};
    ghost use Rattle.aio_devices.specs.Scripts.{ScriptValue};

    ghost Value = { ScriptValue };

    ghost view = { λ s. record { fails = s.fails.items; calls = s.calls; faults = s.faults } };

    ghost invariant = { λ s. IsTrue (length s.fails.items == 0) → s.faults ≡ 0 };
}

impl Script {
    /// No call was made yet, and those with these numbers will fail.
    pub fn new(fails: Vec<u64>) -> Script
        ensures { result ≡ new_script fails.items }
    {
        Script {
            fails,
            calls: 0,
            faults: 0,
        }
    }

    /// How many calls failed.
    pub fn faults(&self) -> u64
        ensures { result ≡ fault_count self.now }
    {
        self.faults
    }

    /// How many calls were made.
    pub fn calls(&self) -> u64
        ensures { result ≡ self.now.calls }
    {
        self.calls
    }

    /// Counts one more call, and one more fault where that call fails. `Failed` exactly where its number
    /// stands in the list.
    pub fn next_call(&mut self) -> Result<(), Failed>
        ensures fails { is_err result ≡ is_next_failing self.old }
        ensures after { self.new ≡ after_call self.old }
        ensures cause { HasCause (fault_count self.old) (fault_count self.new)
            (fails_never self.old) (IsErr result) }
    {
        self.calls = self.calls.saturating_add(1);
        if self.fails.contains(&self.calls) {
            self.faults = self.faults.saturating_add(1);
            return Err(Failed);
        }
        Ok(())
    }
}
