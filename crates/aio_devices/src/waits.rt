//! Halves of a poller in memory that wait, and give events of the first keys.

ghost use Rattle.std.specs.Prelude.{◌≡◌, ◌+◌, ◌≤◌, [], ◌++◌, length, min, vec_len, vec_capacity};
ghost use Rattle.aio_devices.specs.Scripts.{new_script};
ghost use Rattle.aio_devices.specs.Waits.{key_events};

use crate::script::Script;
use aio_base::{Event, EventWait, Failed, Faults, Interest, Key, Waited};
use std::marker::Model;

/// Adds an event of reading and writing for each of the first keys, as many as there is room for. How many
/// it added.
fn give_keys(out: &mut Vec<Event>, keys: u32, room: u32) -> u32
    requires { vec_len out.old + room ≤ vec_capacity out.old }
    ensures count { result ≡ min keys room }
    ensures added { out.new.items ≡ out.old.items ++ key_events (min keys room) }
    ensures capacity { vec_capacity out.old ≤ vec_capacity out.new }
{
    let count = keys.min(room);
    for key in 0..count {
        out.push_reserved(Event {
            key: Key(key),
            on: Interest::READ_WRITE,
        });
    }
    count
}

/// A half of a poller of which each wait gives one event of reading and writing, without urgent readiness,
/// for each of its keys, from 0 on: only the first of these where there is room for no more. No wait ever
/// fails.
#[derive(Clone, Copy, Debug, PartialEq, Eq)]
pub struct MemWait {
    keys: u32,
    waits: u64,
}

impl Model for MemWait {
    ghost use Rattle.aio_devices.specs.Waits.{KeyWaits};

    ghost Value = { KeyWaits };

    ghost view = { λ w. record { keys = w.keys; waits = w.waits } };

    ghost inverse = { λ w. record { keys = w.keys; waits = w.waits } };
}

impl MemWait {
    /// A half that gives events of this many keys, at most 1,024, and has not waited yet. It takes no
    /// memory.
    pub fn new(keys: u32) -> MemWait
        requires { keys ≤ 1024 }
        ensures { result ≡ record { keys = keys; waits = 0 } }
    {
        MemWait { keys, waits: 0 }
    }
}

impl Faults for MemWait {
    ghost use Rattle.std.specs.Prelude.{true};
    ghost use Rattle.std.proofs.Common.{arith};

    ghost fault_count = { λ w. 0 };

    ghost is_sure = { λ w. true };

    ghost all_sure = { true };

    ghost sure_below_top = { λ w sure. Prim.omega arith };

    ghost each_sure = { λ w sure. sure };

    /// No wait fails, so none is counted.
    fn faults(&self) -> u64 {
        0
    }
}

impl EventWait for MemWait {
    ghost use Rattle.aio_devices.specs.Waits.{WaitsByKeys};

    ghost wait_count = { λ w. w.waits };

    ghost wait_step = { WaitsByKeys };

    /// Gives the events at once, whatever the limit is.
    fn wait(
        &mut self,
        out: &mut Vec<Event>,
        room: u32,
        _limit: Option<u64>,
    ) -> Result<Waited, Failed> {
        self.waits = self.waits.saturating_add(1);
        Ok(Waited::Given(give_keys(out, self.keys, room)))
    }

    fn waits(&self) -> u64 {
        self.waits
    }
}

/// A half of a poller whose waits are numbered from 1; those whose numbers stand in its script fail, and the
/// others give what those of `MemWait` give. It is sure where no number stands there.
#[derive(Drop)]
pub struct FailingWait {
    keys: u32,
    script: Script,
}

impl Model for FailingWait {
    ghost use Rattle.aio_devices.specs.Waits.{FailingKeys};

    ghost Value = { FailingKeys };

    ghost view = { λ w. record { keys = w.keys; script = w.script } };
}

impl FailingWait {
    /// A half that gives events of this many keys, at most 1,024, and of which the waits with the numbers
    /// in `fails` fail.
    pub fn new(keys: u32, fails: Vec<u64>) -> FailingWait
        requires { keys ≤ 1024 }
        ensures { result ≡ record { keys = keys; script = new_script fails.items } }
    {
        FailingWait {
            keys,
            script: Script::new(fails),
        }
    }
}

impl Faults for FailingWait {
    ghost use Rattle.std.specs.Prelude.{◌-◌, ◌^◌, ◌<◌, false, if◌then◌else◌};
    ghost use Rattle.std.proofs.Common.{arith, subst, sym};
    ghost use Rattle.std.proofs.lemmas.Bool.{false≢true};
    ghost use Rattle.aio_devices.specs.Scripts.{fails_never, fault_count};

    ghost fault_count = { λ w. fault_count w.script };

    ghost is_sure = { λ w. fails_never w.script };

    ghost all_sure = { false };

    ghost sure_below_top = { λ w sure.
        subst (λ never. (if never then 0 else w.script.faults) < 2 ^ 64 - 1) (sym sure)
        (Prim.omega arith) };

    ghost each_sure = { λ w sure. absurd (false≢true sure) };

    fn faults(&self) -> u64 {
        self.script.faults()
    }
}

impl EventWait for FailingWait {
    ghost use Rattle.aio_devices.specs.Waits.{WaitsByScript};

    ghost wait_count = { λ w. w.script.calls };

    ghost wait_step = { WaitsByScript };

    /// Fails, or gives the events at once, whatever the limit is.
    fn wait(
        &mut self,
        out: &mut Vec<Event>,
        room: u32,
        _limit: Option<u64>,
    ) -> Result<Waited, Failed> {
        if self.script.next_call().is_err() {
            return Err(Failed);
        }
        Ok(Waited::Given(give_keys(out, self.keys, room)))
    }

    fn waits(&self) -> u64 {
        self.script.calls()
    }
}
