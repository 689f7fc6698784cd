//! The poller in memory and its calls.

ghost use Rattle.std.specs.Prelude.{◌≡◌, ℕ, ◌+◌, ◌≤◌, [], ◌∷◌, ◌++◌, true, false, OnOk, OnErr, IfOk, length, vec_len, vec_capacity};
ghost use Rattle.aio_script.specs.Interests.{cleared};

use crate::events::NotedEvents;
use crate::interests::InterestTable;
use aio_base::{
    Arm, DueFaults, Event, EventWait, Failed, Faults, Interest, Key, OutOfMemory, Poller, Waited,
    Which,
};
use std::alloc::Global;
use std::marker::Model;
use std::mem;

/// A poller in memory in oneshot mode (`polling` 3, `lib.rs`, `Poller`): its events, failures and
/// interrupts are told to it before the calls that answer them. It looks at no clock.
#[derive(Drop)]
pub struct ScriptPoller {
    armed: InterestTable,
    noted: NotedEvents,
    due: DueFaults,
    faults: u64,
    waits: u64,
}

impl Model for ScriptPoller {
    ghost use Rattle.std.specs.Prelude.{◌<◌, ◌^◌};
    ghost use Rattle.aio_script.specs.Script.{Script};

    ghost Value = { Script };

    ghost view = { λ p. record {
      armed = p.armed;
      noted = p.noted;
      due = p.due;
      faults = p.faults;
      waits = p.waits;
    } };

    ghost invariant = { λ p. p.faults < 2 ^ 64 };
}

impl ScriptPoller {
    ghost use Rattle.aio_base.specs.Devices.{raised};
    ghost use Rattle.aio_base.specs.Machine.{with_due};
    ghost use Rattle.aio_script.specs.Script.{interests_of, new_script};

    /// A poller with room for 4,096 keys that has nothing armed, noted or due, and no faults or
    /// waits counted. `OutOfMemory` where memory ran out.
    pub fn new(alloc: Global) -> Result<ScriptPoller, OutOfMemory>
        ensures fresh { IfOk result (λ p. p ≡ new_script) }
        ensures unarmed { IfOk result (λ p. (key : ℕ) → interests_of p key ≡ Interest.NONE) }
    {
        Ok(ScriptPoller {
            armed: InterestTable::new(alloc)?,
            noted: NotedEvents::new(alloc),
            due: DueFaults::none(),
            faults: 0,
            waits: 0,
        })
    }

    /// Notes an event of any key and any directions behind those that are noted. `OutOfMemory`
    /// leaves the poller as it was.
    pub fn give(&mut self, event: Event) -> Result<(), OutOfMemory>
        ensures ok { OnOk result
            (self.new ≡ record self.old { noted = self.old.noted ++ event ∷ [] }) }
        ensures err { OnErr result (self.new ≡ self.old) }
    {
        self.noted.push(event)
    }

    /// The next call of this kind fails. Told twice, still one call fails.
    pub fn fail_next(&mut self, which: Which)
        ensures { self.new ≡ record self.old { due = with_due which self.old.due } }
    {
        self.due.fail_next(which);
    }

    /// The next wait that does not fail is interrupted.
    pub fn interrupt_next(&mut self)
        ensures { self.new ≡ record self.old { due = record self.old.due { interrupt = true } } }
    {
        self.due.interrupt = true;
    }

    /// The armed interest of a key; a key of 4,096 or more has none.
    pub fn armed(&self, key: Key) -> Interest
        ensures value { result ≡ interests_of self.now key.0 }
        ensures entries { length self.now.armed ≡ 4096 }
    {
        self.armed.get(key)
    }

    /// The events that are noted and not yet given, in order.
    pub fn noted(&self) -> &[Event]
        ensures { result.now ≡ self.now.noted }
    {
        self.noted.as_slice()
    }

    /// Counts one fault, and gives the answer that tells it.
    fn fault(&mut self) -> Failed
        ensures { self.new ≡ record self.old { faults = raised self.old.faults } }
    {
        self.faults = self.faults.saturating_add(1);
        Failed
    }
}

impl Faults for ScriptPoller {
    ghost fault_count = { λ p. p.faults };

    ghost is_sure = { λ p. false };

    ghost all_sure = { false };

    ghost use Rattle.std.proofs.lemmas.Bool.{false≢true};

    ghost sure_below_top = { λ p sure. absurd (false≢true sure) };

    ghost each_sure = { λ p sure. sure };

    fn faults(&self) -> u64 {
        self.faults
    }
}

impl Arm for ScriptPoller {
    ghost use Rattle.std.specs.Prelude.{[], ◌∷◌, Some};
    ghost use Rattle.aio_script.specs.Script.{interests_of, ScriptArms};

    ghost interests = { λ p. Some (interests_of p) };

    ghost rest = { λ p. p.waits ∷ [] };

    ghost arm_step = { ScriptArms };

    /// Registers a source; its interest is none. `Failed` exactly where a failure of `add` is due,
    /// which is then due no longer.
    fn add(&mut self, key: Key) -> Result<(), Failed> {
        if mem::replace(&mut self.due.add, false) {
            return Err(self.fault());
        }
        self.armed.set(key, Interest::NONE);
        Ok(())
    }

    /// Arms a source: its interest is `on` until an event of it is given. `Failed` exactly where a
    /// failure of `arm` is due, which is then due no longer.
    fn arm(&mut self, key: Key, on: Interest) -> Result<(), Failed> {
        if mem::replace(&mut self.due.arm, false) {
            return Err(self.fault());
        }
        self.armed.set(key, on);
        Ok(())
    }

    /// Takes a source out. `Failed` exactly where a failure of `remove` is due, which is then due no
    /// longer.
    fn remove(&mut self, key: Key) -> Result<(), Failed> {
        if mem::replace(&mut self.due.remove, false) {
            return Err(self.fault());
        }
        self.armed.set(key, Interest::NONE);
        Ok(())
    }
}

impl EventWait for ScriptPoller {
    ghost use Rattle.aio_script.specs.Script.{ScriptWaits};

    ghost wait_count = { λ p. p.waits };

    ghost wait_step = { ScriptWaits };

    /// Gives the first `room` noted events, or all where there are fewer, without waiting. `Failed`
    /// exactly where a failure of `wait` is due, and else interrupted exactly where that is due;
    /// what was answered is then due no longer, and no event is given.
    #[inline(always)]
    fn wait(
        &mut self,
        out: &mut Vec<Event>,
        room: u32,
        _limit: Option<u64>,
    ) -> Result<Waited, Failed> {
        self.waits = self.waits.saturating_add(1);
        if mem::replace(&mut self.due.wait, false) {
            return Err(self.fault());
        }
        if mem::replace(&mut self.due.interrupt, false) {
            return Ok(Waited::Interrupted);
        }
        let noted = self.noted.as_slice();
        if noted.is_empty() {
            return Ok(Waited::Given(0));
        }
        let count = noted.len().min(room as usize);
        let given = &noted[..count];
        give_out(&mut self.armed, given, out);
        self.noted.skip(count);
        Ok(Waited::Given(count as u32))
    }

    fn waits(&self) -> u64 {
        self.waits
    }
}

impl Poller for ScriptPoller {
    ghost use Rattle.std.proofs.Common.{ap};
    ghost use Rattle.std.specs.Prelude.{slice_index_or};
    ghost use Rattle.aio_script.specs.ToldInterests.{wait_clears_interests};

    ghost wait_clears = { wait_clears_interests };

    ghost waits_in_rest = { λ a b same. ap (λ rest. slice_index_or rest 0 0) same };
}

/// Puts events at the end of `out`, and clears the interest of the key of each.
fn give_out(armed: &mut InterestTable, events: &[Event], out: &mut Vec<Event>)
    requires { vec_len out.old + length events.now ≤ vec_capacity out.old }
    ensures armed { armed.new ≡ cleared events.now armed.old }
    ensures out { out.new.items ≡ out.old.items ++ events.now }
    ensures capacity { vec_capacity out.new ≡ vec_capacity out.old }
{
    for event in events {
        armed.disarm_key(event.key);
        out.push_reserved(*event);
    }
}
