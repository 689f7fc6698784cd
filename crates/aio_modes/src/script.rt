//! A raw poller in memory: what is ready and which calls fail is told to it.

ghost use Rattle.std.specs.Prelude.{◌≡◌, ℕ, ◌<◌, IfOk};
ghost use Rattle.aio_base.specs.Devices.{raised};
ghost use Rattle.aio_script.specs.Interests.{interests_in};
ghost use Rattle.aio_modes.specs.Raw.{after_given, looked_at};

use crate::interests::{common_of, join};
use crate::mode::Mode;
use crate::owed::{give_owed, lessen};
use crate::raw::RawPoller;
use aio_base::{Event, Failed, Faults, Interest, Key, OutOfMemory, Waited};
use aio_script::InterestTable;
use std::alloc::Global;
use std::marker::Model;
use std::mem;

/// The kinds of call of a raw poller.
#[derive(Clone, Copy, Debug, PartialEq, Eq)]
pub enum RawWhich {
    /// Registering a source.
    Add,
    /// Setting the interest of a source.
    Set,
    /// Taking a source out.
    Remove,
    /// Waiting for events.
    Wait,
}

/// Which calls are told to fail: of each kind the next one.
#[derive(Clone, Copy)]
pub(crate) struct RawDue {
    pub add: bool,
    pub set: bool,
    pub remove: bool,
    pub wait: bool,
}

/// A raw poller in memory in one of the three modes (`polling` 3, `lib.rs`, `PollMode`). It looks
/// at no clock, no wait of it is interrupted, and a call fails exactly where that was told to it.
#[derive(Drop)]
pub struct RawScript {
    mode: Mode,
    on: InterestTable,
    ready: InterestTable,
    edges: InterestTable,
    due: RawDue,
    faults: u64,
}

impl Model for RawScript {
    ghost use Rattle.std.specs.Prelude.{◌<◌, ◌^◌};
    ghost use Rattle.aio_modes.specs.Scripts.{RawScriptState};

    ghost Value = { RawScriptState };

    ghost view = { λ s. record {
      mode = s.mode;
      on = s.on;
      ready = s.ready;
      edges = s.edges;
      due = s.due;
      faults = s.faults;
    } };

    ghost invariant = { λ s. s.faults < 2 ^ 64 };
}

impl RawScript {
    ghost use Rattle.aio_modes.specs.Scripts.{HasNow, lists_of, new_raw_script, with_failure, with_idle, with_ready};

    /// A poller in this mode with room for 4,096 keys: nothing is asked for, nothing is ready, no
    /// call is told to fail, and no fault is counted. `OutOfMemory` where memory ran out.
    pub fn new(alloc: Global, mode: Mode) -> Result<RawScript, OutOfMemory>
        ensures fresh { IfOk result (λ s. s ≡ new_raw_script mode) }
        ensures nothing { IfOk result (λ s.
            (key : ℕ) → (lists_of s).on key ≡ Interest.NONE) }
    {
        Ok(RawScript {
            mode,
            on: InterestTable::new(alloc)?,
            ready: InterestTable::new(alloc)?,
            edges: InterestTable::new(alloc)?,
            due: RawDue {
                add: false,
                set: false,
                remove: false,
                wait: false,
            },
            faults: 0,
        })
    }

    /// These directions of a source become ready: those of them that were not ready are edges.
    /// Takes no memory.
    pub fn become_ready(&mut self, key: Key, on: Interest)
        requires { key.0 < 4096 }
        ensures { HasNow self.old (with_ready key.0 on (lists_of self.old)) self.new }
    {
        let ready = self.ready.get(key);
        let edges = self.edges.get(key);
        self.ready.set(key, join(ready, on));
        self.edges.set(key, join(edges, on.except(ready)));
    }

    /// These directions of a source are ready no longer, and no edges. Takes no memory.
    pub fn become_idle(&mut self, key: Key, on: Interest)
        requires { key.0 < 4096 }
        ensures { HasNow self.old (with_idle key.0 on (lists_of self.old)) self.new }
    {
        let ready = self.ready.get(key);
        let edges = self.edges.get(key);
        self.ready.set(key, ready.except(on));
        self.edges.set(key, edges.except(on));
    }

    /// The next call of this kind fails. Told twice, still one call fails.
    pub fn fail_next(&mut self, which: RawWhich)
        ensures { self.new ≡ record self.old { due = with_failure which self.old.due } }
    {
        match which {
            RawWhich::Add => self.due.add = true,
            RawWhich::Set => self.due.set = true,
            RawWhich::Remove => self.due.remove = true,
            RawWhich::Wait => self.due.wait = true,
        }
    }

    /// What there is to be given.
    fn looked_at_now(&self) -> &InterestTable
        ensures { interests_in result.now ≡ looked_at self.now.mode (lists_of self.now) }
    {
        match self.mode {
            Mode::Level => &self.ready,
            Mode::Edge => &self.edges,
            Mode::EdgeOneshot => &self.edges,
        }
    }

    /// Leaves what these events leave, once they are given.
    fn leave(&mut self, events: &[Event])
        ensures { HasNow self.old
            (after_given self.old.mode events.now (lists_of self.old)) self.new }
    {
        match self.mode {
            Mode::Level => {}
            Mode::Edge => lessen(&mut self.edges, events),
            Mode::EdgeOneshot => {
                lessen(&mut self.edges, events);
                self.on.disarm(events);
            }
        }
    }

    /// Counts one fault, and gives the answer that tells it.
    fn fault(&mut self) -> Failed
        ensures { self.new ≡ record self.old { faults = raised self.old.faults } }
    {
        self.faults = self.faults.saturating_add(1);
        Failed
    }
}

impl Faults for RawScript {
    ghost use Rattle.std.specs.Prelude.{false};
    ghost use Rattle.std.proofs.lemmas.Bool.{false≢true};

    ghost fault_count = { λ s. s.faults };

    ghost is_sure = { λ s. false };

    ghost all_sure = { false };

    ghost sure_below_top = { λ s sure. absurd (false≢true sure) };

    ghost each_sure = { λ s sure. sure };

    fn faults(&self) -> u64 {
        self.faults
    }
}

impl RawPoller for RawScript {
    ghost use Rattle.std.specs.Prelude.{Some};
    ghost use Rattle.aio_modes.specs.Scripts.{lists_of, ScriptDid};

    ghost mode_of = { λ s. s.mode };

    ghost told = { λ s. Some (lists_of s) };

    ghost raw_step = { ScriptDid };

    fn mode(&self) -> Mode {
        self.mode
    }

    /// Registers a source, for which nothing is asked. `Failed` exactly where a failure of `add` is
    /// due, which is then due no longer.
    fn add(&mut self, key: Key) -> Result<(), Failed> {
        if mem::replace(&mut self.due.add, false) {
            return Err(self.fault());
        }
        self.on.set(key, Interest::NONE);
        Ok(())
    }

    /// Asks for these directions of a source; those that are ready are edges. `Failed` exactly
    /// where a failure of `set` is due, which is then due no longer.
    fn set(&mut self, key: Key, on: Interest) -> Result<(), Failed> {
        if mem::replace(&mut self.due.set, false) {
            return Err(self.fault());
        }
        let edges = self.edges.get(key);
        let ready = self.ready.get(key);
        self.on.set(key, on);
        self.edges.set(key, join(edges, common_of(on, ready)));
        Ok(())
    }

    /// Takes a source out. `Failed` exactly where a failure of `remove` is due, which is then due
    /// no longer.
    fn remove(&mut self, key: Key) -> Result<(), Failed> {
        if mem::replace(&mut self.due.remove, false) {
            return Err(self.fault());
        }
        self.on.set(key, Interest::NONE);
        Ok(())
    }

    /// Gives the first `room` keys of which something is owed, in rising order, without waiting.
    /// `Failed` exactly where a failure of `wait` is due, which is then due no longer; no event is
    /// given then.
    fn wait(
        &mut self,
        out: &mut Vec<Event>,
        room: u32,
        _limit: Option<u64>,
    ) -> Result<Waited, Failed> {
        if mem::replace(&mut self.due.wait, false) {
            return Err(self.fault());
        }
        let start = out.len();
        let count = give_owed(&self.on, self.looked_at_now(), out, room);
        self.leave(&out[start..]);
        Ok(Waited::Given(count))
    }
}
