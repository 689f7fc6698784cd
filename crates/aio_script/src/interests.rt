//! The interest of each key.

ghost use Rattle.std.specs.Prelude.{◌≡◌, ℕ, ◌<◌, IfOk, length, slice_set};
ghost use Rattle.aio_base.specs.Devices.{with_interest, clear_interests};
ghost use Rattle.aio_script.specs.Interests.{interests_in, none_armed, cleared};

use aio_base::{Event, Interest, Key, OutOfMemory};
use std::alloc::Global;
use std::marker::Model;

/// How many keys have an interest: one for each source that a reactor can hold.
const KEYS: usize = 4096;

/// An interest for each of the 4,096 keys that a reactor can give, as what stands in memory for a poller
/// keeps it. A key past the last of them has none. Contracts see the list of the interests in the order
/// of the keys.
#[derive(Drop)]
pub struct InterestTable {
    entries: Vec<Interest>,
}

impl Model for InterestTable {
    ghost use Rattle.std.specs.Prelude.{◌≡◌, List, vec_len};
    ghost use Rattle.aio_base.specs.declared.names.Interest.{Interest};

    ghost Value = { List Interest };

    ghost view = { λ t. t.entries.items };

    ghost invariant = { λ t. vec_len t.entries ≡ 4096 };
}

impl InterestTable {
    /// A table in which no key has an interest. `OutOfMemory` where memory ran out.
    pub fn new(alloc: Global) -> Result<InterestTable, OutOfMemory>
        ensures entries { IfOk result (λ table. table ≡ none_armed) }
        ensures unarmed { IfOk result (λ table.
            (key : ℕ) → interests_in table key ≡ Interest.NONE) }
    {
        let Ok(entries) = vec![in alloc; Interest::NONE; KEYS] else {
            return Err(OutOfMemory);
        };
        Ok(InterestTable { entries })
    }

    /// The interest of a key; a key of 4,096 or more has none.
    pub fn get(&self, key: Key) -> Interest
        ensures value { result ≡ interests_in self.now key.0 }
        ensures entries { length self.now ≡ 4096 }
    {
        let index = key.0 as usize;
        if index < self.entries.len() {
            self.entries[index]
        } else {
            Interest::NONE
        }
    }

    /// Sets the interest of a key.
    #[tactic(auto, using(crate::proofs::TableLemmas::told_set))]
    pub fn set(&mut self, key: Key, on: Interest)
        requires { key.0 < 4096 }
        ensures entries { self.new ≡ slice_set self.old key.0 on }
        ensures told { interests_in self.new ≡ with_interest key.0 on (interests_in self.old) }
    {
        self.entries[key.0 as usize] = on;
    }

    /// Clears the whole interest of the key of each of these events, as they do once they are given
    /// (`polling` 3, oneshot mode). A key of 4,096 or more has none.
    pub fn disarm(&mut self, events: &[Event])
        ensures entries { self.new ≡ cleared events.now self.old }
        ensures told { interests_in self.new ≡ clear_interests events.now (interests_in self.old) }
    {
        for event in events {
            self.disarm_key(event.key);
        }
    }

    /// Clears the interest of a key; a key of 4,096 or more has none.
    #[inline(always)]
    pub(crate) fn disarm_key(&mut self, key: Key)
        ensures { self.new ≡ slice_set self.old key.0 Interest.NONE }
    {
        let index = key.0 as usize;
        if index < self.entries.len() {
            self.entries[index] = Interest::NONE;
        }
    }
}
