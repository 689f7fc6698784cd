//! The table of sources, and what a source takes of memory before its connection is added.

ghost use Rattle.std.specs.Prelude.{◌≡◌, ◌≢◌, ◌↔◌, ◌<◌, ◌≤◌, [], None, Some, length, IfOk, IfSome, IfErr, OnErr, OnOk, IsSome, IsNone, slice_get};
ghost use Rattle.std.specs.List.{Contains};
ghost use Rattle.std.specs.List.Sorted.{IsStrictlyIncreasing};
ghost use Rattle.std.specs.Arc.{arc_value};
ghost use Rattle.aio_base.specs.declared.names.Event.{Event};
ghost use Rattle.aio_sources.specs.Sources.{Adds, FailsToAdd, IsLeastFree, entry_of, keys_of, outside, with_entry, without_entry};
ghost use Rattle.aio_sources.specs.Events.{HandlesAt, HandlesByKey, HandlesOne};

use crate::sealed::{Events, SharedLock, SourceLock, SourceRef, add_source};
use aio_base::{Arm, CountFault, Key, OutOfMemory};
use aio_lock::Owner;
use aio_source::{InHand, KeyTable};
use aio_words::Words;
use std::alloc::Global;
use std::marker::Model;
use std::sync::{Arc, Wait};

/// The locks of the sources, each at its key. Contracts see the keys, which rise, and which lock stands
/// at each. It has room for as many sources as may live.
pub struct SourceTable<A: Arm> {
    locks: KeyTable<SourceLock<A>>,
    alloc: Global,
}

impl<A: Arm> Model for SourceTable<A> {
    ghost use Rattle.std.specs.Prelude.{List};
    ghost use Rattle.aio_sources.specs.Sources.{TableEntry, entries_from};

    ghost Value = { List TableEntry };

    ghost view = { λ t. entries_from 0 t.locks };
}

impl<A: Arm + Drop> Drop for SourceTable<A> {
    fn drop(self) {
        let SourceTable { locks: _, alloc: _ } = self;
    }
}

/// The memory of a source that is to come: its lock, once for the table and once for its token. Contracts
/// see the words of its reactor.
#[derive(Drop)]
pub(crate) struct Vacancy<A: Arm> {
    kept: SourceLock<A>,
    lent: SourceLock<A>,
    owner: Owner,
    words: Arc<Words, Global>,
}

impl<A: Arm> Model for Vacancy<A> {
    ghost use Rattle.std.specs.Prelude.{◌≡◌, []};
    ghost use Rattle.std.specs.Arc.{arc_value};
    ghost use Rattle.atomic_table.specs.Seated.{TableId};
    ghost use Rattle.aio_rules.specs.SharedLock.{first_owner, took_out};
    ghost use Rattle.aio_lock.specs.Tokens.{owner_of};

    ghost Value = { TableId };

    ghost view = { λ v. (arc_value v.words).identity };

    ghost invariant = { λ v. (v.lent ≡ v.kept)
        × (v.owner ≡ owner_of v.kept (took_out [] [] (first_owner []))) };
}

/// That a table was asked for a free key and had none, since 4,096 sources lived. The table alone makes
/// one.
#[derive(Clone, Copy, Debug, PartialEq, Eq)]
pub struct TableIsFull(());

/// The key of a source that went out of the table. `SourceTable::take_out` alone makes one, so that what
/// follows on it cannot be done without it. Contracts see the key.
#[derive(Drop)]
pub(crate) struct TakenOut {
    key: Key,
}

impl Model for TakenOut {
    ghost use Rattle.std.specs.Prelude.{ℕ, ◌<◌};

    ghost Value = { ℕ };

    ghost view = { λ t. t.key.0 };

    ghost invariant = { λ t. t.key.0 < 4096 };
}

impl TakenOut {
    /// The key.
    pub(crate) fn key(&self) -> Key
        ensures value { result.0 ≡ self.now }
        ensures bound { result.0 < 4096 }
    {
        self.key
    }
}

impl<A: Arm + Drop> Vacancy<A> {
    /// Takes all the memory of a source. `OutOfMemory` where it is not there, or where too many tokens
    /// share the words.
    pub(crate) fn new(alloc: Global, words: &Arc<Words, Global>) -> Result<Vacancy<A>, OutOfMemory>
        ensures { IfOk result (λ vacancy. vacancy ≡ (arc_value words.now).identity) }
    {
        let Ok(words) = Arc::try_clone(words) else {
            return Err(OutOfMemory);
        };
        let (kept, lent, owner) = SharedLock::twice(alloc)?;
        Ok(Vacancy {
            kept,
            lent,
            owner,
            words,
        })
    }
}

impl<A: Arm + Drop> SourceTable<A> {
    /// A table with no source. `OutOfMemory` where there is no room for 4,096 of them.
    pub fn new(alloc: Global) -> Result<SourceTable<A>, OutOfMemory>
        ensures { IfOk result (λ table. table ≡ []) }
    {
        Ok(SourceTable {
            locks: KeyTable::new(alloc)?,
            alloc,
        })
    }

    /// What has the memory for one more source.
    pub(crate) fn vacancy(&self, words: &Arc<Words, Global>) -> Result<Vacancy<A>, OutOfMemory>
        ensures { IfOk result (λ vacancy. vacancy ≡ (arc_value words.now).identity) }
    {
        Vacancy::new(self.alloc, words)
    }

    /// The least key that no source has. `TableIsFull` exactly where 4,096 sources live.
    pub(crate) fn free_key(&self) -> Result<Key, TableIsFull>
        ensures full { OnErr result (length self.now ≡ 4096) }
        ensures room { OnOk result (length self.now ≢ 4096) }
        ensures least { IfOk result (λ key. IsLeastFree (keys_of self.now) key.0) }
        ensures bound { IfOk result (λ key. key.0 < 4096) }
        ensures within { IfOk result (λ key. key.0 ≤ length self.now) }
    {
        match self.locks.free_key() {
            Some(key) => Ok(key),
            None => Err(TableIsFull(())),
        }
    }

    /// Puts a lock at the place of the least free key.
    fn put(&mut self, key: Key, lock: SourceLock<A>)
        requires free { IsLeastFree (keys_of self.old) key.0 }
        requires bound { key.0 < 4096 }
        ensures { self.new ≡ with_entry self.old (record { key = key.0; lock = lock }) }
    {
        self.locks.put(key, lock);
    }

    /// Lets the lock of a key go, where there is one: no source of the table has the key then. The
    /// answer says so of this key.
    pub(crate) fn take_out(&mut self, key: Key) -> TakenOut
        requires { key.0 < 4096 }
        ensures entries { self.new ≡ without_entry self.old key.0 }
        ensures gone { ¬ Contains (keys_of self.new) key.0 }
        ensures out { result ≡ key.0 }
    {
        self.locks.clear(key);
        TakenOut { key }
    }

    /// Adds a connection under the least free key, and gives it to its lock. Takes no memory. Where the
    /// `add` fails the connection comes back, and the table is as before.
    pub(crate) fn admit(
        &mut self,
        vacancy: Vacancy<A>,
        key: Key,
        io: A,
    ) -> Result<SourceRef<A>, (A, CountFault)>
        requires free { IsLeastFree (keys_of self.old) key.0 }
        requires bound { key.0 < 4096 }
        ensures entries { IfOk result (λ s. self.new ≡ with_entry self.old (entry_of s)) }
        ensures key { IfOk result (λ s. s.key ≡ key.0) }
        ensures token { IfOk result (λ s. s ≡ outside vacancy (entry_of s) (A.rest io)) }
        ensures added { OnOk result (Adds A.arm_step key.0 io) }
        ensures refused { OnErr result (self.new ≡ self.old) }
        ensures back { IfErr result (λ back.
            FailsToAdd A.arm_step A.rest A.fault_count A.is_sure key.0 io back.0 back.1) }
    {
        let source = match add_source(self.alloc, key, io) {
            Ok(source) => source,
            Err(back) => {
                drop(vacancy);
                return Err(back);
            }
        };
        let Vacancy {
            kept,
            lent,
            mut owner,
            words,
        } = vacancy;
        source.give(&lent, &mut owner);
        self.put(key, kept);
        Ok(SourceRef::new(key, words, lent, owner))
    }
}

impl<A: Arm> SourceTable<A> {
    /// The law of a table: its keys rise.
    pub(crate) fn keys_rise(&self)
        ensures { IsStrictlyIncreasing (keys_of self.now) }
    {
        let _locks = &self.locks;
    }

    /// The lock of the source of a key, where there is one.
    fn lock_of(&self, key: Key) -> Option<&SourceLock<A>>
        ensures some { IfSome result (λ lock.
            Contains self.now (record { key = key.0; lock = lock.now })) }
        ensures none { IsNone result → ¬ Contains (keys_of self.now) key.0 }
    {
        self.locks.get(key)
    }

    /// Handles the first event in hand of a round: by the source of its key, with the source's own
    /// connection as the arm; an event whose key no source has is skipped. `OutOfMemory` where there is no
    /// memory for the wakers; the event is still in hand then, and nothing has changed.
    ///
    /// The caller has the table, so no source goes out of it meanwhile.
    pub(crate) fn handle<R: Wait, H: InHand>(
        &self,
        rt: &R,
        events: &mut Events<'_, H>,
    ) -> Result<(), OutOfMemory>
        requires { (H.round events.old.round.now).hand ≢ [] }
        ensures handled { OnOk result ((event : Event) × HandlesOne A.all_sure (keys_of self.now)
            event (H.round events.old.round.now) (H.round events.new.round.now)) }
        ensures lent { (event : Event)
            → slice_get (H.round events.old.round.now).hand 0 ≡ Some event
            → Contains (keys_of self.now) event.key.0 → OnOk result
            (HandlesByKey A.arm_step A.interests A.rest A.fault_count A.is_sure event.key
            (H.round events.old.round.now) (H.round events.new.round.now)) }
        ensures refused { OnErr result
            (H.round events.new.round.now ≡ H.round events.old.round.now) }
        ensures same { events.new.round.ghost_name ≡ events.old.round.ghost_name }
    {
        let Some(event) = events.first() else {
            unreachable!()
        };
        match self.lock_of(event.key) {
            Some(lock) => events.handle_at(rt, self, event.key, lock),
            None => {
                events.skip(self, event.key);
                Ok(())
            }
        }
    }

    /// Handles each event in hand, as `handle` does.
    pub(crate) fn handle_all<R: Wait, H: InHand>(
        &self,
        rt: &R,
        events: &mut Events<'_, H>,
    ) -> Result<(), OutOfMemory>
        ensures handled { HandlesAt (keys_of self.now) A.all_sure
            (H.round events.old.round.now) (H.round events.new.round.now) }
        ensures none_left { OnOk result ((H.round events.new.round.now).hand ≡ []) }
        ensures same { events.new.round.ghost_name ≡ events.old.round.ghost_name }
    {
        while events.in_hand() > 0 {
            match self.handle(rt, events) {
                Err(refused) => return Err(refused),
                Ok(()) => {}
            }
        }
        Ok(())
    }
}
