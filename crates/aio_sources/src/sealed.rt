//! The locks of sources, and what is done to a source that a round or a call took out of one.
//!
//! Whoever has the table has these locks, and reaches a source in them by the steps of `steps` alone: a
//! source that joins is added, one that an event is for handles it, one that is entered is visited, and one
//! that was closed is removed. Each step says what the source and its connection are afterwards, so that
//! nothing else was done to them.

ghost use Rattle.std.specs.Prelude.{◌≡◌, ◌≢◌, ◌<◌, [], ◌∷◌, true, false, None, Some, length, IfOk, OnOk, OnErr, option_map, slice_get};
ghost use Rattle.std.specs.List.{Contains};
ghost use Rattle.std.specs.Arc.{arc_value};
ghost use Rattle.aio_base.specs.Devices.{raised};
ghost use Rattle.aio_base.specs.declared.names.Event.{Event};
ghost use Rattle.aio_rules.specs.SharedLock.{AgreesWithNotes, first_owner, is_inside, put_back, taken_first, taken_second, took_out};
ghost use Rattle.aio_source.specs.InHand.{skipped};
ghost use Rattle.aio_lock.specs.Tokens.{owner_of};
ghost use Rattle.aio_sources.specs.Sources.{keys_of, outside, rest_of};
ghost use Rattle.aio_sources.specs.Events.{HandlesAt, HandlesBy, HandlesByKey, KeepsFault};

mod steps;

use crate::closing::Closed;
use crate::source_table::{SourceTable, TakenOut};
use aio_base::{Arm, Event, Key, OutOfMemory};
use aio_lock::{Lock, Owner};
use aio_rules::Noted;
use aio_source::{InHand, SourceCell};
use aio_words::Words;
use std::alloc::Global;
use std::marker::Model;
use std::sync::{Arc, Wait};
use steps::handle_in;
pub(crate) use steps::{Left, Sealed, add_source, remove_from, visit_in};

/// The lock of a value, which several hold. A caller with no token reaches the value by `Sealed::visit`
/// alone. Contracts see which lock it is.
#[derive(Drop)]
pub(crate) struct SharedLock<T: Noted> {
    lock: Arc<Lock<T>, Global>,
}

impl<T: Noted> Model for SharedLock<T> {
    ghost use Rattle.std.specs.Arc.{arc_value};
    ghost use Rattle.atomic_table.specs.Seated.{TableId};

    ghost Value = { TableId };

    ghost view = { λ l. arc_value l.lock };
}

/// The lock of a source, which the table and the token of the source share.
pub(crate) type SourceLock<A> = SharedLock<SourceCell<A>>;

impl<T: Noted + Drop> SharedLock<T> {
    /// A lock with no value yet, twice, and its owner, which is inside. Takes all the memory that the lock
    /// ever takes; `OutOfMemory` where it is not there.
    pub(crate) fn twice(alloc: Global) -> Result<(SharedLock<T>, SharedLock<T>, Owner), OutOfMemory>
        ensures same { IfOk result (λ made. made.1 ≡ made.0) }
        ensures owner { IfOk result (λ made.
            made.2 ≡ owner_of made.0 (took_out [] [] (first_owner []))) }
    {
        let (lock, owner) = vacant_lock(alloc)?;
        let Ok(twin) = Arc::try_clone(&lock) else {
            return Err(OutOfMemory);
        };
        Ok((SharedLock { lock }, SharedLock { lock: twin }, owner))
    }
}

/// A lock with no value yet, where several can hold it, and its owner, which is inside. `OutOfMemory`
/// where the memory is not there.
fn vacant_lock<T: Noted + Drop>(alloc: Global) -> Result<(Arc<Lock<T>, Global>, Owner), OutOfMemory>
    ensures { IfOk result (λ made.
        made.1 ≡ owner_of (arc_value made.0) (took_out [] [] (first_owner []))) }
{
    let (lock, owner, _) = Lock::vacant(alloc)?;
    match Arc::new(alloc, lock) {
        Ok(lock) => Ok((lock, owner)),
        Err(_) => Err(OutOfMemory),
    }
}

impl<T: Noted> SharedLock<T> {
    /// Takes the value out, as soon as it is there, by its owner.
    pub(crate) fn take<R: Wait>(&self, rt: &R, o: &mut Owner) -> T
        requires belongs { o.old.lock ≡ self.now }
        requires outside { o.old.knows.taken ≡ None }
        ensures notes { AgreesWithNotes o.old.knows (T.first_note result) (T.second_note result) }
        ensures inside { o.new
            ≡ owner_of self.now (took_out (T.first_note result) (T.second_note result) o.old.knows) }
    {
        self.lock.take(rt, o)
    }

    /// Puts a value back, by its owner.
    pub(crate) fn give(&self, o: &mut Owner, value: T)
        requires belongs { o.old.lock ≡ self.now }
        requires inside { is_inside o.old.knows ≡ true }
        requires first { o.old.knows.owns_first ≡ false
            → T.first_note value ≡ taken_first o.old.knows }
        requires second { o.old.knows.owns_second ≡ false
            → T.second_note value ≡ taken_second o.old.knows }
        ensures { o.new ≡ owner_of self.now
            (put_back (T.first_note value) (T.second_note value) o.old.knows) }
    {
        self.lock.give(o, value);
    }
}

/// Names a source, and is its token: it alone enters the source, and knows the rest of its connection.
/// `take_closed` uses it up. Where it is let go instead, the source stays in the table, and where it is let
/// go inside, the source stays taken.
pub struct SourceRef<A: Arm> {
    key: Key,
    words: Arc<Words, Global>,
    lock: SourceLock<A>,
    owner: Owner,
    /// How many visits it made of the source, as `raised` counts.
    visits: u64,
    /// How often it handed the source out, counted likewise.
    taken: u64,
}

impl<A: Arm> Model for SourceRef<A> {
    ghost use Rattle.std.specs.Prelude.{◌≡◌, ◌<◌};
    ghost use Rattle.std.specs.Arc.{arc_value};
    ghost use Rattle.aio_rules.specs.SharedLock.{is_inside};
    ghost use Rattle.aio_sources.specs.Sources.{IsSourceOwner, SourceRefValue, rest_of};

    ghost Value = { SourceRefValue };

    ghost view = { λ s. record {
      words = (arc_value s.words).identity;
      key = s.key.0;
      lock = s.lock;
      inside = is_inside s.owner.knows;
      rest = rest_of s.owner.knows;
      visits = s.visits;
      taken = s.taken;
    } };

    ghost invariant = { λ s. (s.owner.lock ≡ s.lock)
        × IsSourceOwner s.key.0 s.owner.knows × (s.key.0 < 4096) };
}

impl<A: Arm + Drop> Drop for SourceRef<A> {
    fn drop(self) {
        let SourceRef {
            key: _,
            words: _,
            lock: _,
            owner: _,
            visits: _,
            taken: _,
        } = self;
    }
}

impl<A: Arm> SourceRef<A> {
    /// The token of a source that its owner has just given to its lock.
    pub(crate) fn new(
        key: Key,
        words: Arc<Words, Global>,
        lock: SourceLock<A>,
        owner: Owner,
    ) -> SourceRef<A>
        requires owner { owner ≡ owner_of lock (first_owner (key.0 ∷ rest_of owner.knows)) }
        requires bound { key.0 < 4096 }
        ensures { result ≡ outside (arc_value words).identity
            (record { key = key.0; lock = lock }) (rest_of owner.knows) }
    {
        SourceRef {
            key,
            words,
            lock,
            owner,
            visits: 0,
            taken: 0,
        }
    }

    /// The key of the source.
    pub fn key(&self) -> Key
        ensures { result.0 ≡ self.now.key }
    {
        self.key
    }
}

// `take` and `give` name the lock itself: behind one call more a source is copied once more, each way.
impl<A: Arm> SourceRef<A> {
    /// Takes the source out of its lock, as soon as no round visits it, and hands it out. Its connection
    /// has the rest that the token knows, whatever rounds did in between. Takes no memory.
    pub fn take<R: Wait>(&mut self, rt: &R) -> SourceCell<A>
        requires outside { self.old.inside ≡ false }
        ensures key { result.state.key.0 ≡ self.old.key }
        ensures rest { A.rest result.io ≡ self.old.rest }
        ensures inside { self.new
            ≡ record self.old { inside = true; taken = raised self.old.taken } }
    {
        self.taken = self.taken.saturating_add(1);
        self.lock.lock.take(rt, &mut self.owner)
    }

    /// Puts the source back into its lock. The token then knows the rest of this connection. Takes no
    /// memory and does not wait.
    pub fn give(&mut self, cell: SourceCell<A>)
        requires inside { self.old.inside ≡ true }
        requires key { cell.state.key.0 ≡ self.old.key }
        ensures { self.new ≡ record self.old { inside = false; rest = A.rest cell.io } }
    {
        self.lock.lock.give(&mut self.owner, cell);
    }

    /// Takes the source out of its lock for one visit, as soon as no round visits it.
    pub(crate) fn enter<R: Wait>(&mut self, rt: &R) -> Sealed<SourceCell<A>>
        requires outside { self.old.inside ≡ false }
        ensures key { result.value.state.key.0 ≡ self.old.key }
        ensures rest { A.rest result.value.io ≡ self.old.rest }
        ensures inside { self.new
            ≡ record self.old { inside = true; visits = raised self.old.visits } }
    {
        self.visits = self.visits.saturating_add(1);
        Sealed::take(rt, &self.lock, &mut self.owner)
    }

    /// Puts the source back as a visit left it.
    pub(crate) fn leave(&mut self, left: Left<SourceCell<A>>)
        requires inside { self.old.inside ≡ true }
        requires key { left.value.state.key.0 ≡ self.old.key }
        ensures { self.new ≡ record self.old { inside = false; rest = A.rest left.value.io } }
    {
        left.give(&self.lock, &mut self.owner);
    }
}

impl<A: Arm + Drop> SourceRef<A> {
    /// Takes the source out of its lock for good, as soon as no round visits it. The caller has the table,
    /// which the source has left, so that no round comes to it any more. Takes no memory.
    pub(crate) fn take_closed<R: Wait>(
        self,
        rt: &R,
        table: &SourceTable<A>,
        out: &TakenOut,
    ) -> Closed<A>
        requires out { ¬ Contains (keys_of table.now) out.now }
        requires key { out.now ≡ self.key }
        requires outside { self.inside ≡ false }
        ensures { result ≡ record { key = self.key; rest = self.rest } }
    {
        let SourceRef {
            key: _,
            words: _,
            lock,
            mut owner,
            visits: _,
            taken: _,
        } = self;
        let cell = Sealed::take(rt, &lock, &mut owner);
        Closed {
            key: out.key(),
            cell,
        }
    }
}

/// The events of a round that are in hand, for the sources of one table. Whoever has them handles the
/// first one on the source whose lock stands at its key in that table, or skips it where none does, and
/// does nothing else to the round.
#[derive(Drop)]
pub(crate) struct Events<'a, H> {
    round: &'a mut H,
}

impl<H: InHand> Events<'_, H> {
    /// The first event in hand.
    pub(crate) fn first(&self) -> Option<Event>
        ensures value { result ≡ slice_get (H.round self.now.round.now).hand 0 }
        ensures none { result ≡ None → (H.round self.now.round.now).hand ≡ [] }
    {
        self.round.peek()
    }

    /// How many events are in hand.
    pub(crate) fn in_hand(&self) -> usize
        ensures value { result ≡ length (H.round self.now.round.now).hand }
        ensures none { result ≡ 0 → (H.round self.now.round.now).hand ≡ [] }
    {
        self.round.in_hand()
    }

    /// Drops the first event in hand, which is of this key, that no source of the table has.
    pub(crate) fn skip<A: Arm>(&mut self, table: &SourceTable<A>, key: Key)
        requires first { option_map (λ (event : Event). event.key)
            (slice_get (H.round self.old.round.now).hand 0) ≡ Some key }
        requires hand { (H.round self.old.round.now).hand ≢ [] }
        requires none { ¬ Contains (keys_of table.now) key.0 }
        ensures skips { H.round self.new.round.now ≡ skipped (H.round self.old.round.now) }
        ensures same { self.new.round.ghost_name ≡ self.old.round.ghost_name }
    {
        self.round.skip();
    }

    /// Handles the first event in hand, which is of this key, on the source in the lock that stands there
    /// in the table, as soon as it is in it. `OutOfMemory` where there is no memory for the wakers.
    pub(crate) fn handle_at<R: Wait, A: Arm>(
        &mut self,
        rt: &R,
        table: &SourceTable<A>,
        key: Key,
        lock: &SourceLock<A>,
    ) -> Result<(), OutOfMemory>
        requires first { option_map (λ (event : Event). event.key)
            (slice_get (H.round self.old.round.now).hand 0) ≡ Some key }
        requires stands { Contains table.now (record { key = key.0; lock = lock.now }) }
        ensures handled { OnOk result
            (HandlesByKey A.arm_step A.interests A.rest A.fault_count A.is_sure key
            (H.round self.old.round.now) (H.round self.new.round.now)) }
        ensures fault { OnOk result (KeepsFault A.all_sure
            (H.round self.old.round.now).fault (H.round self.new.round.now).fault) }
        ensures refused { OnErr result
            (H.round self.new.round.now ≡ H.round self.old.round.now) }
        ensures same { self.new.round.ghost_name ≡ self.old.round.ghost_name }
    {
        let (mut cell, visit) = Sealed::visit(rt, lock);
        let handled = handle_in(&mut cell, key, self.round);
        cell.leave(lock, visit);
        handled
    }
}

impl<A: Arm> SourceTable<A> {
    /// Handles each event in hand of a round, in order: by this table's source of its key, with the
    /// source's own connection as the arm, or it is skipped where this table has none. `OutOfMemory`
    /// leaves in hand what was not handled.
    pub fn handle_each<R: Wait, H: InHand>(&self, rt: &R, round: &mut H) -> Result<(), OutOfMemory>
        ensures handled { HandlesAt (keys_of self.now) A.all_sure
            (H.round round.old) (H.round round.new) }
        ensures none_left { OnOk result ((H.round round.new).hand ≡ []) }
    {
        let mut events = Events { round };
        self.handle_all(rt, &mut events)
    }
}
