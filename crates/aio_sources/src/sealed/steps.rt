//! What is done to a source that is out of its lock.
//!
//! The steps of this file alone read or change such a source, and each says what the source and its
//! connection are afterwards. What takes a value out of its lock, and what puts it in, is for values of every
//! type, and so does nothing else.

ghost use Rattle.std.specs.Prelude.{◌≡◌, ◌<◌, [], true, false, None, Some, IfOk, IfErr, IfSome, OnOk, OnErr, option_map, slice_get};
ghost use Rattle.aio_base.specs.Devices.{RemoveOf};
ghost use Rattle.aio_base.specs.declared.names.Event.{Event};
ghost use Rattle.aio_rules.specs.SharedLock.{AgreesWithNotes, is_inside, put_back, taken_first, taken_second, took_out};
ghost use Rattle.aio_source.specs.Rules.{new_source};
ghost use Rattle.aio_source.specs.Visits.{IsUnsureArm, arm_fault_of};
ghost use Rattle.aio_lock.specs.Tokens.{owner_of};
ghost use Rattle.aio_words.specs.Calls.{uncounted};
ghost use Rattle.aio_sources.specs.Sources.{AddedAs, FailsToAdd, IsUnsure};
ghost use Rattle.aio_sources.specs.Events.{HandlesBy, KeepsFault};

use super::SharedLock;
use aio_base::{Arm, CountFault, Event, Key, OutOfMemory};
use aio_lock::{Owner, Visit};
use aio_rules::Noted;
use aio_source::{InHand, SourceCell, SourceState, Visit as SourceVisit, Visited};
use std::alloc::Global;
use std::sync::Wait;

/// A value that is out of its lock, or on its way into it, and that nobody reads or changes but the steps
/// of this file. What takes it out, and what puts it in, is for values of every type, and so does
/// nothing else. It cannot be let go: who has one puts it into a lock, or takes its source out for good.
pub(crate) struct Sealed<T> {
    value: T,
}

impl<T: Noted> Sealed<T> {
    /// Puts the value into its lock, as it is, by its owner.
    pub(crate) fn give(self, lock: &SharedLock<T>, o: &mut Owner)
        requires belongs { o.old.lock ≡ lock.now }
        requires inside { is_inside o.old.knows ≡ true }
        requires first { o.old.knows.owns_first ≡ false
            → T.first_note self.value ≡ taken_first o.old.knows }
        requires second { o.old.knows.owns_second ≡ false
            → T.second_note self.value ≡ taken_second o.old.knows }
        ensures { o.new ≡ owner_of lock.now
            (put_back (T.first_note self.value) (T.second_note self.value) o.old.knows) }
    {
        let Sealed { value } = self;
        lock.give(o, value);
    }

    /// Takes the value out of its lock, as soon as it is there, by its owner.
    #[inline(always)]
    pub(crate) fn take<R: Wait>(rt: &R, lock: &SharedLock<T>, o: &mut Owner) -> Sealed<T>
        requires belongs { o.old.lock ≡ lock.now }
        requires outside { o.old.knows.taken ≡ None }
        ensures notes { AgreesWithNotes o.old.knows
            (T.first_note result.value) (T.second_note result.value) }
        ensures inside { o.new ≡ owner_of lock.now
            (took_out (T.first_note result.value) (T.second_note result.value) o.old.knows) }
    {
        let value = lock.take(rt, o);
        Sealed { value }
    }

    /// Takes the value out of its lock, as soon as it is there, for a caller that has no token.
    pub(crate) fn visit<R: Wait>(rt: &R, lock: &SharedLock<T>) -> (Sealed<T>, Visit)
        ensures lock { result.1.lock ≡ lock.now }
        ensures first { result.1.first ≡ T.first_note result.0.value }
        ensures second { result.1.second ≡ T.second_note result.0.value }
    {
        let (value, visit) = lock.lock.visit(rt);
        (Sealed { value }, visit)
    }

    /// Puts the value of a visit back, as it is, with the notes that it had.
    pub(crate) fn leave(self, lock: &SharedLock<T>, visit: Visit)
        requires belongs { visit.lock ≡ lock.now }
        requires first { T.first_note self.value ≡ visit.first }
        requires second { T.second_note self.value ≡ visit.second }
    {
        let Sealed { value } = self;
        lock.lock.leave(visit, value);
    }
}

/// A value as one visit left it. `visit_in` alone makes one, and nobody reads or changes it: who has one
/// puts it back, since it cannot be let go.
pub(crate) struct Left<T> {
    value: T,
}

impl<T: Noted> Left<T> {
    /// Puts the value back into its lock, as it is, by its owner.
    #[inline(always)]
    pub(crate) fn give(self, lock: &SharedLock<T>, o: &mut Owner)
        requires belongs { o.old.lock ≡ lock.now }
        requires inside { is_inside o.old.knows ≡ true }
        requires first { o.old.knows.owns_first ≡ false
            → T.first_note self.value ≡ taken_first o.old.knows }
        requires second { o.old.knows.owns_second ≡ false
            → T.second_note self.value ≡ taken_second o.old.knows }
        ensures { o.new ≡ owner_of lock.now
            (put_back (T.first_note self.value) (T.second_note self.value) o.old.knows) }
    {
        let Left { value } = self;
        lock.give(o, value);
    }
}

/// Makes one visit of a source that is out of its lock, after `ticker` rounds have begun, and does nothing
/// else to it.
#[inline(always)]
pub(crate) fn visit_in<A: Arm, V: SourceVisit<A>>(
    cell: Sealed<SourceCell<A>>,
    visit: &mut V,
    ticker: u64,
) -> (Left<SourceCell<A>>, Visited<V::Output>)
    ensures visits { V.visits visit.old cell.value ticker result.1 visit.new result.0.value }
    ensures arm { IfSome (arm_fault_of result.1.answer)
        (IsUnsureArm A.all_sure cell.value.state.key.0) }
    ensures key { result.0.value.state.key ≡ cell.value.state.key }
{
    let Sealed { mut value } = cell;
    let visited = visit.visit(&mut value, ticker);
    (Left { value }, visited)
}

/// Adds a connection under a key, for a source with no waiter: the `add` is the one call on it. Where it
/// fails the connection comes back. Takes no memory.
pub(crate) fn add_source<A: Arm>(
    alloc: Global,
    key: Key,
    mut io: A,
) -> Result<Sealed<SourceCell<A>>, (A, CountFault)>
    requires { key.0 < 4096 }
    ensures added { IfOk result (λ source. AddedAs A.arm_step key io source.value.io) }
    ensures state { IfOk result (λ source. source.value.state ≡ new_source key) }
    ensures rest { IfOk result (λ source. A.rest source.value.io ≡ A.rest io) }
    ensures back { IfErr result (λ back.
        FailsToAdd A.arm_step A.rest A.fault_count A.is_sure key.0 io back.0 back.1) }
{
    let before = io.faults();
    match io.add(key) {
        Ok(()) => {}
        Err(_) => {
            let after = io.faults();
            return Err((io, CountFault { before, after }));
        }
    }
    let state = SourceState::new(alloc, key);
    Ok(Sealed {
        value: SourceCell { state, io },
    })
}

/// Handles the first event in hand, which is of this key, on a source, with its connection as the arm, and
/// does nothing else to either. `OutOfMemory` where there is no memory for the wakers; source and
/// connection are then as they were. A source of another key, which no call puts at this place, answers so
/// too: no event is lost then.
pub(super) fn handle_in<A: Arm, H: InHand>(
    cell: &mut Sealed<SourceCell<A>>,
    key: Key,
    round: &mut H,
) -> Result<(), OutOfMemory>
    requires { option_map (λ (event : Event). event.key) (slice_get (H.round round.old).hand 0)
        ≡ Some key }
    ensures key { cell.new.value.state.key ≡ cell.old.value.state.key }
    ensures rest { A.rest cell.new.value.io ≡ A.rest cell.old.value.io }
    ensures own { OnOk result (cell.old.value.state.key ≡ key) }
    ensures handled { OnOk result (HandlesBy A.arm_step A.interests A.rest A.fault_count A.is_sure
        cell.old.value cell.new.value (H.round round.old) (H.round round.new)) }
    ensures fault { OnOk result
        (KeepsFault A.all_sure (H.round round.old).fault (H.round round.new).fault) }
    ensures refused { OnErr result (H.round round.new ≡ H.round round.old) }
    ensures untouched { OnErr result (cell.new.value ≡ cell.old.value) }
{
    if cell.value.state.key() != key {
        return Err(OutOfMemory);
    }
    match round.handle(&mut cell.value.state, &mut cell.value.io) {
        Ok(_) => Ok(()),
        Err(refused) => Err(refused),
    }
}

/// What the one `remove` of a connection answered, beside the connection, which nobody calls any more.
#[derive(Drop)]
pub(crate) struct Removed<A> {
    answer: Result<(), CountFault>,
    io: A,
}

/// Makes one `remove` of this key on the connection of a source that is out of its lock for good. The
/// waiters of the source are given up.
pub(crate) fn remove_from<A: Arm>(cell: Sealed<SourceCell<A>>, key: Key) -> Removed<A>
    requires { key.0 < 4096 }
    ensures step { A.arm_step cell.value.io (RemoveOf key) (uncounted result.answer) result.io }
    ensures counts { IfErr result.answer (λ fault. fault ≡ record {
      before = A.fault_count cell.value.io;
      after = A.fault_count result.io;
    }) }
    ensures cause { IfErr result.answer (λ fault. IsUnsure A.all_sure fault) }
{
    let Sealed { value } = cell;
    let SourceCell { state: _, mut io } = value;
    let before = io.faults();
    let answer = match io.remove(key) {
        Ok(()) => Ok(()),
        Err(_) => Err(CountFault {
            before,
            after: io.faults(),
        }),
    };
    Removed { answer, io }
}

impl<A: Drop> Removed<A> {
    /// The answer. The connection is let go: as a value of any type, it is called by nobody here.
    pub(crate) fn into_answer(self) -> Result<(), CountFault>
        ensures { result ≡ self.answer }
    {
        let Removed { answer, io: _ } = self;
        answer
    }
}
