//! The lock and its tokens.

ghost use Rattle.std.specs.Prelude.{◌≡◌, [], ◌∷◌, false, true, None, IfOk};
ghost use Rattle.aio_rules.specs.SharedLock.{AgreesWithNotes, first_owner, is_inside, joined_owner, put_back, second_owner, taken_first, taken_second, took_out};
ghost use Rattle.aio_lock.specs.Tokens.{owner_of};

use crate::gate::{Gate, Token};
use aio_base::OutOfMemory;
use aio_rules::Noted;
use std::alloc::Global;
use std::marker::Model;
use std::sync::Wait;

/// The token of number 0, of number 1, or of both. It knows the notes of its numbers. Inside, from a
/// `take` to a `give`, it also knows the two notes of the value that it took out.
#[derive(Drop)]
pub struct Owner {
    token: Token,
}

impl Model for Owner {
    ghost use Rattle.aio_lock.specs.Tokens.{OwnerValue};

    ghost Value = { OwnerValue };

    ghost view = { λ o. o.token };
}

/// One visit of a caller that has no token. It knows the two notes of the value that was taken out.
#[derive(Drop)]
pub struct Visit {
    token: Token,
}

impl Model for Visit {
    ghost use Rattle.aio_lock.specs.Tokens.{IsVisiting, VisitValue, visit_of};

    ghost Value = { VisitValue };

    ghost view = { λ v. visit_of v.token.lock v.token.knows };

    ghost invariant = { λ v. IsVisiting v.token.knows };
}

/// A lock that holds one value or none. Contracts see which lock it is.
///
/// A token that is let go while it is inside leaves the lock taken for good.
pub struct Lock<T: Noted> {
    gate: Gate<T>,
}

impl<T: Noted> Model for Lock<T> {
    ghost use Rattle.atomic_table.specs.Seated.{TableId};

    ghost Value = { TableId };

    ghost view = { λ l. l.gate };
}

impl<T: Noted + Drop> Drop for Lock<T> {
    fn drop(self) {
        let Lock { gate: _ } = self;
    }
}

impl<T: Noted> Lock<T> {
    /// A lock with no value yet, and the owners of number 0, which is inside, and of number 1, which is
    /// outside. Takes all the memory that the lock ever takes; `OutOfMemory` where it is not there.
    pub fn vacant(alloc: Global) -> Result<(Lock<T>, Owner, Owner), OutOfMemory>
        ensures first { IfOk result (λ made.
            made.1 ≡ owner_of made.0 (took_out [] [] (first_owner []))) }
        ensures second { IfOk result (λ made. made.2 ≡ owner_of made.0 (second_owner [])) }
    {
        let (gate, first, second) = Gate::shut(alloc)?;
        Ok((
            Lock { gate },
            Owner { token: first },
            Owner { token: second },
        ))
    }

    /// Waits until the value is there, and takes it out. Its note of each number that the owner has is
    /// the one that the owner knows. Takes no memory.
    pub fn take<R: Wait>(&self, rt: &R, o: &mut Owner) -> T
        requires belongs { o.old.lock ≡ self.now }
        requires outside { o.old.knows.taken ≡ None }
        ensures notes { AgreesWithNotes o.old.knows (T.first_note result) (T.second_note result) }
        ensures inside { o.new
            ≡ owner_of self.now (took_out (T.first_note result) (T.second_note result) o.old.knows) }
    {
        self.gate.enter(rt, &mut o.token)
    }

    /// Puts a value back, and takes no memory. The owner then knows the value's note of each number that
    /// it has; the note of any other number has to be as it was taken out, and empty where no value was
    /// there yet.
    pub fn give(&self, o: &mut Owner, value: T)
        requires belongs { o.old.lock ≡ self.now }
        requires inside { is_inside o.old.knows ≡ true }
        requires first { o.old.knows.owns_first ≡ false
            → T.first_note value ≡ taken_first o.old.knows }
        requires second { o.old.knows.owns_second ≡ false
            → T.second_note value ≡ taken_second o.old.knows }
        ensures { o.new
            ≡ owner_of self.now (put_back (T.first_note value) (T.second_note value) o.old.knows) }
    {
        self.gate.leave(&mut o.token, value);
    }

    /// Waits until the value is there, and takes it out for a caller that owns no number. Takes no
    /// memory.
    pub fn visit<R: Wait>(&self, rt: &R) -> (T, Visit)
        ensures lock { result.1.lock ≡ self.now }
        ensures first { result.1.first ≡ T.first_note result.0 }
        ensures second { result.1.second ≡ T.second_note result.0 }
    {
        let (at_once, mut token) = self.gate.arrive();
        let value = match at_once {
            Some(value) => value,
            None => self.gate.enter(rt, &mut token),
        };
        (value, Visit { token })
    }

    /// Puts the value of a visit back, with the notes that it had, and takes no memory.
    pub fn leave(&self, v: Visit, value: T)
        requires belongs { v.lock ≡ self.now }
        requires first { T.first_note value ≡ v.first }
        requires second { T.second_note value ≡ v.second }
    {
        let Visit { mut token } = v;
        self.gate.leave(&mut token, value);
    }

    /// The owner takes in the other's numbers, with their notes. Takes no memory.
    pub fn join(&self, into: &mut Owner, other: Owner)
        requires belongs { (into.old.lock ≡ self.now) × (other.lock ≡ self.now) }
        requires outside { (into.old.knows.taken ≡ None) × (other.knows.taken ≡ None) }
        ensures { into.new ≡ owner_of self.now (joined_owner into.old.knows other.knows) }
    {
        self.gate.merge(&mut into.token, other.token);
    }
}
