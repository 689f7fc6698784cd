//! The rule of a lock as the table takes it, and what each kind of step tells its seat.

use aio_rules::{LockSeat, Noted};
use atomic_table::{Join, Play, Split, TableRule};
use std::marker::PhantomData;

/// The rule of a lock, over its one word and its one slot.
pub struct Rule<T> {
    marker: PhantomData<T>,
}

impl<T: Noted> TableRule<Option<T>, LockSeat, ()> for Rule<T> {
    ghost use Rattle.aio_rules.specs.SharedLock.{sole_owner, without_slot};
    ghost use Rattle.aio_lock.specs.Plays.{Ruled};

    ghost holds = { λ _. Ruled T.first_note T.second_note };

    ghost first = { λ _. without_slot sole_owner };
}

/// The two owners, made of the first seat.
pub struct TwoOwners;

impl Split<LockSeat> for TwoOwners {
    ghost use Rattle.std.specs.Prelude.{[]};
    ghost use Rattle.aio_rules.specs.SharedLock.{first_owner, second_owner, took_out, without_slot};

    ghost left = { λ _. without_slot (took_out [] [] (first_owner [])) };

    ghost right = { λ _. without_slot (second_owner []) };
}

/// An owner that takes in another.
pub struct TakeIn;

impl Join<LockSeat> for TakeIn {
    ghost use Rattle.aio_rules.specs.SharedLock.{joined_owner, nobody, without_slot};

    ghost both = { λ s other. without_slot (joined_owner s.view other.view) };

    ghost spent = { without_slot nobody };
}

/// An exchange from 0 to 1. Where it finds 0, the value comes out.
pub struct Close<T> {
    marker: PhantomData<T>,
}

impl<T: Noted> Play<Option<T>, LockSeat> for Close<T> {
    ghost use Rattle.aio_lock.specs.Plays.{Closes};

    ghost then = { λ at me found after. Closes T.first_note T.second_note me found after };
}

/// A visitor's first swap to 1.
pub struct Arrive<T> {
    marker: PhantomData<T>,
}

impl<T: Noted> Play<Option<T>, LockSeat> for Arrive<T> {
    ghost use Rattle.aio_lock.specs.Plays.{Arrived};

    ghost then = { λ at me found after. Arrived T.first_note T.second_note found after };
}

/// A load by the seat that has taken, which finds 1: the slot, with no value, goes back to its place.
pub struct LeaveSlot;

impl<T> Play<Option<T>, LockSeat> for LeaveSlot {
    ghost use Rattle.aio_lock.specs.Plays.{LeavesSlot};

    ghost then = { λ at me found after. LeavesSlot me after };
}

/// The same, and the slot comes out again.
pub struct FetchSlot;

impl<T> Play<Option<T>, LockSeat> for FetchSlot {
    ghost use Rattle.aio_lock.specs.Plays.{FetchesSlot};

    ghost then = { λ at me found after. FetchesSlot me after };
}

/// The store of 0 by the seat that has taken.
pub struct Open<T> {
    marker: PhantomData<T>,
}

impl<T: Noted> Play<Option<T>, LockSeat> for Open<T> {
    ghost use Rattle.aio_lock.specs.Plays.{Opens};

    ghost then = { λ at me found after. Opens T.first_note T.second_note me after };
}
