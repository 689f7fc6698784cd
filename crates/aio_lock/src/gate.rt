//! The way in and out of a lock: the table, those who sleep at it, and what each token knows.

ghost use Rattle.std.specs.Prelude.{◌≡◌, [], ◌∷◌, Some, IfSome, IfNone, IfOk};
ghost use Rattle.aio_rules.specs.SharedLock.{MayPutBack, first_owner, joined_owner, nobody, put_back, second_owner, took_out, without_slot};
ghost use Rattle.aio_lock.specs.Plays.{IsLaden};
ghost use Rattle.aio_lock.specs.Tokens.{Entered, IsOutside, IsResting, owner_of, view_of};

mod sleepers;

use crate::plays::{Arrive, Close, FetchSlot, LeaveSlot, Open, Rule, TakeIn, TwoOwners};
use aio_base::OutOfMemory;
use aio_rules::{LockSeat, Noted};
use atomic_table::{Badge, Seat, Table};
use sleepers::{Sleeper, Sleepers};
use std::alloc::Global;
use std::marker::Model;
use std::mem;
use std::sync::Wait;

// 0 where the value is in its place, and `OUT` where it is out.
const TAKEN: usize = 0;

// What the exchanges and the swap leave where the value is out, and so what a sleep begins on.
const OUT: u64 = 1;

// The place of the value.
const PLACE: usize = 0;

/// What owners and visits have in common. It names no type of a value, since it never has the slot.
#[derive(Drop)]
pub struct Token {
    badge: Badge<LockSeat>,
}

impl Model for Token {
    ghost use Rattle.aio_lock.specs.Tokens.{IsResting, OwnerValue, owner_of, view_of};

    ghost Value = { OwnerValue };

    ghost view = { λ t. owner_of t.badge.table_id (view_of t.badge.views) };

    ghost invariant = { λ t. IsResting t.badge.views };
}

impl Token {
    fn of<T>(seat: Seat<Option<T>, LockSeat>) -> Token
        requires { seat.me ≡ (without_slot seat.me.0.view, []) }
        ensures { result ≡ owner_of seat.table_id seat.me.0.view }
    {
        let badge = seat.into_badge();
        Token { badge }
    }

    // The seat that stands for a token while a call changes what it knows.
    fn seat<T>(badge: &mut Badge<LockSeat>) -> Seat<Option<T>, LockSeat>
        requires { IsResting badge.old.views }
        ensures place { result.table_id ≡ badge.old.table_id }
        ensures rests { result.me ≡ (without_slot (view_of badge.old.views), []) }
    {
        mem::replace(badge, Badge::blank()).into_seat()
    }
}

/// A lock was opened, and a thread that sleeps at it is still to be called: so it cannot be let go.
struct Opened;

/// Where tokens go in, which takes the value out, and go out again, which puts one back.
pub struct Gate<T: Noted> {
    table: Table<Option<T>, LockSeat, (), Rule<T>, Global>,
    // Those who sleep on the word, or are about to.
    sleepers: Sleepers,
}

impl<T: Noted> Model for Gate<T> {
    ghost use Rattle.atomic_table.specs.Seated.{TableId};
    ghost use Rattle.aio_lock.specs.Tokens.{IsLock};

    ghost Value = { TableId };

    ghost view = { λ g. g.table.shared.table_id };

    ghost invariant = { λ g. IsLock g.table.shared.table_id };
}

impl<T: Noted + Drop> Drop for Gate<T> {
    fn drop(self) {
        let Gate {
            table: _,
            sleepers: _,
        } = self;
    }
}

impl<T: Noted> Gate<T> {
    /// A gate with no value, and the tokens of number 0, which is inside, and of number 1.
    pub fn shut(alloc: Global) -> Result<(Gate<T>, Token, Token), OutOfMemory>
        ensures first { IfOk result (λ made.
            made.1 ≡ owner_of made.0 (took_out [] [] (first_owner []))) }
        ensures second { IfOk result (λ made. made.2 ≡ owner_of made.0 (second_owner [])) }
    {
        match Table::vacant(alloc, &[OUT], 1, &()) {
            Ok((table, mut seat)) => {
                let second = table.shared.split_seat::<TwoOwners>(&mut seat);
                let sleepers = Sleepers::none();
                let gate = Gate { table, sleepers };
                Ok((gate, Token::of(seat), Token::of(second)))
            }
            Err(_) => Err(OutOfMemory),
        }
    }

    // The value leaves the slot, and the slot goes back to its place.
    fn unload(&self, mut seat: Seat<Option<T>, LockSeat>) -> (T, Token)
        requires belongs { seat.table_id ≡ self.now }
        requires laden { IsLaden seat.me }
        ensures value { seat.me.1 ≡ (0, Some result.0) ∷ [] }
        ensures token { result.1 ≡ owner_of self.now seat.me.0.view }
    {
        let table = &self.table.shared;
        let content = table.exchange(&mut seat, PLACE, None);
        table.load::<LeaveSlot>(&mut seat, TAKEN);
        (content.unwrap(), Token::of(seat))
    }

    /// Goes in where the value is there.
    pub fn attempt(&self, token: &mut Token) -> Option<T>
        requires { token.old.lock ≡ self.now }
        ensures some { IfSome result (λ value.
            Entered T.first_note T.second_note self.now token.old.knows value token.new) }
        ensures none { IfNone result (token.new ≡ token.old) }
    {
        let mut seat = Token::seat(&mut token.badge);
        let found = self
            .table
            .shared
            .compare_exchange::<Close<T>>(&mut seat, TAKEN, 0, OUT);
        if found != 0 {
            token.badge = seat.into_badge();
            return None;
        }
        let (value, inside) = self.unload(seat);
        *token = inside;
        Some(value)
    }

    /// Goes in as soon as an attempt succeeds. A sleep begins only where the value is still out, and the
    /// count of sleepers was raised before, so that whoever goes out sees it.
    pub fn enter<R: Wait>(&self, rt: &R, token: &mut Token) -> T
        requires { token.old.lock ≡ self.now }
        ensures { Entered T.first_note T.second_note self.now token.old.knows result token.new }
    {
        for _ in rt.forever() {
            if let Some(value) = self.attempt(token) {
                return value;
            }
            self.sleep(rt, self.sleepers.count_in()).count_out();
        }
        unreachable!()
    }

    // Sleeps until it is called, unless the value is back: the thread has counted itself.
    fn sleep<'a, R: Wait>(&self, rt: &R, sleeper: Sleeper<'a>) -> Sleeper<'a> {
        self.table.shared.park(rt, TAKEN, OUT as u32);
        sleeper
    }

    /// A token that owns no number, and the value where it was there: the token is then inside.
    pub fn arrive(&self) -> (Option<T>, Token)
        ensures some { IfSome result.0 (λ value.
            Entered T.first_note T.second_note self.now nobody value result.1) }
        ensures none { IfNone result.0 (result.1 ≡ owner_of self.now nobody) }
    {
        let (taken, seat) = self.table.shared.swap_new_seat::<Arrive<T>>(TAKEN, OUT);
        if taken != 0 {
            return (None, Token::of(seat));
        }
        let (value, token) = self.unload(seat);
        (Some(value), token)
    }

    /// Puts a value into its place and goes out, and then calls a thread that sleeps.
    pub fn leave(&self, token: &mut Token, value: T)
        requires belongs { token.old.lock ≡ self.now }
        requires may { MayPutBack token.old.knows (T.first_note value) (T.second_note value) }
        ensures { token.new ≡ owner_of self.now
            (put_back (T.first_note value) (T.second_note value) token.old.knows) }
    {
        self.call_sleeper(self.open(token, value));
    }

    // Puts a value into its place and goes out.
    fn open(&self, token: &mut Token, value: T) -> Opened
        requires belongs { token.old.lock ≡ self.now }
        requires may { MayPutBack token.old.knows (T.first_note value) (T.second_note value) }
        ensures { token.new ≡ owner_of self.now
            (put_back (T.first_note value) (T.second_note value) token.old.knows) }
    {
        let table = &self.table.shared;
        let mut seat = Token::seat(&mut token.badge);
        table.load::<FetchSlot>(&mut seat, TAKEN);
        match table.exchange(&mut seat, PLACE, Some(value)) {
            None => table.store::<Open<T>>(&mut seat, TAKEN, 0),
            Some(_) => unreachable!(),
        }
        token.badge = seat.into_badge();
        Opened
    }

    fn call_sleeper(&self, opened: Opened) {
        let Opened = opened;
        if self.sleepers.has_any() {
            self.table.shared.wake_one(TAKEN);
        }
    }

    /// A token that is outside takes in another.
    pub fn merge(&self, into: &mut Token, other: Token)
        requires into { IsOutside self.now into.old }
        requires other { IsOutside self.now other }
        ensures { into.new ≡ owner_of self.now (joined_owner into.old.knows other.knows) }
    {
        let Token { badge } = other;
        let other = badge.into_seat::<Option<T>>();
        let mut seat = Token::seat(&mut into.badge);
        self.table.shared.join_seat::<TakeIn>(&mut seat, other);
        into.badge = seat.into_badge();
    }
}
