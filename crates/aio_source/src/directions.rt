//! The directions of a source.

ghost use Rattle.std.specs.Prelude.{◌≡◌, ◌+◌, ◌≤◌, ◌++◌, false, true, length, vec_len, vec_capacity};
ghost use Rattle.std.specs.Borrow.{sem};
ghost use Rattle.aio_base.specs.declared.names.Dir.{Dir};
ghost use Rattle.aio_base.specs.World.{directions, has_any};
ghost use Rattle.aio_source.specs.Rules.{new_directions, direction_of, is_idle, wanted, waiters_in, handled_along, taken_along};
ghost use Rattle.aio_source.specs.Lending.{LendsDirection};

use crate::direction::Direction;
use aio_base::{DIRS, Dir, Interest, Waker};
use std::alloc::Global;
use std::marker::Model;

/// The directions of a source.
#[derive(Drop)]
pub(crate) struct Directions {
    read: Direction,
    write: Direction,
    priority: Direction,
}

impl Model for Directions {
    ghost use Rattle.aio_source.specs.Values.{DirectionValues};

    ghost Value = { DirectionValues };

    ghost view = { λ ds. record { read = ds.read; write = ds.write; priority = ds.priority } };
}

impl Directions {
    pub(crate) fn new(alloc: Global) -> Directions
        ensures { result ≡ new_directions }
    {
        Directions {
            read: Direction::new(alloc),
            write: Direction::new(alloc),
            priority: Direction::new(alloc),
        }
    }

    pub(crate) fn get(&self, dir: Dir) -> &Direction
        ensures { result.now ≡ direction_of self.now dir }
    {
        match dir {
            Dir::Read => &self.read,
            Dir::Write => &self.write,
            Dir::Priority => &self.priority,
        }
    }

    pub(crate) fn get_mut(&mut self, dir: Dir) -> &mut Direction
        ensures* lends { sem 𝓛 (LendsDirection self.entry dir result) }
        ensures value { result.now ≡ direction_of self.old dir }
    {
        match dir {
            Dir::Read => &mut self.read,
            Dir::Write => &mut self.write,
            Dir::Priority => &mut self.priority,
        }
    }

    /// The interest that the waiters want.
    pub(crate) fn wanted(&self) -> Interest
        ensures { result ≡ wanted self.now }
    {
        Interest::from_fn(|dir| !self.get(dir).is_idle())
    }

    /// Whether any direction has a waiter.
    pub(crate) fn has_waiter(&self) -> bool
        ensures { result ≡ has_any (wanted self.now) }
    {
        for direction in DIRS {
            if !self.get(direction).is_idle() {
                return true;
            }
        }
        false
    }

    /// The same, where `may` is false only if none has.
    pub(crate) fn has_waiter_where(&self, may: bool) -> bool
        requires { may ≡ false → has_any (wanted self.now) ≡ false }
        ensures { result ≡ has_any (wanted self.now) }
    {
        may && self.has_waiter()
    }

    /// Whether no direction has had a listener yet. Each has its poll waiter at most then.
    pub(crate) fn are_only_polled(&self) -> bool
        ensures { result ≡ true → length (waiters_in directions self.now) ≤ length directions }
    {
        Interest::from_fn(|dir| !self.get(dir).is_only_polled()).is_none()
    }

    /// Moves the waiters of the directions that an event of this round names to the end of `taken`,
    /// direction by direction in the order of `DIRS`. `may` is false only if none waits.
    #[inline(always)]
    pub(crate) fn take_waiters(
        &mut self,
        may: bool,
        on: Interest,
        round: u64,
        taken: &mut Vec<Waker>,
    )
        requires room { vec_len taken.old + length (waiters_in directions self.old)
            ≤ vec_capacity taken.old }
        requires nobody { may ≡ false → (dir : Dir) → is_idle (direction_of self.old dir) ≡ true }
        ensures after { self.new ≡ handled_along on round directions self.old }
        ensures taken { taken.new.items
            ≡ taken.old.items ++ taken_along on round directions self.old }
        ensures capacity { vec_capacity taken.new ≡ vec_capacity taken.old }
    {
        for dir in DIRS {
            if on.has(dir) {
                self.get_mut(dir).take_waiters(may, round, taken);
            }
        }
    }
}
