//! The events that a poller in memory has noted and not yet given, in order.

ghost use Rattle.std.specs.Prelude.{◌≡◌, ◌≤◌, [], ◌∷◌, ◌++◌, length, drop, OnOk, OnErr};

use aio_base::{Event, OutOfMemory};
use std::alloc::Global;
use std::marker::Model;

/// Noted events, as the list of those that are not yet given.
///
/// The given ones stand before `given` until all are given, or until the vector is full and at
/// least half of it is given: so an event is moved a bounded number of times on average, however
/// many are noted.
#[derive(Drop)]
pub(crate) struct NotedEvents {
    events: Vec<Event>,
    given: usize,
}

impl Model for NotedEvents {
    ghost use Rattle.std.specs.Prelude.{◌≤◌, List, drop, vec_len};
    ghost use Rattle.aio_base.specs.declared.names.Event.{Event};

    ghost Value = { List Event };

    ghost view = { λ n. drop n.given n.events.items };

    ghost invariant = { λ n. n.given ≤ vec_len n.events };
}

impl NotedEvents {
    pub(crate) fn new(alloc: Global) -> NotedEvents
        ensures { result ≡ [] }
    {
        NotedEvents {
            events: Vec::new(alloc),
            given: 0,
        }
    }

    pub(crate) fn as_slice(&self) -> &[Event]
        ensures { result.now ≡ self.now }
    {
        &self.events[self.given..]
    }

    /// Adds an event at the end. `OutOfMemory` leaves the events as they were.
    pub(crate) fn push(&mut self, event: Event) -> Result<(), OutOfMemory>
        ensures ok { OnOk result (self.new ≡ self.old ++ event ∷ []) }
        ensures err { OnErr result (self.new ≡ self.old) }
    {
        if self.events.len() < self.events.capacity() {
            self.events.push_reserved(event);
            return Ok(());
        }
        self.make_room();
        match self.events.push(event) {
            Ok(()) => Ok(()),
            Err(_) => Err(OutOfMemory),
        }
    }

    /// Moves the events of the full vector to the front, where at least half of it is given.
    #[inline(never)]
    fn make_room(&mut self)
        ensures { self.new ≡ self.old }
    {
        let given = self.given;
        let left = self.events.len() - given;
        if given >= left {
            self.events.copy_within(given.., 0);
            self.events.truncate(left);
            self.given = 0;
        }
    }

    /// Takes the first `count` events out.
    pub(crate) fn skip(&mut self, count: usize)
        requires { count ≤ length self.old }
        ensures { self.new ≡ drop count self.old }
    {
        self.given += count;
        if self.given == self.events.len() {
            self.events.clear();
            self.given = 0;
        }
    }
}
