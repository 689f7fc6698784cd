//! A list of listeners with their tickets, as the rows of a table use it.

use crate::asserts::same;
use aio_listen::{Listeners, Ticket};
use std::alloc::{AllocError, Global};
use std::process::Abort;

/// What is done with a list. A number is how many listeners came before the one that is meant.
#[derive(Clone, Copy)]
pub(crate) enum Act {
    /// A listener comes.
    Add,
    /// A listener comes, and waits with this waker.
    Give(u32),
    /// A listener waits with this waker.
    Set(usize, u32),
    /// A listener goes.
    Remove(usize),
    /// Looks whether a listener is there.
    Holds(usize),
    /// Counts the listeners and those that wait, and looks whether none waits.
    Count,
    /// Takes the wakers.
    Drain,
}

/// What comes of it.
#[derive(Clone, Copy)]
pub(crate) enum Came {
    /// It is done.
    Done,
    /// No such listener is there.
    Gone,
    /// Whether it is so.
    Is(bool),
    /// So many listeners are there, so many wait, and whether none waits.
    Counts(u64, u64, bool),
    /// The wakers that were taken, at most four, with zeros behind them.
    Drained([u32; 4]),
    /// Something else.
    Other,
}

/// What came, as it is compared: which it is, its numbers, and the wakers.
fn told(came: Came) -> (&'static str, [u64; 3], [u32; 4]) {
    match came {
        Came::Done => ("done", [0; 3], [0; 4]),
        Came::Gone => ("gone", [0; 3], [0; 4]),
        Came::Is(so) => ("is", [so as u64, 0, 0], [0; 4]),
        Came::Counts(count, waiting, none) => ("counts", [count, waiting, none as u64], [0; 4]),
        Came::Drained(wakers) => ("drained", [0; 3], wakers),
        Came::Other => ("other", [0; 3], [0; 4]),
    }
}

/// Has a listener wait. Whether it was there.
pub(crate) fn set_there<W: Copy>(listeners: &mut Listeners<W>, ticket: Ticket, waker: W) -> bool {
    if !listeners.holds(ticket) {
        return false;
    }
    listeners.set(ticket, waker);
    true
}

/// Takes a listener out. Whether it was there.
fn remove_there<W: Copy>(listeners: &mut Listeners<W>, ticket: Ticket) -> bool {
    if !listeners.holds(ticket) {
        return false;
    }
    listeners.remove(ticket);
    true
}

/// The wakers of those who wait.
fn drained<W: Copy>(alloc: Global, listeners: &mut Listeners<W>) -> Result<Vec<W>, AllocError> {
    let mut out = Vec::with_capacity(alloc, listeners.waiting() as usize)?;
    listeners.drain_into(&mut out);
    Ok(out)
}

/// A list with the tickets of all that came.
#[derive(Drop)]
pub(crate) struct Kept {
    alloc: Global,
    pub(crate) listeners: Listeners<u32>,
    pub(crate) tickets: Vec<Ticket>,
}

/// The first four of these, with zeros behind them.
fn first_four(wakers: &[u32]) -> [u32; 4] {
    let mut four = [0; 4];
    let count = wakers.len().min(4);
    four[..count].copy_from_slice(&wakers[..count]);
    four
}

/// What an act on a listener came to that may not have been there.
fn done(was_there: bool) -> Came {
    if was_there { Came::Done } else { Came::Gone }
}

impl Kept {
    /// A list in which nobody is.
    pub(crate) fn new(alloc: Global) -> Kept {
        Kept {
            alloc,
            listeners: Listeners::new(alloc),
            tickets: Vec::new(alloc),
        }
    }

    /// A listener comes: its ticket, where there is memory.
    pub(crate) fn add(&mut self) -> Option<Ticket> {
        let Ok(ticket) = self.listeners.add() else {
            return None;
        };
        match self.tickets.push(ticket) {
            Ok(()) => Some(ticket),
            Err(_) => None,
        }
    }

    /// A listener comes and waits. Whether there was memory.
    pub(crate) fn give(&mut self, waker: u32) -> bool {
        match self.add() {
            Some(ticket) => set_there(&mut self.listeners, ticket, waker),
            None => false,
        }
    }

    /// A listener goes. Whether it was there.
    pub(crate) fn remove(&mut self, ticket: Ticket) -> bool {
        remove_there(&mut self.listeners, ticket)
    }

    /// The wakers of those who wait, where there is memory.
    pub(crate) fn drain(&mut self) -> Result<Vec<u32>, AllocError> {
        drained(self.alloc, &mut self.listeners)
    }

    /// Takes the wakers. How many they were, where there is memory.
    pub(crate) fn drain_all(&mut self) -> usize {
        match self.drain() {
            Ok(out) => out.len(),
            Err(_) => 0,
        }
    }

    /// Takes at most four wakers.
    fn drain_four(&mut self) -> Came {
        match self.drain() {
            Ok(out) if out.len() <= 4 => Came::Drained(first_four(out.as_slice())),
            _ => Came::Other,
        }
    }

    /// Does this with the listener before which so many came.
    fn act_on(&mut self, index: usize, act: Act) -> Came {
        let Some(ticket) = self.tickets.get(index) else {
            return Came::Other;
        };
        match act {
            Act::Set(_, waker) => done(set_there(&mut self.listeners, *ticket, waker)),
            Act::Remove(_) => done(remove_there(&mut self.listeners, *ticket)),
            _ => Came::Is(self.listeners.holds(*ticket)),
        }
    }

    /// Does this.
    fn act(&mut self, act: Act) -> Came {
        let listeners = &self.listeners;
        match act {
            Act::Add => done(self.add().is_some()),
            Act::Give(waker) => done(self.give(waker)),
            Act::Set(index, _) | Act::Remove(index) | Act::Holds(index) => self.act_on(index, act),
            Act::Count => {
                let (count, waiting) = (listeners.count(), listeners.waiting());
                Came::Counts(count, waiting, listeners.is_empty())
            }
            Act::Drain => self.drain_four(),
        }
    }

    /// Asserts that what these acts come to is what stands beside each.
    pub(crate) fn plays(&mut self, rt: &impl Abort, rows: &[(Act, Came)]) {
        for (act, came) in rows {
            same(rt, told(self.act(*act)), told(*came));
        }
    }
}
