//! The list of listeners and its calls.

ghost use Rattle.std.specs.Prelude.{◌≡◌, ◌+◌, ◌-◌, ◌^◌, ◌<◌, ◌≤◌, ◌==◌, ◌↔◌, [], ◌∷◌, ◌++◌, None, length, option_to_list, IfOk, OnOk, OnErr, IsErrOf, vec_len, vec_capacity};
ghost use Rattle.aio_listen.specs.Listening.{Holds, SerialsRise, has_ticket, wakers_of, with_waker, without, emptied};

use crate::drain::{drain_start, left_behind, take_on};
use crate::link::Link;
use crate::node::{Node, store};
use crate::order::{append, unlink};
use crate::ticket::Ticket;
use slab::Slab;
use std::alloc::Global;
use std::marker::Model;

/// Why no listener was added.
#[derive(Clone, Copy, Debug, PartialEq, Eq)]
pub enum AddRefusal {
    /// All 2^64 - 1 tickets were drawn.
    TicketsSpent,
    /// Memory ran out.
    OutOfMemory,
}

/// The listeners of one direction of a source, each with the waker that it waits with or none, in
/// the order of their arrival (`async-io` 2, `reactor.rs`, `Direction::wakers`).
///
/// It is a doubly linked list: each listener is a node of a slab, with links to the one before it
/// and the one behind. A ticket's place is the key of its node, so no call searches, and none takes
/// time that grows with the listeners but `drain_into`, and `add` where the slab grows. A place is
/// given again once its listener was removed; the serial tells the new listener from the old.
///
/// Contracts see the list of tickets with their wakers, and how many tickets were drawn.
pub struct Listeners<W: Copy> {
    nodes: Slab<Node<W>>,
    first: Link,
    last: Link,
    drawn: u64,
    waiting: usize,
}

impl<W: Copy> Model for Listeners<W> {
    ghost use Rattle.aio_listen.specs.Listening.{Listening};

    ghost Value = { Listening W };

    ghost use Rattle.aio_listen.specs.Order.{IsListed, entries_along};

    ghost view = { λ l. record { entries = entries_along l.nodes l.first; drawn = l.drawn } };

    ghost invariant = { λ l. IsListed l.nodes l.first l.last l.drawn l.waiting };
}

impl<W: Copy> Drop for Listeners<W> {
    fn drop(self) {
        let Listeners {
            nodes: _,
            first: _,
            last: _,
            drawn: _,
            waiting: _,
        } = self;
    }
}

impl<W: Copy> Listeners<W> {
    /// No listeners, with no ticket drawn, in constant time. It takes no memory; `add` takes it
    /// from `alloc`.
    pub fn new(alloc: Global) -> Listeners<W>
        ensures { result ≡ record { entries = []; drawn = 0 } }
    {
        Listeners {
            nodes: Slab::new(alloc),
            first: Link::none(),
            last: Link::none(),
            drawn: 0,
            waiting: 0,
        }
    }

    /// Adds a listener behind the others, which waits with no waker yet, and answers its ticket,
    /// one that was never given before. Each refusal leaves all as it was: `TicketsSpent` exactly
    /// where 2^64 - 1 tickets were drawn, `OutOfMemory` where memory ran out, or where there are
    /// more places than a ticket can name.
    ///
    /// No other call takes memory. It takes constant time, but for the growth of the slab, which is
    /// amortised.
    #[inline(always)]
    pub fn add(&mut self) -> Result<Ticket, AddRefusal>
        ensures added { IfOk result (λ ticket. self.new ≡ record { entries = self.old.entries ++ (ticket, None) ∷ []; drawn = self.old.drawn + 1 }) }
        ensures serial { IfOk result (λ ticket. ticket.serial ≡ self.old.drawn + 1) }
        ensures fresh { IfOk result (λ ticket. ¬ Holds self.old.entries ticket) }
        ensures spent { IsErrOf result AddRefusal.TicketsSpent ↔ (self.old.drawn ≡ 2 ^ 64 - 1) }
        ensures refused { OnErr result (self.new ≡ self.old) }
        ensures bound { self.new.drawn < 2 ^ 64 }
    {
        if self.drawn == u64::MAX {
            return Err(AddRefusal::TicketsSpent);
        }
        let serial = self.drawn + 1;
        match append(&mut self.nodes, self.last, serial) {
            None => Err(AddRefusal::OutOfMemory),
            Some(key) => {
                let link = Link::to(key);
                self.first = self.first.choose(self.first, link);
                self.last = link;
                self.drawn = serial;
                Ok(Ticket {
                    serial,
                    place: key as u32,
                })
            }
        }
    }

    /// Has a listener wait with this waker, in place of the one that it waited with, if any. It
    /// takes no memory, and constant time.
    pub fn set(&mut self, ticket: Ticket, waker: W)
        requires { Holds self.old.entries ticket }
        ensures { self.new ≡ record self.old { entries = with_waker self.old.entries ticket waker } }
    {
        if store(&mut self.nodes, ticket.place as usize, waker) {
            self.waiting += 1;
        }
    }

    /// Takes a listener out, with its waker; the others keep theirs and their order. It takes no
    /// memory, and constant time: its neighbours are linked to each other.
    pub fn remove(&mut self, ticket: Ticket)
        requires { Holds self.old.entries ticket }
        ensures { self.new ≡ record self.old { entries = without self.old.entries ticket } }
    {
        let node = unlink(&mut self.nodes, ticket.place as usize);
        self.first = node.previous.choose(self.first, node.next);
        self.last = node.next.choose(self.last, node.previous);
        self.waiting = left_behind(self.waiting, node.waker);
    }

    /// Whether a listener has this whole ticket, also one of another list, in constant time.
    pub fn holds(&self, ticket: Ticket) -> bool
        ensures { result ≡ has_ticket self.now.entries ticket }
    {
        match self.nodes.get(ticket.place as usize) {
            Some(node) => node.serial == ticket.serial,
            None => false,
        }
    }

    /// Whether no listener waits with a waker, in constant time. Listeners that have none do not
    /// count.
    pub fn is_empty(&self) -> bool
        ensures { result ≡ (length (wakers_of self.now.entries) == 0) }
    {
        self.waiting == 0
    }

    /// How many listeners there are, in constant time. Their serials rise in the order of their
    /// arrival, from 1, and none is above the number of tickets drawn.
    pub fn count(&self) -> u64
        ensures value { result ≡ length self.now.entries }
        ensures bound { result < 2 ^ 63 }
        ensures order { SerialsRise 0 self.now.entries self.now.drawn }
        ensures drawn { self.now.drawn < 2 ^ 64 }
    {
        self.nodes.len() as u64
    }

    /// How many listeners wait with a waker, in constant time.
    pub fn waiting(&self) -> u64
        ensures value { result ≡ length (wakers_of self.now.entries) }
        ensures bound { result < 2 ^ 63 }
    {
        self.waiting as u64
    }

    /// Moves the wakers that listeners wait with to the end of `out`, in order; the listeners stay,
    /// with no waker. It takes no memory, and the time of two walks between the last listener and
    /// the first one that waits, or of one where all wait: those before that one, which have no
    /// waker, are not visited.
    #[inline(always)]
    pub fn drain_into(&mut self, out: &mut Vec<W>)
        requires { vec_len out.old + length (wakers_of self.old.entries) ≤ vec_capacity out.old }
        ensures drained { self.new ≡ record self.old { entries = emptied self.old.entries } }
        ensures items { out.new.items ≡ out.old.items ++ wakers_of self.old.entries }
        ensures capacity { vec_capacity out.new ≡ vec_capacity out.old }
    {
        let (start, steps) = drain_start(&self.nodes, self.first, self.last, self.waiting);
        take_on(&mut self.nodes, start, steps, out);
        self.waiting = 0;
    }
}
