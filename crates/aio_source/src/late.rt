//! The listeners of a direction, out of line: few directions ever have one.

ghost use Rattle.std.specs.Prelude.{◌≡◌, ◌+◌, ◌-◌, ◌^◌, ◌<◌, ◌≤◌, ◌==◌, ◌↔◌, [], ◌∷◌, ◌++◌, true, None, length, IfOk, OnErr, IsErrOf, vec_len, vec_capacity};
ghost use Rattle.aio_listen.specs.Listening.{Holds, has_ticket, wakers_of, with_waker, without, emptied};

use aio_base::Waker;
use aio_listen::{AddRefusal, Listeners, Ticket};
use std::alloc::Global;
use std::marker::Model;

/// The listeners of a direction, in memory that is taken when the first of them comes. So a source
/// that is only polled stays small, and more sources fit into a processor's cache.
pub(crate) struct LateListeners {
    held: Option<Box<Listeners<Waker>>>,
    alloc: Global,
}

impl Model for LateListeners {
    ghost use Rattle.std.specs.Prelude.{option_map};
    ghost use Rattle.aio_base.specs.declared.names.Waker.{Waker};
    ghost use Rattle.aio_listen.specs.Listening.{Listening};
    ghost use Rattle.aio_source.specs.Values.{listeners_in};

    ghost Value = { Listening Waker };

    ghost view = { λ l. listeners_in (option_map (λ b. b.value) l.held) };
}

impl Drop for LateListeners {
    fn drop(self) {
        let LateListeners { held: _, alloc: _ } = self;
    }
}

impl LateListeners {
    /// No listeners, with no ticket drawn. It takes no memory.
    pub(crate) fn new(alloc: Global) -> LateListeners
        ensures { result ≡ record { entries = []; drawn = 0 } }
    {
        LateListeners { held: None, alloc }
    }

    /// Whether no listener has come yet.
    pub(crate) fn is_new(&self) -> bool
        ensures { result ≡ true → self.now.entries ≡ [] }
    {
        match &self.held {
            None => true,
            Some(_) => false,
        }
    }

    /// Whether no listener holds a waker.
    pub(crate) fn is_empty(&self) -> bool
        ensures { result ≡ (length (wakers_of self.now.entries) == 0) }
    {
        match &self.held {
            None => true,
            Some(listeners) => listeners.is_empty(),
        }
    }

    /// How many listeners hold a waker.
    pub(crate) fn waiting(&self) -> u64
        ensures value { result ≡ length (wakers_of self.now.entries) }
        ensures bound { result < 2 ^ 63 }
    {
        match &self.held {
            None => 0,
            Some(listeners) => listeners.waiting(),
        }
    }

    /// Whether a listener has this ticket.
    pub(crate) fn holds(&self, ticket: Ticket) -> bool
        ensures { result ≡ has_ticket self.now.entries ticket }
    {
        match &self.held {
            None => false,
            Some(listeners) => listeners.holds(ticket),
        }
    }

    /// Adds a last listener, which holds no waker yet. A refusal leaves all as it was.
    pub(crate) fn add(&mut self) -> Result<Ticket, AddRefusal>
        ensures added { IfOk result (λ ticket. self.new ≡ record {
          entries = self.old.entries ++ (ticket, None) ∷ [];
          drawn = self.old.drawn + 1;
        }) }
        ensures serial { IfOk result (λ ticket. ticket.serial ≡ self.old.drawn + 1) }
        ensures fresh { IfOk result (λ ticket. ¬ Holds self.old.entries ticket) }
        ensures spent { IsErrOf result AddRefusal.TicketsSpent ↔ (self.old.drawn ≡ 2 ^ 64 - 1) }
        ensures refused { OnErr result (self.new ≡ self.old) }
    {
        if let Some(listeners) = &mut self.held {
            return listeners.add();
        }
        match Box::new(self.alloc, Listeners::new(self.alloc)) {
            Ok(mut listeners) => {
                let added = listeners.add();
                self.held = Some(listeners);
                added
            }
            Err(_) => Err(AddRefusal::OutOfMemory),
        }
    }

    /// Has a listener hold this waker.
    pub(crate) fn set(&mut self, ticket: Ticket, waker: Waker)
        requires { Holds self.old.entries ticket }
        ensures { self.new
            ≡ record self.old { entries = with_waker self.old.entries ticket waker } }
    {
        if let Some(listeners) = &mut self.held {
            listeners.set(ticket, waker);
        }
    }

    /// Takes a listener out, with its waker.
    pub(crate) fn remove(&mut self, ticket: Ticket)
        requires { Holds self.old.entries ticket }
        ensures { self.new ≡ record self.old { entries = without self.old.entries ticket } }
    {
        if let Some(listeners) = &mut self.held {
            listeners.remove(ticket);
        }
    }

    /// Moves the wakers that listeners hold to the end of `out`, in order.
    #[inline(always)]
    pub(crate) fn drain_into(&mut self, out: &mut Vec<Waker>)
        requires { vec_len out.old + length (wakers_of self.old.entries) ≤ vec_capacity out.old }
        ensures drained { self.new ≡ record self.old { entries = emptied self.old.entries } }
        ensures items { out.new.items ≡ out.old.items ++ wakers_of self.old.entries }
        ensures capacity { vec_capacity out.new ≡ vec_capacity out.old }
    {
        match &mut self.held {
            None => {}
            Some(listeners) => listeners.drain_into(out),
        }
    }
}
