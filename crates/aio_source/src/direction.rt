//! One direction of a source.

ghost use Rattle.std.specs.Prelude.{◌≡◌, ◌+◌, ◌-◌, ◌^◌, ◌<◌, ◌≤◌, ◌++◌, ◌↔◌, true, not, length, max, IfOk, OnErr, IsErrOf, None, false, if◌then◌else◌, vec_len, vec_capacity};
ghost use Rattle.aio_base.specs.Machine.{is_waker};
ghost use Rattle.aio_listen.specs.Listening.{Holds, has_ticket};
ghost use Rattle.aio_source.specs.Rules.{new_direction, is_above, is_ready, waiters_of, is_idle, seen, stored, listening, listening_again, without_listener, handled};

use crate::late::LateListeners;
use aio_base::Waker;
use aio_listen::{AddRefusal, Ticket};
use std::alloc::Global;
use std::marker::Model;

/// One direction of a source (`async-io` 2, `reactor.rs`, `Direction`).
#[derive(Drop)]
pub(crate) struct Direction {
    /// The last round that handled an event of the direction, and 0 before the first.
    tick: u64,
    /// The rounds begun and `tick` when the last poll waiter was stored, until it is told that it is
    /// ready.
    ticks: Option<(u64, u64)>,
    /// The poll waiter.
    waiter: Option<Waker>,
    /// The listeners in the order of their first poll.
    listeners: LateListeners,
}

impl Model for Direction {
    ghost use Rattle.aio_source.specs.Values.{DirectionValue};

    ghost Value = { DirectionValue };

    ghost view = { λ d. record {
      tick = d.tick;
      ticks = d.ticks;
      waiter = d.waiter;
      listeners = d.listeners;
    } };
}

impl Direction {
    pub(crate) fn new(alloc: Global) -> Direction
        ensures { result ≡ new_direction }
    {
        Direction {
            tick: 0,
            ticks: None,
            waiter: None,
            listeners: LateListeners::new(alloc),
        }
    }

    /// The last round that handled an event of the direction, and 0 before the first.
    pub(crate) fn tick(&self) -> u64
        ensures { result ≡ self.now.tick }
    {
        self.tick
    }

    /// Whether the last round that handled an event is above both numbers.
    pub(crate) fn is_above(&self, a: u64, b: u64) -> bool
        ensures { result ≡ is_above a b self.now.tick }
    {
        a < self.tick && b < self.tick
    }

    /// Whether a round that began after the last poll waiter was stored has handled an event.
    pub(crate) fn is_ready(&self) -> bool
        ensures { result ≡ is_ready self.now }
    {
        match self.ticks {
            None => false,
            Some((a, b)) => a < self.tick && b < self.tick,
        }
    }

    /// Whether the direction has no waiter.
    #[tactic(auto, using(crate::proofs::WaiterLemmas::empty_by_length))]
    pub(crate) fn is_idle(&self) -> bool
        ensures { result ≡ is_idle self.now }
    {
        match self.waiter {
            None => self.listeners.is_empty(),
            Some(_) => false,
        }
    }

    /// Whether the direction has had no listener yet. Its poll waiter alone may wait then.
    pub(crate) fn is_only_polled(&self) -> bool
        ensures { result ≡ true → length (waiters_of self.now) ≤ 1 }
    {
        self.listeners.is_new()
    }

    /// How many waiters the direction has.
    pub(crate) fn waiting(&self) -> u64
        ensures value { result ≡ length (waiters_of self.now) }
        ensures bound { result ≤ 2 ^ 63 }
    {
        u64::from(self.waiter.is_some()) + self.listeners.waiting()
    }

    /// Forgets what was remembered of the poll waiter, which is told that it is ready.
    pub(crate) fn see(&mut self)
        ensures { self.new ≡ seen self.old }
    {
        self.ticks = None;
    }

    /// Stores a poll waiter while `ticker` rounds have begun, and hands out the one before. Where it
    /// is the poll waiter already, nothing is stored and none is handed out.
    pub(crate) fn store(&mut self, waker: Waker, ticker: u64) -> Option<Waker>
        ensures after { self.new
            ≡ (if is_waker waker self.old.waiter then self.old else stored waker ticker self.old) }
        ensures replaced { result
            ≡ (if is_waker waker self.old.waiter then None else self.old.waiter) }
    {
        match &mut self.waiter {
            None => {
                self.ticks = Some((ticker, self.tick));
                self.waiter = Some(waker);
                None
            }
            Some(held) => {
                let before = *held;
                if before.0 == waker.0 {
                    return None;
                }
                *held = waker;
                self.ticks = Some((ticker, self.tick));
                Some(before)
            }
        }
    }

    /// Whether a listener has this ticket.
    pub(crate) fn holds(&self, ticket: Ticket) -> bool
        ensures { result ≡ has_ticket self.now.listeners.entries ticket }
    {
        self.listeners.holds(ticket)
    }

    /// Adds a last listener, which holds this waker. A refusal leaves the direction as it was.
    #[tactic(auto, using(crate::proofs::WaiterLemmas::last_with_waker))]
    pub(crate) fn listen(&mut self, waker: Waker) -> Result<Ticket, AddRefusal>
        ensures after { IfOk result (λ ticket. self.new ≡ listening ticket waker self.old) }
        ensures serial { IfOk result (λ ticket. ticket.serial ≡ self.old.listeners.drawn + 1) }
        ensures fresh { IfOk result (λ ticket. ¬ Holds self.old.listeners.entries ticket) }
        ensures spent { IsErrOf result AddRefusal.TicketsSpent
            ↔ (self.old.listeners.drawn ≡ 2 ^ 64 - 1) }
        ensures refused { OnErr result (self.new ≡ self.old) }
    {
        let ticket = self.listeners.add()?;
        self.listeners.set(ticket, waker);
        Ok(ticket)
    }

    /// Has a listener hold this waker.
    pub(crate) fn listen_again(&mut self, ticket: Ticket, waker: Waker)
        requires { Holds self.old.listeners.entries ticket }
        ensures { self.new ≡ listening_again ticket waker self.old }
    {
        self.listeners.set(ticket, waker);
    }

    /// Takes a listener out.
    pub(crate) fn unlisten(&mut self, ticket: Ticket)
        requires { Holds self.old.listeners.entries ticket }
        ensures { self.new ≡ without_listener ticket self.old }
    {
        self.listeners.remove(ticket);
    }

    /// Moves the waiters to the end of `taken` for an event of this round, the poll waiter first; the
    /// listeners stay, with no waker. `may` is false only if none waits.
    #[inline(always)]
    pub(crate) fn take_waiters(&mut self, may: bool, round: u64, taken: &mut Vec<Waker>)
        requires room { vec_len taken.old + length (waiters_of self.old) ≤ vec_capacity taken.old }
        requires nobody { may ≡ false → is_idle self.old ≡ true }
        ensures after { self.new ≡ handled round self.old }
        ensures taken { taken.new.items ≡ taken.old.items ++ waiters_of self.old }
        ensures capacity { vec_capacity taken.new ≡ vec_capacity taken.old }
    {
        if may {
            match self.waiter.take() {
                None => {}
                Some(waker) => taken.push_reserved(waker),
            }
            self.listeners.drain_into(taken);
        }
        self.tick = self.tick.max(round);
    }
}
