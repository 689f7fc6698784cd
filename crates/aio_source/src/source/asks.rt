//! What the next call of a source would ask of the poller that it is lent.

ghost use Rattle.std.specs.Prelude.{◌≡◌, ℕ, None, Some};
ghost use Rattle.aio_base.specs.World.{has_any};
ghost use Rattle.aio_base.specs.declared.names.Waker.{Waker};
ghost use Rattle.aio_listen.specs.declared.ticket.Ticket.{Ticket};
ghost use Rattle.aio_listen.specs.Listening.{Holds};
ghost use Rattle.aio_source.specs.Lent.{asked_by, asked_for, asked_with, left_of};
ghost use Rattle.aio_source.specs.Rules.{direction_of, part_of, polling, listening_first, polling_again, handling};

use super::SourceState;
use crate::answers::Listened;
use aio_base::{Dir, Interest};

impl SourceState {
    /// The interest for which `poll_dir` would arm the poller now, whatever its waker; `None` where
    /// it would not arm it.
    #[tactic(auto, using(crate::proofs::AskLemmas::asked_polling))]
    pub fn poll_asks(&self, dir: Dir) -> Option<Interest>
        ensures { (w : Waker) (ticker : ℕ) →
            result ≡ asked_by (part_of (polling self.now dir w ticker)) }
    {
        if self.directions.get(dir).is_ready() {
            return None;
        }
        self.asks_with(dir)
    }

    /// The same of `first_listen`, where it draws a ticket.
    #[tactic(auto, using(crate::proofs::AskLemmas::asked_first))]
    pub fn first_listen_asks(&self, dir: Dir) -> Option<Interest>
        ensures { (t : Ticket) (w : Waker) →
            result ≡ asked_by (listening_first self.now dir w (Some t)) }
    {
        self.asks_with(dir)
    }

    /// The same of `listen_again`.
    pub fn listen_again_asks(&self, dir: Dir, l: Listened) -> Option<Interest>
        requires { Holds (direction_of self.now.directions dir).listeners.entries l.ticket }
        ensures { (w : Waker) →
            result ≡ asked_by (part_of (polling_again self.now dir l w)) }
    {
        if self.ready_since(dir, l.a, l.b) {
            return None;
        }
        self.asks_with(dir)
    }

    /// The same of `handle` for an event that names these directions.
    #[tactic(auto, using(crate::proofs::AskLemmas::asked_handling))]
    pub fn handle_asks(&self, on: Interest) -> Option<Interest>
        ensures { (round : ℕ) → result ≡ asked_by (handling self.now on round) }
    {
        asks_for_any(self.left_by(on))
    }

    /// The directions with a waiter that an event with these directions leaves.
    fn left_by(&self, on: Interest) -> Interest
        ensures { result ≡ left_of on self.now.directions }
    {
        self.directions.wanted().except(on)
    }

    /// What a new waiter of a direction would ask.
    fn asks_with(&self, dir: Dir) -> Option<Interest>
        ensures { result ≡ asked_with self.now dir }
    {
        if !self.directions.get(dir).is_idle() && !self.arming.broken {
            return None;
        }
        Some(self.directions.wanted().with(dir))
    }
}

/// These directions, where there is one.
fn asks_for_any(on: Interest) -> Option<Interest>
    ensures { result ≡ asked_for (has_any on) on }
{
    if on.is_none() { None } else { Some(on) }
}
