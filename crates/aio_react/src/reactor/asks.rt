//! What the next call of a core would ask of its poller, so that a caller whose poller is elsewhere
//! can ask it there first, and tell what it answered.

ghost use Rattle.std.specs.Prelude.{◌≡◌, Some};
ghost use Rattle.aio_base.specs.declared.names.Waker.{Waker};
ghost use Rattle.aio_listen.specs.declared.ticket.Ticket.{Ticket};
ghost use Rattle.aio_source.specs.Lent.{asked_by};
ghost use Rattle.aio_react.specs.Asking.{asked_of, poll_part, listener_part, step_part_of, handle_part};
ghost use Rattle.aio_react.specs.Cores.{IsListenedTo};
ghost use Rattle.aio_react.specs.Numbers.{value_of};

use crate::entries::{Listener, SourceEntry};
use crate::reactor::Core;
use aio_base::{Dir, Interest, Key, Poller};
use aio_source::InHand;

impl<P: Poller> Core<P> {
    /// The interest for which `poll` would arm the poller now, whatever its waker; `None` where it
    /// would leave the poller alone.
    pub fn poll_asks(&self, key: Key, dir: Dir) -> Option<Interest>
        ensures { (w : Waker) → result ≡ asked_of (poll_part self.now.1 key.0 dir w) }
    {
        match self.sources.get(key) {
            Some(entry) => entry.source.poll_asks(dir),
            None => None,
        }
    }

    /// The same of `step`, where that draws a ticket or the listener has one: `step` leaves the
    /// poller alone where it is refused.
    pub fn step_asks(&self, listener: u64) -> Option<Interest>
        ensures { (w : Waker) (t : Ticket) → result ≡ asked_of (step_part_of self.now.1.sources
            w (Some t) (value_of self.now.1.listeners listener)) }
    {
        let Some(heard) = self.listeners.get(listener) else {
            return None;
        };
        match self.sources.get(heard.key) {
            Some(entry) => listener_asks(entry, heard),
            None => None,
        }
    }

    /// The same of `handle`, where that finds memory for the waiters: it leaves the poller alone
    /// where it is refused.
    pub fn handle_asks(&self) -> Option<Interest>
        ensures { result ≡ asked_of (handle_part self.now.1) }
    {
        let Some(event) = self.round.peek() else {
            return None;
        };
        match self.sources.get(event.key) {
            Some(entry) => entry.source.handle_asks(event.on),
            None => None,
        }
    }
}

/// What the poll of a listener of this source would ask.
fn listener_asks(entry: &SourceEntry, heard: Listener) -> Option<Interest>
    requires { IsListenedTo (Some entry.now) heard }
    ensures { (w : Waker) (t : Ticket) → result
        ≡ asked_by (listener_part entry.now.source heard.dir w heard.first (Some t)) }
{
    match heard.first {
        None => entry.source.first_listen_asks(heard.dir),
        Some(first) => entry.source.listen_again_asks(heard.dir, first),
    }
}
