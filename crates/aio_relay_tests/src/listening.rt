//! What no clause says of a listener of an entered source: what its calls come to one after the other, and which
//! sources it stands in.

ghost use Rattle.std.specs.Prelude.{◌<◌};

use crate::asserts::{MEMORY, same};
use crate::listening::Act::{Close, Event, IsHeld, IsLeft, Listen, Poll, Serial};
use crate::listening::Came::{Is, Number, Tried};
use crate::relays::end_of;
use crate::tries::Came::{Other, Ready as IsReady, Took, Waits};
use crate::tries::{self, handle, listened};
use aio_base::{Dir, Interest, Key, Waker};
use aio_conns::{MemConn, SILENT};
use aio_future::{Async, Ready};
use aio_relay::MemEnd;
use aio_source::{Listened, SourceCell};
use std::alloc::Global;
use std::mem;
use std::process::Abort;

/// What is done with a listener of the read direction, and with its source.
#[derive(Clone, Copy)]
enum Act {
    /// Polls a new one with this waker, while no round has begun.
    Listen(u32),
    /// Polls it again with this waker, once a round has begun.
    Poll(u32),
    /// Handles an event of these directions.
    Event(Interest),
    /// Looks whether it stands in the source.
    IsHeld,
    /// Looks at the number of its ticket.
    Serial,
    /// Closes it, where it stands in the source.
    Close,
    /// Looks whether the source has a listener with its ticket.
    IsLeft,
}

/// What comes of it.
#[derive(Clone, Copy)]
enum Came {
    /// What a poll or an event comes to.
    Tried(tries::Came),
    /// Whether it is so.
    Is(bool),
    /// The number.
    Number(u64),
    /// There is no listener.
    Nothing,
}

/// What came, as it is compared.
fn told(came: Came) -> tries::Told {
    match came {
        Tried(came) => tries::told(came),
        Is(so) => ("is", so as u64, None, None),
        Number(number) => ("number", number, None, None),
        Came::Nothing => ("nothing", 0, None, None),
    }
}

/// A source with a listener, and what that remembers of its first poll.
#[derive(Drop)]
struct Heard {
    end: MemEnd<MemConn>,
    ready: Ready,
    kept: Option<Listened>,
    taken: Vec<Waker>,
}

/// A new listener of the read direction, and what its first poll comes to while no round has begun.
fn listen(cell: &mut SourceCell<MemConn>, waker: u32) -> (Ready, tries::Came) {
    let mut ready = Ready::new(Dir::Read);
    let mut source = Async::of(cell, 0);
    let came = listened(ready.poll(&mut source, Waker(waker)));
    (ready, came)
}

/// Whether a listener stands in a source.
fn is_held(ready: &Ready, cell: &mut SourceCell<MemConn>) -> bool {
    ready.is_held(&Async::of(cell, 1))
}

/// What a later poll comes to once a round has begun.
fn poll(ready: &mut Ready, cell: &mut SourceCell<MemConn>, waker: u32) -> tries::Came {
    let mut source = Async::of(cell, 1);
    if !ready.is_held(&source) {
        return Other;
    }
    listened(ready.poll(&mut source, Waker(waker)))
}

/// Closes a listener, where it stands in the source. Whether it did.
fn close(ready: Ready, cell: &mut SourceCell<MemConn>) -> bool {
    let mut source = Async::of(cell, 1);
    if !ready.is_held(&source) {
        return false;
    }
    ready.close(&mut source);
    true
}

impl Heard {
    /// A new source with this key, over a connection that stays silent. Its listener was not polled.
    fn new(rt: &impl Abort, alloc: Global, key: u32) -> Heard
        requires { key < 4096 }
    {
        let taken = Vec::with_capacity(alloc, 8).expect(rt, MEMORY);
        let io = SILENT.connection(alloc).expect(rt, MEMORY);
        Heard {
            end: end_of(alloc, Key(key), io),
            ready: Ready::new(Dir::Read),
            kept: None,
            taken,
        }
    }

    /// Polls a new listener, and keeps it.
    fn listen(&mut self, waker: u32) -> Came {
        let (ready, came) = listen(&mut self.end.cell, waker);
        self.kept = ready.listened();
        self.ready = ready;
        Tried(came)
    }

    /// Closes the listener. A new one stands in its place.
    fn close(&mut self) -> Came {
        let ready = mem::replace(&mut self.ready, Ready::new(Dir::Read));
        Is(close(ready, &mut self.end.cell))
    }

    /// The number of the ticket.
    fn serial(&self) -> Came {
        match self.kept {
            Some(kept) => Number(kept.ticket.serial),
            None => Came::Nothing,
        }
    }

    /// Whether the source has a listener with the ticket.
    fn is_left(&self) -> Came {
        match self.kept {
            Some(kept) => Is(self.end.cell.state.holds(Dir::Read, kept.ticket)),
            None => Came::Nothing,
        }
    }

    /// Does this.
    fn act(&mut self, act: Act) -> Came {
        let cell = &mut self.end.cell;
        match act {
            Listen(waker) => self.listen(waker),
            Poll(waker) => Tried(poll(&mut self.ready, cell, waker)),
            Event(on) => Tried(handle(cell, on, &mut self.taken)),
            IsHeld => Is(is_held(&self.ready, cell)),
            Serial => self.serial(),
            Close => self.close(),
            IsLeft => self.is_left(),
        }
    }

    /// Asserts that what these acts come to is what stands beside each.
    fn plays(&mut self, rt: &impl Abort, rows: &[(Act, Came)]) {
        for (act, came) in rows {
            same(rt, told(self.act(*act)), told(*came));
        }
    }
}

// The one ticket that was drawn is the first, so that a source without its listener has none.
const IS_CLOSED: [(Act, Came); 7] = [
    (Listen(1), Tried(Waits(None))),
    (Event(Interest::READ), Tried(Took(Some(1)))),
    (Poll(1), Tried(IsReady)),
    (Serial, Number(1)),
    (IsLeft, Is(true)),
    (Close, Is(true)),
    (IsLeft, Is(false)),
];

#[test]
fn a_listener_is_ready_after_an_event_and_none_is_left_once_it_is_closed(rt: HostRuntime) {
    let mut heard = Heard::new(&rt, rt.alloc(), 3);
    heard.plays(&rt, &IS_CLOSED);
}

const STANDS_THERE: [(Act, Came); 3] = [
    (IsHeld, Is(false)),
    (Listen(1), Tried(Waits(None))),
    (IsHeld, Is(true)),
];

/// Whether the listener of one source stands in another.
fn is_held_by(heard: &Heard, other: &mut Heard) -> bool {
    is_held(&heard.ready, &mut other.end.cell)
}

/// Asserts that the listener of a source does not stand in another one.
fn stands_in_no_other(rt: &impl Abort, alloc: Global, heard: &Heard) {
    let mut other = Heard::new(rt, alloc, 4);
    same(rt, is_held_by(heard, &mut other), false);
}

#[test]
fn a_listener_stands_in_the_source_that_it_was_polled_over(rt: HostRuntime) {
    let mut heard = Heard::new(&rt, rt.alloc(), 3);
    heard.plays(&rt, &STANDS_THERE);
    stands_in_no_other(&rt, rt.alloc(), &heard);
}
