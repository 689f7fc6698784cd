//! A listener of an entered source.

ghost use Rattle.std.specs.Prelude.{◌≡◌, ◌↔◌, IsTrue, IsSome, IfSome, None};
ghost use Rattle.aio_listen.specs.Listening.{Holds};
ghost use Rattle.aio_source.specs.Rules.{direction_of};
ghost use Rattle.aio_future.specs.Listens.{ClosesListener, ReadyPolls};

use crate::entered::Async;
use crate::listens::{first_listen, is_listed, listen_again, unlisten};
use aio_base::{Arm, Dir, Poll, Waker};
use aio_source::{ListenRefusal, Listened};

/// What is ready once a round that began after its first poll has handled an event of its direction, and
/// stays so (`async-io` 2, `reactor.rs`, the future `Ready`). Letting it go leaves its listener; `close`
/// takes it out.
#[derive(Debug, Drop)]
pub struct Ready {
    pub(crate) dir: Dir,
    pub(crate) listened: Option<Listened>,
}

impl Ready {
    /// One that was not polled yet. It takes no memory.
    pub fn new(dir: Dir) -> Ready
        ensures { result ≡ record { dir = dir; listened = None } }
    {
        Ready {
            dir,
            listened: None,
        }
    }

    /// What its listener remembers of its first poll, once that has made one.
    pub fn listened(&self) -> Option<Listened>
        ensures { result ≡ self.now.listened }
    {
        self.listened
    }

    /// Whether it was polled, and a listener of its direction with its ticket stands in this source, in
    /// constant time. Then it may be polled again over the source, or closed. Two sources can give equal
    /// tickets: this is asked of the source that the first poll was over.
    pub fn is_held<C>(&self, a: &Async<'_, C>) -> bool
        ensures { IsTrue result ↔ IsSome self.now.listened
            × IfSome self.now.listened (λ l. Holds (direction_of
            a.now.cell.now.state.directions self.now.dir).listeners.entries l.ticket) }
    {
        match self.listened {
            None => false,
            Some(listened) => is_listed(a.cell, self.dir, listened),
        }
    }

    /// Whether an event of the direction was handled. The first poll makes a listener of the source,
    /// and is pending; from then on it is polled over the same source, in which its listener stands
    /// (`is_held`).
    ///
    /// `ArmFault` only where the connection's count of faults rose; the listener stays, also of the
    /// first poll. `TicketsSpent` exactly where 2^64 - 1 tickets of the direction were drawn, and
    /// `OutOfMemory` where memory ran out; both come at a first poll alone, and leave all as it was.
    pub fn poll<C: Arm>(
        &mut self,
        a: &mut Async<'_, C>,
        w: Waker,
    ) -> Poll<Result<(), ListenRefusal>>
        requires { IfSome self.old.listened (λ l. Holds (direction_of
            a.old.cell.now.state.directions self.old.dir).listeners.entries l.ticket) }
        ensures polls { ReadyPolls C.arm_step C.interests C.rest C.fault_count C.is_sure
            self.old.dir w a.old.ticker self.old.listened
            a.old.cell.now.state a.old.cell.now.io result self.new.listened
            a.new.cell.now.state a.new.cell.now.io }
        ensures dir { self.new.dir ≡ self.old.dir }
        ensures key { a.new.cell.now.state.key ≡ a.old.cell.now.state.key }
        ensures same_reference { a.new.cell.ghost_name ≡ a.old.cell.ghost_name }
        ensures ticker { a.new.ticker ≡ a.old.ticker }
    {
        match self.listened {
            None => match first_listen(a.cell, self.dir, a.ticker, w) {
                Ok(listened) => {
                    self.listened = Some(listened);
                    Poll::Pending
                }
                Err(ListenRefusal::ArmFault { fault, listened }) => {
                    self.listened = Some(listened);
                    Poll::Ready(Err(ListenRefusal::ArmFault { fault, listened }))
                }
                Err(ListenRefusal::TicketsSpent) => Poll::Ready(Err(ListenRefusal::TicketsSpent)),
                Err(ListenRefusal::OutOfMemory) => Poll::Ready(Err(ListenRefusal::OutOfMemory)),
            },
            Some(listened) => match listen_again(a.cell, self.dir, listened, w) {
                Poll::Ready(Ok(())) => Poll::Ready(Ok(())),
                Poll::Ready(Err(fault)) => {
                    Poll::Ready(Err(ListenRefusal::ArmFault { fault, listened }))
                }
                Poll::Pending => Poll::Pending,
            },
        }
    }

    /// Takes the listener out, where it was made, of the source in which it stands. It takes no memory.
    pub fn close<C: Arm>(self, a: &mut Async<'_, C>)
        requires { IfSome self.listened (λ l. Holds (direction_of
            a.old.cell.now.state.directions self.dir).listeners.entries l.ticket) }
        ensures closes { ClosesListener self.dir self.listened a.old.cell.now.state
            a.new.cell.now.state }
        ensures io { a.new.cell.now.io ≡ a.old.cell.now.io }
        ensures same_reference { a.new.cell.ghost_name ≡ a.old.cell.ghost_name }
        ensures ticker { a.new.ticker ≡ a.old.ticker }
    {
        if let Some(listened) = self.listened {
            unlisten(a.cell, self.dir, listened);
        }
    }
}
