//! What the connections, the half that waits and the notifiers of one poll share.

use crate::names::WAKER;
use crate::parts::MioRefusal;
use crate::wakes::Wakes;
use aio_base::{Dir, Interest, Key};
use aio_edges::Edges;
use mio::{Poll, Registry, Waker};
use std::alloc::Global;
use std::io;
use std::sync::Arc;

/// A second owner of the registrations of a poll, and what is kept beside them.
#[derive(Drop)]
pub(crate) struct Selector<E> {
    pub(crate) registry: Registry,
    pub(crate) edges: E,
    pub(crate) wakes: Wakes,
}

/// A second owner of the registrations of a poll, and the poll's waker.
fn second_owner(poll: &Poll) -> io::Result<(Registry, Waker)> {
    let registry = poll.registry().try_clone()?;
    let waker = Waker::new(&registry, WAKER)?;
    Ok((registry, waker))
}

impl Selector<Edges> {
    /// What is to be shared of a poll.
    pub(crate) fn shared(
        alloc: Global,
        poll: &Poll,
    ) -> Result<Arc<Selector<Edges>, Global>, MioRefusal> {
        let edges = Edges::new(alloc)?;
        let Ok((registry, waker)) = second_owner(poll) else {
            return Err(MioRefusal::System);
        };
        let selector = Selector {
            registry,
            edges,
            wakes: Wakes::new(waker),
        };
        match Arc::new(alloc, selector) {
            Ok(selector) => Ok(selector),
            Err(_) => Err(MioRefusal::OutOfMemory),
        }
    }

    /// These directions are armed from now on, and no other. Where the key is due by that, a wait that is under
    /// way ends and gives it, and else the next one does. An error is that of the waker's write.
    pub(crate) fn arm(&self, key: Key, on: Interest) -> io::Result<()> {
        self.interrupt_if(self.edges.arm(key, on))
    }

    /// A direction may still be ready; else as `arm`.
    pub(crate) fn keep(&self, key: Key, dir: Dir) -> io::Result<()> {
        self.interrupt_if(self.edges.keep(key, dir))
    }

    /// Ends the wait that is under way, if one is and a key is due.
    fn interrupt_if(&self, is_due: bool) -> io::Result<()> {
        if is_due {
            return self.wakes.interrupt();
        }
        Ok(())
    }
}
