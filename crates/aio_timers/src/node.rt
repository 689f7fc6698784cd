//! A node: a registered timer, or a free place for one.

ghost use Rattle.std.specs.Prelude.{◌≡◌, Some, None, ◌==◌, ◌&&◌, nat_le};
ghost use Rattle.aio_timers.specs.Held.{held_of, lone_node, free_node, is_pair_of};

use crate::link::Link;
use aio_base::{Moment, TimerId, Waker};

/// A registered timer while it has a waker, else a free place. Its deadline, its id and its waker are
/// the timer's; all else are links to other nodes. How it lies in memory is the matter of `Nodes`.
#[derive(Clone, Copy)]
pub(crate) struct Node {
    /// The task to wake, where the node is in use.
    pub(crate) waker: Option<Waker>,
    pub(crate) id: TimerId,
    pub(crate) deadline: Moment,
    /// The next sibling, or the next free node.
    pub(crate) next: Link,
    /// The first child.
    pub(crate) child: Link,
    /// The sibling before it, or the parent of a first child.
    pub(crate) prev: Link,
    /// The next node of its bucket.
    pub(crate) chain: Link,
}

impl Node {
    /// A node in use that no other node of the heap knows, in front of `chain` in its bucket.
    pub(crate) fn lone(deadline: Moment, id: TimerId, waker: Waker, chain: Link) -> Node
        ensures { result ≡ lone_node
            (record { deadline = deadline; id = id.0; waker = Some waker; chain = chain }) }
    {
        Node {
            deadline,
            id,
            waker: Some(waker),
            chain,
            child: Link::none(),
            next: Link::none(),
            prev: Link::none(),
        }
    }

    /// A free node, in front of `next` in the free list.
    pub(crate) fn free(next: Link) -> Node
        ensures { result ≡ free_node next }
    {
        Node {
            deadline: start(),
            id: TimerId(0),
            waker: None,
            chain: Link::none(),
            child: Link::none(),
            next,
            prev: Link::none(),
        }
    }

    /// Whether it has this deadline and this id.
    pub(crate) fn is_pair(&self, deadline: Moment, id: TimerId) -> bool
        ensures { result ≡ is_pair_of deadline id.0 (held_of self.now) }
    {
        self.id.0 == id.0 && self.deadline.get() == deadline.get()
    }

    /// Whether its deadline is at most `now`.
    pub(crate) fn is_due(&self, now: Moment) -> bool
        ensures { result ≡ nat_le self.now.deadline now }
    {
        self.deadline.get() <= now.get()
    }
}

/// The start of the clock, which is the deadline of a node that was never in use.
fn start() -> Moment
    ensures { result ≡ 0 }
{
    match Moment::new(0) {
        Some(start) => start,
        None => unreachable!(),
    }
}
