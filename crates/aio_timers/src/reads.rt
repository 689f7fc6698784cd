//! What a book reads of one node in use.

ghost use Rattle.std.specs.Prelude.{◌≡◌, ◌<◌, Some, length};
ghost use Rattle.aio_base.specs.World.{Registration};
ghost use Rattle.aio_timers.specs.Held.{held_at, live_of, pair_of};

use crate::nodes::Nodes;
use aio_base::{Moment, TimerId, Waker};

/// The deadline and the id of a node.
pub(crate) fn pair_at(nodes: &Nodes, at: usize) -> (Moment, TimerId)
    requires { at < length nodes.now }
    ensures { result ≡ pair_of (held_at nodes.now at) }
{
    let node = nodes.get(at);
    (node.deadline, node.id)
}

/// The waker of a node in use.
pub(crate) fn waker_at(nodes: &Nodes, at: usize) -> Waker
    requires within { at < length nodes.now }
    requires live { (r : Registration) × (live_of (held_at nodes.now at) ≡ Some r) }
    ensures { (r : Registration) → live_of (held_at nodes.now at) ≡ Some r
        → result ≡ r.waker }
{
    match nodes.get(at).waker {
        Some(waker) => waker,
        None => unreachable!(),
    }
}
