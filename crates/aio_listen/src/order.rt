//! The order of a list of listeners: a node joins it at its end, or leaves it anywhere.

ghost use Rattle.std.specs.Prelude.{◌≡◌, ◌<◌, ◌-◌, ◌^◌, IfSome, IfNone};
ghost use Rattle.slab.specs.Slab.{ContainsKey};
ghost use Rattle.aio_listen.specs.Nodes.{node_at, slot_emptied, unlinked};
ghost use Rattle.aio_listen.specs.Order.{Appended, IsLinked};

use crate::link::Link;
use crate::node::{Node, set_next, set_previous};
use slab::Slab;

/// The largest key that a ticket's place and a link hold.
const MAX_KEY: usize = u32::MAX as usize - 1;

/// Puts a node that waits with no waker behind the last one; its key. There is none where memory
/// ran out or where no key is left that a ticket's place holds, and then the nodes stay.
pub(crate) fn append<W: Copy>(nodes: &mut Slab<Node<W>>, last: Link, serial: u64) -> Option<usize>
    requires { IfSome last (λ key. ContainsKey nodes.old key) }
    ensures added { IfSome result (λ key. Appended nodes.old nodes.new last key serial) }
    ensures fits { IfSome result (λ key. key < 2 ^ 32 - 1) }
    ensures refused { IfNone result (nodes.new ≡ record nodes.old { capacity = nodes.new.capacity }) }
{
    if nodes.vacant_key() > MAX_KEY {
        return None;
    }
    let node = Node {
        waker: None,
        previous: last,
        next: Link::none(),
        serial,
    };
    match nodes.insert(node) {
        Err(_) => None,
        Ok(key) => {
            set_next(nodes, last, Link::to(key));
            Some(key)
        }
    }
}

/// Takes a node out of the slab.
fn release<W: Copy>(nodes: &mut Slab<Node<W>>, key: usize) -> Node<W>
    requires { ContainsKey nodes.old key }
    ensures node { result ≡ node_at nodes.old key }
    ensures nodes { nodes.new ≡ slot_emptied nodes.old key }
{
    nodes.remove(key)
}

/// Takes a node out, and links its neighbours to each other.
pub(crate) fn unlink<W: Copy>(nodes: &mut Slab<Node<W>>, key: usize) -> Node<W>
    requires { IsLinked nodes.old key }
    ensures node { result ≡ node_at nodes.old key }
    ensures nodes { nodes.new ≡ unlinked nodes.old key }
{
    let node = release(nodes, key);
    set_next(nodes, node.previous, node.next);
    set_previous(nodes, node.next, node.previous);
    node
}
