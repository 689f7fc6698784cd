//! The nodes of a list of listeners, and the writes of one node.

ghost use Rattle.std.specs.Prelude.{◌≡◌, IfSome, Some, None, not, is_some};
ghost use Rattle.slab.specs.Slab.{ContainsKey};
ghost use Rattle.aio_listen.specs.Nodes.{node_at, with_node, with_next, with_previous};

use crate::link::Link;
use slab::Slab;

/// A listener in its list: the waker that it waits with, if any, the links to its neighbours in the
/// order of arrival, and its serial.
#[derive(Clone, Copy)]
pub(crate) struct Node<W: Copy> {
    // Fields lie in this order: a poll writes the waker alone, which lies beside the slab's own mark
    // of the entry, so that the two are never in two lines of the cache.
    pub(crate) waker: Option<W>,
    pub(crate) previous: Link,
    pub(crate) next: Link,
    pub(crate) serial: u64,
}

/// Has the node at the end of a link, if there is one, lead on to another.
pub(crate) fn set_next<W: Copy>(nodes: &mut Slab<Node<W>>, at: Link, next: Link)
    requires { IfSome at (λ key. ContainsKey nodes.old key) }
    ensures { nodes.new ≡ with_next nodes.old at next }
{
    if let Some(key) = at.key() {
        nodes[key].next = next;
    }
}

/// Has the node at the end of a link, if there is one, lead back to another.
pub(crate) fn set_previous<W: Copy>(nodes: &mut Slab<Node<W>>, at: Link, previous: Link)
    requires { IfSome at (λ key. ContainsKey nodes.old key) }
    ensures { nodes.new ≡ with_previous nodes.old at previous }
{
    if let Some(key) = at.key() {
        nodes[key].previous = previous;
    }
}

/// Has a node wait with this waker; whether it waited with none before.
pub(crate) fn store<W: Copy>(nodes: &mut Slab<Node<W>>, key: usize, waker: W) -> bool
    requires { ContainsKey nodes.old key }
    ensures nodes { nodes.new ≡ with_node nodes.old key (record (node_at nodes.old key) { waker = Some waker }) }
    ensures first { result ≡ not (is_some (node_at nodes.old key).waker) }
{
    let node = &mut nodes[key];
    let first = node.waker.is_none();
    node.waker = Some(waker);
    first
}

/// Takes the waker of a node, which waits with none then; the waker and the link on.
pub(crate) fn take_waker<W: Copy>(nodes: &mut Slab<Node<W>>, key: usize) -> (Option<W>, Link)
    requires { ContainsKey nodes.old key }
    ensures waker { result.0 ≡ (node_at nodes.old key).waker }
    ensures next { result.1 ≡ (node_at nodes.old key).next }
    ensures nodes { nodes.new ≡ with_node nodes.old key (record (node_at nodes.old key) { waker = None }) }
{
    let node = &mut nodes[key];
    (node.waker.take(), node.next)
}
