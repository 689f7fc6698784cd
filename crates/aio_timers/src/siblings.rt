//! The rows of siblings: a node comes below another one, or leaves its row.

ghost use Rattle.std.specs.Prelude.{◌≡◌, ◌<◌, length, IfSome};
ghost use Rattle.aio_timers.specs.declared.node.Node.{Node};
ghost use Rattle.aio_timers.specs.Held.{node_at};
ghost use Rattle.aio_timers.specs.Writes.{with_back, alone, skips, without, leads_to};

use crate::link::Link;
use crate::nodes::Nodes;

/// Where the row of the children of a node begins.
pub(crate) fn child_of(nodes: &Nodes, at: usize) -> Link
    requires { at < length nodes.now }
    ensures { result ≡ Node.child (node_at nodes.now at) }
{
    nodes.get(at).child
}

/// Where the row of a node goes on behind it. A free node has the list of free nodes for its row.
pub(crate) fn next_of(nodes: &Nodes, at: usize) -> Link
    requires { at < length nodes.now }
    ensures { result ≡ Node.next (node_at nodes.now at) }
{
    nodes.get(at).next
}

/// The way back from a node of the heap: to the sibling in front of it, or, from the first child of a
/// row, to the parent.
pub(crate) fn prev_of(nodes: &Nodes, at: usize) -> Link
    requires { at < length nodes.now }
    ensures { result ≡ Node.prev (node_at nodes.now at) }
{
    nodes.get(at).prev
}

/// Writes the way back from the node that `to` leads to, if there is one.
fn set_back(nodes: &mut Nodes, to: Link, link: Link)
    requires { IfSome to (λ i. i < length nodes.old) }
    ensures { nodes.new ≡ with_back nodes.old to link }
{
    if let Some(at) = to.get() {
        nodes.set_prev(at, link);
    }
}

/// Makes a root the only one of its row.
pub(crate) fn set_alone(nodes: &mut Nodes, at: usize)
    requires { at < length nodes.old }
    ensures { nodes.new ≡ alone nodes.old at }
{
    nodes.set_next(at, Link::none());
    nodes.set_prev(at, Link::none());
}

/// Whether a link goes to the node `at`.
pub(crate) fn is_link_to(link: Link, at: usize) -> bool
    ensures { result ≡ leads_to link at }
{
    link.get() == Some(at)
}

/// Lets what leads to a node lead to the one behind it. What is before it is its parent where its own
/// link does not lead on to it.
fn skip(nodes: &mut Nodes, at: usize)
    requires here { at < length nodes.old }
    requires prev { IfSome (Node.prev (node_at nodes.old at)) (λ i. i < length nodes.old) }
    ensures { nodes.new ≡ skips nodes.old at (Node.prev (node_at nodes.old at)) }
{
    let node = nodes.get(at);
    if let Some(before) = node.prev.get() {
        if is_link_to(nodes.get(before).next, at) {
            nodes.set_next(before, node.next);
        } else {
            nodes.set_child(before, node.next);
        }
    }
}

/// Takes a node, with all below it, out of its row. Its own links stay as they were.
pub(crate) fn leave_row(nodes: &mut Nodes, at: usize)
    requires here { at < length nodes.old }
    requires next { IfSome (Node.next (node_at nodes.old at)) (λ i. i < length nodes.old) }
    requires prev { IfSome (Node.prev (node_at nodes.old at)) (λ i. i < length nodes.old) }
    ensures { nodes.new ≡ without nodes.old at }
{
    let node = nodes.get(at);
    skip(nodes, at);
    set_back(nodes, node.next, node.prev);
}
