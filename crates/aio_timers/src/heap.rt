//! The heap of the nodes in use and the list of the free ones: a node joins the heap, or leaves it.

ghost use Rattle.std.specs.Prelude.{◌≡◌, ◌<◌, ◌≢◌, ◌^◌, Some, length};
ghost use Rattle.aio_timers.specs.Held.{node_at, held_of, held_at, lone_node, gone, IsUsed};
ghost use Rattle.aio_timers.specs.Writes.{put_on_free};
ghost use Rattle.aio_timers.specs.Heap.{IsHeap, Holds, IsNewPair};

use crate::link::Link;
use crate::merge::{join, merge};
use crate::node::Node;
use crate::nodes::Nodes;
use crate::siblings::{child_of, leave_row};

/// Puts a timer into the place at the head of the free list, and joins it with the heap, in constant
/// time. The answer is the new root.
pub(crate) fn place(nodes: &mut Nodes, root: Option<usize>, at: usize, node: Node) -> usize
    requires few { length nodes.old < 2 ^ 32 }
    requires within { at < length nodes.old }
    requires heap { IsHeap nodes.old root (Some at) }
    requires used { IsUsed (held_of node) }
    requires lone { node ≡ lone_node (held_of node) }
    requires pair { IsNewPair nodes.old (held_of node) }
    ensures { Holds nodes.old nodes.new at (held_of node) (Some result)
        (Node.next (node_at nodes.old at)) }
{
    nodes.set(at, node);
    match root {
        None => at,
        Some(top) => join(nodes, top, at),
    }
}

/// Takes the timer from a node, which is the head of the free list then.
fn release(nodes: &mut Nodes, at: usize, free: Link)
    requires { at < length nodes.old }
    ensures { nodes.new ≡ put_on_free nodes.old at free }
{
    nodes.set_waker(at, None);
    nodes.set_next(at, free);
}

/// Takes the timer of the root out of the heap: the node joins the free list, and the trees below it
/// are merged. The answer is the new root.
pub(crate) fn take_root(nodes: &mut Nodes, root: usize, free: Link) -> Option<usize>
    requires few { length nodes.old < 2 ^ 32 }
    requires within { root < length nodes.old }
    requires heap { IsHeap nodes.old (Some root) free }
    ensures { Holds nodes.old nodes.new root (gone (held_at nodes.old root)) result (Some root) }
{
    let first = child_of(nodes, root);
    release(nodes, root, free);
    merge(nodes, first)
}

/// Takes the timer of another node out of the heap, with no search: the node leaves its row by its
/// own links and joins the free list, and the trees below it are merged and joined with the rest.
/// The answer is the new root.
pub(crate) fn take_inner(nodes: &mut Nodes, root: usize, at: usize, free: Link) -> usize
    requires few { length nodes.old < 2 ^ 32 }
    requires within { at < length nodes.old }
    requires heap { IsHeap nodes.old (Some root) free }
    requires used { IsUsed (held_at nodes.old at) }
    requires other { at ≢ root }
    ensures { Holds nodes.old nodes.new at (gone (held_at nodes.old at)) (Some result) (Some at) }
{
    leave_row(nodes, at);
    let first = child_of(nodes, at);
    release(nodes, at, free);
    match merge(nodes, first) {
        None => root,
        Some(top) => join(nodes, root, top),
    }
}
