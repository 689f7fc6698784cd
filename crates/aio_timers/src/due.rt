//! The count of the timers that are due: a walk over the heap that goes from a node that is due,
//! and from no other, to its children, from the last one that is due on, and back by the links.

ghost use Rattle.std.specs.Prelude.{◌≡◌, ◌<◌, ℕ, List, [], length, Option, None, Some, true, if◌then◌else◌};
ghost use Rattle.aio_timers.specs.Held.{IsUsed, held_at, helds};
ghost use Rattle.aio_timers.specs.Rows.{IsRunOnce};
ghost use Rattle.aio_timers.specs.Heap.{IsHeap};
ghost use Rattle.aio_timers.specs.Due.{due_in, is_due, IsLastDue, NoneDue, Trail, IsOnTrail, WalksOn, GoesPast};

use crate::link::Link;
use crate::nodes::Nodes;
use crate::siblings::{child_of, is_link_to, next_of, prev_of};
use aio_base::Moment;

/// The last node of a row that is due. A row of which none is due is not walked back.
fn last_due_of(nodes: &Nodes, first: Link, now: Moment) -> Link
    requires { (ks : List ℕ) × IsRunOnce nodes.now first ks }
    ensures { (ks : List ℕ) → IsRunOnce nodes.now first ks
        → IsLastDue (held_at nodes.now) now ks result }
{
    let mut last = Link::none();
    let mut link = first;
    while let Some(at) = link.get() {
        if is_due_at(nodes, at, now) {
            last = link;
        }
        link = next_of(nodes, at);
    }
    last
}

/// Whether each child of a node fires later than at this deadline. It looks at the children alone.
pub(crate) fn has_later_children(nodes: &Nodes, at: usize, deadline: Moment) -> bool
    requires { (root : Option ℕ) × (free : Option ℕ) × IsHeap nodes.now root free
        × IsUsed (held_at nodes.now at) }
    ensures { (root free : Option ℕ) (h : IsHeap nodes.now root free)
        → IsUsed (held_at nodes.now at) → result ≡ true
        → NoneDue (held_at nodes.now) deadline (h.family.below at) }
{
    match last_due_of(nodes, child_of(nodes, at), deadline).get() {
        None => true,
        Some(_) => false,
    }
}

/// The sibling before a node, or before the nearest node above that has one.
fn retreat(nodes: &Nodes, from: usize) -> Option<usize>
    requires { (root : Option ℕ) × (free : Option ℕ) × (h : IsHeap nodes.now root free)
        × (t : Trail) × IsOnTrail nodes.now h.family from t }
    ensures { (root free : Option ℕ) (h : IsHeap nodes.now root free) (t : Trail)
        → IsOnTrail nodes.now h.family from t → WalksOn nodes.now h.family [] t result }
{
    let mut at = from;
    for _ in 0..nodes.len() {
        match prev_of(nodes, at).get() {
            None => return None,
            Some(before) => {
                if !is_link_to(child_of(nodes, before), at) {
                    return Some(before);
                }
                at = before;
            }
        }
    }
    unreachable!()
}

/// Where the walk goes from a node: to its last child that is due, where the node is due and has
/// one, else on to what is before it.
fn step(nodes: &Nodes, at: usize, due: bool, now: Moment) -> Option<usize>
    requires { (root : Option ℕ) × (free : Option ℕ) × (h : IsHeap nodes.now root free)
        × (t : Trail) × IsOnTrail nodes.now h.family at t }
    ensures { (root free : Option ℕ) (h : IsHeap nodes.now root free) (t : Trail)
        → IsOnTrail nodes.now h.family at t
        → GoesPast nodes.now h.family now (if due then h.family.below at else []) t result }
{
    if !due {
        return retreat(nodes, at);
    }
    match last_due_of(nodes, child_of(nodes, at), now).get() {
        None => retreat(nodes, at),
        Some(last) => Some(last),
    }
}

/// How many nodes are due at a moment. It looks at those and their children alone.
pub(crate) fn count_due(nodes: &Nodes, root: Option<usize>, now: Moment) -> usize
    requires { (free : Option ℕ) × IsHeap nodes.now root free }
    ensures { result ≡ due_in now (helds nodes.now) }
{
    let mut at = match root {
        None => return 0,
        Some(top) => top,
    };
    let mut count = 0;
    for _ in 0..nodes.len() {
        let due = is_due_at(nodes, at, now);
        if due {
            count += 1;
        }
        match step(nodes, at, due, now) {
            None => return count,
            Some(next) => at = next,
        }
    }
    unreachable!()
}

/// Whether the timer of a node is due at a moment.
pub(crate) fn is_due_at(nodes: &Nodes, at: usize, now: Moment) -> bool
    requires { at < length nodes.now }
    ensures { result ≡ is_due now (held_at nodes.now at) }
{
    nodes.get(at).is_due(now)
}
