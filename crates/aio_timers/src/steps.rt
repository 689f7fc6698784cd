//! The steps of a book: a timer is found, it comes, or it goes.

ghost use Rattle.std.specs.Prelude.{◌≡◌, ◌<◌, ℕ, Option, None, Some, is_some, true, length, MatchOption};
ghost use Rattle.aio_base.specs.World.{Registration};
ghost use Rattle.aio_timers.specs.Held.{held_at, helds, live_of};
ghost use Rattle.aio_timers.specs.Due.{NoneDue};
ghost use Rattle.aio_timers.specs.Sound.{registrations, HasIdsTo, IsSound, IsAbsent, IsPairAt, Gains, Drops, Renews};

use crate::buckets::Buckets;
use crate::chains::{bucket_of, join, leave, seek};
use crate::heap::{place, take_inner, take_root};
use crate::link::Link;
use crate::node::Node;
use crate::nodes::Nodes;
use crate::siblings::next_of;
use aio_base::{Moment, TimerId, Waker};

/// The node in use with this deadline and this id, along the chain of one bucket.
pub(crate) fn find(nodes: &Nodes, buckets: &Buckets, deadline: Moment, id: TimerId) -> Option<usize>
    requires { (root : Option ℕ) × (free : Option ℕ) × (used : ℕ)
        × IsSound nodes.now buckets.now root free used }
    ensures { (root free : Option ℕ) (used : ℕ) → IsSound nodes.now buckets.now root free used
        → MatchOption result (IsAbsent deadline id.0 (helds nodes.now))
        (λ at. IsPairAt nodes.now deadline id.0 at) }
{
    if buckets.len() == 0 {
        return None;
    }
    let bucket = bucket_of(id, buckets);
    let head = buckets.head(bucket);
    seek(nodes, head, deadline, id)
}

/// The same where no id of a timer is greater than `last`: a later id is not searched for.
pub(crate) fn find_to(
    nodes: &Nodes,
    buckets: &Buckets,
    last: u64,
    deadline: Moment,
    id: TimerId,
) -> Option<usize>
    requires { (root : Option ℕ) × (free : Option ℕ) × (used : ℕ)
        × IsSound nodes.now buckets.now root free used }
    ensures { (root free : Option ℕ) (used : ℕ)
        → IsSound nodes.now buckets.now root free used
        → HasIdsTo last (registrations (helds nodes.now))
        → MatchOption result (IsAbsent deadline id.0 (helds nodes.now))
        (λ at. IsPairAt nodes.now deadline id.0 at) }
{
    if last < id.0 {
        return None;
    }
    find(nodes, buckets, deadline, id)
}

/// Registers a timer whose deadline and id are not there yet, in constant time. The answer is the
/// new root and the next free node.
pub(crate) fn add(
    nodes: &mut Nodes,
    buckets: &mut Buckets,
    root: Option<usize>,
    free: Link,
    timer: (Moment, TimerId, Waker),
) -> (usize, Link)
    requires sound { (used : ℕ) × IsSound nodes.old buckets.old root free used }
    requires room { is_some free ≡ true }
    requires absent { IsAbsent timer.0 timer.1.0 (helds nodes.old) }
    ensures { (used : ℕ) → IsSound nodes.old buckets.old root free used
        → Gains nodes.old nodes.new buckets.new (Some result.0) result.1 used
        (record { id = timer.1.0; deadline = timer.0; waker = timer.2 }) }
{
    let (deadline, id, waker) = timer;
    match free.get() {
        None => unreachable!(),
        Some(at) => {
            let bucket = bucket_of(id, buckets);
            let head = buckets.head(bucket);
            let node = Node::lone(deadline, id, waker, head);
            let next = next_of(nodes, at);
            let top = place(nodes, root, at, node);
            buckets.set_head(bucket, free);
            (top, next)
        }
    }
}

/// Takes the timer of a node in use out of the book. The answer is the new root and the first free
/// node, which is this one.
pub(crate) fn take(
    nodes: &mut Nodes,
    buckets: &mut Buckets,
    root: Option<usize>,
    free: Link,
    at: usize,
) -> (Option<usize>, Link)
    requires within { at < length nodes.old }
    requires sound { (used : ℕ) × IsSound nodes.old buckets.old root free used }
    requires live { (r : Registration) × (live_of (held_at nodes.old at) ≡ Some r) }
    ensures { (used : ℕ) (r : Registration) → IsSound nodes.old buckets.old root free used
        → live_of (held_at nodes.old at) ≡ Some r
        → Drops nodes.old nodes.new buckets.new result.0 result.1 used r }
{
    leave(nodes, buckets, at);
    match root {
        None => unreachable!(),
        Some(root) => {
            if at == root {
                let top = take_root(nodes, root, free);
                return (top, Link::to(at));
            }
            let top = take_inner(nodes, root, at, free);
            (Some(top), Link::to(at))
        }
    }
}

/// Gives the timer of a node another id and another waker: it goes from the chain of one bucket to
/// that of another, and stays where it is in the heap.
pub(crate) fn renew(nodes: &mut Nodes, buckets: &mut Buckets, at: usize, id: TimerId, waker: Waker)
    requires within { at < length nodes.old }
    requires sound { (root : Option ℕ) × (free : Option ℕ) × (used : ℕ)
        × IsSound nodes.old buckets.old root free used }
    requires live { (r : Registration) × (live_of (held_at nodes.old at) ≡ Some r) }
    ensures { (root free : Option ℕ) (used : ℕ) (r : Registration)
        → (s : IsSound nodes.old buckets.old root free used)
        → live_of (held_at nodes.old at) ≡ Some r → r.id < id.0
        → IsAbsent r.deadline id.0 (helds nodes.old)
        → NoneDue (held_at nodes.old) r.deadline (s.heap.family.below at)
        → Renews nodes.old nodes.new buckets.new root free used r id.0 waker }
{
    leave(nodes, buckets, at);
    nodes.rename(at, id, waker);
    join(nodes, buckets, at);
}
