//! Joining of two trees, and of all trees of a row in two passes.

ghost use Rattle.std.specs.Prelude.{◌≡◌, ◌<◌, ◌^◌, length, ℕ, List, None, Some, IfSome};
ghost use Rattle.aio_timers.specs.declared.node.Node.{Node};
ghost use Rattle.aio_timers.specs.Held.{held_at, node_at};
ghost use Rattle.aio_timers.specs.Precedes.{precedes};
ghost use Rattle.aio_timers.specs.Writes.{joined, lower, upper, paired, behind_pair, upper_of_pair};
ghost use Rattle.aio_timers.specs.Rows.{IsInside};
ghost use Rattle.aio_timers.specs.Family.{Family, AreTops, Pairs, Combines, Merges};

use crate::link::Link;
use crate::nodes::Nodes;
use crate::siblings::{next_of, set_alone};

/// Of two roots the one that fires first, and then the other one.
fn in_order(nodes: &Nodes, a: usize, b: usize) -> (usize, usize)
    requires first { a < length nodes.now }
    requires second { b < length nodes.now }
    ensures upper { result.0 ≡ upper nodes.now a b }
    ensures lower { result.1 ≡ lower nodes.now a b }
{
    if is_before(nodes, b, a) {
        (b, a)
    } else {
        (a, b)
    }
}

/// Whether a node fires before another one. The ids are read only where the deadlines are equal.
fn is_before(nodes: &Nodes, at: usize, other: usize) -> bool
    requires here { at < length nodes.now }
    requires other { other < length nodes.now }
    ensures { result ≡ precedes (held_at nodes.now at) (held_at nodes.now other) }
{
    let own = nodes.get(at).deadline.get();
    let limit = nodes.get(other).deadline.get();
    if own == limit {
        return nodes.get(at).id.0 < nodes.get(other).id.0;
    }
    own < limit
}

/// Makes one tree of two, with one comparison: the root that fires later becomes the first child of
/// the other root, which is the answer. It stays a function of its own, as the choice cannot be
/// foretold: made part of the loops below, it would be a jump and no longer a move.
#[inline(never)]
pub(crate) fn join(nodes: &mut Nodes, a: usize, b: usize) -> usize
    requires few { length nodes.old < 2 ^ 32 }
    requires first { IsInside nodes.old a }
    requires second { IsInside nodes.old b }
    ensures nodes { nodes.new ≡ joined nodes.old a b }
    ensures root { result ≡ upper nodes.old a b }
{
    let (top, child) = in_order(nodes, a, b);
    nodes.put_under(top, child);
    top
}

/// One step of the first pass: a root is joined with its next sibling, if there is one, and comes in
/// front of the roots that are done. The answer leads to the siblings behind, and to the result.
fn pair_step(nodes: &mut Nodes, a: usize, done: Link) -> (Link, Link)
    requires few { length nodes.old < 2 ^ 32 }
    requires first { IsInside nodes.old a }
    requires second { IfSome (Node.next (node_at nodes.old a)) (λ b. IsInside nodes.old b) }
    ensures nodes { nodes.new ≡ paired nodes.old a (Node.next (node_at nodes.old a)) done }
    ensures rest { result.0 ≡ behind_pair nodes.old (Node.next (node_at nodes.old a)) }
    ensures done { result.1 ≡ Some (upper_of_pair nodes.old a (Node.next (node_at nodes.old a))) }
{
    let second = next_of(nodes, a);
    match second.get() {
        None => {
            nodes.set_next(a, done);
            (second, Link::to(a))
        }
        Some(b) => {
            let rest = next_of(nodes, b);
            let top = join(nodes, a, b);
            nodes.set_next(top, done);
            (rest, Link::to(top))
        }
    }
}

/// The first pass, from the left: joins each two neighbours. The answer leads to the row of the
/// results, of which the last made comes first; links back are left as they are.
fn pair(nodes: &mut Nodes, first: Link) -> Link
    requires few { length nodes.old < 2 ^ 32 }
    requires tops { (f : Family) × (ks : List ℕ) × AreTops nodes.old f first ks }
    ensures { (f : Family) (ks : List ℕ) → AreTops nodes.old f first ks
        → Pairs nodes.old nodes.new f ks None result }
{
    let mut rest = first;
    let mut done = Link::none();
    while let Some(a) = rest.get() {
        (rest, done) = pair_step(nodes, a, done);
    }
    done
}

/// The second pass: joins the trees of a row with each other, from the first of the row on.
fn combine(nodes: &mut Nodes, first: Link) -> Option<usize>
    requires few { length nodes.old < 2 ^ 32 }
    requires tops { (f : Family) × (ks : List ℕ) × AreTops nodes.old f first ks }
    ensures { (f : Family) (ks : List ℕ) → AreTops nodes.old f first ks
        → Combines nodes.old nodes.new f ks None result }
{
    let mut top = first.get()?;
    let mut rest = next_of(nodes, top);
    while let Some(at) = rest.get() {
        rest = next_of(nodes, at);
        top = join(nodes, top, at);
    }
    Some(top)
}

/// Merges the trees of a row, as a pairing heap does: neighbours first, then all that came of these.
/// The answer is the root that is left, which has no siblings then; `None` where the row is empty.
pub(crate) fn merge(nodes: &mut Nodes, first: Link) -> Option<usize>
    requires few { length nodes.old < 2 ^ 32 }
    requires tops { (f : Family) × (ks : List ℕ) × AreTops nodes.old f first ks }
    ensures { (f : Family) (ks : List ℕ) → AreTops nodes.old f first ks
        → Merges nodes.old nodes.new f ks result }
{
    let pairs = pair(nodes, first);
    let top = combine(nodes, pairs)?;
    set_alone(nodes, top);
    Some(top)
}
