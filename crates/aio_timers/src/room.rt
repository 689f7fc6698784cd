//! Growth: free nodes, and a row of buckets for them.

ghost use Rattle.std.specs.Prelude.{◌≡◌, ◌<◌, ◌≤◌, ◌+◌, ◌^◌, ℕ, Option, None, Some, length, OnOk, OnErr, IfSome};
ghost use Rattle.std.specs.Int.{IsPowerOfTwo};
ghost use Rattle.aio_timers.specs.Held.{held_at};
ghost use Rattle.aio_timers.specs.Chains.{IsTable, used_of};
ghost use Rattle.aio_timers.specs.Growth.{IsBlankRow, Grows, Rehashes};
ghost use Rattle.aio_timers.specs.Sound.{IsSound};

use crate::buckets::Buckets;
use crate::chains::join;
use crate::link::Link;
use crate::nodes::Nodes;
use aio_base::OutOfMemory;

/// How many nodes there are to be, where so many more are needed: at least twice as many as there
/// are, so that a node costs constant time on the average. `None` past 2^32 - 1.
pub(crate) fn wanted(len: usize, missing: usize) -> Option<usize>
    requires len { len < 2 ^ 32 }
    requires missing { missing < 2 ^ 32 }
    ensures enough { IfSome result (λ total. len + missing ≤ total) }
    ensures few { IfSome result (λ total. total < 2 ^ 32) }
{
    let most = u32::MAX as usize;
    let total = len + missing;
    if most < total {
        return None;
    }
    Some((len + len).min(most).max(total))
}

/// Makes the nodes so many in all, and the buckets at least as many. The answer is the first free
/// node. `OutOfMemory` where memory ran out: the timers and the number of nodes then stand as before,
/// and buckets that came stay.
pub(crate) fn grow(
    nodes: &mut Nodes,
    buckets: &mut Buckets,
    free: Link,
    total: usize,
) -> Result<Link, OutOfMemory>
    requires sound { (root : Option ℕ) × (used : ℕ)
        × IsSound nodes.old buckets.old root free used }
    requires more { length nodes.old < total }
    requires few { total < 2 ^ 32 }
    ensures { (root : Option ℕ) (used : ℕ)
        → IsSound nodes.old buckets.old root free used
        → Grows nodes.old nodes.new buckets.new root free used total result }
{
    match widen(nodes, buckets, total) {
        Err(refused) => Err(refused),
        Ok(()) => nodes.grow(free, total),
    }
}

/// Makes the buckets at least so many, and puts every node in use into its new bucket. Their number
/// is a power of two, so that the bucket of an id takes no division.
fn widen(nodes: &mut Nodes, buckets: &mut Buckets, total: usize) -> Result<(), OutOfMemory>
    requires some { 0 < total }
    requires bound { total < 2 ^ 32 }
    requires few { length nodes.old < 2 ^ 32 }
    requires table { IsTable (held_at nodes.old) (length nodes.old) buckets.old
        (λ j. used_of (held_at nodes.old j)) }
    requires power { 0 < length buckets.old → IsPowerOfTwo (length buckets.old) }
    ensures table { Rehashes nodes.old nodes.new buckets.new }
    ensures row { OnOk result (total ≤ length buckets.new) }
    ensures power { OnOk result (IsPowerOfTwo (length buckets.new)) }
    ensures refused { OnErr result (buckets.new ≡ buckets.old) }
{
    if total <= buckets.len() {
        return Ok(());
    }
    buckets.clear_to(total.next_power_of_two())?;
    rehash(nodes, buckets);
    Ok(())
}

/// Puts every node in use into the bucket of its id.
fn rehash(nodes: &mut Nodes, buckets: &mut Buckets)
    requires few { length nodes.old < 2 ^ 32 }
    requires power { IsPowerOfTwo (length buckets.old) }
    requires blank { IsBlankRow buckets.old }
    ensures table { Rehashes nodes.old nodes.new buckets.new }
    ensures row { length buckets.new ≡ length buckets.old }
{
    for at in 0..nodes.len() {
        if nodes.get(at).waker.is_some() {
            join(nodes, buckets, at);
        }
    }
}
