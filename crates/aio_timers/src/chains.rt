//! The buckets, and the chains through the nodes that find the timer of a deadline and an id.

ghost use Rattle.std.specs.Prelude.{◌≡◌, ◌≢◌, ◌<◌, ◌^◌, ℕ, length, None, Option, Some, List};
ghost use Rattle.std.specs.Int.{IsPowerOfTwo};
ghost use Rattle.aio_timers.specs.declared.node.Node.{Node};
ghost use Rattle.aio_timers.specs.Held.{Held, node_at, held_at, is_pair_of};
ghost use Rattle.aio_timers.specs.Chains.{IsBucket, IsTable, IsFound, IsAmong, IsJustBefore, ChainsChange, IsWithout, bucket_in};

use crate::buckets::Buckets;
use crate::link::Link;
use crate::nodes::Nodes;
use aio_base::{Moment, TimerId};

/// The bucket of an id: the rest of the division by the number of buckets, which is the low bits as
/// that is a power of two.
pub(crate) fn bucket_of(id: TimerId, buckets: &Buckets) -> usize
    requires { IsPowerOfTwo (length buckets.now) }
    ensures value { result ≡ bucket_in id.0 (length buckets.now) }
    ensures within { result < length buckets.now }
{
    (id.0 & (buckets.len() as u64 - 1)) as usize
}

/// The bucket that the chain of a node starts from.
fn bucket_at(nodes: &Nodes, at: usize, buckets: &Buckets) -> usize
    requires within { at < length nodes.now }
    requires power { IsPowerOfTwo (length buckets.now) }
    ensures value { result
        ≡ bucket_in (Held.id (held_at nodes.now at)) (length buckets.now) }
    ensures within { result < length buckets.now }
{
    bucket_of(nodes.get(at).id, buckets)
}

/// Where a chain goes on behind one of its nodes.
fn chain_of(nodes: &Nodes, at: usize) -> Link
    requires { at < length nodes.now }
    ensures { result ≡ Node.chain (node_at nodes.now at) }
{
    nodes.get(at).chain
}

/// Searches a chain for the node with this deadline and this id.
pub(crate) fn seek(nodes: &Nodes, head: Link, deadline: Moment, id: TimerId) -> Option<usize>
    requires { (ks : List ℕ) × IsBucket (held_at nodes.now) (length nodes.now) head ks }
    ensures { (ks : List ℕ) → IsBucket (held_at nodes.now) (length nodes.now) head ks
        → IsFound (held_at nodes.now) deadline id.0 ks result }
{
    let mut link = head;
    while let Some(at) = link.get() {
        if is_pair_at(nodes, at, deadline, id) {
            return Some(at);
        }
        link = chain_of(nodes, at);
    }
    None
}

/// Whether the timer of a node is the one with this deadline and this id.
fn is_pair_at(nodes: &Nodes, at: usize, deadline: Moment, id: TimerId) -> bool
    requires { at < length nodes.now }
    ensures { result ≡ is_pair_of deadline id.0 (held_at nodes.now at) }
{
    nodes.get(at).is_pair(deadline, id)
}

/// The node before another one, which is not the first, in its chain.
fn before(nodes: &Nodes, first: usize, at: usize) -> usize
    requires within { first < length nodes.now }
    requires other { first ≢ at }
    requires among { (front : List ℕ) × (back : List ℕ)
        × IsAmong (held_at nodes.now) (length nodes.now) (Some first) at front back }
    ensures { (front back : List ℕ)
        → IsAmong (held_at nodes.now) (length nodes.now) (Some first) at front back
        → IsJustBefore (held_at nodes.now) (length nodes.now) front result at }
{
    let mut here = first;
    while let Some(next) = chain_of(nodes, here).get() {
        if next == at {
            return here;
        }
        here = next;
    }
    unreachable!()
}

/// Takes a node out of the chain of its bucket, along that chain alone.
pub(crate) fn leave(nodes: &mut Nodes, buckets: &mut Buckets, at: usize)
    requires within { at < length nodes.old }
    requires power { IsPowerOfTwo (length buckets.old) }
    requires table { (used : ℕ → ℕ)
        × IsTable (held_at nodes.old) (length nodes.old) buckets.old used × (used at ≡ 1) }
    ensures table { (used left : ℕ → ℕ)
        → IsTable (held_at nodes.old) (length nodes.old) buckets.old used
        → used at ≡ 1 → IsWithout used left at
        → IsTable (held_at nodes.new) (length nodes.new) buckets.new left }
    ensures nodes { ChainsChange nodes.old nodes.new }
    ensures buckets { length buckets.new ≡ length buckets.old }
{
    let bucket = bucket_at(nodes, at, buckets);
    let behind = chain_of(nodes, at);
    match buckets.head(bucket).get() {
        None => unreachable!(),
        Some(first) => {
            if first == at {
                buckets.set_head(bucket, behind);
            } else {
                let before = before(nodes, first, at);
                nodes.set_chain(before, behind);
            }
        }
    }
}

/// Puts a node in front of the chain of its bucket.
pub(crate) fn join(nodes: &mut Nodes, buckets: &mut Buckets, at: usize)
    requires few { length nodes.old < 2 ^ 32 }
    requires within { at < length nodes.old }
    requires power { IsPowerOfTwo (length buckets.old) }
    ensures table { (used more : ℕ → ℕ)
        → IsTable (held_at nodes.old) (length nodes.old) buckets.old used
        → used at ≡ 0 → IsWithout more used at
        → IsTable (held_at nodes.new) (length nodes.new) buckets.new more }
    ensures nodes { ChainsChange nodes.old nodes.new }
    ensures buckets { length buckets.new ≡ length buckets.old }
{
    let place = bucket_at(nodes, at, buckets);
    let head = buckets.head(place);
    nodes.set_chain(at, head);
    buckets.set_head(place, Link::to(at));
}
