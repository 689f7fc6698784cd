//! The nodes of a heap and of its free list, in one row.

ghost use Rattle.std.specs.Prelude.{◌≡◌, ◌<◌, ◌^◌, ◌≤◌, Option, Some, [], List, length, slice_set, vec_capacity, OnErr, IfOk, IfSome};
ghost use Rattle.aio_base.specs.declared.names.Waker.{Waker};
ghost use Rattle.aio_timers.specs.declared.node.Node.{Node};
ghost use Rattle.aio_timers.specs.Held.{node_at};
ghost use Rattle.aio_timers.specs.Writes.{with_write, with_child, with_next, with_prev, with_chain, renamed, under, leads_or};
ghost use Rattle.aio_timers.specs.Columns.{nodes_of, entry_of, siblings_of};
ghost use Rattle.aio_timers.specs.Growth.{Extends};

use crate::link::Link;
use crate::node::Node;
use aio_base::{Moment, OutOfMemory, TimerId, Waker};
use std::alloc::Global;
use std::marker::Model;

/// The nodes by their indices. Contracts see one list of nodes.
///
/// Merges and counts go from sibling to sibling, so each of their steps waits for the link of the
/// last one. These links lie in a column of their own, of eight bytes a node: more of them stay in
/// the caches, and the deadlines, for which no step waits, are read ahead. What is left of a node
/// takes 32 bytes, half a line of the cache.
#[derive(Drop)]
pub(crate) struct Nodes {
    entries: Vec<Entry>,
    rows: Vec<Siblings>,
}

/// A node without its links to siblings.
#[derive(Clone, Copy)]
struct Entry {
    waker: Option<Waker>,
    id: TimerId,
    deadline: Moment,
    child: Link,
    chain: Link,
}

/// The links of a node to its siblings.
#[derive(Clone, Copy)]
struct Siblings {
    next: Link,
    prev: Link,
}

impl Model for Nodes {
    ghost use Rattle.std.specs.Prelude.{◌≡◌, List, length};
    ghost use Rattle.aio_timers.specs.declared.node.Node.{Node};
    ghost use Rattle.aio_timers.specs.Columns.{nodes_of};

    ghost Value = { List Node };

    ghost view = { λ n. nodes_of n.entries.items n.rows.items };

    ghost invariant = { λ n. length n.rows.items ≡ length n.entries.items };
}

impl Nodes {
    /// No nodes. It takes no memory; `grow` takes it from `alloc`.
    pub(crate) fn new(alloc: Global) -> Nodes
        ensures { result ≡ [] }
    {
        Nodes {
            entries: Vec::new(alloc),
            rows: Vec::new(alloc),
        }
    }

    /// How many nodes there are.
    pub(crate) fn len(&self) -> usize
        ensures { result ≡ length self.now }
    {
        self.entries.len()
    }

    /// A node.
    #[inline(always)]
    pub(crate) fn get(&self, at: usize) -> Node
        requires { at < length self.now }
        ensures { result ≡ node_at self.now at }
    {
        let entry = self.entries[at];
        let row = self.rows[at];
        Node {
            waker: entry.waker,
            id: entry.id,
            deadline: entry.deadline,
            next: row.next,
            child: entry.child,
            prev: row.prev,
            chain: entry.chain,
        }
    }

    /// Writes a node.
    pub(crate) fn set(&mut self, at: usize, node: Node)
        requires { at < length self.old }
        ensures { self.new ≡ slice_set self.old at node }
    {
        let entry = entry_of(&node);
        let row = siblings_of(&node);
        let entries = self.entries.as_mut_slice();
        entries[at] = entry;
        let rows = self.rows.as_mut_slice();
        rows[at] = row;
    }

    /// Writes the first child of a node.
    pub(crate) fn set_child(&mut self, at: usize, link: Link)
        requires { at < length self.old }
        ensures { self.new ≡ with_child self.old at link }
    {
        let entries = self.entries.as_mut_slice();
        entries[at].child = link;
    }

    /// Writes where the row of a node goes on behind it.
    pub(crate) fn set_next(&mut self, at: usize, link: Link)
        requires { at < length self.old }
        ensures { self.new ≡ with_next self.old at link }
    {
        let rows = self.rows.as_mut_slice();
        rows[at].next = link;
    }

    /// Writes the way back from a node.
    pub(crate) fn set_prev(&mut self, at: usize, link: Link)
        requires { at < length self.old }
        ensures { self.new ≡ with_prev self.old at link }
    {
        let rows = self.rows.as_mut_slice();
        rows[at].prev = link;
    }

    /// Writes where a chain goes on behind one of its nodes.
    pub(crate) fn set_chain(&mut self, at: usize, link: Link)
        requires { at < length self.old }
        ensures { self.new ≡ with_chain self.old at link }
    {
        let entries = self.entries.as_mut_slice();
        entries[at].chain = link;
    }

    /// Writes the waker of a node, or that it is free.
    pub(crate) fn set_waker(&mut self, at: usize, waker: Option<Waker>)
        requires { at < length self.old }
        ensures { self.new ≡ with_write self.old at (λ n. record n { waker = waker }) }
    {
        let entries = self.entries.as_mut_slice();
        entries[at].waker = waker;
    }

    /// Writes the id and the waker of a node.
    #[tactic(auto, using(crate::proofs::ColumnLemmas::entries_within))]
    pub(crate) fn rename(&mut self, at: usize, id: TimerId, waker: Waker)
        requires { at < length self.old }
        ensures { self.new ≡ renamed self.old at id.0 waker }
    {
        let entries = self.entries.as_mut_slice();
        let entry = &mut entries[at];
        entry.id = id;
        entry.waker = Some(waker);
    }

    /// Makes a node that has no parent the first child of another one. Where that one has no children,
    /// the link back is written to the node itself before its own: a write that is lost costs less
    /// than a jump that cannot be foretold.
    #[inline(always)]
    pub(crate) fn put_under(&mut self, parent: usize, at: usize)
        requires few { length self.old < 2 ^ 32 }
        requires parent { parent < length self.old }
        requires here { at < length self.old }
        requires first { IfSome (Node.child (node_at self.old parent)) (λ i. i < length self.old) }
        ensures { self.new ≡ under self.old parent at }
    {
        let entries = self.entries.as_mut_slice();
        let rows = self.rows.as_mut_slice();
        let first = entries[parent].child;
        rows[at].next = first;
        let behind = leads_or(first, at);
        rows[behind].prev = Link::to(at);
        rows[at].prev = Link::to(parent);
        entries[parent].child = Link::to(at);
    }

    /// Makes free nodes, until there are so many nodes. The answer is the first free one.
    /// `OutOfMemory` where memory ran out: the nodes then stand as before.
    pub(crate) fn grow(&mut self, free: Link, total: usize) -> Result<Link, OutOfMemory>
        requires few { total < 2 ^ 32 }
        requires more { length self.old ≤ total }
        ensures extends { IfOk result (λ first. Extends self.old self.new free first) }
        ensures len { IfOk result (λ first. length self.new ≡ total) }
        ensures refused { OnErr result (self.new ≡ self.old) }
    {
        let more = total - self.entries.len();
        if self.entries.reserve_exact(more).is_err() || self.rows.reserve_exact(more).is_err() {
            return Err(OutOfMemory);
        }
        Ok(fill_up(&mut self.entries, &mut self.rows, free, total))
    }
}

/// The node that a link leads to; where it leads to none, the node `at`.
fn leads_or(link: Link, at: usize) -> usize
    ensures { result ≡ leads_or link at }
{
    link.get().unwrap_or(at)
}

/// What the first column has of a node.
fn entry_of(node: &Node) -> Entry
    ensures { result ≡ entry_of node.now }
{
    Entry {
        waker: node.waker,
        id: node.id,
        deadline: node.deadline,
        child: node.child,
        chain: node.chain,
    }
}

/// What the second column has of a node.
fn siblings_of(node: &Node) -> Siblings
    ensures { result ≡ siblings_of node.now }
{
    Siblings {
        next: node.next,
        prev: node.prev,
    }
}

/// Makes free nodes in the room that there is, until there are so many nodes. The answer is the first
/// free one.
fn fill_up(entries: &mut Vec<Entry>, rows: &mut Vec<Siblings>, free: Link, total: usize) -> Link
    requires room { total ≤ vec_capacity entries.old }
    requires beside { total ≤ vec_capacity rows.old }
    requires few { total < 2 ^ 32 }
    requires less { length entries.old.items ≤ total }
    requires columns { length rows.old.items ≡ length entries.old.items }
    ensures nodes { Extends (nodes_of entries.old.items rows.old.items)
        (nodes_of entries.new.items rows.new.items) free result }
    ensures len { length entries.new.items ≡ total }
    ensures columns { length rows.new.items ≡ length entries.new.items }
{
    let mut first = free;
    for at in entries.len()..total {
        let node = Node::free(first);
        let entry = entry_of(&node);
        let row = siblings_of(&node);
        entries.push_reserved(entry);
        rows.push_reserved(row);
        first = Link::to(at);
    }
    first
}
