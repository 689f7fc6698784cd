//! The drain of a list of listeners, which visits what waits and little else.
//!
//! A drain leaves no waker behind, and who was woken seldom waits again in its old place. So what
//! waits stands at the end of the order, but for rare cases: where some wait and some do not, the
//! walk goes back from there until it has seen as many wakers as there are, and then forward to take
//! them in the order of arrival.

ghost use Rattle.std.specs.Prelude.{ℕ, List, Option, ◌≡◌, ◌+◌, ◌≤◌, ◌++◌, length, option_to_list, vec_capacity};
ghost use Rattle.aio_listen.specs.Listening.{wakers_of};
ghost use Rattle.aio_listen.specs.Order.{IsOrder, IsTail, Taken, Seen, entries_at};

use crate::link::Link;
use crate::node::{Node, take_waker};
use slab::Slab;

/// How many wakers are left without the one of a node.
pub(crate) fn left_behind<W: Copy>(left: usize, waker: Option<W>) -> usize
    requires { length (option_to_list waker) ≤ left }
    ensures { result + length (option_to_list waker) ≡ left }
{
    match waker {
        None => left,
        Some(_) => left - 1,
    }
}

/// Goes back from the last node until all wakers were seen: the link to the node where it stands
/// then, and how many nodes there are from it on.
fn go_back<W: Copy>(nodes: &Slab<Node<W>>, last: Link, waiting: usize) -> (Link, usize)
    requires { (first : Option ℕ) × (keys : List ℕ) × IsOrder nodes.now first last keys × (waiting ≡ length (wakers_of (entries_at nodes.now keys))) }
    ensures { (first : Option ℕ) (keys : List ℕ) → IsOrder nodes.now first last keys → waiting ≡ length (wakers_of (entries_at nodes.now keys))
        → (at : Option ℕ) × Seen nodes.now keys at result.0 0 result.1 }
{
    let mut at = last;
    let mut start = Link::none();
    let mut left = waiting;
    for steps in 0..nodes.len() {
        if left == 0 {
            return (start, steps);
        }
        match at.key() {
            None => return (start, steps),
            Some(key) => {
                let node = nodes[key];
                left = left_behind(left, node.waker);
                start = at;
                at = node.previous;
            }
        }
    }
    (start, nodes.len())
}

/// Where a drain begins, before which no node has a waker: the link to it, and how many nodes there
/// are from it on. Where all wait that is the first node, and none is looked at.
pub(crate) fn drain_start<W: Copy>(
    nodes: &Slab<Node<W>>,
    first: Link,
    last: Link,
    waiting: usize,
) -> (Link, usize)
    requires { (keys : List ℕ) × IsOrder nodes.now first last keys × (waiting ≡ length (wakers_of (entries_at nodes.now keys))) }
    ensures { (keys : List ℕ) → IsOrder nodes.now first last keys → waiting ≡ length (wakers_of (entries_at nodes.now keys))
        → (at : Option ℕ) × Seen nodes.now keys at result.0 0 result.1 }
{
    if waiting == nodes.len() {
        return (first, waiting);
    }
    go_back(nodes, last, waiting)
}

/// Adds a waker at the end of `out`, if there is one.
fn push_some<W: Copy>(out: &mut Vec<W>, waker: Option<W>)
    requires { length out.old.items + length (option_to_list waker) ≤ vec_capacity out.old }
    ensures items { out.new.items ≡ out.old.items ++ option_to_list waker }
    ensures capacity { vec_capacity out.new ≡ vec_capacity out.old }
{
    if let Some(waker) = waker {
        out.push_reserved(waker);
    }
}

/// Moves the wakers of so many nodes, from this one on, to the end of `out`, in order.
pub(crate) fn take_on<W: Copy>(
    nodes: &mut Slab<Node<W>>,
    start: Link,
    steps: usize,
    out: &mut Vec<W>,
)
    requires { (keys : List ℕ) × IsTail nodes.old start steps keys × (length out.old.items + length (wakers_of (entries_at nodes.old keys)) ≤ vec_capacity out.old) }
    ensures taken { (keys : List ℕ) → IsTail nodes.old start steps keys → Taken nodes.old nodes.new keys out.old.items out.new.items }
    ensures capacity { vec_capacity out.new ≡ vec_capacity out.old }
{
    let mut at = start;
    for _ in 0..steps {
        match at.key() {
            None => unreachable!(),
            Some(key) => {
                let (waker, next) = take_waker(nodes, key);
                push_some(out, waker);
                at = next;
            }
        }
    }
}
