//! Listeners that leave a list in each order, and many that come and go: those that are left are drained in the
//! order in which they came.

use crate::asserts::{MEMORY, same};
use crate::kept::{Kept, set_there};
use aio_listen::Ticket;
use std::alloc::Global;
use std::process::Abort;

/// Listeners that are left, each with its number.
type Left = Vec<(u32, Ticket)>;

/// Four listeners come to a list in which nobody is, and have the numbers 1 to 4.
fn come(rt: &impl Abort, alloc: Global, kept: &mut Kept) -> Left {
    let mut left = Vec::new(alloc);
    for number in 1..5_u32 {
        let ticket = kept.add().expect(rt, MEMORY);
        left.push((number, ticket)).expect(rt, MEMORY);
    }
    left
}

/// Has each listener that is left wait with its number for a waker. How many were there.
fn wait_each(kept: &mut Kept, left: &[(u32, Ticket)]) -> u64 {
    let mut waiting: u64 = 0;
    for (number, ticket) in left {
        if set_there(&mut kept.listeners, *ticket, *number) {
            waiting = waiting.saturating_add(1);
        }
    }
    waiting
}

/// Whether these are the numbers of those who are left.
fn are(wakers: &[u32], left: &[(u32, Ticket)]) -> bool {
    if wakers.len() != left.len() {
        return false;
    }
    for place in 0..left.len() {
        if wakers[place] != left[place].0 {
            return false;
        }
    }
    true
}

/// Whether a drain gives the wakers of all who are left, in this order.
fn drains(kept: &mut Kept, left: &[(u32, Ticket)]) -> bool {
    match kept.drain() {
        Ok(wakers) => are(wakers.as_slice(), left),
        Err(_) => false,
    }
}

/// The listener at a place leaves.
fn leave(kept: &mut Kept, left: &mut Left, place: usize) -> bool {
    if place >= left.len() {
        return false;
    }
    let (_, ticket) = left.remove(place);
    kept.remove(ticket)
}

/// The place of the next to leave of so many, and the number of the order in which the others do.
fn next(order: usize, count: usize) -> (usize, usize) {
    if count == 0 {
        return (0, 0);
    }
    (order % count, order / count)
}

/// A listener leaves, and the others wait and are drained: whether it was there, so many wait as are left, and
/// their wakers came in order.
fn leave_and_drain(kept: &mut Kept, left: &mut Left, place: usize) -> bool {
    let was_there = leave(kept, left, place);
    let waiting = wait_each(kept, left.as_slice());
    was_there && waiting == left.len() as u64 && drains(kept, left.as_slice())
}

/// A listener leaves while the others wait: whether it was there, and so many wait as are left.
fn leave_waiting(kept: &mut Kept, left: &mut Left, place: usize) -> bool {
    let was_there = leave(kept, left, place);
    was_there && kept.listeners.waiting() == left.len() as u64
}

/// Four listeners leave this list one after the other, in the order of this number from 0 to 23; those who are
/// left wait all the time, or are drained after each.
fn leave_each(rt: &impl Abort, kept: &mut Kept, left: &mut Left, order: usize, drained: bool) {
    let wait = if drained { 0 } else { left.len() };
    wait_each(kept, &left[..wait]);
    let mut order = order;
    for _ in 0..4 {
        let (place, others) = next(order, left.len());
        order = others;
        let has_left = if drained {
            leave_and_drain(kept, left, place)
        } else {
            leave_waiting(kept, left, place)
        };
        same(rt, (place, has_left), (place, true));
    }
}

/// The same of a new list.
fn leave_all(rt: &impl Abort, alloc: Global, order: usize, drained: bool) -> Kept {
    let mut kept = Kept::new(alloc);
    let mut left = come(rt, alloc, &mut kept);
    leave_each(rt, &mut kept, &mut left, order, drained);
    kept
}

#[test]
fn listeners_that_leave_in_any_order_leave_the_others_in_theirs(rt: HostRuntime) {
    for order in 0..24_usize {
        leave_all(&rt, rt.alloc(), order, true);
    }
}

/// Asserts that who comes to a list that all have left is alone there.
fn is_alone(rt: &impl Abort, kept: &mut Kept) {
    same(rt, kept.give(5), true);
    same(rt, kept.listeners.count(), 1);
    let wakers = kept.drain().expect(rt, MEMORY);
    same(rt, wakers.as_slice(), [5].as_slice());
}

#[test]
fn listener_that_comes_after_all_were_removed_is_alone(rt: HostRuntime) {
    for order in 0..24_usize {
        let mut kept = leave_all(&rt, rt.alloc(), order, false);
        is_alone(&rt, &mut kept);
    }
}

/// Listeners with these numbers come and wait. How many did.
fn come_many(kept: &mut Kept, first: u32, end: u32) -> u32 {
    let mut came: u32 = 0;
    for number in first..end {
        if kept.give(number) {
            came = came.saturating_add(1);
        }
    }
    came
}

/// Every second listener of those who came so far leaves. How many did.
fn leave_every_second(kept: &mut Kept, count: usize) -> u32 {
    let mut gone: u32 = 0;
    for place in 0..count {
        if place % 2 == 1 && leave_at(kept, place) {
            gone = gone.saturating_add(1);
        }
    }
    gone
}

/// The listener before which so many came leaves.
fn leave_at(kept: &mut Kept, place: usize) -> bool {
    match kept.tickets.get(place) {
        Some(ticket) => {
            let ticket = *ticket;
            kept.remove(ticket)
        }
        None => false,
    }
}

/// The number of the listener at this place, where every second of the first 20,000 has left.
fn number_at(place: usize) -> usize {
    if place < 10_000 {
        2 * place
    } else {
        place.saturating_add(10_000)
    }
}

/// The first place whose waker is not that of the listener there.
fn first_other(wakers: &[u32]) -> Option<usize> {
    for (place, waker) in wakers.iter().enumerate() {
        if *waker as usize != number_at(place) {
            return Some(place);
        }
    }
    None
}

/// Many listeners come, every second of them leaves, and others come: asserts that the wakers of the others are
/// drained in order.
fn come_and_go(rt: &impl Abort, kept: &mut Kept) {
    same(rt, come_many(kept, 0, 20_000), 20_000);
    same(rt, leave_every_second(kept, 20_000), 10_000);
    same(rt, come_many(kept, 20_000, 30_000), 10_000);
    let wakers = kept.drain().expect(rt, MEMORY);
    same(rt, wakers.len(), 20_000);
    same(rt, first_other(wakers.as_slice()), None);
}

#[test]
fn many_listeners_come_and_go(rt: HostRuntime) {
    let mut kept = Kept::new(rt.alloc());
    come_and_go(&rt, &mut kept);
}
