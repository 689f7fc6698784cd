//! What no clause says of a list of listeners: that its calls succeed with ample memory, at a type of wakers
//! through the bound `Copy`, how they follow one another, and that a list can be shared between threads.

use crate::asserts::same;
use crate::kept::Act::{Add, Count, Drain, Give, Holds, Remove, Set};
use crate::kept::Came::{Counts, Done, Drained, Gone, Is};
use crate::kept::{Act, Came, Kept};
use aio_listen::{Listeners, Ticket};
use std::alloc::Global;
use std::process::Abort;

/// Asserts that what these acts with a new list come to is what stands beside each.
fn plays(rt: &impl Abort, alloc: Global, rows: &[(Act, Came)]) -> Kept {
    let mut kept = Kept::new(alloc);
    kept.plays(rt, rows);
    kept
}

fn share<T: Send + Sync + Drop>(_value: T) {}

const REMOVED: [(Act, Came); 20] = [
    (Count, Counts(0, 0, true)),
    (Add, Done),
    (Add, Done),
    (Add, Done),
    (Count, Counts(3, 0, true)),
    (Set(0, 11), Done),
    (Set(2, 13), Done),
    (Remove(1), Done),
    (Holds(0), Is(true)),
    (Holds(1), Is(false)),
    (Holds(2), Is(true)),
    (Remove(1), Gone),
    (Set(1, 12), Gone),
    (Count, Counts(2, 2, false)),
    (Drain, Drained([11, 13, 0, 0])),
    (Holds(0), Is(true)),
    (Count, Counts(2, 0, true)),
    (Add, Done),
    (Holds(3), Is(true)),
    (Holds(1), Is(false)),
];

#[test]
fn listener_that_was_removed_is_gone(rt: HostRuntime) {
    let kept = plays(&rt, rt.alloc(), &REMOVED);
    share(kept.listeners);
}

const LAST: [(Act, Came); 11] = [
    (Add, Done),
    (Add, Done),
    (Add, Done),
    (Remove(1), Done),
    (Add, Done),
    (Set(0, 1), Done),
    (Set(3, 14), Done),
    (Set(2, 13), Done),
    (Set(0, 11), Done),
    (Holds(1), Is(false)),
    (Drain, Drained([11, 13, 14, 0])),
];

#[test]
fn listener_that_came_after_a_removal_is_last(rt: HostRuntime) {
    plays(&rt, rt.alloc(), &LAST);
}

const GIVEN_AGAIN: [(Act, Came); 5] = [
    (Add, Done),
    (Add, Done),
    (Add, Done),
    (Remove(1), Done),
    (Add, Done),
];

const AT_THE_END: [(Act, Came); 5] = [
    (Set(0, 11), Done),
    (Set(2, 13), Done),
    (Set(3, 14), Done),
    (Holds(1), Is(false)),
    (Drain, Drained([11, 13, 14, 0])),
];

/// Asserts that the fourth listener has the place of the second, and is another.
fn has_the_place_of_the_second(rt: &impl Abort, tickets: &[Ticket]) {
    assert!(rt; tickets.len() == 4);
    let (second, fourth) = (tickets[1], tickets[3]);
    same(rt, fourth.place, second.place);
    same(rt, (fourth != second, fourth.serial), (true, 4));
}

#[test]
fn place_that_is_given_again_is_another_ticket_at_the_end(rt: HostRuntime) {
    let mut kept = plays(&rt, rt.alloc(), &GIVEN_AGAIN);
    has_the_place_of_the_second(&rt, kept.tickets.as_slice());
    kept.plays(&rt, &AT_THE_END);
}

const FOUR: [(Act, Came); 4] = [
    (Give(1), Done),
    (Give(2), Done),
    (Give(3), Done),
    (Give(4), Done),
];

/// Four listeners come, and the one in this place goes: asserts that the others are drained in order.
fn removes(rt: &impl Abort, alloc: Global, place: usize, left: [u32; 4]) {
    let mut kept = plays(rt, alloc, &FOUR);
    kept.plays(rt, &[(Remove(place), Done), (Drain, Drained(left))]);
}

#[test]
fn removal_at_each_place_leaves_the_others_in_order(rt: HostRuntime) {
    removes(&rt, rt.alloc(), 0, [2, 3, 4, 0]);
    removes(&rt, rt.alloc(), 1, [1, 3, 4, 0]);
    removes(&rt, rt.alloc(), 2, [1, 2, 4, 0]);
    removes(&rt, rt.alloc(), 3, [1, 2, 3, 0]);
}

const TEN: [(Act, Came); 10] = [
    (Give(1), Done),
    (Give(2), Done),
    (Give(3), Done),
    (Give(4), Done),
    (Give(5), Done),
    (Give(6), Done),
    (Give(7), Done),
    (Give(8), Done),
    (Give(9), Done),
    (Give(10), Done),
];

const AMONG_STALE_ONES: [(Act, Came); 6] = [
    (Set(1, 22), Done),
    (Give(31), Done),
    (Give(32), Done),
    (Set(8, 29), Done),
    (Drain, Drained([22, 29, 31, 32])),
    (Count, Counts(12, 0, true)),
];

#[test]
fn listeners_that_wait_among_stale_ones_are_drained_in_order(rt: HostRuntime) {
    let mut kept = plays(&rt, rt.alloc(), &TEN);
    same(&rt, kept.drain_all(), 10);
    kept.plays(&rt, &AMONG_STALE_ONES);
}

/// Asserts that none of these is a listener of the list.
fn holds_none(rt: &impl Abort, listeners: &Listeners<u32>, tickets: &[Ticket]) {
    for ticket in tickets {
        same(rt, (*ticket, listeners.holds(*ticket)), (*ticket, false));
    }
}

/// Tickets that were never drawn of a list of one.
const STRANGERS: &[Ticket] = &[
    Ticket {
        serial: 1,
        place: 7,
    },
    Ticket {
        serial: 1,
        place: u32::MAX,
    },
];

/// Asserts that no list holds a ticket of the other, or one that it never drew.
fn are_apart(rt: &impl Abort, own: &Kept, others: &Kept) {
    assert!(rt; others.tickets.len() == 3);
    holds_none(rt, &own.listeners, &others.tickets[1..]);
    holds_none(rt, &own.listeners, STRANGERS);
    holds_none(rt, &others.listeners, own.tickets.as_slice());
}

const OTHERS: [(Act, Came); 4] = [(Add, Done), (Add, Done), (Add, Done), (Remove(0), Done)];

const OWN: [(Act, Came); 2] = [(Add, Done), (Holds(0), Is(true))];

#[test]
fn ticket_of_no_listener_is_not_held(rt: HostRuntime) {
    let others = plays(&rt, rt.alloc(), &OTHERS);
    let own = plays(&rt, rt.alloc(), &OWN);
    are_apart(&rt, &own, &others);
}
