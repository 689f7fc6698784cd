//! What no clause says, that room is made with ample memory and that a book can be shared between
//! threads; and calls one after the other, in heaps of several shapes.

use crate::asserts::same;
use crate::played::Act::{Due, First, Insert, Len, Pass, Remove};
use crate::played::Came::{Count, Done, Nothing, Timer};
use crate::played::{Act, Came, Played};
use aio_base::Waker;
use std::alloc::Global;
use std::process::Abort;

/// Asserts that what these acts with a new book come to is what stands beside each.
fn plays(rt: &impl Abort, alloc: Global, room: u32, rows: &[(Act, Came)]) -> Played {
    let mut played = Played::new(rt, alloc, room);
    same(rt, played.book.spare() >= room, true);
    played.plays(rt, rows);
    played
}

fn share<T: Send + Sync + Drop>(_value: T) {}

const BY_DEADLINE_AND_ID: [(Act, Came); 16] = [
    (First, Nothing),
    (Insert(30, 1, 1), Done),
    (Insert(10, 2, 2), Done),
    (Insert(20, 3, 3), Done),
    (Insert(10, 1, 4), Done),
    (Remove(20, 3), Done),
    (Remove(20, 9), Done),
    (Len, Count(3)),
    (Due(30), Count(3)),
    (Pass(10), Count(2)),
    (First, Timer(30, 1)),
    (Len, Count(1)),
    (Insert(30, 1, 5), Done),
    (Len, Count(1)),
    (Pass(30), Count(1)),
    (Len, Count(0)),
];

#[test]
fn timers_fire_by_deadline_and_id(rt: HostRuntime) {
    let played = plays(&rt, rt.alloc(), 4, &BY_DEADLINE_AND_ID);
    let wakers = [Waker(4), Waker(2), Waker(5)];
    same(&rt, played.taken.as_slice(), wakers.as_slice());
    share(played.book);
}

const REPLACES: [(Act, Came); 4] = [
    (Insert(10, 1, 4), Done),
    (Insert(10, 1, 5), Done),
    (Len, Count(1)),
    (Pass(10), Count(1)),
];

#[test]
fn an_insert_of_a_pair_that_is_there_replaces_its_waker(rt: HostRuntime) {
    let played = plays(&rt, rt.alloc(), 2, &REPLACES);
    same(&rt, played.taken.as_slice(), [Waker(5)].as_slice());
}

/// Timers at the moments 2 to 10. As those at 0 and 1 came before, and went in a pass before the last
/// two came, 2 is the root, with the children 10, 9, 5 and 3; 5 has the children 7 and 6, 3 has 4 and
/// 7 has 8.
const TALL: [(Act, Came); 12] = [
    (Insert(0, 7, 0), Done),
    (Insert(1, 7, 1), Done),
    (Insert(2, 7, 2), Done),
    (Insert(3, 7, 3), Done),
    (Insert(4, 7, 4), Done),
    (Insert(5, 7, 5), Done),
    (Insert(6, 7, 6), Done),
    (Insert(7, 7, 7), Done),
    (Insert(8, 7, 8), Done),
    (Pass(1), Count(2)),
    (Insert(9, 7, 9), Done),
    (Insert(10, 7, 10), Done),
];

/// The tall heap, and the wakers 0 and 1 of those that went.
fn tall(rt: &impl Abort, alloc: Global) -> Played {
    let played = plays(rt, alloc, 11, &TALL);
    same(rt, played.taken.as_slice(), [Waker(0), Waker(1)].as_slice());
    played
}

/// Takes the timer at this moment out of the tall heap: asserts which is the first then, and that the others
/// go in order.
fn leaves(rt: &impl Abort, alloc: Global, gone: u32, first: u64) {
    let mut played = tall(rt, alloc);
    played.plays(rt, &[(Remove(gone as u64, 7), Done), (Len, Count(8))]);
    played.plays(rt, &[(First, Timer(first, 7)), (Pass(10), Count(8))]);
    let taken = played.taken.as_slice();
    let seen = (taken.iter().is_sorted(), taken.contains(&Waker(gone)));
    same(rt, seen, (true, false));
    played.plays(rt, &[(Remove(2, 7), Done), (First, Nothing)]);
}

/// The root, and a first child, one between siblings and a last one, each with children and without
/// (7 and 10, 5 and 9, 3 and 6), and only children: after each removal the others stand in order.
#[test]
fn a_timer_leaves_from_every_place(rt: HostRuntime) {
    leaves(&rt, rt.alloc(), 2, 3);
    for gone in 3u32..11 {
        leaves(&rt, rt.alloc(), gone, 2);
    }
}

const ARE_DUE: [(Act, Came); 11] = [
    (Due(1), Count(0)),
    (Due(2), Count(1)),
    (Due(3), Count(2)),
    (Due(4), Count(3)),
    (Due(5), Count(4)),
    (Due(6), Count(5)),
    (Due(7), Count(6)),
    (Due(8), Count(7)),
    (Due(9), Count(8)),
    (Due(10), Count(9)),
    (Due(11), Count(9)),
];

#[test]
fn a_count_of_due_timers_ends_at_the_first_that_is_not(rt: HostRuntime) {
    plays(&rt, rt.alloc(), 0, &[(Due(0), Count(0))]);
    let mut played = tall(&rt, rt.alloc());
    played.plays(&rt, &ARE_DUE);
}

/// Ten timers of one deadline, inserted in another order than that of their ids.
const ONE_DEADLINE: [(Act, Came); 15] = [
    (Insert(50, 3, 3), Done),
    (Insert(50, 9, 9), Done),
    (Insert(50, 1, 1), Done),
    (Insert(50, 7, 7), Done),
    (Insert(50, 5, 5), Done),
    (Insert(50, 8, 8), Done),
    (Insert(50, 0, 0), Done),
    (Insert(50, 6, 6), Done),
    (Insert(50, 2, 2), Done),
    (Insert(50, 4, 4), Done),
    (First, Timer(50, 0)),
    (Due(49), Count(0)),
    (Due(50), Count(10)),
    (Remove(50, 4), Done),
    (Pass(50), Count(9)),
];

#[test]
fn timers_of_one_deadline_fire_by_id(rt: HostRuntime) {
    let played = plays(&rt, rt.alloc(), 10, &ONE_DEADLINE);
    let wakers = [0, 1, 2, 3, 5, 6, 7, 8, 9].map(Waker);
    same(&rt, played.taken.as_slice(), wakers.as_slice());
}
