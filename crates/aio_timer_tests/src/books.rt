//! What no clause says of a book of timers: that it grows while timers come, to a million too, that heaps of
//! several shapes keep their order, and that those of several hosts, whose ids differ by multiples of 2^40, are
//! each found again.

use crate::asserts::{MEMORY, moment, same};
use crate::calls::{passed, unregister};
use aio_base::{TimerId, Waker};
use aio_timers::{TimerBook, TimerOp};
use std::alloc::Global;
use std::process::Abort;

/// The id that the host of this number draws after so many others.
fn id_of(host: u32, count: u32) -> u64 {
    (host as u64) << 40 | count as u64
}

/// Makes room for one more timer, and registers it.
fn insert(rt: &impl Abort, book: &mut TimerBook, deadline: u64, id: u64, waker: u32) {
    book.reserve(1).expect(rt, MEMORY);
    book.apply(TimerOp::Insert(moment(rt, deadline), TimerId(id), Waker(waker)));
}

/// Takes a timer out, after which so many are left.
fn remove(rt: &impl Abort, book: &mut TimerBook, deadline: u64, id: u64, left: usize) {
    same(
        rt,
        (unregister(book, deadline, id), book.len()),
        (true, left),
    );
}

/// Registers so many timers at one deadline, with ids from 1 on.
fn insert_times(rt: &impl Abort, book: &mut TimerBook, times: u32) {
    for number in 0..times {
        insert(rt, book, 7, number as u64 + 1, number);
    }
}

#[test]
fn each_timer_of_a_book_that_grew_is_found(rt: HostRuntime) {
    let mut book = TimerBook::new(rt.alloc());
    insert_times(&rt, &mut book, 5_000);
    for id in 1u32..5_001 {
        remove(&rt, &mut book, 7, id as u64, 5_000 - id as usize);
    }
    same(&rt, book.spare() >= 5_000, true);
    drop(book);
}

/// The timers of 17 hosts at this deadline, of which each drew so many ids before.
fn insert_hosts(rt: &impl Abort, book: &mut TimerBook, deadline: u64, count: u32) {
    for host in 0u32..17 {
        insert(rt, book, deadline, id_of(host, count), host);
    }
}

/// Takes those of every second host out, from the last on: nine hosts are left.
fn remove_hosts(rt: &impl Abort, book: &mut TimerBook, deadline: u64, count: u32, others: u16) {
    for gone in 0u32..8 {
        let left = others as usize + 16 - gone as usize;
        remove(rt, book, deadline, id_of(15 - 2 * gone, count), left);
    }
}

/// The wakers of every second host.
const EVEN_HOSTS: [Waker; 9] = [
    Waker(0),
    Waker(2),
    Waker(4),
    Waker(6),
    Waker(8),
    Waker(10),
    Waker(12),
    Waker(14),
    Waker(16),
];

/// Asserts that a pass takes the timers of every second host.
fn takes_even_hosts(rt: &impl Abort, alloc: Global, book: &mut TimerBook, now: u64) {
    let taken = passed(rt, alloc, book, moment(rt, now));
    same(rt, taken.as_slice(), EVEN_HOSTS.as_slice());
    drop(taken);
}

#[test]
fn equal_counts_of_several_hosts_are_told_apart(rt: HostRuntime) {
    let mut book = TimerBook::new(rt.alloc());
    insert_hosts(&rt, &mut book, 30, 2);
    insert_hosts(&rt, &mut book, 20, 1);
    remove_hosts(&rt, &mut book, 30, 2, 17);
    remove_hosts(&rt, &mut book, 20, 1, 9);
    takes_even_hosts(&rt, rt.alloc(), &mut book, 20);
    takes_even_hosts(&rt, rt.alloc(), &mut book, 30);
    drop(book);
}

/// In which order the deadlines of timers come that are registered one after the other.
#[derive(Clone, Copy)]
enum Order {
    /// Each is after the one before.
    Rising,
    /// Each is before the one before.
    Falling,
}

/// The deadline of the timer of this number among so many in this order: no two are equal.
fn deadline_of(order: Order, number: u32, count: u32) -> u32 {
    match order {
        Order::Rising => number,
        Order::Falling => count.saturating_sub(number.saturating_add(1)),
    }
}

/// Registers so many timers in this order. The waker of each is its deadline, and each has the first id of the host
/// of that number.
fn insert_ordered(rt: &impl Abort, book: &mut TimerBook, order: Order, count: u32) {
    for number in 0..count {
        let deadline = deadline_of(order, number, count);
        insert(rt, book, deadline as u64, id_of(deadline, 0), deadline);
    }
}

/// Takes every third of 10,000 timers out.
fn remove_thirds(rt: &impl Abort, book: &mut TimerBook) {
    for number in 0u32..3_334 {
        let gone = 3 * number;
        let left = 9_999 - number as usize;
        remove(rt, book, gone as u64, id_of(gone, 0), left);
    }
}

/// A pass at this moment: the last of its wakers, which rise, and are so many.
fn pass_rising(
    rt: &impl Abort,
    alloc: Global,
    book: &mut TimerBook,
    now: u64,
    count: usize,
) -> Option<Waker> {
    let now = moment(rt, now);
    same(rt, book.due_count(now), count);
    let taken = passed(rt, alloc, book, now);
    same(rt, (taken.len(), taken.iter().is_sorted()), (count, true));
    let last = taken.last().copied();
    drop(taken);
    last
}

/// Asserts which timer is the first.
fn starts_with(rt: &impl Abort, book: &TimerBook, deadline: u32) {
    let first = (moment(rt, deadline as u64), TimerId(id_of(deadline, 0)));
    same(rt, book.first(), Some(first));
}

/// 10,000 timers, of which every third goes before two passes, at the middle and at the end: the other wakers,
/// which are the deadlines, rise.
fn keeps_the_order(rt: &impl Abort, alloc: Global, order: Order) {
    let mut book = TimerBook::new(alloc);
    insert_ordered(rt, &mut book, order, 10_000);
    remove_thirds(rt, &mut book);
    same(rt, book.due_count(moment(rt, 10_000)), 6_666);
    let early = pass_rising(rt, alloc, &mut book, 4_999, 3_333);
    same(rt, early, Some(Waker(4_999)));
    starts_with(rt, &book, 5_000);
    pass_rising(rt, alloc, &mut book, 10_000, 3_333);
    same(rt, (book.len(), book.spare() >= 10_000), (0, true));
    drop(book);
}

#[test]
fn a_heap_as_deep_as_it_is_long_keeps_the_order(rt: HostRuntime) {
    keeps_the_order(&rt, rt.alloc(), Order::Falling);
}

#[test]
fn a_root_with_all_others_below_it_keeps_the_order(rt: HostRuntime) {
    keeps_the_order(&rt, rt.alloc(), Order::Rising);
}

/// Registers a million timers of one host: their ids rise, and their deadlines are scattered, of which no two
/// are equal, as 1,000,003 is a prime. The waker of each is its deadline.
fn insert_million(rt: &impl Abort, book: &mut TimerBook) {
    for number in 0u32..1_000_000 {
        let deadline = (number as u64 * 611_953 % 1_000_003) as u32;
        insert(rt, book, deadline as u64, number as u64, deadline);
    }
}

#[test]
fn a_pass_takes_a_million_timers_in_order(rt: HostRuntime) {
    let mut book = TimerBook::new(rt.alloc());
    insert_million(&rt, &mut book);
    same(&rt, book.len(), 1_000_000);
    pass_rising(&rt, rt.alloc(), &mut book, 1_000_003, 1_000_000);
    same(&rt, book.len(), 0);
    drop(book);
}
