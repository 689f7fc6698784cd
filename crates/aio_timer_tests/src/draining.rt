//! What no clause says of the queue of operations while one thread drains it and others push: that each
//! operation is applied once, and those of a pass in their order, also after the pass is let go.

ghost use Rattle.std.specs.Prelude.{◌≡◌};

use crate::asserts::{MEMORY, moment, same};
use aio_base::{Moment, TimerId, Waker};
use aio_ops::{OpPass, Ops};
use aio_timers::{TimerBook, TimerOp};
use std::alloc::Global;
use std::process::Abort;
use std::sync::Wait;
use std::thread::{Threads, join};

/// A thread that pushes operations on timers with one deadline.
#[derive(Drop)]
struct Pusher<'a> {
    ops: &'a Ops,
    pass: OpPass,
    at: Moment,
    ghost belongs: { pass.queue ≡ ops.now },
}

impl<'a> Pusher<'a> {
    /// A thread by one more pass.
    fn new<R: Wait + Abort>(rt: &R, ops: &'a Ops, pass: &mut OpPass, at: Moment) -> Pusher<'a>
        requires { (pass.old.queue ≡ ops.now) × (pass.old.number ≡ 0) }
        ensures { (pass.new.queue ≡ pass.old.queue) × (pass.new.number ≡ 0) }
    {
        let pass = ops.pass(rt, pass).expect(rt, "a pass");
        Pusher { ops, pass, at }
    }

    /// Registers a timer. One where the queue took the operation, else none.
    fn insert<R: Wait>(&mut self, rt: &R, id: u64) -> u32 {
        let op = TimerOp::Insert(self.at, TimerId(id), Waker(7));
        match self.ops.push(rt, &mut self.pass, op) {
            Ok(()) => 1,
            Err(_) => 0,
        }
    }

    /// Unregisters a timer. One where the queue took the operation, else none.
    fn remove<R: Wait>(&mut self, rt: &R, id: u64) -> u32 {
        match self
            .ops
            .push(rt, &mut self.pass, TimerOp::Remove(self.at, TimerId(id)))
        {
            Ok(()) => 1,
            Err(_) => 0,
        }
    }
}

/// Registers 400 timers. How many operations the queue took.
fn insert_each<R: Wait>(rt: &R, mut pusher: Pusher) -> u32 {
    let mut taken: u32 = 0;
    for id in 0..400 {
        taken = taken.saturating_add(pusher.insert(rt, id));
    }
    taken
}

/// Registers and unregisters one timer 500 times. How many operations the queue took.
fn insert_and_remove<R: Wait>(rt: &R, mut pusher: Pusher) -> u32 {
    let mut taken: u32 = 0;
    for _ in 0..500 {
        taken = taken.saturating_add(pusher.insert(rt, 1));
        taken = taken.saturating_add(pusher.remove(rt, 1));
    }
    taken
}

/// A thread that drains the queue into its book, and how many operations it has taken.
#[derive(Drop)]
struct Drainer<'a> {
    ops: &'a Ops,
    pass: OpPass,
    book: TimerBook,
    taken: u32,
    ghost belongs: { pass.queue ≡ ops.now },
}

impl<'a> Drainer<'a> {
    /// A thread by this pass, with an empty book.
    fn new(alloc: Global, ops: &'a Ops, pass: OpPass) -> Drainer<'a>
        requires { pass.queue ≡ ops.now }
    {
        Drainer {
            ops,
            pass,
            book: TimerBook::new(alloc),
            taken: 0,
        }
    }

    /// Drains the queue.
    fn drain<R: Wait>(&mut self, rt: &R) {
        let count = self
            .ops
            .drain(rt, &mut self.pass, &mut self.book)
            .unwrap_or(0);
        self.taken = self.taken.saturating_add(count);
    }

    /// Drains the queue once more. How many operations were taken in all, and how many timers are registered.
    fn ends<R: Wait>(mut self, rt: &R) -> (u32, usize) {
        self.drain(rt);
        (self.taken, self.book.len())
    }
}

/// Drains a queue 300 times.
fn drain_times<'a, R: Wait>(rt: &R, mut drainer: Drainer<'a>) -> Drainer<'a> {
    for _ in 0..300 {
        drainer.drain(rt);
    }
    drainer
}

/// Two threads register 400 timers each.
fn insert_on_two<R: Threads + Wait + Sync>(rt: &R, one: Pusher, other: Pusher) -> (u32, u32) {
    join(
        rt,
        move || insert_each(rt, one),
        move || insert_each(rt, other),
    )
}

/// Two threads register 400 timers each while a third drains the queue.
fn insert_beside_drains<'a, R: Threads + Wait + Sync>(
    rt: &R,
    one: Pusher<'a>,
    other: Pusher<'a>,
    drainer: Drainer<'a>,
) -> ((u32, u32), Drainer<'a>) {
    join(
        rt,
        move || insert_on_two(rt, one, other),
        move || drain_times(rt, drainer),
    )
}

/// One thread registers and unregisters a timer while another drains the queue.
fn remove_beside_drains<'a, R: Threads + Wait + Sync>(
    rt: &R,
    pusher: Pusher<'a>,
    drainer: Drainer<'a>,
) -> (u32, Drainer<'a>) {
    join(
        rt,
        move || insert_and_remove(rt, pusher),
        move || drain_times(rt, drainer),
    )
}

/// How many operations two threads pushed while a third drained the queue, how many it took, and how many timers
/// were registered then.
fn insert_in_new<R: Threads + Wait + Sync + Abort>(
    rt: &R,
    alloc: Global,
) -> ((u32, u32), (u32, usize)) {
    let (ops, mut pass) = Ops::new(alloc).expect(rt, MEMORY);
    let one = Pusher::new(rt, &ops, &mut pass, moment(rt, 30));
    let other = Pusher::new(rt, &ops, &mut pass, moment(rt, 40));
    let drainer = Drainer::new(alloc, &ops, pass);
    let (pushed, drainer) = insert_beside_drains(rt, one, other, drainer);
    (pushed, drainer.ends(rt))
}

#[test]
fn each_operation_of_two_threads_is_applied_once(rt: HostRuntime) {
    let done = insert_in_new(&rt, rt.alloc());
    same(&rt, done, ((400, 400), (800, 800)));
}

/// The same of one thread that registers and unregisters a timer.
fn remove_in_new<R: Threads + Wait + Sync + Abort>(rt: &R, alloc: Global) -> (u32, (u32, usize)) {
    let (ops, mut pass) = Ops::new(alloc).expect(rt, MEMORY);
    let pusher = Pusher::new(rt, &ops, &mut pass, moment(rt, 30));
    let drainer = Drainer::new(alloc, &ops, pass);
    let (pushed, drainer) = remove_beside_drains(rt, pusher, drainer);
    (pushed, drainer.ends(rt))
}

#[test]
fn a_timer_that_one_pass_removed_is_out_of_the_book(rt: HostRuntime) {
    same(&rt, remove_in_new(&rt, rt.alloc()), (1000, (1000, 0)));
}

/// Registers a timer, unregisters it and registers another one, and lets the pass go. How many operations the
/// queue took.
fn push_and_leave<R: Wait>(rt: &R, mut pusher: Pusher) -> u32 {
    let first = pusher.insert(rt, 1).saturating_add(pusher.remove(rt, 1));
    first.saturating_add(pusher.insert(rt, 2))
}

/// How many of these a new queue took, how many operations were drained after that, and how many timers were
/// registered then.
fn leave_in_new<R: Wait + Abort>(rt: &R, alloc: Global) -> (u32, (u32, usize)) {
    let (ops, mut pass) = Ops::new(alloc).expect(rt, MEMORY);
    let pusher = Pusher::new(rt, &ops, &mut pass, moment(rt, 30));
    let pushed = push_and_leave(rt, pusher);
    (pushed, Drainer::new(alloc, &ops, pass).ends(rt))
}

#[test]
fn what_a_pass_leaves_behind_is_applied_in_its_order(rt: HostRuntime) {
    same(&rt, leave_in_new(&rt, rt.alloc()), (3, (3, 1)));
}
