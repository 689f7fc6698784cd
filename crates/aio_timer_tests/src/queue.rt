//! What no clause says: that calls succeed while there is room, and the queue on two threads.

ghost use Rattle.std.specs.Prelude.{◌≡◌};

use crate::asserts::{MEMORY, may_be_sent, may_be_shared, moment, same, same_in};
use aio_base::{Moment, OutOfMemory, TimerId, Waker};
use aio_ops::{OpPass, Ops};
use aio_timers::{TimerBook, TimerOp};
use std::alloc::Global;
use std::process::Abort;
use std::sync::Wait;
use std::thread::{Threads, join};

/// Registers a timer.
fn insert(at: Moment) -> TimerOp {
    TimerOp::Insert(at, TimerId(1), Waker(7))
}

/// Unregisters it.
fn remove(at: Moment) -> TimerOp {
    TimerOp::Remove(at, TimerId(1))
}

/// A queue with its first pass, the book into which that pass drains it, and the deadline of the one timer of
/// all operations.
#[derive(Drop)]
struct Drainer {
    ops: Ops,
    pass: OpPass,
    book: TimerBook,
    at: Moment,
    ghost belongs: { pass.queue ≡ ops },
    ghost first: { pass.number ≡ 0 },
}

/// What is done with it.
#[derive(Clone, Copy)]
enum Act {
    /// Puts the registration into the queue.
    Insert,
    /// Puts it into the queue so many times.
    InsertTimes(u32),
    /// Puts the removal into the queue.
    Remove,
    /// Drains the queue into the book, which has room.
    DrainInto,
    /// Makes room in the book and drains the queue.
    Drain,
    /// Drains the queue, and applies the registration.
    ApplyInsert,
    /// Drains the queue, and applies the removal.
    ApplyRemove,
    /// Counts the timers of the book.
    Count,
}

/// What comes of it.
#[derive(Clone, Copy)]
enum Came {
    /// Nothing was refused.
    Done,
    /// The operation came back.
    Back,
    /// So many were taken, by the queue or out of it.
    Taken(u32),
    /// So many timers are registered.
    Timers(usize),
    /// Something else.
    Other,
}

/// What came, as it is compared: which it is, and its number.
fn told(came: Came) -> (&'static str, usize) {
    match came {
        Came::Done => ("done", 0),
        Came::Back => ("back", 0),
        Came::Taken(count) => ("taken", count as usize),
        Came::Timers(count) => ("timers", count),
        Came::Other => ("other", 0),
    }
}

/// What a push came to.
fn pushed(op: TimerOp, answer: Result<(), TimerOp>) -> Came {
    match answer {
        Ok(()) => Came::Done,
        Err(back) => { if back == op { Came::Back } else { Came::Other } }
    }
}

/// What an operation that was applied came to.
fn applied(answer: Result<(), OutOfMemory>) -> Came {
    match answer {
        Ok(()) => Came::Done,
        Err(_) => Came::Other,
    }
}

/// What a drain came to.
fn drained(answer: Result<u32, OutOfMemory>) -> Came {
    match answer {
        Ok(count) => Came::Taken(count),
        Err(_) => Came::Other,
    }
}

/// Pushes the registration so many times. The answer is how often the queue took it.
fn push_times<R: Wait>(rt: &R, ops: &Ops, p: &mut OpPass, at: Moment, times: u32) -> u32
    requires { p.old.queue ≡ ops.now }
    ensures queue { p.new.queue ≡ p.old.queue }
    ensures number { p.new.number ≡ p.old.number }
{
    let mut taken: u32 = 0;
    for _ in 0..times {
        if ops.push(rt, p, insert(at)).is_ok() {
            taken = taken.saturating_add(1);
        }
    }
    taken
}

/// Makes room for 1,000 timers in a book and drains a queue into it.
fn drain_into<R: Wait>(rt: &R, ops: &Ops, p: &mut OpPass, book: &mut TimerBook) -> Came
    requires { p.old.queue ≡ ops.now }
    ensures queue { p.new.queue ≡ p.old.queue }
    ensures number { p.new.number ≡ p.old.number }
{
    match book.reserve(1000) {
        Ok(()) => Came::Taken(ops.drain_into(rt, p, book)),
        Err(_) => Came::Other,
    }
}

impl Drainer {
    /// A new queue, and an empty book.
    fn new(rt: &impl Abort, alloc: Global, at: Moment) -> Drainer {
        let (ops, pass) = Ops::new(alloc).expect(rt, MEMORY);
        Drainer {
            ops,
            pass,
            book: TimerBook::new(alloc),
            at,
        }
    }

    /// Does this.
    fn act<R: Wait>(&mut self, rt: &R, act: Act) -> Came {
        let at = self.at;
        let ops = &self.ops;
        let p = &mut self.pass;
        let book = &mut self.book;
        match act {
            Act::Insert => pushed(insert(at), ops.push(rt, p, insert(at))),
            Act::InsertTimes(times) => Came::Taken(push_times(rt, ops, p, at, times)),
            Act::Remove => pushed(remove(at), ops.push(rt, p, remove(at))),
            Act::DrainInto => drain_into(rt, ops, p, book),
            Act::Drain => drained(ops.drain(rt, p, book)),
            Act::ApplyInsert => applied(ops.apply_after_drain(rt, p, book, insert(at))),
            Act::ApplyRemove => applied(ops.apply_after_drain(rt, p, book, remove(at))),
            Act::Count => Came::Timers(book.len()),
        }
    }

    /// Asserts that what the acts of a row come to is what stands beside each.
    fn plays<R: Wait + Abort>(&mut self, rt: &R, row: &Row) {
        for (act, came) in row.acts {
            same_in(rt, row.shows, told(self.act(rt, *act)), told(*came));
        }
    }

    /// A pass for another thread.
    fn another<R: Wait + Abort>(&mut self, rt: &R) -> OpPass
        ensures ops { self.new.ops ≡ self.old.ops }
        ensures belongs { result.queue ≡ self.new.ops }
    {
        self.ops.pass(rt, &mut self.pass).expect(rt, "a pass")
    }
}

/// What is done with a new queue, and what comes of each act.
struct Row {
    shows: &'static str,
    acts: &'static [(Act, Came)],
}

const ROWS: &[Row] = &[
    Row {
        shows: "operations are applied in the order of their pushes",
        acts: &[
            (Act::Insert, Came::Done),
            (Act::Remove, Came::Done),
            (Act::DrainInto, Came::Taken(2)),
            (Act::Count, Came::Timers(0)),
            (Act::Remove, Came::Done),
            (Act::Insert, Came::Done),
            (Act::DrainInto, Came::Taken(2)),
            (Act::Count, Came::Timers(1)),
        ],
    },
    Row {
        shows: "a full queue hands the operation back",
        acts: &[
            (Act::InsertTimes(1000), Came::Taken(1000)),
            (Act::Remove, Came::Back),
            (Act::DrainInto, Came::Taken(1000)),
            (Act::Count, Came::Timers(1)),
            (Act::DrainInto, Came::Taken(0)),
        ],
    },
    Row {
        shows: "an operation that is kept out of the queue is applied",
        acts: &[
            (Act::ApplyInsert, Came::Done),
            (Act::Drain, Came::Taken(0)),
            (Act::Count, Came::Timers(1)),
        ],
    },
    Row {
        shows: "an operation is applied after those that are queued",
        acts: &[
            (Act::Insert, Came::Done),
            (Act::ApplyRemove, Came::Done),
            (Act::Drain, Came::Taken(0)),
            (Act::Count, Came::Timers(0)),
        ],
    },
];

/// The number of one more pass of a queue.
fn next_number<R: Wait + Abort>(rt: &R, drainer: &mut Drainer) -> u32 {
    drainer.another(rt).number()
}

/// Asserts the numbers of the first three passes of a queue, and that a further one can be made.
fn numbers_passes<R: Wait + Abort>(rt: &R, drainer: &mut Drainer) {
    same(rt, drainer.pass.number(), 0);
    same(rt, next_number(rt, drainer), 1);
    same(rt, next_number(rt, drainer), 2);
    same(rt, drainer.pass.is_spent(), false);
}

/// Pushes it 400 times, on a thread of its own.
fn pushed_times<R: Wait>(rt: &R, ops: &Ops, mut p: OpPass, at: Moment) -> u32
    requires { p.queue ≡ ops.now }
{
    push_times(rt, ops, &mut p, at, 400)
}

/// Two threads push 400 times each; the answers are how often the queue took it.
fn push_on_two_threads<R: Threads + Wait + Sync>(
    rt: &R,
    ops: &Ops,
    one: OpPass,
    other: OpPass,
    at: Moment,
) -> (u32, u32)
    requires one { one.queue ≡ ops.now }
    requires other { other.queue ≡ ops.now }
{
    join(
        rt,
        move ||
            requires { one.queue ≡ ops.now }
        { pushed_times(rt, ops, one, at) },
        move ||
            requires { other.queue ≡ ops.now }
        { pushed_times(rt, ops, other, at) },
    )
}

/// The same by two passes of this queue.
fn push_beside<R: Threads + Wait + Sync + Abort>(rt: &R, drainer: &mut Drainer) -> (u32, u32) {
    let one = drainer.another(rt);
    let other = drainer.another(rt);
    push_on_two_threads(rt, &drainer.ops, one, other, drainer.at)
}

const ALL_OF_BOTH: Row = Row {
    shows: "what two threads push is drained once",
    acts: &[
        (Act::DrainInto, Came::Taken(800)),
        (Act::Count, Came::Timers(1)),
    ],
};

/// What is done with a new queue.
#[derive(Clone, Copy)]
enum Deed<'a> {
    /// The acts of a row.
    Play(&'a Row),
    /// Further passes are made.
    NumberPasses,
    /// Two threads push, and then the queue is drained.
    PushBeside,
}

/// Does this, and asserts what comes of it.
fn at<R: Threads + Wait + Sync + Abort>(rt: &R, drainer: &mut Drainer, deed: Deed<'_>) {
    match deed {
        Deed::Play(row) => drainer.plays(rt, row),
        Deed::NumberPasses => numbers_passes(rt, drainer),
        Deed::PushBeside => {
            same(rt, push_beside(rt, drainer), (400, 400));
            drainer.plays(rt, &ALL_OF_BOTH);
        }
    }
}

/// The same with a new queue, which may be shared, and of which a pass may be sent.
fn at_new<R: Threads + Wait + Sync + Abort>(rt: &R, alloc: Global, deed: Deed<'_>) {
    let mut drainer = Drainer::new(rt, alloc, moment(rt, 30));
    may_be_shared(&drainer.ops);
    may_be_sent(&drainer.pass);
    at(rt, &mut drainer, deed);
    drop(drainer);
}

#[test]
fn each_operation_is_applied_once_in_its_order(rt: HostRuntime) {
    for row in ROWS {
        at_new(&rt, rt.alloc(), Deed::Play(row));
    }
}

#[test]
fn passes_are_numbered_in_the_order_in_which_they_are_made(rt: HostRuntime) {
    at_new(&rt, rt.alloc(), Deed::NumberPasses);
}

#[test]
fn what_two_threads_push_is_drained_once(rt: HostRuntime) {
    at_new(&rt, rt.alloc(), Deed::PushBeside);
}
