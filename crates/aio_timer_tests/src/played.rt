//! A book of timers, as the rows of a table use it.

use crate::asserts::{MEMORY, same};
use crate::calls::{passed, register, unregister};
use aio_base::{Moment, Waker};
use aio_timers::TimerBook;
use std::alloc::Global;
use std::process::Abort;

/// What is done with a book. Deadlines and moments are in nanoseconds.
#[derive(Clone, Copy)]
pub(crate) enum Act {
    /// Registers a timer: its deadline, its id and its waker.
    Insert(u64, u64, u32),
    /// Takes the timer of a deadline and an id out.
    Remove(u64, u64),
    /// Makes a pass at a moment.
    Pass(u64),
    /// Counts the timers.
    Len,
    /// Counts those that are due at a moment.
    Due(u64),
    /// Looks at the first one.
    First,
}

/// What comes of it.
#[derive(Clone, Copy)]
pub(crate) enum Came {
    /// It is done.
    Done,
    /// So many timers.
    Count(usize),
    /// The deadline and the id of a timer.
    Timer(u64, u64),
    /// No timer.
    Nothing,
    /// Something else.
    Other,
}

/// What came, as it is compared: which it is, and its numbers.
fn told(came: Came) -> (&'static str, [u64; 2]) {
    match came {
        Came::Done => ("done", [0; 2]),
        Came::Count(count) => ("count", [count as u64, 0]),
        Came::Timer(deadline, id) => ("timer", [deadline, id]),
        Came::Nothing => ("nothing", [0; 2]),
        Came::Other => ("other", [0; 2]),
    }
}

/// A book, and the wakers that its passes took.
#[derive(Drop)]
pub(crate) struct Played {
    alloc: Global,
    pub(crate) book: TimerBook,
    pub(crate) taken: Vec<Waker>,
}

/// What a call came to that may have been refused.
fn done(is_done: bool) -> Came {
    if is_done { Came::Done } else { Came::Other }
}

impl Played {
    /// A book with room for so many timers.
    pub(crate) fn new(rt: &impl Abort, alloc: Global, room: u32) -> Played {
        let mut book = TimerBook::new(alloc);
        book.reserve(room).expect(rt, MEMORY);
        Played {
            alloc,
            book,
            taken: Vec::new(alloc),
        }
    }

    /// Makes a pass. How many timers it took.
    fn pass(&mut self, rt: &impl Abort, now: Moment) -> Came {
        let taken = passed(rt, self.alloc, &mut self.book, now);
        let all = &mut self.taken;
        all.extend_from_slice(taken.as_slice()).expect(rt, MEMORY);
        Came::Count(taken.len())
    }

    /// Makes a pass at a moment, or counts the timers that are due then.
    fn act_at(&mut self, rt: &impl Abort, now: u64, act: Act) -> Came {
        match (Moment::new(now), act) {
            (Some(now), Act::Due(_)) => Came::Count(self.book.due_count(now)),
            (Some(now), _) => self.pass(rt, now),
            (None, _) => Came::Other,
        }
    }

    /// The first timer.
    fn first(&self) -> Came {
        match self.book.first() {
            Some((deadline, id)) => Came::Timer(deadline.get(), id.0),
            None => Came::Nothing,
        }
    }

    /// Does this.
    fn act(&mut self, rt: &impl Abort, act: Act) -> Came {
        match act {
            Act::Insert(deadline, id, waker) => {
                done(register(&mut self.book, deadline, id, waker))
            }
            Act::Remove(deadline, id) => done(unregister(&mut self.book, deadline, id)),
            Act::Pass(now) | Act::Due(now) => self.act_at(rt, now, act),
            Act::Len => Came::Count(self.book.len()),
            Act::First => self.first(),
        }
    }

    /// Asserts that what these acts come to is what stands beside each.
    pub(crate) fn plays(&mut self, rt: &impl Abort, rows: &[(Act, Came)]) {
        for (act, came) in rows {
            same(rt, told(self.act(rt, *act)), told(*came));
        }
    }
}
