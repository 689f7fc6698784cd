//! A group over a host of the tests' own, which carries out the acts of a table.

use crate::asserts::same;
use aio_base::{Cx, Later, Moment, Poll, Task};
use aio_park::{Group, GroupRefusal};
use std::alloc::Global;
use std::process::Abort;

/// A host in which each task notes its slot when it is polled: a digit for each poll, which is the slot
/// counted from one. Each state of it is later than each other.
#[derive(Drop)]
struct Log {
    digits: u64,
}

impl Later for Log {
    ghost use Rattle.std.specs.Prelude.{⊤, true, refl};

    ghost notifier_is_sure = { λ host. true };

    ghost is_later = { λ old new. ⊤ };

    ghost later_than_itself = { λ host. tt };

    ghost later_than_later = { λ a b c first second. tt };

    ghost stays_sure = { λ a b later. refl };
}

/// What a task was told at its last poll, and how many polls it had.
#[derive(Drop)]
pub(crate) struct Seen {
    parker: u32,
    mask: u64,
    now: u64,
    polls: u64,
}

/// A task that ends at its first poll at this moment or later, and tells that poll.
#[derive(Drop)]
pub(crate) struct Ending {
    end: u64,
    polls: u64,
}

impl Task<Log> for Ending {
    ghost use Rattle.std.specs.Prelude.{⊤};

    type Output = Seen;

    ghost gives = { λ task sure moment output. ⊤ };

    ghost poll_step = { λ old host cx answer new left. ⊤ };

    ghost poll_count = { λ task. task.polls };

    fn poll(&mut self, host: &mut Log, cx: Cx) -> Poll<Seen> {
        let digit = u64::from(cx.mask.trailing_zeros()) + 1;
        host.digits = host.digits.wrapping_mul(10).wrapping_add(digit);
        self.polls = self.polls.saturating_add(1);
        let now = cx.now.get();
        if now < self.end {
            return Poll::Pending;
        }
        Poll::Ready(Seen {
            parker: cx.parker,
            mask: cx.mask,
            now,
            polls: self.polls,
        })
    }

    fn polls(&self) -> u64 {
        self.polls
    }

    ghost gives_later = { λ task sure a b output later given. tt };
}

/// What is done with a group. Moments are in nanoseconds.
#[derive(Clone, Copy)]
pub(crate) enum Act {
    /// Adds a task that ends at this moment.
    Add(u64),
    /// Polls the group as the task of parker 9, with this mask at this moment.
    Poll(u64, u64),
    /// Looks at the answer with this number, of those that the last end gave.
    Answer(usize),
    /// Counts the polls of the group.
    Count,
}

/// What comes of it.
#[derive(Clone, Copy)]
pub(crate) enum Came {
    /// The task has this slot.
    Slot(u32),
    /// There are as many tasks as may be: the task that ends at this moment came back, with so many polls.
    Full(u64, u64),
    /// The group goes on. The digits tell which tasks were polled, in order.
    Pending(u64),
    /// The group has ended, with so many answers. The digits are those of its poll.
    Ended(u64, usize),
    /// The task that gave the answer was told this mask, its own parker and this moment, at the last of so many
    /// polls.
    Saw(u64, u64, u64),
    /// The group was polled so often.
    Polls(u64),
    /// Something else.
    Other,
}

/// What came, as it is compared: which it is, and its numbers.
fn told(came: Came) -> (&'static str, [u64; 3]) {
    match came {
        Came::Slot(slot) => ("slot", [u64::from(slot), 0, 0]),
        Came::Full(end, polls) => ("full", [end, polls, 0]),
        Came::Pending(digits) => ("pending", [digits, 0, 0]),
        Came::Ended(digits, answers) => ("ended", [digits, answers as u64, 0]),
        Came::Saw(mask, now, polls) => ("saw", [mask, now, polls]),
        Came::Polls(polls) => ("polls", [polls, 0, 0]),
        Came::Other => ("other", [0; 3]),
    }
}

/// The parker of the groups.
const PARKER: u32 = 5;

/// A group, and the answers that its last end gave.
#[derive(Drop)]
pub(crate) struct Played {
    group: Group<Ending, Seen>,
    answers: Vec<Seen>,
}

impl Played {
    /// A group of no task.
    pub(crate) fn new(alloc: Global) -> Played {
        Played {
            group: Group::new(alloc, PARKER),
            answers: Vec::new(alloc),
        }
    }

    /// Adds a task that ends at this moment.
    fn add(&mut self, end: u64) -> Came {
        match self.group.add(Ending { end, polls: 0 }) {
            Ok(slot) => Came::Slot(slot),
            Err((task, GroupRefusal::Full)) => Came::Full(task.end, task.polls),
            Err((_, GroupRefusal::OutOfMemory)) => Came::Other,
        }
    }

    /// Polls the group.
    fn poll(&mut self, mask: u64, now: Moment) -> Came {
        let mut log = Log { digits: 0 };
        let parker = 9;
        match self.group.poll(&mut log, Cx { parker, mask, now }) {
            Poll::Ready(answers) => {
                self.answers = answers;
                Came::Ended(log.digits, self.answers.len())
            }
            Poll::Pending => Came::Pending(log.digits),
        }
    }

    /// Polls the group at a moment of so many nanoseconds.
    fn poll_at(&mut self, mask: u64, now: u64) -> Came {
        match Moment::new(now) {
            Some(now) => self.poll(mask, now),
            None => Came::Other,
        }
    }

    /// Looks at an answer.
    fn answer(&self, at: usize) -> Came {
        match self.answers.get(at) {
            Some(seen) if seen.parker == PARKER => Came::Saw(seen.mask, seen.now, seen.polls),
            _ => Came::Other,
        }
    }

    /// Does this.
    fn act(&mut self, act: Act) -> Came {
        match act {
            Act::Add(end) => self.add(end),
            Act::Poll(mask, now) => self.poll_at(mask, now),
            Act::Answer(at) => self.answer(at),
            Act::Count => Came::Polls(Task::<Log>::polls(&self.group)),
        }
    }

    /// Asserts that what these acts come to is what stands beside each.
    pub(crate) fn plays(&mut self, rt: &impl Abort, rows: &[(Act, Came)]) {
        for (act, came) in rows {
            same(rt, told(self.act(*act)), told(*came));
        }
    }
}
