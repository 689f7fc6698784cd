//! What a thread does with a reactor, and what comes of it, as the rows of a table say both.

use crate::asserts::same_in;
use aio_base::{CountFault, Dir, InsertRefusal, OutOfMemory, Poll, TimerId};
use aio_shared::{PollFault, ReactFault, ReactedIn};
use std::process::Abort;

/// What polls of a source answer.
pub(crate) type Answer = Poll<Result<(), PollFault>>;

/// The first fault of a device.
pub(crate) const FIRST_FAULT: CountFault = CountFault {
    before: 0,
    after: 1,
};

/// What a thread does.
#[derive(Clone, Copy)]
pub(crate) enum Act {
    /// Registers a timer at this moment, in nanoseconds, with this waker.
    Insert(u64, u32),
    /// Registers a timer at this moment with waker 0, so many times.
    InsertTimes(u64, u32),
    /// Registers a timer at this moment with waker 0 and takes it out again, so many times.
    InsertAndRemove(u64, u32),
    /// Takes the timer of this moment with this id out again.
    Remove(u64, u64),
    /// Counts the rounds, and wakes the task of this waker.
    Wake(u32),
    /// Wakes it by the member's seat, with another notifier.
    WakeApart(u32),
    /// Polls a direction of the thread's source with this waker.
    Poll(Dir, u32),
    /// Polls the source's read direction with wakers 3 and 5 in turn while the parker is blocked.
    PollBlocking,
    /// Listens to that direction with waker 3, so many times.
    Listen(u32),
    /// Reacts without waiting.
    React,
    /// Reacts without waiting, once more where memory ran out.
    ReactAgain,
    /// Reacts where the round seat waits for the parker.
    ReactWaiting,
    /// Takes the mask of the parker.
    Take,
    /// Takes the round cell, looks at it, and gives it back.
    Look,
}

/// What comes of it.
#[derive(Clone, Copy)]
pub(crate) enum Came {
    /// A timer was registered under this id.
    Id(u64),
    /// A timer was refused, or its registration could not be told.
    Refused(InsertRefusal),
    /// Nothing failed.
    Done,
    /// So many rounds had begun, and nothing failed.
    Rounds(u64),
    /// Nothing failed so many times.
    Times(u32),
    /// A waker waits.
    Pending,
    /// A waker waits and took the place of one whose wake met this.
    Replaced(PollFault),
    /// A round was begun, handled so many events and woke so many wakers.
    Round(u32, u64),
    /// A round met this.
    Failed(ReactFault),
    /// The mask.
    Mask(u64),
    /// How many waits there were, whether the round is idle, and how many rounds have begun.
    Cell(u64, bool, u64),
    /// Something else.
    Other,
}

/// Which it is that came, its numbers, and what failed or was refused.
pub(crate) type Told = (&'static str, [u64; 3], Option<ReactFault>);

/// What came, as it is compared.
pub(crate) fn told(came: Came) -> Told {
    match came {
        Came::Id(id) => ("id", [id, 0, 0], None),
        Came::Refused(InsertRefusal::OutOfMemory) => {
            ("refused", [0; 3], Some(ReactFault::OutOfMemory))
        }
        Came::Refused(InsertRefusal::Notify { id, fault }) => {
            ("refused", [id.0, 0, 0], Some(ReactFault::Notify(fault)))
        }
        Came::Done => ("done", [0; 3], None),
        Came::Rounds(rounds) => ("rounds", [rounds, 0, 0], None),
        Came::Times(times) => ("times", [times as u64, 0, 0], None),
        Came::Pending => ("pending", [0; 3], None),
        Came::Replaced(PollFault::Arm(fault)) => {
            ("replaced", [0; 3], Some(ReactFault::Arm(fault)))
        }
        Came::Replaced(PollFault::Notify(fault)) => {
            ("replaced", [0; 3], Some(ReactFault::Notify(fault)))
        }
        Came::Round(events, woken) => ("round", [events as u64, woken, 0], None),
        Came::Failed(fault) => ("failed", [0; 3], Some(fault)),
        Came::Mask(mask) => ("mask", [mask, 0, 0], None),
        Came::Cell(waits, idle, rounds) => ("cell", [waits, idle as u64, rounds], None),
        Came::Other => ("other", [0; 3], None),
    }
}

impl Came {
    /// Whether memory ran out in an act of which this was wanted: it says so, or fewer of its calls came.
    fn falls_short(self, wanted: Came) -> bool {
        match self {
            Came::Failed(ReactFault::OutOfMemory) => true,
            Came::Refused(InsertRefusal::OutOfMemory) => true,
            Came::Times(found) => match wanted {
                Came::Times(times) => found < times,
                _ => false,
            },
            _ => false,
        }
    }
}

/// Asserts that what came in a row of a table is what was wanted. Where memory ran out, that is what the test ends
/// with, and nothing is compared.
pub(crate) fn comes_in(rt: &impl Abort, row: &str, came: Came, wanted: Came) {
    if came.falls_short(wanted) {
        rt.panic("memory ran out, or an act gave up early");
    }
    same_in(rt, row, told(came), told(wanted));
}

/// A thread with a source of its own in a new reactor: what it does, and what comes of each act.
pub(crate) struct Row {
    /// What it shows.
    pub(crate) shows: &'static str,
    /// How many keys have an event in each wait, 1,024 at most, where the wait is no other.
    pub(crate) keys: u32,
    /// The moment at which its clock stands, in nanoseconds.
    pub(crate) now: u64,
    /// The acts, with what comes of each.
    pub(crate) acts: &'static [(Act, Came)],
}

/// What an insert came to.
pub(crate) fn inserted(answer: Result<TimerId, InsertRefusal>) -> Came {
    match answer {
        Ok(id) => Came::Id(id.0),
        Err(refusal) => Came::Refused(refusal),
    }
}

/// What a removal came to.
pub(crate) fn removed(answer: Result<(), OutOfMemory>) -> Came {
    match answer {
        Ok(()) => Came::Done,
        Err(_) => Came::Other,
    }
}

/// What a wake came to, after so many rounds.
pub(crate) fn woken(rounds: u64, answer: Result<(), CountFault>) -> Came {
    match answer {
        Ok(()) => Came::Rounds(rounds),
        Err(_) => Came::Other,
    }
}

/// What a poll came to.
pub(crate) fn polled<F>(answer: &Poll<Result<(), F>>) -> Came {
    match answer {
        Poll::Pending => Came::Pending,
        Poll::Ready(_) => Came::Other,
    }
}

/// What two polls in a row came to.
pub(crate) fn replaced(first: Answer, second: Answer) -> Came {
    match (first, second) {
        (Poll::Pending, Poll::Ready(Err(fault))) => Came::Replaced(fault),
        _ => Came::Other,
    }
}

/// What a round came to that handles one event: where memory ran out in its first call, so many events were in
/// hand then, and the answer is that of the second call, which goes on with it.
pub(crate) fn resumed(in_hand: usize, answer: Result<ReactedIn, ReactFault>) -> Came {
    match answer {
        Ok(reacted) => {
            if in_hand <= 1 && reacted.resumed == (in_hand > 0) {
                Came::Round(reacted.events, reacted.woken)
            } else {
                Came::Other
            }
        }
        Err(fault) => Came::Failed(fault),
    }
}

/// What a round came to that goes on with none before it.
pub(crate) fn reacted(answer: Result<ReactedIn, ReactFault>) -> Came {
    match answer {
        Ok(reacted) => {
            if reacted.resumed {
                Came::Other
            } else {
                Came::Round(reacted.events, reacted.woken)
            }
        }
        Err(fault) => Came::Failed(fault),
    }
}
