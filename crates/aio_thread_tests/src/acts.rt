//! What a thread of several does, and what comes of it, as the rows of a table say both.

use aio_base::{Dir, Moment};
use aio_future::TimerFault;
use aio_park::BlockFault;

/// What a thread does. Wakers and slots are numbers, moments are in nanoseconds.
#[derive(Clone, Copy)]
pub(crate) enum Act {
    /// Blocks until one of these slots of its parker is woken.
    Rest(u64),
    /// Blocks until a timer of this moment fires.
    Sleep(u64),
    /// The same with the moment after the number of its parker.
    SleepInTurn,
    /// Blocks on a task that wakes itself at each poll, and ends at the poll with this number.
    WakeItself(u64),
    /// Blocks on so many meetings with the thread of this parker.
    Meet(u32, u32),
    /// The same, and at each meeting a timer has to fire too.
    MeetLater(u32, u32),
    /// Makes so many rounds.
    Drive(u32),
    /// Takes the round cell, wakes this waker, and gives the cell back without a round, after so many turns
    /// of other threads.
    Hold(u32, u32),
    /// Waits until a slot of its parker is woken, and takes the mask, with no task and no round.
    Await,
    /// Waits until a round has begun, and lets that run for as many turns as the thread is late.
    Follow,
    /// Wakes this waker.
    Wake(u32),
    /// Wakes this slot of the parker after its own, of the first one where there is none.
    WakeNext(u32),
    /// Registers a timer at this moment with this waker.
    SetTimer(u64, u32),
    /// Inserts a connection for each key up to this one, polls each one's direction, and that of the last
    /// with this waker.
    Poll(u32, Dir, u32),
    /// Makes an event of a direction of this key ready, as the system does.
    Give(u32, Dir),
    /// Wakes the first slot of each other parker.
    HandOver,
    /// Wakes every slot of every parker.
    WakeAll,
    /// Takes the mask of its parker.
    Take,
}

/// What comes of it.
#[derive(Clone, Copy)]
pub(crate) enum Came {
    /// Nothing failed.
    Done,
    /// A task ended with this number: the slots that were woken, the moment of its timer, that of its polls,
    /// or how many meetings are left.
    Ended(u64),
    /// So many events were handled.
    Events(u64),
    /// The mask.
    Mask(u64),
    /// A round met this.
    Failed(BlockFault),
    /// Something else.
    Other,
}

/// What came, as it is compared: which it is, its number, and what a round met.
pub(crate) fn told(came: Came) -> (&'static str, u64, Option<BlockFault>) {
    match came {
        Came::Done => ("done", 0, None),
        Came::Ended(number) => ("ended", number, None),
        Came::Events(events) => ("events", events, None),
        Came::Mask(mask) => ("mask", mask, None),
        Came::Failed(fault) => ("failed", 0, Some(fault)),
        Came::Other => ("other", 0, None),
    }
}

/// What it came to whether nothing failed.
pub(crate) fn done(holds: bool) -> Came {
    if holds { Came::Done } else { Came::Other }
}

/// What blocking came to.
pub(crate) fn ended(answer: Result<u64, BlockFault>) -> Came {
    match answer {
        Ok(number) => Came::Ended(number),
        Err(fault) => Came::Failed(fault),
    }
}

/// What blocking on a timer came to.
pub(crate) fn fired(answer: Result<Result<Moment, TimerFault>, BlockFault>) -> Came {
    match answer {
        Ok(Ok(at)) => Came::Ended(at.get()),
        Ok(Err(_)) => Came::Other,
        Err(fault) => Came::Failed(fault),
    }
}

/// What rounds came to.
pub(crate) fn driven(answer: Result<u64, BlockFault>) -> Came {
    match answer {
        Ok(events) => Came::Events(events),
        Err(fault) => Came::Failed(fault),
    }
}
