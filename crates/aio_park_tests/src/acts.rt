//! What a thread does with tasks and rounds, and what comes of it, as the rows of a table say both.

use aio_base::{Dir, Moment, Poll};
use aio_future::TimerFault;
use aio_park::BlockFault;
use aio_shared::PollFault;

/// What a thread does. Moments are in nanoseconds.
#[derive(Clone, Copy)]
pub(crate) enum Act {
    /// Blocks until a timer of this moment fires.
    Sleep(u64),
    /// Blocks on a task that wakes itself at each poll, and ends at the poll with this number.
    WakeItself(u64),
    /// Blocks on a task that never ends, and waits for nothing.
    Never,
    /// Blocks until the thread's source is readable.
    Read,
    /// Polls a direction of the source with this waker.
    Poll(Dir, u32),
    /// Makes so many rounds.
    Drive(u32),
    /// Takes the mask of the parker.
    Take,
    /// Counts the waits of the reactor, by the round cell, which goes back.
    Count,
}

/// What comes of it.
#[derive(Clone, Copy)]
pub(crate) enum Came {
    /// A task ended with this number, the moment of its timer or 0, after so many polls.
    Ended(u64, u64),
    /// A round met this while a task was blocked on, which had so many polls.
    Failed(BlockFault, u64),
    /// So many events were handled.
    Events(u64),
    /// A round met this.
    Stopped(BlockFault),
    /// A poll waits.
    Pending,
    /// A poll told this fault.
    Told(PollFault),
    /// The mask.
    Mask(u64),
    /// There were so many waits.
    Waits(u64),
    /// Something else.
    Other,
}

/// What came, as it is compared: which it is, its numbers, and what a round or a poll met.
pub(crate) fn told(
    came: Came,
) -> (
    &'static str,
    [u64; 2],
    Option<BlockFault>,
    Option<PollFault>,
) {
    match came {
        Came::Ended(number, polls) => ("ended", [number, polls], None, None),
        Came::Failed(fault, polls) => ("failed", [polls, 0], Some(fault), None),
        Came::Events(events) => ("events", [events, 0], None, None),
        Came::Stopped(fault) => ("stopped", [0; 2], Some(fault), None),
        Came::Pending => ("pending", [0; 2], None, None),
        Came::Told(fault) => ("told", [0; 2], None, Some(fault)),
        Came::Mask(mask) => ("mask", [mask, 0], None, None),
        Came::Waits(waits) => ("waits", [waits, 0], None, None),
        Came::Other => ("other", [0; 2], None, None),
    }
}

/// What blocking on a task with an output came to, after so many polls.
pub(crate) fn ended<O: Drop>(answer: Result<O, BlockFault>, polls: u64) -> Came {
    match answer {
        Ok(_) => Came::Ended(0, polls),
        Err(fault) => Came::Failed(fault, polls),
    }
}

/// What blocking on a task came to that may end with a fault of its own.
pub(crate) fn ended_well<F: Drop>(answer: Result<Result<(), F>, BlockFault>, polls: u64) -> Came {
    match answer {
        Ok(Err(_)) => Came::Other,
        answer => ended(answer, polls),
    }
}

/// What blocking on a timer came to, after so many polls.
pub(crate) fn fired(answer: Result<Result<Moment, TimerFault>, BlockFault>, polls: u64) -> Came {
    match answer {
        Ok(Ok(at)) => Came::Ended(at.get(), polls),
        Ok(Err(_)) => Came::Other,
        Err(fault) => Came::Failed(fault, polls),
    }
}

/// What rounds came to.
pub(crate) fn driven(answer: Result<u64, BlockFault>) -> Came {
    match answer {
        Ok(events) => Came::Events(events),
        Err(fault) => Came::Stopped(fault),
    }
}

/// What a poll came to.
pub(crate) fn polled(answer: Poll<Result<(), PollFault>>) -> Came {
    match answer {
        Poll::Pending => Came::Pending,
        Poll::Ready(Err(fault)) => Came::Told(fault),
        Poll::Ready(Ok(())) => Came::Other,
    }
}

/// What a look at the number of waits came to.
pub(crate) fn counted(waits: Option<u64>) -> Came {
    match waits {
        Some(waits) => Came::Waits(waits),
        None => Came::Other,
    }
}
