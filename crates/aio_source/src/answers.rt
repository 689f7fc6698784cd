//! What the calls of a source answer.

use aio_base::{ArmFault, Poll, Waker};
use aio_listen::Ticket;

/// The answer to a poll of a direction.
#[derive(Clone, Copy, Debug, PartialEq, Eq)]
pub struct Polled {
    /// Ready where an event was handled since the poll waiter was stored, or with the fault of an
    /// arm.
    pub answer: Poll<Result<(), ArmFault>>,
    /// The poll waiter that this one took the place of, to be woken.
    pub replaced: Option<Waker>,
}

/// What a listener remembers of its first poll.
#[derive(Clone, Copy, Debug, PartialEq, Eq)]
pub struct Listened {
    /// The listener among those of its direction.
    pub ticket: Ticket,
    /// The rounds that had begun.
    pub a: u64,
    /// The last round that had handled an event of the direction.
    pub b: u64,
}

/// Why a listener's first poll is not pending.
#[derive(Clone, Copy, Debug, PartialEq, Eq)]
pub enum ListenRefusal {
    /// The poller could not be armed. The listener stays, as `listened` says.
    ArmFault { fault: ArmFault, listened: Listened },
    /// All 2^64 - 1 tickets of the direction were drawn.
    TicketsSpent,
    /// Memory ran out.
    OutOfMemory,
}
