//! Calls on a source, and their answers.

use aio_base::{Dir, Interest, Poll, Waker};

/// A call on a source.
#[derive(Clone, Copy, Debug, PartialEq, Eq)]
pub enum CellCall {
    /// A poll of a direction.
    Poll {
        /// The direction.
        dir: Dir,
        /// The waker that the poll brings.
        waker: Waker,
        /// How many rounds had begun.
        ticker: u64,
    },
    /// A round handles an event.
    Handle {
        /// The directions that the event names.
        on: Interest,
        /// The round.
        round: u64,
    },
}

/// A call on a source with its answer.
#[derive(Clone, Copy, Debug, PartialEq, Eq, Drop)]
pub enum CellStep {
    /// A poll of a direction.
    Poll {
        /// The direction.
        dir: Dir,
        /// The waker that the poll brings.
        waker: Waker,
        /// How many rounds had begun.
        ticker: u64,
        /// What the poll answers.
        answer: Poll<()>,
    },
    /// A round handles an event.
    Handle {
        /// The directions that the event names.
        on: Interest,
        /// The round.
        round: u64,
        /// How many wakers it takes.
        taken: u32,
    },
}
