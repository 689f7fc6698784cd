//! The operations on registered timers.

use aio_base::{Moment, TimerId, Waker};

/// A change of the registered timers (`async-io` 2, `reactor.rs`, `TimerOp`).
#[derive(Clone, Copy, Debug, PartialEq, Eq)]
pub enum TimerOp {
    /// Registers a timer with its deadline, its id and the waker of the task that waits for it. A
    /// timer of the same deadline and id is replaced.
    Insert(Moment, TimerId, Waker),
    /// Unregisters the timer with this deadline and this id, if there is one.
    Remove(Moment, TimerId),
}
