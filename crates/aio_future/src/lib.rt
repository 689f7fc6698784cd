//! A timer: fires once at a moment, or again and again after a period, or never; a task that sleeps
//! until a moment; and an entered source, whose directions are polled, read and written, by visits that
//! poll a direction or attempt something on the connection first.
//!
//! It stands on `aio_base` and `aio_source`, and works with whatever hosts timers. It
//! promises for each call on a timer, by the rules of `specs/`, which registration the host lost and
//! got, the timer that is left, and which of this stands where the call told a fault; of the task, that
//! it polls its timer so, with its own waker, and what it may answer by a moment; and of an entered
//! source which calls were made on its connection, in which order, and what they came to.
#![tactic(auto)]

pub mod answers;
mod attempts;
pub mod entered;
mod listens;
mod number_or_none;
pub mod ready;
mod sleep;
pub mod timer;
pub mod tried;
mod visits;

pub use aio_base::Poll;
pub use answers::TimerFault;
pub use attempts::{Attempt, Read, Write};
pub use entered::Async;
pub use ready::Ready;
pub use sleep::Sleep;
pub use timer::Timer;
pub use tried::{Tried, TryFault};
pub use visits::{PollDir, TryDir};
