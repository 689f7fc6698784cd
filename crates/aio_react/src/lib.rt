//! A reactor on one thread, and its rounds in sections.
//!
//! It stands on `aio_base`, on the sources of `aio_source` with the tickets of `aio_listen`, and on
//! the book of `aio_timers`. A round promises of each section the whole round after it, and what
//! became of what it was lent. A core promises that a call meets the step of the reactor machine,
//! whatever its poller answers.
#![tactic(auto)]

mod entries;
pub mod laws;
mod listener_table;
mod outcomes;
mod reactor;
mod refusals;
mod round;

pub use aio_base::{Host, InsertRefusal, TimerHost};
pub use aio_source::{InHand, RoundFault};
pub use outcomes::{Handled, Reacted};
pub use reactor::Core;
pub use refusals::CoreRefusal;
pub use round::Round;
