//! A reactor that several threads share (`async-io` 2, `reactor.rs`).
//!
//! It stands on the table of sources of `aio_sources`, on the book of `aio_timers` and the queue of
//! operations of `aio_ops`, on the rounds and hosts of `aio_react`, and on the words of `aio_words`. Each
//! thread has a member of its own, the token of what it did. It promises of each call what the member
//! did and which id it drew; that a timer is registered, or no longer, through the queue or, where that
//! stays full, by the call itself; under which key each source is registered, and that the token of a
//! source knows the rest of its connection whatever rounds did in between; and what a round did, and
//! why a call refuses.
//!
//! Locks are taken in this order: the reactor, the table of sources, one source; or the reactor, the
//! timers. So whoever is inside a source does not ask for the table.
#![tactic(auto)]

mod cell;
mod hand_over;
mod inside;
mod locked;
mod members;
mod polling;
mod reacting;
mod round_lock;
mod seats;
mod shared;
mod sources;
mod starting;
mod timer_lock;
mod timers;
mod waiting;
mod waking;

pub use aio_future::{Attempt, PollDir, TryDir};
pub use aio_source::{Visit, Visited};
pub use aio_sources::{InsertFault, SourceRef, Sources};
pub use cell::RoundCell;
pub use inside::Inside;
pub use members::Member;
pub use polling::{Entered, PollFault};
pub use reacting::{ReactFault, ReactedIn};
pub use shared::Shared;
pub use starting::Started;
