//! A thread that polls a task and drives a shared reactor while it waits (`async-io` 2,
//! `driver.rs`, `block_on`), also past the faults of arms (`run_to_end`), and up to 64 tasks polled as
//! one; and what the threads of a reactor are made of, whatever they serve (`Post`).
//!
//! It stands on the reactor of `aio_shared` and the words of `aio_words`, through the member of one
//! thread. It promises that an output is one that the task allows, that each poll after the first
//! has the mask that a swap by the member took, what the thread does in between, that a fault is the
//! one that a round told, and that the round cell is with the member exactly where it was before;
//! that a thread which runs a task to its end stops before that only for a fault of its wait or its
//! notifier, or for want of memory; that a group polls just the unfinished slots of the mask; and that
//! the posts of a reactor have its parkers, one each, and run under the devices of its first member.
#![tactic(auto)]

mod blocking;
mod group;
mod posts;
mod rounds;
mod thread;
mod to_end;
mod until;

pub use blocking::block_on;
pub use group::{Group, GroupRefusal, Slot};
pub use posts::{Post, ends_of, posts_of};
pub use rounds::{BlockFault, drive};
pub use thread::Thread;
pub use to_end::{WorkerFault, run_then_hand_over, run_to_end};
pub use until::{TryUntil, UntilFault};
