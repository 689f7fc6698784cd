//! A relay of lines: two connections as a task that writes to each the whole lines of the other.
//!
//! `Pair` runs on any host, over any two ends of `aio_pairs`. The relation of its polls says which calls
//! it made on both ends and in which order, what became of each byte, and why it answers what it
//! answers; what it comes to at last fits its two connections.
#![tactic(auto)]

pub mod laws;
mod pair;
mod passing;
mod waiting;

pub use aio_pairs::{End, MemEnd, PairEnd, Side};
pub use pair::Pair;
