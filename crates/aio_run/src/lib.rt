//! The top call of the program: what its words ask for, read from a source and written to a sink.
//!
//! It stands on `aio_commands` for the words, for each command but `relay` and for how the program ends, on
//! `aio_serve` for the run of a relay, on `aio_jobs` for its devices, on `aio_bytes`, and on `aio_laws` for
//! what holds between two steps. It promises, for every list of bytes that the source has left, that the
//! output of a replay is that of the machine run over the steps of these bytes; for all numbers, that the
//! trace which they describe is written, or the counts of its run; of a relay, that the output names the port
//! and then an end for each pair that its connections may come to; and of each other end its cause and what
//! was written by then.
//!
//! Its tests stand beside it, and not in a crate above: so no more crates are below them than below it.
#![tactic(auto)]

pub mod program;
mod relaying;
#[cfg(test)]
mod tests;

pub use aio_commands::{Command, Status, Which6, Why, run_gen, run_replay, run_sum};
pub use program::run;
