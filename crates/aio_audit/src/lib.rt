//! The audit of a log: whether its lines are those of a run of the machine.
//!
//! It stands on the logs of `aio_log` and on what `aio_known` says of a world without its past, and on nothing
//! of the reactor. Here is what an auditor keeps between two lines, and the law that it needs no more.
#![tactic(auto)]

pub mod laws;
