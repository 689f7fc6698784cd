//! The laws of the machine and of the trace language: what holds of every step and after every run,
//! whatever the poller answers. Each is the contract of a function with no work to do.
//!
//! It stands on `aio_base`, whose definitions the laws speak of. `specs/` says what a law claims, and
//! `proofs/` has the inductions, worked traces that are computed from the definitions alone, and for
//! each law steps of wrong machines that it refuses. No program calls this crate: a crate stands on it
//! only where its own contracts name a law.
#![tactic(auto)]

pub mod freshness;
pub mod laws;
