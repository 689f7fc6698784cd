//! The steps of a trace that a number describes, drawn one after the other.
//!
//! It stands on `aio_base`, whose `specs/Generated.antt` says which steps a seed gives, and on
//! `aio_trace`, whose trait `StepTaker` a step is handed by. It promises exactly those steps, in order,
//! and that each of them has a spelling as a line.
#![tactic(auto)]

mod generating;
pub mod laws;

pub use generating::{Steps, gen_steps};
