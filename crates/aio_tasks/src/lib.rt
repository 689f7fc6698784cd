//! The second version of the trace language, in what it has beside the first: names of tasks, lines with
//! names and repeats, urgent readiness, and what a run of such lines answers.
//!
//! It stands on `aio_base`. Its `specs/` say what a line of the second version reads as, by the one table
//! of lines of both versions; what the lines of an input say, with the line that is refused; what a run
//! with tasks writes; and how the steps of a trace of the first version are written in the second. As
//! laws it promises that a run without names answers as in the first version, that the steps which a run
//! hands to the machine are a run of the machine, and what a step with a name may and may not do.
#![tactic(auto)]

pub mod laws;
pub mod names;
pub mod steps;

pub use names::Name;
pub use steps::{Line2, LineFault2, Step2, Who};
