//! The second version of the trace language, as its lines are read and written.
//!
//! It stands on `aio_tasks`, whose `specs/` say what a line reads as and how it is written, on the one
//! reader of both versions in `aio_trace`, and on `aio_writing`. It promises both ways what the first
//! version does: a line reads as a step or a repeat exactly where the definition says so and otherwise
//! has the fault that it names; and as laws, that a written line reads as itself alone, and that the
//! text of a trace that is written in the second version says the same steps and answers as before.
#![tactic(auto)]

pub mod laws;
mod own_lines;
mod reading;
mod writing;

pub use reading::read_line2;
pub use writing::write_line2;
