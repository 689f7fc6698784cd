//! A trace of the first version, written as one of the second.
//!
//! It stands on the driver of lines in `aio_replay`, the reader of the first version in `aio_trace` and
//! the lines of the second in `aio_tasks` and `aio_trace2`. It promises, for every list of bytes that the
//! input has left, that the output grows by the text of their steps in the second version, in which each
//! longest row of equal steps is one step behind a line that repeats it; by nothing where the first line
//! is no header of the first version. And as a law, that this text is a valid trace of the second
//! version, which says the same steps and answers as the first one does.
#![tactic(auto)]

mod blocks;
pub mod laws;
pub mod migrating;

pub use migrating::migrate;
