//! Logs: runs of the machine in writing, with whatever a poller answered in them.
//!
//! A log has a line for each step, its answer, the events that a wait gave and the wakes; `specs/` says which
//! lines are right behind the lines before them, which run they tell, and how a run and a trace are written
//! down. The laws say that an input with no wrong line is, line for line, the log of a run, and the other way
//! round. It stands on `aio_base`, and on the reading and writing of lines.
#![tactic(auto)]

pub mod laws;
mod reading;
mod wrong;

pub use reading::{
    CallTold, call_told, event_of, given_in, has_entry, is_answer, is_log_header, step_of,
};
pub use wrong::Wrong;
