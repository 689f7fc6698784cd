//! The parts of a relay of lines: whole lines and where they end, the backlog of a side, the ends that it
//! reads and writes, and what a pair of them may come to.
//!
//! By `PairOk` nothing but whole lines is ever written, in order and each once, whatever the connections
//! answer and however long their pieces are. `Fits` says of two connections what a pair over them may
//! come to.
#![tactic(auto)]

mod backlogs;
mod ends;
pub mod laws;
mod lines;
mod outcomes;

pub use backlogs::{BLOCK, Backlog, count_of};
pub use ends::{End, MemEnd};
pub use lines::{LONGEST, lines_end};
pub use outcomes::{EndTried, PairEnd, Side, Tally};
