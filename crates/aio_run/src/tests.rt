//! Tests of whole traces, row by row: traces and their answers through the top call, the spellings in which
//! a line is read, traces that a number describes, relays, and two jobs on shared cells.
//!
//! They stand in the crate of the top call, so that no more crates are below them than below that call.

mod asserts;
mod failing_calls;
mod generated;
mod kits;
mod relays;
mod runs;
mod spellings;
mod stresses;
mod traces;
