//! Tests of the second version of the trace language: of names, of lines both ways, and of traces of the
//! first version that are written in it.
//!
//! They stand above the crates that they test, so that none of those is proved a second time for its
//! tests. All of them belong to the test build.
#![tactic(auto)]

#[cfg(test)]
mod asserts;
#[cfg(test)]
mod lines;
#[cfg(test)]
mod migrations;
