//! Tests of the lines of a log, by public names alone. They stand above their crate, so that it is not proved
//! a second time for its tests.
#![tactic(auto)]

#[cfg(test)]
mod asserts;
#[cfg(test)]
mod lines;
