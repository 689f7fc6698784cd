//! Tests of names, of bytes and their lines, of the lines of the language both ways, and of traces that are
//! replayed or counted by a call of their own.
//!
//! They stand above the crates that they test, so that none of those is proved a second time for its
//! tests. All of them belong to the test build.
#![tactic(auto)]

#[cfg(test)]
mod asserts;
#[cfg(test)]
mod bytes;
#[cfg(test)]
mod line_reader;
#[cfg(test)]
mod lines;
#[cfg(test)]
mod names;
#[cfg(test)]
mod replays;
#[cfg(test)]
mod steps;
