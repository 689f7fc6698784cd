//! Tests of an executor of several threads: that its tasks run at the same time, that work is stolen, that a
//! woken task is polled again, and that the answers stand in the order of the tasks.
//!
//! They stand above that crate, so that it is not proved a second time for its tests, and all of them belong
//! to the test build.
#![tactic(auto)]

#[cfg(test)]
mod asserts;
#[cfg(test)]
mod flags;
#[cfg(test)]
mod rows;
#[cfg(test)]
mod wakers;
