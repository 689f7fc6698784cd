//! Tests of registered timers without a reactor: the book of them, and the queue of operations on it.
//!
//! They stand above those crates, so that none of them is proved a second time for its tests, and all belong to
//! the test build.
#![tactic(auto)]

#[cfg(test)]
mod asserts;
#[cfg(test)]
mod books;
#[cfg(test)]
mod calls;
#[cfg(test)]
mod draining;
#[cfg(test)]
mod played;
#[cfg(test)]
mod queue;
#[cfg(test)]
mod timers;
