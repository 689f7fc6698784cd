//! Tests of what threads share below the shared reactor: the words, the lock whose tokens know what it holds,
//! deques of places, and sources in such locks that record their calls, with the calls that a seed gives and two
//! jobs on eight of them.
//!
//! They stand above those crates, so that none of them is proved a second time for its tests. All of them
//! belong to the test build.
#![tactic(auto)]

#[cfg(test)]
mod asserts;
#[cfg(test)]
mod cells;
#[cfg(test)]
mod draws;
#[cfg(test)]
mod jobs;
#[cfg(test)]
mod locks;
#[cfg(test)]
mod turns;
#[cfg(test)]
mod waiters;
#[cfg(test)]
mod words;
