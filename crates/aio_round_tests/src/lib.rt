//! Tests of a round and of what it is made over: the poller in memory with its table of interests, sources over
//! arms of several kinds, and rounds in sections, by public names alone.
//!
//! They stand above those crates, so that none of them is proved a second time for its tests, and all belong to
//! the test build.
#![tactic(auto)]

#[cfg(test)]
mod arms;
#[cfg(test)]
mod asserts;
#[cfg(test)]
mod poller;
#[cfg(test)]
mod polling;
#[cfg(test)]
mod rounds;
#[cfg(test)]
mod scripts;
#[cfg(test)]
mod sources;
