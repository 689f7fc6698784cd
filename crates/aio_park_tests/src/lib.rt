//! Tests of a thread that blocks on tasks over a reactor, and of the wakes by which it hands over, over the
//! devices in memory.
//!
//! They stand above that crate, so that it is not proved a second time for its tests, and all of them belong
//! to the test build. What a thread does is a table of acts with what comes of each (`acts`), which a thread
//! with a source of its own carries out (`readers`). Of several threads beside each other `aio_thread_tests`
//! has the tests, of groups of tasks `aio_serve_tests`.
//!
//! A body that has a reactor lets go of it by `drop`: that call is proved once for the type, and the end of a
//! scope in each body.
#![tactic(auto)]

#[cfg(test)]
mod acts;
#[cfg(test)]
mod asserts;
#[cfg(test)]
mod blocking;
#[cfg(test)]
mod hand_over;
#[cfg(test)]
mod readable;
#[cfg(test)]
mod readers;
#[cfg(test)]
mod runs;
#[cfg(test)]
mod sources;
#[cfg(test)]
mod tasks;
#[cfg(test)]
mod waits;
