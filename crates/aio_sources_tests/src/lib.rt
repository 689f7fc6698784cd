//! Tests of the sources of a reactor that threads share, over the devices in memory: that they join it, start
//! with it, and are closed beside other threads; and of a source in a lock of its own.
//!
//! They stand above that crate, so that it is not proved a second time for its tests, and all of them belong
//! to the test build.
//!
//! A body that has a reactor lets go of it by `drop`: that call is proved once for the type, and the end of a
//! scope in each body.
#![tactic(auto)]

#[cfg(test)]
mod asserts;
#[cfg(test)]
mod calls;
#[cfg(test)]
mod cells;
#[cfg(test)]
mod closing;
#[cfg(test)]
mod sources;
#[cfg(test)]
mod starting;
#[cfg(test)]
mod waiting;
