//! Tests of a reactor that several threads share, over the devices in memory.
//!
//! They stand above that crate, so that it is not proved a second time for its tests, and all of them belong
//! to the test build. What one thread does is a table of acts with what comes of each (`acts`), which a thread
//! with a source and a clock carries out (`owners`).
//!
//! A body that has a reactor lets go of it by `drop`: that call is proved once for the type, and the end of a
//! scope in each body.
#![tactic(auto)]

#[cfg(test)]
mod acts;
#[cfg(test)]
mod asserts;
#[cfg(test)]
mod events;
#[cfg(test)]
mod floods;
#[cfg(test)]
mod hosts;
#[cfg(test)]
mod owners;
#[cfg(test)]
mod reactors;
#[cfg(test)]
mod scripts;
#[cfg(test)]
mod seats;
#[cfg(test)]
mod tables;
#[cfg(test)]
mod threads;
