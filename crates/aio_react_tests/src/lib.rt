//! Tests of a reactor on one thread and of what it hosts: cores, hosts of timers, and timers, through their
//! bounds.
//!
//! They stand above every crate that they use, so that none of those is proved a second time for its
//! tests. All of them belong to the test build, also a host of the tests' own.
#![tactic(auto)]

#[cfg(test)]
mod asserts;
#[cfg(test)]
mod core_rounds;
#[cfg(test)]
mod cores;
#[cfg(test)]
mod hosted;
#[cfg(test)]
mod hostile_poller;
#[cfg(test)]
mod hosts;
#[cfg(test)]
mod listeners;
#[cfg(test)]
mod priority;
#[cfg(test)]
mod reactors;
#[cfg(test)]
mod timers;
