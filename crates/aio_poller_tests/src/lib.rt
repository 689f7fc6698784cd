//! Tests of pollers, by public names alone: in level, edge and edge-oneshot mode behind the adapter
//! that makes each a poller in oneshot mode, over the one in memory, over one that answers anything,
//! and below a reactor; one of one's own under a core; and a wait in memory that nobody ends.
//!
//! They stand above those crates, so that none of them is proved a second time for its tests, and
//! all belong to the test build.
#![tactic(auto)]

#[cfg(test)]
mod adapters;
#[cfg(test)]
mod asserts;
#[cfg(test)]
mod blocking;
#[cfg(test)]
mod cores;
#[cfg(test)]
mod own_poller;
#[cfg(test)]
mod rows;
#[cfg(test)]
mod strange;
