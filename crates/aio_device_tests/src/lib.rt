//! Tests of devices: as a generic caller sees them through their traits, in memory, and over sockets of this
//! machine.
//!
//! They stand above those crates, so that none of them is proved a second time for its tests. Of the devices
//! over sockets they show what no contract sees, since that is what the system does. Each limit of a wait is
//! far longer than what it waits for takes, so that a test waits long only where it fails.
#![tactic(auto)]

#[cfg(test)]
mod asserts;
#[cfg(test)]
mod clocks;
#[cfg(test)]
mod connections;
#[cfg(test)]
mod edges;
#[cfg(test)]
mod joined;
#[cfg(test)]
mod memory_connections;
#[cfg(test)]
mod memory_ports;
#[cfg(test)]
mod peers;
#[cfg(test)]
mod plays;
#[cfg(test)]
mod ports;
#[cfg(test)]
mod reads;
#[cfg(test)]
mod traits;
#[cfg(test)]
mod waits;
