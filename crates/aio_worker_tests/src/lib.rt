//! Tests of a server of lines, with one worker on the caller and with several on threads, of the lines that
//! are told of its pairs, and of a relay over sockets of this machine.
//!
//! Of the relay they show what no contract sees, since that is what the system does with bytes and
//! connections. What it writes goes over a connection of the test too, so the clients learn the port from
//! its first line, and the test sees where its text ends.
#![tactic(auto)]

#[cfg(test)]
mod arm_faults;
#[cfg(test)]
mod asserts;
#[cfg(test)]
mod clients;
#[cfg(test)]
mod failing_waits;
#[cfg(test)]
mod gates;
#[cfg(test)]
mod lines;
#[cfg(test)]
mod relays;
#[cfg(test)]
mod rows;
#[cfg(test)]
mod servers;
#[cfg(test)]
mod threads;
