//! Tests of the relay of lines and of what it is made of: entered sources, and pairs, over the devices in
//! memory.
//!
//! They stand above those crates, so that none of them is proved a second time for its tests, and all belong to
//! the test build. What is done is a table of acts with what comes of each; what the other end of a connection
//! does stands in a row as well (`peers`).
#![tactic(auto)]

#[cfg(test)]
mod asserts;
#[cfg(test)]
mod ends;
#[cfg(test)]
mod failing_calls;
#[cfg(test)]
mod hosts;
#[cfg(test)]
mod lines;
#[cfg(test)]
mod listening;
#[cfg(test)]
mod peers;
#[cfg(test)]
mod relays;
#[cfg(test)]
mod timers;
#[cfg(test)]
mod tries;
