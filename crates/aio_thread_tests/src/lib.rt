//! Tests of several threads that block on tasks over one reactor: that what one does ends the sleep of another,
//! that the rounds of one serve the other, and that all of them end.
//!
//! They stand above that crate, so that it is not proved a second time for its tests, and all of them belong
//! to the test build. What a thread does is a table of acts with what comes of each (`acts`). Each of the
//! threads of a reactor carries out a table of its own, at the same time (`players`), over devices that
//! answer at once and over such as block until they are told (`teams`).
#![tactic(auto)]

#[cfg(test)]
mod acts;
#[cfg(test)]
mod asleep;
#[cfg(test)]
mod asserts;
#[cfg(test)]
mod clocks;
#[cfg(test)]
mod masks;
#[cfg(test)]
mod meetings;
#[cfg(test)]
mod pairs;
#[cfg(test)]
mod players;
#[cfg(test)]
mod sixteen;
#[cfg(test)]
mod tasks;
#[cfg(test)]
mod teams;
