//! Tests of the listeners of a direction, by public names alone. They stand above their crate, so that it is
//! not proved a second time for its tests.
#![tactic(auto)]

#[cfg(test)]
mod asserts;
#[cfg(test)]
mod kept;
#[cfg(test)]
mod listeners;
#[cfg(test)]
mod removals;
