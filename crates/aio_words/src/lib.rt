//! The words that threads share: the ticker of rounds, each parker's mask of woken slots, and what ends
//! the wait of the thread that waits for events (`async-io` 2, `driver.rs`; `polling` 3, `lib.rs`).
//!
//! It stands on the rules of `aio_rules` and on the kit's table of atomic words. It promises that
//! the rule of the words holds after every step of every thread, and of each call which steps it made,
//! in order, and what they found. Only `park` waits; every other call takes no memory but `new`, and
//! returns.
#![tactic(auto)]

mod plays;
mod sleepers;
mod table;
mod words;

pub use words::{Pass, RoundSeat, RoundsSpent, Words};
