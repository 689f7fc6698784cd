//! A lock whose tokens know what it holds.
//!
//! It stands on the rules of `aio_rules` and on the kit's table of atomic words. The value that
//! it holds has two notes, and each owner is the token of one of them: it knows what its own last give
//! left there, whatever visitors and the other owner did in between, for a visitor changes no note.
//! The rule of the lock holds after every step of every thread. Only `take` and `visit` wait; every
//! other call returns, and only `vacant` takes memory.
#![tactic(auto)]

mod gate;
mod lock;
mod plays;

pub use lock::{Lock, Owner, Visit};
