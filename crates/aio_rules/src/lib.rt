//! The rules of what threads share: of the words, of a lock whose tokens know what it holds, of the lock of
//! a shared reactor, and of its queue of operations.
//!
//! It stands on nothing but std. A rule says what holds between any two steps of any threads; the laws, as
//! contracts of functions with no work to do, say that it holds at the start, that each kind of step
//! keeps it, and what follows from it. The crates that make such steps cite the rules.
//! A value that a lock holds is `Noted`: it has two notes.
#![tactic(auto)]

pub mod claim_laws;
pub mod claims;
pub mod lock_laws;
pub mod lock_views;
pub mod notes;
pub mod operation_laws;
pub mod operations;
pub mod seats;
pub mod word_laws;

pub use claims::{ClaimView, RoundItem};
pub use lock_views::{LockSeat, LockView};
pub use notes::Noted;
pub use operations::{OpEntry, PushedOp, QueueSeat};
pub use seats::{Mode, Owed, Role, SeatView, WordStep};
