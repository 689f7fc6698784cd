//! One source of a reactor: who waits for its directions, which rounds handled its events, and what
//! the poller was asked for.
//!
//! It stands on `aio_base`, on `aio_listen`, of which it uses the list of tickets with their wakers
//! alone, and on `aio_rules`, for the trait of values with notes. It promises for each call its
//! answer and the source after it, by the rules of `specs/`, for whatever the poller that it is
//! lent answers; which call it made on that poller; and of every source that each direction with a
//! waiter was asked for, or that its last arm failed. A cell, the source beside what is armed for
//! it, has a note for a lock that no call changes. `InHand` says what a round with events in hand is
//! to whoever has the sources, and `Visit` what is done in one of them while it is entered. A table promises what is at each key, and which key is the least free
//! one.
#![tactic(auto)]

mod answers;
mod arming;
mod direction;
mod directions;
pub mod in_hand;
mod key_table;
mod late;
pub mod notes;
mod source;
pub mod visit;

pub use aio_base::Poll;
pub use answers::{ListenRefusal, Listened, Polled};
pub use in_hand::{InHand, RoundFault};
pub use key_table::KeyTable;
pub use source::{SourceCell, SourceState};
pub use visit::{Visit, Visited};
