//! What a token of a lock knows whose value has two notes.

use std::collections::LinkedList;

/// What a token of a lock knows. No value of it is made: contracts alone speak of it.
pub struct LockView {
    /// Whether the token owns number 0.
    pub owns_first: bool,
    /// Whether the token owns number 1.
    pub owns_second: bool,
    /// Note 0, where the token owns it.
    pub first: LinkedList<u64>,
    /// Note 1, where the token owns it.
    pub second: LinkedList<u64>,
    /// The two notes of the value that the token took out and has not put back.
    pub taken: Option<(LinkedList<u64>, LinkedList<u64>)>,
}

/// A seat of the lock's table: what its token knows, and whether the lock's one slot is out with it.
pub struct LockSeat {
    /// What the token knows.
    pub view: LockView,
    /// Whether the slot is out with this seat.
    pub has_slot: bool,
}
