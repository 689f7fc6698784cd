//! The lock of a shared reactor: what each of its members knows, and what it holds.

use std::collections::LinkedList;

/// What a member of a reactor lock knows. No value of it is made: contracts alone speak of it.
pub struct ClaimView<I> {
    /// Whether the member holds the round cell.
    pub holds: bool,
    /// Whether the member is the first one, and the cell is still to be made.
    pub opening: bool,
    /// The words to which the cell's round seat belongs.
    pub words: I,
    /// Whether the half of the poller that waits is sure.
    pub sure_of_wait: bool,
    /// Whether the reactor is sure of its arms.
    pub sure_of_arms: bool,
    /// How many members were split off it.
    pub splits: u64,
    /// Its place among all members: for it and each member that it descends from, the first one left out,
    /// the number of splits that came before its own.
    pub lineage: LinkedList<u64>,
}

/// What a reactor lock holds: a round, the seat that begins rounds at the words of the reactor, and the
/// half of a poller that waits.
pub trait RoundItem<I> {
    ghost use Rattle.aio_rules.specs.RoundLock.{About};

    /// What the value says of its words, of its wait and of the arms agrees with this.
    ghost says: { Self → About I → Type 0 };

    /// Its round seat is idle.
    ghost is_idle: { Self → Type 0 };
}
