//! The words that threads share, as the definitions speak of them: what each seat knows, and the
//! steps that a seat makes on a word.
//!
//! The words are the ticker (`async-io` 2, `reactor.rs`, `Reactor::ticker`), `notified` (`polling` 3,
//! `lib.rs`, `Poller::notified`) and, for each parker, a mask of woken slots and a flag that says
//! whether its thread is blocked on the poller (`async-io` 2, `driver.rs`, the task's `IO_BLOCKED`
//! and the waker's `IO_POLLING`). No value of these types is made by a program: contracts alone
//! speak of them.

use std::collections::LinkedList;

/// What a seat is for. No step changes it.
pub enum Role {
    /// The one seat that begins rounds and waits for events.
    Round,
    /// The seat of one thread.
    Pass,
}

/// What a seat still has to do in the call that it is in the middle of.
pub enum Owed {
    /// Nothing.
    Nothing,
    /// A look at the blocked flag of this parker, whose mask it found empty.
    Look(u32),
    /// An exchange of `notified`, for this parker, whose flag it found set.
    Tell(u32),
}

/// What the round seat does.
pub enum Mode {
    /// It blocks no parker.
    Idle,
    /// It has set the blocked flag of this parker, and may find woken slots in its mask.
    Block(u32),
    /// It found the mask of this parker empty after it had blocked it, and waits for events.
    Wait(u32),
}

/// One step of a seat on one word, with the value that it found there. A number before the value
/// found is the parker, and after it the bit that is set or the value that is stored.
pub enum WordStep {
    /// A load of the ticker.
    LoadTicker(u64),
    /// An addition of one to the ticker.
    AddTicker(u64),
    /// An `or` that sets one bit of a mask: parker, bit, value found.
    SetBit(u32, u32, u64),
    /// A load of a blocked flag: parker, value found.
    LoadBlocked(u32, u64),
    /// A compare-exchange of `notified` from 0 to 1, which wins where it found 0.
    ExchangeNotified(u64),
    /// A store to a blocked flag: parker, value stored, value found.
    StoreBlocked(u32, u64, u64),
    /// A swap of a mask to 0: parker, value found.
    SwapMask(u32, u64),
    /// A load of a mask: parker, value found.
    LoadMask(u32, u64),
    /// A swap of `notified` to 0.
    SwapNotified(u64),
}

/// What a seat knows.
pub struct SeatView {
    /// What the seat is for.
    pub role: Role,
    /// The greatest value of the ticker that it has seen.
    pub seen: u64,
    /// What it still has to do in its call.
    pub owes: Owed,
    /// What it does; a pass is idle.
    pub mode: Mode,
    /// Its own steps, in order.
    pub did: LinkedList<WordStep>,
    /// How many seats were split off it.
    pub splits: u64,
    /// Its place among all seats: for it and each seat that it descends from, the first one left out, the
    /// number of splits that came before its own.
    pub lineage: LinkedList<u64>,
    /// The steps of the seats that it took in, and of those that these had taken in.
    pub joined: LinkedList<WordStep>,
    /// How many seats were split off those.
    pub joined_splits: u64,
}
