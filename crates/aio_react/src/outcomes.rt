//! What the handling of an event and a whole round of a core answer.

use aio_base::{ArmFault, Key};
use aio_source::RoundFault;

/// An event that was handled.
#[derive(Clone, Copy, Debug, PartialEq, Eq)]
pub struct Handled {
    /// The key that the event named.
    pub key: Key,
    /// The fault of the poller where it could not be armed again for the source.
    pub fault: Option<ArmFault>,
}

/// A whole round that ended.
#[derive(Clone, Copy, Debug, PartialEq, Eq)]
pub struct Reacted {
    /// Its number.
    pub number: u64,
    /// How many events its wait gave, 0 where that failed or was interrupted.
    pub events: u32,
    /// What failed in it first.
    pub fault: Option<RoundFault>,
}
