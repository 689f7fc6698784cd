//! A poller and a clock in memory: what they answer was told to them before, so that a run can be
//! replayed.
//!
//! It stands on `aio_base` alone. Of the poller it promises the whole of its state after each call:
//! its interests, the events that are noted and not yet given, the failures that are due, and its two
//! counts. The poller tells its interests, and it is never sure. Of the clock it promises its moment,
//! which never goes back.
#![tactic(auto)]

mod clock;
mod events;
mod interests;
mod poller;

pub use clock::{Back, ScriptClock};
pub use interests::InterestTable;
pub use poller::ScriptPoller;
