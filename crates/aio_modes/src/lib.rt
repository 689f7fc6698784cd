//! Pollers in level, edge and edge-oneshot mode (`polling` 3, `lib.rs`, `PollMode`), and the
//! adapter that makes each of them a poller in oneshot mode.
//!
//! It stands on `aio_base` and, for its tables of interests, on `aio_script`. `RawPoller` is what a
//! poller in any of the three modes promises; where it tells its lists (what is asked for, what is
//! ready, which edges are not given yet), each call is said by them. `RawScript` is one in memory
//! that tells them. Of `OneShot` over any raw poller it is proved that it is a `Poller`; where the
//! raw one tells its lists, a wait gives exactly what is owed and armed, and swallows no direction
//! that is both.
#![tactic(auto)]

mod answering;
mod interests;
mod laws;
mod mode;
mod one_shot;
mod owed;
mod raw;
mod script;

pub use interests::common_of;
pub use laws::{cuts_keep_what_is_armed, given_keys_rise};
pub use mode::Mode;
pub use one_shot::OneShot;
pub use raw::RawPoller;
pub use script::{RawScript, RawWhich};
