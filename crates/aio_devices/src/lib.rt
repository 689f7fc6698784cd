//! Small devices in memory, for what stands above a device: arms, a connection, halves of a poller that
//! wait, notifiers and a clock.
//!
//! It stands on `aio_base` alone. Each device promises by the relation of its trait what a call answers and
//! what it leaves, and tells whether it is sure and which bounds it has; its `new` says what it makes.
#![tactic(auto)]

mod arms;
mod blocking;
mod bytes;
mod clock;
mod faults;
mod notify;
mod script;
mod scripted;
mod waits;

pub use arms::{FailingArm, SureArm};
pub use blocking::{BlockingNotify, BlockingWait, blocking_pair};
pub use bytes::MemBytes;
pub use clock::{MemClock, clock_at, clock_until};
pub use faults::fault_after;
pub use notify::{FailingNotify, MemNotify};
pub use script::Script;
pub use scripted::{ScriptedWait, WaitAnswer};
pub use waits::{FailingWait, MemWait};
