//! What the calls of a timer answer.

use aio_base::{CountFault, Moment};

/// Why a call on a timer did not do its work, or not all of it.
#[derive(Clone, Copy, Debug, PartialEq, Eq)]
pub enum TimerFault {
    /// The host's pass has no id left. The timer and the host are as they were.
    IdsSpent,
    /// Memory ran out. The timer keeps its deadline, its period and its waker, and the next call does
    /// the same work again; its registration may have been taken out.
    OutOfMemory,
    /// All was done, but the host's notifier failed.
    Notify {
        /// The deadline that was reached, where the call would have been ready.
        fired: Option<Moment>,
        /// The notifier's counts of faults before and after the insert.
        fault: CountFault,
    },
}
