//! Why a core refuses a call.

use aio_base::CountFault;

/// Why a call of a core was refused. A fault of the poller carries its counts of faults before and
/// after the poller's call.
#[derive(Clone, Copy, Debug, PartialEq, Eq)]
pub enum CoreRefusal {
    /// The poller could not register the source.
    AddFault(CountFault),
    /// The poller's wait failed.
    WaitFault(CountFault),
    /// The poller could not take the source out.
    RemoveFault(CountFault),
    /// A round runs.
    Locked,
    /// No round runs.
    NoRound,
    /// So many events are in hand.
    EventsLeft(u32),
    /// No source has this key.
    NoSource,
    /// The source has a listener.
    InUse,
    /// 4,096 sources live.
    Full,
    /// 2^64 - 1 rounds have begun.
    RoundsSpent,
    /// Memory ran out.
    OutOfMemory,
    /// A round runs, and no event is in hand.
    NothingInHand,
    /// No listener has this number.
    NoListener,
    /// 2^64 - 1 tickets of the direction, or numbers of listeners, were drawn.
    TicketsSpent,
}
