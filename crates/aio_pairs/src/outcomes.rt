//! What a call of an end comes to; the two sides of a pair, and what it may come to.

ghost use Rattle.std.specs.Prelude.{◌≡◌, ◌+◌, ◌<◌, ◌^◌, ◌||◌, nat_lt, true, false};

use aio_base::{ArmFault, CountFault, Moment, Poll, Waker};
use aio_future::TryFault;

/// What a read or a write of an end comes to.
#[derive(Clone, Copy, Debug, PartialEq, Eq)]
pub struct EndTried {
    /// The number of bytes that went over, of which 0 read are the end; or pending, while the direction
    /// is waited for.
    pub answer: Poll<Result<usize, TryFault>>,
    /// The waker of another task that waited by polls of this direction, and does no longer.
    pub replaced: Option<Waker>,
    /// How many rounds had begun by the host, with which the source was polled.
    pub rounds: u64,
    /// What the wake of the replaced waker answered; `Ok` where nobody was replaced.
    pub woken: Result<(), CountFault>,
}

/// One of the two connections of a pair.
#[derive(Clone, Copy, Debug, PartialEq, Eq)]
pub enum Side {
    /// The one that came first.
    A,
    /// The one that came second.
    B,
}

/// What a pair came to.
#[derive(Clone, Copy, Debug, PartialEq, Eq)]
pub enum PairEnd {
    /// Both connections ended, and every whole line of either was written to the other: so many bytes
    /// altogether.
    Ended { to_a: u64, to_b: u64 },
    /// At `now`, the idle time had passed since `last`, the moment of the last poll that read or wrote
    /// a byte.
    Idle { last: Moment, now: Moment },
    /// A line has no line feed within its first 4,096 bytes: these are the last of the side's first `at`
    /// bytes.
    TooLong { side: Side, at: u64 },
    /// A connection failed in a read, between these two counts of its faults.
    ReadFault(CountFault),
    /// A connection failed in a write, between these two counts of its faults.
    WriteFault(CountFault),
    /// A connection that was blocked could not be armed.
    ArmFault(ArmFault),
    /// The notifier of the host failed.
    NotifyFault(CountFault),
    /// There was no memory for the timer.
    OutOfMemory,
}

/// What went over from one side to the other in the running poll.
#[derive(Clone, Copy)]
pub struct Tally {
    /// How many bytes were read of the side.
    pub read: usize,
    /// Whether any byte was written to the other.
    pub wrote: bool,
}

impl Tally {
    /// Nothing went over yet.
    pub fn new() -> Tally
        ensures { result ≡ record { read = 0; wrote = false } }
    {
        Tally {
            read: 0,
            wrote: false,
        }
    }

    /// So many bytes more were read.
    pub fn add_read(&mut self, n: usize)
        requires { self.old.read + n < 2 ^ 64 }
        ensures { self.new ≡ record { read = self.old.read + n; wrote = self.old.wrote } }
    {
        self.read += n;
    }

    /// So many bytes more were written.
    pub fn add_written(&mut self, n: usize)
        ensures { self.new ≡ record { read = self.old.read; wrote = self.old.wrote || nat_lt 0 n } }
    {
        if n > 0 {
            self.wrote = true;
        }
    }

    /// Whether anything went over.
    pub fn has_moved(&self) -> bool
        ensures { result ≡ (self.now.wrote || nat_lt 0 self.now.read) }
    {
        self.wrote || self.read > 0
    }
}
