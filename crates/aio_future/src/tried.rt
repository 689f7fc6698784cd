//! The answers of a read or a write over an entered source.

ghost use Rattle.std.specs.Prelude.{◌≡◌};
ghost use Rattle.aio_future.specs.Tries.{tried_of};

use aio_base::{ArmFault, CountFault, Poll, Waker};
use aio_source::Visited;

/// How a read or a write of an entered source failed. Each case has the counts of the connection's
/// faults before and after what failed.
#[derive(Clone, Copy, Debug, PartialEq, Eq)]
pub enum TryFault {
    /// The connection's read.
    Read(CountFault),
    /// The connection's write.
    Write(CountFault),
    /// The arming of the connection, which was to be waited for.
    Arm(ArmFault),
}

/// What a read or a write of an entered source comes to.
#[derive(Clone, Copy, Debug, PartialEq, Eq)]
pub struct Tried {
    /// The number of bytes that were moved, of which 0 read are the end; or pending, while the
    /// direction is waited for.
    pub answer: Poll<Result<usize, TryFault>>,
    /// The waker of another task that waited by polls of this direction, and does no longer. It is to
    /// be woken.
    pub replaced: Option<Waker>,
}

impl Tried {
    /// What a read or a write comes to, by what its try inside the source came to.
    #[inline(always)]
    pub fn of(visited: Visited<Result<usize, TryFault>>) -> Tried
        ensures { result ≡ tried_of visited }
    {
        let answer = match visited.answer {
            Poll::Ready(Ok(given)) => Poll::Ready(given),
            Poll::Ready(Err(fault)) => Poll::Ready(Err(TryFault::Arm(fault))),
            Poll::Pending => Poll::Pending,
        };
        Tried {
            answer,
            replaced: visited.replaced,
        }
    }
}
