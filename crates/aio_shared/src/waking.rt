//! The wakes of a list of wakers.

ghost use Rattle.std.specs.Prelude.{◌≡◌};
ghost use Rattle.aio_words.specs.Seats.{Belongs};
ghost use Rattle.aio_shared.specs.Reacting.{first_fault};
ghost use Rattle.aio_shared.specs.Waking.{WakesThese};

use aio_base::{CountFault, Notify, Waker};
use aio_words::{Pass, Words};

/// Wakes each of these wakers, in order, also past one that failed. The first fault, where there was
/// one.
pub(crate) fn wake_each<N: Notify>(
    words: &Words,
    p: &mut Pass,
    wakers: &[Waker],
    n: &mut N,
) -> Option<CountFault>
    requires { Belongs words.now p.old }
    ensures wakes { WakesThese N.call_count N.fault_count N.is_sure N.notify_step words.now.parkers
        wakers.now p.old p.new n.old n.new result }
{
    let mut first = None;
    for waker in wakers {
        let woken = words.wake(p, *waker, n);
        first = first_of(first, woken);
    }
    first
}

/// The first fault, with one more answer.
pub(crate) fn first_of(
    first: Option<CountFault>,
    woken: Result<(), CountFault>,
) -> Option<CountFault>
    ensures { result ≡ first_fault first woken }
{
    match first {
        Some(fault) => Some(fault),
        None => match woken {
            Ok(()) => None,
            Err(fault) => Some(fault),
        },
    }
}
