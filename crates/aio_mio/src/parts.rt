//! The devices over one poll of the machine.

ghost use Rattle.std.specs.Prelude.{◌≡◌, [], IfOk};

use crate::notify::MioNotify;
use crate::ports::MioPort;
use crate::selector::Selector;
use crate::waits::MioWait;
use aio_base::OutOfMemory;
use mio::Poll;
use std::alloc::Global;
use std::net::Net;

/// Why the devices were not made. No clause says when the system refuses: that is of the outside.
#[derive(Clone, Copy, Debug, PartialEq, Eq)]
pub enum MioRefusal {
    /// The system refused one of five calls: `epoll_create1` for the poll of the connections and for
    /// that of the listener, `fcntl` (`F_DUPFD_CLOEXEC`) for a second owner of the registrations,
    /// `eventfd` for the waker, and `epoll_ctl` to watch it. Each of them fails where a limit of the
    /// system is reached, of descriptors, of watches or of its own memory.
    System,
    /// Memory ran out for what the devices share or for the events of a look.
    OutOfMemory,
}

impl From<OutOfMemory> for MioRefusal {
    ghost use Rattle.std.specs.Prelude.{◌≡◌};
    ghost use Rattle.aio_mio.specs.declared.parts.MioRefusal.TheVariants as refusal;

    ghost from_gives = { λ out refused. refused ≡ refusal.OutOfMemory };

    fn from(_: OutOfMemory) -> MioRefusal {
        MioRefusal::OutOfMemory
    }
}

/// A port, the half of a poller that waits for the events of the port's connections, and a notifier of
/// that half. The three share one poll of the system; the port's listener has another. None has counted
/// anything.
///
/// # Errors
///
/// `System` where the system refused a descriptor, `OutOfMemory` where memory ran out.
pub fn mio_parts<R: Net + Copy>(
    alloc: Global,
    rt: &R,
) -> Result<(MioPort<R>, MioWait, MioNotify), MioRefusal>
    ensures port { IfOk result (λ parts. parts.0.faults ≡ 0) }
    ensures wait { IfOk result (λ parts.
        parts.1 ≡ record { left = []; waits = 0; faults = 0 }) }
    ensures notify { IfOk result (λ parts. parts.2 ≡ record { calls = 0; faults = 0 }) }
{
    let Ok(poll) = Poll::new(rt) else {
        return Err(MioRefusal::System);
    };
    let selector = Selector::shared(alloc, &poll)?;
    let Ok(wait) = MioWait::new(alloc, poll, &selector) else {
        return Err(MioRefusal::OutOfMemory);
    };
    match MioPort::new(alloc, rt, &selector) {
        Ok(port) => Ok((port, wait, MioNotify::new(selector))),
        Err(refusal) => Err(refusal),
    }
}
