//! The system's answers as those of a device.

ghost use Rattle.std.specs.Prelude.{◌≡◌, ◌↔◌, false, IsTrue, IsErr, OnOk};
ghost use Rattle.aio_base.specs.Devices.{HasCause};
ghost use Rattle.aio_mio.specs.Answers.{KeepsOk, WentDry};

use aio_base::{Did, Failed};

/// The same answer with no more than `Failed` for an error, which is counted.
pub(crate) fn counted<T, E: Drop>(answer: Result<T, E>, faults: &mut u64) -> Result<T, Failed>
    ensures answer { KeepsOk answer result }
    ensures cause { HasCause faults.old faults.new false (IsErr result) }
    ensures stays { OnOk result (faults.new ≡ faults.old) }
{
    match answer {
        Ok(value) => Ok(value),
        Err(_) => {
            *faults = faults.saturating_add(1);
            Err(Failed)
        }
    }
}

/// Whether a read or a write with room for so many bytes left nothing that could go over at once
/// (`epoll(7)`: of a stream this is seen by a call that moved fewer bytes than it was asked for). After
/// the end of a connection and after a fault the system has still something to tell; where the source is
/// unsure, it may have behind fewer bytes too.
pub(crate) fn went_dry(answer: Result<Did, Failed>, room: usize, unsure: bool) -> bool
    ensures { IsTrue result ↔ WentDry answer room unsure }
{
    match answer {
        Ok(Did::Bytes(count)) => !unsure && 0 < count && count < room,
        Ok(Did::Blocked) => true,
        Err(_) => false,
    }
}
