//! Faults as the devices in memory count them.

ghost use Rattle.std.specs.Prelude.{◌≡◌, ◌+◌, ◌-◌, ◌^◌, min};

use aio_base::CountFault;

/// The first fault of a device after so many.
pub fn fault_after(before: u64) -> CountFault
    ensures { result ≡ record { before = before; after = min (before + 1) (2 ^ 64 - 1) } }
{
    CountFault {
        before,
        after: before.saturating_add(1),
    }
}
