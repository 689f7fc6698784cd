//! Moments of a test.

ghost use Rattle.std.specs.Prelude.{◌≡◌};

use aio_base::Moment;
use std::process::Abort;

/// The moment so many nanoseconds after the clock's start.
pub(crate) fn moment(rt: &impl Abort, nanoseconds: u64) -> Moment
    ensures { result ≡ nanoseconds }
{
    Moment::new(nanoseconds).expect(rt, "the moment is at most 10^18")
}
