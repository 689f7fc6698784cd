//! Assertions as calls: what stands in the body of a test makes its proof longer by the square, and
//! an assertion is long.

ghost use Rattle.std.specs.Prelude.{◌≡◌};

use aio_base::Moment;
use std::fmt::Debug;
use std::process::Abort;

/// What a test needs that allocates.
pub(crate) const MEMORY: &str = "memory is left";

/// Asserts that what was found is what was wanted.
pub(crate) fn same<T: Debug + Drop + PartialEq>(rt: &impl Abort, found: T, wanted: T) {
    assert_eq!(rt; found, wanted);
}

/// The moment so many nanoseconds after the clock's start.
pub(crate) fn moment(rt: &impl Abort, nanoseconds: u64) -> Moment
    ensures { result ≡ nanoseconds }
{
    Moment::new(nanoseconds).expect(rt, "the moment is at most 10^18")
}
