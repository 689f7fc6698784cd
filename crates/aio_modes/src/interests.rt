//! Interests as sets of directions.

ghost use Rattle.std.specs.Prelude.{◌≡◌};
ghost use Rattle.aio_base.specs.World.{has_any};
ghost use Rattle.aio_modes.specs.Interests.{common, joined};

use aio_base::Interest;

/// The directions that are in both.
pub fn common_of(a: Interest, b: Interest) -> Interest
    ensures { result ≡ common a b }
{
    Interest::from_fn(|dir| a.has(dir) && b.has(dir))
}

/// The directions that are in one of them or in both.
pub(crate) fn join(a: Interest, b: Interest) -> Interest
    ensures { result ≡ joined a b }
{
    Interest::from_fn(|dir| a.has(dir) || b.has(dir))
}

/// Whether an interest names a direction.
pub(crate) fn has_some(on: Interest) -> bool
    ensures { result ≡ has_any on }
{
    !on.is_none()
}
