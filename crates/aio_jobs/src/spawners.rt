//! What runs workers.

ghost use Rattle.std.specs.Prelude.{◌≡◌};
ghost use Rattle.aio_base.specs.declared.jobs.Placement.TheVariants as placement;

use aio_base::{Placement, Spawner};

/// Runs the jobs of a call on the caller, one after another.
#[derive(Clone, Copy, Debug, Drop, PartialEq, Eq)]
pub struct CallerSpawner;

impl Spawner for CallerSpawner {
    fn placement(&self) -> Placement
        ensures { result ≡ placement.Caller }
    {
        Placement::Caller
    }
}

/// Runs the jobs of a call on threads of std, one each as far as threads can be had.
#[derive(Clone, Copy, Debug, Drop, PartialEq, Eq)]
pub struct ThreadSpawner;

impl Spawner for ThreadSpawner {
    fn placement(&self) -> Placement
        ensures { result ≡ placement.Threads }
    {
        Placement::Threads
    }
}
