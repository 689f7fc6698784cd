//! A port that cannot be bound.

ghost use Rattle.std.specs.Prelude.{◌≡◌, ◌≤◌, false};
ghost use Rattle.aio_base.specs.Devices.{raised};

use crate::connections::MemConn;
use aio_base::{Failed, Faults, Port};
use std::sync::Wait;

/// A port of which each call fails.
#[derive(Drop)]
pub struct ClosedPort {
    /// How many calls were made, each of which failed; at its end it stands still.
    pub failed: u64,
}

impl ClosedPort {
    /// A port of which no call was made.
    pub fn new() -> ClosedPort
        ensures { result ≡ record { failed = 0 } }
    {
        ClosedPort { failed: 0 }
    }

    /// Counts a call that fails.
    fn fail(&mut self)
        ensures counted { self.new.failed ≡ raised self.old.failed }
        ensures later { self.old.failed ≤ self.new.failed }
    {
        self.failed = self.failed.saturating_add(1);
    }
}

impl Faults for ClosedPort {
    ghost fault_count = { λ p. p.failed };

    ghost is_sure = { λ _. false };

    ghost all_sure = { false };

    fn faults(&self) -> u64 {
        self.failed
    }

    ghost sure_below_top = { λ p sure. Prim.cc };

    ghost each_sure = { λ p sure. Prim.cc };
}

impl Port for ClosedPort {
    ghost use Rattle.std.specs.Prelude.{None};

    type C = MemConn;

    ghost waiting = { λ _. None };

    ghost own_port = { λ _. None };

    /// Always `Failed`.
    fn bind(&mut self, _port: u16) -> Result<u16, Failed> {
        self.fail();
        Err(Failed)
    }

    /// Always `Failed`.
    fn accept<R: Wait>(&mut self, _rt: &R) -> Result<MemConn, Failed> {
        self.fail();
        Err(Failed)
    }
}
