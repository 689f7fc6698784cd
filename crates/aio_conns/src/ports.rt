//! A port in memory.

ghost use Rattle.std.specs.Prelude.{◌≡◌, [], IsErr, IsOk, IfOk, Some, false, is_ok, if◌then◌else◌};
ghost use Rattle.aio_base.specs.Connections.{HandsOut, IsInUse};
ghost use Rattle.aio_base.specs.Devices.{TellsFaults, raised};
ghost use Rattle.aio_conns.specs.Connections.{PortValue};

use crate::connections::MemConn;
use aio_base::{Failed, Faults, Port};
use std::alloc::Global;
use std::marker::Model;
use std::sync::Wait;
use std::vec::IntoIter;

/// The port that is in use where 0 is asked for.
const OWN_PORT: u16 = 4000;

/// A port in memory, which hands its connections out in order and fails once none is left. Each port can be
/// bound, and 4000 is in use where 0 is asked for.
pub struct MemPort {
    waiting: IntoIter<MemConn, Global>,
    faults: u64,
}

impl Model for MemPort {
    ghost use Rattle.std.specs.Vec.Iter.{into_iter_items};
    ghost use Rattle.aio_conns.specs.Connections.{PortValue};

    ghost Value = { PortValue };

    ghost view = { λ p. record { waiting = into_iter_items p.waiting; faults = p.faults } };
}

impl Drop for MemPort {
    fn drop(self) {
        let MemPort {
            waiting: _,
            faults: _,
        } = self;
    }
}

impl MemPort {
    /// A port that hands out these connections, and had no fault yet. It takes no memory.
    pub fn new(conns: Vec<MemConn>) -> MemPort
        ensures { result ≡ record { waiting = conns.items; faults = 0 } }
    {
        MemPort {
            waiting: conns.into_iter(),
            faults: 0,
        }
    }
}

impl Faults for MemPort {
    ghost use Rattle.std.specs.Prelude.{false};
    ghost use Rattle.std.proofs.lemmas.Bool.{false≢true};

    ghost fault_count = { λ p. p.faults };

    ghost is_sure = { λ p. false };

    ghost all_sure = { false };

    ghost sure_below_top = { λ p sure. absurd (false≢true sure) };

    ghost each_sure = { λ p all. all };

    fn faults(&self) -> u64 {
        self.faults
    }
}

impl Port for MemPort {
    ghost use Rattle.std.specs.Prelude.{Some};

    type C = MemConn;

    ghost waiting = { λ p. Some p.waiting };

    ghost own_port = { λ p. Some 4000 };

    /// The port that was asked for, or 4000. It never fails.
    fn bind(&mut self, port: u16) -> Result<u16, Failed>
        ensures port { IfOk result (IsInUse (Some 4000) port) }
        ensures done { IsOk result }
        ensures stays { self.new ≡ self.old }
    {
        if port == 0 { Ok(OWN_PORT) } else { Ok(port) }
    }

    /// The next connection; `Failed` exactly where none is left.
    fn accept<R: Wait>(&mut self, _rt: &R) -> Result<MemConn, Failed>
        ensures next { HandsOut (Some self.old.waiting) result (Some self.new.waiting) }
        ensures some { IsErr result → self.old.waiting ≡ [] }
        ensures counts { self.new.faults
            ≡ (if is_ok result then self.old.faults else raised self.old.faults) }
        ensures faults { TellsFaults {S = PortValue} (λ p. p.faults) (λ p. false)
            self.old self.new (IsErr result) }
    {
        match self.waiting.next() {
            Some(conn) => Ok(conn),
            None => {
                self.faults = self.faults.saturating_add(1);
                Err(Failed)
            }
        }
    }
}
