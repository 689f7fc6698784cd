//! Connections and the port that hands them out, as traits with a written meaning.
//!
//! What a connection tells of its bytes is laid out in the rest that every `Arm` has, and read off it
//! again: so connections of equal rest tell the same, and no arming changes what is told.

ghost use Rattle.std.specs.Prelude.{◌≡◌, ℕ, ◌^◌, ◌<◌, ◌≤◌, List, Option, Result, Ok, length, take, IfOk, IsErr, IfSome};
ghost use Rattle.aio_base.specs.Connections.{rest_of, sure_read, telling_read};

use crate::devices::{Arm, Faults};
use crate::outcomes::Failed;
use std::sync::Wait;

/// What a read or a write of a connection that did not fail did.
#[derive(Clone, Copy, Debug, PartialEq, Eq)]
pub enum Did {
    /// So many bytes went over; 0 bytes read are the end.
    Bytes(usize),
    /// Nothing went over, and nothing would without waiting.
    Blocked,
}

/// What tells of the bytes of a connection: the connection itself, or what keeps one.
pub trait Tells: Faults {
    ghost use Rattle.aio_base.specs.Connections.{Telling};

    /// What is left to read, whether it ends after that, what was sent and whether it is prompt.
    ghost telling: { Self → Telling };

    ghost left_is_bounded: { (s : Self) → IfSome (telling s).left (λ bytes. length bytes < 2 ^ 64) };
}

/// A connection, both of whose directions are read and written without waiting.
pub trait Conn: Arm + Tells {
    ghost use Rattle.aio_base.specs.Connections.{ConnMove, ReadOf, WriteOf, ReadTells, WriteTells, SendsWithin, did_count, rest_of};
    ghost use Rattle.aio_base.specs.Devices.{TellsFaults};
    ghost use Rattle.aio_base.specs.declared.outcomes.Failed.{Failed};

    /// The state before a read or a write, the call with its answer, and the state after it.
    ghost conn_step: { Self → ConnMove → Self → Type 0 };

    /// Reads the next bytes into the front of `buf`; 0 bytes are the end. `Failed` only where the count
    /// of faults rose. Takes no memory.
    fn read(&mut self, buf: &mut [u8]) -> Result<Did, Failed>
        requires { 0 < length buf.old }
        ensures step { conn_step self.old (ReadOf (length buf.old) result
            (take (did_count result) buf.new)) self.new }
        ensures bound { did_count result ≤ length buf.new }
        ensures told { ReadTells (Self.telling self.old) (Self.telling self.new)
            (take (did_count result) buf.new)
            (result ≡ Ok Did.Blocked) (result ≡ Ok (Did.Bytes 0)) }
        ensures interests { Self.interests self.new ≡ Self.interests self.old }
        ensures faults { TellsFaults Self.fault_count Self.is_sure
            self.old self.new (IsErr result) };

    /// Sends the first bytes of `piece`, one at least. `Failed` only where the count of faults rose.
    /// Takes no memory.
    fn write(&mut self, piece: &[u8]) -> Result<Did, Failed>
        requires { 0 < length piece.now }
        ensures step { conn_step self.old (WriteOf piece.now result) self.new }
        ensures bound { SendsWithin (length piece.now) result }
        ensures told { WriteTells (Self.telling self.old) (Self.telling self.new)
            (take (did_count result) piece.now) (result ≡ Ok Did.Blocked) }
        ensures interests { Self.interests self.new ≡ Self.interests self.old }
        ensures faults { TellsFaults Self.fault_count Self.is_sure
            self.old self.new (IsErr result) };

    ghost rest_is_laid_out: { (c : Self)
        → Self.rest c ≡ rest_of (Self.is_sure c) (Self.telling c) };
}

/// What binds a port and hands out the connections that are made to it.
pub trait Port: Faults {
    ghost use Rattle.aio_base.specs.Connections.{HandsOut, IsInUse};
    ghost use Rattle.aio_base.specs.Devices.{TellsFaults};

    /// The connections that it hands out.
    type C: Conn;

    /// The connections that are still to be handed out, in order, where it tells them.
    ghost waiting: { Self → Option (List Self.C) };

    /// The port that it uses where it is asked for 0, where it tells it.
    ghost own_port: { Self → Option ℕ };

    /// Binds a port, and answers the one in use: the asked one, or one of its own choice where 0 is
    /// asked. `Failed` only where the count of faults rose.
    fn bind(&mut self, port: u16) -> Result<u16, Failed>
        ensures port { IfOk result (IsInUse (own_port self.old) port) }
        ensures waiting { waiting self.new ≡ waiting self.old }
        ensures own_port { own_port self.new ≡ own_port self.old }
        ensures faults { TellsFaults Self.fault_count Self.is_sure
            self.old self.new (IsErr result) };

    /// The next connection. `Failed` only where the count of faults rose. It may wait.
    fn accept<R: Wait>(&mut self, rt: &R) -> Result<Self::C, Failed>
        ensures next { HandsOut (waiting self.old) result (waiting self.new) }
        ensures own_port { own_port self.new ≡ own_port self.old }
        ensures faults { TellsFaults Self.fault_count Self.is_sure
            self.old self.new (IsErr result) };
}

/// Whether a connection is sure and what it tells is read off its rest, and off nothing beside it. So
/// connections of equal rest have equal meanings.
pub fn a_connection_is_read_off_its_rest<C: Conn>()
    ensures sure { (c : C) → C.is_sure c ≡ sure_read (C.rest c) }
    ensures told { (c : C) → C.telling c ≡ telling_read (C.rest c) }
{}
