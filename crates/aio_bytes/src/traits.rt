//! What a source of bytes and a sink of bytes promise.

ghost use Rattle.std.specs.Prelude.{◌≡◌, ℕ, ◌<◌, ◌≤◌, List, Option, Result, length, IfOk, IsErr};
ghost use Rattle.std.specs.Io.KnownBytes.{ReadConsumes, WriteAppends};

use aio_base::{Failed, Faults};

/// A source of bytes.
pub trait Source: Faults {
    ghost use Rattle.aio_base.specs.Devices.{TellsFaults};
    ghost use Rattle.aio_base.specs.declared.outcomes.Failed.{Failed};
    ghost use Rattle.aio_bytes.specs.Held.{GivesInHand, with_bytes};

    /// The bytes that it has left, where it tells them.
    ghost remaining: { Self → Option (List ℕ) };

    /// How many bytes it holds already, which a read gives without waiting; 0 where it tells of none.
    ghost in_hand: { Self → ℕ };

    /// The state before a read, how many bytes it has room for, its answer with the bytes that it
    /// read, and the state after it.
    ghost read_step: { Self → ℕ → Result (List ℕ) Failed → Self → Type 0 };

    /// How many bytes it holds already, so that the next read need not wait; 0 where it may have to
    /// wait. Takes no memory.
    fn in_hand(&self) -> usize
        ensures { result ≡ in_hand self.now };

    /// Reads the next bytes into the front of `buf` and answers how many; 0 is the end. `Failed` only
    /// where the count of faults rose, and then no byte is taken. Takes no memory.
    fn read(&mut self, buf: &mut [u8]) -> Result<usize, Failed>
        requires { 0 < length buf.old }
        ensures step { read_step self.old (length buf.old) (with_bytes result buf.new) self.new }
        ensures bound { IfOk result (λ n. n ≤ length buf.new) }
        ensures given { GivesInHand (in_hand self.old) (length buf.old) result }
        ensures bytes { ReadConsumes (remaining self.old) (remaining self.new) result buf.new }
        ensures faults { TellsFaults Self.fault_count Self.is_sure
            self.old self.new (IsErr result) };
}

/// Why a sink took no byte.
#[derive(Clone, Copy, Debug, PartialEq, Eq)]
pub enum SinkRefusal {
    Failed,
    OutOfMemory,
}

/// A sink of bytes.
pub trait Sink: Faults {
    ghost use Rattle.aio_base.specs.Devices.{TellsFaults};
    ghost use Rattle.aio_bytes.specs.Sinks.{HasFailed};
    ghost use Rattle.aio_bytes.specs.declared.traits.SinkRefusal.{SinkRefusal};

    /// The bytes that it holds, where it tells them.
    ghost contents: { Self → Option (List ℕ) };

    /// The state before a write, the bytes that it is handed, its answer, and the state after it.
    ghost write_step: { Self → List ℕ → Result ℕ SinkRefusal → Self → Type 0 };

    /// Adds the first bytes of `piece` at the end and answers how many, at least one. A refusal adds
    /// nothing; `Failed` only where the count of faults rose.
    fn write(&mut self, piece: &[u8]) -> Result<usize, SinkRefusal>
        requires { 0 < length piece.now }
        ensures step { write_step self.old piece.now result self.new }
        ensures bound { IfOk result (λ n. (0 < n) × (n ≤ length piece.now)) }
        ensures bytes { WriteAppends (contents self.old) (contents self.new) result piece.now }
        ensures faults { TellsFaults Self.fault_count Self.is_sure
            self.old self.new (HasFailed result) };
}
