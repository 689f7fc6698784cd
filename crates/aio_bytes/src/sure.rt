//! A source and a sink over bytes in memory that never fail.

ghost use Rattle.std.specs.Prelude.{◌≡◌, ◌<◌, ◌≤◌, List, ℕ, [], take, drop, length, true, Some, Ok, IfOk, IsErr};
ghost use Rattle.std.proofs.Common.{arith};
ghost use Rattle.std.specs.Io.KnownBytes.{ReadConsumes, WriteAppends};
ghost use Rattle.aio_base.specs.Devices.{HasCause};
ghost use Rattle.aio_bytes.specs.Held.{GivesInHand, with_bytes};
ghost use Rattle.aio_bytes.specs.Memory.{SureWrites};
ghost use Rattle.aio_bytes.specs.Sinks.{HasFailed};

use crate::memory::copy_front;
use crate::traits::{Sink, SinkRefusal, Source};
use aio_base::{Failed, Faults};
use std::alloc::Global;
use std::marker::Model;

/// A source over bytes in memory that never fails: contracts see it as the bytes that it has left.
#[derive(Drop)]
pub struct SureSource {
    bytes: Vec<u8>,
    position: usize,
}

impl Model for SureSource {
    ghost Value = { List ℕ };

    ghost view = { λ s. drop s.position s.bytes.items };

    ghost invariant = { λ s. s.position ≤ length s.bytes.items };
}

impl SureSource {
    /// A source of `bytes`.
    pub fn new(bytes: Vec<u8>) -> SureSource
        ensures { result ≡ bytes.items }
    {
        SureSource { bytes, position: 0 }
    }
}

impl Faults for SureSource {
    ghost fault_count = { λ _. 0 };

    ghost is_sure = { λ _. true };

    ghost all_sure = { true };

    fn faults(&self) -> u64 {
        0
    }

    ghost sure_below_top = { λ s sure. Prim.omega arith };

    ghost each_sure = { λ s sure. sure };
}

impl Source for SureSource {
    ghost remaining = { λ s. Some s };

    ghost in_hand = { λ s. length s };

    ghost read_step = { λ old room answer new. (answer ≡ Ok (take room old)) × (new ≡ drop room old) };

    /// All that are left.
    fn in_hand(&self) -> usize {
        self.bytes.len() - self.position
    }

    /// Gives the least of the room in `buf` and what is left. Never fails.
    fn read(&mut self, buf: &mut [u8]) -> Result<usize, Failed>
        requires { 0 < length buf.old }
        ensures step { (with_bytes result buf.new ≡ Ok (take (length buf.old) self.old))
            × (self.new ≡ drop (length buf.old) self.old) }
        ensures bound { IfOk result (λ n. n ≤ length buf.new) }
        ensures given { GivesInHand (length self.old) (length buf.old) result }
        ensures bytes { ReadConsumes (Some self.old) (Some self.new) result buf.new }
        ensures cause { HasCause 0 0 true (IsErr result) }
    {
        let rest = &self.bytes[self.position..];
        let count = copy_front(rest, buf, buf.len());
        self.position += count;
        Ok(count)
    }
}

/// A sink over bytes in memory that never fails, though it may want memory: contracts see it as the
/// bytes that were written.
#[derive(Drop)]
pub struct SureSink {
    bytes: Vec<u8>,
}

impl Model for SureSink {
    ghost Value = { List ℕ };

    ghost view = { λ s. s.bytes.items };
}

impl SureSink {
    /// An empty sink.
    pub fn new(alloc: Global) -> SureSink
        ensures { result ≡ [] }
    {
        SureSink {
            bytes: Vec::new(alloc),
        }
    }

    /// All the bytes that were written, in order.
    pub fn bytes(&self) -> &[u8]
        ensures { result.now ≡ self.now }
    {
        &self.bytes
    }
}

impl Faults for SureSink {
    ghost fault_count = { λ _. 0 };

    ghost is_sure = { λ _. true };

    ghost all_sure = { true };

    fn faults(&self) -> u64 {
        0
    }

    ghost sure_below_top = { λ s sure. Prim.omega arith };

    ghost each_sure = { λ s sure. sure };
}

impl Sink for SureSink {
    ghost contents = { λ s. Some s };

    ghost write_step = { SureWrites };

    /// Takes the whole piece. `OutOfMemory` for want of memory, and then nothing is added; never
    /// `Failed`.
    fn write(&mut self, piece: &[u8]) -> Result<usize, SinkRefusal>
        requires { 0 < length piece.now }
        ensures step { SureWrites self.old piece.now result self.new }
        ensures bound { IfOk result (λ n. (0 < n) × (n ≤ length piece.now)) }
        ensures bytes { WriteAppends (Some self.old) (Some self.new) result piece.now }
        ensures cause { HasCause 0 0 true (HasFailed result) }
    {
        if self.bytes.extend_from_slice(piece).is_err() {
            return Err(SinkRefusal::OutOfMemory);
        }
        Ok(piece.len())
    }
}
