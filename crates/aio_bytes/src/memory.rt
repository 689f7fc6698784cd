//! A source and a sink over bytes in memory, whose calls fail by a script.

ghost use Rattle.std.specs.Prelude.{◌≡◌, ◌<◌, ◌≤◌, [], ◌++◌, take, drop, length, min, true, false, Some, IfOk, is_ok, is_err, IsErr, if◌then◌else◌};
ghost use Rattle.std.specs.Io.KnownBytes.{ReadConsumes, WriteAppends};
ghost use Rattle.aio_base.specs.Devices.{HasCause, raised};
ghost use Rattle.aio_bytes.specs.Sinks.{HasFailed};
ghost use Rattle.aio_bytes.specs.Held.{GivesInHand, with_bytes};
ghost use Rattle.aio_bytes.specs.Memory.{ScriptedSource, ScriptedSink, ScriptedReads, ScriptedWrites, is_next_failing};

use crate::traits::{Sink, SinkRefusal, Source};
use aio_base::{Failed, Faults};
use std::alloc::Global;
use std::marker::Model;

/// The calls of a device, some of which fail by a script.
#[derive(Drop)]
struct Script {
    fails: Vec<u64>,
    calls: u64,
    faults: u64,
}

impl Script {
    fn new(fails: Vec<u64>) -> Script
        ensures script { result.fails ≡ fails }
        ensures calls { result.calls ≡ 0 }
        ensures faults { result.faults ≡ 0 }
    {
        Script {
            fails,
            calls: 0,
            faults: 0,
        }
    }

    /// Counts one more call, and one more fault where that call fails.
    fn next_call(&mut self) -> Result<(), Failed>
        ensures fails { is_err result ≡ is_next_failing self.old.fails.items self.old.calls }
        ensures calls { self.new.calls ≡ raised self.old.calls }
        ensures faults { self.new.faults
            ≡ (if is_ok result then self.old.faults else raised self.old.faults) }
        ensures script { self.new.fails.items ≡ self.old.fails.items }
        ensures later { self.old.faults ≤ self.new.faults }
    {
        self.calls = self.calls.saturating_add(1);
        if self.fails.contains(&self.calls) {
            self.faults = self.faults.saturating_add(1);
            return Err(Failed);
        }
        Ok(())
    }
}

/// A source over bytes in memory that gives at most a piece a call. Its calls are numbered from 1,
/// and those whose numbers stand in its script fail, taking nothing.
#[derive(Drop)]
pub struct MemSource {
    bytes: Vec<u8>,
    position: usize,
    piece: usize,
    script: Script,
}

impl Model for MemSource {
    ghost Value = { ScriptedSource };

    ghost view = { λ s. record { left = drop s.position s.bytes.items; calls = s.script.calls; piece = s.piece; fails = s.script.fails.items; fault_count = s.script.faults } };

    ghost invariant = { λ s. (s.position ≤ length s.bytes.items) × (0 < s.piece) };
}

impl MemSource {
    /// A source of `bytes` that gives at most `piece` bytes a call and fails at the calls whose
    /// numbers stand in `fails`.
    pub fn new(bytes: Vec<u8>, piece: usize, fails: Vec<u64>) -> MemSource
        requires { 0 < piece }
        ensures { result ≡ record {
          left = bytes.items;
          calls = 0;
          piece = piece;
          fails = fails.items;
          fault_count = 0;
        } }
    {
        MemSource {
            bytes,
            position: 0,
            piece,
            script: Script::new(fails),
        }
    }
}

impl Faults for MemSource {
    ghost fault_count = { λ s. s.fault_count };

    ghost is_sure = { λ _. false };

    ghost all_sure = { false };

    fn faults(&self) -> u64 {
        self.script.faults
    }

    ghost sure_below_top = { λ s sure. Prim.cc };

    ghost each_sure = { λ s sure. Prim.cc };
}

impl Source for MemSource {
    ghost remaining = { λ s. Some s.left };

    ghost in_hand = { λ _. 0 };

    ghost read_step = { ScriptedReads };

    /// None: each call stands for one that may have to wait.
    fn in_hand(&self) -> usize {
        0
    }

    /// Gives the least of the room in `buf`, the piece and what is left. `Failed` exactly where the
    /// call's number stands in the script; then no byte is taken.
    fn read(&mut self, buf: &mut [u8]) -> Result<usize, Failed>
        requires { 0 < length buf.old }
        ensures step { ScriptedReads self.old (length buf.old)
            (with_bytes result buf.new) self.new }
        ensures bound { IfOk result (λ n. n ≤ length buf.new) }
        ensures given { GivesInHand 0 (length buf.old) result }
        ensures bytes { ReadConsumes (Some self.old.left) (Some self.new.left) result buf.new }
        ensures cause { HasCause self.old.fault_count self.new.fault_count false (IsErr result) }
    {
        self.script.next_call()?;
        let rest = &self.bytes[self.position..];
        let count = copy_front(rest, buf, self.piece);
        self.position += count;
        Ok(count)
    }
}

/// Copies the front of `from` into the front of `to`, as much as both have but at most `most` bytes,
/// and answers how many.
pub(crate) fn copy_front(from: &[u8], to: &mut [u8], most: usize) -> usize
    ensures count { result ≡ min (min (length to.old) most) (length from.now) }
    ensures copied { take result to.new ≡ take result from.now }
{
    let count = to.len().min(most).min(from.len());
    to[..count].copy_from_slice(&from[..count]);
    count
}

/// A sink over bytes in memory. Its calls are numbered from 1, and those whose numbers stand in its
/// script fail, adding nothing.
#[derive(Drop)]
pub struct MemSink {
    bytes: Vec<u8>,
    script: Script,
}

impl Model for MemSink {
    ghost Value = { ScriptedSink };

    ghost view = { λ s. record { written = s.bytes.items; calls = s.script.calls; fails = s.script.fails.items; fault_count = s.script.faults } };
}

impl MemSink {
    /// An empty sink that fails at the calls whose numbers stand in `fails`.
    pub fn new(alloc: Global, fails: Vec<u64>) -> MemSink
        ensures { result ≡ record {
          written = [];
          calls = 0;
          fails = fails.items;
          fault_count = 0;
        } }
    {
        MemSink {
            bytes: Vec::new(alloc),
            script: Script::new(fails),
        }
    }

    /// All the bytes that were written, in order.
    pub fn bytes(&self) -> &[u8]
        ensures { result.now ≡ self.now.written }
    {
        &self.bytes
    }
}

impl Faults for MemSink {
    ghost fault_count = { λ s. s.fault_count };

    ghost is_sure = { λ _. false };

    ghost all_sure = { false };

    fn faults(&self) -> u64 {
        self.script.faults
    }

    ghost sure_below_top = { λ s sure. Prim.cc };

    ghost each_sure = { λ s sure. Prim.cc };
}

impl Sink for MemSink {
    ghost contents = { λ s. Some s.written };

    ghost write_step = { ScriptedWrites };

    /// Takes the whole piece. `Failed` exactly where the call's number stands in the script;
    /// `OutOfMemory` for want of memory. Both add nothing.
    fn write(&mut self, piece: &[u8]) -> Result<usize, SinkRefusal>
        requires { 0 < length piece.now }
        ensures step { ScriptedWrites self.old piece.now result self.new }
        ensures bound { IfOk result (λ n. (0 < n) × (n ≤ length piece.now)) }
        ensures bytes { WriteAppends (Some self.old.written) (Some self.new.written)
            result piece.now }
        ensures cause { HasCause self.old.fault_count self.new.fault_count
            false (HasFailed result) }
    {
        if self.script.next_call().is_err() {
            return Err(SinkRefusal::Failed);
        }
        if self.bytes.extend_from_slice(piece).is_err() {
            return Err(SinkRefusal::OutOfMemory);
        }
        Ok(piece.len())
    }
}
