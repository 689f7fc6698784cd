//! A source over bytes in memory that are all in hand, and of which a read fails.

ghost use Rattle.std.specs.Prelude.{◌≡◌, ◌<◌, ◌≤◌, drop, false, length, IfOk, IsErr, Some};
ghost use Rattle.std.specs.Io.KnownBytes.{ReadConsumes};
ghost use Rattle.aio_base.specs.Devices.{HasCause};
ghost use Rattle.aio_bytes.specs.Held.{GivesInHand, with_bytes};
ghost use Rattle.aio_bytes.specs.Torn.{TornReads, TornSource};

use crate::memory::copy_front;
use crate::traits::Source;
use aio_base::{Failed, Faults};
use std::marker::Model;

/// A source over bytes in memory that are all in hand, and of which the second read fails, taking none.
/// Contracts see it as the bytes that it has left and its two counts.
#[derive(Drop)]
pub struct Torn {
    bytes: Vec<u8>,
    position: usize,
    reads: u64,
    faults: u64,
}

impl Model for Torn {
    ghost use Rattle.std.specs.Prelude.{◌≤◌, drop, length};
    ghost use Rattle.aio_bytes.specs.Torn.{TornSource};

    ghost Value = { TornSource };

    ghost view = { λ s. record {
      left = drop s.position s.bytes.items;
      reads = s.reads;
      fault_count = s.faults;
    } };

    ghost invariant = { λ s. s.position ≤ length s.bytes.items };
}

impl Torn {
    /// A source of `bytes`, of which nothing is read.
    pub fn new(bytes: Vec<u8>) -> Torn
        ensures { result ≡ record { left = bytes.items; reads = 0; fault_count = 0 } }
    {
        Torn {
            bytes,
            position: 0,
            reads: 0,
            faults: 0,
        }
    }
}

impl Faults for Torn {
    ghost fault_count = { λ s. s.fault_count };

    ghost is_sure = { λ _. false };

    ghost all_sure = { false };

    fn faults(&self) -> u64 {
        self.faults
    }

    ghost sure_below_top = { λ s sure. Prim.cc };

    ghost each_sure = { λ s sure. Prim.cc };
}

impl Source for Torn {
    ghost remaining = { λ s. Some s.left };

    ghost in_hand = { λ s. length s.left };

    ghost read_step = { TornReads };

    /// All that are left.
    fn in_hand(&self) -> usize {
        self.bytes.len() - self.position
    }

    /// Gives the least of the room in `buf` and what is left. `Failed` exactly at the second call; then
    /// no byte is taken.
    fn read(&mut self, buf: &mut [u8]) -> Result<usize, Failed>
        requires { 0 < length buf.old }
        ensures step { TornReads self.old (length buf.old) (with_bytes result buf.new) self.new }
        ensures bound { IfOk result (λ n. n ≤ length buf.new) }
        ensures given { GivesInHand (length self.old.left) (length buf.old) result }
        ensures bytes { ReadConsumes (Some self.old.left) (Some self.new.left) result buf.new }
        ensures cause { HasCause self.old.fault_count self.new.fault_count false (IsErr result) }
    {
        self.reads = self.reads.saturating_add(1);
        if self.reads == 2 {
            self.faults = self.faults.saturating_add(1);
            return Err(Failed);
        }
        let rest = &self.bytes[self.position..];
        let count = copy_front(rest, buf, buf.len());
        self.position += count;
        Ok(count)
    }
}
