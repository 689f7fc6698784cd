//! A connection in memory from which bytes are read.

ghost use Rattle.std.specs.Prelude.{◌≡◌, ◌-◌, ◌==◌, if◌then◌else◌, None, Some};

use aio_base::{Arm, Failed, Faults, Interest, Key};

/// A connection in memory: so many reads would block, and each one after them gives its byte. No call of
/// it ever fails. It keeps no interests and tells none.
#[derive(Clone, Copy, Debug, PartialEq, Eq)]
pub struct MemBytes {
    /// How many reads would still block.
    pub blocks: u32,
    /// What is read then.
    pub byte: u8,
}

impl MemBytes {
    /// A connection of which so many reads would block. It takes no memory.
    pub fn new(blocks: u32, byte: u8) -> MemBytes
        ensures { result ≡ record { blocks = blocks; byte = byte } }
    {
        MemBytes { blocks, byte }
    }

    /// Reads a byte; `None` where that would block. It takes no memory.
    pub fn read(&mut self) -> Option<u8>
        ensures read { result ≡ (if self.old.blocks == 0 then Some self.old.byte else None) }
        ensures left { self.new ≡ record self.old { blocks = self.old.blocks - 1 } }
    {
        if self.blocks == 0 {
            return Some(self.byte);
        }
        self.blocks -= 1;
        None
    }
}

impl Faults for MemBytes {
    ghost use Rattle.std.specs.Prelude.{true};
    ghost use Rattle.std.proofs.Common.{arith};

    ghost fault_count = { λ c. 0 };

    ghost is_sure = { λ c. true };

    ghost all_sure = { true };

    ghost sure_below_top = { λ c sure. Prim.omega arith };

    ghost each_sure = { λ c sure. sure };

    /// No call fails, so none is counted.
    fn faults(&self) -> u64 {
        0
    }
}

impl Arm for MemBytes {
    ghost use Rattle.std.specs.Prelude.{◌≡◌, [], ◌∷◌, None, Ok};

    ghost interests = { λ c. None };

    ghost rest = { λ c. c.blocks ∷ c.byte ∷ [] };

    ghost arm_step = { λ old call answer new. (answer ≡ Ok tt) × (new ≡ old) };

    fn add(&mut self, _key: Key) -> Result<(), Failed> {
        Ok(())
    }

    fn arm(&mut self, _key: Key, _on: Interest) -> Result<(), Failed> {
        Ok(())
    }

    fn remove(&mut self, _key: Key) -> Result<(), Failed> {
        Ok(())
    }
}
