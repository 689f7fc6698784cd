//! Connections in memory.

ghost use Rattle.std.specs.Prelude.{◌≡◌, ◌^◌, ◌<◌, IfOk};
ghost use Rattle.aio_conns.specs.Connections.{is_prompt, new_conn, new_scripted};
ghost use Rattle.aio_conns.specs.Given.{total_bytes};

use crate::giving::Giving;
use crate::pieces::{Piece, any_blocks};
use crate::sending::Sending;
use aio_base::{Arm, Conn, Did, Failed, Faults, Interest, Key, OutOfMemory, Tells};
use aio_devices::Script;
use aio_script::InterestTable;
use std::alloc::Global;
use std::marker::Model;

/// A connection in memory of which no call ever fails. Its reads find pieces, one after the other, and
/// after the last of them the end, or they block for good. A write takes a bounded number of bytes.
///
/// It is prompt where no piece is that a read would block, it ends after them, and what it takes in all has
/// no bound. It tells its interests, what is left to read and whether it ends then, and what was sent. A
/// write that finds no memory for its bytes takes them all the same: what was sent is told no longer then.
pub struct SureConn {
    giving: Giving,
    sending: Sending,
    prompt: bool,
    armed: InterestTable,
}

impl Model for SureConn {
    ghost use Rattle.aio_conns.specs.Connections.{ConnValue, IsConn};

    ghost Value = { ConnValue };

    ghost view = { λ c. record {
      giving = c.giving;
      sending = c.sending;
      prompt = c.prompt;
      armed = c.armed;
    } };

    ghost invariant = { λ c. IsConn (record {
      giving = c.giving;
      sending = c.sending;
      prompt = c.prompt;
      armed = c.armed;
    }) };
}

impl Drop for SureConn {
    fn drop(self) {
        let SureConn {
            giving: _,
            sending: _,
            prompt: _,
            armed: _,
        } = self;
    }
}

impl SureConn {
    /// A connection whose reads find these pieces, fewer than 2^64 bytes together, and then the end where it
    /// `ends`. A write takes at most `at_once` bytes, one at least, and all writes together at most `room`,
    /// where 2^32 - 1 is no bound.
    ///
    /// # Errors
    ///
    /// `OutOfMemory` where memory ran out.
    pub fn new(
        alloc: Global,
        reads: Vec<Piece>,
        ends: bool,
        at_once: u32,
        room: u32,
    ) -> Result<SureConn, OutOfMemory>
        requires some { 0 < at_once }
        requires bounded { total_bytes reads.items < 2 ^ 64 }
        ensures { IfOk result (λ c. c ≡ new_conn reads.items ends at_once room) }
    {
        let armed = InterestTable::new(alloc)?;
        let prompt = is_prompt(&reads, ends, room);
        Ok(SureConn {
            giving: Giving::new(alloc, reads, ends),
            sending: Sending::new(alloc, at_once, room),
            prompt,
            armed,
        })
    }

    /// What was sent, in order, as long as it is told. It takes no memory.
    pub fn sent(&self) -> &[u8]
        ensures { result.now ≡ self.now.sending.sent }
    {
        self.sending.sent()
    }
}

// Whether a connection of these pieces never blocks: none is that a read would block, the end comes after
// them, and what is taken in all has no bound.
fn is_prompt(pieces: &[Piece], ends: bool, room: u32) -> bool
    ensures { result ≡ is_prompt pieces.now ends room }
{
    !any_blocks(pieces) && ends && room == u32::MAX
}

impl Faults for SureConn {
    ghost use Rattle.std.specs.Prelude.{true};
    ghost use Rattle.std.proofs.Common.{arith};

    ghost fault_count = { λ c. 0 };

    ghost is_sure = { λ c. true };

    ghost all_sure = { true };

    ghost sure_below_top = { λ c sure. Prim.omega arith };

    ghost each_sure = { λ c all. all };

    /// No call fails, so none is counted.
    fn faults(&self) -> u64 {
        0
    }
}

impl Arm for SureConn {
    ghost use Rattle.std.specs.Prelude.{true, Some};
    ghost use Rattle.aio_base.specs.Connections.{rest_of};
    ghost use Rattle.aio_conns.specs.Connections.{ConnArms, telling_of};
    ghost use Rattle.aio_script.specs.Interests.{interests_in};

    ghost interests = { λ c. Some (interests_in c.armed) };

    ghost rest = { λ c. rest_of true (telling_of c) };

    ghost arm_step = { ConnArms };

    fn add(&mut self, key: Key) -> Result<(), Failed> {
        self.armed.set(key, Interest::NONE);
        Ok(())
    }

    fn arm(&mut self, key: Key, on: Interest) -> Result<(), Failed> {
        self.armed.set(key, on);
        Ok(())
    }

    fn remove(&mut self, key: Key) -> Result<(), Failed> {
        self.armed.set(key, Interest::NONE);
        Ok(())
    }
}

impl Tells for SureConn {
    ghost use Rattle.aio_conns.specs.Connections.{telling_of, told_left_is_bounded};
    ghost use Rattle.aio_conns.specs.Given.{bytes_left};

    ghost telling = { telling_of };

    ghost left_is_bounded = { λ c. told_left_is_bounded (bytes_left c.giving.turns) };
}

impl Conn for SureConn {
    ghost use Rattle.std.specs.Prelude.{refl};
    ghost use Rattle.aio_conns.specs.Connections.{ConnMoves};

    ghost conn_step = { ConnMoves };

    fn read(&mut self, buf: &mut [u8]) -> Result<Did, Failed> {
        Ok(self.giving.read(buf))
    }

    fn write(&mut self, piece: &[u8]) -> Result<Did, Failed> {
        Ok(self.sending.write(piece))
    }

    ghost rest_is_laid_out = { λ c. refl };
}

/// A `SureConn` whose calls of all kinds are numbered from 1; those whose numbers stand in its script fail,
/// and then give, take and arm nothing. It is sure where none stands there.
pub struct MemConn {
    conn: SureConn,
    calls: Script,
}

impl Model for MemConn {
    ghost use Rattle.aio_conns.specs.Connections.{ScriptedConn};

    ghost Value = { ScriptedConn };

    ghost view = { λ c. record { conn = c.conn; script = c.calls } };
}

impl Drop for MemConn {
    fn drop(self) {
        let MemConn { conn: _, calls: _ } = self;
    }
}

impl MemConn {
    /// What `SureConn::new` makes, of which the calls with the numbers in `fails` fail.
    ///
    /// # Errors
    ///
    /// `OutOfMemory` where memory ran out.
    pub fn new(
        alloc: Global,
        reads: Vec<Piece>,
        ends: bool,
        at_once: u32,
        room: u32,
        fails: Vec<u64>,
    ) -> Result<MemConn, OutOfMemory>
        requires some { 0 < at_once }
        requires bounded { total_bytes reads.items < 2 ^ 64 }
        ensures { IfOk result (λ c. c ≡ new_scripted reads.items ends at_once room fails.items) }
    {
        let conn = SureConn::new(alloc, reads, ends, at_once, room)?;
        Ok(MemConn {
            conn,
            calls: Script::new(fails),
        })
    }

    /// What was sent, in order, as long as it is told. It takes no memory.
    pub fn sent(&self) -> &[u8]
        ensures { result.now ≡ self.now.conn.sending.sent }
    {
        self.conn.sent()
    }
}

impl Faults for MemConn {
    ghost use Rattle.std.specs.Prelude.{◌-◌, ◌^◌, ◌<◌, false, if◌then◌else◌};
    ghost use Rattle.std.proofs.Common.{arith, subst, sym};
    ghost use Rattle.std.proofs.lemmas.Bool.{false≢true};
    ghost use Rattle.aio_devices.specs.Scripts.{fails_never, fault_count};

    ghost fault_count = { λ c. fault_count c.script };

    ghost is_sure = { λ c. fails_never c.script };

    ghost all_sure = { false };

    ghost sure_below_top = { λ c sure.
        subst (λ never. (if never then 0 else c.script.faults) < 2 ^ 64 - 1) (sym sure)
        (Prim.omega arith) };

    ghost each_sure = { λ c all. absurd (false≢true all) };

    fn faults(&self) -> u64 {
        self.calls.faults()
    }
}

impl Arm for MemConn {
    ghost use Rattle.std.specs.Prelude.{Some};
    ghost use Rattle.aio_base.specs.Connections.{rest_of};
    ghost use Rattle.aio_conns.specs.Connections.{ScriptedArms, telling_of};
    ghost use Rattle.aio_devices.specs.Scripts.{fails_never};
    ghost use Rattle.aio_script.specs.Interests.{interests_in};

    ghost interests = { λ c. Some (interests_in c.conn.armed) };

    ghost rest = { λ c. rest_of (fails_never c.script) (telling_of c.conn) };

    ghost arm_step = { ScriptedArms };

    fn add(&mut self, key: Key) -> Result<(), Failed> {
        self.calls.next_call()?;
        self.conn.add(key)
    }

    fn arm(&mut self, key: Key, on: Interest) -> Result<(), Failed> {
        self.calls.next_call()?;
        self.conn.arm(key, on)
    }

    fn remove(&mut self, key: Key) -> Result<(), Failed> {
        self.calls.next_call()?;
        self.conn.remove(key)
    }
}

impl Tells for MemConn {
    ghost use Rattle.aio_conns.specs.Connections.{telling_of, told_left_is_bounded};
    ghost use Rattle.aio_conns.specs.Given.{bytes_left};

    ghost telling = { λ c. telling_of c.conn };

    ghost left_is_bounded = { λ c. told_left_is_bounded (bytes_left c.conn.giving.turns) };
}

impl Conn for MemConn {
    ghost use Rattle.std.specs.Prelude.{refl};
    ghost use Rattle.aio_conns.specs.Connections.{ScriptedMoves};

    ghost conn_step = { ScriptedMoves };

    fn read(&mut self, buf: &mut [u8]) -> Result<Did, Failed> {
        self.calls.next_call()?;
        self.conn.read(buf)
    }

    fn write(&mut self, piece: &[u8]) -> Result<Did, Failed> {
        self.calls.next_call()?;
        self.conn.write(piece)
    }

    ghost rest_is_laid_out = { λ c. refl };
}
