//! Writing all of some bytes to a sink, however few it takes a call; and writing a text that was
//! gathered in a block.

ghost use Rattle.std.specs.Prelude.{◌≡◌, ℕ, [], IsTrue, List, IfErr, IsOk, OnErr, OnOk};
ghost use Rattle.aio_base.specs.Devices.{TellsFaults};
ghost use Rattle.aio_bytes.specs.Sinks.{EndsWith, HasFailed, InTurn, RefusedBy, Writes, is_failed};

use crate::traits::{Sink, SinkRefusal};

/// How many bytes of output are gathered in a block before they are written.
pub const BLOCK: usize = 65_536;

/// Writes all of `bytes` at the end of `out`, in as many calls as that takes; without a call where
/// there are none. Each call is handed all the bytes that are left. A refusal is the answer of the
/// last call, which is not tried again, and leaves the bytes that were taken before it.
pub fn write_all<K: Sink>(out: &mut K, bytes: &[u8]) -> Result<(), SinkRefusal>
    ensures written { Writes result (K.contents out.old) (K.contents out.new) bytes.now }
    ensures calls { (counts : List ℕ) × InTurn K.write_step out.old bytes.now counts
        (EndsWith K.write_step result out.new) }
    ensures refused { IfErr result (RefusedBy K.write_step out.new) }
    ensures empty { bytes.now ≡ [] → IsOk result × (out.new ≡ out.old) }
    ensures faults { TellsFaults K.fault_count K.is_sure out.old out.new (HasFailed result) }
{
    let mut rest = bytes;
    while !rest.is_empty() {
        let taken = out.write(rest)?;
        rest = &rest[taken..];
    }
    Ok(())
}

/// Writes the text that was gathered, and is left with none of it; where the output refuses some of
/// it, the text stays, and what the output took of it before stands there.
pub fn flush<K: Sink>(text: &mut Vec<u8>, out: &mut K) -> Result<(), SinkRefusal>
    ensures written { Writes result (K.contents out.old) (K.contents out.new) text.old.items }
    ensures empty { OnOk result (text.new.items ≡ []) }
    ensures kept { OnErr result (text.new.items ≡ text.old.items) }
    ensures refused { IfErr result (RefusedBy K.write_step out.new) }
    ensures cause { TellsFaults K.fault_count K.is_sure
        out.old out.new (IsTrue (is_failed result)) }
{
    let result = write_all(out, text.as_slice());
    if result.is_ok() {
        text.clear();
    }
    result
}
