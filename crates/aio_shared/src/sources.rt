//! The calls of a reactor on its sources: they join it, are entered by the holders of their tokens, and
//! leave it.

ghost use Rattle.std.specs.Prelude.{◌≡◌, true, false, IfErr};
ghost use Rattle.std.specs.List.Sorted.{IsStrictlyIncreasing};
ghost use Rattle.aio_base.specs.Devices.{raised};
ghost use Rattle.aio_sources.specs.Sources.{IsUnsure, Removes, keys_of};

use crate::shared::Shared;
use aio_base::{Arm, CountFault, EventWait};
use aio_source::SourceCell;
use aio_sources::{SourceRef, Sources};
use std::sync::Wait;

impl<A: Arm, W: EventWait> Shared<A, W> {
    /// Takes the table of sources, as soon as nobody else has it. Whoever is inside a source must not
    /// ask for it: a round visits sources while it has the table.
    pub fn sources<R: Wait>(&self, rt: &R) -> Sources<'_, A>
        ensures words { result.words ≡ self.now.words.identity }
        ensures rising { IsStrictlyIncreasing (keys_of result.entries) }
    {
        Sources::new(self.sources.lock(rt), &self.words)
    }

    /// Takes a source out of its lock, as soon as no round visits it. Its connection has the rest that
    /// the token knows, whatever rounds did in between. Takes no memory.
    pub fn enter<R: Wait>(&self, rt: &R, s: &mut SourceRef<A>) -> SourceCell<A>
        requires belongs { s.old.words ≡ self.now.words.identity }
        requires outside { s.old.inside ≡ false }
        ensures key { result.state.key.0 ≡ s.old.key }
        ensures rest { A.rest result.io ≡ s.old.rest }
        ensures inside { s.new ≡ record s.old { inside = true; taken = raised s.old.taken } }
    {
        s.take(rt)
    }

    /// Puts a source back into its lock. The token then knows the rest of this connection. Takes no
    /// memory and does not wait.
    pub fn leave(&self, s: &mut SourceRef<A>, cell: SourceCell<A>)
        requires belongs { s.old.words ≡ self.now.words.identity }
        requires inside { s.old.inside ≡ true }
        requires key { cell.state.key.0 ≡ s.old.key }
        ensures { s.new ≡ record s.old { inside = false; rest = A.rest cell.io } }
    {
        s.give(cell);
    }
}

impl<A: Arm + Drop, W: EventWait> Shared<A, W> {
    /// A source goes out of the table, and then its connection is told by one `remove`. Its waiters are
    /// given up without a wake. `CountFault` only where the connection's count of faults rose, and not
    /// all connections of its type are sure; the source is gone all the same. Takes no memory.
    ///
    /// No new source gets the key before the `remove` has returned.
    pub fn close_source<R: Wait>(&self, rt: &R, s: SourceRef<A>) -> Result<(), CountFault>
        requires belongs { s.words ≡ self.now.words.identity }
        requires outside { s.inside ≡ false }
        ensures removed { Removes A.arm_step A.rest A.fault_count s.key s.rest result }
        ensures fault { IfErr result (λ fault. IsUnsure A.all_sure fault) }
    {
        // The key is free as soon as another thread has the table, which the call keeps until then.
        let mut table = self.sources.lock(rt);
        table.close(rt, s)
    }
}
