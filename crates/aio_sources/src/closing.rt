//! A source that is closed: it goes out of the table, then out of its lock for good, and then its
//! connection is told.

ghost use Rattle.std.specs.Prelude.{◌≡◌, false, IfErr};
ghost use Rattle.std.specs.List.{Contains};
ghost use Rattle.aio_sources.specs.Sources.{IsUnsure, Removes, keys_of, without_entry};

use crate::sealed::{Sealed, SourceRef, remove_from};
use crate::source_table::SourceTable;
use aio_base::{Arm, CountFault, Key};
use aio_source::SourceCell;
use std::marker::Model;
use std::sync::Wait;

/// A source that went out of the table and then out of its lock, with its connection.
/// `SourceRef::take_closed` alone makes one, and `remove` alone ends it, since it cannot be let go. Contracts
/// see the key of the source, and the rest of its connection.
pub(crate) struct Closed<A: Arm> {
    pub(crate) key: Key,
    pub(crate) cell: Sealed<SourceCell<A>>,
}

impl<A: Arm> Model for Closed<A> {
    ghost use Rattle.std.specs.Prelude.{◌<◌};
    ghost use Rattle.aio_sources.specs.Sources.{ClosedValue};

    ghost Value = { ClosedValue };

    ghost view = { λ c. record { key = c.key.0; rest = A.rest c.cell.value.io } };

    ghost invariant = { λ c. c.key.0 < 4096 };
}

impl<A: Arm + Drop> Closed<A> {
    /// Makes one `remove` of the source's key on its connection, which is let go, and gives the waiters of
    /// the source up. The caller has the table, in which no source has the key.
    fn remove(self, table: &SourceTable<A>) -> Result<(), CountFault>
        requires out { ¬ Contains (keys_of table.now) self.key }
        ensures removed { Removes A.arm_step A.rest A.fault_count self.key self.rest result }
        ensures cause { IfErr result (λ fault. IsUnsure A.all_sure fault) }
    {
        let Closed { key, cell } = self;
        remove_from(cell, key).into_answer()
    }
}

impl<A: Arm + Drop> SourceTable<A> {
    /// Closes a source: it goes out of the table, then out of its lock for good, as soon as no round visits
    /// it, and then its connection is told by one `remove` and let go. Its waiters are given up without a
    /// wake. The caller has the table all the while, so no other source gets the key before the `remove`
    /// has returned. `CountFault` only where the connection's count of faults rose, and not all connections
    /// of its type are sure; the source is gone all the same. Takes no memory.
    pub fn close<R: Wait>(&mut self, rt: &R, s: SourceRef<A>) -> Result<(), CountFault>
        requires outside { s.inside ≡ false }
        ensures entries { self.new ≡ without_entry self.old s.key }
        ensures removed { Removes A.arm_step A.rest A.fault_count s.key s.rest result }
        ensures cause { IfErr result (λ fault. IsUnsure A.all_sure fault) }
    {
        // The order of the locks: the table first, and under it the one source. A round that visits the
        // source has the table, so it is over by then.
        let out = self.take_out(s.key());
        let closed = s.take_closed(rt, &*self, &out);
        closed.remove(&*self)
    }
}
