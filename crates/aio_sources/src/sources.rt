//! The sources of a table: they join it, and are entered by the holders of their tokens.

ghost use Rattle.std.specs.Prelude.{◌≡◌, ◌↔◌, true, false, length, IfOk, IfErr, IfSome, OnErr, Some};
ghost use Rattle.std.specs.List.Sorted.{IsStrictlyIncreasing};
ghost use Rattle.std.specs.Arc.{arc_value};
ghost use Rattle.aio_source.specs.Visits.{IsUnsureArm, arm_fault_of};
ghost use Rattle.aio_sources.specs.Sources.{Adds, HandsBack, Joins, entry_of, is_full, keys_of, outside, refusal_of};
ghost use Rattle.aio_sources.specs.Visiting.{VisitsSource};

use crate::sealed::{SourceRef, visit_in};
use crate::source_table::{SourceTable, TableIsFull};
use aio_base::{Arm, CountFault};
use aio_source::{Visit, Visited};
use aio_words::Words;
use std::alloc::Global;
use std::marker::Model;
use std::sync::{Arc, MutexGuard, Wait};

/// Why a source did not join.
#[derive(Clone, Copy, Debug, PartialEq, Eq)]
pub enum InsertFault {
    /// 4,096 sources live. The table that found no free key says so.
    Full(TableIsFull),
    /// The `add` of the connection failed, between these two counts of its faults.
    AddFault(CountFault),
    /// Memory ran out.
    OutOfMemory,
}

impl<A: Arm> SourceRef<A> {
    /// One visit of the source, after `ticker` rounds have begun: the source is taken out of its lock, as
    /// soon as no round visits it, visited, and put back as the visit left it. The token then knows the
    /// rest of its connection. Takes no memory.
    pub fn visit<R: Wait, V: Visit<A>>(
        &mut self,
        rt: &R,
        visit: &mut V,
        ticker: u64,
    ) -> Visited<V::Output>
        requires outside { self.old.inside ≡ false }
        ensures visits { VisitsSource A.rest (λ found visited put.
            V.visits visit.old found ticker visited visit.new put) self.old self.new result }
        ensures arm { IfSome (arm_fault_of result.answer)
            (IsUnsureArm A.all_sure self.old.key) }
    {
        let cell = self.enter(rt);
        let (left, visited) = visit_in(cell, visit, ticker);
        self.leave(left);
        visited
    }
}

impl InsertFault {
    /// Whether 4,096 sources lived.
    pub fn is_full(&self) -> bool
        ensures { result ≡ is_full (Some self.now) }
    {
        matches!(self, InsertFault::Full(_))
    }
}

/// The table of a reactor's sources, which nobody else has until it is let go.
#[derive(Drop)]
pub struct Sources<'a, A: Arm> {
    table: MutexGuard<'a, SourceTable<A>>,
    words: &'a Arc<Words, Global>,
}

impl<'a, A: Arm> Model for Sources<'a, A> {
    ghost use Rattle.std.specs.Arc.{arc_value};
    ghost use Rattle.std.specs.Sync.Mutex.{mutex_guard_value};
    ghost use Rattle.aio_sources.specs.Sources.{SourcesValue};

    ghost Value = { SourcesValue };

    ghost view = { λ s. record {
      words = (arc_value s.words.now).identity;
      entries = mutex_guard_value s.table;
    } };
}

impl<'a, A: Arm> Sources<'a, A> {
    /// This table, with the words of its reactor.
    pub fn new(
        table: MutexGuard<'a, SourceTable<A>>,
        words: &'a Arc<Words, Global>,
    ) -> Sources<'a, A>
        ensures words { result.words ≡ (arc_value words.now).identity }
        ensures rising { IsStrictlyIncreasing (keys_of result.entries) }
    {
        table.keys_rise();
        Sources { table, words }
    }
}

impl<A: Arm + Drop> Sources<'_, A> {
    /// A source over this connection joins under the least key that is free. All its memory is taken
    /// before the connection's one `add`. `Full` exactly where 4,096 sources live, and then `OutOfMemory`
    /// where memory ran out: both hand the connection back as it came. `AddFault` only where its count of
    /// faults rose in the `add`. Each refusal leaves the table as it was.
    pub fn insert(&mut self, io: A) -> Result<SourceRef<A>, (A, InsertFault)>
        ensures joins { IfOk result (λ s. Joins self.old s self.new) }
        ensures token { IfOk result (λ s. s ≡ outside self.old.words (entry_of s) (A.rest io)) }
        ensures added { IfOk result (λ s. Adds A.arm_step s.key io) }
        ensures full { (is_full (refusal_of result) ≡ true)
            ↔ (length self.old.entries ≡ 4096) }
        ensures refused { OnErr result (self.new ≡ self.old) }
        ensures back { IfErr result (λ back.
            HandsBack A.arm_step A.rest A.fault_count A.is_sure (keys_of self.old.entries)
            io back) }
    {
        let table = &mut *self.table;
        let key = match table.free_key() {
            Ok(key) => key,
            Err(full) => return Err((io, InsertFault::Full(full))),
        };
        let Ok(vacancy) = table.vacancy(self.words) else {
            return Err((io, InsertFault::OutOfMemory));
        };
        let (io, fault) = match table.admit(vacancy, key, io) {
            Ok(token) => return Ok(token),
            Err(back) => back,
        };
        Err((io, InsertFault::AddFault(fault)))
    }
}
