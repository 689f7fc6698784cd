//! What a visit of a source is to whoever keeps it in a lock: work on it while it is entered.

use crate::source::SourceCell;
use aio_base::{Arm, ArmFault, Poll, Waker};

/// What a visit of a source came to.
#[derive(Clone, Copy, Debug, Drop, PartialEq, Eq)]
pub struct Visited<O> {
    /// What it gave, or the fault of an arm. Pending where a waker waits.
    pub answer: Poll<Result<O, ArmFault>>,
    /// The poll waiter that another one took the place of, to be woken.
    pub replaced: Option<Waker>,
}

/// What is done inside a source, once.
pub trait Visit<A: Arm> {
    ghost use Rattle.std.specs.Prelude.{◌≡◌, ℕ, IfSome};
    ghost use Rattle.aio_source.specs.declared.source.SourceCell.{SourceCell};
    ghost use Rattle.aio_source.specs.declared.visit.Visited.{Visited};
    ghost use Rattle.aio_source.specs.Visits.{IsUnsureArm, arm_fault_of};

    /// What it gives.
    type Output;

    /// The visit, the source before it, the number of rounds begun, what it came to, the visit after it,
    /// and the source after it.
    ghost visits: { Self → SourceCell A → ℕ → Visited Self.Output → Self → SourceCell A → Type 0 };

    /// Works on an entered source, after `ticker` rounds have begun. It keeps the source's key.
    fn visit(&mut self, cell: &mut SourceCell<A>, ticker: u64) -> Visited<Self::Output>
        ensures visits { visits self.old cell.old ticker result self.new cell.new }
        ensures arm { IfSome (arm_fault_of result.answer)
            (IsUnsureArm A.all_sure cell.old.state.key.0) }
        ensures key { cell.new.state.key ≡ cell.old.state.key };
}
