//! A recorded cell that keeps who made each call.

ghost use Rattle.std.specs.Prelude.{◌≡◌, ◌<◌, [], ◌∷◌, ◌++◌, length, slice_index_or, OnErr, IfOk};
ghost use Rattle.aio_history.specs.Histories.{call_of};
ghost use Rattle.aio_record.specs.Makers.{IsWhole, Made, first_stressed, number_of};
ghost use Rattle.aio_record.specs.declared.stress_cell.Maker.TheVariants.{First};

use crate::recorded::RecordedCell;
use aio_base::OutOfMemory;
use aio_history::{CellCall, CellStep};
use aio_rules::Noted;
use std::alloc::Global;
use std::marker::Model;

/// Which of two jobs made a call.
#[derive(Clone, Copy, Debug, PartialEq, Eq, Drop)]
pub enum Maker {
    /// Job 0.
    First,
    /// Job 1.
    Second,
}

/// A recorded cell that keeps for each of its steps which of two jobs made the call.
///
/// As a value with notes, note 0 has the steps of job 0 and note 1 those of job 1, in order, each by its
/// numbers.
#[derive(Drop)]
pub struct StressCell {
    cell: RecordedCell,
    makers: Vec<Maker>,
}

impl Model for StressCell {
    ghost use Rattle.std.specs.Prelude.{◌≡◌, length};
    ghost use Rattle.aio_record.specs.Makers.{StressValue};

    ghost Value = { StressValue };

    ghost view = { λ c. record { cell = c.cell; makers = c.makers.items } };

    ghost invariant = { λ c. length c.makers.items ≡ length c.cell.steps };
}

impl Noted for StressCell {
    ghost use Rattle.aio_history.specs.StepNumbers.{numbers_of};
    ghost use Rattle.aio_record.specs.declared.stress_cell.Maker.TheVariants.{First, Second};
    ghost use Rattle.aio_record.specs.Makers.{steps_of};

    ghost first_note = { λ c. numbers_of (steps_of First c) };

    ghost second_note = { λ c. numbers_of (steps_of Second c) };
}

impl StressCell {
    /// A cell on which nothing was called. It takes no memory.
    pub(crate) fn new(alloc: Global) -> StressCell
        ensures { result ≡ first_stressed }
    {
        StressCell {
            cell: RecordedCell::new(alloc),
            makers: Vec::new(alloc),
        }
    }

    /// The source with its steps.
    pub fn cell(&self) -> &RecordedCell
        ensures { result.now ≡ self.now.cell }
    {
        &self.cell
    }

    /// Which job made the call of this step, counted from 0: 0 or 1.
    pub fn job(&self, step: usize) -> u32
        requires { step < length self.now.cell.steps }
        ensures maker { result ≡ number_of (slice_index_or self.now.makers step First) }
        ensures bound { result < 2 }
    {
        match self.makers[step] {
            Maker::First => 0,
            Maker::Second => 1,
        }
    }

    /// What holds of every such cell: its steps replay, and each has one maker. It does nothing.
    pub fn is_whole(&self)
        ensures { IsWhole self.now }
    {
        self.cell.is_left_by_its_steps();
    }

    /// Makes a call for a job, and answers its step. Where memory runs out nothing is done.
    pub(crate) fn make(&mut self, maker: Maker, call: CellCall) -> Result<CellStep, OutOfMemory>
        ensures made { IfOk result (λ step. Made maker call step self.old self.new) }
        ensures refused { OnErr result (self.new ≡ self.old) }
    {
        if self.makers.reserve(1).is_err() {
            return Err(OutOfMemory);
        }
        let step = record_call(&mut self.cell, call)?;
        self.makers.push_reserved(maker);
        Ok(step)
    }
}

/// Makes a call on a recorded cell, and answers its step.
fn record_call(cell: &mut RecordedCell, call: CellCall) -> Result<CellStep, OutOfMemory>
    ensures call { IfOk result (λ step. call_of step ≡ call) }
    ensures steps { IfOk result (λ step. cell.new.steps ≡ cell.old.steps ++ step ∷ []) }
    ensures refused { OnErr result (cell.new ≡ cell.old) }
{
    match call {
        CellCall::Poll { dir, waker, ticker } => match cell.poll(dir, waker, ticker) {
            Ok(answer) => Ok(CellStep::Poll {
                dir,
                waker,
                ticker,
                answer,
            }),
            Err(refusal) => Err(refusal),
        },
        CellCall::Handle { on, round } => match cell.handle(on, round) {
            Ok(taken) => Ok(CellStep::Handle { on, round, taken }),
            Err(refusal) => Err(refusal),
        },
    }
}
