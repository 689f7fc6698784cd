//! A source that records the calls on it.

ghost use Rattle.std.specs.Prelude.{◌≡◌, ◌++◌, ◌∷◌, [], length, reverse, IfOk, OnErr};
ghost use Rattle.aio_history.specs.Histories.{answer_to_poll, waiters_among};
ghost use Rattle.aio_history.specs.declared.steps.CellStep.TheVariants as step;
ghost use Rattle.aio_record.specs.Recording.{IsRecorded, after_handle, after_poll, first_recorded, without_fault};

use crate::quiet::QuietArm;
use aio_base::{ArmFault, DIRS, Dir, Event, Interest, Key, OutOfMemory, Poll, Waker};
use aio_history::CellStep;
use aio_source::{SourceCell, SourceState};
use std::alloc::Global;
use std::marker::Model;

/// A source over an arm that never fails, with the list of the calls on it and their answers. Contracts
/// see the list and the source.
///
/// The list replays: each answer is the one that the steps before it say. And the source is what the list
/// leaves.
#[derive(Drop)]
pub struct RecordedCell {
    source: SourceCell<QuietArm>,
    steps: Vec<CellStep>,
    // The wakers that the last event took.
    taken: Vec<Waker>,
}

impl Model for RecordedCell {
    ghost use Rattle.aio_record.specs.Recording.{IsRecorded, RecordedValue};

    ghost Value = { RecordedValue };

    ghost view = { λ c. record { steps = c.steps.items; source = c.source.state } };

    ghost invariant = { λ c. IsRecorded c.steps.items c.source.state };
}

impl RecordedCell {
    /// A source of key 0 on which nothing was called. It takes no memory; later calls take theirs from
    /// `alloc`.
    pub fn new(alloc: Global) -> RecordedCell
        ensures { result ≡ first_recorded }
    {
        RecordedCell {
            source: SourceCell {
                state: SourceState::new(alloc, Key(0)),
                io: QuietArm,
            },
            steps: Vec::new(alloc),
            taken: Vec::new(alloc),
        }
    }

    /// Polls a direction, as `SourceState::poll_dir` does, and records that. A waker that this one takes
    /// the place of is let go. Where there is no memory for the step, nothing is done.
    pub fn poll(&mut self, dir: Dir, w: Waker, ticker: u64) -> Result<Poll<()>, OutOfMemory>
        ensures answer { IfOk result (λ answer. answer ≡ answer_to_poll (reverse self.old.steps) dir) }
        ensures step { IfOk result (λ answer. self.new.steps
            ≡ self.old.steps ++ step.Poll dir w ticker answer ∷ []) }
        ensures source { IfOk result (λ answer. self.new.source
            ≡ after_poll self.old.source dir w ticker) }
        ensures refused { OnErr result (self.new ≡ self.old) }
    {
        if self.steps.reserve(1).is_err() {
            return Err(OutOfMemory);
        }
        let polled = self
            .source
            .state
            .poll_dir(&mut self.source.io, dir, w, ticker);
        let answer = beside_faults(polled.answer);
        self.steps.push_reserved(CellStep::Poll {
            dir,
            waker: w,
            ticker,
            answer,
        });
        Ok(answer)
    }

    /// Handles an event of a round, as `SourceState::handle` does, and records that. It answers how many
    /// wakers were taken. Where there is no memory for the step or the wakers, nothing is done.
    pub fn handle(&mut self, on: Interest, round: u64) -> Result<u32, OutOfMemory>
        ensures answer { IfOk result (λ taken. taken ≡ waiters_among on (reverse self.old.steps)) }
        ensures step { IfOk result (λ taken. self.new.steps
            ≡ self.old.steps ++ step.Handle on round taken ∷ []) }
        ensures source { IfOk result (λ taken. self.new.source
            ≡ after_handle self.old.source on round) }
        ensures refused { OnErr result (self.new ≡ self.old) }
    {
        if self.steps.reserve(1).is_err() {
            return Err(OutOfMemory);
        }
        self.taken.clear();
        if self.taken.reserve(DIRS.len()).is_err() {
            return Err(OutOfMemory);
        }
        let event = Event { key: Key(0), on };
        let _never_fails = self
            .source
            .state
            .handle(&mut self.source.io, event, round, &mut self.taken);
        let taken = self.taken.len() as u32;
        self.steps
            .push_reserved(CellStep::Handle { on, round, taken });
        Ok(taken)
    }

    /// How many calls were recorded.
    pub fn steps(&self) -> usize
        ensures { result ≡ length self.now.steps }
    {
        self.steps.len()
    }

    /// What holds of every recorded cell: its steps replay, and its source is what they leave. It does
    /// nothing.
    pub fn is_left_by_its_steps(&self)
        ensures { IsRecorded self.now.steps self.now.source }
    {
        let _ = &self.source;
    }
}

/// The answer to a poll, of which no fault comes here.
fn beside_faults(answer: Poll<Result<(), ArmFault>>) -> Poll<()>
    ensures { result ≡ without_fault answer }
{
    match answer {
        Poll::Pending => Poll::Pending,
        Poll::Ready(_) => Poll::Ready(()),
    }
}
