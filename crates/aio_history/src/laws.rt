//! What holds of histories and of drawn calls, each as the contract of a function with nothing to do.

ghost use Rattle.std.specs.Prelude.{◌≡◌, ℕ, ◌∷◌, List, Some, length, reverse};
ghost use Rattle.aio_base.specs.declared.names.Dir.{Dir};
ghost use Rattle.aio_history.specs.DrawnCalls.{calls_in_all};
ghost use Rattle.aio_history.specs.Histories.{IsPlace, StoringPoll, Replays, storing_poll, step_of};
ghost use Rattle.aio_history.specs.StepNumbers.{numbers_of, step_numbers};
ghost use Rattle.aio_history.specs.Tried.{EachFails, worked_steps, wrong_pasts};
ghost use Rattle.aio_history.specs.declared.steps.CellCall.{CellCall};
ghost use Rattle.aio_history.specs.declared.steps.CellStep.{CellStep};

/// Where a past replays, it replays with one more call too that answers what the past says. So a list that
/// is made call by call replays.
pub fn a_step_with_its_answer_replays()
    ensures { (past : List CellStep) (call : CellCall) → Replays past
        → Replays (step_of call past ∷ past) }
{}

/// The storing poll of a direction is a place of its past: a poll of the direction that stayed pending, with the
/// steps before it and those since.
#[tactic(auto, using(crate::proofs::Places::storing_poll_is_place))]
pub fn a_storing_poll_is_a_place_of_its_past()
    ensures { (past : List CellStep) (dir : Dir) (mark : StoringPoll) → storing_poll past dir ≡ Some mark
        → IsPlace past dir mark }
{}

/// Of the calls that a seed gives each is for exactly one of the eight sources.
#[tactic(auto, using(crate::proofs::Drawn::each_for_one))]
pub fn every_drawn_call_is_for_one_cell()
    ensures { (seed calls : ℕ) → calls_in_all seed calls ≡ calls }
{}

/// Each step has as many numbers as any other, and lists of steps with the same numbers are the same.
#[tactic(auto, using(crate::proofs::Coding::numbers_tell, crate::proofs::Coding::as_many_numbers))]
pub fn notes_tell_their_steps()
    ensures count { (s other : CellStep) → length (step_numbers s) ≡ length (step_numbers other) }
    ensures steps { (steps others : List CellStep) → numbers_of steps ≡ numbers_of others
        → steps ≡ others }
{}

/// Steps whose answers were worked out by hand replay.
#[tactic(auto, using(crate::proofs::Trying::worked_replay))]
pub fn worked_steps_replay()
    ensures { Replays (reverse worked_steps) }
{}

/// No past replays whose last answer is that of a wrong source, while the steps before it do.
#[tactic(auto, using(crate::proofs::Trying::wrong_refused))]
pub fn wrong_steps_do_not_replay()
    ensures { EachFails wrong_pasts }
{}
