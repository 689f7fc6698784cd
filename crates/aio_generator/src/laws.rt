//! A law of generated steps, as the contract of a function with no work to do.

ghost use Rattle.std.specs.Prelude.{◌≤◌, ℕ};
ghost use Rattle.std.specs.List.{All};
ghost use Rattle.aio_base.specs.Generated.{generated_steps};
ghost use Rattle.aio_base.specs.Lines.{HasSpelling, IsInRange};
ghost use Rattle.aio_base.specs.declared.steps.Step.{Step};

/// Each step that a seed gives, of as many as `gen_steps` is asked for, has a spelling; and a step that
/// has one is in range, as a written line asks.
pub fn each_generated_step_has_a_spelling()
    ensures spelled { (n seed : ℕ) → n ≤ 999999 → All HasSpelling (generated_steps n seed) }
    ensures in_range { (s : Step) → HasSpelling s → IsInRange s }
{}
