//! What a reader of lines or a generator hands its steps to.

ghost use Rattle.std.specs.Prelude.{◌≡◌};

use aio_base::Step;

/// What takes each step in the arm that read it from a line or drew it. There it is known which step it
/// is, so it need not be laid in memory and told apart again.
pub trait StepTaker {
    ghost use Rattle.aio_base.specs.declared.steps.Step.{Step};
    ghost use Rattle.aio_base.specs.Lines.{IsInRange};

    /// What a step comes to.
    type Answer;

    /// Whether a step may come, whichever it is.
    ghost is_ready: { Self → Type 0 };

    /// The state before a step, the step, what it came to, and the state after it.
    ghost takes: { Self → Step → Self.Answer → Self → Type 0 };

    /// Takes a step.
    fn take(&mut self, step: Step) -> Self::Answer
        requires ready { is_ready self.old }
        requires range { IsInRange step }
        ensures { takes self.old step result self.new };
}

/// Hands each step out as it is.
#[derive(Drop)]
pub struct HandsOut;

impl StepTaker for HandsOut {
    type Answer = Step;

    ghost is_ready = { λ t. Unit {0} };

    ghost takes = { λ old step answer new. answer ≡ step };

    #[inline(always)]
    fn take(&mut self, step: Step) -> Step {
        step
    }
}
