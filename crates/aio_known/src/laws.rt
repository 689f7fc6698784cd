//! The laws of what is known, as contracts of functions with no work to do.

ghost use Rattle.std.specs.Prelude.{◌≡◌, List, [], ◌∷◌};
ghost use Rattle.aio_base.specs.Machine.{step_result};
ghost use Rattle.aio_base.specs.Runs.{PolledStep, world_of};
ghost use Rattle.aio_base.specs.World.{PollerAnswer, World, opening};
ghost use Rattle.aio_base.specs.declared.steps.Step.{Step};
ghost use Rattle.aio_known.specs.Known.{known_of};
ghost use Rattle.aio_known.specs.KnownRuns.{Alike, IsSection, Reached};
ghost use Rattle.aio_known.specs.KnownSteps.{Follows, known_step};

/// Each world that a run reaches is sound, whatever the poller answered in it, and each of its listeners
/// is one of a live source.
pub fn each_world_of_a_run_is_reached()
    ensures { (run : List PolledStep) → Reached (world_of opening run) }
{}

/// What a step gives follows from what is known of the world before it, and so does what is known behind
/// it, whatever the poller answers. A whole round is its sections.
pub fn what_a_step_gives_follows_from_what_is_known()
    ensures { (w : World) (s : Step) (told : PollerAnswer) → Reached w → IsSection s
        → Follows (step_result w s (told ∷ [])) (known_step (known_of w) s told) }
{}

/// Two worlds of which the same is known give the same in each step, and the same is known of them
/// afterwards. So no answer and no wake depends on where in the past something was, on what is armed, or
/// on what has gone.
pub fn worlds_of_which_the_same_is_known_give_the_same()
    ensures { (w v : World) (s : Step) (told : PollerAnswer) → Reached w → Reached v → IsSection s
        → known_of w ≡ known_of v
        → Alike (step_result w s (told ∷ [])) (step_result v s (told ∷ [])) }
{}
