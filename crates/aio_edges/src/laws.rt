//! The law of the steps that the calls on a key consist of.

ghost use Rattle.std.specs.Prelude.{◌≡◌, ◌⊎◌, ◌<◌, ℕ, true, List};
ghost use Rattle.aio_base.specs.declared.names.Dir.{Dir};
ghost use Rattle.aio_base.specs.declared.names.TheConstants.Interest.{NONE};
ghost use Rattle.aio_base.specs.World.{has_dir};
ghost use Rattle.aio_modes.specs.declared.mode.Mode.TheVariants.{Edge};
ghost use Rattle.aio_modes.specs.Raw.{Owed};
ghost use Rattle.aio_edges.specs.Words.{owed_in};
ghost use Rattle.aio_edges.specs.Steps.{EdgeStep, Gives, IsSeenTo, Kept, OnlyAdds, after_step, after_steps, lists_of, word_after};

/// What is owed by a word is what a poller in edge mode owes that is asked for what is armed. In any order of the
/// steps of any number of calls, a key of which something is owed is due, or one of the calls has still to give it
/// or to make it due. What is owed stays so until a step joins, disarms, takes an edge or gives; and to give leaves
/// nothing owed.
pub fn what_is_owed_is_seen_to()
    ensures owed { (word key : ℕ) → owed_in word ≡ Owed Edge (lists_of word) key }
    ensures seen { (steps : List EdgeStep) → IsSeenTo (after_steps steps) }
    ensures stays { (step : EdgeStep) (word : ℕ) (dir : Dir) → OnlyAdds step
        → has_dir (owed_in word) dir ≡ true → has_dir (owed_in (word_after step word)) dir ≡ true }
    ensures given { (word : ℕ) → owed_in (word_after Gives word) ≡ NONE }
{}
