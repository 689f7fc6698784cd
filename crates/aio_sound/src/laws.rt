//! Laws that join a core to the runs of the machine, as contracts of functions with no work to do.

ghost use Rattle.std.specs.Prelude.{◌≡◌, ℕ, List, Option, None};
ghost use Rattle.aio_base.specs.Devices.{PollerStep};
ghost use Rattle.aio_base.specs.Runs.{PolledStep, world_of};
ghost use Rattle.aio_base.specs.World.{World, opening};
ghost use Rattle.aio_react.specs.Cores.{CoreValue};
ghost use Rattle.aio_react.specs.Reacting.{Stopped};
ghost use Rattle.aio_react.specs.Standing.{Stands};
ghost use Rattle.aio_facts.specs.Sound.{Sound};
ghost use Rattle.aio_sound.specs.Stopping.{StoppedFrom};

use aio_base::Poller;

/// Each world that a run of the machine reaches is sound, whatever the poller answered in it. So a core
/// that stands for a world of a run asks nothing of it by asking that it is sound.
pub fn each_world_of_a_run_is_sound()
    ensures { (run : List PolledStep)
        → Sound (world_of opening run).pos (world_of opening run) }
{}

/// A round of a core that want of memory stopped (`Core::react`) is one of which the law of stopped
/// rounds speaks: from each world that the core stood for, in which no round ran, its sections were a
/// begin, a wait and the handling of some events, each with just the answers of its own calls, and the
/// core stands for the world that they leave. So once the other events are handled and the round is
/// ended it comes to what the whole round comes to as one step (`a_stopped_round_ends_as_a_whole_one`).
pub fn a_stopped_round_of_a_core_goes_on<P: Poller>()
    ensures { (given : Option ℕ) (now : ℕ) (old new : P × CoreValue) (w : World)
        → Stopped (PollerStep P.arm_step P.wait_step) P.interests given now old new
        → Stands (P.interests old.0) old.1 w → w.now ≡ now → w.round ≡ None
        → StoppedFrom w given (P.interests new.0) new.1 }
{}
