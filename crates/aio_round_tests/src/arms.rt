//! Arms that a table of acts can make fail and look at.

ghost use Rattle.std.specs.Prelude.{false};

use crate::polling::KEY;
use aio_base::{Arm, Failed, Faults, Interest, Key, Which};
use aio_script::ScriptPoller;

/// What can be told and asked of an arm beside its calls.
pub(crate) trait Told: Arm {
    /// Its next arm fails.
    fn fail(&mut self);

    /// How many arms it counted, where it counts them, and what the last one that did not fail asked for.
    fn arms(&self) -> (u64, Interest);
}

/// An arm that counts its calls and remembers the last of them.
#[derive(Drop)]
pub(crate) struct CountingArm {
    arms: u64,
    last: Interest,
    fails: bool,
    faults: u64,
}

impl CountingArm {
    /// An arm that was not called.
    pub(crate) fn new() -> CountingArm {
        CountingArm {
            arms: 0,
            last: Interest::NONE,
            fails: false,
            faults: 0,
        }
    }
}

impl Faults for CountingArm {
    ghost fault_count = { λ a. a.faults };

    ghost is_sure = { λ a. false };

    ghost all_sure = { false };

    ghost use Rattle.std.proofs.lemmas.Bool.{false≢true};

    ghost sure_below_top = { λ a sure. absurd (false≢true sure) };

    ghost each_sure = { λ a sure. sure };

    fn faults(&self) -> u64 {
        self.faults
    }
}

impl Arm for CountingArm {
    ghost use Rattle.std.specs.Prelude.{[], None};

    ghost interests = { λ a. None };

    ghost rest = { λ a. [] };

    ghost arm_step = { λ old call answer new. Unit {0} };

    fn add(&mut self, _key: Key) -> Result<(), Failed> {
        Ok(())
    }

    fn arm(&mut self, _key: Key, on: Interest) -> Result<(), Failed> {
        self.arms = self.arms.saturating_add(1);
        if self.fails {
            self.fails = false;
            self.faults = self.faults.saturating_add(1);
            return Err(Failed);
        }
        self.last = on;
        Ok(())
    }

    fn remove(&mut self, _key: Key) -> Result<(), Failed> {
        Ok(())
    }
}

impl Told for CountingArm {
    fn fail(&mut self) {
        self.fails = true;
    }

    fn arms(&self) -> (u64, Interest) {
        (self.arms, self.last)
    }
}

impl Told for ScriptPoller {
    fn fail(&mut self) {
        self.fail_next(Which::Arm);
    }

    fn arms(&self) -> (u64, Interest) {
        (0, self.armed(KEY))
    }
}
