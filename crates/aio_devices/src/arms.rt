//! Arms in memory, which keep no interests and tell none.

ghost use Rattle.std.specs.Prelude.{◌≡◌};
ghost use Rattle.aio_devices.specs.Scripts.{new_script};

use crate::script::Script;
use aio_base::{Arm, Failed, Faults, Interest, Key};
use std::marker::Model;

/// An arm of which no call ever fails. Its rest is its number.
#[derive(Clone, Copy, Debug, PartialEq, Eq)]
pub struct SureArm {
    /// What no call changes.
    pub number: u64,
}

impl SureArm {
    /// An arm of this number.
    pub fn new(number: u64) -> SureArm
        ensures { result.number ≡ number }
    {
        SureArm { number }
    }
}

impl Faults for SureArm {
    ghost use Rattle.std.specs.Prelude.{true};
    ghost use Rattle.std.proofs.Common.{arith};

    ghost fault_count = { λ a. 0 };

    ghost is_sure = { λ a. true };

    ghost all_sure = { true };

    ghost sure_below_top = { λ a sure. Prim.omega arith };

    ghost each_sure = { λ a sure. sure };

    /// No call fails, so none is counted.
    fn faults(&self) -> u64 {
        0
    }
}

impl Arm for SureArm {
    ghost use Rattle.std.specs.Prelude.{◌≡◌, [], ◌∷◌, None, Ok};

    ghost interests = { λ a. None };

    ghost rest = { λ a. a.number ∷ [] };

    ghost arm_step = { λ old call answer new. (answer ≡ Ok tt) × (new ≡ old) };

    fn add(&mut self, _key: Key) -> Result<(), Failed> {
        Ok(())
    }

    fn arm(&mut self, _key: Key, _on: Interest) -> Result<(), Failed> {
        Ok(())
    }

    fn remove(&mut self, _key: Key) -> Result<(), Failed> {
        Ok(())
    }
}

/// An arm whose calls are numbered from 1, over all kinds; those whose numbers stand in its script fail. It
/// is sure where none stands there. Its rest is its number.
#[derive(Drop)]
pub struct FailingArm {
    number: u64,
    script: Script,
}

impl Model for FailingArm {
    ghost use Rattle.aio_devices.specs.Arms.{ArmValue};

    ghost Value = { ArmValue };

    ghost view = { λ a. record { number = a.number; script = a.script } };
}

impl FailingArm {
    /// An arm of this number, of which the calls with the numbers in `fails` fail.
    pub fn new(number: u64, fails: Vec<u64>) -> FailingArm
        ensures number { result.number ≡ number }
        ensures script { result.script ≡ new_script fails.items }
    {
        FailingArm {
            number,
            script: Script::new(fails),
        }
    }

    /// The number, which no call changes.
    pub fn number(&self) -> u64
        ensures { result ≡ self.now.number }
    {
        self.number
    }
}

impl Faults for FailingArm {
    ghost use Rattle.std.specs.Prelude.{◌-◌, ◌^◌, ◌<◌, false, if◌then◌else◌};
    ghost use Rattle.std.proofs.Common.{arith, subst, sym};
    ghost use Rattle.std.proofs.lemmas.Bool.{false≢true};
    ghost use Rattle.aio_devices.specs.Scripts.{fails_never, fault_count};

    ghost fault_count = { λ a. fault_count a.script };

    ghost is_sure = { λ a. fails_never a.script };

    ghost all_sure = { false };

    ghost sure_below_top = { λ a sure.
        subst (λ never. (if never then 0 else a.script.faults) < 2 ^ 64 - 1) (sym sure)
        (Prim.omega arith) };

    ghost each_sure = { λ a sure. absurd (false≢true sure) };

    fn faults(&self) -> u64 {
        self.script.faults()
    }
}

impl Arm for FailingArm {
    ghost use Rattle.std.specs.Prelude.{[], ◌∷◌, None};
    ghost use Rattle.aio_devices.specs.Arms.{ArmsByScript};

    ghost interests = { λ a. None };

    ghost rest = { λ a. a.number ∷ [] };

    ghost arm_step = { λ old call answer new. ArmsByScript old answer new };

    fn add(&mut self, _key: Key) -> Result<(), Failed> {
        self.script.next_call()
    }

    fn arm(&mut self, _key: Key, _on: Interest) -> Result<(), Failed> {
        self.script.next_call()
    }

    fn remove(&mut self, _key: Key) -> Result<(), Failed> {
        self.script.next_call()
    }
}
