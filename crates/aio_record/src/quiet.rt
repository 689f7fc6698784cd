//! An arm that never fails.

use aio_base::{Arm, Failed, Faults, Interest, Key};
use std::marker::Model;

/// What a source is armed with where no poller watches it: each call succeeds, nothing is kept and
/// nothing is told.
#[derive(Drop)]
pub(crate) struct QuietArm;

impl Faults for QuietArm {
    ghost use Rattle.std.specs.Prelude.{true, refl};
    ghost use Rattle.std.proofs.Common.{arith};

    ghost fault_count = { λ a. 0 };

    ghost is_sure = { λ a. true };

    ghost all_sure = { true };

    ghost sure_below_top = { λ a sure. Prim.omega arith };

    ghost each_sure = { λ a sure. refl };

    fn faults(&self) -> u64 {
        0
    }
}

impl Arm for QuietArm {
    ghost use Rattle.std.specs.Prelude.{[], None, IsOk};

    ghost interests = { λ a. None };

    ghost rest = { λ a. [] };

    ghost arm_step = { λ old call answer new. IsOk answer };

    fn add(&mut self, _key: Key) -> Result<(), Failed> {
        Ok(())
    }

    fn arm(&mut self, _key: Key, _on: Interest) -> Result<(), Failed> {
        Ok(())
    }

    fn remove(&mut self, _key: Key) -> Result<(), Failed> {
        Ok(())
    }
}
