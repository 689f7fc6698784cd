//! What a source asks of the poller that it is lent.

ghost use Rattle.std.specs.Prelude.{◌≡◌, ◌<◌, ◌||◌};
ghost use Rattle.aio_base.specs.Devices.{ArmOf};
ghost use Rattle.aio_base.specs.World.{has_any};
ghost use Rattle.aio_source.specs.Rules.{wanted};
ghost use Rattle.aio_source.specs.Lent.{arm_answer, fault_of, UsesArm, asked_after, broken_after};

use crate::directions::Directions;
use aio_base::{Arm, ArmFault, Interest, Key};

/// What the last arm of a source asked for, and whether it failed.
#[derive(Clone, Copy)]
pub(crate) struct Arming {
    pub asked: Interest,
    pub broken: bool,
}

impl Arming {
    /// Whether a direction may have a waiter: something was asked for, or the last arm failed.
    pub(crate) fn may_wait(&self) -> bool
        ensures { result ≡ (self.now.broken || has_any self.now.asked) }
    {
        self.broken || !self.asked.is_none()
    }

    /// Arms the poller for this key and the directions that have a waiter, where `arms` says so.
    pub(crate) fn arm_where<A: Arm>(
        &mut self,
        arms: bool,
        arm: &mut A,
        key: Key,
        directions: &Directions,
    ) -> Result<(), ArmFault>
        requires { key.0 < 4096 }
        ensures fault { result
            ≡ fault_of key (A.fault_count arm.old) (A.fault_count arm.new) (arm_answer result) }
        ensures asked { self.new.asked
            ≡ asked_after arms (wanted directions.now) (arm_answer result) self.old.asked }
        ensures broken { self.new.broken ≡ broken_after arms (arm_answer result) self.old.broken }
        ensures lent { UsesArm A.arm_step A.interests A.rest A.fault_count A.is_sure
            arms (ArmOf key (wanted directions.now)) (arm_answer result) arm.old arm.new }
    {
        if !arms {
            return Ok(());
        }
        let on = directions.wanted();
        let before = arm.faults();
        let armed = arm.arm(key, on);
        if armed.is_ok() {
            self.asked = on;
            self.broken = false;
            return Ok(());
        }
        self.asked = Interest::NONE;
        self.broken = true;
        Err(ArmFault {
            key,
            before,
            after: arm.faults(),
        })
    }
}
