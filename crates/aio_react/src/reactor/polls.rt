//! The calls of a core by which tasks wait for its sources.

ghost use Rattle.std.specs.Prelude.{◌≡◌, [], None, is_ok, is_some, IfErr, IsErr};
ghost use Rattle.aio_base.specs.Devices.{PollerStep, TellsFaults};
ghost use Rattle.aio_base.specs.declared.steps.Step.TheVariants as step;
ghost use Rattle.aio_react.specs.declared.refusals.CoreRefusal.TheVariants.{NoSource};
ghost use Rattle.aio_react.specs.Asking.{UsesPoller, poll_part};
ghost use Rattle.aio_react.specs.Cores.{entry_at};
ghost use Rattle.aio_react.specs.Meeting.{Meets};
ghost use Rattle.aio_react.specs.Polls.{poll_reply, poll_wakes, poll_armed};

use crate::reactor::Core;
use crate::refusals::CoreRefusal;
use aio_base::{Arm, Dir, Key, Poller, Waker};
use aio_source::Polled;

impl<P: Poller> Core<P> {
    /// Polls a direction of a source with a waker (`async-io` 2, `reactor.rs`,
    /// `Source::poll_ready`), as `SourceState::poll_dir` does while as many rounds have begun as the
    /// core counts. A poll waiter that it replaced is to be woken. `NoSource` exactly where no source
    /// has this key; all is as it was then. `ArmFault`, inside the answer, only where the poller's
    /// count of faults rose. It takes no memory.
    #[inline(always)]
    pub fn poll(&mut self, key: Key, dir: Dir, w: Waker) -> Result<Polled, CoreRefusal>
        ensures meets { Meets (PollerStep P.arm_step P.wait_step) P.interests (step.Poll key dir w)
            None (poll_reply result) (poll_wakes result) None self.old self.new }
        ensures live { is_ok result ≡ is_some (entry_at self.old.1.sources key.0) }
        ensures refused { IfErr result (λ refusal. (refusal ≡ NoSource) × (self.new ≡ self.old)) }
        ensures round { self.new.1.round ≡ self.old.1.round }
        ensures lent { UsesPoller P.arm_step P.interests P.rest P.fault_count P.is_sure
            (poll_part self.old.1 key.0 dir w) (poll_armed result) self.old.0 self.new.0 }
        ensures faults { TellsFaults P.fault_count P.is_sure self.old.0 self.new.0
            (IsErr (poll_armed result)) }
        ensures fault { IfErr (poll_armed result) (λ fault. fault ≡ record {
          key = key;
          before = P.fault_count self.old.0;
          after = P.fault_count self.new.0;
        }) }
    {
        match self.sources.get_mut(key) {
            Some(entry) => Ok(entry.source.poll_dir(&mut self.poller, dir, w, self.ticker)),
            None => Err(CoreRefusal::NoSource),
        }
    }
}
