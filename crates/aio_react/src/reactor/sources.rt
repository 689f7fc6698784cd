//! Sources join a core and leave it.

ghost use Rattle.std.specs.Prelude.{◌≡◌, [], None, Err, IsSome, IfSome};
ghost use Rattle.aio_base.specs.declared.steps.Step.TheVariants as step;
ghost use Rattle.aio_base.specs.Devices.{PollerStep, TellsFaults, AddOf, RemoveOf};
ghost use Rattle.aio_react.specs.declared.refusals.CoreRefusal.TheVariants as refusal;
ghost use Rattle.aio_react.specs.Meeting.{Meets};
ghost use Rattle.aio_react.specs.Sources.{free_key, AnswersAdd, after_add, add_told, add_failure, add_reply, AnswersDel, after_del, del_told, del_failure, del_reply};

use super::Core;
use crate::entries::SourceEntry;
use crate::refusals::CoreRefusal;
use aio_base::{CountFault, Key, Poller};
use aio_source::SourceState;

impl<P: Poller> Core<P> {
    /// Registers a source with the poller under the least key that is not live, and answers the key.
    /// `Full` exactly where 4,096 sources live; it leaves all as it was. `AddFault` only where the
    /// poller's count of faults rose; all but the poller is as before. It takes no memory.
    #[inline(never)]
    pub fn add(&mut self) -> Result<Key, CoreRefusal>
        ensures meets { Meets (PollerStep P.arm_step P.wait_step) P.interests step.Add None
            (add_reply result) [] None self.old self.new }
        ensures answer { AnswersAdd self.old.1.sources result }
        ensures after { self.new.1 ≡ after_add self.old.1 result }
        ensures refused { result ≡ Err refusal.Full → self.new ≡ self.old }
        ensures asked { IfSome (add_told result) (λ told. P.arm_step self.old.0
            (AddOf (record { 0 = free_key self.old.1.sources })) told self.new.0) }
        ensures faults { TellsFaults P.fault_count P.is_sure self.old.0 self.new.0
            (IsSome (add_failure result)) }
        ensures fault { IfSome (add_failure result) (λ fault. fault ≡ record {
          before = P.fault_count self.old.0;
          after = P.fault_count self.new.0;
        }) }
    {
        let Some(key) = self.sources.free_key() else {
            return Err(CoreRefusal::Full);
        };
        let before = self.poller.faults();
        match self.poller.add(key) {
            Ok(()) => {}
            Err(_) => {
                return Err(CoreRefusal::AddFault(CountFault {
                    before,
                    after: self.poller.faults(),
                }));
            }
        }
        let entry = SourceEntry {
            source: SourceState::new(self.alloc, key),
            listeners: 0,
        };
        self.sources.put(key, entry);
        Ok(key)
    }

    /// Takes a source out; its poll waiters are given up without a wake. `NoSource` exactly where the
    /// key is not live, and then `InUse` exactly where a listener of it lives, polled or not: both
    /// leave all as it was. `RemoveFault` only where the poller's count of faults rose; the source is
    /// gone all the same. It takes no memory.
    #[inline(never)]
    pub fn del(&mut self, key: Key) -> Result<(), CoreRefusal>
        ensures meets { Meets (PollerStep P.arm_step P.wait_step) P.interests (step.Del key) None
            (del_reply result) [] None self.old self.new }
        ensures answer { AnswersDel self.old.1.sources self.old.1.listeners key.0 result }
        ensures after { self.new.1 ≡ after_del self.old.1 key.0 result }
        ensures no_source { result ≡ Err refusal.NoSource → self.new ≡ self.old }
        ensures in_use { result ≡ Err refusal.InUse → self.new ≡ self.old }
        ensures asked { IfSome (del_told result) (λ told.
            P.arm_step self.old.0 (RemoveOf key) told self.new.0) }
        ensures faults { TellsFaults P.fault_count P.is_sure self.old.0 self.new.0
            (IsSome (del_failure result)) }
        ensures fault { IfSome (del_failure result) (λ fault. fault ≡ record {
          before = P.fault_count self.old.0;
          after = P.fault_count self.new.0;
        }) }
    {
        let Some(entry) = self.sources.get(key) else {
            return Err(CoreRefusal::NoSource);
        };
        if entry.listeners > 0 {
            return Err(CoreRefusal::InUse);
        }
        let before = self.poller.faults();
        let removed = self.poller.remove(key);
        self.sources.clear(key);
        match removed {
            Ok(()) => Ok(()),
            Err(_) => Err(CoreRefusal::RemoveFault(CountFault {
                before,
                after: self.poller.faults(),
            })),
        }
    }
}
