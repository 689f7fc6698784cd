//! The adapter that makes a raw poller one in oneshot mode.

ghost use Rattle.std.specs.Prelude.{◌≡◌, ◌+◌, ◌≤◌, ◌++◌, length, List, IfOk, IfErr, vec_len, vec_capacity};
ghost use Rattle.aio_base.specs.declared.names.Event.{Event};
ghost use Rattle.aio_script.specs.Interests.{interests_in, none_armed};
ghost use Rattle.aio_modes.specs.Raw.{RawDid};

use crate::answering::answer_from;
use crate::raw::RawPoller;
use crate::script::{RawScript, RawWhich};
use aio_base::{Arm, Event, EventWait, Failed, Faults, Interest, Key, Poller, Waited};
use aio_script::InterestTable;
use std::alloc::Global;
use std::marker::Model;

/// A raw poller as a poller in oneshot mode (`polling` 3, `lib.rs`, `Poller`): it keeps what is
/// armed, and cuts the raw events to that.
///
/// Where the raw poller tells what it is asked for, that contains what is armed at all times, and
/// equals it in edge-oneshot mode.
#[derive(Drop)]
pub struct OneShot<R: RawPoller> {
    raw: R,
    armed: InterestTable,
    waits: u64,
}

impl<R: RawPoller> Model for OneShot<R> {
    ghost use Rattle.aio_script.specs.Interests.{interests_in};
    ghost use Rattle.aio_modes.specs.OneShots.{OneShotState, AreAsked};

    ghost Value = { OneShotState R };

    ghost view = { λ p. record { raw = p.raw; armed = p.armed; waits = p.waits } };

    ghost invariant = { λ p. AreAsked (R.mode_of p.raw) (R.told p.raw) (interests_in p.armed) };
}

impl<R: RawPoller> OneShot<R> {
    ghost use Rattle.aio_modes.specs.OneShots.{AsksNothing, AreAsked};

    /// An adapter over a raw poller that is asked for nothing, with nothing armed and no waits
    /// counted. Where memory ran out the raw poller comes back as it was.
    pub fn new(alloc: Global, raw: R) -> Result<OneShot<R>, R>
        requires { AsksNothing (R.told raw) }
        ensures fresh { IfOk result (λ p.
            p ≡ record { raw = raw; armed = none_armed; waits = 0 }) }
        ensures back { IfErr result (λ back. back ≡ raw) }
    {
        match InterestTable::new(alloc) {
            Ok(armed) => Ok(OneShot {
                raw,
                armed,
                waits: 0,
            }),
            Err(_) => Err(raw),
        }
    }

    /// What is armed for a key; a key of 4,096 or more has none. Where the raw poller tells what it
    /// is asked for, that contains it, and equals it in edge-oneshot mode.
    pub fn armed(&self, key: Key) -> Interest
        ensures value { result ≡ interests_in self.now.armed key.0 }
        ensures asked { AreAsked (R.mode_of self.now.raw) (R.told self.now.raw)
            (interests_in self.now.armed) }
        ensures entries { length self.now.armed ≡ 4096 }
    {
        self.armed.get(key)
    }

    /// The raw poller.
    pub fn raw(&self) -> &R
        ensures { result.now ≡ self.now.raw }
    {
        &self.raw
    }
}

impl<R: RawPoller> Faults for OneShot<R> {
    ghost fault_count = { λ p. R.fault_count p.raw };

    ghost is_sure = { λ p. R.is_sure p.raw };

    ghost all_sure = { R.all_sure };

    ghost sure_below_top = { λ p sure. R.sure_below_top p.raw sure };

    ghost each_sure = { λ p sure. R.each_sure p.raw sure };

    fn faults(&self) -> u64 {
        self.raw.faults()
    }
}

impl<R: RawPoller> Arm for OneShot<R> {
    ghost use Rattle.std.specs.Prelude.{[], ◌∷◌, Some};
    ghost use Rattle.aio_modes.specs.OneShots.{OneShotArmed};

    ghost interests = { λ p. Some (interests_in p.armed) };

    ghost rest = { λ p. p.waits ∷ [] };

    ghost arm_step = { OneShotArmed (RawDid R.raw_step R.told R.mode_of R.fault_count R.is_sure) };

    /// Registers a source; nothing is armed for it. `Failed` exactly where the raw poller's `add`
    /// failed.
    fn add(&mut self, key: Key) -> Result<(), Failed> {
        match self.raw.add(key) {
            Ok(()) => {
                self.armed.set(key, Interest::NONE);
                Ok(())
            }
            Err(failed) => Err(failed),
        }
    }

    /// Arms a source, for which the raw poller is asked for the same. `Failed` exactly where its
    /// `set` failed.
    fn arm(&mut self, key: Key, on: Interest) -> Result<(), Failed> {
        match self.raw.set(key, on) {
            Ok(()) => {
                self.armed.set(key, on);
                Ok(())
            }
            Err(failed) => Err(failed),
        }
    }

    /// Takes a source out. `Failed` exactly where the raw poller's `remove` failed.
    fn remove(&mut self, key: Key) -> Result<(), Failed> {
        match self.raw.remove(key) {
            Ok(()) => {
                self.armed.set(key, Interest::NONE);
                Ok(())
            }
            Err(failed) => Err(failed),
        }
    }
}

impl<R: RawPoller> EventWait for OneShot<R> {
    ghost use Rattle.aio_base.specs.Devices.{TellsFaults, raised};
    ghost use Rattle.aio_base.specs.Waits.{AddsEvents};
    ghost use Rattle.std.specs.Prelude.{IsErr};
    ghost use Rattle.aio_modes.specs.OneShots.{OneShotWaited, GivesCut, SwallowsNothing};

    ghost wait_count = { λ p. p.waits };

    ghost wait_step = { OneShotWaited
        (RawDid R.raw_step R.told R.mode_of R.fault_count R.is_sure) R.mode_of };

    /// One wait of the raw poller with the same room and limit, whose events are given cut to what
    /// is armed, those with nothing left apart. A key that is given becomes unarmed. In level and
    /// edge mode the raw poller is then asked, for the key of each raw event, for what is still
    /// armed; a failure of that is passed over. Interrupted and `Failed` exactly where the raw wait
    /// was.
    ///
    /// Where the raw poller tells its lists, each direction that was armed and owed is given, or is
    /// still armed and owed.
    fn wait(
        &mut self,
        out: &mut Vec<Event>,
        room: u32,
        limit: Option<u64>,
    ) -> Result<Waited, Failed>
        requires { vec_len out.old + room ≤ vec_capacity out.old }
        ensures added { AddsEvents (OneShotWaited
            (RawDid R.raw_step R.told R.mode_of R.fault_count R.is_sure) R.mode_of
            self.old (record { room = room; limit = limit }) result)
            self.new result room out.old.items out.new.items }
        ensures capacity { vec_capacity out.old ≤ vec_capacity out.new }
        ensures waits { self.new.waits ≡ raised self.old.waits }
        ensures faults { TellsFaults (λ p. R.fault_count p.raw) (λ p. R.is_sure p.raw)
            self.old self.new (IsErr result) }
        ensures given { (added : List Event) → out.new.items ≡ out.old.items ++ added
            → GivesCut (R.mode_of self.old.raw) (R.told self.old.raw)
            (interests_in self.old.armed) room result added }
        ensures kept { (added : List Event) → out.new.items ≡ out.old.items ++ added
            → SwallowsNothing (R.mode_of self.old.raw) (R.told self.old.raw)
            (interests_in self.old.armed) added
            (R.told self.new.raw) (interests_in self.new.armed) }
    {
        self.waits = self.waits.saturating_add(1);
        let start = out.len();
        match self.raw.wait(out, room, limit) {
            Ok(Waited::Given(_)) => {
                let left = answer_from(&mut self.raw, &mut self.armed, out, start, room);
                Ok(Waited::Given(left))
            }
            Ok(Waited::Interrupted) => Ok(Waited::Interrupted),
            Err(failed) => Err(failed),
        }
    }

    fn waits(&self) -> u64 {
        self.waits
    }
}

impl<R: RawPoller> Poller for OneShot<R> {
    ghost use Rattle.std.proofs.Common.{ap};
    ghost use Rattle.std.specs.Prelude.{slice_index_or};

    ghost wait_clears = { λ old new call answer added did key. ap (λ on. on key) did.armed };

    ghost waits_in_rest = { λ a b same. ap (λ rest. slice_index_or rest 0 0) same };
}

impl OneShot<RawScript> {
    ghost use Rattle.std.specs.Prelude.{◌<◌};
    ghost use Rattle.aio_modes.specs.Scripts.{HasNow, lists_of, with_failure, with_idle, with_ready};

    /// These directions of a source become ready in the raw poller; what is armed stays. Takes no
    /// memory.
    pub fn become_ready(&mut self, key: Key, on: Interest)
        requires { key.0 < 4096 }
        ensures raw { HasNow self.old.raw
            (with_ready key.0 on (lists_of self.old.raw)) self.new.raw }
        ensures armed { self.new.armed ≡ self.old.armed }
        ensures waits { self.new.waits ≡ self.old.waits }
    {
        self.raw.become_ready(key, on);
    }

    /// These directions of a source are ready no longer in the raw poller; what is armed stays.
    /// Takes no memory.
    pub fn become_idle(&mut self, key: Key, on: Interest)
        requires { key.0 < 4096 }
        ensures raw { HasNow self.old.raw
            (with_idle key.0 on (lists_of self.old.raw)) self.new.raw }
        ensures armed { self.new.armed ≡ self.old.armed }
        ensures waits { self.new.waits ≡ self.old.waits }
    {
        self.raw.become_idle(key, on);
    }

    /// The next raw call of this kind fails, also where the adapter makes it. Takes no memory.
    pub fn fail_next(&mut self, which: RawWhich)
        ensures { self.new ≡ record self.old {
          raw = record self.old.raw {
            due = with_failure which self.old.raw.due;
          };
        } }
    {
        self.raw.fail_next(which);
    }
}
