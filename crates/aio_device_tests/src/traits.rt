//! The traits of devices as a generic caller sees them.

ghost use Rattle.std.specs.Prelude.{◌≡◌, ◌+◌, ◌<◌, ◌≤◌, ◌^◌, Some, List, [], ◌∷◌, ◌++◌, Result, if◌then◌else◌, is_ok, vec_len, vec_capacity};
ghost use Rattle.aio_base.specs.declared.names.Event.{Event};
ghost use Rattle.aio_base.specs.declared.outcomes.Failed.{Failed};
ghost use Rattle.aio_base.specs.ClockBounds.{IsWithin};
ghost use Rattle.aio_base.specs.Devices.{ArmCall, ArmOf, Armed, Awaited, Arms, Becomes, PollerStep, RunOf, clear_interests, raised, with_interest};
ghost use Rattle.aio_base.specs.Waits.{IsCountOf};

use crate::asserts::{MEMORY, moment, same};
use aio_base::{
    Arm, Clock, Event, EventWait, Failed, Faults, Interest, Key, Moment, Poller, Waited,
};
use aio_devices::MemClock;
use std::alloc::Global;
use std::process::Abort;

const READABLE: Event = Event {
    key: Key(3),
    on: Interest::READ,
};

/// Arms one key and then waits: both answers.
fn arm_then_wait<P: Poller>(
    poller: &mut P,
    key: Key,
    on: Interest,
    out: &mut Vec<Event>,
    room: u32,
    limit: Option<u64>,
) -> (Result<(), Failed>, Result<Waited, Failed>)
    requires in_range { key.0 < 4096 }
    requires spare { vec_len out.old + room ≤ vec_capacity out.old }
    ensures calls { (added : List Event) × (out.new.items ≡ out.old.items ++ added)
        × IsCountOf result.1 room added
        × RunOf (PollerStep P.arm_step P.wait_step) poller.old
        (Armed (ArmOf key on) result.0
        ∷ Awaited (record { room = room; limit = limit }) result.1 added ∷ []) poller.new
        × Becomes (P.interests poller.old) (P.interests poller.new)
        (λ told. clear_interests added
        (if is_ok result.0 then with_interest key.0 on told else told)) }
    ensures armed { (mid : P) × P.arm_step poller.old (ArmOf key on) result.0 mid
        × Arms (P.interests poller.old) (ArmOf key on) result.0 (P.interests mid)
        × (P.rest mid ≡ P.rest poller.old) × (P.wait_count mid ≡ P.wait_count poller.old) }
    ensures faults { P.fault_count poller.old ≤ P.fault_count poller.new }
    ensures sure { P.is_sure poller.new ≡ P.is_sure poller.old }
    ensures waits { P.wait_count poller.new ≡ raised (P.wait_count poller.old) }
{
    let armed = poller.arm(key, on);
    let waited = poller.wait(out, room, limit);
    (armed, waited)
}

/// Arms two keys, one after the other: both answers.
fn arm_twice<A: Arm>(
    armer: &mut A,
    first: Key,
    second: Key,
    on: Interest,
) -> (Result<(), Failed>, Result<(), Failed>)
    requires first_in_range { first.0 < 4096 }
    requires second_in_range { second.0 < 4096 }
    ensures calls { RunOf
        (λ old (move : ArmCall × Result (Unit {0}) Failed) new. A.arm_step old move.0 move.1 new)
        armer.old ((ArmOf first on, result.0) ∷ (ArmOf second on, result.1) ∷ []) armer.new }
    ensures interests { Becomes (A.interests armer.old) (A.interests armer.new)
        (λ told. let once = (if is_ok result.0 then with_interest first.0 on told else told) in
        if is_ok result.1 then with_interest second.0 on once else once) }
    ensures rest { A.rest armer.new ≡ A.rest armer.old }
    ensures faults { A.fault_count armer.old ≤ A.fault_count armer.new }
    ensures sure { A.is_sure armer.new ≡ A.is_sure armer.old }
{
    let first_answer = armer.arm(first, on);
    let second_answer = armer.arm(second, on);
    (first_answer, second_answer)
}

/// A poller that tells nothing: it fails to arm, and each wait with room gives one event.
#[derive(Drop)]
struct SilentPoller {
    faults: u64,
    waits: u64,
}

impl Faults for SilentPoller {
    ghost use Rattle.std.specs.Prelude.{false};
    ghost use Rattle.std.proofs.lemmas.Bool.{false≢true};

    ghost fault_count = { λ p. p.faults };

    ghost is_sure = { λ p. false };

    ghost all_sure = { false };

    ghost sure_below_top = { λ p sure. absurd (false≢true sure) };

    ghost each_sure = { λ p sure. sure };

    fn faults(&self) -> u64 {
        self.faults
    }
}

impl Arm for SilentPoller {
    ghost use Rattle.std.specs.Prelude.{[], ◌∷◌, None};

    ghost interests = { λ p. None };

    ghost rest = { λ p. p.waits ∷ [] };

    ghost arm_step = { λ old call answer new. Unit {0} };

    fn add(&mut self, _key: Key) -> Result<(), Failed> {
        Ok(())
    }

    fn arm(&mut self, _key: Key, _on: Interest) -> Result<(), Failed> {
        self.faults = self.faults.saturating_add(1);
        Err(Failed)
    }

    fn remove(&mut self, _key: Key) -> Result<(), Failed> {
        Ok(())
    }
}

impl EventWait for SilentPoller {
    ghost wait_count = { λ p. p.waits };

    ghost wait_step = { λ old call answer added new. Unit {0} };

    fn wait(
        &mut self,
        out: &mut Vec<Event>,
        room: u32,
        _limit: Option<u64>,
    ) -> Result<Waited, Failed> {
        self.waits = self.waits.saturating_add(1);
        if room == 0 {
            return Ok(Waited::Given(0));
        }
        out.push(READABLE).unwrap();
        Ok(Waited::Given(1))
    }

    fn waits(&self) -> u64 {
        self.waits
    }
}

impl Poller for SilentPoller {
    ghost use Rattle.std.proofs.Common.{ap};
    ghost use Rattle.std.specs.Prelude.{slice_index_or};

    ghost wait_clears = { λ old new call answer added step. tt };

    ghost waits_in_rest = { λ a b same. ap (λ rest. slice_index_or rest 0 0) same };
}

#[test]
fn a_poller_that_tells_nothing_is_called_through_the_bounds(rt: HostRuntime) {
    let mut out = Vec::with_capacity(rt.alloc(), 2).expect(&rt, MEMORY);
    let mut poller = SilentPoller {
        faults: 0,
        waits: 0,
    };
    let answers = arm_then_wait(&mut poller, Key(3), Interest::READ, &mut out, 2, Some(5));
    same(&rt, answers, (Err(Failed), Ok(Waited::Given(1))));
    same(&rt, out.as_slice(), [READABLE].as_slice());
    same(&rt, poller.faults(), 1);
    let answers = arm_twice(&mut poller, Key(3), Key(4), Interest::READ);
    same(&rt, answers, (Err(Failed), Err(Failed)));
    same(&rt, (poller.faults(), poller.waits()), (3, 1));
}

/// A clock of two moments.
fn clock_of(rt: &impl Abort, alloc: Global, first: Moment, last: Moment) -> MemClock
    requires { first ≤ last }
{
    MemClock::new(vec![in alloc; first, last].expect(rt, MEMORY))
}

/// Two looks at a clock: the later answers no earlier moment, and both lie between its bounds.
fn look_twice<C: Clock>(clock: &mut C) -> (Moment, Moment)
    ensures order { result.0 ≤ result.1 }
    ensures within { IsWithin (C.bounds clock.old) result.0 × IsWithin (C.bounds clock.old) result.1 }
{
    let first = clock.now();
    let second = clock.now();
    (first, second)
}

fn twin_of<C: Clock>(rt: &impl Abort, clock: &C) -> C {
    clock.twin().expect(rt, MEMORY)
}

#[test]
fn a_clock_never_goes_back_and_its_twin_starts_anew(rt: HostRuntime) {
    let (five, eight) = (moment(&rt, 5), moment(&rt, 8));
    let mut clock = clock_of(&rt, rt.alloc(), five, eight);
    same(&rt, look_twice(&mut clock), (five, eight));
    same(&rt, look_twice(&mut twin_of(&rt, &clock)), (five, eight));
    same(&rt, look_twice(&mut clock), (eight, eight));
}
