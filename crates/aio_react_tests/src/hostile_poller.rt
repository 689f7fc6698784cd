//! A core over a poller that gives events which nobody asked for, and of which each call in turn
//! fails: what a call answers is what stands in the table of its kind, and the core goes on.

ghost use Rattle.std.specs.Prelude.{◌≡◌, false, IsErr};
ghost use Rattle.aio_base.specs.Devices.{HasCause};

use crate::asserts::{MEMORY, same_in};
use crate::cores::Act::{Add, Del, Poll, React, Woken};
use crate::cores::Came::{Done, Key as Added, Pending, Reacted, Refused, Unarmed, Woke};
use crate::cores::{Act, Came, act_at, act_on, told, woken};
use aio_base::{
    Arm, ArmFault, CountFault, Event, EventWait, Failed, Faults, Interest, Key, Poller, Waited,
};
use aio_react::{Core, CoreRefusal, RoundFault};
use std::alloc::Global;
use std::process::Abort;

/// What each wait gives: events of keys that no source can have, of no direction, of one for which
/// nobody waits, and the same event twice.
const GIVEN: [Event; 6] = [
    Event {
        key: Key(4096),
        on: Interest::READ,
    },
    Event {
        key: Key(u32::MAX),
        on: Interest::READ_WRITE,
    },
    Event {
        key: Key(0),
        on: Interest::NONE,
    },
    Event {
        key: Key(0),
        on: Interest::WRITE,
    },
    Event {
        key: Key(0),
        on: Interest::READ,
    },
    Event {
        key: Key(0),
        on: Interest::READ,
    },
];

/// A poller whose calls are numbered from 1, over all kinds. The one of a number fails, and each
/// other wait gives the same events, whatever is armed.
#[derive(Drop)]
struct Hostile {
    fails: u64,
    calls: u64,
    faults: u64,
    waits: u64,
}

impl Hostile {
    /// A poller of which the call of this number fails.
    fn new(fails: u64) -> Hostile {
        Hostile {
            fails,
            calls: 0,
            faults: 0,
            waits: 0,
        }
    }

    /// One more call.
    fn next(&mut self) -> Result<(), Failed>
        ensures cause { HasCause self.old.faults self.new.faults false (IsErr result) }
        ensures waits { self.new.waits ≡ self.old.waits }
    {
        self.calls = self.calls.saturating_add(1);
        if self.calls == self.fails {
            self.faults = self.faults.saturating_add(1);
            return Err(Failed);
        }
        Ok(())
    }
}

impl Faults for Hostile {
    ghost use Rattle.std.specs.Prelude.{false};
    ghost use Rattle.std.proofs.lemmas.Bool.{false≢true};

    ghost fault_count = { λ p. p.faults };

    ghost is_sure = { λ p. false };

    ghost all_sure = { false };

    ghost sure_below_top = { λ p sure. absurd (false≢true sure) };

    ghost each_sure = { λ p sure. sure };

    fn faults(&self) -> u64 {
        self.faults
    }
}

impl Arm for Hostile {
    ghost use Rattle.std.specs.Prelude.{[], ◌∷◌, None};

    ghost interests = { λ p. None };

    ghost rest = { λ p. p.waits ∷ [] };

    ghost arm_step = { λ old call answer new. Unit {0} };

    fn add(&mut self, _key: Key) -> Result<(), Failed> {
        self.next()
    }

    fn arm(&mut self, _key: Key, _on: Interest) -> Result<(), Failed> {
        self.next()
    }

    fn remove(&mut self, _key: Key) -> Result<(), Failed> {
        self.next()
    }
}

impl EventWait for Hostile {
    ghost wait_count = { λ p. p.waits };

    ghost wait_step = { λ old call answer added new. Unit {0} };

    fn wait(
        &mut self,
        out: &mut Vec<Event>,
        room: u32,
        _limit: Option<u64>,
    ) -> Result<Waited, Failed> {
        self.waits = self.waits.saturating_add(1);
        self.next()?;
        let count = GIVEN.len().min(room as usize);
        out.extend_from_slice(&GIVEN[..count]).unwrap();
        Ok(Waited::Given(count as u32))
    }

    fn waits(&self) -> u64 {
        self.waits
    }
}

impl Poller for Hostile {
    ghost use Rattle.std.proofs.Common.{ap};
    ghost use Rattle.std.specs.Prelude.{slice_index_or};

    ghost wait_clears = { λ old new call answer added step. tt };

    ghost waits_in_rest = { λ a b same. ap (λ rest. slice_index_or rest 0 0) same };
}

/// What is done while a call fails, and what comes of it where none does: a source comes, is waited
/// for in two rounds and goes. Each round handles the six events, of which the first two of the
/// source make an arm for the reading that is still waited for.
const USUAL: [(Act, Came); 10] = [
    (Add, Added(0)),
    (Poll(0, 1), Pending(None)),
    (React(0, Some(0)), Reacted(1, 6, None)),
    (Woken, Woke(1, Some(1))),
    (Poll(0, 2), Done),
    (Poll(0, 2), Pending(None)),
    (React(0, Some(0)), Reacted(2, 6, None)),
    (Woken, Woke(1, Some(2))),
    (Poll(0, 2), Done),
    (Del(0), Done),
];

/// The first fault of the poller, in a wait, an add or a removal.
const FIRST: CountFault = CountFault {
    before: 0,
    after: 1,
};

/// The same in an arm.
const UNARMED: ArmFault = ArmFault {
    key: Key(0),
    before: 0,
    after: 1,
};

/// The refusals of a key that no source has.
const NONE_LIVES: Came = Refused(CoreRefusal::NoSource);

/// The number of the poller's call that fails, and the acts that come to something else then.
const ROWS: &[(u64, &[(usize, Came)])] = &[
    (0, &[]),
    // The add.
    (
        1,
        &[
            (0, Refused(CoreRefusal::AddFault(FIRST))),
            (1, NONE_LIVES),
            (3, Woke(0, None)),
            (4, NONE_LIVES),
            (5, NONE_LIVES),
            (7, Woke(0, None)),
            (8, NONE_LIVES),
            (9, NONE_LIVES),
        ],
    ),
    // The arm of the first poll.
    (2, &[(1, Unarmed(UNARMED))]),
    // The first wait.
    (
        3,
        &[
            (2, Reacted(1, 0, Some(RoundFault::Wait(FIRST)))),
            (3, Woke(0, None)),
            (4, Pending(Some(1))),
        ],
    ),
    // The arms of the first round.
    (4, &[(2, Reacted(1, 6, Some(RoundFault::Arm(UNARMED))))]),
    (5, &[(2, Reacted(1, 6, Some(RoundFault::Arm(UNARMED))))]),
    // The arm of the poll that waits again.
    (6, &[(5, Unarmed(UNARMED))]),
    // The second wait.
    (
        7,
        &[
            (6, Reacted(2, 0, Some(RoundFault::Wait(FIRST)))),
            (7, Woke(0, None)),
            (8, Pending(None)),
        ],
    ),
    // The arms of the second round.
    (8, &[(6, Reacted(2, 6, Some(RoundFault::Arm(UNARMED))))]),
    (9, &[(6, Reacted(2, 6, Some(RoundFault::Arm(UNARMED))))]),
    // The removal, after which the source is gone all the same.
    (10, &[(9, Refused(CoreRefusal::RemoveFault(FIRST)))]),
];

/// What is done then, and what comes of it: a new source is waited for, its event wakes its task,
/// and it is ready.
const AFTERWARDS: [(Act, Came); 5] = [
    (Add, Added(0)),
    (Poll(0, 7), Pending(None)),
    (React(0, Some(0)), Reacted(3, 6, None)),
    (Woken, Woke(1, Some(7))),
    (Poll(0, 7), Done),
];

/// Does this.
fn comes_of(core: &mut Core<Hostile>, act: Act) -> Came {
    match act {
        React(now, _) => act_at(core, now, act),
        Woken => woken(core),
        act => act_on(core, act),
    }
}

/// What the act at a place comes to, of those that come to something else in a row.
fn wanted(place: usize, usual: Came, others: &[(usize, Came)]) -> Came {
    match others.iter().find(|other| other.0 == place) {
        Some((_, came)) => *came,
        None => usual,
    }
}

/// A core over a poller of which the call of this number fails.
fn core_over(rt: &impl Abort, alloc: Global, fails: u64) -> Core<Hostile> {
    Core::new(alloc, Hostile::new(fails))
        .ok()
        .expect(rt, MEMORY)
}

/// Asserts what the acts of a row come to, and those afterwards.
fn plays(rt: &impl Abort, core: &mut Core<Hostile>, fails: u64, others: &[(usize, Came)]) {
    for (place, (act, usual)) in USUAL.iter().enumerate() {
        let came = comes_of(core, *act);
        let wanted = wanted(place, *usual, others);
        same_in(
            rt,
            "while a call fails",
            (fails, told(came)),
            (fails, told(wanted)),
        );
    }
    for (act, came) in AFTERWARDS {
        same_in(
            rt,
            "afterwards",
            (fails, told(comes_of(core, act))),
            (fails, told(came)),
        );
    }
}

#[test]
fn a_core_goes_on_whichever_call_of_a_hostile_poller_fails(rt: HostRuntime) {
    for (fails, others) in ROWS {
        let mut core = core_over(&rt, rt.alloc(), *fails);
        plays(&rt, &mut core, *fails, others);
    }
}
