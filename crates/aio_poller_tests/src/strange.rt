//! A raw poller that gives events of any key and any directions, tells no lists, and counts what it
//! is set to.

ghost use Rattle.std.specs.Prelude.{false};

use crate::adapters::Act::{ArmFor, Count, Wait};
use crate::adapters::Came::{Counts, Done, Failed as FailedCall, GaveMany, Interrupted};
use crate::adapters::{Act, Came, armed, play};
use crate::asserts::{MEMORY, same};
use aio_base::{Event, EventWait, Failed, Faults, Interest, Key, Waited};
use aio_devices::{ScriptedWait, WaitAnswer};
use aio_modes::{Mode, OneShot, RawPoller};
use std::alloc::Global;
use std::process::Abort;

/// A raw poller whose waits come to answers that it is made with, and whose other calls do nothing.
#[derive(Drop)]
struct Strange {
    mode: Mode,
    wait: ScriptedWait,
    sets: u64,
}

impl Faults for Strange {
    ghost use Rattle.std.proofs.lemmas.Bool.{false≢true};

    ghost fault_count = { λ s. s.wait.faults };

    ghost is_sure = { λ s. false };

    ghost all_sure = { false };

    ghost sure_below_top = { λ s sure. absurd (false≢true sure) };

    ghost each_sure = { λ s sure. sure };

    fn faults(&self) -> u64 {
        self.wait.faults()
    }
}

impl RawPoller for Strange {
    ghost use Rattle.std.specs.Prelude.{None};

    ghost mode_of = { λ s. s.mode };

    ghost told = { λ s. None };

    ghost raw_step = { λ old move new. Unit {0} };

    fn mode(&self) -> Mode {
        self.mode
    }

    fn add(&mut self, _key: Key) -> Result<(), Failed> {
        Ok(())
    }

    fn set(&mut self, _key: Key, _on: Interest) -> Result<(), Failed> {
        self.sets = self.sets.saturating_add(1);
        Ok(())
    }

    fn remove(&mut self, _key: Key) -> Result<(), Failed> {
        Ok(())
    }

    fn wait(
        &mut self,
        out: &mut Vec<Event>,
        room: u32,
        limit: Option<u64>,
    ) -> Result<Waited, Failed> {
        self.wait.wait(out, room, limit)
    }
}

/// An adapter over one in this mode that gives these events in its first wait, is interrupted in
/// its second and fails in its third, and room for eight events.
fn over_strange(
    rt: &impl Abort,
    alloc: Global,
    mode: Mode,
    events: &[Event],
) -> (OneShot<Strange>, Vec<Event>) {
    let mut answers = Vec::new(alloc);
    let given = Vec::from_slice(alloc, events).expect(rt, MEMORY);
    answers.push(WaitAnswer::Gives(given)).expect(rt, MEMORY);
    answers.push(WaitAnswer::Interrupted).expect(rt, MEMORY);
    answers.push(WaitAnswer::Fails).expect(rt, MEMORY);
    let wait = ScriptedWait::new(answers);
    let raw = Strange {
        mode,
        wait,
        sets: 0,
    };
    let out = Vec::with_capacity(alloc, 8).expect(rt, MEMORY);
    (OneShot::new(alloc, raw).ok().expect(rt, MEMORY), out)
}

/// Of a key that is not armed, of one that no source has, of one twice, of a direction that is not
/// armed, of one beside one that is not, and of none.
const EVENTS: [Event; 7] = [
    Event {
        key: Key(9),
        on: Interest::READ,
    },
    Event {
        key: Key(5000),
        on: Interest::ALL,
    },
    Event {
        key: Key(0),
        on: Interest::ALL,
    },
    Event {
        key: Key(0),
        on: Interest::READ,
    },
    Event {
        key: Key(1),
        on: Interest::READ,
    },
    Event {
        key: Key(2),
        on: Interest::READ_WRITE,
    },
    Event {
        key: Key(3),
        on: Interest::NONE,
    },
];

/// What of them is armed.
const CUT: [Event; 3] = [
    Event {
        key: Key(0),
        on: Interest::READ,
    },
    Event {
        key: Key(0),
        on: Interest::READ,
    },
    Event {
        key: Key(2),
        on: Interest::WRITE,
    },
];

const GIVEN: [(Act, Came); 5] = [
    (ArmFor(0, Interest::READ), Done),
    (ArmFor(1, Interest::WRITE), Done),
    (ArmFor(2, Interest::WRITE), Done),
    (ArmFor(3, Interest::ALL), Done),
    (Wait(8), GaveMany(3)),
];

const NOT_GIVEN: [(Act, Came); 3] = [
    (Wait(8), Interrupted),
    (Wait(8), FailedCall),
    (Count, Counts(1, 3)),
];

/// What is armed for the first four keys after the first wait.
const LEFT: [(u32, Interest); 4] = [
    (0, Interest::NONE),
    (1, Interest::WRITE),
    (2, Interest::NONE),
    (3, Interest::ALL),
];

/// Asserts what is armed, and how often the raw poller was set.
fn is_left(rt: &impl Abort, poller: &OneShot<Strange>, sets: u64) {
    for (key, on) in LEFT {
        same(rt, armed(poller, key), on);
    }
    same(rt, poller.raw().sets, sets);
}

/// Asserts what an adapter in this mode makes of these events, of an interrupted wait and of one
/// that fails, where it sets the raw poller so often in all.
fn cuts(rt: &impl Abort, alloc: Global, mode: Mode, sets: u64) {
    let (mut poller, mut out) = over_strange(rt, alloc, mode, &EVENTS);
    play(rt, &mut poller, &mut out, &GIVEN);
    same(rt, out.as_slice() == CUT.as_slice(), true);
    is_left(rt, &poller, sets);
    play(rt, &mut poller, &mut out, &NOT_GIVEN);
    is_left(rt, &poller, sets);
}

#[test]
fn nothing_is_given_that_is_not_armed(rt: HostRuntime) {
    cuts(&rt, rt.alloc(), Mode::Level, 10);
    cuts(&rt, rt.alloc(), Mode::Edge, 10);
    cuts(&rt, rt.alloc(), Mode::EdgeOneshot, 4);
}
