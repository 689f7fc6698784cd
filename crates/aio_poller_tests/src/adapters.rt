//! An adapter over the raw poller in memory, as the rows of a table use it. The calls of its traits
//! are made through the bounds.

use crate::asserts::{MEMORY, same};
use aio_base::{Event, Failed, Interest, Key, Poller, Waited};
use aio_modes::{Mode, OneShot, RawPoller, RawScript, RawWhich};
use std::alloc::Global;
use std::process::Abort;

/// The three modes.
pub(crate) const MODES: [Mode; 3] = [Mode::Level, Mode::Edge, Mode::EdgeOneshot];

/// What is done with an adapter.
#[derive(Clone, Copy)]
pub(crate) enum Act {
    /// Adds a source.
    Add(u32),
    /// Arms it for these directions.
    ArmFor(u32, Interest),
    /// Takes it out.
    Remove(u32),
    /// Has these directions of it become ready.
    Ready(u32, Interest),
    /// Has them become idle.
    Idle(u32, Interest),
    /// Has the next raw call of this kind fail.
    FailNext(RawWhich),
    /// Waits for at most so many events.
    Wait(u32),
    /// Looks at what is armed for a key.
    Armed(u32),
    /// Counts the faults and the waits.
    Count,
}

/// What comes of it.
#[derive(Clone, Copy)]
pub(crate) enum Came {
    /// Nothing failed.
    Done,
    /// The call failed.
    Failed,
    /// No event was given.
    GaveNone,
    /// One event was given, of this key and these directions.
    Gave(u32, Interest),
    /// So many events were given, more than one.
    GaveMany(u32),
    /// The wait was interrupted.
    Interrupted,
    /// What is armed.
    Is(Interest),
    /// So many faults and waits.
    Counts(u64, u64),
    /// Something else.
    Other,
}

/// What came, as it is compared: which it is, its numbers, and its directions.
fn told(came: Came) -> (&'static str, [u64; 2], Option<Interest>) {
    match came {
        Came::Done => ("done", [0; 2], None),
        Came::Failed => ("failed", [0; 2], None),
        Came::GaveNone => ("gave none", [0; 2], None),
        Came::Gave(key, on) => ("gave", [key as u64, 1], Some(on)),
        Came::GaveMany(count) => ("gave many", [count as u64, 0], None),
        Came::Interrupted => ("interrupted", [0; 2], None),
        Came::Is(on) => ("is", [0; 2], Some(on)),
        Came::Counts(faults, waits) => ("counts", [faults, waits], None),
        Came::Other => ("other", [0; 2], None),
    }
}

/// What an arming call came to.
fn done(answer: Result<(), Failed>) -> Came {
    match answer {
        Ok(()) => Came::Done,
        Err(Failed) => Came::Failed,
    }
}

/// What so many events come to, where these were added.
fn gave(count: u32, events: &[Event]) -> Came {
    match events {
        [] if count == 0 => Came::GaveNone,
        [event] if count == 1 => Came::Gave(event.key.0, event.on),
        _ if events.len() == count as usize => Came::GaveMany(count),
        _ => Came::Other,
    }
}

/// Waits for at most so many events in an empty list with room for them.
fn wait<P: Poller>(poller: &mut P, out: &mut Vec<Event>, room: u32) -> Came {
    out.clear();
    if room as usize > out.capacity() {
        return Came::Other;
    }
    match poller.wait(out, room, Some(0)) {
        Ok(Waited::Given(count)) => gave(count, out.as_slice()),
        Ok(Waited::Interrupted) => Came::Interrupted,
        Err(Failed) => Came::Failed,
    }
}

/// Calls any poller.
fn call<P: Poller>(poller: &mut P, out: &mut Vec<Event>, act: Act) -> Came {
    match act {
        Act::Add(key) if key < 4096 => done(poller.add(Key(key))),
        Act::ArmFor(key, on) if key < 4096 => done(poller.arm(Key(key), on)),
        Act::Remove(key) if key < 4096 => done(poller.remove(Key(key))),
        Act::Wait(room) => wait(poller, out, room),
        Act::Count => Came::Counts(poller.faults(), poller.waits()),
        _ => Came::Other,
    }
}

/// Asserts that what these acts come to is what stands beside each.
pub(crate) fn play<P: Poller>(
    rt: &impl Abort,
    poller: &mut P,
    out: &mut Vec<Event>,
    rows: &[(Act, Came)],
) {
    for (act, came) in rows {
        same(rt, told(call(poller, out, *act)), told(*came));
    }
}

/// What is armed for a key, over any raw poller.
pub(crate) fn armed<R: RawPoller>(poller: &OneShot<R>, key: u32) -> Interest {
    poller.armed(Key(key))
}

/// The mode of the raw poller behind the adapter.
fn mode_of<R: RawPoller>(poller: &OneShot<R>) -> Mode {
    poller.raw().mode()
}

/// An adapter, and the events of its last wait.
#[derive(Drop)]
pub(crate) struct Adapted {
    poller: OneShot<RawScript>,
    out: Vec<Event>,
}

/// An adapter over a new raw poller in memory in this mode.
pub(crate) fn adapter(rt: &impl Abort, alloc: Global, mode: Mode) -> OneShot<RawScript> {
    let raw = RawScript::new(alloc, mode).ok().expect(rt, MEMORY);
    OneShot::new(alloc, raw).ok().expect(rt, MEMORY)
}

/// Takes what may be sent to another thread, and lets it go.
pub(crate) fn let_go<T: Send + Drop>(_sent: T) {}

impl Adapted {
    /// A new adapter in this mode, and room for so many events.
    pub(crate) fn new(rt: &impl Abort, alloc: Global, mode: Mode, room: u32) -> Adapted {
        let out = Vec::with_capacity(alloc, room as usize).expect(rt, MEMORY);
        let poller = adapter(rt, alloc, mode);
        same(rt, mode_of(&poller), mode);
        Adapted { poller, out }
    }

    /// Does this.
    fn act(&mut self, act: Act) -> Came {
        match act {
            Act::Ready(key, on) if key < 4096 => {
                self.poller.become_ready(Key(key), on);
                Came::Done
            }
            Act::Idle(key, on) if key < 4096 => {
                self.poller.become_idle(Key(key), on);
                Came::Done
            }
            Act::FailNext(which) => {
                self.poller.fail_next(which);
                Came::Done
            }
            Act::Armed(key) => Came::Is(armed(&self.poller, key)),
            act => call(&mut self.poller, &mut self.out, act),
        }
    }

    /// Asserts that what these acts come to is what stands beside each.
    pub(crate) fn plays(&mut self, rt: &impl Abort, rows: &[(Act, Came)]) {
        for (act, came) in rows {
            same(rt, told(self.act(*act)), told(*came));
        }
    }
}
