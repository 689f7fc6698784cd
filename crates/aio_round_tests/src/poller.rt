//! The poller in memory, as the rows of a table use it. The calls of its traits are made through the bounds.

use crate::asserts::{MEMORY, same};
use aio_base::{Event, Failed, Interest, Key, Poller, Waited, Which};
use aio_script::ScriptPoller;
use std::alloc::Global;
use std::process::Abort;

/// What is done with a poller.
#[derive(Clone, Copy)]
pub(crate) enum Act {
    /// Adds a source.
    Add(u32),
    /// Arms it for these directions.
    ArmFor(u32, Interest),
    /// Takes it out.
    Remove(u32),
    /// Notes an event.
    Give(Event),
    /// Has the next call of this kind fail.
    FailNext(Which),
    /// Has the next wait that does not fail be interrupted.
    InterruptNext,
    /// Waits for at most so many events, with this limit.
    Wait(u32, Option<u64>),
    /// Looks at what is armed for a key.
    Armed(u32),
    /// Counts the events that are noted.
    Left,
    /// Counts the faults and the waits.
    Count,
}

/// What comes of it.
#[derive(Clone, Copy)]
pub(crate) enum Came {
    /// Nothing failed.
    Done,
    /// The call failed.
    Failed,
    /// So many events were given.
    Given(u32),
    /// The wait was interrupted.
    Interrupted,
    /// What is armed.
    Is(Interest),
    /// So many.
    Number(usize),
    /// So many faults and waits.
    Counts(u64, u64),
    /// Something else.
    Other,
}

/// What came, as it is compared: which it is, its numbers, and what is armed.
fn told(came: Came) -> (&'static str, [u64; 2], Option<Interest>) {
    match came {
        Came::Done => ("done", [0; 2], None),
        Came::Failed => ("failed", [0; 2], None),
        Came::Given(count) => ("given", [count as u64, 0], None),
        Came::Interrupted => ("interrupted", [0; 2], None),
        Came::Is(on) => ("is", [0; 2], Some(on)),
        Came::Number(number) => ("number", [number as u64, 0], None),
        Came::Counts(faults, waits) => ("counts", [faults, waits], None),
        Came::Other => ("other", [0; 2], None),
    }
}

/// A poller, and the events that it gave.
#[derive(Drop)]
pub(crate) struct Polled {
    pub(crate) poller: ScriptPoller,
    pub(crate) out: Vec<Event>,
}

/// What an arming call came to.
fn done(answer: Result<(), Failed>) -> Came {
    match answer {
        Ok(()) => Came::Done,
        Err(Failed) => Came::Failed,
    }
}

/// Waits, where there is room for so many events.
fn wait<P: Poller>(poller: &mut P, out: &mut Vec<Event>, room: u32, limit: Option<u64>) -> Came {
    if room as usize > out.capacity() - out.len() {
        return Came::Other;
    }
    match poller.wait(out, room, limit) {
        Ok(Waited::Given(count)) => Came::Given(count),
        Ok(Waited::Interrupted) => Came::Interrupted,
        Err(Failed) => Came::Failed,
    }
}

/// Calls any poller.
fn call<P: Poller>(poller: &mut P, out: &mut Vec<Event>, act: Act) -> Came {
    match act {
        Act::Add(key) if key < 4096 => done(poller.add(Key(key))),
        Act::ArmFor(key, on) if key < 4096 => done(poller.arm(Key(key), on)),
        Act::Remove(key) if key < 4096 => done(poller.remove(Key(key))),
        Act::Wait(room, limit) => wait(poller, out, room, limit),
        Act::Count => Came::Counts(poller.faults(), poller.waits()),
        _ => Came::Other,
    }
}

impl Polled {
    /// A new poller, and room for eight events.
    pub(crate) fn new(rt: &impl Abort, alloc: Global) -> Polled {
        let out = Vec::with_capacity(alloc, 8).expect(rt, MEMORY);
        let poller = ScriptPoller::new(alloc).expect(rt, MEMORY);
        Polled { poller, out }
    }

    /// Notes an event.
    fn give(&mut self, event: Event) -> Came {
        match self.poller.give(event) {
            Ok(()) => Came::Done,
            Err(_) => Came::Other,
        }
    }

    /// Notes an event so many times. How often there was memory.
    pub(crate) fn give_times(&mut self, event: Event, times: u32) -> u32 {
        let mut noted: u32 = 0;
        for _ in 0..times {
            if let Came::Done = self.give(event) {
                noted = noted.saturating_add(1);
            }
        }
        noted
    }

    /// Does this.
    fn act(&mut self, act: Act) -> Came {
        match act {
            Act::Give(event) => self.give(event),
            Act::FailNext(which) => {
                self.poller.fail_next(which);
                Came::Done
            }
            Act::InterruptNext => {
                self.poller.interrupt_next();
                Came::Done
            }
            Act::Armed(key) => Came::Is(self.poller.armed(Key(key))),
            Act::Left => Came::Number(self.poller.noted().len()),
            act => call(&mut self.poller, &mut self.out, act),
        }
    }

    /// Asserts that what these acts come to is what stands beside each.
    pub(crate) fn plays(&mut self, rt: &impl Abort, rows: &[(Act, Came)]) {
        for (act, came) in rows {
            same(rt, told(self.act(*act)), told(*came));
        }
    }
}
