//! Waits that give events by a script.

use crate::asserts::MEMORY;
use aio_base::{Event, Interest, Key};
use aio_devices::{ScriptedWait, WaitAnswer};
use std::alloc::Global;
use std::process::Abort;

/// Adds an answer of a wait: events of so many keys, from the first one on.
pub(crate) fn give(
    rt: &impl Abort,
    alloc: Global,
    answers: &mut Vec<WaitAnswer>,
    (first, count): (u32, u32),
    on: Interest,
) {
    let mut events = Vec::new(alloc);
    for number in 0..count {
        let key = Key(first.saturating_add(number));
        events.push(Event { key, on }).expect(rt, MEMORY);
    }
    answers.push(WaitAnswer::Gives(events)).expect(rt, MEMORY);
}

/// A wait that gives an event of each of these keys, one in each round.
pub(crate) fn one_by_one(
    rt: &impl Abort,
    alloc: Global,
    keys: &[u32],
    on: Interest,
) -> ScriptedWait {
    let mut answers = Vec::new(alloc);
    for key in keys {
        give(rt, alloc, &mut answers, (*key, 1), on);
    }
    ScriptedWait::new(answers)
}
