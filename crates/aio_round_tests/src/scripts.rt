//! What no clause says of the poller and the clock in memory: that their calls succeed with ample memory, through
//! the bound `Poller` too. So do those of a table of interests.

use crate::asserts::{MEMORY, same};
use crate::poller::Act::{
    Add, ArmFor, Armed, Count, FailNext, Give, InterruptNext, Left, Remove, Wait,
};
use crate::poller::Came::{Counts, Done, Failed, Given, Interrupted, Is, Number};
use crate::poller::{Act, Came, Polled};
use aio_base::{Event, Interest, Key, Moment, Which};
use aio_script::{Back, InterestTable, ScriptClock};
use std::alloc::Global;
use std::process::Abort;

const READABLE: Event = Event {
    key: Key(3),
    on: Interest::READ,
};

const WRITABLE: Event = Event {
    key: Key(5),
    on: Interest::WRITE,
};

const EMPTY: Event = Event {
    key: Key(3),
    on: Interest::NONE,
};

const URGENT: Event = Event {
    key: Key(3),
    on: Interest::PRIORITY,
};

/// A key that no test adds.
const STRANGER: Event = Event {
    key: Key(9),
    on: Interest::READ,
};

/// A key above every interest.
const OUTSIDE: Event = Event {
    key: Key(4096),
    on: Interest::WRITE,
};

/// Asserts that what these acts with a new poller come to is what stands beside each, which events it gives in
/// all, and which it still has noted then.
fn plays(rt: &impl Abort, alloc: Global, rows: &[(Act, Came)], given: &[Event], noted: &[Event]) {
    let mut polled = Polled::new(rt, alloc);
    polled.plays(rt, rows);
    same(rt, polled.out.as_slice(), given);
    same(rt, polled.poller.noted(), noted);
}

const IN_ORDER: [(Act, Came); 9] = [
    (Add(3), Done),
    (ArmFor(3, Interest::READ), Done),
    (ArmFor(7, Interest::READ), Done),
    (Give(READABLE), Done),
    (Give(WRITABLE), Done),
    (Give(EMPTY), Done),
    (Wait(2, None), Given(2)),
    (Armed(3), Is(Interest::NONE)),
    (Armed(7), Is(Interest::READ)),
];

#[test]
fn events_come_in_order_and_clear_their_keys(rt: HostRuntime) {
    plays(&rt, rt.alloc(), &IN_ORDER, &[READABLE, WRITABLE], &[EMPTY]);
}

const OF_ALL_DIRECTIONS: [(Act, Came); 8] = [
    (Add(3), Done),
    (ArmFor(3, Interest::PRIORITY), Done),
    (Armed(3), Is(Interest::PRIORITY)),
    (ArmFor(3, Interest::ALL), Done),
    (Armed(3), Is(Interest::ALL)),
    (Give(URGENT), Done),
    (Wait(1, None), Given(1)),
    (Armed(3), Is(Interest::NONE)),
];

#[test]
fn an_event_of_urgent_readiness_clears_all_directions_of_its_key(rt: HostRuntime) {
    plays(&rt, rt.alloc(), &OF_ALL_DIRECTIONS, &[URGENT], &[]);
}

const STRANGERS: [(Act, Came); 6] = [
    (ArmFor(7, Interest::READ), Done),
    (Give(STRANGER), Done),
    (Give(OUTSIDE), Done),
    (Wait(4, Some(0)), Given(2)),
    (Armed(7), Is(Interest::READ)),
    (Armed(4096), Is(Interest::NONE)),
];

#[test]
fn strangers_are_given_too(rt: HostRuntime) {
    plays(&rt, rt.alloc(), &STRANGERS, &[STRANGER, OUTSIDE], &[]);
}

#[test]
fn events_are_noted_while_memory_is_left(rt: HostRuntime) {
    let mut polled = Polled::new(&rt, rt.alloc());
    same(&rt, polled.give_times(READABLE, 5_000), 5_000);
    polled.plays(&rt, &[(Left, Number(5_000))]);
}

const FAILS_ONCE: [(Act, Came); 22] = [
    (FailNext(Which::Add), Done),
    (FailNext(Which::Add), Done),
    (FailNext(Which::Arm), Done),
    (FailNext(Which::Arm), Done),
    (FailNext(Which::Remove), Done),
    (FailNext(Which::Remove), Done),
    (FailNext(Which::Wait), Done),
    (FailNext(Which::Wait), Done),
    (Give(READABLE), Done),
    (Add(3), Failed),
    (Add(3), Done),
    (ArmFor(3, Interest::READ), Failed),
    (Armed(3), Is(Interest::NONE)),
    (ArmFor(3, Interest::READ), Done),
    (Remove(3), Failed),
    (Armed(3), Is(Interest::READ)),
    (Remove(3), Done),
    (Wait(1, None), Failed),
    (Left, Number(1)),
    (Wait(1, None), Given(1)),
    (Left, Number(0)),
    (Count, Counts(4, 2)),
];

#[test]
fn told_twice_fails_once(rt: HostRuntime) {
    plays(&rt, rt.alloc(), &FAILS_ONCE, &[READABLE], &[]);
}

const INTERRUPTS_ONCE: [(Act, Came); 9] = [
    (Give(READABLE), Done),
    (InterruptNext, Done),
    (InterruptNext, Done),
    (FailNext(Which::Wait), Done),
    (Wait(1, None), Failed),
    (Wait(1, None), Interrupted),
    (Wait(1, None), Given(1)),
    (Wait(1, None), Given(0)),
    (Count, Counts(1, 4)),
];

#[test]
fn an_interrupt_waits_for_a_wait_that_does_not_fail(rt: HostRuntime) {
    plays(&rt, rt.alloc(), &INTERRUPTS_ONCE, &[READABLE], &[]);
}

/// Every kind of call of a poller once.
const EVERY_CALL: [(Act, Came); 6] = [
    (Give(READABLE), Done),
    (Add(3), Done),
    (ArmFor(3, Interest::READ), Done),
    (Wait(1, None), Given(1)),
    (Remove(3), Done),
    (Count, Counts(0, 1)),
];

#[test]
fn calls_through_the_bound(rt: HostRuntime) {
    plays(&rt, rt.alloc(), &EVERY_CALL, &[READABLE], &[]);
}

/// Sets two keys of a table, and has it forget the keys of an event of one of them and of one past the last. What
/// it has then of both, and of the last.
fn interests_after_events(table: &mut InterestTable) -> [Interest; 3] {
    table.set(Key(3), Interest::READ);
    table.set(Key(5), Interest::WRITE);
    table.disarm(&[READABLE, OUTSIDE]);
    [table.get(Key(3)), table.get(Key(5)), table.get(OUTSIDE.key)]
}

#[test]
fn a_table_of_interests_forgets_the_keys_of_events(rt: HostRuntime) {
    let mut table = InterestTable::new(rt.alloc()).expect(&rt, MEMORY);
    let found = interests_after_events(&mut table);
    same(
        &rt,
        found,
        [Interest::NONE, Interest::WRITE, Interest::NONE],
    );
}

#[test]
fn a_clock_goes_on_or_stays_and_never_back(rt: HostRuntime) {
    let four = Moment::new(4).expect(&rt, "a moment");
    let five = Moment::new(5).expect(&rt, "a moment");
    let mut clock = ScriptClock::new();
    same(&rt, clock.now().get(), 0);
    same(&rt, clock.set(five), Ok(()));
    same(&rt, clock.set(five), Ok(()));
    same(&rt, clock.set(four), Err(Back(five)));
    same(&rt, clock.now(), five);
}
