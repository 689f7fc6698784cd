//! What the waits of the adapter give over the raw poller in memory, in each of the three modes.

use crate::adapters::Act::{Add, ArmFor, Armed, Count, FailNext, Idle, Ready, Remove, Wait};
use crate::adapters::Came::{Counts, Done, Failed, Gave, GaveMany, GaveNone, Is};
use crate::adapters::{Act, Adapted, Came, MODES, adapter, let_go};
use crate::asserts::same;
use aio_base::Interest;
use aio_modes::{Mode, RawScript, RawWhich};
use std::alloc::Global;
use std::process::Abort;

const NONE: Interest = Interest::NONE;

const READ: Interest = Interest::READ;

const WRITE: Interest = Interest::WRITE;

const BOTH: Interest = Interest::READ_WRITE;

const URGENT: Interest = Interest::PRIORITY;

/// Plays these rows in each mode.
fn each_mode_plays(rt: &impl Abort, alloc: Global, rows: &[(Act, Came)]) {
    for mode in MODES {
        Adapted::new(rt, alloc, mode, 8).plays(rt, rows);
    }
}

const ONCE: [(Act, Came); 10] = [
    (Add(0), Done),
    (ArmFor(0, READ), Done),
    (Ready(0, BOTH), Done),
    (Wait(8), Gave(0, READ)),
    (Wait(8), GaveNone),
    (ArmFor(0, READ), Done),
    (Wait(8), Gave(0, READ)),
    (Idle(0, BOTH), Done),
    (ArmFor(0, READ), Done),
    (Wait(8), GaveNone),
];

#[test]
fn what_is_armed_is_given_once(rt: HostRuntime) {
    each_mode_plays(&rt, rt.alloc(), &ONCE);
}

const PASSED_OVER: [(Act, Came); 9] = [
    (Add(0), Done),
    (ArmFor(0, READ), Done),
    (Ready(0, READ), Done),
    (FailNext(RawWhich::Set), Done),
    (Wait(8), Gave(0, READ)),
    (Count, Counts(1, 1)),
    (Wait(8), GaveNone),
    (ArmFor(0, WRITE), Done),
    (Wait(8), GaveNone),
];

#[test]
fn a_setting_that_failed_after_a_wait_is_passed_over(rt: HostRuntime) {
    Adapted::new(&rt, rt.alloc(), Mode::Level, 8).plays(&rt, &PASSED_OVER);
}

const ROOM_FOR_ONE: [(Act, Came); 8] = [
    (ArmFor(1, READ), Done),
    (ArmFor(0, READ), Done),
    (Ready(1, READ), Done),
    (Ready(0, READ), Done),
    (Wait(0), GaveNone),
    (Wait(1), Gave(0, READ)),
    (Wait(1), Gave(1, READ)),
    (Wait(1), GaveNone),
];

#[test]
fn where_room_is_for_one_the_least_key_comes_first(rt: HostRuntime) {
    each_mode_plays(&rt, rt.alloc(), &ROOM_FOR_ONE);
}

const WHOLE_INTEREST: [(Act, Came); 14] = [
    (Add(0), Done),
    (ArmFor(0, BOTH), Done),
    (Ready(0, WRITE), Done),
    (Armed(0), Is(BOTH)),
    (Wait(8), Gave(0, WRITE)),
    (Armed(0), Is(NONE)),
    (ArmFor(0, READ), Done),
    (Ready(0, READ), Done),
    (Wait(8), Gave(0, READ)),
    (ArmFor(0, URGENT), Done),
    (Wait(8), GaveNone),
    (Ready(0, URGENT), Done),
    (Wait(8), Gave(0, URGENT)),
    (Armed(4096), Is(NONE)),
];

#[test]
fn an_event_takes_the_whole_interest_of_its_key(rt: HostRuntime) {
    each_mode_plays(&rt, rt.alloc(), &WHOLE_INTEREST);
}

const FAILING: [(Act, Came); 20] = [
    (ArmFor(0, READ), Done),
    (Ready(0, BOTH), Done),
    (FailNext(RawWhich::Add), Done),
    (Add(0), Failed),
    (Armed(0), Is(READ)),
    (FailNext(RawWhich::Set), Done),
    (ArmFor(0, WRITE), Failed),
    (Armed(0), Is(READ)),
    (FailNext(RawWhich::Remove), Done),
    (Remove(0), Failed),
    (Armed(0), Is(READ)),
    (FailNext(RawWhich::Wait), Done),
    (Wait(8), Failed),
    (Armed(0), Is(READ)),
    (Count, Counts(4, 1)),
    (Wait(8), Gave(0, READ)),
    (ArmFor(0, READ), Done),
    (Remove(0), Done),
    (Wait(8), GaveNone),
    (Count, Counts(4, 3)),
];

#[test]
fn a_raw_call_that_fails_leaves_what_is_armed(rt: HostRuntime) {
    each_mode_plays(&rt, rt.alloc(), &FAILING);
}

const MANY: [(Act, Came); 2] = [(Wait(4095), GaveMany(4095)), (Wait(4096), Gave(4095, READ))];

/// Has each of 4,096 keys be armed, become ready and be given, in this mode.
fn gives_each_key(rt: &impl Abort, alloc: Global, mode: Mode) {
    let mut adapted = Adapted::new(rt, alloc, mode, 4096);
    for key in 0..4096 {
        adapted.plays(rt, &[(ArmFor(key, READ), Done), (Ready(key, READ), Done)]);
    }
    adapted.plays(rt, &MANY);
}

#[test]
fn each_of_4096_keys_is_given(rt: HostRuntime) {
    for mode in MODES {
        gives_each_key(&rt, rt.alloc(), mode);
    }
}

#[test]
fn an_adapter_and_its_raw_poller_may_be_sent_and_let_go(rt: HostRuntime) {
    let raw = RawScript::new(rt.alloc(), Mode::Level);
    same(&rt, raw.is_ok(), true);
    let_go(raw);
    let_go(adapter(&rt, rt.alloc(), Mode::Edge));
}
