//! What no clause says of tasks polled as one: whole runs of a group, up to as many tasks as it may have.

ghost use Rattle.std.specs.Prelude.{◌≤◌};

use crate::groups::Act::{Add, Answer, Count, Poll};
use crate::groups::Came::{Ended, Full, Pending, Polls, Saw, Slot};
use crate::groups::{Act, Came, Played};
use aio_park::Group;
use std::process::Abort;
use std::thread::{Threads, join};

/// Adds tasks that end at their own slot's number, so many, and asserts that each has the next slot.
fn fill(rt: &impl Abort, played: &mut Played, slots: u32) {
    for slot in 0..slots {
        played.plays(rt, &[(Add(u64::from(slot)), Slot(slot))]);
    }
}

const ONE_MORE: [(Act, Came); 1] = [(Add(64), Full(64, 0))];

#[test]
fn a_group_has_64_slots_and_hands_the_next_task_back(rt: HostRuntime) {
    let mut played = Played::new(rt.alloc());
    fill(&rt, &mut played, 64);
    played.plays(&rt, &ONE_MORE);
}

/// Wakes so many slots, one after the other, and asserts that each is polled alone.
fn wake_each(rt: &impl Abort, played: &mut Played, slots: u32)
    requires { slots ≤ 64 }
{
    for slot in 0..slots {
        let polls = [(Poll(1 << slot, 100), Pending(u64::from(slot) + 1))];
        played.plays(rt, &polls);
    }
}

const LAST_OF_64: [(Act, Came); 4] = [
    (Poll(1 << 63, 100), Ended(64, 64)),
    (Answer(0), Saw(1, 100, 1)),
    (Answer(63), Saw(1 << 63, 100, 1)),
    (Count, Polls(64)),
];

#[test]
fn each_of_64_slots_is_woken_once(rt: HostRuntime) {
    let mut played = Played::new(rt.alloc());
    fill(&rt, &mut played, 64);
    wake_each(&rt, &mut played, 63);
    played.plays(&rt, &LAST_OF_64);
}

// Slot 1 is woken once, and a bit beyond the slots.
const ONLY_THE_WOKEN: [(Act, Came); 9] = [
    (Add(1), Slot(0)),
    (Add(1), Slot(1)),
    (Add(1), Slot(2)),
    (Poll((1 << 40) | 2, 0), Pending(2)),
    (Poll(u64::MAX, 1), Ended(123, 3)),
    (Answer(0), Saw(1, 1, 1)),
    (Answer(1), Saw(2, 1, 2)),
    (Answer(2), Saw(4, 1, 1)),
    (Count, Polls(2)),
];

#[test]
fn only_what_was_woken_is_polled(rt: HostRuntime) {
    Played::new(rt.alloc()).plays(&rt, &ONLY_THE_WOKEN);
}

const OWN_BITS: [(Act, Came); 9] = [
    (Add(7), Slot(0)),
    (Add(8), Slot(1)),
    (Add(6), Slot(2)),
    (Poll(4, 6), Pending(3)),
    (Poll(7, 7), Pending(12)),
    (Poll(7, 8), Ended(2, 3)),
    (Answer(0), Saw(1, 7, 1)),
    (Answer(1), Saw(2, 8, 2)),
    (Answer(2), Saw(4, 6, 1)),
];

#[test]
fn each_slot_is_told_its_own_bit_and_answers_stand_in_the_order_of_slots(rt: HostRuntime) {
    Played::new(rt.alloc()).plays(&rt, &OWN_BITS);
}

// Slots 2 and 4 end at the first poll.
const IN_RISING_ORDER: [(Act, Came); 8] = [
    (Add(0), Slot(0)),
    (Add(1), Slot(1)),
    (Add(0), Slot(2)),
    (Add(1), Slot(3)),
    (Add(0), Slot(4)),
    (Add(1), Slot(5)),
    (Poll(0b11_0110, 0), Pending(2356)),
    (Poll(u64::MAX, 1), Ended(1246, 6)),
];

#[test]
fn the_slots_of_a_mask_are_polled_in_rising_order(rt: HostRuntime) {
    Played::new(rt.alloc()).plays(&rt, &IN_RISING_ORDER);
}

const ENDS_AT_ONCE: [(Act, Came); 2] = [
    (Poll(u64::MAX, 0), Ended(0, 0)),
    (Poll(0, 0), Ended(0, 0)),
];

#[test]
fn an_empty_group_ends_at_once(rt: HostRuntime) {
    Played::new(rt.alloc()).plays(&rt, &ENDS_AT_ONCE);
}

const TASKS_JOIN_LATER: [(Act, Came); 12] = [
    (Add(3), Slot(0)),
    (Poll(3, 0), Pending(1)),
    (Add(3), Slot(1)),
    (Poll(1, 3), Pending(1)),
    (Poll(3, 4), Ended(2, 2)),
    (Answer(0), Saw(1, 3, 2)),
    (Answer(1), Saw(2, 4, 1)),
    (Add(5), Slot(0)),
    (Poll(1, 5), Ended(1, 1)),
    (Answer(0), Saw(1, 5, 1)),
    (Answer(1), Came::Other),
    (Count, Polls(4)),
];

#[test]
fn tasks_added_later_join_and_none_is_left_at_the_end(rt: HostRuntime) {
    Played::new(rt.alloc()).plays(&rt, &TASKS_JOIN_LATER);
}

/// Takes what may go to another thread and be let go there.
fn send_away<T: Send + Drop>(_value: T) {}

/// A group may do so wherever its tasks and its answers may.
fn send_group_away<T: Send + Drop, O: Send + Drop>(group: Group<T, O>) {
    send_away(group);
}

/// Has a group carry out these acts, and lets it go.
fn play_away<R: Abort>(rt: &R, mut played: Played, rows: &[(Act, Came)]) {
    played.plays(rt, rows);
}

/// Has each group carry out acts in a thread of its own.
fn play_beside<R: Threads + Abort + Sync>(
    rt: &R,
    one: Played,
    other: Played,
    rows: &[(Act, Came)],
    rows_of_other: &[(Act, Came)],
) {
    join(
        rt,
        move || play_away(rt, one, rows),
        move || play_away(rt, other, rows_of_other),
    );
}

const HAS_BEGUN: [(Act, Came); 3] = [
    (Add(2), Slot(0)),
    (Add(3), Slot(1)),
    (Poll(1, 2), Pending(1)),
];

const ENDS_AWAY: [(Act, Came); 3] = [
    (Poll(u64::MAX, 3), Ended(2, 2)),
    (Answer(0), Saw(1, 2, 1)),
    (Answer(1), Saw(2, 3, 1)),
];

const GOES_ON_AWAY: [(Act, Came); 2] = [(Add(4), Slot(0)), (Poll(u64::MAX, 3), Pending(1))];

#[test]
fn a_group_may_go_to_another_thread(rt: HostRuntime) {
    let mut one = Played::new(rt.alloc());
    one.plays(&rt, &HAS_BEGUN);
    play_beside(&rt, one, Played::new(rt.alloc()), &ENDS_AWAY, &GOES_ON_AWAY);
    let empty: Group<u64, u64> = Group::new(rt.alloc(), 5);
    send_group_away(empty);
}
