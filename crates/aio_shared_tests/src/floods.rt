//! What no clause says of floods: that a round handles as many events as one wait may give, that
//! events of keys which no source has wake nobody and hold up none that comes after them, and that
//! timers and listeners are as many as memory holds.

use crate::acts::Act::{InsertTimes, Listen, Look, Poll, React, ReactAgain, Take};
use crate::acts::Came::{Cell, Mask, Pending, Round, Times};
use crate::acts::Row;
use crate::owners::{plays_each, plays_over};
use crate::scripts::{give, one_by_one};
use aio_base::{Dir, Interest};
use aio_devices::ScriptedWait;
use std::alloc::Global;
use std::process::Abort;

/// The first key of each round, of how many keys there are events, and in which directions: three floods of
/// keys which no source has, and then the first source.
const FLOODS: &[(u32, u32, Interest)] = &[
    (1, 1024, Interest::READ_WRITE),
    (4096, 1024, Interest::READ_WRITE),
    (u32::MAX - 1023, 1024, Interest::READ_WRITE),
    (0, 1, Interest::READ),
];

/// A wait that gives these events.
fn floods(rt: &impl Abort, alloc: Global) -> ScriptedWait {
    let mut answers = Vec::new(alloc);
    for (first, count, on) in FLOODS {
        give(rt, alloc, &mut answers, (*first, *count), *on);
    }
    ScriptedWait::new(answers)
}

const AFTER_FLOODS: Row = Row {
    shows: "an event after three floods of strangers wakes its task",
    keys: 0,
    now: 5,
    acts: &[
        (Poll(Dir::Read, 3), Pending),
        (React, Round(1024, 0)),
        (React, Round(1024, 0)),
        (React, Round(1024, 0)),
        (Look, Cell(3, true, 3)),
        (React, Round(1, 1)),
        (Take, Mask(1 << 3)),
    ],
};

#[test]
fn an_event_after_three_floods_of_strangers_wakes_its_task(rt: HostRuntime) {
    let wait = floods(&rt, rt.alloc());
    plays_over(&rt, rt.alloc(), wait, &AFTER_FLOODS);
}

// Whether memory is there for the waker, the run of the test decides.
const IN_HAND: Row = Row {
    shows: "one event in hand is handled by this call or the next",
    keys: 0,
    now: 5,
    acts: &[
        (Poll(Dir::Read, 3), Pending),
        (ReactAgain, Round(1, 1)),
        (Take, Mask(1 << 3)),
    ],
};

#[test]
fn one_event_in_hand_is_handled_by_this_call_or_the_next(rt: HostRuntime) {
    let wait = one_by_one(&rt, rt.alloc(), &[0], Interest::READ);
    plays_over(&rt, rt.alloc(), wait, &IN_HAND);
}

/// More timers and more listeners than a number of 16 bits counts.
const MANY: &[Row] = &[
    Row {
        shows: "timers are as many as memory holds",
        keys: 0,
        now: 5,
        acts: &[
            (InsertTimes(5, 65_537), Times(65_537)),
            (React, Round(0, 65_537)),
            (Take, Mask(1)),
        ],
    },
    Row {
        shows: "listeners are as many as memory holds",
        keys: 1,
        now: 5,
        acts: &[
            (Listen(65_537), Times(65_537)),
            (React, Round(1, 65_537)),
            (Take, Mask(1 << 3)),
        ],
    },
];

#[test]
fn timers_and_listeners_are_as_many_as_memory_holds(rt: HostRuntime) {
    plays_each(&rt, rt.alloc(), MANY);
}
