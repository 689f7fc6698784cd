//! What no clause says of a timer: that its calls succeed with ample memory, through the bound `TimerHost`, how
//! they follow one another, and what stands after each refusal.

use crate::asserts::moment;
use crate::hosted::Act::{Close, Drawn, Look, Poll, Refuse, Registered, SetAt, SetEvery};
use crate::hosted::Came::{
    Count, Done, IdsSpent, Looked, NoMemory, Nothing, Only, Pending, Ready, Untold,
};
use crate::hosted::{Act, Came, Hosted, LAST_MOMENT};
use crate::hosts::{LAST_ID, make_host};
use aio_future::Timer;
use std::alloc::Global;
use std::process::Abort;

/// A timer over a new host.
struct Row {
    shows: &'static str,
    /// Its deadline, where it has one, and its period, where that is not 0. In nanoseconds.
    timer: (Option<u64>, u64),
    /// How many ids the host has drawn, and whether its notifier fails.
    drawn: u64,
    notifier_fails: bool,
    acts: &'static [(Act, Came)],
}

/// The timer of a row.
fn timer_of(rt: &impl Abort, row: &Row) -> Timer {
    match row.timer {
        (None, _) => Timer::never(),
        (Some(at), 0) => Timer::at(moment(rt, at)),
        (Some(at), period) => Timer::every(moment(rt, at), period.clamp(1, LAST_MOMENT)),
    }
}

/// Asserts that what the acts of a row come to is what stands beside each.
fn plays(rt: &impl Abort, alloc: Global, row: &Row) -> Hosted {
    let host = make_host(alloc, row.drawn.min(LAST_ID), row.notifier_fails);
    let mut hosted = Hosted {
        host,
        timer: timer_of(rt, row),
    };
    hosted.plays(rt, row.shows, row.acts);
    hosted
}

const ROWS: &[Row] = &[
    Row {
        shows: "a timer registers and fires",
        timer: (Some(10), 0),
        drawn: 0,
        notifier_fails: false,
        acts: &[
            (Look, Looked(Some(10), true)),
            (Poll(0, 1), Pending),
            (Registered, Only(10, 1, 1)),
            (Poll(5, 1), Pending),
            (Registered, Only(10, 1, 1)),
            (Poll(9, 2), Pending),
            (Registered, Only(10, 2, 2)),
            (Poll(9, 1), Pending),
            (Registered, Only(10, 1, 3)),
            (Poll(10, 1), Ready(10)),
            (Registered, Nothing),
            (Look, Looked(None, false)),
            (Poll(11, 1), Pending),
            (Drawn, Count(3)),
        ],
    },
    Row {
        shows: "a timer that waits is set anew",
        timer: (None, 0),
        drawn: 0,
        notifier_fails: false,
        acts: &[
            (SetAt(7), Done),
            (Registered, Nothing),
            (Poll(0, 4), Pending),
            (Registered, Only(7, 4, 1)),
            (SetAt(9), Done),
            (Registered, Only(9, 4, 2)),
            (SetEvery(8, 5), Done),
            (Registered, Only(8, 4, 3)),
            (Poll(8, 4), Ready(8)),
            (Poll(13, 4), Ready(13)),
            (Registered, Only(18, 4, 5)),
            (SetAt(20), Done),
            (Poll(20, 4), Ready(20)),
            (Look, Looked(Some(25), true)),
        ],
    },
    Row {
        shows: "a closed timer is no longer registered",
        timer: (Some(10), 1),
        drawn: 0,
        notifier_fails: false,
        acts: &[
            (Poll(0, 1), Pending),
            (Refuse(false, true), Done),
            (Close, NoMemory),
            (Look, Looked(Some(10), true)),
            (Registered, Only(10, 1, 1)),
            (Refuse(false, false), Done),
            (Close, Done),
            (Registered, Nothing),
            // A timer without a deadline.
            (Close, Done),
        ],
    },
    Row {
        shows: "a timer out of memory does the same work again",
        timer: (Some(10), 0),
        drawn: 0,
        notifier_fails: false,
        acts: &[
            (Poll(0, 1), Pending),
            (Refuse(false, true), Done),
            (Poll(0, 2), NoMemory),
            (Registered, Only(10, 1, 1)),
            (Refuse(true, false), Done),
            (Poll(0, 2), NoMemory),
            (Registered, Nothing),
            (Refuse(false, false), Done),
            (Poll(0, 1), Pending),
            (Registered, Only(10, 1, 2)),
        ],
    },
    Row {
        shows: "a timer tells that the notifier failed",
        timer: (Some(10), 5),
        drawn: 0,
        notifier_fails: true,
        acts: &[
            (Poll(0, 1), Untold(None, 0, 1)),
            (Registered, Only(10, 1, 1)),
            (Poll(12, 1), Untold(Some(10), 1, 2)),
            (Registered, Only(15, 1, 2)),
            (SetAt(40), Untold(None, 2, 3)),
            (Registered, Only(40, 1, 3)),
        ],
    },
    Row {
        shows: "missed periods fire one at a time",
        timer: (Some(10), 10),
        drawn: 0,
        notifier_fails: false,
        acts: &[
            (Poll(35, 1), Ready(10)),
            (Poll(35, 1), Ready(20)),
            (Poll(35, 1), Ready(30)),
            (Poll(35, 1), Pending),
            (Registered, Only(40, 1, 3)),
        ],
    },
    Row {
        shows: "no deadline comes after the last moment",
        timer: (Some(LAST_MOMENT - 1), 1),
        drawn: 0,
        notifier_fails: false,
        acts: &[
            (Poll(LAST_MOMENT, 1), Ready(LAST_MOMENT - 1)),
            (Poll(LAST_MOMENT, 1), Ready(LAST_MOMENT)),
            (Registered, Nothing),
            (Look, Looked(None, false)),
        ],
    },
];

#[test]
fn a_timer_registers_fires_and_is_set_anew(rt: HostRuntime) {
    for row in ROWS {
        drop(plays(&rt, rt.alloc(), row));
    }
}

const SPENDS_THE_IDS: Row = Row {
    shows: "a timer is as it was where ids are spent",
    timer: (Some(10), 5),
    drawn: LAST_ID - 1,
    notifier_fails: false,
    acts: &[
        (Poll(0, 1), Pending),
        (Poll(0, 2), IdsSpent),
        (Registered, Only(10, 1, LAST_ID)),
        (Poll(10, 1), IdsSpent),
        (Registered, Only(10, 1, LAST_ID)),
        (Poll(20, 2), IdsSpent),
        (Registered, Only(10, 1, LAST_ID)),
        (SetAt(3), IdsSpent),
        (SetEvery(3, 1), IdsSpent),
        (Look, Looked(Some(10), true)),
    ],
};

#[test]
fn a_timer_is_as_it_was_where_ids_are_spent(rt: HostRuntime) {
    let mut hosted = plays(&rt, rt.alloc(), &SPENDS_THE_IDS);
    hosted.timer = Timer::at(moment(&rt, 10));
    hosted.plays(&rt, "another one fires", &[(Poll(10, 1), Ready(10))]);
    drop(hosted);
}

/// Takes what may go to another thread, and lets it go.
fn send_away<T: Send + Drop>(_value: T) {}

#[test]
fn a_timer_may_go_to_another_thread(rt: HostRuntime) {
    send_away(Timer::at(moment(&rt, 1)));
}
