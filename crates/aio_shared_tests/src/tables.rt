//! What no clause says of a thread's calls: that they succeed with ample memory and go together, and what one
//! that meets a failing device answers.

ghost use Rattle.std.specs.Prelude.{◌≡◌};

use crate::acts::Act::{
    Insert, InsertTimes, Listen, Look, Poll, PollBlocking, React, ReactAgain, ReactWaiting, Remove,
    Take, Wake, WakeApart,
};
use crate::acts::Came::{
    Cell, Done, Failed, Id, Mask, Pending, Refused, Replaced, Round, Rounds, Times,
};
use crate::acts::{Came, FIRST_FAULT, Row};
use crate::asserts::{MEMORY, same};
use crate::hosts::{Caller, Quiet, another, enter};
use crate::owners::{plays, plays_each, plays_over};
use crate::scripts::one_by_one;
use aio_base::{ArmFault, CountFault, Dir, InsertRefusal, Interest, Key, TimerId};
use aio_conns::SureConn;
use aio_devices::{
    FailingArm, FailingNotify, FailingWait, MemNotify, MemWait, ScriptedWait, SureArm, WaitAnswer,
};
use aio_shared::{PollFault, ReactFault};
use std::alloc::Global;
use std::process::Abort;
use std::sync::Wait;

/// Threads over devices that never fail.
const ROWS: &[Row] = &[
    Row {
        shows: "a timer that is taken out again is not registered",
        keys: 0,
        now: 9,
        acts: &[
            (Insert(9, 0), Id(1)),
            (Remove(9, 1), Done),
            (React, Round(0, 0)),
            (Insert(9, 0), Id(2)),
            (React, Round(0, 1)),
        ],
    },
    Row {
        shows: "a round wakes no timer that was taken out",
        keys: 0,
        now: 10,
        acts: &[
            (Insert(9, 0), Id(1)),
            (Remove(9, 1), Done),
            (React, Round(0, 0)),
        ],
    },
    Row {
        shows: "a lent seat wakes and takes",
        keys: 0,
        now: 5,
        acts: &[(WakeApart(3), Done), (Take, Mask(8)), (Insert(5, 0), Id(1))],
    },
    Row {
        shows: "a member hosts timers and tasks",
        keys: 0,
        now: 5,
        acts: &[
            (Insert(5, 1), Id(1)),
            (Insert(5, 2), Id(2)),
            (Remove(5, 1), Done),
            (Wake(7), Rounds(0)),
            (Take, Mask(128)),
            (React, Round(0, 1)),
            (Wake(7), Rounds(1)),
            (Take, Mask(128 | 4)),
        ],
    },
    Row {
        shows: "an event takes the waiter of reading of its source",
        keys: 2,
        now: 5,
        acts: &[
            (Poll(Dir::Read, 3), Pending),
            (React, Round(2, 1)),
            (Take, Mask(8)),
        ],
    },
    Row {
        shows: "an event takes the waiter of writing of its source",
        keys: 2,
        now: 5,
        acts: &[
            (Poll(Dir::Write, 3), Pending),
            (React, Round(2, 1)),
            (Take, Mask(8)),
        ],
    },
    Row {
        shows: "a round handles 1024 events",
        keys: 1024,
        now: 5,
        acts: &[
            (Poll(Dir::Read, 3), Pending),
            (React, Round(1024, 1)),
            (Look, Cell(1, true, 1)),
        ],
    },
    Row {
        shows: "an event takes the listener of its source",
        keys: 2,
        now: 5,
        acts: &[(Listen(1), Times(1)), (React, Round(2, 1)), (Take, Mask(8))],
    },
    // A round takes more wakers than it has room for. Where there is no memory for them, its event stays in hand,
    // and the next call wakes them all. Whether memory was there, the run of the test decides.
    Row {
        shows: "an event without memory stays in hand",
        keys: 1,
        now: 5,
        acts: &[
            (Listen(1100), Times(1100)),
            (ReactAgain, Round(1, 1100)),
            (Take, Mask(8)),
        ],
    },
    // One timer more than the queue of operations holds.
    Row {
        shows: "a full queue refuses no timer",
        keys: 0,
        now: 5,
        acts: &[
            (InsertTimes(5, 1001), Times(1001)),
            (React, Round(0, 1001)),
            (Take, Mask(1)),
        ],
    },
];

#[test]
fn calls_of_a_thread_succeed_and_go_together(rt: HostRuntime) {
    plays_each(&rt, rt.alloc(), ROWS);
}

/// A connection that sends nothing and ends, and never fails.
fn conn(rt: &impl Abort, alloc: Global) -> SureConn {
    SureConn::new(alloc, Vec::new(alloc), true, 4096, u32::MAX).expect(rt, MEMORY)
}

#[test]
fn they_do_so_over_connections_too(rt: HostRuntime) {
    for row in ROWS {
        let conn = conn(&rt, rt.alloc());
        let wait = MemWait::new(row.keys.min(1024));
        plays(&rt, rt.alloc(), (MemNotify::new(), conn, wait), row);
    }
}

/// Makes a member for another thread; a connection joins the reactor, and leaves it again. Its key, where nothing
/// was refused.
fn join_and_leave<R: Wait + Abort + Copy>(
    first: &mut Caller<R, MemNotify, SureConn, MemWait>,
    alloc: Global,
) -> Option<Key>
    requires { first.old.host.member.ops.number ≡ 0 }
{
    drop(another(first, alloc, 5));
    let host = &first.host;
    let io = conn(&host.rt, alloc);
    let Ok(token) = host.insert_source(io) else {
        return None;
    };
    let key = token.key();
    match host.shared.close_source(&host.rt, token) {
        Ok(()) => Some(key),
        Err(_) => None,
    }
}

/// The same in a new reactor of connections.
fn join_a_new_one<R: Wait + Abort + Copy>(rt: R, alloc: Global) -> Option<Key> {
    let mut first = enter(rt, alloc, 1, (MemWait::new(0), MemNotify::new()), 5);
    let key = join_and_leave(&mut first, alloc);
    drop(first);
    key
}

#[test]
fn a_member_is_made_and_a_connection_joins_and_leaves(rt: HostRuntime) {
    same(&rt, join_a_new_one(&rt, rt.alloc()), Some(Key(0)));
}

/// The second fault of a device.
const SECOND_FAULT: CountFault = CountFault {
    before: 1,
    after: 2,
};

/// What an insert answers that is registered under id 1, where the notifier then failed for the first time.
const UNTOLD: Came = Refused(InsertRefusal::Notify {
    id: TimerId(1),
    fault: FIRST_FAULT,
});

/// Threads whose notifier fails.
const UNTOLD_ROWS: &[Row] = &[
    // The second insert need not notify.
    Row {
        shows: "a failing notifier is called once and leaves the timers registered",
        keys: 0,
        now: 5,
        acts: &[
            (Insert(5, 0), UNTOLD),
            (Insert(5, 0), Id(2)),
            (React, Round(0, 2)),
        ],
    },
    Row {
        shows: "a seat that waits blocks again and is notified",
        keys: 0,
        now: 5,
        acts: &[
            (Insert(5, 0), UNTOLD),
            (Look, Cell(0, true, 0)),
            (ReactWaiting, Failed(ReactFault::Notify(SECOND_FAULT))),
            (Take, Mask(1)),
        ],
    },
    // The thread of the waker that was replaced may not know of it.
    Row {
        shows: "a poll tells that the replaced waker could not be told",
        keys: 0,
        now: 5,
        acts: &[
            (PollBlocking, Replaced(PollFault::Notify(FIRST_FAULT))),
            (Take, Mask(8)),
        ],
    },
];

#[test]
fn a_failing_notifier_is_told_and_nothing_is_lost(rt: HostRuntime) {
    for row in UNTOLD_ROWS {
        let devices = (FailingNotify::new(), SureArm::new(7), MemWait::new(0));
        plays(&rt, rt.alloc(), devices, row);
    }
}

const FIRST_IDS: Row = Row {
    shows: "the first ids of the first member",
    keys: 0,
    now: 5,
    acts: &[(Insert(5, 0), Id(1))],
};

const OTHER_IDS: Row = Row {
    shows: "the first ids of another member",
    keys: 0,
    now: 5,
    acts: &[(Insert(5, 0), Id((1 << 40) + 1))],
};

const NEXT_IDS: Row = Row {
    shows: "the next ids of the first member",
    keys: 0,
    now: 5,
    acts: &[(Insert(5, 0), Id(2)), (React, Round(0, 3))],
};

/// Asserts the ids of timers that two members of a reactor register in turn.
fn insert_by_two<R: Wait + Abort>(rt: &R, alloc: Global, first: &mut Quiet<&R, MemWait>)
    requires { first.old.host.member.ops.number ≡ 0 }
{
    let mut second = another(first, alloc, 5);
    first.plays(rt, &FIRST_IDS);
    second.plays(rt, &OTHER_IDS);
    first.plays(rt, &NEXT_IDS);
    drop(second);
}

/// The same in a new reactor.
fn insert_in_new<R: Wait + Abort>(rt: &R, alloc: Global) {
    let mut first = enter(rt, alloc, 1, (MemWait::new(0), MemNotify::new()), 5);
    insert_by_two(rt, alloc, &mut first);
    drop(first);
}

#[test]
fn a_member_comes_beside_the_first_and_draws_other_ids(rt: HostRuntime) {
    insert_in_new(&rt, rt.alloc());
}

const WAIT_FAILS_TWICE: Row = Row {
    shows: "a failed wait is told and the due timer woken",
    keys: 0,
    now: 5,
    acts: &[
        (Insert(5, 3), Id(1)),
        (React, Failed(ReactFault::Wait(FIRST_FAULT))),
        (Take, Mask(8)),
        (React, Failed(ReactFault::Wait(SECOND_FAULT))),
    ],
};

#[test]
fn a_failed_wait_is_told_and_the_due_timer_woken(rt: HostRuntime) {
    let fails = vec![in rt.alloc(); 1, 2].expect(&rt, MEMORY);
    plays_over(
        &rt,
        rt.alloc(),
        FailingWait::new(0, fails),
        &WAIT_FAILS_TWICE,
    );
}

const INTERRUPTED: Row = Row {
    shows: "an interrupted wait is no fault",
    keys: 0,
    now: 5,
    acts: &[(React, Round(0, 0)), (Look, Cell(1, true, 1))],
};

#[test]
fn an_interrupted_wait_is_no_fault(rt: HostRuntime) {
    let answers = vec![in rt.alloc(); WaitAnswer::Interrupted].expect(&rt, MEMORY);
    plays_over(&rt, rt.alloc(), ScriptedWait::new(answers), &INTERRUPTED);
}

const ARM_FAILS: Row = Row {
    shows: "a failed arm is told and the taken are woken",
    keys: 0,
    now: 5,
    acts: &[
        (Poll(Dir::Read, 3), Pending),
        (Poll(Dir::Write, 4), Pending),
        (
            React,
            Failed(ReactFault::Arm(ArmFault {
                key: Key(0),
                before: 0,
                after: 1,
            })),
        ),
        (Take, Mask(8)),
    ],
};

#[test]
fn a_failed_arm_is_told_and_the_taken_are_woken(rt: HostRuntime) {
    let fails = vec![in rt.alloc(); 4].expect(&rt, MEMORY);
    let wait = one_by_one(&rt, rt.alloc(), &[0], Interest::READ);
    let devices = (MemNotify::new(), FailingArm::new(5, fails), wait);
    plays(&rt, rt.alloc(), devices, &ARM_FAILS);
}
