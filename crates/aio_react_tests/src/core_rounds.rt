//! What no clause says of a core's round: that its calls succeed with ample memory, through the
//! bounds of the poller.

use crate::asserts::same;
use crate::cores::Act::{
    Add, Begin, Finish, Give, Handle, Insert, Listen, React, Step, Ticker, Wait, Woken,
};
use crate::cores::Came::{Begun, Done, Ended, Key, Number, Pending, Reacted, Refused, Woke};
use crate::cores::{Act, Came, Row, comes_of, new_core, plays, plays_anew, told};
use aio_base::{Dir, Event, Interest, Waited};
use aio_react::{Core, CoreRefusal};
use aio_script::ScriptPoller;

/// Rounds of a new core.
const ROWS: &[Row] = &[
    Row {
        shows: "a round that waits for nothing wakes what is due at its end",
        acts: &[
            (Insert(13, 7), Done),
            (Begin(10, Some(5)), Begun(1, Some(3))),
            (Wait, Came::Waited(Waited::Given(0))),
            (Finish(13), Ended(None)),
            (Woken, Woke(1, Some(7))),
            (Ticker, Number(1)),
            (Finish(13), Refused(CoreRefusal::NoRound)),
        ],
    },
    // The third round, once begun, has nothing to handle and locks out whole rounds.
    Row {
        shows: "a whole round wakes what is due and locks out no later one",
        acts: &[
            (Insert(10, 7), Done),
            (Handle, Refused(CoreRefusal::NoRound)),
            (React(10, Some(5)), Reacted(1, 0, None)),
            (React(10, Some(5)), Reacted(2, 0, None)),
            (Woken, Woke(0, None)),
            (Begin(10, None), Begun(3, None)),
            (Handle, Refused(CoreRefusal::NothingInHand)),
            (React(10, None), Refused(CoreRefusal::Locked)),
        ],
    },
];

#[test]
fn rounds_of_a_core_wake_what_is_due(rt: HostRuntime) {
    for row in ROWS {
        plays_anew(&rt, rt.alloc(), row);
    }
}

/// Has so many listeners of the source wait for its read direction. How many do.
fn listen_times(core: &mut Core<ScriptPoller>, times: u32) -> usize {
    let mut waiting: usize = 0;
    for _ in 0..times {
        if listen_and_wait(core) {
            waiting = waiting.saturating_add(1);
        }
    }
    waiting
}

/// Has one more listener of the source wait. Whether it does.
fn listen_and_wait(core: &mut Core<ScriptPoller>) -> bool {
    match comes_of(core, Listen(0, Dir::Read)) {
        Number(listener) => matches!(comes_of(core, Step(listener, 3)), Pending(None)),
        _ => false,
    }
}

/// Makes a round. Where memory ran out in it, its event is handled then and the round is ended: the answer has
/// the first fault of the round.
fn react_to_the_end(core: &mut Core<ScriptPoller>, now: u64) -> Came {
    match comes_of(core, React(now, Some(0))) {
        Reacted(_, _, fault) => Ended(fault),
        Refused(CoreRefusal::OutOfMemory) => match comes_of(core, Handle) {
            Refused(refusal) => Refused(refusal),
            _ => comes_of(core, Finish(now)),
        },
        came => came,
    }
}

const IS_NOTED: [(Act, Came); 2] = [(Add, Key(0)), (Give(0), Done)];

const ALL_ARE_WOKEN: [(Act, Came); 2] = [(Woken, Woke(3_000, Some(3))), (Ticker, Number(1))];

/// A round takes more wakers than it has room for. Where there is no memory for them, its event stays in
/// hand, and goes on from there. Whether memory was there, the run of the test decides.
#[test]
fn an_event_without_memory_is_handled_later(rt: HostRuntime) {
    let mut core = new_core(&rt, rt.alloc());
    plays(&rt, &mut core, &IS_NOTED);
    same(&rt, listen_times(&mut core, 3_000), 3_000);
    same(
        &rt,
        told(react_to_the_end(&mut core, 10)),
        told(Ended(None)),
    );
    plays(&rt, &mut core, &ALL_ARE_WOKEN);
}

/// The events that the poller gives in one wait.
const GIVEN: [Event; 2] = [
    Event {
        key: aio_base::Key(0),
        on: Interest::READ,
    },
    Event {
        key: aio_base::Key(4),
        on: Interest::READ,
    },
];

const TWO_ARE_GIVEN: [(Act, Came); 4] = [
    (Give(0), Done),
    (Give(4), Done),
    (Begin(10, None), Begun(1, None)),
    (Wait, Came::Waited(Waited::Given(2))),
];

const ONE_IS_HANDLED: [(Act, Came); 1] = [(Handle, Done)];

#[test]
fn what_a_wait_gave_is_in_hand_until_it_is_handled(rt: HostRuntime) {
    let mut core = new_core(&rt, rt.alloc());
    same(&rt, core.in_hand(), &[]);
    plays(&rt, &mut core, &TWO_ARE_GIVEN);
    same(&rt, core.in_hand(), GIVEN.as_slice());
    plays(&rt, &mut core, &ONE_IS_HANDLED);
    same(&rt, core.in_hand(), &GIVEN[1..]);
}
