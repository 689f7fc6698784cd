//! What no clause says of a core's sources and listeners: that their calls succeed with ample memory, through the
//! bounds of the poller, and how they follow one another.

use crate::cores::Act::{Add, Del, FailArm, Listen, Live, Poll, Step, Unlisten};
use crate::cores::Came::{Done, Is, Key, Number, Pending, Refused, Unarmed};
use crate::cores::{Row, plays_anew};
use aio_base::{ArmFault, Dir};
use aio_react::CoreRefusal::{InUse, NoListener, NoSource};

/// The first fault of the poller, in an arm.
const FIRST: ArmFault = ArmFault {
    key: aio_base::Key(0),
    before: 0,
    after: 1,
};

/// The second one.
const SECOND: ArmFault = ArmFault {
    key: aio_base::Key(0),
    before: 1,
    after: 2,
};

/// Sources and listeners of a new core.
const ROWS: &[Row] = &[
    // The second is given up, and its number is nobody's, as those before the first and behind the third.
    Row {
        shows: "listeners wait until they are given up",
        acts: &[
            (Step(1, 11), Refused(NoListener)),
            (Add, Key(0)),
            (Listen(0, Dir::Read), Number(1)),
            (Listen(0, Dir::Read), Number(2)),
            (Listen(0, Dir::Read), Number(3)),
            (Step(1, 11), Pending(None)),
            (Step(2, 12), Pending(None)),
            (Step(3, 13), Pending(None)),
            (Step(1, 14), Pending(None)),
            (Unlisten(2), Done),
            (Unlisten(2), Refused(NoListener)),
            (Step(0, 12), Refused(NoListener)),
            (Step(2, 12), Refused(NoListener)),
            (Step(4, 12), Refused(NoListener)),
            (Listen(0, Dir::Read), Number(4)),
            (Step(4, 14), Pending(None)),
            (Del(0), Refused(InUse)),
            (Unlisten(1), Done),
            (Del(0), Refused(InUse)),
            (Unlisten(3), Done),
            (Del(0), Refused(InUse)),
            (Unlisten(4), Done),
            (Del(0), Done),
        ],
    },
    Row {
        shows: "a listener that was not polled is given up",
        acts: &[
            (Add, Key(0)),
            (Listen(0, Dir::Write), Number(1)),
            (Unlisten(1), Done),
            (Step(1, 11), Refused(NoListener)),
            (Del(0), Done),
        ],
    },
    Row {
        shows: "a listener stays where its arm failed",
        acts: &[
            (Add, Key(0)),
            (Listen(0, Dir::Read), Number(1)),
            (FailArm, Done),
            (Step(1, 11), Unarmed(FIRST)),
            (FailArm, Done),
            (Step(1, 11), Unarmed(SECOND)),
            (Step(1, 11), Pending(None)),
            (Unlisten(1), Done),
        ],
    },
    Row {
        shows: "the key of a source that left is the next",
        acts: &[
            (Add, Key(0)),
            (Add, Key(1)),
            (Del(2), Refused(NoSource)),
            (Del(0), Done),
            (Live(0), Is(false)),
            (Live(1), Is(true)),
            (Add, Key(0)),
            (Add, Key(2)),
            (Listen(1, Dir::Read), Number(1)),
            (Del(1), Refused(InUse)),
        ],
    },
    Row {
        shows: "a poll waits and hands out whom it replaces",
        acts: &[
            (Add, Key(0)),
            (Poll(0, 1), Pending(None)),
            (Poll(0, 2), Pending(Some(1))),
            (Poll(0, 2), Pending(None)),
            (Poll(1, 3), Refused(NoSource)),
        ],
    },
];

#[test]
fn sources_and_listeners_of_a_core_come_and_go(rt: HostRuntime) {
    for row in ROWS {
        plays_anew(&rt, rt.alloc(), row);
    }
}
