//! What no clause says of a core: that it is made with ample memory, and that its calls succeed
//! through the bounds of its poller.

use crate::asserts::{moment, same};
use crate::cores::Act::{Live, React, Ticker, Wait, Waits, Woken};
use crate::cores::Came::{Is, Number, Reacted, Refused, Woke};
use crate::cores::{Act, Came, new_core, plays};
use crate::hosts::insert_two;
use aio_base::{TimerId, Waker};
use aio_react::CoreRefusal;

const HAS_NOTHING: [(Act, Came); 5] = [
    (Live(0), Is(false)),
    (Ticker, Number(0)),
    (Woken, Woke(0, None)),
    (Waits, Number(0)),
    (Wait, Refused(CoreRefusal::NoRound)),
];

// The first of two timers was taken out again.
const WAKES_THE_SECOND: [(Act, Came); 2] = [
    (React(10, Some(0)), Reacted(1, 0, None)),
    (Woken, Woke(1, Some(2))),
];

#[test]
fn a_new_core_has_nothing_and_hosts_timers(rt: HostRuntime) {
    let mut core = new_core(&rt, rt.alloc());
    plays(&rt, &mut core, &HAS_NOTHING);
    let ids = insert_two(&mut core, moment(&rt, 10), Waker(1), Waker(2));
    same(&rt, ids, Some((TimerId(1), TimerId(2))));
    plays(&rt, &mut core, &WAKES_THE_SECOND);
}
