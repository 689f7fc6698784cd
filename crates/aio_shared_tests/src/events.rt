//! What no clause says of events: that each goes to the source of its key.

use crate::acts::Act::{React, Take};
use crate::acts::Came::{Mask, Round};
use crate::acts::Row;
use crate::asserts::same;
use crate::hosts::{Quiet, enter};
use crate::scripts::one_by_one;
use aio_base::{Dir, Interest, Waker};
use aio_devices::{MemNotify, ScriptedWait, SureArm};
use std::alloc::Global;
use std::process::Abort;
use std::sync::Wait;

/// A source joins, and its read direction is polled with a waker of its own. Whether it joined.
fn join_and_poll<R: Wait>(caller: &Quiet<R, ScriptedWait>, waker: u32) -> bool {
    let host = &caller.host;
    let Ok(mut token) = host.insert_source(SureArm::new(0)) else {
        return false;
    };
    let mut cell = host.shared.enter(&host.rt, &mut token);
    cell.state
        .poll_dir(&mut cell.io, Dir::Read, Waker(waker), 0);
    host.shared.leave(&mut token, cell);
    drop(token);
    true
}

/// Seventy sources join. The waker of each is half its key. How many did.
fn join_seventy<R: Wait>(caller: &Quiet<R, ScriptedWait>) -> u32 {
    let mut joined: u32 = 0;
    for key in 0..70 {
        if join_and_poll(caller, key / 2) {
            joined = joined.saturating_add(1);
        }
    }
    joined
}

const SLOTS_OF_KEYS: Row = Row {
    shows: "each event goes to the source of its key",
    keys: 0,
    now: 5,
    acts: &[
        (React, Round(1, 1)),
        (Take, Mask(1 << 34)),
        (React, Round(1, 1)),
        (Take, Mask(1 << 2)),
        (React, Round(1, 1)),
        (Take, Mask(1 << 20)),
        (React, Round(1, 1)),
        (Take, Mask(1 << 33)),
    ],
};

/// Asserts what rounds over this wait come to where seventy sources joined.
fn plays_with_seventy<R: Wait + Abort>(rt: &R, alloc: Global, wait: ScriptedWait) {
    let mut caller = enter(rt, alloc, 1, (wait, MemNotify::new()), 5);
    same(rt, join_seventy(&caller), 70);
    caller.plays(rt, &SLOTS_OF_KEYS);
    drop(caller);
}

#[test]
fn each_event_goes_to_the_source_of_its_key(rt: HostRuntime) {
    let wait = one_by_one(&rt, rt.alloc(), &[68, 4, 40, 67], Interest::READ);
    plays_with_seventy(&rt, rt.alloc(), wait);
}
