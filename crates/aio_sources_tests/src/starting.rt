//! What no clause says of connections with which a reactor starts: that it starts with as many as may live, and
//! with those that were added beside one that failed.

use crate::asserts::{MEMORY, same};
use crate::sources::assert_full;
use aio_base::{Arm, ArmFault, Key};
use aio_devices::{FailingArm, MemNotify, MemWait, SureArm};
use aio_shared::{Shared, SourceRef, Started};
use std::alloc::Global;
use std::process::Abort;
use std::sync::Wait;

/// The keys of the sources with which a reactor started, or their faults.
fn keys_in<A: Arm>(
    rt: &impl Abort,
    alloc: Global,
    sources: &[Result<SourceRef<A>, ArmFault>],
) -> Vec<Result<Key, ArmFault>> {
    let mut keys = Vec::new(alloc);
    for source in sources {
        let key = match source {
            Ok(token) => Ok(token.key()),
            Err(fault) => Err(*fault),
        };
        keys.push(key).expect(rt, MEMORY);
    }
    keys
}

/// What a reactor is that starts with these connections, 4,096 at most.
fn start<A: Arm + Drop>(
    rt: &impl Abort,
    alloc: Global,
    ios: Vec<A>,
) -> Started<A, MemWait, MemNotify> {
    assert!(rt; ios.len() <= 4096);
    match Shared::start(alloc, 1, MemWait::new(1), MemNotify::new(), ios) {
        Ok(started) => started,
        Err(_) => rt.panic(MEMORY),
    }
}

/// The keys of a reactor that started so, which is let go.
fn keys_of<A: Arm + Drop>(
    rt: &impl Abort,
    alloc: Global,
    started: Started<A, MemWait, MemNotify>,
) -> Vec<Result<Key, ArmFault>> {
    let keys = keys_in(rt, alloc, started.sources.as_slice());
    drop(started);
    keys
}

/// How many sources began under the keys from 0 on, in order.
fn begun_in_order(keys: &[Result<Key, ArmFault>]) -> u32 {
    let mut next: u32 = 0;
    for key in keys {
        if *key == Ok(Key(next)) {
            next = next.saturating_add(1);
        }
    }
    next
}

/// Starts a reactor with 4,096 sources, and asserts that there is no room for one more. Their keys.
fn start_many<R: Wait + Abort>(rt: &R, alloc: Global) -> Vec<Result<Key, ArmFault>> {
    let ios = vec![in alloc; SureArm::new(7); 4096].expect(rt, MEMORY);
    let started = start(rt, alloc, ios);
    assert_full(rt, &started.shared);
    keys_of(rt, alloc, started)
}

#[test]
fn a_reactor_starts_with_4096_sources(rt: HostRuntime) {
    let keys = start_many(&rt, rt.alloc());
    same(&rt, begun_in_order(keys.as_slice()), 4096);
}

/// The keys of a reactor that starts with a connection whose first call fails and one of which none does.
fn start_two(rt: &impl Abort, alloc: Global) -> Vec<Result<Key, ArmFault>> {
    let fails = vec![in alloc; 1].expect(rt, MEMORY);
    let mut ios = Vec::new(alloc);
    ios.push(FailingArm::new(1, fails)).expect(rt, MEMORY);
    ios.push(FailingArm::new(2, Vec::new(alloc)))
        .expect(rt, MEMORY);
    keys_of(rt, alloc, start(rt, alloc, ios))
}

#[test]
fn a_failed_connection_leaves_its_key_to_the_next(rt: HostRuntime) {
    let keys = start_two(&rt, rt.alloc());
    let fault = ArmFault {
        key: Key(0),
        before: 0,
        after: 1,
    };
    same(&rt, keys.as_slice(), [Err(fault), Ok(Key(0))].as_slice());
}
