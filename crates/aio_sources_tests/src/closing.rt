//! What no clause says of sources that are closed beside other threads: that a key goes to the next source only
//! once its `remove` was made, and that nobody waits for ever.

ghost use Rattle.std.specs.Prelude.{◌≡◌, false, IfSome};
ghost use Rattle.aio_shared.specs.Members.{IsMemberOf};

use crate::asserts::{MEMORY, same};
use crate::calls::{insert, join_and_close, new_reactor, react};
use crate::sources::{Deed, Sure, SureMember, at_new};
use aio_base::{Arm, Dir, Failed, Faults, Interest, Key, Waker};
use aio_devices::{MemNotify, MemWait, SureArm};
use aio_shared::{ReactFault, ReactedIn, Shared, SourceRef};
use aio_source::SourceCell;
use std::alloc::Global;
use std::process::Abort;
use std::sync::{Mutex, Wait};
use std::thread::{Threads, join, yield_now};

/// What a poller is asked for, at the place of each key.
#[derive(Drop)]
struct Interests {
    of_keys: Mutex<Vec<Interest>>,
}

impl Interests {
    /// Nothing is asked for any key of so many.
    fn none(rt: &impl Abort, alloc: Global, keys: usize) -> Interests {
        let of_keys = vec![in alloc; Interest::NONE; keys].expect(rt, MEMORY);
        Interests {
            of_keys: Mutex::new(of_keys),
        }
    }

    fn set<R: Wait>(&self, rt: &R, key: Key, on: Interest) {
        let mut guard = self.of_keys.lock(rt);
        let all = &mut *guard;
        let at = key.0 as usize;
        if at < all.len() {
            all[at] = on;
        }
    }

    /// For how many keys something is asked.
    fn count<R: Wait>(&self, rt: &R) -> usize {
        let guard = self.of_keys.lock(rt);
        let mut count: usize = 0;
        for on in &*guard {
            if *on != Interest::NONE {
                count = count.saturating_add(1);
            }
        }
        count
    }
}

/// An arm that goes by the key alone: all arms of a poller share its interests. Its `remove` takes a while.
#[derive(Drop)]
struct KeyedArm<'a, R: Wait> {
    rt: &'a R,
    interests: &'a Interests,
}

impl<R: Wait> Faults for KeyedArm<'_, R> {
    ghost use Rattle.std.specs.Prelude.{true};
    ghost use Rattle.std.proofs.Common.{arith};

    ghost fault_count = { λ a. 0 };

    ghost is_sure = { λ a. true };

    ghost all_sure = { true };

    ghost sure_below_top = { λ a sure. Prim.omega arith };

    ghost each_sure = { λ a sure. sure };

    fn faults(&self) -> u64 {
        0
    }
}

impl<R: Wait> Arm for KeyedArm<'_, R> {
    ghost use Rattle.std.specs.Prelude.{◌≡◌, [], None, Ok};

    ghost interests = { λ a. None };

    ghost rest = { λ a. [] };

    ghost arm_step = { λ old call answer new. answer ≡ Ok tt };

    fn add(&mut self, key: Key) -> Result<(), Failed> {
        self.interests.set(self.rt, key, Interest::NONE);
        Ok(())
    }

    fn arm(&mut self, key: Key, on: Interest) -> Result<(), Failed> {
        self.interests.set(self.rt, key, on);
        Ok(())
    }

    fn remove(&mut self, key: Key) -> Result<(), Failed> {
        for _ in 0..20 {
            yield_now();
        }
        self.interests.set(self.rt, key, Interest::NONE);
        Ok(())
    }
}

/// A reactor whose connections are such arms.
type Keyed<'a, R> = Shared<KeyedArm<'a, R>, MemWait>;

/// Polls the read direction of a source with waker 3: its connection is armed for it.
fn poll_reads<R: Wait>(cell: &mut SourceCell<KeyedArm<'_, R>>)
    ensures { cell.new.state.key ≡ cell.old.state.key }
{
    cell.state.poll_dir(&mut cell.io, Dir::Read, Waker(3), 0);
}

/// A connection joins, and its read direction is polled. `None` where it was refused.
fn join_and_arm<'a, R: Wait>(
    rt: &'a R,
    shared: &Keyed<'a, R>,
    interests: &'a Interests,
) -> Option<SourceRef<KeyedArm<'a, R>>>
    ensures belongs { IfSome result (λ s. s.words ≡ shared.now.words.identity) }
    ensures outside { IfSome result (λ s. s.inside ≡ false) }
{
    let Ok(mut token) = insert(rt, shared, KeyedArm { rt, interests }) else {
        return None;
    };
    let mut cell = shared.enter(rt, &mut token);
    poll_reads(&mut cell);
    shared.leave(&mut token, cell);
    Some(token)
}

/// A source comes, is armed, and stays or goes. Whether nothing was refused.
fn come<'a, R: Wait>(
    rt: &'a R,
    shared: &Keyed<'a, R>,
    interests: &'a Interests,
    stays: bool,
) -> bool {
    match join_and_arm(rt, shared, interests) {
        Some(token) => {
            if stays {
                drop(token);
                true
            } else {
                shared.close_source(rt, token).is_ok()
            }
        }
        None => false,
    }
}

/// So many sources come, are armed, and stay or go, one after the other. How many they were.
fn come_times<'a, R: Wait>(
    rt: &'a R,
    shared: &Keyed<'a, R>,
    interests: &'a Interests,
    stay: bool,
    times: u32,
) -> u32 {
    let mut done: u32 = 0;
    for _ in 0..times {
        if come(rt, shared, interests, stay) {
            done = done.saturating_add(1);
        }
    }
    done
}

/// One thread's sources come and go, while those of another stay.
fn go_beside_those_that_stay<'a, R: Threads + Wait + Sync>(
    rt: &'a R,
    shared: &Keyed<'a, R>,
    interests: &'a Interests,
) -> (u32, u32) {
    join(
        rt,
        move || come_times(rt, shared, interests, false, 300),
        move || come_times(rt, shared, interests, true, 3000),
    )
}

/// The same in a new reactor.
fn go_in_new<'a, R: Threads + Wait + Sync + Abort>(
    rt: &'a R,
    alloc: Global,
    interests: &'a Interests,
) -> (u32, u32) {
    let (shared, member) = new_reactor(rt, alloc, MemWait::new(1), MemNotify::new());
    let came = go_beside_those_that_stay(rt, &shared, interests);
    drop(member);
    drop(shared);
    came
}

#[test]
fn a_source_that_stays_is_armed_though_others_go(rt: HostRuntime) {
    let interests = Interests::none(&rt, rt.alloc(), 4096);
    let came = go_in_new(&rt, rt.alloc(), &interests);
    same(&rt, (interests.count(&rt), came), (3000, (300, 3000)));
}

/// So many sources come and go. How many they were.
fn close_times<R: Wait>(rt: &R, shared: &Sure, times: u32) -> u32 {
    let mut done: u32 = 0;
    for _ in 0..times {
        if join_and_close(rt, shared, SureArm::new(0)) {
            done = done.saturating_add(1);
        }
    }
    done
}

/// How many events a round handled.
fn events_in(answer: Result<ReactedIn, ReactFault>) -> u32 {
    match answer {
        Ok(reacted) => reacted.events,
        Err(_) => 0,
    }
}

/// Makes so many rounds. How many events they handled.
fn react_times<R: Wait + Abort>(
    rt: &R,
    alloc: Global,
    shared: &Sure,
    m: &mut SureMember,
    times: u32,
) -> u32
    requires { IsMemberOf shared.now m.old }
{
    let mut events: u32 = 0;
    for _ in 0..times {
        let answer = react(rt, alloc, shared, m, Some(0));
        events = events.saturating_add(events_in(answer));
    }
    events
}

/// The sources of one thread come and go, while another makes rounds that name their key: how many of each.
pub(crate) fn close_beside_rounds<R: Threads + Wait + Sync + Abort>(
    rt: &R,
    alloc: Global,
    shared: &Sure,
    m: &mut SureMember,
) -> (u32, u32)
    requires { IsMemberOf shared.now m.old }
{
    join(
        rt,
        || close_times(rt, shared, 500),
        || -> u32
            requires { IsMemberOf shared.now m.now }
        { react_times(rt, alloc, shared, m, 500) },
    )
}

#[test]
fn sources_are_closed_beside_rounds_that_visit_them(rt: HostRuntime) {
    at_new(&rt, rt.alloc(), Deed::CloseBesideRounds);
}
