//! What no clause says of sources: that calls succeed with ample memory, and which refusals come.

ghost use Rattle.std.specs.Prelude.{◌≡◌, false};
ghost use Rattle.aio_shared.specs.Members.{IsMemberOf};

use crate::asserts::{MEMORY, ROOM, may_be_sent, may_be_shared, same};
use crate::calls::{insert, new_reactor};
use crate::closing::close_beside_rounds;
use aio_base::{Arm, CountFault, EventWait, Key};
use aio_devices::{FailingArm, MemNotify, MemWait, SureArm, fault_after};
use aio_shared::{InsertFault, Member, RoundCell, Shared, SourceRef};
use std::alloc::Global;
use std::process::Abort;
use std::sync::Wait;
use std::thread::Threads;

/// A reactor whose connections never fail, and whose waits give an event of key 0.
pub(crate) type Sure = Shared<SureArm, MemWait>;

/// The member of such a reactor.
pub(crate) type SureMember = Member<MemNotify, MemWait>;

/// Asserts that a connection joins under this key.
fn join_as<A: Arm + Drop, W: EventWait, R: Wait + Abort>(
    rt: &R,
    shared: &Shared<A, W>,
    io: A,
    key: u32,
) -> SourceRef<A>
    ensures belongs { result.words ≡ shared.now.words.identity }
    ensures outside { result.inside ≡ false }
{
    match insert(rt, shared, io) {
        Ok(token) => {
            same(rt, token.key(), Key(key));
            token
        }
        Err(_) => rt.panic(ROOM),
    }
}

/// Asserts what closing a source answers.
fn close_as<A: Arm + Drop, W: EventWait, R: Wait + Abort>(
    rt: &R,
    shared: &Shared<A, W>,
    token: SourceRef<A>,
    answer: Result<(), CountFault>,
)
    requires belongs { token.words ≡ shared.now.words.identity }
    requires outside { token.inside ≡ false }
{
    same(rt, shared.close_source(rt, token), answer);
}

/// A source joins and leaves. Both may go to other threads.
fn join_and_leave<R: Wait + Abort>(rt: &R, shared: &Sure) {
    may_be_shared::<Sure>();
    may_be_sent::<SourceRef<SureArm>>();
    let token = join_as(rt, shared, SureArm::new(7), 0);
    close_as(rt, shared, token, Ok(()));
}

/// The key of one more source. Its token is let go, and the source stays.
fn next_key<R: Wait>(rt: &R, shared: &Sure) -> Option<Key> {
    match insert(rt, shared, SureArm::new(0)) {
        Ok(token) => {
            let key = token.key();
            drop(token);
            Some(key)
        }
        Err(_) => None,
    }
}

/// Asserts that one more source joins under this key.
fn next_as<R: Wait + Abort>(rt: &R, shared: &Sure, key: u32) {
    same(rt, next_key(rt, shared), Some(Key(key)));
}

/// Sources join, one leaves, and more join: each under the least free key.
fn fill_a_gap<R: Wait + Abort>(rt: &R, shared: &Sure) {
    next_as(rt, shared, 0);
    let second = join_as(rt, shared, SureArm::new(1), 1);
    next_as(rt, shared, 2);
    close_as(rt, shared, second, Ok(()));
    next_as(rt, shared, 1);
    next_as(rt, shared, 3);
}

/// So many connections join, or as many as there is room for. How many did. Their tokens are let go.
fn insert_times<R: Wait>(rt: &R, shared: &Sure, times: u32) -> u32 {
    let mut joined: u32 = 0;
    for _ in 0..times {
        if next_key(rt, shared).is_some() {
            joined = joined.saturating_add(1);
        }
    }
    joined
}

/// Asserts that a reactor has no room for one more source: a connection comes back.
pub(crate) fn assert_full<R: Wait + Abort>(rt: &R, shared: &Sure) {
    match insert(rt, shared, SureArm::new(9)) {
        Ok(_) => rt.panic("a source joined"),
        Err((io, fault)) => same(rt, (io, fault.is_full()), (SureArm::new(9), true)),
    }
}

/// As many sources join as there may be; then one has to leave before another one joins.
fn fill_the_table<R: Wait + Abort>(rt: &R, shared: &Sure) {
    same(rt, insert_times(rt, shared, 4095), 4095);
    let token = join_as(rt, shared, SureArm::new(5), 4095);
    assert_full(rt, shared);
    close_as(rt, shared, token, Ok(()));
    next_as(rt, shared, 4095);
}

/// What is done with the sources of a new reactor.
#[derive(Clone, Copy)]
pub(crate) enum Deed {
    /// One joins and leaves.
    JoinAndLeave,
    /// Some join, one of them leaves, and more join.
    FillAGap,
    /// As many join as there may be.
    FillTheTable,
    /// They come and go, while another thread makes rounds.
    CloseBesideRounds,
}

/// Does this at a reactor, and asserts what comes of it.
fn at<R: Threads + Wait + Sync + Abort>(
    rt: &R,
    alloc: Global,
    shared: &Sure,
    m: &mut SureMember,
    deed: Deed,
)
    requires { IsMemberOf shared.now m.old }
{
    match deed {
        Deed::JoinAndLeave => join_and_leave(rt, shared),
        Deed::FillAGap => fill_a_gap(rt, shared),
        Deed::FillTheTable => fill_the_table(rt, shared),
        Deed::CloseBesideRounds => {
            same(rt, close_beside_rounds(rt, alloc, shared, m), (500, 500));
        }
    }
}

/// Does this at a new reactor, and asserts what comes of it.
pub(crate) fn at_new<R: Threads + Wait + Sync + Abort>(rt: &R, alloc: Global, deed: Deed) {
    let (shared, mut member) = new_reactor(rt, alloc, MemWait::new(1), MemNotify::new());
    at(rt, alloc, &shared, &mut member, deed);
    drop(member);
    drop(shared);
}

#[test]
fn a_source_joins_and_leaves(rt: HostRuntime) {
    at_new(&rt, rt.alloc(), Deed::JoinAndLeave);
}

#[test]
fn a_new_source_has_the_least_free_key(rt: HostRuntime) {
    at_new(&rt, rt.alloc(), Deed::FillAGap);
}

#[test]
fn a_full_table_hands_the_connection_back(rt: HostRuntime) {
    at_new(&rt, rt.alloc(), Deed::FillTheTable);
}

/// Asserts that the first call of a connection fails, which comes back.
fn assert_fails<R: Wait + Abort>(rt: &R, shared: &Shared<FailingArm, MemWait>, io: FailingArm) {
    let number = io.number();
    match insert(rt, shared, io) {
        Ok(_) => rt.panic("a source joined"),
        Err((back, fault)) => {
            let wanted = InsertFault::AddFault(fault_after(0));
            same(rt, (back.number(), fault), (number, wanted));
        }
    }
}

/// A connection of this number, of which this call fails and no other.
fn fails_at(rt: &impl Abort, alloc: Global, number: u64, call: u64) -> FailingArm {
    FailingArm::new(number, vec![in alloc; call].expect(rt, MEMORY))
}

/// Asserts that a connection joins under key 0, and what its closing answers.
fn assert_closes<R: Wait + Abort>(
    rt: &R,
    shared: &Shared<FailingArm, MemWait>,
    io: FailingArm,
    answer: Result<(), CountFault>,
) {
    let token = join_as(rt, shared, io, 0);
    close_as(rt, shared, token, answer);
}

/// Asserts that a connection whose add or whose remove fails leaves key 0 to the next one.
fn leaves_the_key<R: Wait + Abort>(
    rt: &R,
    shared: &Shared<FailingArm, MemWait>,
    io: FailingArm,
    next: FailingArm,
    joins: bool,
) {
    if joins {
        assert_closes(rt, shared, io, Err(fault_after(0)));
    } else {
        assert_fails(rt, shared, io);
    }
    assert_closes(rt, shared, next, Ok(()));
}

/// The same in a new reactor, where this call of the first connection fails, and no call of the next one.
fn leaves_the_first_key<R: Wait + Abort>(rt: &R, alloc: Global, number: u64, call: u64) {
    let io = fails_at(rt, alloc, number, call);
    let next = FailingArm::new(7, Vec::new(alloc));
    let (shared, member) = new_reactor(rt, alloc, MemWait::new(1), MemNotify::new());
    leaves_the_key(rt, &shared, io, next, call > 1);
    drop(member);
    drop(shared);
}

#[test]
fn a_failed_add_is_told_and_leaves_the_key_free(rt: HostRuntime) {
    leaves_the_first_key(&rt, rt.alloc(), 5, 1);
}

#[test]
fn a_failed_remove_is_told_and_leaves_the_key_free(rt: HostRuntime) {
    leaves_the_first_key(&rt, rt.alloc(), 6, 2);
}

#[test]
fn a_reactor_and_its_members_go_to_other_threads() {
    may_be_shared::<Sure>();
    may_be_sent::<SureMember>();
    may_be_sent::<RoundCell<MemWait>>();
}
