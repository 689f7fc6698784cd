//! What no clause says: that a source in a lock stays its owner's, whatever a visit does to it.

ghost use Rattle.std.specs.Prelude.{◌≡◌, []};
ghost use Rattle.aio_rules.specs.SharedLock.{first_owner, took_out};
ghost use Rattle.aio_source.specs.Noting.{cell_note};
ghost use Rattle.aio_lock.specs.Tokens.{owner_of};

use crate::asserts::{MEMORY, same};
use aio_base::{Arm, ArmFault, Dir, Event, Interest, Key, Waker};
use aio_lock::{Lock, Owner};
use aio_script::ScriptPoller;
use aio_source::{Poll, SourceCell, SourceState};
use std::alloc::Global;
use std::process::Abort;
use std::sync::Wait;

/// Handles an event of a cell by the cell's own poller, with room for eight wakers. Its note stays.
fn handle<A: Arm>(
    rt: &impl Abort,
    cell: &mut SourceCell<A>,
    on: Interest,
    round: u64,
    taken: &mut Vec<Waker>,
) -> Result<(), ArmFault>
    ensures { cell_note cell.new.state.key (A.rest cell.new.io)
        ≡ cell_note cell.old.state.key (A.rest cell.old.io) }
{
    let waiting = cell
        .state
        .waiting(Dir::Write)
        .saturating_add(cell.state.waiting(Dir::Read))
        .saturating_add(cell.state.waiting(Dir::Priority));
    assert!(rt; waiting as usize <= taken.capacity() - taken.len());
    let event = Event {
        key: cell.state.key(),
        on,
    };
    cell.state.handle(&mut cell.io, event, round, taken)
}

/// Visits the cell in a lock, and handles an event there.
fn handle_in<A: Arm, R: Wait + Abort>(
    rt: &R,
    lock: &Lock<SourceCell<A>>,
    on: Interest,
    round: u64,
    taken: &mut Vec<Waker>,
) -> Result<(), ArmFault> {
    let (mut cell, visit) = lock.visit(rt);
    let handled = handle(rt, &mut cell, on, round, taken);
    lock.leave(visit, cell);
    handled
}

const KEY: Key = Key(7);

/// A cell whose reader is the eleventh waker.
fn waited_for(rt: &impl Abort, alloc: Global) -> SourceCell<ScriptPoller> {
    let io = ScriptPoller::new(alloc).expect(rt, MEMORY);
    let state = SourceState::new(alloc, KEY);
    let mut cell = SourceCell { state, io };
    let polled = cell.state.poll_dir(&mut cell.io, Dir::Read, Waker(11), 0);
    same(rt, polled.answer, Poll::Pending);
    cell
}

/// Asserts that an event of the first round was handled in the cell.
fn assert_handled(rt: &impl Abort, cell: &SourceCell<ScriptPoller>) {
    let (key, tick) = (cell.state.key(), cell.state.tick(Dir::Read));
    same(
        rt,
        (key, tick, cell.io.armed(KEY)),
        (KEY, 1, Interest::READ),
    );
}

/// Gives such a cell to a lock, visits it there for an event of the first round, and takes it again by the owner.
fn give_visit_and_take<R: Wait + Abort>(
    rt: &R,
    alloc: Global,
    lock: &Lock<SourceCell<ScriptPoller>>,
    owner: &mut Owner,
    taken: &mut Vec<Waker>,
)
    requires { owner.old ≡ owner_of lock.now (took_out [] [] (first_owner [])) }
{
    lock.give(owner, waited_for(rt, alloc));
    same(rt, handle_in(rt, lock, Interest::READ, 1, taken), Ok(()));
    let cell = lock.take(rt, owner);
    assert_handled(rt, &cell);
    lock.give(owner, cell);
}

/// The same with a new lock.
fn visit_in_new<R: Wait + Abort>(rt: &R, alloc: Global, taken: &mut Vec<Waker>) {
    let Ok((lock, mut owner, _other)) = Lock::vacant(alloc) else {
        rt.panic(MEMORY)
    };
    give_visit_and_take(rt, alloc, &lock, &mut owner, taken);
}

#[test]
fn a_visit_leaves_the_cell_that_its_owner_gave(rt: HostRuntime) {
    let mut taken = Vec::with_capacity(rt.alloc(), 8).expect(&rt, MEMORY);
    visit_in_new(&rt, rt.alloc(), &mut taken);
    same(&rt, taken.as_slice(), [Waker(11)].as_slice());
}
