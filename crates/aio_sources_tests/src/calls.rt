//! Calls on a reactor, as these tests make them.

ghost use Rattle.std.specs.Prelude.{◌≡◌, false, IfOk};
ghost use Rattle.aio_shared.specs.Cells.{IsIdle};
ghost use Rattle.aio_shared.specs.Members.{IsMemberOf};
ghost use Rattle.aio_shared.specs.OneCell.{IsCellOf};

use crate::asserts::MEMORY;
use aio_base::{Arm, Clock, EventWait, Moment, Notify};
use aio_devices::{MemClock, clock_at};
use aio_shared::{InsertFault, Member, ReactFault, ReactedIn, RoundCell, Shared, SourceRef};
use std::alloc::Global;
use std::process::Abort;
use std::sync::Wait;

/// A new reactor for one parker over this wait, and its first member, with this notifier.
pub(crate) fn new_reactor<A: Arm + Drop, N: Notify + Drop, W: EventWait + Drop>(
    rt: &impl Abort,
    alloc: Global,
    wait: W,
    notifier: N,
) -> (Shared<A, W>, Member<N, W>)
    ensures { IsMemberOf result.0 result.1 }
{
    match Shared::new(alloc, 1, wait, notifier) {
        Ok(made) => made,
        Err(_) => rt.panic(MEMORY),
    }
}

/// A clock that stands at 5 ns.
fn clock(rt: &impl Abort, alloc: Global) -> MemClock {
    let now = Moment::new(5).expect(rt, "a moment");
    clock_at(alloc, now).expect(rt, MEMORY)
}

/// Reacts by the round cell, which the thread has. Of what that promises it tells what the cell needs to be given
/// back.
fn react_by<R: Wait, N: Notify, C: Clock, A: Arm, W: EventWait>(
    rt: &R,
    shared: &Shared<A, W>,
    m: &mut Member<N, W>,
    cell: &mut RoundCell<W>,
    clock: &mut C,
    limit: Option<u64>,
) -> Result<ReactedIn, ReactFault>
    requires member { IsMemberOf shared.now m.old }
    requires cell { IsCellOf m.old.claim cell.old }
    requires idle { IsIdle cell.old }
    ensures member { IsMemberOf shared.now m.new }
    ensures claim { m.new.claim ≡ m.old.claim }
    ensures cell { IsCellOf m.new.claim cell.new }
    ensures idle { IsIdle cell.new }
{
    shared.react_in(rt, m, cell, clock, limit)
}

/// Takes the round cell as soon as it is there, reacts with this limit by a clock that stands still, and gives the
/// cell back.
pub(crate) fn react<R: Wait + Abort, N: Notify, A: Arm, W: EventWait>(
    rt: &R,
    alloc: Global,
    shared: &Shared<A, W>,
    m: &mut Member<N, W>,
    limit: Option<u64>,
) -> Result<ReactedIn, ReactFault>
    requires { IsMemberOf shared.now m.old }
    ensures { IsMemberOf shared.now m.new }
{
    let mut clock = clock(rt, alloc);
    let mut cell = shared.take_round(rt, m);
    let answer = react_by(rt, shared, m, &mut cell, &mut clock, limit);
    shared.give_round(rt, m, cell);
    drop(clock);
    answer
}

/// A connection joins, or comes back with the reason why it was refused.
pub(crate) fn insert<R: Wait, A: Arm + Drop, W: EventWait>(
    rt: &R,
    shared: &Shared<A, W>,
    io: A,
) -> Result<SourceRef<A>, (A, InsertFault)>
    ensures belongs { IfOk result (λ s. s.words ≡ shared.now.words.identity) }
    ensures outside { IfOk result (λ s. s.inside ≡ false) }
{
    let mut sources = shared.sources(rt);
    sources.insert(io)
}

/// A connection joins and is closed. Whether nothing was refused.
pub(crate) fn join_and_close<R: Wait, A: Arm + Drop, W: EventWait>(
    rt: &R,
    shared: &Shared<A, W>,
    io: A,
) -> bool {
    match insert(rt, shared, io) {
        Ok(token) => shared.close_source(rt, token).is_ok(),
        Err(_) => false,
    }
}
