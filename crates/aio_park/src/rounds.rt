//! A thread that does nothing but make rounds of a shared reactor.

ghost use Rattle.std.specs.Prelude.{◌≡◌, ◌≤◌, ℕ, true, IfOk, IfErr};
ghost use Rattle.aio_rules.specs.SharedWords.{blocking};
ghost use Rattle.aio_shared.specs.Cells.{IsIdle};
ghost use Rattle.aio_shared.specs.Members.{IsMemberOf, moved_on};
ghost use Rattle.aio_shared.specs.OneCell.{IsCellOf};
ghost use Rattle.aio_shared.specs.Reacting.{until, start_of};
ghost use Rattle.aio_words.specs.Seats.{IsIdleOrWaits};
ghost use Rattle.aio_park.specs.Blocking.{KeepsThread};
ghost use Rattle.aio_park.specs.Driving.{Drives, DrivesRound, DrivesRounds, DrivesUntilFault, FailsRound, FailsWithin, GainsNone, LooksAfter, Tries};
ghost use Rattle.aio_park.specs.Looks.{WaitsAfterLooks};

use aio_base::{Arm, Clock, EventWait, Notify};
use aio_shared::{Member, ReactFault, ReactedIn, RoundCell, Shared};
use std::sync::Wait;

/// Why `block_on` or `drive` stops before its work is done: a fault of a round, handed on. `Wait`
/// comes only in a reactor that is not sure of its wait, `Arm` only in one that is not sure of its
/// arms, each with two counts that differ or stand at 2^64 - 1. `Notify` comes only where the count
/// of faults of the member's notifier rose, `RoundsSpent` only where the member found the ticker at
/// 2^64 - 1, and `OutOfMemory` where memory ran out.
pub type BlockFault = ReactFault;

/// Makes so many rounds of a reactor, and answers how many events they handled together (`async-io`
/// 2, `driver.rs`, `main_loop`). The call waits until its member has the reactor lock, makes the
/// rounds without a limit in time, and gives the cell back on every answer. A round that an earlier
/// call left running is resumed and counts as one of them. The member's notifier is called exactly
/// as often as its seat won `notified`, on every answer.
///
/// A member that already holds the cell waits for itself. Where the call returns, other threads may
/// be parked with nobody to make rounds for them: the caller knows of them, and hands over by
/// `Shared::wake_other_parkers`. After the fault of an arm a source may be armed no longer until it
/// is polled again: the caller sees to that by `Shared::wake_all_slots`.
///
/// # Errors
///
/// The fault of a round, handed on at once: `Wait`, `Arm` and `Notify` after a round that has
/// ended, `RoundsSpent` where no round can begin any more, `OutOfMemory` with a round that may run
/// on in the cell, which the next call resumes.
pub fn drive<R: Wait, N: Notify, C: Clock, A: Arm, W: EventWait>(
    rt: &R,
    shared: &Shared<A, W>,
    m: &mut Member<N, W>,
    clock: &mut C,
    rounds: u32,
) -> Result<u64, BlockFault>
    requires belongs { IsMemberOf shared.now m.old }
    ensures drives { IfOk result (Drives W N.fault_count shared.now.words.parkers
        shared.now.sure_of_arms
        (until (C.latest clock.new) (start_of C.bounds C.latest W.wait_step clock.old))
        rounds m.old m.new) }
    ensures fails { IfErr result (DrivesUntilFault W N.fault_count shared.now.words.parkers
        shared.now.sure_of_arms
        (until (C.latest clock.new) (start_of C.bounds C.latest W.wait_step clock.old))
        rounds m.old m.new) }
    ensures keeps { KeepsThread N.fault_count N.is_sure N.call_count C.bounds C.latest
        shared.now m.old m.new clock.old clock.new result }
    ensures kept { m.new ≡ record m.old {
      claim = m.new.claim;
      pass = m.new.pass;
      ops = m.new.ops;
      notifier = m.new.notifier;
    } }
    ensures cell { m.new.claim.holds ≡ m.old.claim.holds }
{
    let mut cell = shared.take_round(rt, m);
    let driven = drive_rounds(rt, shared, m, &mut cell, clock, rounds);
    shared.give_round(rt, m, cell);
    driven
}

/// Makes so many rounds with a cell, and answers the sum of their events. The cell is idle
/// afterwards.
fn drive_rounds<R: Wait, N: Notify, C: Clock, A: Arm, W: EventWait>(
    rt: &R,
    shared: &Shared<A, W>,
    m: &mut Member<N, W>,
    cell: &mut RoundCell<W>,
    clock: &mut C,
    rounds: u32,
) -> Result<u64, ReactFault>
    requires belongs { IsMemberOf shared.now m.old }
    requires cell { IsCellOf m.old.claim cell.old }
    requires idle { IsIdle cell.old }
    ensures rounds { IfOk result (DrivesRounds N.fault_count shared.now.words.parkers
        shared.now.sure_of_arms
        (until (C.latest clock.new) (start_of C.bounds C.latest W.wait_step clock.old))
        rounds cell.old cell.new m.old m.new) }
    ensures fails { IfErr result (FailsWithin N.fault_count shared.now.words.parkers
        shared.now.sure_of_arms
        (until (C.latest clock.new) (start_of C.bounds C.latest W.wait_step clock.old))
        rounds cell.old cell.new m.old m.new) }
    ensures keeps { KeepsThread N.fault_count N.is_sure N.call_count C.bounds C.latest
        shared.now m.old m.new clock.old clock.new result }
    ensures idle { IsIdle cell.new }
    ensures kept { m.new ≡ moved_on m.old m.new }
    ensures cell { IsCellOf m.new.claim cell.new }
{
    let mut events = 0;
    for _ in 0..rounds {
        match drive_round(rt, shared, m, cell, clock) {
            Err(fault) => return Err(fault),
            Ok(handled) => events += handled as u64,
        }
    }
    Ok(events)
}

/// Makes one round with a cell, and answers how many events it handled. A try that comes to nothing
/// is none: it tries again.
fn drive_round<R: Wait, N: Notify, C: Clock, A: Arm, W: EventWait>(
    rt: &R,
    shared: &Shared<A, W>,
    m: &mut Member<N, W>,
    cell: &mut RoundCell<W>,
    clock: &mut C,
) -> Result<u32, ReactFault>
    requires belongs { IsMemberOf shared.now m.old }
    requires cell { IsCellOf m.old.claim cell.old }
    requires idle { IsIdle cell.old }
    ensures round { IfOk result (DrivesRound N.fault_count shared.now.words.parkers
        shared.now.sure_of_arms
        (until (C.latest clock.new) (start_of C.bounds C.latest W.wait_step clock.old))
        cell.old cell.new m.old m.new) }
    ensures fails { IfErr result (FailsRound N.fault_count shared.now.words.parkers
        shared.now.sure_of_arms
        (until (C.latest clock.new) (start_of C.bounds C.latest W.wait_step clock.old))
        cell.old cell.new m.old m.new) }
    ensures few { IfOk result (λ events. events ≤ 1024) }
    ensures keeps { KeepsThread N.fault_count N.is_sure N.call_count C.bounds C.latest
        shared.now m.old m.new clock.old clock.new result }
    ensures idle { IsIdle cell.new }
    ensures kept { m.new ≡ moved_on m.old m.new }
    ensures cell { IsCellOf m.new.claim cell.new }
{
    for _ in rt.forever() {
        match react_once(rt, shared, m, cell, clock, None) {
            Err(fault) => return Err(fault),
            Ok(Some(reacted)) => return Ok(reacted.events),
            Ok(None) => {}
        }
    }
    unreachable!()
}

/// A call of `react_in`. Where that answers that no round can begin, the member looks at the
/// ticker; where it finds less than its end, that call is as if it had not been made, and `None` is
/// answered.
pub(crate) fn react_once<R: Wait, N: Notify, C: Clock, A: Arm, W: EventWait>(
    rt: &R,
    shared: &Shared<A, W>,
    m: &mut Member<N, W>,
    cell: &mut RoundCell<W>,
    clock: &mut C,
    limit: Option<u64>,
) -> Result<Option<ReactedIn>, ReactFault>
    requires belongs { IsMemberOf shared.now m.old }
    requires cell { IsCellOf m.old.claim cell.old }
    requires seat { IsIdleOrWaits cell.old.seat }
    ensures tries { Tries shared.now.words.parkers shared.now.sure_of_arms
        (record (until (C.latest clock.new) (start_of C.bounds C.latest W.wait_step clock.old))
        { given = limit })
        cell.old cell.new m.old m.new
        (record { before = N.fault_count m.old.notifier; after = N.fault_count m.new.notifier })
        result }
    ensures keeps { KeepsThread N.fault_count N.is_sure N.call_count C.bounds C.latest
        shared.now m.old m.new clock.old clock.new result }
    ensures took { GainsNone m.old.pass.view m.new.pass.view }
    ensures seat { cell.new.seat.view.mode ≡ blocking cell.old.seat.view.mode }
    ensures looks { (parker : ℕ)
        → WaitsAfterLooks parker true cell.old.seat.view cell.new.seat.view }
    ensures kept { m.new ≡ moved_on m.old m.new }
    ensures cell { IsCellOf m.new.claim cell.new }
{
    match shared.react_in(rt, m, cell, clock, limit) {
        Ok(reacted) => Ok(Some(reacted)),
        Err(fault) => after_fault(shared, m, fault),
    }
}

/// What `react_once` answers after this fault. Where the fault is that no round can begin, the
/// member looks at the ticker first.
fn after_fault<N: Notify, A: Arm, W: EventWait>(
    shared: &Shared<A, W>,
    m: &mut Member<N, W>,
    fault: ReactFault,
) -> Result<Option<ReactedIn>, ReactFault>
    requires { IsMemberOf shared.now m.old }
    ensures { LooksAfter fault m.old m.new result }
{
    match fault {
        ReactFault::RoundsSpent => {
            if shared.words().ticker(m.words_pass()) == u64::MAX {
                return Err(fault);
            }
            Ok(None)
        }
        _ => Err(fault),
    }
}
