//! A thread that polls a task until it ends, and makes rounds of a shared reactor in between.

ghost use Rattle.std.specs.Prelude.{◌≡◌, false, ℕ, ◌+◌, ◌<◌, ◌≤◌, [], ◌∷◌, length, Err, IfOk, IfErr, OnErr};
ghost use Rattle.aio_rules.specs.declared.seats.Mode.TheVariants as mode;
ghost use Rattle.aio_rules.specs.declared.seats.WordStep.TheVariants as word_step;
ghost use Rattle.aio_shared.specs.Cells.{IsIdle};
ghost use Rattle.aio_shared.specs.Inside.{IsLaterInside};
ghost use Rattle.aio_shared.specs.Members.{IsLaterMember, IsMemberOf};
ghost use Rattle.aio_shared.specs.OneCell.{IsCellOf};
ghost use Rattle.aio_shared.specs.Reacting.{until, start_of};
ghost use Rattle.aio_words.specs.Seats.{Blocks};
ghost use Rattle.aio_park.specs.Blocking.{Gains, GainsOneAtMost, HasFaultCause, IsPast, KeepsThread, PolledUntil, gained, mask_list, taken_of};
ghost use Rattle.aio_park.specs.Driving.{GainsNone, ParksFor, Passes, ReactsAtOnce, ReactsBlocked, SwapsFirst, TakesTurns, TriesBlocked, TriesUntil, TurnsOver, Waits, member_did};
ghost use Rattle.aio_park.specs.Looks.{BlocksWhile, HasSeenWoken, WaitsAfterLooks};
ghost use Rattle.aio_park.specs.Polls.{Polled};

use crate::rounds::{BlockFault, react_once};
use aio_base::{Arm, Clock, Cx, EventWait, Notify, Poll, Task};
use aio_shared::{Inside, Member, ReactFault, RoundCell, Shared};
use std::sync::Wait;

/// Polls a task until it ends, and answers its output (`async-io` 2, `driver.rs`, `block_on`). The
/// first poll comes at once, with a mask of all ones. Each later one comes after the thread took
/// woken slots of its parker: those are its mask. In between the thread makes rounds where it has
/// the reactor lock by a try, and parks where it has not. The clock is read once just before each
/// poll.
///
/// Between two polls the thread takes exactly one mask that is not 0, and the next poll has it
/// (`polled`): no woken slots that it took are let go. It does so in turns, each of which swaps the
/// mask first, and then makes rounds or parks. At a fault it took one mask at most since the last
/// poll, and the fault is the one that the last round of its last turn told.
///
/// An output is one that the task allows at each moment past which the clock answers none
/// (`output`): at 10^18 nanoseconds (`past_end`), and at the greatest moment that the clock tells
/// (`at_greatest`). After a fault the task allows at none of them what it did not allow before
/// (`pending`), so that a further call can go on.
///
/// A member that already holds the round cell never has the lock, so it parks, for ever where
/// nobody else makes rounds. Where the call returns, by an answer or by a fault, other threads may
/// be parked with nobody to make rounds for them: the caller knows of them, and hands over by
/// `Shared::wake_other_parkers`. After the fault of an arm a source may be armed no longer until it
/// is polled again: the caller sees to that by `Shared::wake_all_slots`.
///
/// # Errors
///
/// The fault of a round, handed on once the round seat is idle and the cell given back. The task is
/// as its last poll left it, so a further call may go on with it. After `OutOfMemory` a round may
/// run on in the cell, which the next one that makes a round resumes.
pub fn block_on<
    R: Wait + Copy,
    N: Notify,
    C: Clock,
    A: Arm,
    W: EventWait,
    T: Task<Inside<R, N, A, W>>,
>(
    host: &mut Inside<R, N, A, W>,
    parker: u32,
    clock: &mut C,
    task: &mut T,
) -> Result<T::Output, BlockFault>
    requires { parker < host.old.shared.words.parkers }
    ensures output { IfOk result (λ output.
        (moment : ℕ) → IsPast (C.bounds clock.old) moment
        → T.gives task.old (N.is_sure host.old.member.notifier) moment output) }
    ensures polled { PolledUntil T.poll_step
        (TurnsOver W N.fault_count W.wait_step host.old.shared parker) parker
        (record {
          bounds = C.bounds clock.old;
          before = C.latest clock.old;
          after = C.latest clock.new;
        })
        task.old host.old result task.new host.new }
    ensures polls { T.poll_count task.new ≤ T.poll_count task.old
        + length (taken_of parker (gained host.old.member.pass.view host.new.member.pass.view)) + 1 }
    ensures pending { OnErr result ((moment : ℕ) (output : T.Output)
        → IsPast (C.bounds clock.old) moment
        → T.gives task.new (N.is_sure host.old.member.notifier) moment output
        → T.gives task.old (N.is_sure host.old.member.notifier) moment output) }
    ensures cause { IfErr result (HasFaultCause N.fault_count N.is_sure
        host.old.member host.new.member) }
    ensures cell { host.new.member.claim.holds ≡ host.old.member.claim.holds }
    ensures later { IsLaterInside N.fault_count N.is_sure host.old host.new }
    ensures bounds { C.bounds clock.new ≡ C.bounds clock.old }
    ensures latest { C.latest clock.old ≤ C.latest clock.new }
{
    let rt = host.rt;
    let mut mask = u64::MAX;
    for _ in rt.forever() {
        match poll_once(host, parker, mask, clock, task) {
            Poll::Ready(output) => return Ok(output),
            Poll::Pending => {}
        }
        match next_mask(host, parker, clock) {
            Err(stop) => return Err(stop),
            Ok(found) => mask = found,
        }
    }
    unreachable!()
}

/// Polls the task once, at one reading of the clock.
pub(crate) fn poll_once<
    R: Wait,
    N: Notify,
    C: Clock,
    A: Arm,
    W: EventWait,
    T: Task<Inside<R, N, A, W>>,
>(
    host: &mut Inside<R, N, A, W>,
    parker: u32,
    mask: u64,
    clock: &mut C,
    task: &mut T,
) -> Poll<T::Output>
    ensures polled { Polled T.poll_step T.gives parker mask
        (record {
          bounds = C.bounds clock.old;
          before = C.latest clock.old;
          after = C.latest clock.new;
        })
        (N.is_sure host.old.member.notifier) task.old host.old result task.new host.new }
    ensures polls { T.poll_count task.new ≤ T.poll_count task.old + 1 }
    ensures later { IsLaterInside N.fault_count N.is_sure host.old host.new }
    ensures bounds { C.bounds clock.new ≡ C.bounds clock.old }
    ensures latest { C.latest clock.old ≤ C.latest clock.new }
{
    let now = clock.now();
    let _bound = now.get();
    task.poll(host, Cx { parker, mask, now })
}

/// The next woken slots of the parker, whose thread makes rounds or parks until there are some.
fn next_mask<R: Wait + Copy, N: Notify, C: Clock, A: Arm, W: EventWait>(
    host: &mut Inside<R, N, A, W>,
    parker: u32,
    clock: &mut C,
) -> Result<u64, ReactFault>
    requires { parker < host.old.shared.words.parkers }
    ensures took { IfOk result (λ mask.
        Gains parker host.old.member.pass.view host.new.member.pass.view (mask ∷ [])) }
    ensures most { OnErr result
        (GainsOneAtMost parker host.old.member.pass.view host.new.member.pass.view) }
    ensures turns { TakesTurns W N.fault_count host.old.shared.words.parkers
        host.old.shared.sure_of_arms
        (until (C.latest clock.new) (start_of C.bounds C.latest W.wait_step clock.old))
        parker host.old.member host.new.member result }
    ensures shared { host.new.shared ≡ host.old.shared }
    ensures keeps { KeepsThread N.fault_count N.is_sure N.call_count C.bounds C.latest
        host.old.shared host.old.member host.new.member clock.old clock.new result }
{
    next_mask_of(&host.rt, &host.shared, &mut host.member, clock, parker)
}

/// Turns until one took woken slots.
fn next_mask_of<R: Wait, N: Notify, C: Clock, A: Arm, W: EventWait>(
    rt: &R,
    shared: &Shared<A, W>,
    m: &mut Member<N, W>,
    clock: &mut C,
    parker: u32,
) -> Result<u64, ReactFault>
    requires belongs { IsMemberOf shared.now m.old }
    requires parker { parker < shared.now.words.parkers }
    ensures took { IfOk result (λ mask. Gains parker m.old.pass.view m.new.pass.view (mask ∷ [])) }
    ensures most { OnErr result (GainsOneAtMost parker m.old.pass.view m.new.pass.view) }
    ensures turns { TakesTurns W N.fault_count shared.now.words.parkers shared.now.sure_of_arms
        (until (C.latest clock.new) (start_of C.bounds C.latest W.wait_step clock.old))
        parker m.old m.new result }
    ensures keeps { KeepsThread N.fault_count N.is_sure N.call_count C.bounds C.latest
        shared.now m.old m.new clock.old clock.new result }
{
    for _ in rt.forever() {
        match turn(rt, shared, m, clock, parker) {
            Err(fault) => return Err(fault),
            Ok(mask) => {
                if mask != 0 {
                    return Ok(mask);
                }
            }
        }
    }
    unreachable!()
}

/// One turn: takes the parker's woken slots. Where there are some, it makes a round that does not
/// wait, if it has the reactor lock; where there are none, it waits for some. The slots that it
/// took, or 0.
fn turn<R: Wait, N: Notify, C: Clock, A: Arm, W: EventWait>(
    rt: &R,
    shared: &Shared<A, W>,
    m: &mut Member<N, W>,
    clock: &mut C,
    parker: u32,
) -> Result<u64, ReactFault>
    requires belongs { IsMemberOf shared.now m.old }
    requires parker { parker < shared.now.words.parkers }
    ensures swaps { SwapsFirst W N.fault_count shared.now.words.parkers shared.now.sure_of_arms
        (until (C.latest clock.new) (start_of C.bounds C.latest W.wait_step clock.old))
        parker m.old m.new result }
    ensures took { IfOk result (λ mask.
        Gains parker m.old.pass.view m.new.pass.view (mask_list mask)) }
    ensures most { OnErr result (GainsOneAtMost parker m.old.pass.view m.new.pass.view) }
    ensures keeps { KeepsThread N.fault_count N.is_sure N.call_count C.bounds C.latest
        shared.now m.old m.new clock.old clock.new result }
{
    let mask = take(shared, m, parker);
    if mask == 0 {
        return wait_for_slots(rt, shared, m, clock, parker);
    }
    match react_in_passing(rt, shared, m, clock) {
        Err(fault) => Err(fault),
        Ok(()) => Ok(mask),
    }
}

/// The woken slots of the parker, by one swap of the member.
fn take<N: Notify, A: Arm, W: EventWait>(
    shared: &Shared<A, W>,
    m: &mut Member<N, W>,
    parker: u32,
) -> u64
    requires belongs { IsMemberOf shared.now m.old }
    requires parker { parker < shared.now.words.parkers }
    ensures swapped { m.new ≡ member_did (word_step.SwapMask parker result) m.old }
    ensures took { Gains parker m.old.pass.view m.new.pass.view (mask_list result) }
    ensures belongs { IsMemberOf shared.now m.new }
    ensures later { IsLaterMember N.fault_count N.is_sure m.old m.new }
{
    shared.words().take(m.words_pass(), parker)
}

/// A round with the limit 0, where the member has the reactor lock by a try.
fn react_in_passing<R: Wait, N: Notify, C: Clock, A: Arm, W: EventWait>(
    rt: &R,
    shared: &Shared<A, W>,
    m: &mut Member<N, W>,
    clock: &mut C,
) -> Result<(), ReactFault>
    requires belongs { IsMemberOf shared.now m.old }
    ensures passes { IfOk result (λ none. Passes W N.fault_count shared.now.words.parkers
        shared.now.sure_of_arms
        (until (C.latest clock.new) (start_of C.bounds C.latest W.wait_step clock.old))
        m.old m.new) }
    ensures fails { IfErr result (λ fault. ReactsAtOnce W N.fault_count shared.now.words.parkers
        shared.now.sure_of_arms
        (until (C.latest clock.new) (start_of C.bounds C.latest W.wait_step clock.old))
        m.old m.new (Err fault)) }
    ensures took { GainsNone m.old.pass.view m.new.pass.view }
    ensures keeps { KeepsThread N.fault_count N.is_sure N.call_count C.bounds C.latest
        shared.now m.old m.new clock.old clock.new result }
{
    match shared.try_round(rt, m) {
        None => Ok(()),
        Some(mut cell) => {
            let reacted = react_once(rt, shared, m, &mut cell, clock, Some(0));
            shared.give_round(rt, m, cell);
            match reacted {
                Err(fault) => Err(fault),
                Ok(_) => Ok(()),
            }
        }
    }
}

/// Waits until slots of the parker are woken: by rounds, where the member has the reactor lock by a
/// try, else parked. The slots that it took then, or 0.
fn wait_for_slots<R: Wait, N: Notify, C: Clock, A: Arm, W: EventWait>(
    rt: &R,
    shared: &Shared<A, W>,
    m: &mut Member<N, W>,
    clock: &mut C,
    parker: u32,
) -> Result<u64, ReactFault>
    requires belongs { IsMemberOf shared.now m.old }
    requires parker { parker < shared.now.words.parkers }
    ensures waits { IfOk result (λ mask. Waits W N.fault_count shared.now.words.parkers
        shared.now.sure_of_arms
        (until (C.latest clock.new) (start_of C.bounds C.latest W.wait_step clock.old))
        parker mask m.old m.new) }
    ensures fails { IfErr result (λ fault. ReactsBlocked W N.fault_count shared.now.words.parkers
        shared.now.sure_of_arms
        (until (C.latest clock.new) (start_of C.bounds C.latest W.wait_step clock.old))
        parker m.old m.new (Err fault)) }
    ensures took { IfOk result (λ mask.
        Gains parker m.old.pass.view m.new.pass.view (mask_list mask)) }
    ensures none { OnErr result (GainsNone m.old.pass.view m.new.pass.view) }
    ensures keeps { KeepsThread N.fault_count N.is_sure N.call_count C.bounds C.latest
        shared.now m.old m.new clock.old clock.new result }
{
    match shared.try_round(rt, m) {
        None => Ok(park(rt, shared, m, parker)),
        Some(mut cell) => {
            let reacted = react_blocking(rt, shared, m, &mut cell, clock, parker);
            shared.give_round(rt, m, cell);
            match reacted {
                Err(fault) => Err(fault),
                Ok(()) => Ok(take(shared, m, parker)),
            }
        }
    }
}

/// The woken slots of the parker, once there are some.
fn park<R: Wait, N: Notify, A: Arm, W: EventWait>(
    rt: &R,
    shared: &Shared<A, W>,
    m: &mut Member<N, W>,
    parker: u32,
) -> u64
    requires belongs { IsMemberOf shared.now m.old }
    requires parker { parker < shared.now.words.parkers }
    ensures parks { ParksFor parker result m.old m.new }
    ensures took { Gains parker m.old.pass.view m.new.pass.view (mask_list result) }
    ensures belongs { IsMemberOf shared.now m.new }
    ensures later { IsLaterMember N.fault_count N.is_sure m.old m.new }
{
    shared.words().park(rt, m.words_pass(), parker)
}

/// Says that the parker's thread is about to wait, makes rounds until slots of it are woken, and
/// says that it waits no longer, also after a fault.
fn react_blocking<R: Wait, N: Notify, C: Clock, A: Arm, W: EventWait>(
    rt: &R,
    shared: &Shared<A, W>,
    m: &mut Member<N, W>,
    cell: &mut RoundCell<W>,
    clock: &mut C,
    parker: u32,
) -> Result<(), ReactFault>
    requires belongs { IsMemberOf shared.now m.old }
    requires cell { IsCellOf m.old.claim cell.old }
    requires idle { IsIdle cell.old }
    requires parker { parker < shared.now.words.parkers }
    ensures blocks { BlocksWhile parker cell.old.seat.view cell.new.seat.view result }
    ensures tries { TriesBlocked N.fault_count shared.now.words.parkers shared.now.sure_of_arms
        (until (C.latest clock.new) (start_of C.bounds C.latest W.wait_step clock.old))
        parker result cell.old cell.new m.old m.new }
    ensures took { GainsNone m.old.pass.view m.new.pass.view }
    ensures keeps { KeepsThread N.fault_count N.is_sure N.call_count C.bounds C.latest
        shared.now m.old m.new clock.old clock.new result }
    ensures idle { IsIdle cell.new }
    ensures claim { m.new.claim ≡ m.old.claim }
    ensures cell { IsCellOf m.new.claim cell.new }
{
    shared.words().block(cell.seat(), parker);
    let reacted = react_until_woken(rt, shared, m, cell, clock);
    shared.words().unblock(cell.seat());
    reacted
}

/// Makes rounds until slots of the parker that the cell's seat blocks are woken. Before each round
/// the seat looks at the mask, so that it waits only where no slot is woken; it blocks the same
/// parker again on every answer.
///
/// It looks after it blocks, and anew before each wait, since only a wake that comes after it blocks calls
/// the notifier: one that came before is in the mask, and would not end the wait.
fn react_until_woken<R: Wait, N: Notify, C: Clock, A: Arm, W: EventWait>(
    rt: &R,
    shared: &Shared<A, W>,
    m: &mut Member<N, W>,
    cell: &mut RoundCell<W>,
    clock: &mut C,
) -> Result<(), ReactFault>
    requires belongs { IsMemberOf shared.now m.old }
    requires cell { IsCellOf m.old.claim cell.old }
    requires blocks { Blocks cell.old.seat }
    ensures looks { (parker : ℕ) → cell.old.seat.view.mode ≡ mode.Block parker
        → WaitsAfterLooks parker false cell.old.seat.view cell.new.seat.view }
    ensures woken { IfOk result (λ none. (parker : ℕ)
        → cell.old.seat.view.mode ≡ mode.Block parker
        → HasSeenWoken parker cell.new.seat.view) }
    ensures tries { (parker : ℕ) → cell.old.seat.view.mode ≡ mode.Block parker
        → TriesUntil N.fault_count shared.now.words.parkers shared.now.sure_of_arms
        (until (C.latest clock.new) (start_of C.bounds C.latest W.wait_step clock.old))
        parker result cell.old cell.new m.old m.new }
    ensures took { GainsNone m.old.pass.view m.new.pass.view }
    ensures keeps { KeepsThread N.fault_count N.is_sure N.call_count C.bounds C.latest
        shared.now m.old m.new clock.old clock.new result }
    ensures mode { cell.new.seat.view.mode ≡ cell.old.seat.view.mode }
    ensures claim { m.new.claim ≡ m.old.claim }
    ensures cell { IsCellOf m.new.claim cell.new }
{
    for _ in rt.forever() {
        match shared.words().take_or_wait(cell.seat()) {
            Some(_) => return Ok(()),
            None => {}
        }
        match react_once(rt, shared, m, cell, clock, None) {
            Err(fault) => return Err(fault),
            Ok(_) => {}
        }
    }
    unreachable!()
}
