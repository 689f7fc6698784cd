//! What no clause says of the wakes by which a thread hands over: which slots of three parkers are woken, also
//! where the notifier fails, and that the last slot of as many parkers as there may be is one of them.

ghost use Rattle.std.specs.Prelude.{◌≡◌, ◌<◌, ◌≤◌, if◌then◌else◌};
ghost use Rattle.aio_rules.specs.declared.seats.Mode.TheVariants as mode;
ghost use Rattle.aio_words.specs.Seats.{Belongs};
ghost use Rattle.aio_shared.specs.Members.{IsMemberOf};
ghost use Rattle.aio_shared.specs.OneCell.{IsCellOf};

use crate::asserts::{MEMORY, same};
use aio_base::{Arm, CountFault, EventWait, Notify, Waker};
use aio_devices::{FailingNotify, MemNotify, MemWait, SureArm, fault_after};
use aio_shared::{Inside, Member, RoundCell, Shared};
use aio_words::{Pass, RoundSeat, Words};
use std::alloc::Global;
use std::process::Abort;
use std::sync::{Arc, Wait};

/// The first way into a new reactor of so many parkers over this wait, with this notifier.
fn enter_inside<R: Wait + Abort + Copy, N: Notify + Drop, A: Arm + Drop, W: EventWait + Drop>(
    rt: R,
    alloc: Global,
    parkers: u32,
    devices: (W, N),
) -> Inside<R, N, A, W>
    requires { (1 ≤ parkers) × (parkers ≤ 16) }
    ensures number { result.member.ops.number ≡ 0 }
    ensures parkers { result.shared.words.parkers ≡ parkers }
{
    let (wait, notifier) = devices;
    match Shared::new(alloc, parkers, wait, notifier) {
        Ok((shared, member)) => match Arc::new(alloc, shared) {
            Ok(shared) => Inside { rt, shared, member },
            Err(_) => rt.panic(MEMORY),
        },
        Err(_) => rt.panic(MEMORY),
    }
}

/// Blocks parker 0 and looks at its mask. Whether the seat waits now: then the look found no woken slot. Else
/// it blocks.
fn waits_for_first(words: &Words, seat: &mut RoundSeat) -> bool
    requires { Belongs words.now seat.old × (seat.old.view.mode ≡ mode.Idle) × (0 < words.now.parkers) }
    ensures words { seat.new.words ≡ seat.old.words }
    ensures mode { seat.new.view.mode ≡ (if result then mode.Wait 0 else mode.Block 0) }
{
    words.block(seat, 0);
    words.take_or_wait(seat).is_none()
}

/// Unblocks parker 0.
fn unblock_first(words: &Words, seat: &mut RoundSeat)
    requires belongs { Belongs words.now seat.old }
    requires blocks { seat.old.view.mode ≡ mode.Block 0 }
    ensures words { seat.new.words ≡ seat.old.words }
    ensures idle { seat.new.view.mode ≡ mode.Idle }
{
    words.unblock(seat);
}

/// A way into a reactor whose notifier fails.
type Untold<R> = Inside<R, FailingNotify, SureArm, MemWait>;

/// Takes the masks of the first three parkers.
fn masks<R: Wait, N: Notify, A: Arm, W: EventWait>(host: &mut Inside<R, N, A, W>) -> [u64; 3]
    requires { 2 < host.old.shared.words.parkers }
    ensures { host.new.shared ≡ host.old.shared }
{
    let words = host.shared.words();
    let pass = host.member.words_pass();
    [
        words.take(pass, 0),
        words.take(pass, 1),
        words.take(pass, 2),
    ]
}

/// Wakes every slot where the seat waits for parker 0 then, and leaves the seat blocking it. `None` where it does
/// not wait.
fn wake_where_waiting<N: Notify, A: Arm, W: EventWait>(
    shared: &Shared<A, W>,
    m: &mut Member<N, W>,
    cell: &mut RoundCell<W>,
) -> Option<Result<(), CountFault>>
    requires parker { 0 < shared.now.words.parkers }
    requires member { IsMemberOf shared.now m.old }
    requires cell { IsCellOf m.old.claim cell.old }
    requires idle { cell.old.seat.view.mode ≡ mode.Idle }
    ensures member { IsMemberOf shared.now m.new }
    ensures claim { m.new.claim ≡ m.old.claim }
    ensures cell { IsCellOf m.new.claim cell.new }
    ensures blocks { cell.new.seat.view.mode ≡ mode.Block 0 }
{
    if !waits_for_first(shared.words(), cell.seat()) {
        return None;
    }
    let told = shared.wake_all_slots(m);
    shared.words().waited(cell.seat());
    Some(told)
}

/// Takes the round cell, wakes every slot in a wait, and gives the cell back.
fn wake_in_a_wait<R: Wait, N: Notify, A: Arm, W: EventWait>(
    host: &mut Inside<R, N, A, W>,
) -> Option<Result<(), CountFault>>
    requires { 0 < host.old.shared.words.parkers }
    ensures { host.new.shared ≡ host.old.shared }
{
    let mut cell = host.shared.take_round(&host.rt, &mut host.member);
    let told = wake_where_waiting(&host.shared, &mut host.member, &mut cell);
    unblock_first(host.shared.words(), cell.seat());
    host.shared.give_round(&host.rt, &mut host.member, cell);
    told
}

/// The masks once the member of parker 1 handed over, and once it woke every slot; what that answers in a wait,
/// and the masks after it.
fn found<R: Wait, N: Notify, A: Arm, W: EventWait>(
    host: &mut Inside<R, N, A, W>,
) -> ([[u64; 3]; 3], Option<Result<(), CountFault>>)
    requires { 2 < host.old.shared.words.parkers }
{
    let _not_called = host.shared.wake_other_parkers(&mut host.member, 1);
    let others = masks(host);
    let _not_called = host.shared.wake_all_slots(&mut host.member);
    let all = masks(host);
    let told = wake_in_a_wait(host);
    ([others, all, masks(host)], told)
}

/// The same in a new reactor of three parkers.
fn found_in_new<R: Wait + Abort + Copy>(
    rt: R,
    alloc: Global,
) -> ([[u64; 3]; 3], Option<Result<(), CountFault>>) {
    let devices = (MemWait::new(0), FailingNotify::new());
    let mut host: Untold<R> = enter_inside(rt, alloc, 3, devices);
    let found = found(&mut host);
    drop(host);
    found
}

#[test]
fn a_thread_wakes_the_other_parkers_or_all_slots_though_it_cannot_tell(rt: HostRuntime) {
    let wanted = [[1, 0, 1], [u64::MAX; 3], [u64::MAX; 3]];
    let found = found_in_new(&rt, rt.alloc());
    same(&rt, found, (wanted, Some(Err(fault_after(0)))));
}

/// Wakes the last slot of the last of 16 parkers, and takes the mask of that parker.
fn wake_last(words: &Words, p: &mut Pass) -> Option<u64>
    requires { Belongs words.now p.old × (15 < words.now.parkers) }
    ensures { p.new.words ≡ p.old.words }
{
    let told = words.wake(p, Waker(16 * 64 - 1), &mut MemNotify::new());
    if told.is_err() || words.take(p, 14) != 0 {
        return None;
    }
    Some(words.take(p, 15))
}

/// The same in a new reactor.
fn wake_last_of_new<R: Wait + Abort + Copy>(rt: R, alloc: Global) -> Option<u64> {
    let devices = (MemWait::new(0), MemNotify::new());
    let mut host: Inside<R, MemNotify, SureArm, MemWait> = enter_inside(rt, alloc, 16, devices);
    let inside = &mut host;
    let found = wake_last(inside.shared.words(), inside.member.words_pass());
    drop(host);
    found
}

#[test]
fn the_last_slot_of_the_last_of_16_parkers_is_woken(rt: HostRuntime) {
    same(&rt, wake_last_of_new(&rt, rt.alloc()), Some(1 << 63));
}
