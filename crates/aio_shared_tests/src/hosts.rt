//! A thread's way into a reactor, as these tests use it.

ghost use Rattle.std.specs.Prelude.{◌≡◌, ◌<◌, ◌≤◌};
ghost use Rattle.aio_shared.specs.Cells.{IsIdle};
ghost use Rattle.aio_shared.specs.OneCell.{IsCellOf};

use crate::acts::{Came, resumed};
use crate::asserts::MEMORY;
use aio_base::{
    Arm, CountFault, EventWait, Host, InsertRefusal, Moment, Notify, OutOfMemory, TimerHost,
    TimerId, Waker,
};
use aio_devices::{MemClock, MemNotify, SureArm, clock_at};
use aio_shared::{Inside, ReactFault, ReactedIn, RoundCell, Shared};
use aio_source::InHand;
use std::alloc::Global;
use std::process::Abort;
use std::sync::{Arc, Wait};

/// A thread's way into a reactor that has a parker, and its clock.
#[derive(Drop)]
pub(crate) struct Caller<R: Wait, N: Notify, A: Arm, W: EventWait> {
    /// The reactor, with the member of the thread.
    pub(crate) host: Inside<R, N, A, W>,
    /// The clock of the thread, which stands still.
    pub(crate) clock: MemClock,
    ghost parker: { 0 < host.shared.words.parkers },
}

/// A way into a reactor whose notifier and connections never fail.
pub(crate) type Quiet<R, W> = Caller<R, MemNotify, SureArm, W>;

/// A clock that stands at so many nanoseconds.
fn clock(rt: &impl Abort, alloc: Global, now: u64) -> MemClock {
    let now = Moment::new(now).expect(rt, "a moment");
    clock_at(alloc, now).expect(rt, MEMORY)
}

/// The first way into a new reactor of so many parkers over this wait, with this notifier.
fn enter_inside<R: Wait + Abort + Copy, N: Notify + Drop, A: Arm + Drop, W: EventWait + Drop>(
    rt: R,
    alloc: Global,
    parkers: u32,
    devices: (W, N),
) -> Inside<R, N, A, W>
    requires { (1 ≤ parkers) × (parkers ≤ 16) }
    ensures number { result.member.ops.number ≡ 0 }
    ensures parkers { result.shared.words.parkers ≡ parkers }
{
    let (wait, notifier) = devices;
    match Shared::new(alloc, parkers, wait, notifier) {
        Ok((shared, member)) => match Arc::new(alloc, shared) {
            Ok(shared) => Inside { rt, shared, member },
            Err(_) => rt.panic(MEMORY),
        },
        Err(_) => rt.panic(MEMORY),
    }
}

/// The same with a clock at this moment.
pub(crate) fn enter<R: Wait + Abort + Copy, N: Notify + Drop, A: Arm + Drop, W: EventWait + Drop>(
    rt: R,
    alloc: Global,
    parkers: u32,
    devices: (W, N),
    now: u64,
) -> Caller<R, N, A, W>
    requires { (1 ≤ parkers) × (parkers ≤ 16) }
    ensures number { result.host.member.ops.number ≡ 0 }
    ensures parkers { result.host.shared.words.parkers ≡ parkers }
{
    let clock = clock(&rt, alloc, now);
    let host = enter_inside(rt, alloc, parkers, devices);
    Caller { host, clock }
}

/// The way of another thread into the same reactor, by the first one, with a clock at this moment.
pub(crate) fn another<R: Wait + Abort + Copy, N: Notify + Drop, A: Arm + Drop, W: EventWait + Drop>(
    first: &mut Caller<R, N, A, W>,
    alloc: Global,
    now: u64,
) -> Caller<R, N, A, W>
    requires { first.old.host.member.ops.number ≡ 0 }
    ensures { first.new.host.member.ops.number ≡ 0 }
{
    let rt = first.host.rt;
    let clock = clock(&rt, alloc, now);
    let Ok(member) = first.host.shared.member(&rt, &mut first.host.member) else {
        rt.panic(MEMORY)
    };
    let Ok(shared) = Arc::try_clone(&first.host.shared) else {
        rt.panic(MEMORY)
    };
    Caller {
        host: Inside { rt, shared, member },
        clock,
    }
}

/// Registers a timer, where an id is left. Where none is, the answer is that of a host without memory.
pub(crate) fn insert<H: TimerHost>(
    host: &mut H,
    at: u64,
    waker: u32,
) -> Result<TimerId, InsertRefusal>
    ensures { H.is_later host.old host.new }
{
    match Moment::new(at) {
        Some(at) if host.ids_left() => host.insert_timer(at, Waker(waker)),
        _ => Err(InsertRefusal::OutOfMemory),
    }
}

/// Registers a timer with waker 0, and takes it out again where it is not to be kept. Whether nothing failed.
fn insert_once<H: TimerHost>(host: &mut H, at: u64, kept: bool) -> bool
    ensures { H.is_later host.old host.new }
{
    let Ok(id) = insert(host, at, 0) else {
        return false;
    };
    if kept {
        return true;
    }
    remove(host, at, id.0).is_ok()
}

/// Registers a timer with waker 0, and takes it out again where it is not to be kept, so many times. How
/// often nothing failed.
pub(crate) fn insert_times<H: TimerHost>(host: &mut H, at: u64, times: u32, kept: bool) -> u32
    ensures { H.is_later host.old host.new }
{
    let mut done: u32 = 0;
    for _ in 0..times {
        if insert_once(host, at, kept) {
            done = done.saturating_add(1);
        }
    }
    done
}

/// Takes a timer out again.
pub(crate) fn remove<H: TimerHost>(host: &mut H, at: u64, id: u64) -> Result<(), OutOfMemory>
    ensures { H.is_later host.old host.new }
{
    match Moment::new(at) {
        Some(at) => host.remove_timer(at, TimerId(id)),
        None => Err(OutOfMemory),
    }
}

/// Counts the rounds, and wakes a task.
pub(crate) fn count_and_wake<H: Host>(host: &mut H, waker: u32) -> (u64, Result<(), CountFault>)
    ensures { H.is_later host.old host.new }
{
    let rounds = host.ticker();
    (rounds, host.wake(Waker(waker)))
}

/// Reacts by a cell that the thread has taken, by this clock, without waiting.
pub(crate) fn react_by<R: Wait, N: Notify, A: Arm, W: EventWait>(
    host: &mut Inside<R, N, A, W>,
    cell: &mut RoundCell<W>,
    clock: &mut MemClock,
) -> Result<ReactedIn, ReactFault>
    requires cell { IsCellOf host.old.member.claim cell.old }
    requires idle { IsIdle cell.old }
    ensures shared { host.new.shared ≡ host.old.shared }
    ensures claim { host.new.member.claim ≡ host.old.member.claim }
    ensures cell { IsCellOf host.new.member.claim cell.new }
    ensures idle { IsIdle cell.new }
{
    host.shared
        .react_in(&host.rt, &mut host.member, cell, clock, Some(0))
}

/// Makes a round, by two calls where memory ran out in the first: then what comes is that of the second, which
/// goes on with the events that were in hand.
pub(crate) fn react_twice_at_most<R: Wait, N: Notify, A: Arm, W: EventWait>(
    host: &mut Inside<R, N, A, W>,
    cell: &mut RoundCell<W>,
    clock: &mut MemClock,
) -> Came
    requires cell { IsCellOf host.old.member.claim cell.old }
    requires idle { IsIdle cell.old }
    ensures shared { host.new.shared ≡ host.old.shared }
    ensures claim { host.new.member.claim ≡ host.old.member.claim }
    ensures cell { IsCellOf host.new.member.claim cell.new }
    ensures idle { IsIdle cell.new }
{
    let first = react_by(host, cell, clock);
    if first != Err(ReactFault::OutOfMemory) {
        return resumed(0, first);
    }
    let in_hand = cell.round().in_hand();
    resumed(in_hand, react_by(host, cell, clock))
}
