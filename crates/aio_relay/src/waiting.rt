//! How a pair waits for the moment at which it is idle.

ghost use Rattle.std.specs.Prelude.{◌≡◌, ◌⊎◌, ◌<◌, ◌≤◌, ◌^◌, IfSome, IfErr, IsOk, OnErr, OnOk, Some, None};
ghost use Rattle.aio_base.specs.Hosts.{has_id_left};
ghost use Rattle.aio_relay.specs.Waiting.{Answers, ComesTo, GivesUp, Registers, Sets, SetsTimer, StaysRegistered, Turns, WaitFailed, Wakes, idle_from};
ghost use Rattle.aio_future.specs.Timers.{new_timer};
ghost use Rattle.aio_pairs.specs.Calls.{HostGoesOn};

use aio_base::{CountFault, Host, Moment, Poll, TimerHost, Waker};
use aio_future::{Timer, TimerFault};
use std::mem;

/// Why a pair cannot wait.
#[derive(Clone, Copy)]
pub enum WaitFault {
    /// The host's notifier failed.
    Notify(CountFault),
    /// There was no memory for the timer.
    OutOfMemory,
}

/// The moment at which a pair is idle whose last byte went over at `last`, if there is such a moment.
pub fn idle_moment(last: Moment, idle: u64) -> Option<Moment>
    requires { idle ≤ 10 ^ 18 }
    ensures { result ≡ idle_from last idle }
{
    Moment::new(last.get() + idle)
}

/// Sets the timer to a moment to come, or to none, and has it wake the waker then. Where no id is left
/// for the timer it wakes the waker at once.
pub fn set_timer<H: Host>(
    timer: &mut Timer,
    due: Option<Moment>,
    host: &mut H,
    now: Moment,
    w: Waker,
) -> Result<(), WaitFault>
    requires { IfSome due (λ at. now < at) }
    ensures sets { Sets due w (has_id_left (H.rules.drawn host.new)) (H.rules.faults host.old)
        (H.rules.faults host.new) (H.notifier_is_sure host.old) timer.new result }
    ensures does { SetsTimer H.rules H.is_later H.notifier_is_sure due now w
        timer.old timer.new host.old host.new result
        ⊎ StaysRegistered H.rules timer.old timer.new host.old host.new result }
    ensures host { HostGoesOn H.rules H.is_later host.old host.new }
{
    match turn_timer(timer, due, host) {
        Ok(()) => register(timer, host, now, w),
        Err(fault) => Err(fault),
    }
}

// Puts a new timer in the old one's place, whose registration goes, unless it is at that moment already.
fn turn_timer<H: Host>(
    timer: &mut Timer,
    due: Option<Moment>,
    host: &mut H,
) -> Result<(), WaitFault>
    ensures deadline { IsOk result → timer.new.deadline ≡ due }
    ensures turns { OnOk result (Turns H.rules due timer.old timer.new host.old host.new) }
    ensures stays { OnErr result
        (StaysRegistered H.rules timer.old timer.new host.old host.new result) }
    ensures refused { IfErr result (λ fault. fault ≡ WaitFault.OutOfMemory) }
    ensures host { HostGoesOn H.rules H.is_later host.old host.new }
{
    if timer.deadline() == due {
        return Ok(());
    }
    match mem::replace(timer, Timer::never()).close(host) {
        Ok(()) => {
            *timer = timer_at(due);
            Ok(())
        }
        Err(old) => {
            *timer = old;
            Err(WaitFault::OutOfMemory)
        }
    }
}

fn timer_at(due: Option<Moment>) -> Timer
    ensures { result ≡ new_timer due None }
{
    if let Some(moment) = due {
        return Timer::at(moment);
    }
    Timer::never()
}

// Polls the timer before its moment has come.
fn register<H: Host>(
    timer: &mut Timer,
    host: &mut H,
    now: Moment,
    w: Waker,
) -> Result<(), WaitFault>
    requires { IfSome timer.old.deadline (λ at. now < at) }
    ensures sets { Sets timer.old.deadline w (has_id_left (H.rules.drawn host.new))
        (H.rules.faults host.old) (H.rules.faults host.new) (H.notifier_is_sure host.old)
        timer.new result }
    ensures registers { Registers H.rules H.is_later H.notifier_is_sure now w
        timer.old timer.new host.old host.new result }
    ensures host { HostGoesOn H.rules H.is_later host.old host.new }
{
    match timer.poll(host, now, w) {
        Poll::Pending => Ok(()),
        Poll::Ready(Ok(_)) => Ok(()),
        Poll::Ready(Err(fault)) => after_fault(fault, host, w),
    }
}

/// Takes the timer's registration out, if it has one, and leaves a timer that never fires. Where memory
/// ran out the timer stays as it is, and registered.
pub fn give_up<H: TimerHost>(timer: &mut Timer, host: &mut H)
    ensures gives_up { GivesUp H.rules timer.old timer.new host.old host.new }
    ensures host { HostGoesOn H.rules H.is_later host.old host.new }
{
    let old = mem::replace(timer, Timer::never());
    if let Err(back) = old.close(host) {
        *timer = back;
    }
}

// What a fault of the timer is for the pair: where no id is left, it wakes the waker instead.
fn after_fault<H: Host>(fault: TimerFault, host: &mut H, w: Waker) -> Result<(), WaitFault>
    ensures comes { ComesTo fault (H.rules.faults host.old) (H.rules.faults host.new)
        (H.notifier_is_sure host.old) result }
    ensures answers { Answers H.rules (Some fault) w host.old host.new result }
    ensures host { HostGoesOn H.rules H.is_later host.old host.new }
    ensures ids { H.rules.drawn host.new ≡ H.rules.drawn host.old }
{
    match fault {
        TimerFault::IdsSpent => wake(host, w),
        TimerFault::Notify { fault, .. } => Err(WaitFault::Notify(fault)),
        TimerFault::OutOfMemory => Err(WaitFault::OutOfMemory),
    }
}

/// Wakes a waker. A fault is told exactly where the host's wake answered one.
pub fn wake<H: Host>(host: &mut H, w: Waker) -> Result<(), WaitFault>
    ensures wakes { Wakes H.rules w host.old host.new result }
    ensures fails { IfErr result (WaitFailed (H.rules.faults host.old) (H.rules.faults host.new)
        (H.notifier_is_sure host.old)) }
    ensures host { HostGoesOn H.rules H.is_later host.old host.new }
    ensures ids { H.rules.drawn host.new ≡ H.rules.drawn host.old }
{
    match host.wake(w) {
        Ok(()) => Ok(()),
        Err(fault) => Err(WaitFault::Notify(fault)),
    }
}
