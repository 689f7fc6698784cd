//! A thread that carries out the acts of a table beside others.

use crate::acts::{Act, Came, done, driven, ended, fired, told};
use crate::asserts::same;
use crate::tasks::{Meets, Rests, WakesItself};
use aio_base::{
    Clock, Dir, Event, EventWait, Host, Interest, Key, Moment, Notify, Poll, Task, TimerHost, Waker,
};
use aio_devices::{BlockingNotify, SureArm};
use aio_future::Sleep;
use aio_park::{BlockFault, Thread, drive};
use aio_shared::Inside;
use std::process::Abort;
use std::sync::Wait;
use std::thread::yield_now;

/// A thread whose connections never fail to be armed.
pub(crate) type Sleeper<R, N, W, C> = Thread<R, N, SureArm, W, C>;

/// A thread with a table of acts, and what is to come of each.
#[derive(Drop)]
pub(crate) struct Player<'a, R: Wait, N: Notify, W: EventWait, C> {
    /// The thread.
    pub(crate) thread: Sleeper<R, N, W, C>,
    /// What makes events ready, where the reactor's wait lasts until it is told.
    pub(crate) outside: Option<BlockingNotify<R>>,
    /// The table.
    pub(crate) rows: &'a [(Act, Came)],
    /// For how many turns of other threads it comes late.
    pub(crate) late: u32,
    /// How many parkers the reactor has.
    pub(crate) parkers: u32,
}

/// Lets other threads run so many times.
fn let_run(turns: u32) {
    for _ in 0..turns {
        yield_now();
    }
}

/// Blocks on a task.
fn block_on<
    R: Wait + Copy,
    N: Notify,
    W: EventWait,
    C: Clock,
    T: Task<Inside<R, N, SureArm, W>> + Drop,
>(thread: &mut Sleeper<R, N, W, C>, mut task: T) -> Result<T::Output, BlockFault> {
    thread.run(&mut task)
}

/// Blocks until a timer fires.
fn sleep<R: Wait + Copy, N: Notify, W: EventWait, C: Clock>(
    thread: &mut Sleeper<R, N, W, C>,
    at: u64,
) -> Came {
    match Moment::new(at) {
        Some(at) => fired(block_on(thread, Sleep::until(at))),
        None => Came::Other,
    }
}

/// Blocks until a timer fires at the moment after the number of its parker.
fn sleep_in_turn<R: Wait + Copy, N: Notify, W: EventWait, C: Clock>(
    thread: &mut Sleeper<R, N, W, C>,
) -> Came {
    let at = u64::from(thread.parker) + 1;
    match sleep(thread, at) {
        Came::Ended(moment) => done(moment == at),
        _ => Came::Other,
    }
}

/// Makes so many rounds.
fn drive_on<R: Wait + Copy, N: Notify, W: EventWait, C: Clock>(
    thread: &mut Sleeper<R, N, W, C>,
    rounds: u32,
) -> Came {
    let host = &mut thread.host;
    driven(drive(
        &host.rt,
        &host.shared,
        &mut host.member,
        &mut thread.clock,
        rounds,
    ))
}

/// Wakes a task. Whether nothing failed.
fn wake<H: Host>(host: &mut H, waker: Waker) -> bool
    ensures { H.is_later host.old host.new }
{
    host.wake(waker).is_ok()
}

/// Takes the round cell, wakes this waker, and gives the cell back without a round after so many turns.
fn hold<R: Wait + Copy, N: Notify, W: EventWait, C>(
    thread: &mut Sleeper<R, N, W, C>,
    waker: u32,
    turns: u32,
) -> Came {
    let host = &mut thread.host;
    let cell = host.shared.take_round(&host.rt, &mut host.member);
    let told = wake(host, Waker(waker));
    let_run(turns);
    host.shared.give_round(&host.rt, &mut host.member, cell);
    done(told)
}

/// Takes the mask of the thread's parker.
fn take<R: Wait + Copy, N: Notify, W: EventWait, C>(thread: &mut Sleeper<R, N, W, C>) -> u64 {
    let host = &mut thread.host;
    host.shared
        .words()
        .take(host.member.words_pass(), thread.parker)
}

/// What this act waits for, where it has come: a mask of the thread's parker that tells a woken slot, or that a
/// round has begun, which runs for so many turns then.
fn awaited<R: Wait + Copy, N: Notify, W: EventWait, C>(
    thread: &mut Sleeper<R, N, W, C>,
    act: Act,
    turns: u32,
) -> Option<Came> {
    if let Act::Await = act {
        return match take(thread) {
            0 => None,
            mask => Some(Came::Mask(mask)),
        };
    }
    if thread.host.ticker() == 0 {
        return None;
    }
    let_run(turns);
    Some(Came::Done)
}

/// Waits until what this act waits for has come.
fn wait_for<R: Wait + Copy, N: Notify, W: EventWait, C>(
    thread: &mut Sleeper<R, N, W, C>,
    act: Act,
    turns: u32,
) -> Came {
    let rt = thread.host.rt;
    for _ in rt.forever() {
        if let Some(came) = awaited(thread, act, turns) {
            return came;
        }
        yield_now();
    }
    unreachable!()
}

/// Registers a timer.
fn set_timer<H: TimerHost>(host: &mut H, at: u64, waker: u32) -> Came
    ensures { H.is_later host.old host.new }
{
    match Moment::new(at) {
        Some(at) if host.ids_left() => done(host.insert_timer(at, Waker(waker)).is_ok()),
        _ => Came::Other,
    }
}

/// Inserts a connection and polls a direction of it. Its key, where the poll was pending.
fn poll_new<R: Wait + Copy, N: Notify, W: EventWait, C>(
    thread: &mut Sleeper<R, N, W, C>,
    dir: Dir,
    waker: u32,
) -> Option<u32> {
    let host = &mut thread.host;
    let Ok(mut source) = host.insert_source(SureArm::new(0)) else {
        return None;
    };
    let key = source.key();
    let answer = host.poll_source(&mut source, dir, Waker(waker));
    drop(source);
    match answer {
        Poll::Pending => Some(key.0),
        Poll::Ready(_) => None,
    }
}

/// The same for each key up to this one: with waker 0, and for the last one with this waker.
fn poll_at<R: Wait + Copy, N: Notify, W: EventWait, C>(
    thread: &mut Sleeper<R, N, W, C>,
    key: u32,
    dir: Dir,
    waker: u32,
) -> Came {
    for _ in 0..key {
        poll_new(thread, dir, 0);
    }
    done(poll_new(thread, dir, waker) == Some(key))
}

/// An event of one direction.
fn event(key: u32, dir: Dir) -> Event {
    let on = Interest::NONE.with(dir);
    Event { key: Key(key), on }
}

/// Makes an event ready.
fn give<R: Wait + Copy>(outside: &Option<BlockingNotify<R>>, key: u32, dir: Dir) -> Came {
    match outside {
        Some(outside) => done(outside.give(event(key, dir)).is_ok()),
        None => Came::Other,
    }
}

/// The waker of this slot of the parker after this one.
fn next_waker(parker: u32, parkers: u32, slot: u32) -> Waker {
    let after = parker.saturating_add(1);
    let next = if after < parkers { after } else { 0 };
    Waker(next.wrapping_mul(64).wrapping_add(slot))
}

impl<R: Wait + Copy, N: Notify, W: EventWait, C: Clock> Player<'_, R, N, W, C> {
    /// Does this, where it is no call that may wait long.
    fn act_at_once(&mut self, act: Act) -> Came {
        let thread = &mut self.thread;
        match act {
            Act::Wake(waker) => done(wake(&mut thread.host, Waker(waker))),
            Act::WakeNext(slot) => {
                let waker = next_waker(thread.parker, self.parkers, slot);
                done(wake(&mut thread.host, waker))
            }
            Act::SetTimer(at, waker) => set_timer(&mut thread.host, at, waker),
            Act::Poll(key, dir, waker) => poll_at(thread, key, dir, waker),
            Act::Give(key, dir) => give(&self.outside, key, dir),
            Act::HandOver => done(thread.hand_over().is_ok()),
            Act::WakeAll => done(thread.wake_all().is_ok()),
            Act::Take => Came::Mask(take(thread)),
            _ => Came::Other,
        }
    }

    /// Does this.
    fn act(&mut self, act: Act) -> Came {
        let thread = &mut self.thread;
        match act {
            Act::Rest(slots) => ended(block_on(thread, Rests::until(slots))),
            Act::Sleep(at) => sleep(thread, at),
            Act::SleepInTurn => sleep_in_turn(thread),
            Act::WakeItself(last) => ended(block_on(thread, WakesItself::until(last))),
            Act::Meet(other, times) => ended(block_on(thread, Meets::new(other, times, false))),
            Act::MeetLater(other, times) => ended(block_on(thread, Meets::new(other, times, true))),
            Act::Drive(rounds) => drive_on(thread, rounds),
            Act::Hold(waker, turns) => hold(thread, waker, turns),
            Act::Await | Act::Follow => wait_for(thread, act, self.late),
            act => self.act_at_once(act),
        }
    }
}

impl<R: Wait + Copy + Abort, N: Notify, W: EventWait, C: Clock> Player<'_, R, N, W, C> {
    /// Asserts that what these acts come to is what stands beside each.
    pub(crate) fn plays(&mut self, rows: &[(Act, Came)]) {
        let rt = self.thread.host.rt;
        for (act, came) in rows {
            same(&rt, told(self.act(*act)), told(*came));
        }
    }

    /// Asserts it of the thread's own table.
    pub(crate) fn play(&mut self) {
        self.plays(self.rows);
    }
}
