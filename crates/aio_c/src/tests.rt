//! A walk through the exports, as a program outside of Rattle calls them.

use crate::answers::AskAnswer;
use crate::held::Held;
use crate::poller::{aio_fail_next, aio_give, aio_give_priority, aio_interrupt_next};
use crate::rounds::{
    aio_begin, aio_finish, aio_handle, aio_handle_asks, aio_ticker, aio_wait, aio_woken,
};
use crate::sources::{aio_add, aio_del, aio_live};
use crate::tasks::{
    aio_listen, aio_listen_priority, aio_poll, aio_poll_asks, aio_poll_priority,
    aio_poll_priority_asks, aio_step, aio_step_asks, aio_unlisten,
};
use crate::timers::{aio_insert_timer, aio_remove_timer};
use crate::{Handle, aio_free, aio_new};
use aio_base::Moment;
use aio_react::Core;
use aio_script::ScriptPoller;
use std::alloc::Global;
use std::process::Abort;
use std::test::Fail;

/// A call. Its first numbers are keys, then come wakers; moments are in nanoseconds.
#[derive(Clone, Copy)]
enum Call {
    Add,
    Del(u32),
    Live(u32),
    Poll(u32, u32),
    PollWrite(u32, u32),
    PollPriority(u32, u32),
    ListenPriority(u32),
    Insert(u64, u32),
    Remove(u64, u64),
    Listen(u32),
    ListenWrite(u32),
    Step(u64, u32),
    Unlisten(u64),
    PollAsks(u32),
    StepAsks(u64),
    HandleAsks,
    Begin(u64),
    BeginWithin(u64, u64),
    Give(u32),
    GiveWrite(u32),
    GiveAll(u32),
    FailNextArm,
    InterruptNext,
    Wait,
    Handle,
    Finish(u64),
    /// Reads wakers into so many places, two at most.
    Woken(usize),
    Ticker,
}

/// What it answered: a code, 0 where it has none, and a number, 0 where it has none.
#[derive(Clone, Copy, Debug, PartialEq)]
struct Told(u32, u64);

/// What a call would ask of the poller: 1 where it would arm, and as a number 1 for reading and 2 for
/// writing, 3 for both.
fn asked(answer: AskAnswer) -> Told {
    let on = match (answer.read, answer.write) {
        (false, false) => 0,
        (true, false) => 1,
        (false, true) => 2,
        (true, true) => 3,
    };
    Told(answer.arms as u32, on)
}

/// A handle for an answer to be put in.
fn spare(alloc: Global) -> Result<Handle, Fail> {
    let (Ok(core), Some(clock)) = (Core::new(alloc, ScriptPoller::new(alloc)?), Moment::new(0))
    else {
        return Err(Fail::from("there is no memory"));
    };
    let held = Held {
        core,
        clock,
        unread: false,
    };
    Ok(Handle::close(Box::new(alloc, held)?))
}

fn answer_in_a_round(h: Handle, out: &mut Handle, call: Call) -> Told {
    match call {
        Call::Begin(now) => {
            let begun = aio_begin(h, out, now, false, 0);
            Told(begun.code, begun.number)
        }
        Call::BeginWithin(now, limit) => {
            let begun = aio_begin(h, out, now, true, limit);
            Told(begun.code, begun.limit)
        }
        Call::FailNextArm => {
            aio_fail_next(h, out, 1);
            Told(0, 0)
        }
        Call::InterruptNext => {
            aio_interrupt_next(h, out);
            Told(0, 0)
        }
        Call::HandleAsks => asked(aio_handle_asks(h, out)),
        Call::Wait => {
            let waited = aio_wait(h, out);
            Told(waited.code, waited.events as u64)
        }
        Call::Handle => {
            let handled = aio_handle(h, out);
            Told(handled.code, handled.key as u64)
        }
        Call::Finish(now) => {
            let ended = aio_finish(h, out, now);
            Told(ended.code, ended.wakers)
        }
        Call::Woken(places) => first_woken(h, out, places),
        _ => Told(0, aio_ticker(h, out)),
    }
}

/// What stands in a place where no waker was written.
const NOBODY: u32 = 99;

/// Reads wakers into so many places. What stands in the first of them then, and in the second.
fn first_woken(h: Handle, out: &mut Handle, count: usize) -> Told {
    let mut places = [NOBODY; 2];
    aio_woken(h, out, &mut places[..count.min(2)]);
    Told(places[1], places[0] as u64)
}

fn answer_of_a_listener(h: Handle, out: &mut Handle, call: Call) -> Told {
    match call {
        Call::Listen(key) => {
            let made = aio_listen(h, out, key, false);
            Told(made.code, made.number)
        }
        Call::ListenWrite(key) => {
            let made = aio_listen(h, out, key, true);
            Told(made.code, made.number)
        }
        Call::Step(listener, waker) => Told(aio_step(h, out, listener, waker), 0),
        Call::Unlisten(listener) => Told(aio_unlisten(h, out, listener), 0),
        Call::StepAsks(listener) => asked(aio_step_asks(h, out, listener)),
        round => answer_in_a_round(h, out, round),
    }
}

fn answer(h: Handle, out: &mut Handle, call: Call) -> Told {
    match call {
        Call::Add => {
            let added = aio_add(h, out);
            Told(added.code, added.key as u64)
        }
        Call::Del(key) => Told(aio_del(h, out, key), 0),
        Call::Live(key) => Told(0, aio_live(h, out, key) as u64),
        Call::Poll(key, waker) => Told(aio_poll(h, out, key, false, waker).code, 0),
        Call::PollWrite(key, waker) => Told(aio_poll(h, out, key, true, waker).code, 0),
        Call::PollPriority(key, waker) => Told(aio_poll_priority(h, out, key, waker).code, 0),
        Call::ListenPriority(key) => {
            let listener = aio_listen_priority(h, out, key);
            Told(listener.code, listener.number)
        }
        Call::Insert(at, waker) => {
            let timer = aio_insert_timer(h, out, at, waker);
            Told(timer.code, timer.number)
        }
        Call::Remove(at, id) => Told(aio_remove_timer(h, out, at, id), 0),
        Call::PollAsks(key) => asked(aio_poll_asks(h, out, key, false)),
        Call::Give(key) => Told(aio_give(h, out, key, true, false), 0),
        Call::GiveWrite(key) => Told(aio_give(h, out, key, false, true), 0),
        Call::GiveAll(key) => Told(aio_give_priority(h, out, key, true, true), 0),
        other => answer_of_a_listener(h, out, other),
    }
}

fn same(rt: &impl Abort, found: Told, wanted: Told) {
    assert_eq!(rt; found, wanted);
}

/// Makes the calls, whose answers stand beside them. The handle after them.
fn walked(
    rt: &impl Abort,
    alloc: Global,
    first: Handle,
    calls: &[(Call, Told)],
) -> Result<Handle, Fail> {
    let mut now = first;
    for (call, wanted) in calls {
        let mut next = spare(alloc)?;
        same(rt, answer(now, &mut next, *call), *wanted);
        now = next;
    }
    Ok(now)
}

/// A round of a poll waiter and a timer that is due.
const A_ROUND: &[(Call, Told)] = &[
    (Call::Add, Told(0, 0)),
    (Call::Live(0), Told(0, 1)),
    (Call::Poll(0, 7), Told(0, 0)),
    (Call::Insert(50, 9), Told(0, 1)),
    (Call::Insert(100, 8), Told(0, 2)),
    (Call::Wait, Told(7, 0)),
    (Call::Begin(60), Told(0, 1)),
    (Call::Give(0), Told(0, 0)),
    (Call::Wait, Told(0, 1)),
    (Call::Finish(60), Told(8, 0)),
    (Call::Handle, Told(0, 0)),
    (Call::Handle, Told(14, 0)),
    (Call::Finish(60), Told(0, 2)),
];

/// The source is ready once, and all goes.
const AN_END: &[(Call, Told)] = &[
    (Call::Ticker, Told(0, 1)),
    (Call::Poll(0, 7), Told(1, 0)),
    (Call::Remove(100, 2), Told(0, 0)),
    (Call::Del(0), Told(0, 0)),
    (Call::Live(0), Told(0, 0)),
    (Call::Poll(0, 7), Told(9, 0)),
];

#[test]
fn calls_go_through_a_round(rt: HostRuntime) -> Result<(), Fail> {
    let mut made = spare(rt.alloc())?;
    assert!(rt; aio_new(rt.alloc(), &mut made));
    let ended = walked(&rt, rt.alloc(), made, A_ROUND)?;
    let mut next = spare(rt.alloc())?;
    let mut wakers: [u32; 3] = [0; 3];
    aio_woken(ended, &mut next, &mut wakers);
    assert_eq!(rt; wakers, [9, 7, 0]);
    aio_free(walked(&rt, rt.alloc(), next, AN_END)?);
    Ok(())
}

/// The last moment.
const LAST: u64 = 1_000_000_000_000_000_000;

/// A listener waits to write, and a task to read. The first arm fails, the first wait is interrupted,
/// and where the listener's event was handled the poller cannot be armed for the task again.
const A_LISTENER: &[(Call, Told)] = &[
    (Call::Add, Told(0, 0)),
    (Call::PollAsks(0), Told(1, 1)),
    (Call::Listen(1), Told(9, 0)),
    (Call::ListenWrite(0), Told(0, 1)),
    (Call::Del(0), Told(10, 0)),
    (Call::StepAsks(1), Told(1, 2)),
    (Call::StepAsks(2), Told(0, 0)),
    (Call::FailNextArm, Told(0, 0)),
    (Call::Step(1, 5), Told(2, 0)),
    (Call::StepAsks(1), Told(1, 2)),
    (Call::Step(1, 5), Told(0, 0)),
    (Call::StepAsks(1), Told(0, 0)),
    (Call::PollAsks(0), Told(1, 3)),
    (Call::Poll(0, 7), Told(0, 0)),
    (Call::PollAsks(0), Told(0, 0)),
    (Call::Insert(LAST, 3), Told(0, 1)),
    (Call::BeginWithin(5, 40), Told(0, 40)),
    (Call::Begin(5), Told(6, 0)),
    (Call::GiveWrite(0), Told(0, 0)),
    (Call::InterruptNext, Told(0, 0)),
    (Call::Wait, Told(1, 0)),
    (Call::Wait, Told(0, 1)),
    (Call::HandleAsks, Told(1, 1)),
    (Call::FailNextArm, Told(0, 0)),
    (Call::Handle, Told(2, 0)),
    (Call::Finish(5), Told(0, 1)),
];

/// The listener is ready and given up. A second round leaves a task that waits to write, and a third
/// one at the last moment wakes the timer's.
const LATER_ROUNDS: &[(Call, Told)] = &[
    (Call::Step(1, 5), Told(1, 0)),
    (Call::Unlisten(1), Told(0, 0)),
    (Call::Unlisten(1), Told(15, 0)),
    (Call::Step(1, 5), Told(15, 0)),
    (Call::Listen(0), Told(0, 2)),
    (Call::Unlisten(2), Told(0, 0)),
    (Call::PollAsks(0), Told(1, 1)),
    (Call::Poll(0, 7), Told(0, 0)),
    (Call::PollWrite(0, 2), Told(0, 0)),
    (Call::BeginWithin(9, LAST), Told(0, LAST - 9)),
    (Call::Ticker, Told(0, 2)),
    (Call::Give(0), Told(0, 0)),
    (Call::Wait, Told(0, 1)),
    (Call::HandleAsks, Told(1, 2)),
    (Call::Handle, Told(0, 0)),
    (Call::HandleAsks, Told(0, 0)),
    (Call::Finish(9), Told(0, 1)),
    (Call::Woken(1), Told(99, 7)),
    (Call::Poll(0, 7), Told(1, 0)),
    (Call::Begin(u64::MAX), Told(0, 3)),
    (Call::Finish(u64::MAX), Told(0, 1)),
    (Call::Del(0), Told(0, 0)),
];

#[test]
fn a_listener_and_a_task_wait_through_failures(rt: HostRuntime) -> Result<(), Fail> {
    let first = walked(&rt, rt.alloc(), spare(rt.alloc())?, A_LISTENER)?;
    let mut next = spare(rt.alloc())?;
    let mut wakers: [u32; 2] = [0; 2];
    aio_woken(first, &mut next, &mut wakers);
    assert_eq!(rt; wakers, [5, 0]);
    let last = walked(&rt, rt.alloc(), next, LATER_ROUNDS)?;
    let mut end = spare(rt.alloc())?;
    let mut woken: [u32; 1] = [0];
    aio_woken(last, &mut end, &mut woken);
    assert_eq!(rt; woken, [3]);
    aio_free(end);
    Ok(())
}

/// One event of a source for which three tasks wait, one in each direction.
const THREE_WAIT: &[(Call, Told)] = &[
    (Call::Add, Told(0, 0)),
    (Call::PollPriority(0, 3), Told(0, 0)),
    (Call::Poll(0, 1), Told(0, 0)),
    (Call::PollWrite(0, 2), Told(0, 0)),
    (Call::Begin(0), Told(0, 1)),
    (Call::GiveAll(0), Told(0, 0)),
    (Call::Wait, Told(0, 1)),
    (Call::Handle, Told(0, 0)),
    (Call::Finish(0), Told(0, 3)),
];

/// The source is urgently ready once.
const READY_ONCE: &[(Call, Told)] = &[
    (Call::PollPriority(0, 3), Told(1, 0)),
    (Call::ListenPriority(0), Told(0, 1)),
    (Call::ListenPriority(1), Told(9, 0)),
];

/// What the next poll for urgent readiness would ask: urgent readiness alone.
fn asks_for_priority_alone(rt: &impl Abort, h: Handle, out: &mut Handle) {
    let asked = aio_poll_priority_asks(h, out, 0);
    let told = [asked.arms, asked.read, asked.write, asked.priority];
    assert_eq!(rt; told, [true, false, false, true]);
}

/// Events that no wait has taken: the next round waits no time for others, whatever limit is given.
const LEFT_BEHIND: &[(Call, Told)] = &[
    (Call::Add, Told(0, 0)),
    (Call::Poll(0, 1), Told(0, 0)),
    (Call::BeginWithin(0, 40), Told(0, 40)),
    (Call::Give(0), Told(0, 0)),
    (Call::Finish(0), Told(0, 0)),
    (Call::BeginWithin(0, 40), Told(0, 0)),
    (Call::InterruptNext, Told(0, 0)),
    (Call::Wait, Told(1, 0)),
    (Call::Finish(0), Told(0, 0)),
    (Call::BeginWithin(0, 40), Told(0, 0)),
    (Call::Wait, Told(0, 1)),
    (Call::Handle, Told(0, 0)),
    (Call::Finish(0), Told(0, 1)),
    (Call::Woken(1), Told(99, 1)),
    (Call::BeginWithin(0, 40), Told(0, 40)),
];

#[test]
fn a_round_behind_events_that_were_not_taken_does_not_wait(rt: HostRuntime) -> Result<(), Fail> {
    aio_free(walked(&rt, rt.alloc(), spare(rt.alloc())?, LEFT_BEHIND)?);
    Ok(())
}

/// Two timers fire, and no round begins before both wakers are read: with one place they are not. Read
/// once they are told no more, nor is whom the next round has taken before its end.
const UNREAD: &[(Call, Told)] = &[
    (Call::Insert(5, 3), Told(0, 1)),
    (Call::Insert(5, 4), Told(0, 2)),
    (Call::Woken(2), Told(99, 99)),
    (Call::Begin(5), Told(0, 1)),
    (Call::Woken(2), Told(99, 99)),
    (Call::Finish(5), Told(0, 2)),
    (Call::Begin(5), Told(19, 0)),
    (Call::Woken(1), Told(99, 3)),
    (Call::BeginWithin(5, 40), Told(19, 0)),
    (Call::Ticker, Told(0, 1)),
    (Call::Insert(6, 8), Told(0, 3)),
    (Call::Woken(2), Told(4, 3)),
    (Call::Woken(2), Told(99, 99)),
    (Call::Begin(6), Told(0, 2)),
    (Call::Finish(6), Told(0, 1)),
    (Call::Woken(2), Told(99, 8)),
    (Call::Begin(6), Told(0, 3)),
    (Call::Finish(6), Told(0, 0)),
    (Call::Begin(6), Told(0, 4)),
];

/// A timer is due at 50. Behind a begin at 40 each earlier moment counts as 40: the limit is 10, also of the
/// round that begins at 30; and behind one at 60 a begin at 50 finds the timer of 60 due. A refused begin
/// leaves the moment as it was.
const FALLING: &[(Call, Told)] = &[
    (Call::Insert(50, 9), Told(0, 1)),
    (Call::BeginWithin(40, 90), Told(0, 10)),
    (Call::Begin(70), Told(6, 0)),
    (Call::Finish(20), Told(0, 0)),
    (Call::BeginWithin(30, 90), Told(0, 10)),
    (Call::Finish(60), Told(0, 0)),
    (Call::Insert(60, 4), Told(0, 2)),
    (Call::BeginWithin(50, 90), Told(0, 0)),
    (Call::Finish(0), Told(0, 2)),
    (Call::Woken(2), Told(4, 9)),
];

#[test]
fn a_round_begins_once_the_wakers_of_the_last_one_are_read(rt: HostRuntime) -> Result<(), Fail> {
    aio_free(walked(&rt, rt.alloc(), spare(rt.alloc())?, UNREAD)?);
    Ok(())
}

#[test]
fn an_earlier_moment_counts_as_the_last_one(rt: HostRuntime) -> Result<(), Fail> {
    aio_free(walked(&rt, rt.alloc(), spare(rt.alloc())?, FALLING)?);
    Ok(())
}

#[test]
fn urgent_readiness_is_woken_last_and_asked_for(rt: HostRuntime) -> Result<(), Fail> {
    let ended = walked(&rt, rt.alloc(), spare(rt.alloc())?, THREE_WAIT)?;
    let mut next = spare(rt.alloc())?;
    let mut wakers: [u32; 3] = [0; 3];
    aio_woken(ended, &mut next, &mut wakers);
    assert_eq!(rt; wakers, [2, 1, 3]);
    let ready = walked(&rt, rt.alloc(), next, READY_ONCE)?;
    let mut last = spare(rt.alloc())?;
    asks_for_priority_alone(&rt, ready, &mut last);
    aio_free(last);
    Ok(())
}
