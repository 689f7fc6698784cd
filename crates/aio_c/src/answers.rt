//! The answers as they cross to C, each made from what the core answered, and the arguments as the
//! core takes them.

ghost use Rattle.std.specs.Prelude.{◌≡◌};
ghost use Rattle.aio_c.specs.Codes.{refusal_code, poll_code, fault_code, insert_code, done_code};
ghost use Rattle.aio_c.specs.Codes.{step_code, memory_code, key_answer, replacing, poll_answer};
ghost use Rattle.aio_c.specs.Codes.{listener_answer, beginning, begin_answer, wait_answer};
ghost use Rattle.aio_c.specs.Codes.{handling_answer, handle_answer, finish_answer, timer_answer};
ghost use Rattle.aio_c.specs.Codes.{ask_answer, dir_of, which_of, moment_at, moment_from, limit_in};

use aio_base::{
    ArmFault, Dir, InsertRefusal, Interest, Key, Moment, OutOfMemory, Poll, TimerId, Waited, Waker,
    Which,
};
use aio_react::{CoreRefusal, Handled, RoundFault};
use aio_source::Polled;

/// A new source: its key, where the code is 0.
#[repr(C)]
#[derive(Drop)]
pub struct KeyAnswer {
    pub code: u32,
    pub key: u32,
}

/// A poll: 0 pending, 1 ready, 2 where the poller could not be armed; and the waker that lost its
/// place, where `wakes` says so.
#[repr(C)]
#[derive(Drop)]
pub struct PollAnswer {
    pub code: u32,
    pub wakes: bool,
    pub waker: u32,
}

/// The number of a new listener or timer, where the code is 0.
#[repr(C)]
#[derive(Drop)]
pub struct NumberAnswer {
    pub code: u32,
    pub number: u64,
}

/// A round that began, where the code is 0: its number, and in nanoseconds the limit of its waits,
/// where `limited` says that there is one.
#[repr(C)]
#[derive(Drop)]
pub struct BeginAnswer {
    pub code: u32,
    pub limited: bool,
    pub number: u64,
    pub limit: u64,
}

/// A wait: 0 with so many events in hand, 1 where it was interrupted.
#[repr(C)]
#[derive(Drop)]
pub struct WaitAnswer {
    pub code: u32,
    pub events: u32,
}

/// An event that was handled: 0, or 2 where the poller could not be armed again; and its key.
#[repr(C)]
#[derive(Drop)]
pub struct HandleAnswer {
    pub code: u32,
    pub key: u32,
}

/// A round that ended, where the code is 0: 0, 1 or 2 as nothing, a wait or an arm was the first to
/// fail; and how many wakers are to be woken.
#[repr(C)]
#[derive(Drop)]
pub struct FinishAnswer {
    pub code: u32,
    pub fault: u32,
    pub wakers: u64,
}

/// What a call would ask of the poller: whether it would arm it, and for which directions.
#[repr(C)]
#[derive(Drop)]
pub struct AskAnswer {
    pub arms: bool,
    pub read: bool,
    pub write: bool,
    pub priority: bool,
}

/// The code of a refusal, from 3 on.
pub fn refusal_code(refusal: CoreRefusal) -> u32
    ensures { result ≡ refusal_code refusal }
{
    match refusal {
        CoreRefusal::AddFault(_) => 3,
        CoreRefusal::WaitFault(_) => 4,
        CoreRefusal::RemoveFault(_) => 5,
        CoreRefusal::Locked => 6,
        CoreRefusal::NoRound => 7,
        CoreRefusal::EventsLeft(_) => 8,
        CoreRefusal::NoSource => 9,
        CoreRefusal::InUse => 10,
        CoreRefusal::Full => 11,
        CoreRefusal::RoundsSpent => 12,
        CoreRefusal::OutOfMemory => 13,
        CoreRefusal::NothingInHand => 14,
        CoreRefusal::NoListener => 15,
        CoreRefusal::TicketsSpent => 16,
    }
}

/// The code of a poll that found its waiter.
pub fn poll_code(answer: Poll<Result<(), ArmFault>>) -> u32
    ensures { result ≡ poll_code answer }
{
    match answer {
        Poll::Pending => 0,
        Poll::Ready(Ok(())) => 1,
        Poll::Ready(Err(_)) => 2,
    }
}

/// The code of what failed first in a round.
pub fn fault_code(fault: Option<RoundFault>) -> u32
    ensures { result ≡ fault_code fault }
{
    match fault {
        None => 0,
        Some(RoundFault::Wait(_)) => 1,
        Some(RoundFault::Arm(_)) => 2,
    }
}

pub(crate) fn done_code(told: Result<(), CoreRefusal>) -> u32
    ensures { result ≡ done_code told }
{
    match told {
        Ok(()) => 0,
        Err(refusal) => refusal_code(refusal),
    }
}

pub(crate) fn step_code(told: Result<Poll<Result<(), ArmFault>>, CoreRefusal>) -> u32
    ensures { result ≡ step_code told }
{
    match told {
        Ok(answer) => poll_code(answer),
        Err(refusal) => refusal_code(refusal),
    }
}

pub(crate) fn memory_code(told: Result<(), OutOfMemory>) -> u32
    ensures { result ≡ memory_code told }
{
    match told {
        Ok(()) => 0,
        Err(_) => 13,
    }
}

pub(crate) fn key_answer(told: Result<Key, CoreRefusal>) -> KeyAnswer
    ensures { result ≡ key_answer told }
{
    match told {
        Ok(key) => KeyAnswer {
            code: 0,
            key: key.0,
        },
        Err(refusal) => KeyAnswer {
            code: refusal_code(refusal),
            key: 0,
        },
    }
}

fn replacing(code: u32, replaced: Option<Waker>) -> PollAnswer
    ensures { result ≡ replacing code replaced }
{
    match replaced {
        None => PollAnswer {
            code,
            wakes: false,
            waker: 0,
        },
        Some(waker) => PollAnswer {
            code,
            wakes: true,
            waker: waker.0,
        },
    }
}

pub(crate) fn poll_answer(told: Result<Polled, CoreRefusal>) -> PollAnswer
    ensures { result ≡ poll_answer told }
{
    match told {
        Ok(polled) => replacing(poll_code(polled.answer), polled.replaced),
        Err(refusal) => replacing(refusal_code(refusal), None),
    }
}

pub(crate) fn listener_answer(told: Result<u64, CoreRefusal>) -> NumberAnswer
    ensures { result ≡ listener_answer told }
{
    match told {
        Ok(number) => NumberAnswer { code: 0, number },
        Err(refusal) => NumberAnswer {
            code: refusal_code(refusal),
            number: 0,
        },
    }
}

fn beginning(number: u64, limit: Option<u64>) -> BeginAnswer
    ensures { result ≡ beginning number limit }
{
    match limit {
        None => BeginAnswer {
            code: 0,
            limited: false,
            number,
            limit: 0,
        },
        Some(limit) => BeginAnswer {
            code: 0,
            limited: true,
            number,
            limit,
        },
    }
}

pub(crate) fn begin_answer(told: Result<(u64, Option<u64>), CoreRefusal>) -> BeginAnswer
    ensures { result ≡ begin_answer told }
{
    match told {
        Ok((number, limit)) => beginning(number, limit),
        Err(refusal) => BeginAnswer {
            code: refusal_code(refusal),
            limited: false,
            number: 0,
            limit: 0,
        },
    }
}

pub(crate) fn wait_answer(told: Result<Waited, CoreRefusal>) -> WaitAnswer
    ensures { result ≡ wait_answer told }
{
    match told {
        Ok(Waited::Given(events)) => WaitAnswer { code: 0, events },
        Ok(Waited::Interrupted) => WaitAnswer { code: 1, events: 0 },
        Err(refusal) => WaitAnswer {
            code: refusal_code(refusal),
            events: 0,
        },
    }
}

pub(crate) fn handle_answer(told: Result<Handled, CoreRefusal>) -> HandleAnswer
    ensures { result ≡ handle_answer told }
{
    match told {
        Ok(handled) => HandleAnswer {
            code: if handled.fault.is_some() { 2 } else { 0 },
            key: handled.key.0,
        },
        Err(refusal) => HandleAnswer {
            code: refusal_code(refusal),
            key: 0,
        },
    }
}

pub(crate) fn finish_answer(
    told: Result<Option<RoundFault>, CoreRefusal>,
    wakers: u64,
) -> FinishAnswer
    ensures { result ≡ finish_answer told wakers }
{
    match told {
        Ok(fault) => FinishAnswer {
            code: 0,
            fault: fault_code(fault),
            wakers,
        },
        Err(refusal) => FinishAnswer {
            code: refusal_code(refusal),
            fault: 0,
            wakers: 0,
        },
    }
}

fn insert_code(refusal: InsertRefusal) -> u32
    ensures { result ≡ insert_code refusal }
{
    match refusal {
        InsertRefusal::OutOfMemory => 13,
        InsertRefusal::Notify { id: _, fault: _ } => 17,
    }
}

pub(crate) fn timer_answer(told: Result<TimerId, InsertRefusal>) -> NumberAnswer
    ensures { result ≡ timer_answer told }
{
    match told {
        Ok(id) => NumberAnswer {
            code: 0,
            number: id.0,
        },
        Err(refusal) => NumberAnswer {
            code: insert_code(refusal),
            number: 0,
        },
    }
}

pub(crate) fn ask_answer(told: Option<Interest>) -> AskAnswer
    ensures { result ≡ ask_answer told }
{
    match told {
        None => AskAnswer {
            arms: false,
            read: false,
            write: false,
            priority: false,
        },
        Some(on) => AskAnswer {
            arms: true,
            read: on.read,
            write: on.write,
            priority: on.priority,
        },
    }
}

/// The direction that is meant, of reading and writing: writability where `write` says so.
pub(crate) fn dir_of(write: bool) -> Dir
    ensures { result ≡ dir_of write }
{
    if write { Dir::Write } else { Dir::Read }
}

/// A kind of call of a poller.
pub(crate) fn which_of(kind: u32) -> Which
    ensures { result ≡ which_of kind }
{
    match kind {
        0 => Which::Add,
        1 => Which::Arm,
        2 => Which::Remove,
        _ => Which::Wait,
    }
}

/// The moment so many nanoseconds after the start, and the last one past 10^18.
pub(crate) fn moment_at(n: u64) -> Moment
    ensures { result ≡ moment_at n }
{
    match Moment::new(n.min(1_000_000_000_000_000_000)) {
        Some(moment) => moment,
        None => unreachable!(),
    }
}

/// The moment at which a round begins or ends: that so many nanoseconds after the start, and the last one of
/// a begin or finish where it is earlier.
pub(crate) fn moment_from(clock: Moment, n: u64) -> Moment
    ensures { result ≡ moment_from clock n }
{
    let now = moment_at(n);
    if now.get() < clock.get() { clock } else { now }
}

pub(crate) fn limit_in(limited: bool, limit: u64) -> Option<u64>
    ensures { result ≡ limit_in limited limit }
{
    if limited { Some(limit) } else { None }
}
