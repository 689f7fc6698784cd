//! A core over the poller in memory, as the rows of a table use it. Each call goes through the bound of the
//! poller alone.

use crate::asserts::{MEMORY, same, same_in};
use crate::hosts::insert;
use aio_base::{
    ArmFault, Dir, Event, EventWait, Interest, Key, Moment, Poll, Poller, TimerHost, Waited, Waker,
    Which,
};
use aio_react::{Core, CoreRefusal, RoundFault};
use aio_script::ScriptPoller;
use std::alloc::Global;
use std::process::Abort;

/// What is done with a core. Moments and limits are in nanoseconds.
#[derive(Clone, Copy)]
pub(crate) enum Act {
    /// Adds a source.
    Add,
    /// Takes the source with this key out.
    Del(u32),
    /// Looks whether a source has this key.
    Live(u32),
    /// Polls the read direction of this key with this waker.
    Poll(u32, u32),
    /// Adds a listener of a direction of this key.
    Listen(u32, Dir),
    /// Polls the listener with this number with this waker.
    Step(u64, u32),
    /// Gives the listener with this number up.
    Unlisten(u64),
    /// Registers a timer for this moment with this waker.
    Insert(u64, u32),
    /// Begins a round at this moment with this limit.
    Begin(u64, Option<u64>),
    /// Waits in the round.
    Wait,
    /// Handles the round's next event.
    Handle,
    /// Ends the round at this moment.
    Finish(u64),
    /// Makes a whole round at this moment with this limit.
    React(u64, Option<u64>),
    /// Has the poller note an event of the read direction of this key.
    Give(u32),
    /// Has the poller's next arm fail.
    FailArm,
    /// Looks whom the last round woke.
    Woken,
    /// Counts the rounds.
    Ticker,
    /// Counts the poller's waits.
    Waits,
}

/// What comes of it.
#[derive(Clone, Copy)]
pub(crate) enum Came {
    /// Nothing failed.
    Done,
    /// The source has this key.
    Key(u32),
    /// Whether it is so.
    Is(bool),
    /// The listener has this number, or there were so many.
    Number(u64),
    /// The task waits, in place of this waker if of any.
    Pending(Option<u32>),
    /// The source could not be armed.
    Unarmed(ArmFault),
    /// A round with this number has begun, with this limit.
    Begun(u64, Option<u64>),
    /// The wait answered this.
    Waited(Waited),
    /// The round has ended, and this failed first in it.
    Ended(Option<RoundFault>),
    /// A whole round with this number has ended: so many events, and what failed first.
    Reacted(u64, u32, Option<RoundFault>),
    /// So many tasks were woken, first the one of this waker.
    Woke(usize, Option<u32>),
    /// The call was refused.
    Refused(CoreRefusal),
    /// Something else.
    Other,
}

/// Which it is that came, its numbers, its limit and its waker, and what failed or was refused.
pub(crate) type Told = (
    &'static str,
    [u64; 2],
    (Option<u64>, Option<u32>),
    Result<Option<RoundFault>, CoreRefusal>,
);

/// What came, as it is compared.
pub(crate) fn told(came: Came) -> Told {
    let none = (None, None);
    match came {
        Came::Done => ("done", [0; 2], none, Ok(None)),
        Came::Key(key) => ("key", [key as u64, 0], none, Ok(None)),
        Came::Is(so) => ("is", [so as u64, 0], none, Ok(None)),
        Came::Number(number) => ("number", [number, 0], none, Ok(None)),
        Came::Pending(waker) => ("pending", [0; 2], (None, waker), Ok(None)),
        Came::Unarmed(fault) => ("unarmed", [0; 2], none, Ok(Some(RoundFault::Arm(fault)))),
        Came::Begun(number, limit) => ("begun", [number, 0], (limit, None), Ok(None)),
        Came::Waited(Waited::Given(count)) => ("given", [count as u64, 0], none, Ok(None)),
        Came::Waited(Waited::Interrupted) => ("interrupted", [0; 2], none, Ok(None)),
        Came::Ended(fault) => ("ended", [0; 2], none, Ok(fault)),
        Came::Reacted(number, events, fault) => {
            ("reacted", [number, events as u64], none, Ok(fault))
        }
        Came::Woke(count, first) => ("woke", [count as u64, 0], (None, first), Ok(None)),
        Came::Refused(refusal) => ("refused", [0; 2], none, Err(refusal)),
        Came::Other => ("other", [0; 2], none, Ok(None)),
    }
}

/// What a call without an answer of its own comes to.
fn done(answer: Result<(), CoreRefusal>) -> Came {
    match answer {
        Ok(()) => Came::Done,
        Err(refusal) => Came::Refused(refusal),
    }
}

/// What a poll comes to that took the place of this waker.
fn polled(answer: Poll<Result<(), ArmFault>>, replaced: Option<Waker>) -> Came {
    match answer {
        Poll::Ready(Ok(())) => Came::Done,
        Poll::Ready(Err(fault)) => Came::Unarmed(fault),
        Poll::Pending => Came::Pending(replaced.map(|waker| waker.0)),
    }
}

fn add<P: Poller>(core: &mut Core<P>) -> Came {
    match core.add() {
        Ok(key) => Came::Key(key.0),
        Err(refusal) => Came::Refused(refusal),
    }
}

fn del<P: Poller>(core: &mut Core<P>, key: u32) -> Came {
    done(core.del(Key(key)))
}

fn poll<P: Poller>(core: &mut Core<P>, key: u32, waker: u32) -> Came {
    match core.poll(Key(key), Dir::Read, Waker(waker)) {
        Ok(told) => polled(told.answer, told.replaced),
        Err(refusal) => Came::Refused(refusal),
    }
}

fn listen<P: Poller>(core: &mut Core<P>, key: u32, dir: Dir) -> Came {
    match core.listen(Key(key), dir) {
        Ok(listener) => Came::Number(listener),
        Err(refusal) => Came::Refused(refusal),
    }
}

fn step<P: Poller>(core: &mut Core<P>, listener: u64, waker: u32) -> Came {
    match core.step(listener, Waker(waker)) {
        Ok(answer) => polled(answer, None),
        Err(refusal) => Came::Refused(refusal),
    }
}

fn unlisten<P: Poller>(core: &mut Core<P>, listener: u64) -> Came {
    done(core.unlisten(listener))
}

fn begin<P: Poller>(core: &mut Core<P>, now: Moment, limit: Option<u64>) -> Came {
    match core.begin(now, limit) {
        Ok((number, limit)) => Came::Begun(number, limit),
        Err(refusal) => Came::Refused(refusal),
    }
}

fn wait<P: Poller>(core: &mut Core<P>) -> Came {
    match core.wait() {
        Ok(waited) => Came::Waited(waited),
        Err(refusal) => Came::Refused(refusal),
    }
}

fn handle<P: Poller>(core: &mut Core<P>) -> Came {
    match core.handle() {
        Ok(handled) => match handled.fault {
            Some(fault) => Came::Unarmed(fault),
            None => Came::Done,
        },
        Err(refusal) => Came::Refused(refusal),
    }
}

fn finish<P: Poller>(core: &mut Core<P>, now: Moment) -> Came {
    match core.finish(now) {
        Ok(fault) => Came::Ended(fault),
        Err(refusal) => Came::Refused(refusal),
    }
}

fn react<P: Poller>(core: &mut Core<P>, now: Moment, limit: Option<u64>) -> Came {
    match core.react(now, limit) {
        Ok(reacted) => Came::Reacted(reacted.number, reacted.events, reacted.fault),
        Err(refusal) => Came::Refused(refusal),
    }
}

pub(crate) fn woken<P: Poller>(core: &Core<P>) -> Came {
    let woken = core.woken();
    Came::Woke(woken.len(), woken.first().map(|waker| waker.0))
}

fn waits<P: Poller>(core: &mut Core<P>) -> Came {
    Came::Number(core.poller().waits())
}

/// Registers a timer, as with any host.
fn set_timer<H: TimerHost>(host: &mut H, at: Moment, waker: u32) -> Came {
    match insert(host, at, Waker(waker)) {
        Some(_) => Came::Done,
        None => Came::Other,
    }
}

/// Has the poller note an event of a source that may be read.
fn give(core: &mut Core<ScriptPoller>, key: u32) -> Came {
    let event = Event {
        key: Key(key),
        on: Interest::READ,
    };
    match core.poller().give(event) {
        Ok(()) => Came::Done,
        Err(_) => Came::Other,
    }
}

/// Has the poller's next arm fail.
fn fail_arm(core: &mut Core<ScriptPoller>) -> Came {
    core.poller().fail_next(Which::Arm);
    Came::Done
}

/// Does this at a moment.
pub(crate) fn act_at<P: Poller>(core: &mut Core<P>, now: u64, act: Act) -> Came {
    let Some(now) = Moment::new(now) else {
        return Came::Other;
    };
    match act {
        Act::Insert(_, waker) => set_timer(core, now, waker),
        Act::Begin(_, limit) => begin(core, now, limit),
        Act::Finish(_) => finish(core, now),
        Act::React(_, limit) => react(core, now, limit),
        _ => Came::Other,
    }
}

/// Does this with a source or a listener.
pub(crate) fn act_on<P: Poller>(core: &mut Core<P>, act: Act) -> Came {
    match act {
        Act::Add => add(core),
        Act::Del(key) => del(core, key),
        Act::Live(key) => Came::Is(core.live(Key(key))),
        Act::Poll(key, waker) => poll(core, key, waker),
        Act::Listen(key, dir) => listen(core, key, dir),
        Act::Step(listener, waker) => step(core, listener, waker),
        Act::Unlisten(listener) => unlisten(core, listener),
        _ => Came::Other,
    }
}

/// Does this.
pub(crate) fn comes_of(core: &mut Core<ScriptPoller>, act: Act) -> Came {
    match act {
        Act::Insert(now, _) | Act::Begin(now, _) | Act::Finish(now) | Act::React(now, _) => {
            act_at(core, now, act)
        }
        Act::Wait => wait(core),
        Act::Handle => handle(core),
        Act::Give(key) => give(core, key),
        Act::FailArm => fail_arm(core),
        Act::Woken => woken(core),
        Act::Ticker => Came::Number(core.ticker()),
        Act::Waits => waits(core),
        act => act_on(core, act),
    }
}

/// A core over a poller that has no event.
pub(crate) fn new_core(rt: &impl Abort, alloc: Global) -> Core<ScriptPoller> {
    let poller = ScriptPoller::new(alloc).expect(rt, MEMORY);
    Core::new(alloc, poller).ok().expect(rt, MEMORY)
}

/// Asserts that what these acts come to is what stands beside each.
pub(crate) fn plays(rt: &impl Abort, core: &mut Core<ScriptPoller>, rows: &[(Act, Came)]) {
    for (act, came) in rows {
        same(rt, told(comes_of(core, *act)), told(*came));
    }
}

/// What is done with a new core, and what comes of each act.
pub(crate) struct Row {
    /// What it shows.
    pub(crate) shows: &'static str,
    /// The acts, with what comes of each.
    pub(crate) acts: &'static [(Act, Came)],
}

/// Asserts that what the acts of a row come to is what stands beside each.
pub(crate) fn plays_anew(rt: &impl Abort, alloc: Global, row: &Row) {
    let mut core = new_core(rt, alloc);
    for (act, came) in row.acts {
        same_in(rt, row.shows, told(comes_of(&mut core, *act)), told(*came));
    }
}
