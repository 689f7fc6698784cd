//! A thread with a source of its own, which carries out the acts of a table.

ghost use Rattle.std.specs.Prelude.{◌≡◌, ◌<◌, false};

use crate::acts::{Act, Came, Row, comes_in, inserted, polled, removed, woken};
use crate::asserts::ROOM;
use crate::hosts::{Caller, count_and_wake, enter, insert, insert_times, remove};
use crate::seats::{act_by_cell, act_on_words, poll_while_blocking};
use aio_base::{Arm, Dir, EventWait, Host, Notify, Waker};
use aio_devices::{MemNotify, MemWait, SureArm};
use aio_shared::{Inside, SourceRef};
use aio_source::{Polled, SourceCell};
use std::alloc::Global;
use std::process::Abort;
use std::sync::Wait;

/// A caller with the token of a source of its own, which is outside.
#[derive(Drop)]
pub(crate) struct Owner<R: Wait, N: Notify, A: Arm, W: EventWait> {
    /// The thread's way into the reactor.
    pub(crate) caller: Caller<R, N, A, W>,
    /// The token of its source.
    pub(crate) source: SourceRef<A>,
    ghost belongs: { source.words ≡ caller.host.shared.words.identity },
    ghost outside: { source.inside ≡ false },
}

/// Registers timers or takes them out again, or wakes a task.
fn act_on_host<H: Host>(host: &mut H, act: Act) -> Came
    ensures { H.is_later host.old host.new }
{
    match act {
        Act::Insert(at, waker) => inserted(insert(host, at, waker)),
        Act::InsertTimes(at, times) => Came::Times(insert_times(host, at, times, true)),
        Act::InsertAndRemove(at, times) => Came::Times(insert_times(host, at, times, false)),
        Act::Remove(at, id) => removed(remove(host, at, id)),
        Act::Wake(waker) => {
            let (rounds, answer) = count_and_wake(host, waker);
            woken(rounds, answer)
        }
        _ => Came::Other,
    }
}

impl<R: Wait, N: Notify, A: Arm, W: EventWait> Caller<R, N, A, W> {
    /// Does this, unless it is done to a source.
    pub(crate) fn act(&mut self, act: Act) -> Came
        ensures { self.new.host.shared ≡ self.old.host.shared }
    {
        let host = &mut self.host;
        match act {
            Act::React | Act::ReactAgain | Act::ReactWaiting | Act::Look => {
                act_by_cell(host, &mut self.clock, act)
            }
            Act::WakeApart(_) | Act::Take => {
                act_on_words(host.shared.words(), host.member.words_pass(), act)
            }
            _ => act_on_host(host, act),
        }
    }

    /// Asserts that what the acts of a row come to is what stands beside each.
    pub(crate) fn plays(&mut self, rt: &impl Abort, row: &Row) {
        for (act, came) in row.acts {
            comes_in(rt, row.shows, self.act(*act), *came);
        }
    }
}

impl<R: Wait + Abort, N: Notify + Drop, A: Arm + Drop, W: EventWait + Drop> Owner<R, N, A, W> {
    /// Inserts a connection.
    pub(crate) fn new(caller: Caller<R, N, A, W>, io: A) -> Owner<R, N, A, W> {
        match caller.host.insert_source(io) {
            Ok(source) => Owner { caller, source },
            Err(_) => caller.host.rt.panic(ROOM),
        }
    }
}

/// A thread with a source of its own in a new reactor over these devices, with a clock at this moment.
pub(crate) fn owner_over<
    R: Wait + Abort + Copy,
    N: Notify + Drop,
    A: Arm + Drop,
    W: EventWait + Drop,
>(rt: R, alloc: Global, devices: (N, A, W), now: u64) -> Owner<R, N, A, W> {
    let (notifier, io, wait) = devices;
    Owner::new(enter(rt, alloc, 1, (wait, notifier), now), io)
}

/// Listens to the read direction of a source so many times, with waker 3. How often it did.
fn listen_each<A: Arm>(cell: &mut SourceCell<A>, ticker: u64, times: u32) -> u32
    ensures { cell.new.state.key ≡ cell.old.state.key }
{
    let mut done: u32 = 0;
    for _ in 0..times {
        let listened = cell
            .state
            .first_listen(&mut cell.io, Dir::Read, Waker(3), ticker);
        if listened.is_ok() {
            done = done.saturating_add(1);
        }
    }
    done
}

/// Polls a source, or listens to it.
fn visit<A: Arm>(cell: &mut SourceCell<A>, ticker: u64, act: Act) -> Came
    ensures { cell.new.state.key ≡ cell.old.state.key }
{
    match act {
        Act::Poll(dir, waker) => {
            let answer = cell.state.poll_dir(&mut cell.io, dir, Waker(waker), ticker);
            polled(&answer.answer)
        }
        Act::Listen(times) => Came::Times(listen_each(cell, ticker, times)),
        _ => Came::Other,
    }
}

impl<R: Wait, N: Notify, A: Arm, W: EventWait> Owner<R, N, A, W> {
    /// Enters the source, polls it or listens to it, and leaves it.
    fn visit(&mut self, act: Act) -> Came {
        let ticker = self.caller.host.ticker();
        let host = &self.caller.host;
        let mut cell = host.shared.enter(&host.rt, &mut self.source);
        let came = visit(&mut cell, ticker, act);
        host.shared.leave(&mut self.source, cell);
        came
    }

    /// Does this.
    pub(crate) fn act(&mut self, act: Act) -> Came {
        match act {
            Act::Poll(..) | Act::Listen(_) => self.visit(act),
            Act::PollBlocking => poll_while_blocking(&mut self.caller.host, &mut self.source),
            act => self.caller.act(act),
        }
    }

    /// Asserts that what the acts of a row come to is what stands beside each.
    pub(crate) fn plays(&mut self, rt: &impl Abort, row: &Row) {
        for (act, came) in row.acts {
            comes_in(rt, row.shows, self.act(*act), *came);
        }
    }
}

/// Makes a new reactor over these devices for the thread of a row, inserts its connection, and asserts that what
/// the acts come to is what stands beside each.
pub(crate) fn plays<R: Wait + Abort, N: Notify + Drop, A: Arm + Drop, W: EventWait + Drop>(
    rt: &R,
    alloc: Global,
    devices: (N, A, W),
    row: &Row,
) {
    let mut owner = owner_over(rt, alloc, devices, row.now);
    owner.plays(rt, row);
    drop(owner);
}

/// The same over this wait, with a notifier and a connection that never fail.
pub(crate) fn plays_over<R: Wait + Abort, W: EventWait + Drop>(
    rt: &R,
    alloc: Global,
    wait: W,
    row: &Row,
) {
    plays(rt, alloc, (MemNotify::new(), SureArm::new(7), wait), row);
}

/// The same for each row, over a wait that gives events of the row's keys.
pub(crate) fn plays_each<R: Wait + Abort>(rt: &R, alloc: Global, rows: &[Row]) {
    for row in rows {
        plays_over(rt, alloc, MemWait::new(row.keys.min(1024)), row);
    }
}

impl<R: Wait, N: Notify, W: EventWait> Owner<R, N, SureArm, W> {
    /// Enters the source, polls its read direction, raises its connection's number by one, and leaves it. The
    /// answer, and the number then.
    pub(crate) fn poll_and_count(&mut self, waker: u32) -> (Polled, u64) {
        let ticker = self.caller.host.ticker();
        let host = &self.caller.host;
        let mut cell = host.shared.enter(&host.rt, &mut self.source);
        let polled = cell
            .state
            .poll_dir(&mut cell.io, Dir::Read, Waker(waker), ticker);
        let number = cell.io.number.saturating_add(1);
        cell.io.number = number;
        host.shared.leave(&mut self.source, cell);
        (polled, number)
    }
}
