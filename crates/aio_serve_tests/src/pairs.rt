//! What no clause says of a pair over the sources of a shared reactor: that a thread which blocks on it
//! serves it to its end.

use crate::asserts::{MEMORY, same};
use crate::moments::moment;
use aio_base::{Arm, Clock, EventWait, Key, Notify, Task};
use aio_conns::{ENDS, MemConn, Peer, SILENT};
use aio_devices::{MemClock, MemNotify, MemWait, clock_until};
use aio_park::Thread;
use aio_places::SourceEnd;
use aio_relay::{Pair, PairEnd};
use aio_shared::Inside;
use std::alloc::Global;
use std::process::Abort;
use std::sync::{Arc, Wait};

/// A thread of a reactor of its own, whose sources have connections in memory.
pub(crate) type Server<R> = Thread<R, MemNotify, MemConn, MemWait, MemClock>;

/// An end over a source of such a reactor.
pub(crate) type End = SourceEnd<MemConn, MemWait>;

/// The idle time of the pairs.
pub(crate) const IDLE: u64 = 1000;

/// A thread whose clock stands at 0 for so many looks, and then at the idle time.
pub(crate) fn server<R: Wait + Copy + Abort>(rt: R, alloc: Global, looks: usize) -> Server<R> {
    let clock = clock_until(alloc, looks, moment(&rt, IDLE)).expect(&rt, MEMORY);
    Thread::new(alloc, rt, 1, MemWait::new(2), MemNotify::new(), clock).expect(&rt, MEMORY)
}

/// What the other ends of the connections of sides A and B do.
pub(crate) type Sides = [Peer<'static>; 2];

/// Side A sends two bytes of a line, then nothing for once, and then its end and two bytes more. Side B is blocked
/// once and ends.
pub(crate) const HALTING: Sides = [
    Peer {
        first: b"ab",
        blocks: true,
        last: b"\ncd",
        ..ENDS
    },
    Peer {
        blocks: true,
        ..ENDS
    },
];

/// An end over a new source of the thread's reactor, with a connection to this peer.
pub(crate) fn end_over<R: Wait + Copy + Abort>(
    server: &Server<R>,
    alloc: Global,
    peer: &Peer<'_>,
) -> End {
    let rt = server.host.rt;
    let shared = Arc::try_clone(&server.host.shared).expect(&rt, MEMORY);
    let conn = peer.connection(alloc).expect(&rt, MEMORY);
    match server.host.insert_source(conn) {
        Ok(token) => SourceEnd::new(shared, token),
        Err(_) => rt.panic("the reactor takes the source"),
    }
}

/// Ends over two connections.
pub(crate) fn ends_over<R: Wait + Copy + Abort>(
    server: &Server<R>,
    alloc: Global,
    sides: &Sides,
) -> (End, End) {
    let [a, b] = sides;
    let a = end_over(server, alloc, a);
    (a, end_over(server, alloc, b))
}

/// A pair of these ends.
fn pair_of(rt: &impl Abort, alloc: Global, (a, b): (End, End)) -> Pair<End> {
    let pair = Pair::new(alloc, a, b, IDLE, moment(rt, 0));
    pair.ok().expect(rt, MEMORY)
}

/// Polls a task to its end by a thread. It is over all types, since what `run` promises is long where they are known.
pub(crate) fn end_of<
    R: Wait + Copy + Abort,
    N: Notify,
    A: Arm,
    W: EventWait,
    C: Clock,
    T: Task<Inside<R, N, A, W>>,
>(thread: &mut Thread<R, N, A, W, C>, task: &mut T) -> T::Output {
    thread
        .run(task)
        .expect(&thread.host.rt, "the task comes to its end")
}

/// Whether a connection was sent just this text.
fn has(conn: &MemConn, text: &str) -> bool {
    conn.sent() == text.as_bytes()
}

/// Whether a side was sent just this text.
fn was_sent<R: Wait + Copy>(server: &Server<R>, end: End, text: &str) -> bool {
    let mut token = end.into_token();
    let cell = token.take(&server.host.rt);
    let sent = has(&cell.io, text);
    token.give(cell);
    sent
}

/// Serves a pair over two connections. Its end, and whether side B was sent this text.
fn relayed<R: Wait + Copy + Abort>(
    server: &mut Server<R>,
    alloc: Global,
    sides: &Sides,
    text: &str,
) -> (PairEnd, bool) {
    let ends = ends_over(server, alloc, sides);
    let mut pair = pair_of(&server.host.rt, alloc, ends);
    let end = end_of(server, &mut pair);
    let (_a, b) = pair.into_ends();
    (end, was_sent(server, b, text))
}

/// The same by a new thread, whose clock comes to the idle time after so many looks.
fn relayed_by_new<R: Wait + Copy + Abort>(
    rt: R,
    alloc: Global,
    looks: usize,
    sides: &Sides,
    text: &str,
) -> (PairEnd, bool) {
    let mut server = server(rt, alloc, looks);
    relayed(&mut server, alloc, sides, text)
}

#[test]
fn a_thread_serves_a_pair_to_its_end(rt: HostRuntime) {
    let found = relayed_by_new(&rt, rt.alloc(), 1000, &HALTING, "ab\n");
    same(&rt, found, (PairEnd::Ended { to_a: 0, to_b: 3 }, true));
}

/// Side A sends a line, and nothing comes after that.
const FALLS_SILENT: Sides = [
    Peer {
        first: b"x\n",
        blocks: true,
        ..SILENT
    },
    SILENT,
];

#[test]
fn a_pair_over_silent_connections_ends_idle(rt: HostRuntime) {
    let found = relayed_by_new(&rt, rt.alloc(), 20, &FALLS_SILENT, "x\n");
    let last = moment(&rt, 0);
    let now = moment(&rt, IDLE);
    same(&rt, found, (PairEnd::Idle { last, now }, true));
}

/// The key of a new source of a thread's reactor, which stays in it.
pub(crate) fn next_key<R: Wait + Copy + Abort>(server: &Server<R>, alloc: Global) -> Key {
    let end = end_over(server, alloc, &ENDS);
    end.into_token().key()
}

/// The keys of a source that joins the reactor of a new thread beside another, and of one that joins once that
/// other was closed.
fn keys_beside<R: Wait + Copy + Abort>(rt: R, alloc: Global) -> (Key, Key) {
    let server = server(rt, alloc, 1);
    let closed = end_over(&server, alloc, &ENDS);
    let beside = next_key(&server, alloc);
    closed.close(&rt).expect(&rt, "the source is closed");
    (beside, next_key(&server, alloc))
}

#[test]
fn the_key_of_an_end_that_was_closed_is_free_again(rt: HostRuntime) {
    same(&rt, keys_beside(&rt, rt.alloc()), (Key(1), Key(0)));
}
