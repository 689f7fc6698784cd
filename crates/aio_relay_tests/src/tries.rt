//! What no clause says of entered sources: what their tries and polls come to one after the other, and that a
//! connection is tried twice at most.

ghost use Rattle.std.specs.Prelude.{◌≡◌};

use crate::asserts::{MEMORY, same_in};
use crate::tries::Act::{Event, Listen, PollPriority, PollReadable, PollWritable, Read, Write};
use crate::tries::Came::{Failed, Other, Ready, Took, Waits, Went};
use aio_base::{ArmFault, CountFault, Dir, Interest, Key, Waker};
use aio_conns::{ENDS, MemConn, Peer, SILENT};
use aio_future::{Async, Poll, Tried, TryFault};
use aio_source::{ListenRefusal, Polled, SourceCell, SourceState};
use std::alloc::Global;
use std::process::Abort;

/// What is done with a source while no round has begun.
#[derive(Clone, Copy)]
enum Act {
    /// Reads up to four bytes, with this waker.
    Read(u32),
    /// Writes a text, with this waker.
    Write(&'static str, u32),
    /// Polls whether it is readable, with this waker.
    PollReadable(u32),
    /// Polls whether it is writable, with this waker.
    PollWritable(u32),
    /// Polls whether it is urgently ready, with this waker.
    PollPriority(u32),
    /// Polls a new listener of a direction, with this waker, and lets it go.
    Listen(Dir, u32),
    /// Handles an event of these directions in round 1.
    Event(Interest),
}

/// What comes of it.
#[derive(Clone, Copy)]
pub(crate) enum Came {
    /// So many bytes went over.
    Went(usize),
    /// It waits, in place of this waker if of any.
    Waits(Option<u32>),
    /// The direction is ready.
    Ready,
    /// A call of the connection failed.
    Failed(TryFault),
    /// The event took this waker first, if it took any.
    Took(Option<u32>),
    /// Something else.
    Other,
}

/// What came, as it is compared: which it is, its number, its waker, and how a try failed.
pub(crate) type Told = (&'static str, u64, Option<u32>, Option<TryFault>);

/// What came, as it is compared.
pub(crate) fn told(came: Came) -> Told {
    match came {
        Went(count) => ("went", count as u64, None, None),
        Waits(waker) => ("waits", 0, waker, None),
        Ready => ("ready", 0, None, None),
        Failed(fault) => ("failed", 0, None, Some(fault)),
        Took(waker) => ("took", 0, waker, None),
        Other => ("other", 0, None, None),
    }
}

/// The waker that was handed out, as a number.
fn number(waker: Option<Waker>) -> Option<u32> {
    waker.map(|waker| waker.0)
}

/// What a try comes to.
fn tried(tried: Tried) -> Came {
    match tried.answer {
        Poll::Ready(Ok(n)) => Went(n),
        Poll::Ready(Err(fault)) => Failed(fault),
        Poll::Pending => Waits(number(tried.replaced)),
    }
}

/// What a poll comes to.
fn polled(polled: Polled) -> Came {
    match polled.answer {
        Poll::Ready(Ok(())) => Ready,
        Poll::Ready(Err(fault)) => Failed(TryFault::Arm(fault)),
        Poll::Pending => Waits(number(polled.replaced)),
    }
}

/// Reads up to four bytes.
fn read(source: &mut Async<'_, MemConn>, waker: u32) -> Came {
    let mut buf = [0; 4];
    tried(source.read_with(&mut buf, Waker(waker)))
}

/// Writes a text that is not empty.
fn write(source: &mut Async<'_, MemConn>, text: &str, waker: u32) -> Came {
    let text = text.as_bytes();
    if text.is_empty() {
        return Other;
    }
    tried(source.write_with(text, Waker(waker)))
}

/// What a poll of a listener comes to.
pub(crate) fn listened(answer: Poll<Result<(), ListenRefusal>>) -> Came {
    match answer {
        Poll::Ready(Ok(())) => Ready,
        Poll::Ready(Err(ListenRefusal::ArmFault { fault, .. })) => Failed(TryFault::Arm(fault)),
        Poll::Ready(Err(_)) => Other,
        Poll::Pending => Waits(None),
    }
}

/// Polls a new listener. Letting it go leaves it in the source.
fn listen(source: &mut Async<'_, MemConn>, dir: Dir, waker: u32) -> Came {
    let mut ready = aio_future::Ready::new(dir);
    listened(ready.poll(source, Waker(waker)))
}

/// Handles an event of a source in round 1.
pub(crate) fn handle(cell: &mut SourceCell<MemConn>, on: Interest, taken: &mut Vec<Waker>) -> Came {
    taken.clear();
    let waiting = cell
        .state
        .waiting(Dir::Write)
        .saturating_add(cell.state.waiting(Dir::Read))
        .saturating_add(cell.state.waiting(Dir::Priority));
    if waiting as usize > taken.capacity() - taken.len() {
        return Other;
    }
    let event = aio_base::Event {
        key: cell.state.key(),
        on,
    };
    match cell.state.handle(&mut cell.io, event, 1, taken) {
        Ok(()) => Took(number(taken.first().copied())),
        Err(fault) => Failed(TryFault::Arm(fault)),
    }
}

/// Does this. An event needs room for the wakers that it takes.
fn comes_of(act: Act, cell: &mut SourceCell<MemConn>, taken: &mut Vec<Waker>) -> Came {
    if let Event(on) = act {
        return handle(cell, on, taken);
    }
    let mut source = Async::of(cell, 0);
    match act {
        Read(waker) => read(&mut source, waker),
        Write(text, waker) => write(&mut source, text, waker),
        PollReadable(waker) => polled(source.poll_readable(Waker(waker))),
        PollWritable(waker) => polled(source.poll_writable(Waker(waker))),
        PollPriority(waker) => polled(source.poll_priority(Waker(waker))),
        Listen(dir, waker) => listen(&mut source, dir, waker),
        Event(_) => Other,
    }
}

/// An entered source: what the other end of its connection does, and its acts with what comes of each.
struct Row {
    shows: &'static str,
    peer: Peer<'static>,
    acts: &'static [(Act, Came)],
}

/// Asserts that what the acts of a row come to over this source is what stands beside each.
fn plays_over(rt: &impl Abort, cell: &mut SourceCell<MemConn>, row: &Row, taken: &mut Vec<Waker>) {
    for (act, came) in row.acts {
        same_in(
            rt,
            row.shows,
            told(comes_of(*act, cell, taken)),
            told(*came),
        );
    }
}

const KEY: Key = Key(3);

/// The same over a new source.
fn plays(rt: &impl Abort, alloc: Global, row: &Row) {
    let mut taken = Vec::with_capacity(alloc, 8).expect(rt, MEMORY);
    let io = row.peer.connection(alloc).expect(rt, MEMORY);
    let state = SourceState::new(alloc, KEY);
    let mut cell = SourceCell { state, io };
    plays_over(rt, &mut cell, row, &mut taken);
}

/// The first fault of a connection.
const FIRST: CountFault = CountFault {
    before: 0,
    after: 1,
};

/// The first fault of a connection, in an arm.
const FIRST_ARM: ArmFault = ArmFault {
    key: KEY,
    before: 0,
    after: 1,
};

/// Is blocked once, then sends two bytes, and ends.
const BLOCKED_ONCE: Peer<'static> = Peer {
    blocks: true,
    last: b"ab",
    ..ENDS
};

/// Nothing comes, nothing is taken, and the fourth call fails.
const FOURTH_FAILS: Peer<'static> = Peer {
    fails: &[4],
    room: 0,
    ..SILENT
};

/// The same where the fifth call fails.
const FIFTH_FAILS: Peer<'static> = Peer {
    fails: &[5],
    room: 0,
    ..SILENT
};

/// Nothing comes, and the first call fails.
const FIRST_ARM_FAILS: Peer<'static> = Peer {
    fails: &[1],
    ..SILENT
};

/// Entered sources, each over a new connection.
const ROWS: &[Row] = &[
    Row {
        shows: "a blocked read is tried again where the source is ready",
        peer: BLOCKED_ONCE,
        acts: &[
            (PollReadable(1), Waits(None)),
            (Event(Interest::READ), Took(Some(1))),
            (Read(2), Went(2)),
            (Read(2), Went(0)),
        ],
    },
    Row {
        shows: "a second read that fails is told",
        peer: Peer {
            fails: &[3],
            ..BLOCKED_ONCE
        },
        acts: &[
            (PollReadable(1), Waits(None)),
            (Event(Interest::READ), Took(Some(1))),
            (Read(2), Failed(TryFault::Read(FIRST))),
            (Read(2), Went(2)),
        ],
    },
    // The poll arms first, then come two reads, and the fourth call is an arm.
    Row {
        shows: "a read arms after two tries",
        peer: FOURTH_FAILS,
        acts: &[
            (PollReadable(1), Waits(None)),
            (Event(Interest::READ), Took(Some(1))),
            (Read(2), Failed(TryFault::Arm(FIRST_ARM))),
        ],
    },
    // There is no fifth call before the next read.
    Row {
        shows: "a read is tried twice at most",
        peer: FIFTH_FAILS,
        acts: &[
            (PollReadable(1), Waits(None)),
            (Event(Interest::READ), Took(Some(1))),
            (Read(2), Waits(None)),
            (Read(2), Failed(TryFault::Read(FIRST))),
        ],
    },
    Row {
        shows: "a write arms after two tries",
        peer: FOURTH_FAILS,
        acts: &[
            (PollWritable(1), Waits(None)),
            (Event(Interest::WRITE), Took(Some(1))),
            (Write("ab", 2), Failed(TryFault::Arm(FIRST_ARM))),
        ],
    },
    Row {
        shows: "a write is tried twice at most",
        peer: FIFTH_FAILS,
        acts: &[
            (PollWritable(1), Waits(None)),
            (Event(Interest::WRITE), Took(Some(1))),
            (Write("ab", 2), Waits(None)),
            (Write("ab", 2), Failed(TryFault::Write(FIRST))),
        ],
    },
    Row {
        shows: "a waker that another replaces is handed out",
        peer: SILENT,
        acts: &[
            (Read(1), Waits(None)),
            (Read(2), Waits(Some(1))),
            (Read(2), Waits(None)),
            (PollReadable(3), Waits(Some(2))),
            (Event(Interest::READ), Took(Some(3))),
            (PollReadable(4), Ready),
            (PollReadable(4), Waits(None)),
        ],
    },
    Row {
        shows: "a waker that another write replaces is handed out",
        peer: Peer {
            at_once: 2,
            room: 3,
            ..SILENT
        },
        acts: &[
            (Write("abc", 1), Went(2)),
            (Write("cd", 1), Went(1)),
            (Write("d", 1), Waits(None)),
            (Write("d", 2), Waits(Some(1))),
            (PollWritable(3), Waits(Some(2))),
            (Event(Interest::READ_WRITE), Took(Some(3))),
            (PollWritable(4), Ready),
            (Write("d", 4), Waits(None)),
        ],
    },
    Row {
        shows: "a waiter stays where its arm failed",
        peer: FIRST_ARM_FAILS,
        acts: &[
            (PollWritable(1), Failed(TryFault::Arm(FIRST_ARM))),
            (PollWritable(2), Waits(Some(1))),
            (Write("ab", 2), Went(2)),
            (Read(5), Waits(None)),
        ],
    },
    Row {
        shows: "a listener stays where its arm failed",
        peer: FIRST_ARM_FAILS,
        acts: &[
            (Listen(Dir::Read, 1), Failed(TryFault::Arm(FIRST_ARM))),
            (Event(Interest::READ), Took(Some(1))),
            (Event(Interest::READ), Took(None)),
        ],
    },
    Row {
        shows: "a poll of urgent readiness arms, and waits until an event of it",
        peer: FIRST_ARM_FAILS,
        acts: &[
            (PollPriority(1), Failed(TryFault::Arm(FIRST_ARM))),
            (PollPriority(1), Waits(None)),
            (Event(Interest::READ_WRITE), Took(None)),
            (PollPriority(1), Waits(None)),
            (Event(Interest::PRIORITY), Took(Some(1))),
            (PollPriority(1), Ready),
            (PollPriority(1), Waits(None)),
        ],
    },
    Row {
        shows: "a listener of urgent readiness waits until an event of it",
        peer: SILENT,
        acts: &[
            (Listen(Dir::Priority, 1), Waits(None)),
            (Event(Interest::READ_WRITE), Took(None)),
            (Event(Interest::PRIORITY), Took(Some(1))),
        ],
    },
    Row {
        shows: "a listener waits until an event of its direction",
        peer: SILENT,
        acts: &[
            (Listen(Dir::Read, 1), Waits(None)),
            (Listen(Dir::Read, 2), Waits(None)),
            (Event(Interest::WRITE), Took(None)),
            (Event(Interest::READ), Took(Some(1))),
            (Event(Interest::READ), Took(None)),
        ],
    },
];

#[test]
fn a_source_is_tried_twice_at_most_and_waits_armed(rt: HostRuntime) {
    for row in ROWS {
        plays(&rt, rt.alloc(), row);
    }
}
