//! What no clause says of connections in memory: that they are made with ample memory, and what their calls come
//! to one after the other, through the bounds.

use crate::asserts::{MEMORY, same, same_in};
use crate::memory_connections::Act::{Add, Arm, Faults, Read, Remove, Write};
use crate::memory_connections::Came::{Blocked, Counted, Done, Failed, Went};
use crate::peers::{TORN, sure_connection};
use aio_base::{Conn, Did, Interest, Key};
use aio_conns::{ENDS, Peer, SILENT};
use std::alloc::Global;
use std::process::Abort;

/// A call of a connection.
#[derive(Clone, Copy)]
enum Act {
    /// Adds it under key 5.
    Add,
    /// Arms it for reading and writing.
    Arm,
    /// Takes it out again.
    Remove,
    /// Reads so many bytes, four at most.
    Read(usize),
    /// Writes a text.
    Write(&'static str),
    /// Counts its faults.
    Faults,
}

/// What it answers.
#[derive(Clone, Copy)]
enum Came {
    /// Nothing failed.
    Done,
    /// So many bytes went over.
    Went(usize),
    /// The connection is blocked.
    Blocked,
    /// The call failed.
    Failed,
    /// So many faults.
    Counted(u64),
}

/// An answer, as it is compared: which it is, and its number.
fn told(came: Came) -> (&'static str, u64) {
    match came {
        Done => ("done", 0),
        Went(count) => ("went", count as u64),
        Blocked => ("blocked", 0),
        Failed => ("failed", 0),
        Counted(faults) => ("counted", faults),
    }
}

const KEY: Key = Key(5);

/// What a call without an answer of its own comes to.
fn done(answer: Result<(), aio_base::Failed>) -> Came {
    match answer {
        Ok(()) => Done,
        Err(_) => Failed,
    }
}

/// What a read or a write comes to.
fn went(answer: Result<Did, aio_base::Failed>) -> Came {
    match answer {
        Ok(Did::Bytes(n)) => Went(n),
        Ok(Did::Blocked) => Blocked,
        Err(_) => Failed,
    }
}

/// Reads so many bytes, of one to four, and has them follow what was read before.
fn read<C: Conn>(conn: &mut C, room: usize, heard: &mut Vec<u8>) -> Came {
    let mut buf = [0; 4];
    let room = room.clamp(1, 4);
    let answer = conn.read(&mut buf[..room]);
    if let Ok(Did::Bytes(n)) = answer {
        if heard.extend_from_slice(&buf[..n]).is_err() {
            return Failed;
        }
    }
    went(answer)
}

/// Writes a text that is not empty.
fn write<C: Conn>(conn: &mut C, text: &str) -> Came {
    let text = text.as_bytes();
    if text.is_empty() {
        return Failed;
    }
    went(conn.write(text))
}

/// Makes a call. What is read follows what was read before.
fn comes_of<C: Conn>(act: Act, conn: &mut C, heard: &mut Vec<u8>) -> Came {
    match act {
        Add => done(conn.add(KEY)),
        Arm => done(conn.arm(KEY, Interest::READ_WRITE)),
        Remove => done(conn.remove(KEY)),
        Read(room) => read(conn, room, heard),
        Write(text) => write(conn, text),
        Faults => Counted(conn.faults()),
    }
}

/// A connection in memory: what its other end does, the calls with what comes of each, and which texts were read
/// and sent then.
struct Row {
    shows: &'static str,
    peer: Peer<'static>,
    calls: &'static [(Act, Came)],
    read: &'static str,
    sent: &'static str,
}

/// Asserts that what the calls of a row come to is what stands beside each, and that the reads gave its text.
fn calls<C: Conn>(rt: &impl Abort, alloc: Global, conn: &mut C, row: &Row) {
    let mut heard = Vec::new(alloc);
    for (act, came) in row.calls {
        same_in(
            rt,
            row.shows,
            told(comes_of(*act, conn, &mut heard)),
            told(*came),
        );
    }
    same(rt, heard.as_slice(), row.read.as_bytes());
}

/// Asserts what the calls of a row come to over a connection whose calls may fail, and what was sent.
fn plays(rt: &impl Abort, alloc: Global, row: &Row) {
    let mut conn = row.peer.connection(alloc).expect(rt, MEMORY);
    calls(rt, alloc, &mut conn, row);
    same(rt, conn.sent(), row.sent.as_bytes());
}

/// The same over a connection of which no call fails.
fn plays_surely(rt: &impl Abort, alloc: Global, row: &Row) {
    let mut conn = sure_connection(rt, alloc, &row.peer);
    calls(rt, alloc, &mut conn, row);
    same(rt, conn.sent(), row.sent.as_bytes());
}

/// Connections of which no call fails.
const SURE: &[Row] = &[
    Row {
        shows: "pieces are read in order and a block once",
        peer: TORN,
        calls: &[
            (Read(2), Went(2)),
            (Read(2), Blocked),
            (Read(1), Went(1)),
            (Read(4), Went(2)),
            (Read(4), Went(0)),
            (Read(1), Went(0)),
            (Remove, Done),
            (Faults, Counted(0)),
        ],
        read: "ab\ncd",
        sent: "",
    },
    Row {
        shows: "writes are taken up to the room",
        peer: Peer {
            at_once: 2,
            room: 5,
            ..ENDS
        },
        calls: &[
            (Write("abcd"), Went(2)),
            (Write("x"), Went(1)),
            (Write("yz"), Went(2)),
            (Write("u"), Blocked),
            (Write("uv"), Blocked),
        ],
        read: "",
        sent: "abxyz",
    },
    Row {
        shows: "a piece without bytes is passed over",
        peer: Peer {
            blocks: true,
            last: b"abc",
            ..SILENT
        },
        calls: &[
            (Read(4), Blocked),
            (Read(2), Went(2)),
            (Read(4), Went(1)),
            (Read(4), Blocked),
            (Read(4), Blocked),
        ],
        read: "abc",
        sent: "",
    },
];

#[test]
fn a_connection_gives_its_pieces_and_takes_what_has_room(rt: HostRuntime) {
    for row in SURE {
        plays(&rt, rt.alloc(), row);
        plays_surely(&rt, rt.alloc(), row);
    }
}

/// A connection of which each second call fails, of the first eight.
const UNSURE: Row = Row {
    shows: "calls of all kinds are numbered together",
    peer: Peer {
        fails: &[2, 4, 6, 8],
        ..TORN
    },
    calls: &[
        (Add, Done),
        (Arm, Failed),
        (Arm, Done),
        (Read(4), Failed),
        (Read(4), Went(2)),
        (Write("x"), Failed),
        (Write("yz"), Went(2)),
        (Remove, Failed),
        (Remove, Done),
        (Faults, Counted(4)),
    ],
    read: "ab",
    sent: "yz",
};

#[test]
fn calls_of_all_kinds_are_numbered_together(rt: HostRuntime) {
    plays(&rt, rt.alloc(), &UNSURE);
}
