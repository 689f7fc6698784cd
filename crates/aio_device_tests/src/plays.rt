//! A connection, its client and its waits, as the rows of a table use them.

use crate::asserts::same_in;
use crate::joined::{
    Joined, LONG, PIECE, comes_to_its_end, connected, fill_and_drain, one_event, read_piece,
    read_some, send_all, watch,
};
use crate::plays::Act::{
    Add, Arm, Calls, End, Faults, FillAndDrain, Notify, Read, ReadPiece, ReadToEnd, Receive,
    Remove, Send, SendHalf, SendLast, SendNine, Wait, WaitFaults, Waits, Watch, Write,
};
use crate::plays::Came::{Blocked, Done, Event, Got, Nothing, Number, Refused, Went, Wrote};
use aio_base::{Conn, Did, EventWait, Failed, Interest, Key};
use aio_mio::MioConn;
use std::alloc::Global;
use std::net::{Net, Shutdown, TcpStream};
use std::process::Abort;
use std::sync;

/// What is done.
#[derive(Clone, Copy)]
pub(crate) enum Act {
    /// The client sends this byte.
    Send(u8),
    /// It sends nine of them at once.
    SendNine(u8),
    /// It sends half a piece of them at once.
    SendHalf(u8),
    /// It sends this byte and then the end.
    SendLast(u8),
    /// It sends the end.
    End,
    /// It reads a byte.
    Receive,
    /// Adds the connection under a key and arms it.
    Watch(u32, Interest),
    /// Adds it.
    Add(u32),
    /// Arms it.
    Arm(u32, Interest),
    /// Takes it out.
    Remove(u32),
    /// Reads from it, up to eight bytes.
    Read,
    /// Reads from it, up to a piece.
    ReadPiece,
    /// Reads from it until the end, arming it under key 9 and waiting before each read.
    ReadToEnd,
    /// Writes this byte to it.
    Write(u8),
    /// Writes to it until a write is blocked, arms it under key 1, and has the client read what was written.
    FillAndDrain,
    /// Counts its faults.
    Faults,
    /// Notifies.
    Notify,
    /// Waits with this limit, with room for one event.
    Wait(Option<u64>),
    /// Counts the waits.
    Waits,
    /// Counts the faults of waits.
    WaitFaults,
    /// Counts the notifies.
    Calls,
}

/// What comes of it.
#[derive(Clone, Copy)]
pub(crate) enum Came {
    /// Nothing failed.
    Done,
    /// An event of this key.
    Event(u32, Interest),
    /// No event.
    Nothing,
    /// So many bytes came, of which this is the first.
    Went(usize, u8),
    /// So many bytes went over.
    Wrote(usize),
    /// The connection is blocked.
    Blocked,
    /// The call failed, and no byte came.
    Refused,
    /// The client has this byte.
    Got(u8),
    /// So many.
    Number(u64),
    /// Something else.
    Other,
}

/// What came, as it is compared: which it is, its numbers, and the directions of an event.
fn told(came: Came) -> (&'static str, [u64; 2], Option<Interest>) {
    match came {
        Done => ("done", [0; 2], None),
        Event(key, on) => ("event", [key as u64, 0], Some(on)),
        Nothing => ("nothing", [0; 2], None),
        Went(count, first) => ("went", [count as u64, first as u64], None),
        Wrote(count) => ("wrote", [count as u64, 0], None),
        Blocked => ("blocked", [0; 2], None),
        Refused => ("refused", [0; 2], None),
        Got(byte) => ("got", [byte as u64, 0], None),
        Number(number) => ("number", [number, 0], None),
        Came::Other => ("other", [0; 2], None),
    }
}

/// What a call without an answer of its own comes to.
fn done(is_done: bool) -> Came {
    if is_done { Done } else { Came::Other }
}

/// Does this with a connection and a key.
fn act_on(conn: &mut MioConn, key: u32, act: Act) -> Came {
    if key >= 4096 {
        return Came::Other;
    }
    let answer = match act {
        Watch(_, on) => watch(conn, key, on),
        Arm(_, on) => aio_base::Arm::arm(conn, Key(key), on),
        Add(_) => aio_base::Arm::add(conn, Key(key)),
        _ => aio_base::Arm::remove(conn, Key(key)),
    };
    done(answer.is_ok())
}

/// What a wait comes to.
fn waited(answer: Result<Option<aio_base::Event>, Failed>) -> Came {
    match answer {
        Ok(Some(event)) => Event(event.key.0, event.on),
        Ok(None) => Nothing,
        Err(Failed) => Came::Other,
    }
}

/// What a read comes to, with the first byte of its room.
fn was_read(read: (Result<Did, Failed>, u8)) -> Came {
    match read {
        (Ok(Did::Bytes(count)), first) => Went(count, first),
        (Ok(Did::Blocked), 0) => Blocked,
        (Err(Failed), 0) => Refused,
        _ => Came::Other,
    }
}

/// What a write of one byte comes to.
fn written(conn: &mut MioConn, byte: u8) -> Came {
    match conn.write(&[byte]) {
        Ok(Did::Bytes(count)) => Wrote(count),
        Ok(Did::Blocked) => Blocked,
        Err(Failed) => Came::Other,
    }
}

/// Has the client send. Whether it did.
fn sent(client: &mut TcpStream, act: Act) -> bool {
    match act {
        Send(byte) => send_all(client, &[byte]),
        SendNine(byte) => send_all(client, &[byte; 9]),
        SendHalf(byte) => send_all(client, &[byte; PIECE / 2]),
        SendLast(byte) => send_all(client, &[byte]) && client.shutdown(Shutdown::Write).is_ok(),
        _ => client.shutdown(Shutdown::Write).is_ok(),
    }
}

/// What the client reads.
fn received(client: &mut TcpStream) -> Came {
    let mut buf = [0u8; 1];
    match std::io::Read::read(client, &mut buf) {
        Ok(1) => Got(buf[0]),
        _ => Came::Other,
    }
}

/// Does this.
fn comes_of<R: Net + Copy>(j: &mut Joined<R>, alloc: Global, act: Act) -> Came {
    match act {
        Send(_) | SendNine(_) | SendHalf(_) | SendLast(_) | End => done(sent(&mut j.client, act)),
        Receive => received(&mut j.client),
        Watch(key, _) | Arm(key, _) | Add(key) | Remove(key) => act_on(&mut j.conn, key, act),
        Read => was_read(read_some(&mut j.conn)),
        ReadPiece => was_read(read_piece(&mut j.conn)),
        ReadToEnd => done(comes_to_its_end(j, alloc)),
        FillAndDrain => done(fill_and_drain(&mut j.conn, &mut j.client)),
        Write(byte) => written(&mut j.conn, byte),
        Faults => Number(aio_base::Faults::faults(&j.conn)),
        Notify => done(aio_base::Notify::notify(&mut j.notify).is_ok()),
        Wait(limit) => waited(one_event(&mut j.wait, alloc, limit)),
        Waits => Number(j.wait.waits()),
        WaitFaults => Number(aio_base::Faults::faults(&j.wait)),
        Calls => Number(aio_base::Notify::calls(&j.notify)),
    }
}

/// What is done with a new connection, and what comes of each act.
pub(crate) struct Row {
    pub(crate) shows: &'static str,
    pub(crate) acts: &'static [(Act, Came)],
}

/// Asserts that what the acts of a row come to with this connection is what stands beside each.
pub(crate) fn plays_with<R: Net + Copy>(
    rt: &impl Abort,
    alloc: Global,
    j: &mut Joined<R>,
    row: &Row,
) {
    for (act, came) in row.acts {
        same_in(rt, row.shows, told(comes_of(j, alloc, *act)), told(*came));
    }
}

/// The same with a new one.
pub(crate) fn plays<R: Net<Stream = TcpStream> + Copy + sync::Wait + Abort>(
    rt: &R,
    alloc: Global,
    row: &Row,
) {
    let mut j = connected(rt, alloc);
    plays_with(rt, alloc, &mut j, row);
    drop(j);
}

/// Waits, and notifies between them.
const WAITS: &[Row] = &[
    Row {
        shows: "a notify before a wait ends it and hides no event",
        acts: &[
            (Send(1), Done),
            (Watch(7, Interest::READ), Done),
            (Notify, Done),
            (Wait(None), Nothing),
            (Wait(LONG), Event(7, Interest::READ)),
            (Waits, Number(2)),
            (Calls, Number(1)),
        ],
    },
    Row {
        shows: "a wait that only looks does so though it was told",
        acts: &[
            (Send(1), Done),
            (Watch(7, Interest::READ), Done),
            (Wait(LONG), Event(7, Interest::READ)),
            (Arm(7, Interest::READ), Done),
            (Notify, Done),
            (Wait(Some(0)), Event(7, Interest::READ)),
        ],
    },
    Row {
        shows: "notifies without pause hide no event",
        acts: &[
            (Send(1), Done),
            (Watch(7, Interest::READ), Done),
            (Wait(LONG), Event(7, Interest::READ)),
            (Read, Went(1, 1)),
            (Arm(7, Interest::READ), Done),
            (Send(2), Done),
            (Notify, Done),
            (Wait(LONG), Nothing),
            (Notify, Done),
            (Wait(LONG), Event(7, Interest::READ)),
        ],
    },
    Row {
        shows: "a wait that is told gives the edges that came before an arm",
        acts: &[
            (Send(1), Done),
            (Watch(7, Interest::READ), Done),
            (Wait(LONG), Event(7, Interest::READ)),
            (Arm(7, Interest::READ), Done),
            (Notify, Done),
            (Wait(LONG), Event(7, Interest::READ)),
        ],
    },
    Row {
        shows: "a wait that is told does not sleep, though the one before it was passed over",
        acts: &[
            (Watch(7, Interest::READ), Done),
            (Notify, Done),
            (Wait(None), Nothing),
            (Notify, Done),
            (Wait(None), Nothing),
        ],
    },
    Row {
        shows: "a wait without events is over with its limit",
        acts: &[
            (Watch(1, Interest::READ), Done),
            (Wait(Some(2_000_000)), Nothing),
            (Waits, Number(1)),
            (WaitFaults, Number(0)),
        ],
    },
];

#[test]
fn a_wait_gives_each_event_and_ends_by_a_notify_or_its_limit(rt: HostRuntime) {
    for row in WAITS {
        plays(&rt, rt.alloc(), row);
    }
}

/// Urgent readiness beside reading.
const URGENT_READING: Interest = Interest {
    priority: true,
    ..Interest::READ
};

/// Arms, reads and writes.
const CONNECTIONS: &[Row] = &[
    Row {
        shows: "an arm tells again what was not read",
        acts: &[
            (Send(1), Done),
            (Watch(7, Interest::READ), Done),
            (Wait(LONG), Event(7, Interest::READ)),
            (Wait(Some(0)), Nothing),
            (Arm(7, Interest::READ), Done),
            (Wait(LONG), Event(7, Interest::READ)),
        ],
    },
    Row {
        shows: "an event is of the directions that were armed",
        acts: &[
            (Send(1), Done),
            (Watch(4_095, Interest::WRITE), Done),
            (Wait(LONG), Event(4_095, Interest::WRITE)),
            (Arm(4_095, Interest::READ_WRITE), Done),
            (Wait(LONG), Event(4_095, Interest::READ_WRITE)),
        ],
    },
    Row {
        shows: "for urgent readiness alone the system is not asked",
        acts: &[
            (Send(1), Done),
            (Watch(7, Interest::PRIORITY), Done),
            (Wait(Some(0)), Nothing),
            (Remove(7), Done),
            (Faults, Number(0)),
        ],
    },
    Row {
        shows: "beside reading and writing the system is not asked for it either",
        acts: &[
            (Send(1), Done),
            (Watch(7, URGENT_READING), Done),
            (Wait(LONG), Event(7, Interest::READ)),
            (Arm(7, Interest::PRIORITY), Done),
            (Wait(Some(0)), Nothing),
            (Arm(7, Interest::ALL), Done),
            (Wait(LONG), Event(7, Interest::READ_WRITE)),
            (Faults, Number(0)),
        ],
    },
    Row {
        shows: "an edge that came while nothing was armed is given once it is",
        acts: &[
            (Watch(7, Interest::READ), Done),
            (Read, Blocked),
            (Send(1), Done),
            (Wait(LONG), Event(7, Interest::READ)),
            (Read, Went(1, 1)),
            (Send(2), Done),
            (Wait(Some(0)), Nothing),
            (Arm(7, Interest::READ), Done),
            (Wait(LONG), Event(7, Interest::READ)),
            (Read, Went(1, 2)),
            (Arm(7, Interest::READ), Done),
            (Wait(Some(0)), Nothing),
        ],
    },
    Row {
        shows: "an arm takes the place of the one before",
        acts: &[
            (Watch(7, Interest::READ), Done),
            (Send(1), Done),
            (Arm(7, Interest::WRITE), Done),
            (Wait(LONG), Event(7, Interest::WRITE)),
            (Wait(Some(0)), Nothing),
            (Arm(7, Interest::READ), Done),
            (Wait(LONG), Event(7, Interest::READ)),
            (Arm(7, Interest::READ), Done),
            (Arm(7, Interest::NONE), Done),
            (Wait(Some(0)), Nothing),
        ],
    },
    Row {
        shows: "what there was no room for gives an event once it is armed again",
        acts: &[
            (Watch(3, Interest::READ), Done),
            (Read, Blocked),
            (SendNine(4), Done),
            (Wait(LONG), Event(3, Interest::READ)),
            (Read, Went(8, 4)),
            (Arm(3, Interest::READ), Done),
            (Wait(LONG), Event(3, Interest::READ)),
            (Read, Went(1, 4)),
            (Arm(3, Interest::READ), Done),
            (Wait(Some(0)), Nothing),
        ],
    },
    Row {
        shows: "bytes are read after their event",
        acts: &[
            (Read, Blocked),
            (Watch(3, Interest::READ), Done),
            (Read, Blocked),
            (Send(5), Done),
            (Read, Blocked),
            (Wait(LONG), Event(3, Interest::READ)),
            (Read, Went(1, 5)),
            (Read, Blocked),
            (Faults, Number(0)),
        ],
    },
    Row {
        shows: "what there was no room for is read without a further event",
        acts: &[
            (Watch(3, Interest::READ), Done),
            (Read, Blocked),
            (SendNine(4), Done),
            (Wait(LONG), Event(3, Interest::READ)),
            (Read, Went(8, 4)),
            (Read, Went(1, 4)),
        ],
    },
    Row {
        shows: "what is written comes to the client",
        acts: &[(Write(8), Wrote(1)), (Receive, Got(8))],
    },
    Row {
        shows: "a key is used again after a removal",
        acts: &[
            (Watch(2, Interest::READ), Done),
            (Read, Blocked),
            (Remove(2), Done),
            (Send(6), Done),
            (Wait(Some(0)), Nothing),
            (Watch(2, Interest::READ), Done),
            (Wait(LONG), Event(2, Interest::READ)),
            (Read, Went(1, 6)),
        ],
    },
    Row {
        shows: "what is due of a connection that was taken out is not given",
        acts: &[
            (Watch(7, Interest::WRITE), Done),
            (Wait(LONG), Event(7, Interest::WRITE)),
            (Arm(7, Interest::WRITE), Done),
            (Remove(7), Done),
            (Wait(Some(0)), Nothing),
        ],
    },
    Row {
        shows: "an arm under another key tells of it under that key",
        acts: &[
            (Watch(7, Interest::READ), Done),
            (Arm(8, Interest::READ), Done),
            (Send(1), Done),
            (Wait(LONG), Event(8, Interest::READ)),
            (Read, Went(1, 1)),
            (Faults, Number(0)),
        ],
    },
    Row {
        shows: "a removal of what is not registered is no fault",
        acts: &[
            (Remove(2), Done),
            (Add(2), Done),
            (Arm(2, Interest::NONE), Done),
            (Remove(2), Done),
            (Faults, Number(0)),
        ],
    },
];

#[test]
fn a_connection_tells_what_is_armed_and_hands_bytes_over(rt: HostRuntime) {
    for row in CONNECTIONS {
        plays(&rt, rt.alloc(), row);
    }
}
