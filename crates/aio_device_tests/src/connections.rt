//! What no clause says of a connection whose other end is slow or ends: that the end is read, and that a blocked
//! write goes on.

use crate::joined::{LONG, PIECE, client_of, connected};
use crate::plays::Act::{
    Add, Arm, End, Faults, FillAndDrain, Read, ReadPiece, ReadToEnd, Send, SendHalf, SendLast,
    Wait, Watch, Write,
};
use crate::plays::Came::{Blocked, Done, Event, Number, Refused, Went, Wrote};
use crate::plays::{Row, plays, plays_with};
use aio_base::Interest;
use std::mem;

const AN_END: Row = Row {
    shows: "an end that came with the last bytes",
    acts: &[
        (Watch(9, Interest::READ), Done),
        (Read, Blocked),
        (SendLast(5), Done),
        (Wait(LONG), Event(9, Interest::READ)),
        (Read, Went(1, 5)),
        (ReadToEnd, Done),
        (Read, Went(0, 0)),
    ],
};

#[test]
fn an_end_that_came_with_the_last_bytes_is_read(rt: HostRuntime) {
    plays(&rt, rt.alloc(), &AN_END);
}

const AN_END_AGAIN: Row = Row {
    shows: "an end that came with the last bytes, armed for after them",
    acts: &[
        (Watch(9, Interest::READ), Done),
        (Read, Blocked),
        (SendLast(5), Done),
        (Wait(LONG), Event(9, Interest::READ)),
        (Read, Went(1, 5)),
        (Arm(9, Interest::READ), Done),
        (Wait(LONG), Event(9, Interest::READ)),
        (Read, Went(0, 0)),
        (Arm(9, Interest::READ), Done),
        (Wait(LONG), Event(9, Interest::READ)),
    ],
};

#[test]
fn an_end_that_came_with_the_last_bytes_gives_an_event_of_its_own(rt: HostRuntime) {
    plays(&rt, rt.alloc(), &AN_END_AGAIN);
}

const MANY_BYTES: Row = Row {
    shows: "many bytes",
    acts: &[
        (Watch(9, Interest::READ), Done),
        (SendHalf(3), Done),
        (Wait(LONG), Event(9, Interest::READ)),
        (ReadPiece, Went(PIECE / 2, 3)),
        (Arm(9, Interest::READ), Done),
        (Send(5), Done),
        (ReadPiece, Blocked),
        (Wait(LONG), Event(9, Interest::READ)),
        (ReadPiece, Went(1, 5)),
    ],
};

#[test]
fn many_bytes_are_all_there_is_until_a_new_event(rt: HostRuntime) {
    plays(&rt, rt.alloc(), &MANY_BYTES);
}

const AN_END_BEHIND: Row = Row {
    shows: "an end behind many bytes",
    acts: &[
        (Watch(9, Interest::READ), Done),
        (SendHalf(3), Done),
        (Wait(LONG), Event(9, Interest::READ)),
        (End, Done),
        (ReadPiece, Went(PIECE / 2, 3)),
        (ReadPiece, Went(0, 0)),
        (ReadPiece, Went(0, 0)),
        (Faults, Number(0)),
    ],
};

#[test]
fn an_end_behind_many_bytes_is_read_without_a_further_event(rt: HostRuntime) {
    plays(&rt, rt.alloc(), &AN_END_BEHIND);
}

/// Half a piece came, and the client has not read what came to it.
const NOT_READ: Row = Row {
    shows: "a byte that the client does not read",
    acts: &[
        (Watch(9, Interest::READ), Done),
        (SendHalf(3), Done),
        (Wait(LONG), Event(9, Interest::READ)),
        (Write(8), Wrote(1)),
    ],
};

/// The next read fails once half a piece is read, and the end is read then.
const IS_RESET: Row = Row {
    shows: "a reset behind many bytes",
    acts: &[
        (ReadPiece, Went(PIECE / 2, 3)),
        (Faults, Number(0)),
        (ReadPiece, Refused),
        (Faults, Number(1)),
        (ReadPiece, Went(0, 0)),
    ],
};

#[test]
fn a_reset_behind_many_bytes_fails_the_next_read(rt: HostRuntime) {
    let mut j = connected(&rt, rt.alloc());
    plays_with(&rt, rt.alloc(), &mut j, &NOT_READ);
    let other = client_of(&rt, j.used);
    // A client that goes without having read what came to it resets the connection.
    drop(mem::replace(&mut j.client, other));
    plays_with(&rt, rt.alloc(), &mut j, &IS_RESET);
    drop(j);
}

const A_BLOCKED_WRITE: Row = Row {
    shows: "a blocked write",
    acts: &[
        (Add(1), Done),
        (FillAndDrain, Done),
        (Wait(LONG), Event(1, Interest::WRITE)),
        (Write(8), Wrote(1)),
        // and so does the next one, once its own event came
        (FillAndDrain, Done),
        (Wait(LONG), Event(1, Interest::WRITE)),
        (Write(8), Wrote(1)),
    ],
};

#[test]
fn a_blocked_write_goes_on_after_its_event(rt: HostRuntime) {
    plays(&rt, rt.alloc(), &A_BLOCKED_WRITE);
}
