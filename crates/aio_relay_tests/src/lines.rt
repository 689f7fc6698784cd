//! What a pair passes on: whole lines alone, in order and each once, whatever the connections take at a time.

use crate::asserts::{MEMORY, same};
use crate::hosts::{ListHost, Trouble};
use crate::peers::{TORN, sure_connection};
use crate::relays::Act::{At, Length, Sent, Timers, Woken};
use crate::relays::Came::{Count, Ended, Idles, Is, One, Slots, TooLong, Waits};
use crate::relays::{Act, Came, QUIET, Row, moment, pair_of, plays, plays_each, poll};
use aio_base::{Cx, Host, Moment, Poll, Task};
use aio_conns::{ENDS, Peer, SureConn};
use aio_relay::{MemEnd, Pair, PairEnd, Side};
use std::alloc::Global;
use std::process::Abort;

/// Bytes that are one too few for the longest line with its line feed.
const LONG: &[u8] = &[b'a'; 4095];

/// Bytes that are one too many for a line whose end is still to come.
const ENDLESS: &[u8] = &[b'a'; 4096];

/// As many empty lines as a poll reads of a side, less six.
const MANY: &[u8] = &[b'\n'; 65_530];

/// Pairs over which lines come.
const ROWS: &[Row<'static>] = &[
    Row {
        shows: "a torn last line is not passed on",
        a: TORN,
        b: ENDS,
        acts: &[
            (At(0), Waits),
            (Sent(Side::B, ""), Is(true)),
            (Timers, One(1000, 0)),
            (At(0), Ended(0, 3)),
            (Sent(Side::B, "ab\n"), Is(true)),
            (Sent(Side::A, ""), Is(true)),
            (Timers, Count(0)),
            (Woken, Slots(0)),
        ],
        ..QUIET
    },
    Row {
        shows: "lines are passed on both ways",
        a: Peer {
            first: b"ab\ncd",
            ..ENDS
        },
        b: Peer {
            first: b"x\nx\ny",
            ..ENDS
        },
        acts: &[
            (At(0), Ended(4, 3)),
            (Sent(Side::A, "x\nx\n"), Is(true)),
            (Sent(Side::B, "ab\n"), Is(true)),
        ],
        ..QUIET
    },
    Row {
        shows: "lines are passed on in as many writes as it takes",
        a: Peer {
            first: b"ab\nc\nc\n",
            ..ENDS
        },
        b: Peer { at_once: 1, ..ENDS },
        acts: &[
            (At(0), Ended(0, 7)),
            (Sent(Side::B, "ab\nc\nc\n"), Is(true)),
        ],
        ..QUIET
    },
    Row {
        shows: "what finds no room is kept",
        a: Peer {
            first: b"abc\nd\n",
            ..ENDS
        },
        b: Peer { room: 2, ..ENDS },
        acts: &[
            (At(0), Waits),
            (Sent(Side::B, "ab"), Is(true)),
            (At(999), Waits),
            (At(1000), Idles(0, 1000)),
            (Sent(Side::B, "ab"), Is(true)),
        ],
        ..QUIET
    },
    Row {
        shows: "a line of 4096 bytes is passed on",
        a: Peer {
            first: LONG,
            last: b"\n",
            ..ENDS
        },
        b: ENDS,
        acts: &[(At(0), Ended(0, 4096)), (Length(Side::B), Count(4096))],
        ..QUIET
    },
    Row {
        shows: "a line has 4096 bytes at most",
        a: Peer {
            first: ENDLESS,
            ..ENDS
        },
        acts: &[
            (At(0), TooLong(Side::A, 4096)),
            (Sent(Side::B, ""), Is(true)),
        ],
        ..QUIET
    },
    Row {
        shows: "a poll that reads less than 65536 bytes comes to the end",
        a: Peer {
            first: MANY,
            last: b"12345",
            ..ENDS
        },
        b: ENDS,
        acts: &[
            (At(0), Ended(0, 65_530)),
            (Length(Side::B), Count(65_530)),
            (Woken, Slots(0)),
        ],
        ..QUIET
    },
    Row {
        shows: "a poll reads 65536 bytes of a side",
        a: Peer {
            first: MANY,
            last: b"123456",
            ..ENDS
        },
        b: ENDS,
        acts: &[
            (At(0), Waits),
            (Woken, Slots(1)),
            (At(0), Ended(0, 65_530)),
            (Length(Side::B), Count(65_530)),
            (Woken, Slots(0)),
        ],
        ..QUIET
    },
    Row {
        shows: "a pair is polled again after a block of side B",
        a: ENDS,
        b: Peer {
            first: MANY,
            last: b"123456",
            ..ENDS
        },
        acts: &[
            (At(0), Waits),
            (Woken, Slots(1)),
            (At(0), Ended(65_530, 0)),
            (Length(Side::A), Count(65_530)),
            (Woken, Slots(0)),
        ],
        ..QUIET
    },
];

#[test]
fn whole_lines_are_passed_on_in_order_and_once(rt: HostRuntime) {
    plays_each(&rt, rt.alloc(), ROWS);
}

/// A block of bytes: the longest line, lines of ten bytes, and the front of another.
fn block(rt: &impl Abort, alloc: Global) -> Vec<u8> {
    let mut bytes = LONG.to_vec(alloc).expect(rt, MEMORY);
    bytes.push(b'\n').expect(rt, MEMORY);
    for _line in 0..6143 {
        bytes.extend_from_slice(b"123456789\n").expect(rt, MEMORY);
    }
    bytes.extend_from_slice(b"1234567890").expect(rt, MEMORY);
    bytes
}

/// Makes a pair over what sides A and B send, and asserts that what these acts come to is what stands beside each.
fn plays_over(rt: &impl Abort, alloc: Global, a: &[u8], b: &[u8], acts: &[(Act, Came)]) {
    let row = Row {
        shows: "bytes that come with one read",
        a: Peer { first: a, ..ENDS },
        b: Peer { first: b, ..ENDS },
        acts,
        ..QUIET
    };
    plays(rt, alloc, &row);
}

const ARE_PASSED_ON: [(Act, Came); 5] = [
    (At(0), Waits),
    (Woken, Slots(1)),
    (At(0), Ended(0, 65_526)),
    (Length(Side::B), Count(65_526)),
    (Woken, Slots(0)),
];

#[test]
fn lines_that_come_with_one_read_are_passed_on(rt: HostRuntime) {
    let block = block(&rt, rt.alloc());
    plays_over(&rt, rt.alloc(), block.as_slice(), b"", &ARE_PASSED_ON);
}

/// Two lines, of which the line feed of the second comes too late.
fn late(rt: &impl Abort, alloc: Global) -> Vec<u8> {
    let mut bytes = b"x\n".to_vec(alloc).expect(rt, MEMORY);
    bytes.extend_from_slice(ENDLESS).expect(rt, MEMORY);
    bytes.push(b'\n').expect(rt, MEMORY);
    bytes
}

const IS_TOO_LONG: [(Act, Came); 1] = [(At(0), TooLong(Side::B, 4098))];

// Both lines come with one read, and a line feed in the next place comes too late.
#[test]
fn the_place_of_a_long_line_counts_from_the_first_byte(rt: HostRuntime) {
    let late = late(&rt, rt.alloc());
    plays_over(&rt, rt.alloc(), b"", late.as_slice(), &IS_TOO_LONG);
}

/// Polls a task until it ends, ten times at most.
pub(crate) fn poll_to_end<H: Host, T: Task<H>>(
    task: &mut T,
    host: &mut H,
    now: Moment,
) -> Option<T::Output> {
    for _ in 0..10 {
        let cx = Cx {
            parker: 0,
            mask: 1,
            now,
        };
        match poll(task, host, cx) {
            Poll::Ready(end) => return Some(end),
            Poll::Pending => {}
        }
    }
    None
}

/// A pair of which no call of a connection fails, over those of the first row.
fn sure_pair(rt: &impl Abort, alloc: Global, start: Moment) -> Pair<MemEnd<SureConn>> {
    let a = sure_connection(rt, alloc, &TORN);
    let b = sure_connection(rt, alloc, &ENDS);
    pair_of(rt, alloc, (a, b), 1000, start)
}

/// Asserts that the connections of a pair were sent these texts.
fn hands_back(rt: &impl Abort, pair: Pair<MemEnd<SureConn>>, to_a: &str, to_b: &str) {
    let (a, b) = pair.into_ends();
    same(rt, a.cell.io.sent(), to_a.as_bytes());
    same(rt, b.cell.io.sent(), to_b.as_bytes());
}

#[test]
fn a_pair_hands_its_connections_back(rt: HostRuntime) {
    let mut pair = sure_pair(&rt, rt.alloc(), moment(&rt, 0));
    let mut host = ListHost::new(rt.alloc(), Trouble::Nothing);
    let end = poll_to_end(&mut pair, &mut host, moment(&rt, 0));
    same(&rt, end, Some(PairEnd::Ended { to_a: 0, to_b: 3 }));
    hands_back(&rt, pair, "", "ab\n");
}
