//! Which calls a seed gives. They are those of a plain model that was written apart from this program.

use crate::asserts::same;
use aio_base::{Dir, Interest, Waker};
use aio_history::{CellCall, CellDraws, DrawnCall};

/// The first calls of seed 0.
const FIRST_CALLS: [DrawnCall; 4] = [
    DrawnCall {
        cell: 0,
        call: CellCall::Poll {
            dir: Dir::Read,
            waker: Waker(4),
            ticker: 0,
        },
    },
    DrawnCall {
        cell: 4,
        call: CellCall::Handle {
            on: Interest::READ_WRITE,
            round: 378,
        },
    },
    DrawnCall {
        cell: 2,
        call: CellCall::Handle {
            on: Interest::READ_WRITE,
            round: 693,
        },
    },
    DrawnCall {
        cell: 2,
        call: CellCall::Poll {
            dir: Dir::Write,
            waker: Waker(19),
            ticker: 0,
        },
    },
];

#[test]
fn a_seed_gives_its_calls(rt: HostRuntime) {
    let mut draws = CellDraws::new(0);
    for call in FIRST_CALLS {
        same(&rt, draws.next_call(), call);
    }
}
