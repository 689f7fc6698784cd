//! What no clause says: that the replay of a trace, called through its bounds, ends and hands back the
//! core that ran it, and that the run of a seed's steps is counted, where memory is left. The counts of long
//! runs are those of a plain model that was written apart from this program.

use crate::asserts::{MEMORY, same};
use aio_base::Key;
use aio_bytes::{MemSink, MemSource, Sink, Source};
use aio_replay::{ReplayEnd, Summary, replay, summary};
use std::alloc::Global;

/// A trace in which a task waits for a source and is woken.
const TRACE: &[u8] = b"trace 1\nadd\npoll 0 r 7\nevent 0 r\nreact\npoll 0 r 7\n";

/// The answers to that trace.
const ANSWERS: &[u8] = b"key 0\npending\nnoted\nround 1 events 1 ok\nwake 7\nready\n";

/// How a replay ended, and what its core says: how many rounds have begun, and whether a source of this
/// key lives.
fn ended_with<S: Source, K: Sink>(
    alloc: Global,
    input: &mut S,
    out: &mut K,
    key: Key,
) -> (ReplayEnd, Option<(u64, bool)>) {
    let (end, core) = replay(alloc, input, out);
    match core {
        Some(core) => (end, Some((core.ticker(), core.live(key)))),
        None => (end, None),
    }
}

#[test]
fn a_replay_hands_back_the_core_that_ran_it(rt: HostRuntime) {
    let alloc = rt.alloc();
    let bytes = TRACE.to_vec(alloc).expect(&rt, MEMORY);
    let mut input = MemSource::new(bytes, 7, Vec::new(alloc));
    let mut out = MemSink::new(alloc, Vec::new(alloc));
    let ended = ended_with(alloc, &mut input, &mut out, Key(0));
    same(&rt, ended, (ReplayEnd::Done, Some((1, true))));
    same(&rt, out.bytes(), ANSWERS);
}

/// The number of steps, a seed, and what a run of its steps counts to.
const COUNTED: [(u32, u64, Summary); 3] = [
    (
        2,
        0,
        Summary {
            steps: 2,
            ready: 0,
            pending: 0,
            wakes: 0,
            rounds: 0,
            refused: 0,
        },
    ),
    (
        1000,
        1,
        Summary {
            steps: 1000,
            ready: 81,
            pending: 207,
            wakes: 181,
            rounds: 136,
            refused: 149,
        },
    ),
    (
        1000,
        0,
        Summary {
            steps: 1000,
            ready: 68,
            pending: 197,
            wakes: 174,
            rounds: 124,
            refused: 177,
        },
    ),
];

#[test]
fn a_run_is_counted(rt: HostRuntime) {
    for (count, seed, counted) in COUNTED {
        same(&rt, summary(rt.alloc(), count, seed), Ok(counted));
    }
}
