//! What no clause says of the lines of pairs: that the definitions mean the lines that are told.

use crate::asserts::{MEMORY, same};
use crate::rows::{FIRST, moment};
use aio_base::{ArmFault, Key};
use aio_line::pair_lines;
use aio_pairs::{PairEnd, Side};

/// Each form of an end, one pair after the other.
const LINES: &[u8] = b"pair 1 ended 0 3\npair 2 idle 0 1000\npair 3 too long a 4096\n\
pair 4 too long b 18446744073709551615\npair 5 read fault\npair 6 write fault\n\
pair 7 arm fault\npair 8 notify fault\npair 9 out of memory\n";

#[test]
fn each_end_of_a_pair_has_its_line(rt: HostRuntime) {
    let ends = [
        PairEnd::Ended { to_a: 0, to_b: 3 },
        PairEnd::Idle {
            last: moment(&rt, 0),
            now: moment(&rt, 1000),
        },
        PairEnd::TooLong {
            side: Side::A,
            at: 4096,
        },
        PairEnd::TooLong {
            side: Side::B,
            at: u64::MAX,
        },
        PairEnd::ReadFault(FIRST),
        PairEnd::WriteFault(FIRST),
        PairEnd::ArmFault(ArmFault {
            key: Key(0),
            before: 0,
            after: 1,
        }),
        PairEnd::NotifyFault(FIRST),
        PairEnd::OutOfMemory,
    ];
    let lines = pair_lines(rt.alloc(), &ends).expect(&rt, MEMORY);
    same(&rt, lines.as_slice(), LINES);
}
