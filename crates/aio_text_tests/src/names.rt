//! What no clause says of names: the ends of the range of moments, the numbers of a seed, and a parker's own
//! waker.

use crate::asserts::{moment, same, same_in};
use aio_base::{Cx, Draws, Moment, Waker};

/// The nanoseconds of a moment, where there is one.
fn nanoseconds_of(moment: Option<Moment>) -> Option<u64> {
    match moment {
        Some(moment) => Some(moment.get()),
        None => None,
    }
}

/// The last moment.
const LAST: u64 = 1_000_000_000_000_000_000;

#[test]
fn a_moment_is_at_most_the_last(rt: HostRuntime) {
    for (nanoseconds, moment) in [(0, Some(0)), (LAST, Some(LAST)), (LAST + 1, None)] {
        same(&rt, nanoseconds_of(Moment::new(nanoseconds)), moment);
    }
}

#[test]
fn numbers_are_drawn_from_their_seed(rt: HostRuntime) {
    let mut draws = Draws::new(0);
    for number in [0, 4_232_237, 178_803_790, 758_674_372, 1_565_954_732] {
        same(&rt, draws.draw(), number);
    }
}

/// The number of a parker, its mask, and the number of the waker of the mask's lowest slot.
const OWN_WAKERS: [(u32, u64, u32); 7] = [
    (0, 1, 0),
    (2, 0b1000, 131),
    (2, (1 << 63) | (1 << 40), 168),
    (2, 1 << 63, 191),
    (2, 0, 128),
    (67_108_863, u64::MAX, 4_294_967_232),
    (67_108_864, 2, 1),
];

#[test]
fn own_waker_is_of_the_lowest_slot(rt: HostRuntime) {
    let now = moment(&rt, 0);
    for (parker, mask, number) in OWN_WAKERS {
        let own = Cx { parker, mask, now }.own_waker();
        same_in(&rt, parker, own, Waker(number));
    }
}
