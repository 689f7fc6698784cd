//! A clock that several threads share, and clocks that stand still in the end.

use crate::asserts::{MEMORY, moment};
use aio_base::{Clock, Moment, OutOfMemory};
use aio_devices::{MemClock, clock_until};
use std::alloc::Global;
use std::process::Abort;
use std::sync::{Arc, Mutex, Wait};

/// A clock that several threads share: each look is one nanosecond after the one before.
#[derive(Drop)]
pub(crate) struct SharedClock<R: Wait> {
    rt: R,
    time: Arc<Mutex<u64>, Global>,
    last: Moment,
}

impl<R: Wait> SharedClock<R> {
    /// The number of the look.
    fn look(&self) -> u64 {
        let mut time = self.time.lock(&self.rt);
        *time = time.saturating_add(1);
        *time
    }
}

impl<R: Wait + Copy> Clock for SharedClock<R> {
    ghost use Rattle.std.specs.Prelude.{None};

    ghost latest = { λ c. c.last };

    ghost bounds = { λ c. record { least = None; greatest = None } };

    fn now(&mut self) -> Moment {
        if let Some(now) = Moment::new(self.look()) {
            if now > self.last {
                self.last = now;
            }
        }
        self.last
    }

    fn twin(&self) -> Result<SharedClock<R>, OutOfMemory> {
        match Arc::try_clone(&self.time) {
            Ok(time) => Ok(SharedClock {
                rt: self.rt,
                time,
                last: self.last,
            }),
            Err(_) => Err(OutOfMemory),
        }
    }
}

/// Two clocks that agree, and begin at this moment.
pub(crate) fn shared_clocks<R: Wait + Copy + Abort>(
    rt: R,
    alloc: Global,
    last: Moment,
) -> (SharedClock<R>, SharedClock<R>) {
    let time = Arc::new(alloc, Mutex::new(last.get())).expect(&rt, MEMORY);
    let one = SharedClock { rt, time, last };
    let other = one.twin().expect(&rt, MEMORY);
    (one, other)
}

/// Two clocks, each of which stands at 0 for so many looks, and then at this moment.
pub(crate) fn still_clocks(
    rt: &impl Abort,
    alloc: Global,
    times: (usize, u64),
    times_of_other: (usize, u64),
) -> (MemClock, MemClock) {
    let (at, at_of_other) = (moment(rt, times.1), moment(rt, times_of_other.1));
    let clock = clock_until(alloc, times.0, at).expect(rt, MEMORY);
    let clock_of_other = clock_until(alloc, times_of_other.0, at_of_other).expect(rt, MEMORY);
    (clock, clock_of_other)
}
