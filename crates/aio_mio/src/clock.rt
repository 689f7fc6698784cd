//! The machine's clock.

ghost use Rattle.std.specs.Prelude.{◌≡◌, ◌≤◌, IfOk};

use aio_base::{Clock, Moment, OutOfMemory};
use std::marker::Model;
use std::time;
use std::time::Instant;

/// The last moment that there is.
const LAST: u64 = 1_000_000_000_000_000_000;

/// The machine's clock, which counts nanoseconds from its first look on, up to 10^18. Making it is a look.
/// Where the machine's clock cannot be read, it answers its last moment again.
///
/// Contracts see what the machine's clock showed at the first look, in nanoseconds, once there was
/// one, and the latest moment that it answered.
#[derive(Drop)]
pub struct RealClock<R: time::Clock + Copy> {
    rt: R,
    start: Option<Instant>,
    last: Moment,
}

impl<R: time::Clock + Copy> Model for RealClock<R> {
    ghost use Rattle.std.specs.Prelude.{option_map};
    ghost use Rattle.std.specs.Time.{instant_nanos};
    ghost use Rattle.aio_mio.specs.Values.{ClockValue};

    ghost Value = { ClockValue };

    ghost view = { λ c. record { start = option_map instant_nanos c.start; latest = c.last } };
}

/// The moment so many nanoseconds after the start, up to 10^18, and not before `last`.
fn moment_after(last: Moment, nanoseconds: u128) -> Moment
    ensures { last ≤ result }
{
    let now = nanoseconds.min(LAST as u128) as u64;
    match Moment::new(now.max(last.get())) {
        Some(moment) => moment,
        None => last,
    }
}

/// The start of a clock.
fn first() -> Moment
    ensures { result ≡ 0 }
{
    match Moment::new(0) {
        Some(moment) => moment,
        None => unreachable!(),
    }
}

impl<R: time::Clock + Copy> RealClock<R> {
    /// A clock that stands at 0. It takes no memory.
    pub fn new(rt: &R) -> RealClock<R>
        ensures { result.latest ≡ 0 }
    {
        RealClock {
            rt: *rt,
            start: Instant::now(rt).ok(),
            last: first(),
        }
    }

    /// The nanoseconds since the first look, which is this one where there was none; `None` where the
    /// machine's clock cannot be read.
    fn elapsed(&mut self) -> Option<u128>
        ensures { self.new.latest ≡ self.old.latest }
    {
        match self.start {
            Some(start) => match start.elapsed(&self.rt) {
                Ok(passed) => Some(passed.as_nanos()),
                Err(_) => None,
            },
            None => match Instant::now(&self.rt) {
                Ok(start) => {
                    self.start = Some(start);
                    Some(0)
                }
                Err(_) => None,
            },
        }
    }
}

impl<R: time::Clock + Copy> Clock for RealClock<R> {
    ghost use Rattle.std.specs.Prelude.{None};
    ghost use Rattle.aio_base.specs.ClockBounds.{ClockBounds};

    ghost latest = { λ c. c.latest };

    ghost bounds = { λ c. record { least = None; greatest = None } };

    /// The machine's moment, or an earlier answer where that is later or the machine's clock cannot be
    /// read.
    fn now(&mut self) -> Moment {
        if let Some(nanoseconds) = self.elapsed() {
            self.last = moment_after(self.last, nanoseconds);
        }
        self.last
    }

    /// A clock that counts from the same start, where this one has one.
    fn twin(&self) -> Result<RealClock<R>, OutOfMemory>
        ensures { IfOk result (λ twin. twin ≡ self.now) }
    {
        Ok(RealClock {
            rt: self.rt,
            start: self.start,
            last: self.last,
        })
    }
}
