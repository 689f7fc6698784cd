//! The count of one parker. Each function makes one operation on it and takes what the one before made, and
//! what it takes cannot be let go: so the types fix which come, in which order, and how often.

ghost use Rattle.std.specs.Prelude.{◌≡◌};
ghost use Rattle.aio_rules.specs.declared.seats.Owed.TheVariants as owed;

use crate::table::WordSeat;
use std::marker::Model;
use std::sync::Wait;
use std::sync::atomic::{AtomicU64, Ordering};

/// How often the mask of one parker got its first bit. A sleep sees only the low 32 bits of its word, so a mask
/// itself would hide the slots above. Contracts see the parker, by which they tell counts apart.
#[derive(Drop)]
pub struct WakeCount {
    parker: u32,
    wakes: AtomicU64,
    /// How many threads are on their way to a sleep, and neither found a woken slot nor slept since.
    sleepy: AtomicU64,
}

impl Model for WakeCount {
    ghost use Rattle.std.specs.Prelude.{ℕ};

    ghost Value = { ℕ };

    ghost view = { λ c. c.parker };
}

/// A thread that counted itself among those on their way to a sleep. Contracts see the parker.
pub struct Sleepy<'a> {
    count: &'a WakeCount,
}

impl<'a> Model for Sleepy<'a> {
    ghost use Rattle.std.specs.Prelude.{ℕ};

    ghost Value = { ℕ };

    ghost view = { λ s. s.count.now };
}

/// A parker's count, read before a look at its mask by a thread that had counted itself. Contracts see the
/// parker and the number read.
pub struct Reading<'a> {
    sleepy: Sleepy<'a>,
    found: u64,
}

impl<'a> Model for Reading<'a> {
    ghost use Rattle.aio_words.specs.Seats.{CountRead};

    ghost Value = { CountRead };

    ghost view = { λ r. record { parker = r.sleepy; found = r.found } };
}

/// A parker's count was raised. Contracts see the parker.
pub struct Raised<'a> {
    count: &'a WakeCount,
}

impl<'a> Model for Raised<'a> {
    ghost use Rattle.std.specs.Prelude.{ℕ};

    ghost Value = { ℕ };

    ghost view = { λ r. r.count.now };
}

/// The parked thread of a parker was told. Contracts see the parker.
#[derive(Drop)]
pub struct Told {
    parker: u32,
}

impl Model for Told {
    ghost use Rattle.std.specs.Prelude.{ℕ};

    ghost Value = { ℕ };

    ghost view = { λ t. t.parker };
}

impl WakeCount {
    /// The count of a parker whose mask got no bit yet.
    pub fn new(parker: u32) -> WakeCount
        ensures { result ≡ parker }
    {
        WakeCount {
            parker,
            wakes: AtomicU64::new(0),
            sleepy: AtomicU64::new(0),
        }
    }

    /// Counts a thread that is on its way to a sleep.
    pub fn count_in(&self) -> Sleepy<'_>
        ensures { result ≡ self.now }
    {
        self.sleepy.fetch_add(1, Ordering::SeqCst);
        Sleepy { count: self }
    }

    /// Raises the count: the seat has just set the first bit of the parker's mask.
    pub fn raise(&self, s: &WordSeat) -> Raised<'_>
        requires { s.now.view.owes ≡ owed.Look self.now }
        ensures { result ≡ self.now }
    {
        self.wakes.fetch_add(1, Ordering::SeqCst);
        Raised { count: self }
    }
}

impl Raised<'_> {
    /// Ends the sleep of each thread that is parked for this parker, or is about to sleep. Where none is on
    /// its way to a sleep the system is not called.
    pub fn call(self) -> Told
        ensures { result ≡ self.entry }
    {
        let Raised { count } = self;
        if count.sleepy.load(Ordering::SeqCst) != 0 {
            count.wakes.wake_all();
        }
        Told {
            parker: count.parker,
        }
    }
}

impl<'a> Sleepy<'a> {
    /// Reads the count, for a look at the mask and a sleep.
    pub fn read(self) -> Reading<'a>
        ensures { result.parker ≡ self.entry }
    {
        let count: &WakeCount = self.count;
        let found = count.wakes.load(Ordering::SeqCst);
        Reading {
            sleepy: self,
            found,
        }
    }

    /// The thread is no longer on its way to a sleep: it found a woken slot, or has slept.
    pub(super) fn count_out(self) {
        let Sleepy { count } = self;
        count.sleepy.fetch_sub(1, Ordering::SeqCst);
    }
}

impl<'a> Reading<'a> {
    pub(super) fn parker(&self) -> u32
        ensures { result ≡ self.now.parker }
    {
        let sleepy = &self.sleepy;
        let count: &WakeCount = sleepy.count;
        count.parker
    }

    /// The thread that read the count, which will not sleep on it.
    pub(super) fn into_sleepy(self) -> Sleepy<'a>
        ensures { result ≡ self.entry.parker }
    {
        let Reading { sleepy, found: _ } = self;
        sleepy
    }

    /// Sleeps until the count rises, unless it has risen since it was read.
    pub(super) fn sleep<R: Wait>(self, rt: &R) -> Sleepy<'a>
        ensures { result ≡ self.entry.parker }
    {
        let Reading { sleepy, found } = self;
        let count: &WakeCount = sleepy.count;
        count.wakes.park(rt, (found & 0xffff_ffff) as u32);
        sleepy
    }
}
