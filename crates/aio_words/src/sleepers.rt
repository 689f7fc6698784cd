//! Where parked threads sleep: on a count for each parker, which tells how often its mask got its first bit.
//!
//! A sleep begins on the count that was read before the look at the mask, and only where that look found no
//! woken slot. Whoever sets the first bit raises the count and ends the sleeps after that, and before it looks
//! at the blocked flag. So no wake is slept through. Each of these steps takes a value that only the step
//! before it makes; in `wakes` each is one operation.
//!
//! Beside it stands how many threads are on their way to a sleep. A thread counts itself before it reads the
//! count of wakes, and whoever raises that one looks at the number afterwards: where it finds none, each
//! thread that comes later reads the raised count and finds the woken slot, so the system need not be called.

ghost use Rattle.std.specs.Prelude.{◌≡◌, ◌≢◌, ◌<◌, IfOk, IfErr};
ghost use Rattle.aio_rules.specs.SharedWords.{after};
ghost use Rattle.aio_rules.specs.declared.seats.WordStep.TheVariants as word_step;
ghost use Rattle.aio_words.specs.Seats.{Belongs};

mod wakes;

use crate::words::{Pass, Words};
use aio_base::OutOfMemory;
use std::alloc::Global;
use std::marker::Model;
use std::sync::Wait;
use wakes::Reading;
pub use wakes::{Told, WakeCount};

/// The counts of the parkers. Contracts see for how many parkers they are.
#[derive(Drop)]
pub struct Sleepers {
    counts: Vec<WakeCount>,
}

impl Model for Sleepers {
    ghost use Rattle.std.specs.Prelude.{ℕ, ◌≡◌, vec_len};
    ghost use Rattle.std.specs.List.{range_with_len};

    ghost Value = { ℕ };

    ghost view = { λ s. vec_len s.counts };

    ghost invariant = { λ s. s.counts.items ≡ range_with_len 0 (vec_len s.counts) };
}

/// A parker's count, read before a look at its mask that found no woken slot. Contracts see what was read.
pub struct Unwoken<'a> {
    before: Reading<'a>,
}

impl<'a> Model for Unwoken<'a> {
    ghost use Rattle.aio_words.specs.Seats.{CountRead};

    ghost Value = { CountRead };

    ghost view = { λ u. u.before };
}

impl Sleepers {
    /// A count for each parker, all 0.
    pub fn new(alloc: Global, parkers: u32) -> Result<Sleepers, OutOfMemory>
        ensures { IfOk result (λ sleepers. sleepers ≡ parkers) }
    {
        let Ok(mut counts) = Vec::with_capacity(alloc, parkers as usize) else {
            return Err(OutOfMemory);
        };
        for parker in 0..parkers {
            if counts.push(WakeCount::new(parker)).is_err() {
                return Err(OutOfMemory);
            }
        }
        Ok(Sleepers { counts })
    }

    /// The count of a parker.
    pub fn of(&self, parker: u32) -> &WakeCount
        requires { parker < self.now }
        ensures { result.now ≡ parker }
    {
        &self.counts[parker as usize]
    }
}

impl<'a> Reading<'a> {
    /// Takes the woken slots of the parker, where there are any.
    pub fn look(self, words: &Words, p: &mut Pass) -> Result<u64, Unwoken<'a>>
        requires { Belongs words.now p.old × (self.parker < words.now.parkers) }
        ensures words { p.new.words ≡ p.old.words }
        ensures woken { IfOk result (λ slots. (slots ≢ 0)
            × (p.new.view ≡ after (word_step.SwapMask self.entry.parker slots) p.old.view)) }
        ensures none { IfErr result (λ none. (none ≡ self.entry)
            × (p.new.view ≡ after (word_step.SwapMask self.entry.parker 0) p.old.view)) }
    {
        let slots = words.take(p, self.parker());
        if slots != 0 {
            self.into_sleepy().count_out();
            return Ok(slots);
        }
        Err(Unwoken { before: self })
    }
}

impl Unwoken<'_> {
    /// Sleeps until the count rises, unless it has risen since it was read.
    pub fn sleep<R: Wait>(self, rt: &R) {
        let Unwoken { before } = self;
        before.sleep(rt).count_out();
    }
}
