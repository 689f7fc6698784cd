//! A clock in memory.

ghost use Rattle.std.specs.Prelude.{
  ◌≡◌,
  ◌<◌,
  ◌≤◌,
  ◌++◌,
  ◌∷◌,
  [],
  ℕ,
  length,
  replicate,
  IfOk,
};
ghost use Rattle.std.specs.List.Sorted.{IsNonDecreasing};
ghost use Rattle.aio_base.specs.ClockBounds.{IsWithin};
ghost use Rattle.aio_devices.specs.Clocks.{after_look, bounds_of, moment_at};

use aio_base::{Clock, Moment, OutOfMemory};
use std::alloc::{AllocError, Global};
use std::marker::Model;

/// A clock that gives its moments in order, and then the last again and again. Its least moment is the
/// first, and its greatest the last.
pub struct MemClock {
    moments: Vec<Moment>,
    next: usize,
}

impl Model for MemClock {
    ghost use Rattle.std.specs.Prelude.{◌<◌, length};
    ghost use Rattle.std.specs.List.Sorted.{IsNonDecreasing};
    ghost use Rattle.aio_devices.specs.Clocks.{ClockValue};

    ghost Value = { ClockValue };

    ghost view = { λ c. record { moments = c.moments.items; next = c.next } };

    ghost invariant = { λ c. (c.next < length c.moments.items) × IsNonDecreasing c.moments.items };
}

impl Drop for MemClock {
    fn drop(self) {
        let MemClock {
            moments: _,
            next: _,
        } = self;
    }
}

impl MemClock {
    /// A clock of these moments, of which there is one at least, and none is before the one that it
    /// follows. It takes no memory.
    pub fn new(moments: Vec<Moment>) -> MemClock
        requires some { 0 < length moments.items }
        requires order { IsNonDecreasing moments.items }
        ensures { result ≡ record { moments = moments.items; next = 0 } }
    {
        MemClock { moments, next: 0 }
    }
}

impl Clock for MemClock {
    ghost latest = { λ c. moment_at c.moments c.next };

    ghost bounds = { λ c. bounds_of c.moments };

    /// The next moment, or the last again.
    fn now(&mut self) -> Moment
        ensures answer { result ≡ moment_at self.old.moments self.old.next }
        ensures after { self.new ≡ after_look self.old }
        ensures later { moment_at self.old.moments self.old.next ≤ result }
        ensures latest { result ≤ moment_at self.new.moments self.new.next }
        ensures within { IsWithin (bounds_of self.old.moments) result }
        ensures bounds { bounds_of self.new.moments ≡ bounds_of self.old.moments }
    {
        let moment = self.moments[self.next];
        if self.next + 1 < self.moments.len() {
            self.next += 1;
        }
        moment
    }

    /// A clock of the same moments that gives the first next.
    fn twin(&self) -> Result<MemClock, OutOfMemory>
        ensures bounds { IfOk result (λ twin. bounds_of twin.moments ≡ bounds_of self.now.moments) }
        ensures anew { IfOk result (λ twin. twin ≡ record self.now { next = 0 }) }
    {
        match self.moments.clone() {
            Ok(moments) => Ok(MemClock { moments, next: 0 }),
            Err(_) => Err(OutOfMemory),
        }
    }
}

/// So many times the first moment of all. `AllocError` where memory ran out.
fn zeros(alloc: Global, count: usize) -> Result<Vec<Moment>, AllocError>
    ensures { IfOk result (λ moments. moments.items ≡ replicate {A = ℕ} count 0) }
{
    let Some(zero) = Moment::new(0) else {
        return Err(AllocError);
    };
    vec![in alloc; zero; count]
}

/// A clock that stands at 0 for so many looks, and then at this moment. `AllocError` where memory ran out.
pub fn clock_until(alloc: Global, looks: usize, moment: Moment) -> Result<MemClock, AllocError>
    ensures { IfOk result (λ clock.
        clock ≡ record { moments = replicate {A = ℕ} looks 0 ++ moment ∷ []; next = 0 }) }
{
    let mut moments = zeros(alloc, looks)?;
    moments.push(moment)?;
    Ok(MemClock::new(moments))
}

/// A clock that stands still at this moment. `AllocError` where memory ran out.
pub fn clock_at(alloc: Global, moment: Moment) -> Result<MemClock, AllocError>
    ensures { IfOk result (λ clock. clock ≡ record { moments = moment ∷ []; next = 0 }) }
{
    clock_until(alloc, 0, moment)
}
