//! What tells a thread the time.

ghost use Rattle.std.specs.Prelude.{◌≡◌, ℕ, ◌≤◌, IfOk};

use crate::names::Moment;
use crate::outcomes::OutOfMemory;

/// A clock of one thread. It never goes back; that it goes on is a matter of the outside, and no clause
/// says it. Nor does one say that the clocks of two threads agree.
pub trait Clock {
    ghost use Rattle.aio_base.specs.ClockBounds.{ClockBounds, IsWithin};

    /// A moment that is not before any that the object has answered so far.
    ghost latest: { Self → ℕ };

    /// The least and the greatest moment that the object ever answers, each where it tells it.
    ghost bounds: { Self → ClockBounds };

    /// The moment now: not before any earlier answer of the same object. Takes no memory.
    fn now(&mut self) -> Moment
        ensures later { latest self.old ≤ result }
        ensures latest { result ≤ latest self.new }
        ensures within { IsWithin (bounds self.old) result }
        ensures bounds { bounds self.new ≡ bounds self.old };

    /// A clock for another thread, with the same bounds. `OutOfMemory` where memory ran out.
    fn twin(&self) -> Result<Self, OutOfMemory>
        ensures { IfOk result (λ twin. Self.bounds twin ≡ Self.bounds self.now) };
}
