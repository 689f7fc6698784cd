//! The clock in memory.

ghost use Rattle.std.specs.Prelude.{◌≡◌, ◌<◌, ◌≤◌, IfErr, OnOk};

use aio_base::Moment;
use std::marker::Model;

/// The answer of a clock that was set to an earlier moment than its own, at which it stays: that
/// moment.
#[derive(Clone, Copy, Debug, PartialEq, Eq)]
pub struct Back(pub Moment);

/// A clock that stands at the moment to which it was set last, and never goes back.
#[derive(Clone, Copy, Debug, PartialEq, Eq)]
pub struct ScriptClock {
    moment: Moment,
}

impl Model for ScriptClock {
    ghost use Rattle.std.specs.Prelude.{ℕ, ◌^◌, ◌≤◌};

    ghost Value = { ℕ };

    ghost view = { λ c. c.moment };

    ghost invariant = { λ c. c.moment ≤ 10 ^ 18 };

    ghost inverse = { λ n. record { moment = n } };
}

impl ScriptClock {
    /// A clock at moment 0. It takes no memory.
    pub fn new() -> ScriptClock
        ensures { result ≡ 0 }
    {
        match Moment::new(0) {
            Some(moment) => ScriptClock { moment },
            None => unreachable!(),
        }
    }

    /// Sets the clock to a moment, which may be its own. `Back`, with the clock's moment, exactly where
    /// `t` is earlier; then the clock stays. It takes no memory.
    pub fn set(&mut self, t: Moment) -> Result<(), Back>
        ensures set { OnOk result (self.old ≤ t × (self.new ≡ t)) }
        ensures back { IfErr result (λ back. (t < self.old) × (back.0 ≡ self.old)
            × (self.new ≡ self.old)) }
        ensures later { self.old ≤ self.new }
    {
        if t < self.moment {
            return Err(Back(self.moment));
        }
        self.moment = t;
        Ok(())
    }

    /// The moment to which the clock was set last, 0 before. It takes no memory.
    pub fn now(&self) -> Moment
        ensures { result ≡ self.now }
    {
        self.moment
    }
}
