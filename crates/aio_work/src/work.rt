//! A task that says what it is about.

ghost use Rattle.std.specs.Prelude.{◌≡◌, ℕ, Bool, true};

use aio_base::{Later, Task};

/// A task that is about something, which a number tells, and which says what it may answer.
///
/// What is allowed is told as a test, so that the type of a desk can keep it.
pub trait Work<H: Later>: Task<H> {
    ghost use Rattle.aio_base.specs.declared.outcomes.Poll.{Poll};
    ghost use Rattle.aio_base.specs.declared.tasks.Cx.{Cx};

    /// What the task is about. No poll changes it.
    ghost about_of: { Self → ℕ };

    /// Which outputs a task that is about this may answer.
    ghost allows: { ℕ → Self.Output → Bool };

    /// What the task is about. Takes no memory.
    fn about(&self) -> u64
        ensures { result ≡ about_of self.now };

    ghost about_stays: { (old : Self) (host : H) (cx : Cx) (answer : Poll Self.Output) (new : Self) (left : H)
        → Self.poll_step old host cx answer new left → about_of new ≡ about_of old };

    ghost gives_allowed: { (s : Self) (sure : Bool) (moment : ℕ) (output : Self.Output)
        → Self.gives s sure moment output → allows (about_of s) output ≡ true };
}
