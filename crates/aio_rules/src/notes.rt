//! Values with two notes.

/// A value with two notes, number 0 and number 1. Each is a list of numbers, of any length, that
/// contracts alone see.
pub trait Noted {
    ghost use Rattle.std.specs.Prelude.{ℕ, List};

    /// Note 0.
    ghost first_note: { Self → List ℕ };

    /// Note 1.
    ghost second_note: { Self → List ℕ };
}
