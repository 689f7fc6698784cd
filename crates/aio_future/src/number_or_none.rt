//! A number, or none, in eight bytes.

ghost use Rattle.std.specs.Prelude.{◌≡◌, ◌≢◌, None, Some, Option};

use std::marker::Model;

/// A number, where there is one. Contracts see an option; kept is the number, and for none `NONE`,
/// which is no number that is ever kept. So a timer takes 32 bytes and not 56.
#[derive(Clone, Copy, Debug)]
pub(crate) struct NumberOrNone<const NONE: u64> {
    number: u64,
}

impl<const NONE: u64> Model for NumberOrNone<NONE> {
    ghost use Rattle.std.specs.Prelude.{Option, ℕ, ◌<◌, ◌^◌};
    ghost use Rattle.std.specs.Coded.{coded_ℕ, coded_option};
    ghost use Rattle.aio_future.specs.NumbersOrNone.{number_in, stands_for, stands_for-number_in};

    ghost Value = { Option ℕ };

    ghost coded = { coded_option coded_ℕ };

    ghost view = { λ n. number_in NONE n.number };

    ghost invariant = { λ n. n.number < 2 ^ 64 };

    ghost inverse = { λ o. record { number = stands_for NONE o } };

    ghost inverse_ok = { λ n h i. record { number = stands_for-number_in NONE n.number i } };
}

impl<const NONE: u64> NumberOrNone<NONE> {
    /// No number.
    pub(crate) fn none() -> NumberOrNone<NONE>
        ensures { result ≡ None }
    {
        NumberOrNone { number: NONE }
    }

    /// This number.
    pub(crate) fn of(number: u64) -> NumberOrNone<NONE>
        requires { number ≢ NONE }
        ensures { result ≡ Some number }
    {
        NumberOrNone { number }
    }

    /// The number, if there is one.
    pub(crate) fn get(self) -> Option<u64>
        ensures { result ≡ self.entry }
    {
        if self.number == NONE {
            return None;
        }
        Some(self.number)
    }
}
