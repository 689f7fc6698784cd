//! A link from one node to another, in four bytes.

ghost use Rattle.std.specs.Prelude.{◌≡◌, ◌<◌, ◌-◌, ◌^◌, None, Some, Option, ℕ};

use std::marker::Model;

/// The node that comes next somewhere, or none. Contracts see an option; kept is the index of the
/// node, and for none the greatest number, which is the index of no node.
#[derive(Clone, Copy)]
pub(crate) struct Link {
    index: u32,
}

impl Model for Link {
    ghost use Rattle.std.specs.Prelude.{Option, ℕ, ◌<◌, ◌^◌};
    ghost use Rattle.std.specs.Coded.{coded_ℕ, coded_option};
    ghost use Rattle.aio_timers.specs.Links.{leads_from, stands_for, stands_for-inside};

    ghost Value = { Option ℕ };

    ghost coded = { coded_option coded_ℕ };

    ghost view = { λ l. leads_from l.index };

    ghost invariant = { λ l. l.index < 2 ^ 32 };

    ghost inverse = { λ o. record { index = stands_for o } };

    ghost inverse_ok = { λ l h. stands_for-inside l };
}

impl Link {
    /// No link.
    pub(crate) fn none() -> Link
        ensures { result ≡ None }
    {
        Link { index: u32::MAX }
    }

    /// The link to the node with this index.
    pub(crate) fn to(index: usize) -> Link
        requires { index < 2 ^ 32 - 1 }
        ensures { result ≡ Some index }
    {
        Link {
            index: index as u32,
        }
    }

    /// The index of the node that it leads to.
    pub(crate) fn get(self) -> Option<usize>
        ensures { result ≡ self }
    {
        if self.index == u32::MAX {
            return None;
        }
        Some(self.index as usize)
    }
}
