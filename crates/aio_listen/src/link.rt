//! A link from one node to another.

ghost use Rattle.std.specs.Prelude.{◌≡◌, ◌<◌, ◌-◌, ◌^◌, None, Some};
ghost use Rattle.aio_listen.specs.Links.{kept_if};

use std::marker::Model;

/// The key of a node, or none, in four bytes. Contracts see the key as an option.
#[derive(Clone, Copy)]
pub(crate) struct Link {
    /// One above the key, or 0 for none.
    code: u32,
}

impl Model for Link {
    ghost use Rattle.std.specs.Prelude.{Option, ℕ, ◌<◌, ◌^◌};
    ghost use Rattle.std.specs.Coded.{coded_ℕ, coded_option};

    ghost Value = { Option ℕ };

    ghost coded = { coded_option coded_ℕ };

    ghost use Rattle.aio_listen.specs.LinkCodes.{link_of_code, code_of_link, same_inside};

    ghost view = { λ l. link_of_code l.code };

    ghost invariant = { λ l. l.code < 2 ^ 32 };

    ghost inverse = { λ o. record { code = code_of_link o } };

    ghost inverse_ok = { λ l bound. same_inside l };
}

impl Link {
    /// A link that leads nowhere.
    pub(crate) fn none() -> Link
        ensures { result ≡ None }
    {
        Link { code: 0 }
    }

    /// A link to the node of this key.
    pub(crate) fn to(key: usize) -> Link
        requires { key < 2 ^ 32 - 1 }
        ensures { result ≡ Some key }
    {
        Link {
            code: key as u32 + 1,
        }
    }

    /// The key that it leads to, if any.
    pub(crate) fn key(self) -> Option<usize>
        ensures { result ≡ self }
    {
        if self.code == 0 {
            None
        } else {
            Some(self.code as usize - 1)
        }
    }

    /// `kept` where this link leads to a node, else `other`.
    pub(crate) fn choose(self, kept: Link, other: Link) -> Link
        ensures { result ≡ kept_if self kept other }
    {
        if self.code == 0 { other } else { kept }
    }
}
