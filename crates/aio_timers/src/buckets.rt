//! The row of buckets: where the chain of each begins.

ghost use Rattle.std.specs.Prelude.{◌≡◌, ◌<◌, ◌≤◌, Option, None, [], ℕ, length, slice_index_or, slice_set, vec_capacity, OnOk, OnErr};
ghost use Rattle.aio_timers.specs.Growth.{IsBlankRow};

use crate::link::Link;
use aio_base::OutOfMemory;
use std::alloc::Global;
use std::marker::Model;

/// The buckets by their numbers, each with the link to the first node of its chain. Contracts see the
/// list of these links.
#[derive(Drop)]
pub(crate) struct Buckets {
    heads: Vec<Link>,
}

impl Model for Buckets {
    ghost use Rattle.std.specs.Prelude.{List, Option, ℕ};

    ghost Value = { List (Option ℕ) };

    ghost view = { λ b. b.heads.items };
}

impl Buckets {
    /// No buckets. It takes no memory; `clear_to` takes it from `alloc`.
    pub(crate) fn new(alloc: Global) -> Buckets
        ensures { result ≡ [] }
    {
        Buckets {
            heads: Vec::new(alloc),
        }
    }

    /// How many buckets there are.
    pub(crate) fn len(&self) -> usize
        ensures { result ≡ length self.now }
    {
        self.heads.len()
    }

    /// Where the chain of a bucket begins.
    pub(crate) fn head(&self, bucket: usize) -> Link
        requires { bucket < length self.now }
        ensures { result ≡ slice_index_or self.now bucket None }
    {
        self.heads[bucket]
    }

    /// Writes where the chain of a bucket begins.
    pub(crate) fn set_head(&mut self, bucket: usize, link: Link)
        requires { bucket < length self.old }
        ensures { self.new ≡ slice_set self.old bucket link }
    {
        let heads = self.heads.as_mut_slice();
        heads[bucket] = link;
    }

    /// Makes the buckets so many, of which none leads to a node. `OutOfMemory` where memory ran out:
    /// they then stand as before.
    pub(crate) fn clear_to(&mut self, total: usize) -> Result<(), OutOfMemory>
        requires { length self.old ≤ total }
        ensures blank { OnOk result (IsBlankRow self.new) }
        ensures len { OnOk result (length self.new ≡ total) }
        ensures refused { OnErr result (self.new ≡ self.old) }
    {
        let more = total - self.heads.len();
        if self.heads.reserve_exact(more).is_err() {
            return Err(OutOfMemory);
        }
        clear_row(&mut self.heads, total);
        Ok(())
    }
}

/// Makes the buckets so many, of which none leads to a node, in the room that there is.
fn clear_row(heads: &mut Vec<Link>, total: usize)
    requires { total ≤ vec_capacity heads.old }
    ensures blank { IsBlankRow heads.new.items }
    ensures len { length heads.new.items ≡ total }
{
    heads.clear();
    for _ in 0..total {
        heads.push_reserved(Link::none());
    }
}
