//! What a connection in memory gives.

ghost use Rattle.std.specs.Prelude.{◌≡◌, ◌<◌, ◌≤◌, length, min, take, Ok};
ghost use Rattle.aio_base.specs.Connections.{did_count};
ghost use Rattle.aio_conns.specs.Given.{Reads, turns_of};

use crate::pieces::{Piece, next_piece};
use aio_base::Did;
use std::alloc::Global;
use std::marker::Model;
use std::vec::IntoIter;

/// The pieces that reads are still to find: one that was begun, and those behind it.
#[derive(Drop)]
pub(crate) struct Giving {
    left: IntoIter<Piece, Global>,
    begun: Vec<u8>,
    read: usize,
    ends: bool,
}

impl Model for Giving {
    ghost use Rattle.std.specs.Prelude.{◌≤◌, drop, length};
    ghost use Rattle.std.specs.Vec.Iter.{into_iter_items};
    ghost use Rattle.aio_conns.specs.Given.{GivingValue, bytes_before, turns_of};

    ghost Value = { GivingValue };

    ghost view = { λ g. record {
      turns = bytes_before (drop g.read g.begun.items) (turns_of (into_iter_items g.left));
      ends = g.ends;
    } };

    ghost invariant = { λ g. g.read ≤ length g.begun.items };
}

impl Giving {
    /// These pieces, and whether the end comes after them. It takes no memory.
    pub(crate) fn new(alloc: Global, pieces: Vec<Piece>, ends: bool) -> Giving
        ensures { result ≡ record { turns = turns_of pieces.items; ends = ends } }
    {
        Giving {
            left: pieces.into_iter(),
            begun: Vec::new(alloc),
            read: 0,
            ends,
        }
    }

    /// Reads the next bytes into the front of `buf`.
    pub(crate) fn read(&mut self, buf: &mut [u8]) -> Did
        requires { 0 < length buf.old }
        ensures reads { Reads self.old (length buf.old) result
            (take (did_count (Ok result)) buf.new) self.new }
        ensures bound { did_count (Ok result) ≤ length buf.new }
    {
        if self.read < self.begun.len() {
            let count = copy_front(&self.begun[self.read..], buf);
            self.read += count;
            return Did::Bytes(count);
        }
        match next_piece(&mut self.left) {
            Some(Piece::Bytes(bytes)) => {
                let count = copy_front(&bytes, buf);
                self.begun = bytes;
                self.read = count;
                Did::Bytes(count)
            }
            Some(Piece::Block) => Did::Blocked,
            None if self.ends => Did::Bytes(0),
            None => Did::Blocked,
        }
    }
}

// Copies the front of `from` into the front of `to`, as much as both have, and answers how many.
fn copy_front(from: &[u8], to: &mut [u8]) -> usize
    ensures count { result ≡ min (length to.old) (length from.now) }
    ensures copied { take result to.new ≡ take result from.now }
{
    let count = to.len().min(from.len());
    to[..count].copy_from_slice(&from[..count]);
    count
}
