//! What the other end of a connection in memory does, told as a row of a table.

ghost use Rattle.std.specs.Prelude.{◌≡◌, ◌^◌, ◌<◌, IfOk};
ghost use Rattle.aio_conns.specs.Connections.{new_scripted};
ghost use Rattle.aio_conns.specs.Given.{total_bytes, turns_of};
ghost use Rattle.aio_conns.specs.Peers.{IsMadeFor, turns_between};

use crate::connections::MemConn;
use crate::pieces::Piece;
use aio_base::OutOfMemory;
use std::alloc::{AllocError, Global};

/// What the other end of a connection does.
#[derive(Clone, Copy)]
pub struct Peer<'a> {
    /// What it sends first.
    pub first: &'a [u8],
    /// Whether one read is blocked after that.
    pub blocks: bool,
    /// What it sends at last.
    pub last: &'a [u8],
    /// Whether it ends.
    pub ends: bool,
    /// How many bytes it takes at once, where 0 stands for 1.
    pub at_once: u32,
    /// How many bytes it takes in all, where 2^32 - 1 is no bound.
    pub room: u32,
    /// The numbers of the calls that fail, from 1 and over all kinds.
    pub fails: &'a [u64],
}

/// A peer that sends nothing and ends. It takes up to 4,096 bytes at once, without a bound in all, and no
/// call fails.
pub const ENDS: Peer<'static> = Peer {
    first: b"",
    blocks: false,
    last: b"",
    ends: true,
    at_once: 4096,
    room: u32::MAX,
    fails: &[],
};

/// A peer that sends nothing and never ends.
pub const SILENT: Peer<'static> = Peer {
    ends: false,
    ..ENDS
};

impl Peer<'_> {
    /// A connection to this peer, over which no call was made yet.
    ///
    /// # Errors
    ///
    /// `OutOfMemory` where memory ran out.
    pub fn connection(&self, alloc: Global) -> Result<MemConn, OutOfMemory>
        ensures { IfOk result (IsMadeFor self.now) }
    {
        let Ok(pieces) = self.pieces(alloc) else {
            return Err(OutOfMemory);
        };
        let Ok(fails) = self.fails.to_vec(alloc) else {
            return Err(OutOfMemory);
        };
        let at_once = self.at_once.max(1);
        MemConn::new(alloc, pieces, self.ends, at_once, self.room, fails)
    }

    // What it sends, piece by piece.
    fn pieces(&self, alloc: Global) -> Result<Vec<Piece>, AllocError>
        ensures turns { IfOk result (λ pieces. turns_of pieces.items
            ≡ turns_between self.now.first.now self.now.blocks self.now.last.now) }
        ensures bound { IfOk result (λ pieces. total_bytes pieces.items < 2 ^ 64) }
    {
        let mut pieces = Vec::with_capacity(alloc, 3)?;
        pieces.push_reserved(Piece::Bytes(self.first.to_vec(alloc)?));
        if self.blocks {
            pieces.push_reserved(Piece::Block);
        }
        pieces.push_reserved(Piece::Bytes(self.last.to_vec(alloc)?));
        Ok(pieces)
    }
}
