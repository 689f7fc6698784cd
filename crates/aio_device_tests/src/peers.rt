//! Connections in memory of the tests.

ghost use Rattle.std.specs.Prelude.{◌^◌, ◌<◌};
ghost use Rattle.aio_conns.specs.Given.{total_bytes};

use crate::asserts::MEMORY;
use aio_conns::{ENDS, Peer, Piece, SureConn};
use std::alloc::Global;
use std::process::Abort;

/// Sends a line in two pieces, and then the front of another.
pub(crate) const TORN: Peer<'static> = Peer {
    first: b"ab",
    blocks: true,
    last: b"\ncd",
    ..ENDS
};

/// What a peer sends, piece by piece, between which a read is blocked where it is asked for.
fn pieces(rt: &impl Abort, alloc: Global, peer: &Peer<'_>) -> Vec<Piece>
    ensures { total_bytes result.items < 2 ^ 64 }
{
    let first = Piece::Bytes(peer.first.to_vec(alloc).expect(rt, MEMORY));
    let last = Piece::Bytes(peer.last.to_vec(alloc).expect(rt, MEMORY));
    if peer.blocks {
        vec![in alloc; first, Piece::Block, last].expect(rt, MEMORY)
    } else {
        vec![in alloc; first, last].expect(rt, MEMORY)
    }
}

/// A connection to a peer of which no call fails.
pub(crate) fn sure_connection(rt: &impl Abort, alloc: Global, peer: &Peer<'_>) -> SureConn {
    let pieces = pieces(rt, alloc, peer);
    let at_once = peer.at_once.max(1);
    SureConn::new(alloc, pieces, peer.ends, at_once, peer.room).expect(rt, MEMORY)
}
