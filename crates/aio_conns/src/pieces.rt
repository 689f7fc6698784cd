//! The pieces that a connection in memory gives.

ghost use Rattle.std.specs.Prelude.{◌≡◌, [], true, false, List, IfNone, IfSome};
ghost use Rattle.std.specs.List.{list_any};
ghost use Rattle.std.specs.Vec.Iter.{into_iter_items};
ghost use Rattle.aio_conns.specs.Given.{HasTurn, Turn, is_block, turn_before, turns_of};

use std::alloc::Global;
use std::vec::IntoIter;

/// What reads of a connection in memory find, one after the other.
#[derive(Debug, Drop)]
pub enum Piece {
    /// These bytes, over as many reads as it takes. Where there is none, the piece is passed over.
    Bytes(Vec<u8>),
    /// That one read would block.
    Block,
}

impl Piece {
    // Whether it is an answer that a read would block.
    fn is_block(&self) -> bool
        ensures { result ≡ is_block self.now }
    {
        match self {
            Piece::Bytes(_) => false,
            Piece::Block => true,
        }
    }

    // Whether it is bytes, of which there is none.
    fn is_empty(&self) -> bool
        ensures none { result ≡ true → (rest : List Turn) → turn_before self.now rest ≡ rest }
        ensures some { result ≡ false → HasTurn self.now }
    {
        match self {
            Piece::Bytes(bytes) => bytes.is_empty(),
            Piece::Block => false,
        }
    }
}

/// Whether a piece is an answer that a read would block.
pub(crate) fn any_blocks(pieces: &[Piece]) -> bool
    ensures { result ≡ list_any is_block pieces.now }
{
    pieces.iter().any(|piece| piece.is_block())
}

/// Takes the next piece out, and before it those without bytes.
pub(crate) fn next_piece(pieces: &mut IntoIter<Piece, Global>) -> Option<Piece>
    ensures some { IfSome result (λ piece. HasTurn piece × (turns_of (into_iter_items pieces.old)
        ≡ turn_before piece (turns_of (into_iter_items pieces.new)))) }
    ensures none { IfNone result ((turns_of (into_iter_items pieces.old) ≡ [])
        × (turns_of (into_iter_items pieces.new) ≡ [])) }
{
    while let Some(piece) = pieces.next() {
        if !piece.is_empty() {
            return Some(piece);
        }
    }
    None
}
