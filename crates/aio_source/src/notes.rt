//! What a cell notes for a lock that holds it: which source it is, and the rest of what is armed for it.

ghost use Rattle.aio_source.specs.Noting.{CallsKeepNote, NoteTellsCell};

use crate::source::SourceCell;
use aio_base::Arm;
use aio_rules::Noted;

impl<A: Arm> Noted for SourceCell<A> {
    ghost use Rattle.std.specs.Prelude.{[]};
    ghost use Rattle.aio_source.specs.Noting.{cell_note};

    ghost first_note = { λ c. cell_note c.state.key (A.rest c.io) };

    ghost second_note = { λ c. [] };
}

/// Two cells with the same note 0 have the same key and the same rest.
pub fn a_note_tells_its_cell<A: Arm>()
    ensures { NoteTellsCell A.rest }
{}

/// A call of a source to which the cell's own `io` is lent leaves both notes as they were, whatever it
/// answers; and so does a listener that is given up.
pub fn calls_keep_the_notes_of_their_cell<A: Arm>()
    ensures { CallsKeepNote A.arm_step A.interests A.rest A.fault_count A.is_sure }
{}
