//! What keeps the edges that the system tells, as a look at the system sees it.
//!
//! Its answers are ghost relations: a generic body can come to an answer only by the call. So what a look brings
//! is exactly what was answered for each event of the system, in order.

use aio_base::{Event, Interest, Key};
use aio_edges::Edges;

/// What keeps the edges of sources and gives the events that follow from them.
pub(crate) trait EdgeKeeper {
    ghost use Rattle.std.specs.Prelude.{ℕ, ◌≤◌, Bool, List, vec_capacity};
    ghost use Rattle.aio_base.specs.declared.names.Event.{Event};
    ghost use Rattle.aio_base.specs.declared.names.Interest.{Interest};
    ghost use Rattle.aio_mio.specs.Gathering.{Adds};

    /// The keeper, the edges of a key that the system told, whether it told more than that, and the directions
    /// that the keeper gave for it.
    ghost answers: { Self → Event → Bool → Interest → Type 0 };

    /// The keeper, and the events of the keys that were due.
    ghost gives: { Self → List Event → Type 0 };

    /// The keeper, and whether it said that keys may be due.
    ghost dues: { Self → Bool → Type 0 };

    /// The system told edges of these directions, and whether it told more than that. The directions that are
    /// given by it, maybe none.
    fn tell(&self, key: Key, on: Interest, unsure: bool) -> Interest
        ensures { answers self.now (record { key = key; on = on }) unsure result };

    /// Whether there may be keys that are due.
    fn has_due(&self) -> bool
        ensures { dues self.now result };

    /// Adds the events of the keys that are due.
    fn give_due(&self, out: &mut Vec<Event>)
        ensures added { Adds (gives self.now) out.old.items out.new.items }
        ensures capacity { vec_capacity out.old ≤ vec_capacity out.new };
}

impl EdgeKeeper for Edges {
    ghost use Rattle.std.specs.Prelude.{⊤};
    ghost use Rattle.aio_edges.specs.Given.{NameDirections};

    ghost answers = { λ edges told unsure on. ⊤ };

    ghost gives = { λ edges added. NameDirections added };

    ghost dues = { λ edges due. ⊤ };

    fn tell(&self, key: Key, on: Interest, unsure: bool) -> Interest {
        Edges::tell(self, key, on, unsure)
    }

    fn has_due(&self) -> bool {
        Edges::has_due(self)
    }

    fn give_due(&self, out: &mut Vec<Event>) {
        Edges::give_due(self, out)
    }
}
