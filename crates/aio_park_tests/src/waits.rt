//! A half of a poller that tells waits which end at once from those that may last.

use aio_base::{Event, EventWait, Failed, Faults, Waited};

/// A half of a poller that never gives an event. A wait with the limit 0 ends at once; each other wait
/// might last for ever, and fails instead.
#[derive(Drop)]
pub(crate) struct PromptWait {
    waits: u64,
    faults: u64,
}

impl PromptWait {
    /// A half that has not waited yet. It takes no memory.
    pub(crate) fn new() -> PromptWait {
        PromptWait {
            waits: 0,
            faults: 0,
        }
    }
}

/// Whether a wait with this limit, in nanoseconds, is to end at once.
fn ends_at_once(limit: Option<u64>) -> bool {
    match limit {
        Some(nanoseconds) => nanoseconds == 0,
        None => false,
    }
}

impl Faults for PromptWait {
    ghost use Rattle.std.specs.Prelude.{false};
    ghost use Rattle.std.proofs.lemmas.Bool.{false≢true};

    ghost fault_count = { λ w. w.faults };

    ghost is_sure = { λ w. false };

    ghost all_sure = { false };

    ghost sure_below_top = { λ w sure. absurd (false≢true sure) };

    ghost each_sure = { λ w sure. absurd (false≢true sure) };

    fn faults(&self) -> u64 {
        self.faults
    }
}

impl EventWait for PromptWait {
    ghost use Rattle.std.specs.Prelude.{⊤};

    ghost wait_count = { λ w. w.waits };

    ghost wait_step = { λ old call answer added new. ⊤ };

    fn wait(
        &mut self,
        _out: &mut Vec<Event>,
        _room: u32,
        limit: Option<u64>,
    ) -> Result<Waited, Failed> {
        self.waits = self.waits.saturating_add(1);
        if ends_at_once(limit) {
            return Ok(Waited::Given(0));
        }
        self.faults = self.faults.saturating_add(1);
        Err(Failed)
    }

    fn waits(&self) -> u64 {
        self.waits
    }
}
