//! The half of a poller that waits.

ghost use Rattle.std.specs.Prelude.{◌≡◌, [], false, IfOk};

use crate::answers::counted;
use crate::looks::Looks;
use crate::selector::Selector;
use aio_base::{Event, EventWait, Failed, Faults, OutOfMemory, Waited};
use aio_edges::Edges;
use mio::Poll;
use std::alloc::Global;
use std::io::ErrorKind;
use std::marker::Model;
use std::sync::Arc;

/// The half of a poller that waits for the events of a port's connections (`polling` 3, `lib.rs`,
/// `Poller::wait`). It is never sure. Events that a wait has no room for are given by the next.
///
/// Contracts see those events, and the counts of its waits and of its faults.
#[derive(Drop)]
pub struct MioWait {
    looks: Looks<Edges>,
    waits: u64,
    faults: u64,
}

impl Model for MioWait {
    ghost use Rattle.aio_mio.specs.Looks.{left_over};
    ghost use Rattle.aio_mio.specs.Values.{WaitValue};

    ghost Value = { WaitValue };

    ghost view = { λ w. record { left = left_over w.looks; waits = w.waits; faults = w.faults } };
}

impl MioWait {
    /// A half that has not waited yet. `OutOfMemory` where memory ran out.
    pub(crate) fn new(
        alloc: Global,
        poll: Poll,
        selector: &Arc<Selector<Edges>, Global>,
    ) -> Result<MioWait, OutOfMemory>
        ensures { IfOk result (λ wait. wait ≡ record { left = []; waits = 0; faults = 0 }) }
    {
        Ok(MioWait {
            looks: Looks::new(alloc, poll, selector)?,
            waits: 0,
            faults: 0,
        })
    }
}

impl Faults for MioWait {
    ghost fault_count = { λ w. w.faults };

    ghost is_sure = { λ w. false };

    ghost all_sure = { false };

    ghost sure_below_top = { λ w sure. Prim.cc };

    ghost each_sure = { λ w sure. Prim.cc };

    fn faults(&self) -> u64 {
        self.faults
    }
}

impl EventWait for MioWait {
    ghost use Rattle.aio_mio.specs.Waits.{WaitsInOrder};

    ghost wait_count = { λ w. w.waits };

    ghost wait_step = { WaitsInOrder };

    /// Gives what is left of the last look, and looks where nothing is. The system counts a limit in whole
    /// milliseconds, rounded up, and takes at most 24 days of one.
    fn wait(
        &mut self,
        out: &mut Vec<Event>,
        room: u32,
        limit: Option<u64>,
    ) -> Result<Waited, Failed> {
        self.waits = self.waits.saturating_add(1);
        if let Err(error) = self.looks.refill(limit) {
            if error.kind() == ErrorKind::Interrupted {
                return Ok(Waited::Interrupted);
            }
            return counted(Err(error), &mut self.faults);
        }
        let count = self.looks.give_on(out, room);
        Ok(Waited::Given(count))
    }

    fn waits(&self) -> u64 {
        self.waits
    }
}
