//! What a server borrows: a waiting half that goes back afterwards, and six devices in one.

ghost use Rattle.std.specs.Prelude.{◌≡◌};

use crate::devices::{EventWait, Faults};
use crate::names::Event;
use crate::outcomes::{Failed, Waited};

/// The waiting half of a poller, borrowed. Its calls are those of the half behind it, and so are its
/// counts and whether it is sure.
#[derive(Drop)]
pub struct Lent<'a, W> {
    /// The half behind it.
    pub inner: &'a mut W,
}

impl<W: Faults> Faults for Lent<'_, W> {
    ghost fault_count = { λ lent. W.fault_count lent.inner.now };

    ghost is_sure = { λ lent. W.is_sure lent.inner.now };

    ghost all_sure = { W.all_sure };

    ghost sure_below_top = { λ lent sure. W.sure_below_top lent.inner.now sure };

    ghost each_sure = { λ lent sure. W.each_sure lent.inner.now sure };

    fn faults(&self) -> u64 {
        self.inner.faults()
    }
}

impl<W: EventWait> EventWait for Lent<'_, W> {
    ghost wait_count = { λ lent. W.wait_count lent.inner.now };

    ghost wait_step = { λ old call answer added new.
        W.wait_step old.inner.now call answer added new.inner.now };

    fn wait(
        &mut self,
        out: &mut Vec<Event>,
        room: u32,
        limit: Option<u64>,
    ) -> Result<Waited, Failed> {
        self.inner.wait(out, room, limit)
    }

    fn waits(&self) -> u64 {
        self.inner.waits()
    }
}

/// The six devices that a server borrows for one call.
pub struct Parts<'a, P, W, N, C, G, T> {
    /// What hands out connections.
    pub port: &'a mut P,
    /// The waiting half of the poller.
    pub wait: &'a mut W,
    /// What ends a wait from another thread.
    pub notify: &'a mut N,
    /// The clock.
    pub clock: &'a mut C,
    /// The gate.
    pub gate: &'a mut G,
    /// What runs the workers.
    pub spawner: &'a mut T,
}
