//! What ends a wait from another thread.

ghost use Rattle.std.specs.Prelude.{◌≡◌, false, IsTrue, IfOk};

use crate::answers::counted;
use crate::selector::Selector;
use aio_base::{Failed, Faults, Notify, OutOfMemory};
use aio_edges::Edges;
use std::alloc::Global;
use std::marker::Model;
use std::sync::Arc;

/// What ends the wait of a `MioWait`, or the next one (`polling` 3, `lib.rs`, `Poller::notify`). It is
/// never sure. Its twins end the same waits.
///
/// Contracts see the counts of its notifies and of its faults.
#[derive(Drop)]
pub struct MioNotify {
    selector: Arc<Selector<Edges>, Global>,
    calls: u64,
    faults: u64,
}

impl Model for MioNotify {
    ghost use Rattle.aio_mio.specs.Values.{NotifyValue};

    ghost Value = { NotifyValue };

    ghost view = { λ n. record { calls = n.calls; faults = n.faults } };
}

impl MioNotify {
    /// A notifier that was not called yet.
    pub(crate) fn new(selector: Arc<Selector<Edges>, Global>) -> MioNotify
        ensures { result ≡ record { calls = 0; faults = 0 } }
    {
        MioNotify {
            selector,
            calls: 0,
            faults: 0,
        }
    }
}

impl Faults for MioNotify {
    ghost fault_count = { λ n. n.faults };

    ghost is_sure = { λ n. false };

    ghost all_sure = { false };

    ghost sure_below_top = { λ n sure. Prim.cc };

    ghost each_sure = { λ n sure. Prim.cc };

    fn faults(&self) -> u64 {
        self.faults
    }
}

impl Notify for MioNotify {
    ghost use Rattle.std.specs.Prelude.{⊤};

    ghost call_count = { λ n. n.calls };

    ghost notify_step = { λ old answer new. ⊤ };

    /// Calls the waker where a wait may be inside the system; else the next wait finds that it was told.
    fn notify(&mut self) -> Result<(), Failed> {
        self.calls = self.calls.saturating_add(1);
        let told = self.selector.wakes.tell();
        counted(told, &mut self.faults)
    }

    fn calls(&self) -> u64 {
        self.calls
    }

    /// A notifier that was not called yet, of the same waits.
    fn twin(&self) -> Result<MioNotify, OutOfMemory>
        ensures sure { IsTrue false → IfOk result (λ twin. IsTrue false) }
        ensures anew { IfOk result (λ twin. twin ≡ record { calls = 0; faults = 0 }) }
    {
        match Arc::try_clone(&self.selector) {
            Ok(selector) => Ok(MioNotify::new(selector)),
            Err(_) => Err(OutOfMemory),
        }
    }
}
