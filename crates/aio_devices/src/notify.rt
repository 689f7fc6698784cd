//! Notifiers in memory.

ghost use Rattle.std.specs.Prelude.{◌≡◌, true, false, Ok, IsTrue, IfOk};

use aio_base::{Failed, Faults, Notify, OutOfMemory};
use std::marker::Model;

/// A notifier that counts its calls, of which none ever fails. Contracts see it as the number of its
/// calls.
#[derive(Drop)]
pub struct MemNotify {
    calls: u64,
}

impl Model for MemNotify {
    ghost use Rattle.std.specs.Prelude.{ℕ};

    ghost Value = { ℕ };

    ghost view = { λ n. n.calls };
}

impl MemNotify {
    /// A notifier that was not called yet. It takes no memory.
    pub fn new() -> MemNotify
        ensures { result ≡ 0 }
    {
        MemNotify { calls: 0 }
    }
}

impl Faults for MemNotify {
    ghost use Rattle.std.specs.Prelude.{true};
    ghost use Rattle.std.proofs.Common.{arith};

    ghost fault_count = { λ n. 0 };

    ghost is_sure = { λ n. true };

    ghost all_sure = { true };

    ghost sure_below_top = { λ n sure. Prim.omega arith };

    ghost each_sure = { λ n sure. sure };

    /// No call fails, so none is counted.
    fn faults(&self) -> u64 {
        0
    }
}

impl Notify for MemNotify {
    ghost use Rattle.std.specs.Prelude.{◌≡◌, Ok};
    ghost use Rattle.aio_base.specs.Devices.{raised};

    ghost call_count = { λ n. n };

    ghost notify_step = { λ old answer new. (answer ≡ Ok tt) × (new ≡ raised old) };

    /// Counts the call.
    fn notify(&mut self) -> Result<(), Failed> {
        self.calls = self.calls.saturating_add(1);
        Ok(())
    }

    fn calls(&self) -> u64 {
        self.calls
    }

    /// A notifier that was not called yet. It takes no memory.
    fn twin(&self) -> Result<MemNotify, OutOfMemory>
        ensures sure { IsTrue true → IfOk result (λ twin. IsTrue true) }
        ensures anew { result ≡ Ok 0 }
    {
        Ok(MemNotify::new())
    }
}

/// A notifier of which each call fails. Contracts see it as the number of its calls, which is that of its
/// faults.
#[derive(Drop)]
pub struct FailingNotify {
    calls: u64,
}

impl Model for FailingNotify {
    ghost use Rattle.std.specs.Prelude.{ℕ};

    ghost Value = { ℕ };

    ghost view = { λ n. n.calls };
}

impl FailingNotify {
    /// A notifier that was not called yet. It takes no memory.
    pub fn new() -> FailingNotify
        ensures { result ≡ 0 }
    {
        FailingNotify { calls: 0 }
    }
}

impl Faults for FailingNotify {
    ghost use Rattle.std.specs.Prelude.{false};
    ghost use Rattle.std.proofs.lemmas.Bool.{false≢true};

    ghost fault_count = { λ n. n };

    ghost is_sure = { λ n. false };

    ghost all_sure = { false };

    ghost sure_below_top = { λ n sure. absurd (false≢true sure) };

    ghost each_sure = { λ n sure. sure };

    fn faults(&self) -> u64 {
        self.calls
    }
}

impl Notify for FailingNotify {
    ghost use Rattle.std.specs.Prelude.{◌≡◌, Err};
    ghost use Rattle.aio_base.specs.Devices.{raised};

    ghost call_count = { λ n. n };

    ghost notify_step = { λ old answer new. (answer ≡ Err (record {})) × (new ≡ raised old) };

    /// Counts the call, and fails.
    fn notify(&mut self) -> Result<(), Failed> {
        self.calls = self.calls.saturating_add(1);
        Err(Failed)
    }

    fn calls(&self) -> u64 {
        self.calls
    }

    /// A notifier that was not called yet, and of which each call fails. It takes no memory.
    fn twin(&self) -> Result<FailingNotify, OutOfMemory>
        ensures sure { IsTrue false → IfOk result (λ twin. IsTrue false) }
        ensures anew { result ≡ Ok 0 }
    {
        Ok(FailingNotify::new())
    }
}
