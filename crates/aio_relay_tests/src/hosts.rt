//! A host of one thread, for what a task does to its host.

ghost use Rattle.std.specs.Prelude.{◌≡◌, ◌-◌, ◌^◌, ◌≤◌, false};
ghost use Rattle.aio_base.specs.Hosts.{NotifierTells, wake_fault};

use aio_base::{
    CountFault, Host, InsertRefusal, Later, Moment, OutOfMemory, TimerHost, TimerId, Waker,
};
use std::alloc::Global;

/// The id after which a pass draws none.
const LAST_ID: u64 = 0xff_ffff_ffff;

/// What a host meets.
#[derive(Clone, Copy)]
pub(crate) enum Trouble {
    /// No trouble.
    Nothing,
    /// No id is left.
    IdsSpent,
    /// Its notifier fails.
    Notifier,
    /// Its notifier fails in a wake, and in no insert.
    Wakes,
    /// It has no memory for a timer.
    Memory,
}

/// A host that keeps its registrations in the order in which they came, and the wakers that it woke.
#[derive(Drop)]
pub(crate) struct ListHost {
    trouble: Trouble,
    registered: Vec<(Moment, Waker, TimerId)>,
    woken: u64,
    drawn: u64,
    faults: u64,
    ghost bound: { drawn ≤ 2 ^ 40 - 1 },
}

impl Later for ListHost {
    ghost use Rattle.std.specs.Prelude.{◌≤◌, refl, false};

    ghost notifier_is_sure = { λ h. false };

    ghost is_later = { λ old new. old.faults ≤ new.faults };

    ghost use Rattle.std.proofs.Common.{arith};

    ghost later_than_itself = { λ h. Prim.omega arith };

    ghost later_than_later = { λ a b c first second. Prim.omega arith };

    ghost stays_sure = { λ a b later. refl };
}

impl ListHost {
    /// A host that meets this trouble. It has drawn no id, or all of them.
    pub(crate) fn new(alloc: Global, trouble: Trouble) -> ListHost {
        let drawn = match trouble {
            Trouble::IdsSpent => LAST_ID,
            _ => 0,
        };
        ListHost {
            trouble,
            registered: Vec::new(alloc),
            woken: 0,
            drawn,
            faults: 0,
        }
    }

    /// The moment and the waker of its one registration, if it has just one.
    pub(crate) fn only_timer(&self) -> Option<(u64, u32)> {
        match self.registered.as_slice() {
            [(at, waker, _)] => Some((at.get(), waker.0)),
            _ => None,
        }
    }

    /// How many timers are registered.
    pub(crate) fn timers(&self) -> usize {
        self.registered.len()
    }

    /// Which wakers it has woken since the last call of this: bit w for waker w.
    pub(crate) fn take_woken(&mut self) -> u64 {
        let woken = self.woken;
        self.woken = 0;
        woken
    }

    /// Makes the notifier's call, for a wake or an insert, and tells its fault.
    fn notify(&mut self, wakes: bool) -> Result<(), CountFault>
        ensures notifier { NotifierTells false self.old.faults self.new.faults (wake_fault result) }
        ensures drawn { self.new.drawn ≡ self.old.drawn }
    {
        let before = self.faults;
        let fails = match self.trouble {
            Trouble::Notifier => true,
            Trouble::Wakes => wakes,
            _ => false,
        };
        if fails {
            self.faults = before.saturating_add(1);
            return Err(CountFault {
                before,
                after: self.faults,
            });
        }
        Ok(())
    }
}

impl TimerHost for ListHost {
    ghost rules = { record {
      inserted = λ old at waker id new. Unit {0};
      removed = λ old at id new. Unit {0};
      insert_refused = λ old at waker new. Unit {0};
      removal_refused = λ old at id new. Unit {0};
      looked = λ old rounds new. Unit {0};
      woke = λ old waker told new. Unit {0};
      faults = λ h. h.faults;
      pass = λ h. 0;
      drawn = λ h. h.drawn;
    } };

    fn ids_left(&self) -> bool {
        self.drawn != LAST_ID
    }

    fn insert_timer(&mut self, at: Moment, waker: Waker) -> Result<TimerId, InsertRefusal> {
        let drawn = self.drawn + 1;
        let id = TimerId(drawn);
        if let Trouble::Memory = self.trouble {
            return Err(InsertRefusal::OutOfMemory);
        }
        if self.registered.push((at, waker, id)).is_err() {
            return Err(InsertRefusal::OutOfMemory);
        }
        self.drawn = drawn;
        match self.notify(false) {
            Ok(()) => Ok(id),
            Err(fault) => Err(InsertRefusal::Notify { id, fault }),
        }
    }

    fn remove_timer(&mut self, at: Moment, id: TimerId) -> Result<(), OutOfMemory> {
        self.registered.retain(|r| r.0 != at || r.2 != id);
        Ok(())
    }
}

impl Host for ListHost {
    fn ticker(&mut self) -> u64 {
        0
    }

    fn wake(&mut self, waker: Waker) -> Result<(), CountFault> {
        self.woken |= 1 << (waker.0 % 64);
        self.notify(true)
    }
}
