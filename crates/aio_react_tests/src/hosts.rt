//! A host of timers, and code over the bounds of hosts. That they are proved shows that the traits can be met.

ghost use Rattle.std.specs.Prelude.{◌≡◌, ◌-◌, ◌^◌, ◌≤◌, false};
ghost use Rattle.aio_base.specs.Hosts.{NotifierTells, wake_fault};

use aio_base::{CountFault, InsertRefusal, Later, Moment, OutOfMemory, TimerHost, TimerId, Waker};
use std::alloc::Global;

/// The id after which a pass draws none.
pub(crate) const LAST_ID: u64 = 0xff_ffff_ffff;

/// The number of its pass.
pub(crate) const PASS: u64 = 3;

/// A deadline with its waker, and the id under which it is registered.
pub(crate) type Registered = (Moment, Waker, TimerId);

/// A host in its third pass that keeps its registrations in the order in which they came, and the ids
/// that it drew. It refuses what it is told to refuse, and its notifier fails where it is told to.
#[derive(Drop)]
pub(crate) struct ListHost {
    /// What is registered.
    pub(crate) registered: Vec<Registered>,
    /// How many ids it has drawn.
    pub(crate) drawn: u64,
    /// Whether it has no memory for a registration.
    pub(crate) refuses_insert: bool,
    /// Whether it has no memory to take one out.
    pub(crate) refuses_removal: bool,
    notifier_fails: bool,
    faults: u64,
    ghost bound: { drawn ≤ 2 ^ 40 - 1 },
}

impl Later for ListHost {
    ghost use Rattle.std.specs.Prelude.{◌≤◌, refl, false};

    ghost notifier_is_sure = { λ h. false };

    ghost is_later = { λ old new. old.faults ≤ new.faults };

    ghost use Rattle.std.proofs.Common.{arith};

    ghost later_than_itself = { λ h. Prim.omega arith };

    ghost later_than_later = { λ a b c first second. Prim.omega arith };

    ghost stays_sure = { λ a b later. refl };
}

impl ListHost {
    /// Makes the notifier's call, and tells its fault.
    fn notify(&mut self) -> Result<(), CountFault>
        ensures notifier { NotifierTells false self.old.faults self.new.faults (wake_fault result) }
        ensures drawn { self.new.drawn ≡ self.old.drawn }
    {
        let before = self.faults;
        if self.notifier_fails {
            self.faults = before.saturating_add(1);
            return Err(CountFault {
                before,
                after: self.faults,
            });
        }
        Ok(())
    }
}

impl TimerHost for ListHost {
    ghost rules = { record {
      inserted = λ old at waker id new. Unit {0};
      removed = λ old at id new. Unit {0};
      insert_refused = λ old at waker new. Unit {0};
      removal_refused = λ old at id new. Unit {0};
      looked = λ old rounds new. Unit {0};
      woke = λ old waker told new. Unit {0};
      faults = λ h. h.faults;
      pass = λ h. 3;
      drawn = λ h. h.drawn;
    } };

    fn ids_left(&self) -> bool {
        self.drawn != LAST_ID
    }

    fn insert_timer(&mut self, at: Moment, waker: Waker) -> Result<TimerId, InsertRefusal> {
        let drawn = self.drawn + 1;
        let id = TimerId((PASS << 40) + drawn);
        if self.refuses_insert || self.registered.push((at, waker, id)).is_err() {
            return Err(InsertRefusal::OutOfMemory);
        }
        self.drawn = drawn;
        match self.notify() {
            Ok(()) => Ok(id),
            Err(fault) => Err(InsertRefusal::Notify { id, fault }),
        }
    }

    fn remove_timer(&mut self, at: Moment, id: TimerId) -> Result<(), OutOfMemory> {
        if self.refuses_removal {
            return Err(OutOfMemory);
        }
        self.registered.retain(|r| r.0 != at || r.2 != id);
        Ok(())
    }
}

/// Registers a timer, where there is an id and nothing fails.
pub(crate) fn insert<H: TimerHost>(host: &mut H, at: Moment, waker: Waker) -> Option<TimerId>
    ensures { H.is_later host.old host.new }
{
    if host.ids_left() {
        host.insert_timer(at, waker).ok()
    } else {
        None
    }
}

/// Registers a timer with each of two wakers, and takes the first out again.
pub(crate) fn insert_two<H: TimerHost>(
    host: &mut H,
    at: Moment,
    first: Waker,
    second: Waker,
) -> Option<(TimerId, TimerId)>
    ensures { H.is_later host.old host.new }
{
    let one = insert(host, at, first)?;
    let two = insert(host, at, second)?;
    host.remove_timer(at, one).ok()?;
    Some((one, two))
}

/// A host that has drawn so many ids and done nothing else, whose notifier fails or does not.
pub(crate) fn make_host(alloc: Global, drawn: u64, notifier_fails: bool) -> ListHost
    requires { drawn ≤ 2 ^ 40 - 1 }
{
    ListHost {
        registered: Vec::new(alloc),
        drawn,
        refuses_insert: false,
        refuses_removal: false,
        notifier_fails,
        faults: 0,
    }
}
