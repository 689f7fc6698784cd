//! The hosts of timers and tasks, as traits with a written meaning.
//!
//! What a host does with a registration is told by relations of its own, between the state before a
//! call and the state after it, which stand in one record of rules. For a host over a book of timers
//! they say which change the book got; for one that several threads share they say what stands in
//! their common queue, and which words a wake has set. Generic code cannot look into them, and hands
//! them on.

ghost use Rattle.std.specs.Prelude.{◌≡◌, ◌-◌, ◌^◌, ◌≤◌, IsTrue, Result, None, OnOk, OnErr};

use crate::later::Later;
use crate::names::{Moment, TimerId, Waker};
use crate::outcomes::{CountFault, OutOfMemory};

/// What an insert that met trouble answers.
#[derive(Clone, Copy, Debug, PartialEq, Eq)]
pub enum InsertRefusal {
    /// Memory ran out. The timer is not registered, and no id was drawn.
    OutOfMemory,
    /// The timer is registered as `id` all the same, but the host's notifier failed, so what waits
    /// may not know of it.
    Notify {
        /// The id under which the timer is registered.
        id: TimerId,
        /// The notifier's counts of faults before and after the call.
        fault: CountFault,
    },
}

/// A host that registers timers (`async-io` 2, `reactor.rs`: `Reactor::insert_timer` and
/// `Reactor::remove_timer`).
///
/// Its pass has a number, and draws at most 2^40 - 1 ids, counted from 1 behind 2^40 times that number.
/// So no id comes twice in a pass, nor in two passes of different numbers. Each call leaves the host
/// later than it was, keeps its pass, and lets its notifier's count of faults not fall, nor rise
/// where the notifier is sure.
pub trait TimerHost: Later {
    ghost use Rattle.aio_base.specs.Hosts.{HostRules, has_id_left, RegistersAs, NotifierTells, registered_id, insert_fault};

    /// What the host tells of its calls: its relations of an insert and of a removal, and of each
    /// where it was refused, of a look at its rounds and of a wake, which always hold where it tells
    /// nothing of that; its notifier's count of faults; the number of its pass, and how many ids the
    /// pass has drawn.
    ghost rules: { HostRules Self };

    /// Whether the pass has an id left. It draws at most 2^40 - 1.
    fn ids_left(&self) -> bool
        ensures left { result ≡ has_id_left (rules.drawn self.now) }
        ensures bound { rules.drawn self.now ≤ 2 ^ 40 - 1 };

    /// Registers a timer for a deadline with a waker, under the id that the pass draws next.
    /// `OutOfMemory` where memory ran out; `Notify` only where the host's notifier is not sure and
    /// its count of faults rose.
    fn insert_timer(&mut self, at: Moment, waker: Waker) -> Result<TimerId, InsertRefusal>
        requires { IsTrue (has_id_left (rules.drawn self.old)) }
        ensures inserted { RegistersAs rules at waker self.old (registered_id result) self.new }
        ensures notifier { NotifierTells (Self.notifier_is_sure self.old)
            (rules.faults self.old) (rules.faults self.new) (insert_fault result) }
        ensures later { Self.is_later self.old self.new }
        ensures pass { rules.pass self.new ≡ rules.pass self.old };

    /// Takes the registration with this deadline and id out, where there is one. `OutOfMemory` where
    /// memory ran out.
    fn remove_timer(&mut self, at: Moment, id: TimerId) -> Result<(), OutOfMemory>
        ensures removed { OnOk result (rules.removed self.old at id self.new) }
        ensures refused { OnErr result (rules.removal_refused self.old at id self.new) }
        ensures notifier { NotifierTells (Self.notifier_is_sure self.old)
            (rules.faults self.old) (rules.faults self.new) None }
        ensures later { Self.is_later self.old self.new }
        ensures pass { rules.pass self.new ≡ rules.pass self.old }
        ensures ids { rules.drawn self.new ≡ rules.drawn self.old };
}

/// A host of timers that counts rounds and wakes tasks (`async-io` 2, `reactor.rs`,
/// `Reactor::ticker`). Both calls take no memory.
pub trait Host: TimerHost {
    ghost use Rattle.aio_base.specs.declared.outcomes.CountFault.{CountFault};
    ghost use Rattle.aio_base.specs.Hosts.{NotifierTells, wake_fault};

    /// How many rounds have begun.
    fn ticker(&mut self) -> u64
        ensures looks { Self.rules.looked self.old result self.new }
        ensures notifier { NotifierTells (Self.notifier_is_sure self.old)
            (Self.rules.faults self.old) (Self.rules.faults self.new) None }
        ensures later { Self.is_later self.old self.new }
        ensures pass { Self.rules.pass self.new ≡ Self.rules.pass self.old }
        ensures ids { Self.rules.drawn self.new ≡ Self.rules.drawn self.old };

    /// Wakes the task of a waker. A fault only where the host's notifier is not sure and its count of
    /// faults rose.
    fn wake(&mut self, waker: Waker) -> Result<(), CountFault>
        ensures wakes { Self.rules.woke self.old waker result self.new }
        ensures notifier { NotifierTells (Self.notifier_is_sure self.old)
            (Self.rules.faults self.old) (Self.rules.faults self.new) (wake_fault result) }
        ensures later { Self.is_later self.old self.new }
        ensures pass { Self.rules.pass self.new ≡ Self.rules.pass self.old }
        ensures ids { Self.rules.drawn self.new ≡ Self.rules.drawn self.old };
}
