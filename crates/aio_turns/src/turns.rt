//! The deque, its owner and its thieves.

ghost use Rattle.std.specs.Prelude.{◌≡◌, ◌+◌, ◌≤◌, [], length, Some, IfOk, IfErr, OnOk, OnErr};
ghost use Rattle.crossbeam_deque.specs.Steals.{MatchSteal};
ghost use Rattle.aio_turns.specs.Passes.{Pops, Steals, new_owner, new_thief, pushed, with_thief};
ghost use Rattle.aio_turns.specs.Turns.{Met, thief_hand};

use crate::entries::TurnEntry;
use crate::rule::{Deque, KitPass, NewThief, OwnPull, Push, StealingHalf, ThiefPull};
use aio_base::OutOfMemory;
use crossbeam_deque::Steal;
use std::alloc::Global;
use std::marker::Model;
use std::sync::Wait;

/// How many places a deque has room for at first.
const CAPACITY: usize = 1_024;

/// A deque of places, for its owner and any number of thieves. Contracts see which deque it is; what it
/// holds no clause can say, since other threads may change it at any moment.
pub struct Turns {
    stealer: StealingHalf,
}

impl Model for Turns {
    ghost use Rattle.std.specs.Prelude.{◌≡◌};
    ghost use Rattle.crossbeam_deque.specs.Handles.{stealer_deque, stealer_flavor};
    ghost use Rattle.aio_turns.specs.Passes.{DequeId};

    ghost Value = { DequeId };

    ghost view = { λ t. stealer_deque t.stealer };

    ghost invariant = { λ t. stealer_flavor t.stealer ≡ 0 };
}

impl Drop for Turns {
    fn drop(self) {
        let Turns { stealer: _ } = self;
    }
}

/// What the owner of a deque may do with it, and what it did: the entries that it pushed and those that it
/// took, how often it found the deque empty, and how many thieves it made.
pub struct OwnPass {
    worker: Deque,
    pushes: u64,
    empties: u64,
}

impl Model for OwnPass {
    ghost use Rattle.std.specs.Prelude.{◌≡◌, ◌≤◌, length};
    ghost use Rattle.crossbeam_deque.specs.Handles.{worker_capacity, worker_deque, worker_flavor, worker_index, worker_port, worker_view};
    ghost use Rattle.aio_turns.specs.Passes.{OwnView};

    ghost Value = { OwnView };

    ghost view = { λ p. record {
      deque = worker_deque p.worker;
      pushed = (worker_view p.worker).pushed;
      pulled = (worker_view p.worker).pulled;
      empties = p.empties;
      thieves = (worker_view p.worker).thieves;
    } };

    ghost invariant = { λ p. (worker_flavor p.worker ≡ 0) × (worker_port p.worker ≡ 0)
        × (1024 ≤ worker_capacity p.worker) × (worker_index p.worker ≤ p.pushes)
        × (length (worker_view p.worker).pushed ≡ p.pushes) };
}

impl Drop for OwnPass {
    fn drop(self) {
        let OwnPass {
            worker: _,
            pushes: _,
            empties: _,
        } = self;
    }
}

/// The same of a thief, which pushes nothing.
pub struct ThiefPass {
    pass: KitPass,
    empties: u64,
}

impl Model for ThiefPass {
    ghost use Rattle.std.specs.Prelude.{◌≡◌, None, []};
    ghost use Rattle.aio_turns.specs.Passes.{ThiefView};

    ghost Value = { ThiefView };

    ghost view = { λ t. record {
      deque = (t.pass.rows, t.pass.heap);
      pulled = t.pass.me.view.client.pulled;
      empties = t.empties;
    } };

    ghost invariant = { λ t. (t.pass.me.hand ≡ None) × (t.pass.me.spare ≡ None)
        × (t.pass.me.view.client.pushed ≡ []) × (t.pass.me.view.client.thieves ≡ 0) };
}

impl Drop for ThiefPass {
    fn drop(self) {
        let ThiefPass {
            pass: _,
            empties: _,
        } = self;
    }
}

impl Turns {
    /// A deque that holds nothing, with its owner. It takes the memory for the first 1,024 pushes;
    /// `OutOfMemory` where it is not there.
    pub fn new(alloc: Global) -> Result<(Turns, OwnPass), OutOfMemory>
        ensures { IfOk result (λ made. made.1 ≡ new_owner made.0) }
    {
        let Ok(worker) = Deque::fifo_as(alloc, CAPACITY) else {
            return Err(OutOfMemory);
        };
        let Ok(stealer) = worker.stealer() else {
            return Err(OutOfMemory);
        };
        let own = OwnPass {
            worker,
            pushes: 0,
            empties: 0,
        };
        Ok((Turns { stealer }, own))
    }

    /// A thief for another thread, made by the owner, which counts it. `OutOfMemory` where there is no
    /// memory for it; no thief was made then.
    pub fn thief(&self, own: &mut OwnPass) -> Result<ThiefPass, OutOfMemory>
        requires belongs { own.old.deque ≡ self.now }
        ensures thief { IfOk result (λ thief. thief ≡ new_thief self.now) }
        ensures own { OnOk result (own.new ≡ with_thief own.old) }
        ensures refused { OnErr result (own.new ≡ own.old) }
    {
        Ok(ThiefPass {
            pass: own.worker.another::<NewThief>(),
            empties: 0,
        })
    }

    /// Puts a place at the back of the deque, as the next entry of its owner. The first 1,024 pushes take no
    /// memory.
    ///
    /// # Errors
    ///
    /// The place comes back where the deque cannot grow, which can only be after 1,024 pushes.
    pub fn push(&self, own: &mut OwnPass, place: u32) -> Result<(), u32>
        requires belongs { own.old.deque ≡ self.now }
        ensures pushed { OnOk result (own.new ≡ pushed place own.old) }
        ensures back { IfErr result (λ back. back ≡ place) }
        ensures refused { OnErr result ((own.new ≡ own.old) × (1024 ≤ length own.old.pushed)) }
    {
        if own.pushes == u64::MAX {
            return Err(place);
        }
        let number = own.pushes + 1;
        match own.worker.push_as::<Push>(TurnEntry { number, place }) {
            Ok(()) => {
                own.pushes = number;
                Ok(())
            }
            Err(back) => Err(back.place),
        }
    }

    /// Takes the place at the front of the deque; `None` only where the deque was empty at a step of this
    /// call, which the owner counts. It takes no memory.
    pub fn pop<R: Wait>(&self, rt: &R, own: &mut OwnPass) -> Option<u32>
        requires belongs { own.old.deque ≡ self.now }
        ensures { Pops result own.old own.new }
    {
        match own.worker.pop_as::<OwnPull>() {
            None => {
                own.empties = next_number(rt, own.empties);
                None
            }
            Some(entry) => Some(entry.place),
        }
    }

    /// Takes the place at the front of the deque for a thief; `None` only where the deque was empty at a
    /// step of this call, which the thief counts. Where another was first, it tries again. It takes no memory.
    pub fn steal<R: Wait>(&self, rt: &R, thief: &mut ThiefPass) -> Option<u32>
        requires belongs { thief.old.deque ≡ self.now }
        ensures { Steals result thief.old thief.new }
    {
        for _ in rt.forever() {
            match self.try_steal(thief) {
                Steal::Success(place) => return Some(place),
                Steal::Empty => {
                    thief.empties = next_number(rt, thief.empties);
                    return None;
                }
                Steal::Retry => {}
            }
        }
        unreachable!()
    }

    /// One try to steal, which may lose a race.
    fn try_steal(&self, thief: &mut ThiefPass) -> Steal<u32>
        requires belongs { thief.old.deque ≡ self.now }
        ensures { MatchSteal result
            ((thief.new ≡ thief.old) × Met [] (thief_hand thief.old.pulled))
            (thief.new ≡ thief.old)
            (λ place. Steals (Some place) thief.old thief.new) }
    {
        match self.stealer.steal_as::<ThiefPull>(&mut thief.pass) {
            Steal::Success(entry) => Steal::Success(entry.place),
            Steal::Empty => Steal::Empty,
            Steal::Retry => Steal::Retry,
        }
    }
}

/// The number after this one, of the calls of a pass that found none. After 2^64 - 1 of them it waits for
/// ever: no thread gets there.
fn next_number<R: Wait>(rt: &R, number: u64) -> u64
    ensures { result ≡ number + 1 }
{
    for _ in rt.forever() {
        if number < u64::MAX {
            return number + 1;
        }
    }
    unreachable!()
}
