//! The book of registered timers and its calls.

ghost use Rattle.std.specs.Prelude.{◌≡◌, ℕ, ◌+◌, ◌^◌, ◌<◌, ◌≤◌, [], ◌∷◌, ◌++◌, None, length, option_map, OnOk, OnErr, vec_len, vec_capacity};
ghost use Rattle.std.specs.List.{All};
ghost use Rattle.aio_base.specs.declared.names.TimerId.{TimerId};
ghost use Rattle.aio_base.specs.World.{Registration};
ghost use Rattle.aio_base.specs.Timers.{IsBook, fold_changes, due_wakers, after_pass, first_deadline};
ghost use Rattle.aio_timers.specs.Book.{change_of, entries_needed, first_pair};
ghost use Rattle.aio_timers.specs.Room.{entries_without};

use crate::op::TimerOp;
use crate::timer_heap::TimerHeap;
use aio_base::{Moment, OutOfMemory, TimerId, Waker};
use std::alloc::Global;
use std::marker::Model;

/// The registered timers, in the order in which they fire: by deadline, then by id (`async-io` 2,
/// `reactor.rs`, `Reactor::timers`). No deadline and id stand twice.
///
/// Contracts see the list of registrations, and for how many more there is room. Over many calls an
/// insert takes constant time, and a removal, as each timer of a pass, logarithmic time; a single
/// call may take more, and may have the removal to make that the call before it left. Where many
/// timers have one id, or ids of one bucket, the search of their chain comes on top.
///
/// A timer that is polled with another waker is unregistered, and registered anew with the same
/// deadline at once. So a removal waits for the next change: where that is an insert of the same
/// deadline, the node gets the new id and the new waker in its place, and nothing else is touched.
pub struct TimerBook {
    heap: TimerHeap,
    /// A timer that was unregistered and is in the heap still, behind the one that fires first.
    late: Option<(Moment, TimerId)>,
}

impl Model for TimerBook {
    ghost use Rattle.std.specs.Prelude.{IfSome};
    ghost use Rattle.aio_timers.specs.Book.{IsBehind};
    ghost use Rattle.aio_timers.specs.Room.{Book, entries_without};

    ghost Value = { Book };

    ghost view = { λ b. record {
      entries = entries_without b.late b.heap.entries;
      spare = b.heap.spare;
    } };

    ghost invariant = { λ b. IfSome b.late (λ pair. IsBehind b.heap.entries pair.0 pair.1.0) };
}

impl Drop for TimerBook {
    fn drop(self) {
        let TimerBook { heap: _, late: _ } = self;
    }
}

impl TimerBook {
    /// No timers. It takes no memory; `reserve` takes it from `alloc`.
    pub fn new(alloc: Global) -> TimerBook
        ensures { result ≡ record { entries = []; spare = 0 } }
    {
        TimerBook {
            heap: TimerHeap::new(alloc),
            late: None,
        }
    }

    /// Makes room for `n` more timers, the only call that takes memory. `OutOfMemory` where the room
    /// is not there yet and memory ran out, or where there would be 2^32 timers: the timers then
    /// stand as before, and no room is lost. Where the room is there it takes constant time. Growth
    /// at least doubles it and takes linear time, so that each timer costs constant time on the
    /// average.
    pub fn reserve(&mut self, n: u32) -> Result<(), OutOfMemory>
        ensures entries { self.new.entries ≡ self.old.entries }
        ensures room { OnOk result (n ≤ self.new.spare) }
        ensures spare { self.old.spare ≤ self.new.spare }
        ensures refused { OnErr result (self.old.spare < n) }
    {
        self.heap.reserve(n)
    }

    /// Registers or unregisters a timer, as `op` says. It takes no memory: an `Insert` uses room
    /// for one timer at most, and a `Remove` loses none. Over many calls an `Insert` takes constant
    /// time, and a `Remove` logarithmic time, besides the search of one bucket.
    pub fn apply(&mut self, op: TimerOp)
        requires { entries_needed op ≤ self.old.spare }
        ensures entries { self.new.entries ≡ fold_changes self.old.entries (change_of op ∷ []) }
        ensures spare { self.old.spare ≤ self.new.spare + entries_needed op }
    {
        match op {
            TimerOp::Insert(deadline, id, waker) => self.insert(deadline, id, waker),
            TimerOp::Remove(deadline, id) => self.remove(deadline, id),
        }
    }

    /// Registers a timer, in place of the one with its deadline and id.
    fn insert(&mut self, deadline: Moment, id: TimerId, waker: Waker)
        requires { 1 ≤ self.old.spare }
        ensures entries { self.new.entries
            ≡ fold_changes self.old.entries (change_of (TimerOp.Insert deadline id waker) ∷ []) }
        ensures spare { self.old.spare ≤ self.new.spare + 1 }
    {
        if let Some((at, before)) = self.late {
            if at.get() == deadline.get() && self.heap.renew(deadline, before, id, waker) {
                self.late = None;
                return;
            }
        }
        settle(&mut self.heap, self.late);
        self.late = None;
        self.heap.insert(deadline, id, waker);
    }

    /// Unregisters the timer with this deadline and this id, if there is one.
    fn remove(&mut self, deadline: Moment, id: TimerId)
        ensures entries { self.new.entries
            ≡ fold_changes self.old.entries (change_of (TimerOp.Remove deadline id) ∷ []) }
        ensures spare { self.old.spare ≤ self.new.spare }
    {
        settle(&mut self.heap, self.late);
        self.late = None;
        if self.heap.has_behind(deadline, id) {
            self.late = Some((deadline, id));
        } else {
            self.heap.remove(deadline, id);
        }
    }

    /// Moves the wakers of the timers that are due at the moment `now` to the end of `taken`, in the
    /// order in which they fire; the timers go. Due are those with a deadline at most `now`. It takes
    /// no memory, and logarithmic time on the average for each of them.
    pub fn pass(&mut self, now: Moment, taken: &mut Vec<Waker>)
        requires { vec_len taken.old + length (due_wakers now self.old.entries)
            ≤ vec_capacity taken.old }
        ensures taken { taken.new.items ≡ taken.old.items ++ due_wakers now self.old.entries }
        ensures capacity { vec_capacity taken.new ≡ vec_capacity taken.old }
        ensures entries { self.new.entries ≡ after_pass now self.old.entries }
        ensures later { All (λ (r : Registration). now < r.deadline) self.new.entries }
        ensures spare { self.old.spare ≤ self.new.spare }
    {
        settle(&mut self.heap, self.late);
        self.late = None;
        self.heap.pass(now, taken);
    }

    /// How many timers are due at the moment `now`: the room that a pass needs. It looks at those
    /// timers and their children in the heap alone, so it takes no more time than the pass, and
    /// constant time where none is due.
    pub fn due_count(&self, now: Moment) -> usize
        ensures value { result ≡ length (due_wakers now self.now.entries) }
        ensures bound { result ≤ length self.now.entries }
    {
        let all = self.heap.due_count(now);
        match self.late {
            None => all,
            Some((deadline, _)) => {
                if deadline.get() <= now.get() {
                    all - 1
                } else {
                    all
                }
            }
        }
    }

    /// The deadline and the id of the timer that fires first; `None` exactly where no timer is
    /// registered. No timer has an earlier deadline. It takes constant time.
    pub fn first(&self) -> Option<(Moment, TimerId)>
        ensures value { result ≡ first_pair self.now.entries }
        ensures deadline { option_map (λ (pair : ℕ × TimerId). pair.0) result
            ≡ first_deadline self.now.entries }
        ensures order { IsBook self.now.entries }
    {
        self.heap.first()
    }

    /// How many timers are registered. Each of them fires before all behind it. It takes constant
    /// time.
    pub fn len(&self) -> usize
        ensures value { result ≡ length self.now.entries }
        ensures bound { result < 2 ^ 63 }
        ensures order { IsBook self.now.entries }
    {
        let all = self.heap.len();
        match self.late {
            None => all,
            Some(_) => all - 1,
        }
    }

    /// For how many more timers there is room. It takes constant time.
    pub fn spare(&self) -> u32
        ensures value { result ≡ self.now.spare }
        ensures bound { self.now.spare < 2 ^ 32 }
    {
        self.heap.spare()
    }
}

/// Takes the timer out of the heap that was unregistered before, if there is one.
fn settle(heap: &mut TimerHeap, late: Option<(Moment, TimerId)>)
    ensures entries { heap.new.entries ≡ entries_without late heap.old.entries }
    ensures spare { heap.old.spare ≤ heap.new.spare }
{
    if let Some((deadline, id)) = late {
        heap.remove(deadline, id);
    }
}
