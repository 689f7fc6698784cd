//! The registered timers in a heap, and its calls.

ghost use Rattle.std.specs.Prelude.{◌≡◌, ◌+◌, ◌^◌, ◌<◌, ◌≤◌, [], ◌∷◌, length, vec_len, vec_capacity};
ghost use Rattle.std.specs.Bool.{OnTrue, OnFalse};
ghost use Rattle.aio_timers.specs.declared.op.TimerOp.TheVariants as TimerOp;
ghost use Rattle.aio_base.specs.World.{Registration};
ghost use Rattle.aio_base.specs.Timers.{IsBook, fold_changes, due_wakers};
ghost use Rattle.aio_timers.specs.Book.{IsBehind, change_of, first_pair, is_first_due};
ghost use Rattle.aio_timers.specs.Calls.{Reserves, Passes};

use crate::buckets::Buckets;
use crate::due::{count_due, has_later_children, is_due_at};
use crate::link::Link;
use crate::nodes::Nodes;
use crate::reads::{pair_at, waker_at};
use crate::room::{grow, wanted};
use crate::steps::{add, find, find_to, renew, take};
use aio_base::{Moment, OutOfMemory, TimerId, Waker};
use std::alloc::Global;
use std::marker::Model;

/// The registered timers, in the order in which they fire. No deadline and id stand twice.
///
/// Contracts see the list of registrations, and for how many more there is room. The timers stand in
/// a pairing heap (Fredman, Sedgewick, Sleator and Tarjan, 1986) whose links are indices of nodes, and
/// chains through the nodes, one for each bucket of ids, find the node of a deadline and an id.
#[derive(Drop)]
pub(crate) struct TimerHeap {
    nodes: Nodes,
    buckets: Buckets,
    root: Option<usize>,
    free: Link,
    used: u32,
    /// No id of a timer is greater.
    last: u64,
}

impl Model for TimerHeap {
    ghost use Rattle.std.specs.Prelude.{◌-◌, length};
    ghost use Rattle.aio_timers.specs.Held.{helds};
    ghost use Rattle.aio_timers.specs.Sound.{registrations, HasIdsTo, IsSound};
    ghost use Rattle.aio_timers.specs.Room.{Book};

    ghost Value = { Book };

    ghost view = { λ b. record {
      entries = registrations (helds b.nodes);
      spare = length b.nodes - b.used;
    } };

    ghost invariant = { λ b. IsSound b.nodes b.buckets b.root b.free b.used
        × HasIdsTo b.last (registrations (helds b.nodes)) };
}

impl TimerHeap {
    /// No timers.
    pub(crate) fn new(alloc: Global) -> TimerHeap
        ensures { result ≡ record { entries = []; spare = 0 } }
    {
        TimerHeap {
            nodes: Nodes::new(alloc),
            buckets: Buckets::new(alloc),
            root: None,
            free: Link::none(),
            used: 0,
            last: 0,
        }
    }

    /// Makes room for `n` more timers, as the call of the book does.
    pub(crate) fn reserve(&mut self, n: u32) -> Result<(), OutOfMemory>
        ensures { Reserves self.old self.new n result }
    {
        let spare = self.spare();
        if n <= spare {
            return Ok(());
        }
        match wanted(self.nodes.len(), (n - spare) as usize) {
            None => Err(OutOfMemory),
            Some(total) => match grow(&mut self.nodes, &mut self.buckets, self.free, total) {
                Err(refused) => Err(refused),
                Ok(free) => {
                    self.free = free;
                    Ok(())
                }
            },
        }
    }

    /// Registers a timer, in place of the one with its deadline and id. It takes no memory, and constant
    /// time besides the search of one bucket.
    pub(crate) fn insert(&mut self, deadline: Moment, id: TimerId, waker: Waker)
        requires { 1 ≤ self.old.spare }
        ensures entries { self.new.entries
            ≡ fold_changes self.old.entries (change_of (TimerOp.Insert deadline id waker) ∷ []) }
        ensures spare { self.old.spare ≤ self.new.spare + 1 }
    {
        match find_to(&self.nodes, &self.buckets, self.last, deadline, id) {
            Some(at) => self.nodes.set_waker(at, Some(waker)),
            None => {
                let timer = (deadline, id, waker);
                let (root, free) = add(
                    &mut self.nodes,
                    &mut self.buckets,
                    self.root,
                    self.free,
                    timer,
                );
                self.root = Some(root);
                self.free = free;
                self.used += 1;
                self.last = self.last.max(id.0);
            }
        }
    }

    /// Unregisters the timer with this deadline and this id, if there is one. It takes logarithmic time
    /// on the average over many calls, besides the search of one bucket.
    pub(crate) fn remove(&mut self, deadline: Moment, id: TimerId)
        ensures entries { self.new.entries
            ≡ fold_changes self.old.entries (change_of (TimerOp.Remove deadline id) ∷ []) }
        ensures spare { self.old.spare ≤ self.new.spare }
    {
        if let Some(at) = find(&self.nodes, &self.buckets, deadline, id) {
            let (root, free) = take(&mut self.nodes, &mut self.buckets, self.root, self.free, at);
            self.root = root;
            self.free = free;
            self.used -= 1;
        }
    }

    /// Gives the timer with this deadline and this id another id and another waker, where that moves
    /// nothing in the heap: where the id is a later one, which no timer of the deadline has, and no
    /// child of its node fires at the deadline too. Whether it did; else all is as it was.
    pub(crate) fn renew(
        &mut self,
        deadline: Moment,
        before: TimerId,
        next: TimerId,
        waker: Waker,
    ) -> bool
        ensures renewed { OnTrue result (self.new.entries ≡ fold_changes self.old.entries
            (change_of (TimerOp.Remove deadline before)
            ∷ change_of (TimerOp.Insert deadline next waker) ∷ [])) }
        ensures kept { OnFalse result (self.new ≡ self.old) }
        ensures spare { self.new.spare ≡ self.old.spare }
    {
        if next.0 <= before.0 {
            return false;
        }
        match find(&self.nodes, &self.buckets, deadline, before) {
            None => false,
            Some(at) => {
                if !has_later_children(&self.nodes, at, deadline) {
                    return false;
                }
                match find_to(&self.nodes, &self.buckets, self.last, deadline, next) {
                    Some(_) => false,
                    None => {
                        renew(&mut self.nodes, &mut self.buckets, at, next, waker);
                        self.last = self.last.max(next.0);
                        true
                    }
                }
            }
        }
    }

    /// Whether a timer has this deadline and this id, and another one fires first.
    pub(crate) fn has_behind(&self, deadline: Moment, id: TimerId) -> bool
        ensures { OnTrue result (IsBehind self.now.entries deadline id.0) }
    {
        let found = find(&self.nodes, &self.buckets, deadline, id);
        match found {
            None => false,
            Some(at) => match self.root {
                None => false,
                Some(root) => root != at,
            },
        }
    }

    /// Takes the timers that are due at the moment `now`, as the call of the book does.
    pub(crate) fn pass(&mut self, now: Moment, taken: &mut Vec<Waker>)
        requires { vec_len taken.old + length (due_wakers now self.old.entries)
            ≤ vec_capacity taken.old }
        ensures { Passes now self.old self.new taken.old taken.new }
    {
        for _ in 0..self.len() {
            if !self.is_first_due(now) {
                return;
            }
            let waker = self.take_first();
            taken.push_reserved(waker);
        }
    }

    /// Whether the timer that fires first is due at the moment `now`.
    fn is_first_due(&self, now: Moment) -> bool
        ensures value { result ≡ is_first_due now self.now.entries }
        ensures order { IsBook self.now.entries }
    {
        match self.root {
            None => false,
            Some(at) => is_due_at(&self.nodes, at, now),
        }
    }

    /// Unregisters the timer that fires first. The answer is its waker.
    fn take_first(&mut self) -> Waker
        requires { 0 < length self.old.entries }
        ensures entries { (r : Registration)
            × (self.old.entries ≡ r ∷ self.new.entries) × (result ≡ r.waker) }
        ensures spare { self.old.spare ≤ self.new.spare }
    {
        match self.root {
            None => unreachable!(),
            Some(at) => {
                let waker = waker_at(&self.nodes, at);
                let (root, free) = take(
                    &mut self.nodes,
                    &mut self.buckets,
                    self.root,
                    self.free,
                    at,
                );
                self.root = root;
                self.free = free;
                self.used -= 1;
                waker
            }
        }
    }

    /// How many timers are due at the moment `now`.
    pub(crate) fn due_count(&self, now: Moment) -> usize
        ensures { result ≡ length (due_wakers now self.now.entries) }
    {
        count_due(&self.nodes, self.root, now)
    }

    /// The deadline and the id of the timer that fires first; `None` exactly where no timer is
    /// registered.
    pub(crate) fn first(&self) -> Option<(Moment, TimerId)>
        ensures value { result ≡ first_pair self.now.entries }
        ensures order { IsBook self.now.entries }
    {
        match self.root {
            None => None,
            Some(at) => Some(pair_at(&self.nodes, at)),
        }
    }

    /// How many timers are registered.
    pub(crate) fn len(&self) -> usize
        ensures value { result ≡ length self.now.entries }
        ensures bound { result < 2 ^ 63 }
        ensures order { IsBook self.now.entries }
    {
        self.used as usize
    }

    /// For how many more timers there is room.
    pub(crate) fn spare(&self) -> u32
        ensures value { result ≡ self.now.spare }
        ensures bound { self.now.spare < 2 ^ 32 }
    {
        (self.nodes.len() - self.used as usize) as u32
    }
}
