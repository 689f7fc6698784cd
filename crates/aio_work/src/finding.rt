//! What a worker does with what it holds: how it begins, what it queues, and what it finds to poll next.

ghost use Rattle.std.specs.Prelude.{◌≡◌, ◌<◌, ◌≤◌, [], slice_set, IfOk, IfSome, IfNone};
ghost use Rattle.std.specs.List.{list_any};
ghost use Rattle.std.specs.VecDeque.{deque_len};
ghost use Rattle.aio_work.specs.Slots.{QueuesWoken, has_task};
ghost use Rattle.aio_work.specs.Workloads.{FindsNone, FindsTask, HoldsAtStart};

use crate::deques::{OtherDeque, OwnDeque};
use crate::slots::{
    Found, Held, SLOTS, any_held, fill, first, first_due, let_queued_go, queue_all_woken, slot_for,
    steal_from,
};
use crate::workload::Workload;
use aio_base::OutOfMemory;
use std::alloc::Global;
use std::collections::VecDeque;
use std::sync::Wait;

impl Workload {
    /// Holds the tasks of these places, up to 64, each in a slot and in the deque, which is new.
    /// `OutOfMemory` where there is no memory for the slots.
    pub fn begin(
        alloc: Global,
        own: OwnDeque,
        others: VecDeque<OtherDeque>,
        places: VecDeque<u32>,
    ) -> Result<Workload, OutOfMemory>
        requires few { deque_len places ≤ 64 }
        requires new { own.pushed ≡ [] }
        ensures { IfOk result (HoldsAtStart own others.items places.items) }
    {
        let Ok(mut slots) = Vec::with_capacity(alloc, SLOTS) else {
            return Err(OutOfMemory);
        };
        let mut own = own;
        let mut left = places;
        while let Some(place) = left.pop_front() {
            if !own.push(place) {
                unreachable!()
            }
            slots.push_reserved(Held::Queued(place));
        }
        fill(&mut slots);
        Ok(Workload { own, others, slots })
    }

    /// Puts the places of the tasks that wait in these slots, bit by bit from slot 0, into the deque. One for
    /// which the deque has no room is due.
    pub fn queue_woken(&mut self, mask: u64)
        ensures queued { QueuesWoken mask 0 self.old.slots.items self.old.own
            self.new.slots.items self.new.own }
        ensures others { self.new.others ≡ self.old.others }
    {
        queue_all_woken(&mut self.own, &mut self.slots, mask);
    }

    /// The next task to poll, with a slot for it: one that is due; else the first of the deque; else, where a
    /// slot is free, one that it steals. `None` where it found every deque empty, or all slots taken.
    pub fn next<R: Wait>(&mut self, rt: &R) -> Option<Found>
        ensures found { IfSome result (λ found. FindsTask found self.old self.new) }
        ensures none { IfNone result (FindsNone self.old self.new) }
        ensures slot { IfSome result (λ found. found.slot < 64) }
    {
        if let Some(due) = first_due(&self.slots) {
            return Some(due);
        }
        if let Some(place) = self.own.pop(rt) {
            return match slot_for(&self.slots, place) {
                Some(slot) => Some(Found { slot, place }),
                None => None,
            };
        }
        let_queued_go(&mut self.slots);
        let Some(slot) = first(&self.slots, Held::Nothing) else {
            return None;
        };
        match steal_from(rt, &mut self.others) {
            Some(place) => Some(Found { slot, place }),
            None => None,
        }
    }

    /// Whether any slot has a task.
    pub fn holds_any(&self) -> bool
        ensures { result ≡ list_any has_task self.now.slots.items }
    {
        any_held(&self.slots)
    }

    /// Puts something in a slot.
    pub fn put(&mut self, slot: u32, held: Held)
        requires { slot < 64 }
        ensures slots { self.new.slots.items ≡ slice_set self.old.slots.items slot held }
        ensures own { self.new.own ≡ self.old.own }
        ensures others { self.new.others ≡ self.old.others }
    {
        self.slots[slot as usize] = held;
    }
}
