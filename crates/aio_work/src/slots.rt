//! The slots of a worker's parker, and what is done with them and with the deques beside them.

ghost use Rattle.std.specs.Prelude.{◌≡◌, ◌<◌, ◌≤◌, List, ◌++◌, length, map, IfSome, IfNone, vec_len, vec_capacity};
ghost use Rattle.std.specs.List.{AllByRecursion, list_any};
ghost use Rattle.std.specs.VecDeque.{deque_len};
ghost use Rattle.aio_work.specs.Slots.{HasNone, IsSlotFor, NoneDue, QueuesIf, QueuesWoken, StealsFrom, has_task, held_at, let_go, nothing};
ghost use Rattle.aio_work.specs.declared.slots.Held.TheVariants as held;
ghost use Rattle.aio_work.specs.declared.slots.Held.{Held};

use crate::deques::{OtherDeque, OwnDeque};
use std::collections::VecDeque;
use std::sync::Wait;

/// How many slots a parker has.
pub(crate) const SLOTS: usize = 64;

/// What a slot has.
#[derive(Clone, Copy, Debug, PartialEq, Eq, Drop)]
pub enum Held {
    /// No task.
    Nothing,
    /// The task of this place, which waits to be woken, or is polled.
    Waiting(u32),
    /// The task of this place, which was put into the worker's deque, and may have been stolen since.
    Queued(u32),
    /// The task of this place, which was woken as the deque had no room: the worker polls it itself.
    Due(u32),
}

/// A place that was found, and the slot for its task.
#[derive(Clone, Copy, Debug, PartialEq, Eq, Drop)]
pub struct Found {
    /// The slot, below 64.
    pub slot: u32,
    /// The place.
    pub place: u32,
}

impl Held {
    /// Whether the slot has a task.
    pub(crate) fn has_task(&self) -> bool
        ensures { result ≡ has_task self.now }
    {
        match self {
            Held::Nothing => false,
            Held::Waiting(_) | Held::Queued(_) | Held::Due(_) => true,
        }
    }

    /// The same, once the deque was found empty: what was queued and not taken out was stolen.
    pub(crate) fn let_go(self) -> Held
        ensures { result ≡ let_go self }
    {
        match self {
            Held::Queued(_) => Held::Nothing,
            Held::Nothing => Held::Nothing,
            Held::Waiting(place) => Held::Waiting(place),
            Held::Due(place) => Held::Due(place),
        }
    }
}

/// Nothing in the slots that are missing of 64.
pub(crate) fn fill(slots: &mut Vec<Held>)
    requires few { vec_len slots.old ≤ 64 }
    requires room { 64 ≤ vec_capacity slots.old }
    ensures filled { (free : List Held) × (slots.new.items ≡ slots.old.items ++ free)
        × AllByRecursion (λ h. h ≡ nothing) free }
    ensures all { vec_len slots.new ≡ 64 }
{
    for _missing in slots.len()..SLOTS {
        slots.push_reserved(Held::Nothing);
    }
}

/// Puts the places of the tasks that wait in these slots into the deque.
pub(crate) fn queue_all_woken(own: &mut OwnDeque, slots: &mut [Held], mask: u64)
    requires { length slots.old ≤ 64 }
    ensures { QueuesWoken mask 0 slots.old own.old slots.new own.new }
{
    for (slot, held) in slots.iter_mut().enumerate() {
        let woken = (mask >> slot) % 2 == 1;
        *held = queue_if_woken(own, *held, woken);
    }
}

/// Puts the place of a task that waits into the deque, where its slot is woken. What the slot has then.
fn queue_if_woken(own: &mut OwnDeque, held: Held, woken: bool) -> Held
    ensures { QueuesIf woken held own.old result own.new }
{
    match held {
        Held::Waiting(place) if woken => {
            if own.push(place) {
                Held::Queued(place)
            } else {
                Held::Due(place)
            }
        }
        _ => held,
    }
}

/// The first slot that has this.
pub(crate) fn first(slots: &[Held], held: Held) -> Option<u32>
    requires all { length slots.now ≡ 64 }
    ensures slot { IfSome result (λ slot. slot < 64) }
    ensures found { IfSome result (λ slot. held_at slots.now slot ≡ held) }
    ensures none { IfNone result (HasNone held slots.now) }
{
    for slot in 0..64 {
        if slots[slot as usize] == held {
            return Some(slot);
        }
    }
    None
}

/// The first slot whose task is due.
pub(crate) fn first_due(slots: &[Held]) -> Option<Found>
    requires all { length slots.now ≡ 64 }
    ensures slot { IfSome result (λ found. found.slot < 64) }
    ensures found { IfSome result (λ found. held_at slots.now found.slot ≡ held.Due found.place) }
    ensures none { IfNone result (NoneDue slots.now) }
{
    for slot in 0..64 {
        if let Held::Due(place) = slots[slot as usize] {
            return Some(Found { slot, place });
        }
    }
    None
}

/// The slot for a task whose place came out of the deque: the one in which it was queued, else a free one.
pub(crate) fn slot_for(slots: &[Held], place: u32) -> Option<u32>
    requires all { length slots.now ≡ 64 }
    ensures slot { IfSome result (λ slot. slot < 64) }
    ensures found { IfSome result (IsSlotFor place slots.now) }
    ensures none { IfNone result (HasNone (held.Queued place) slots.now × HasNone nothing slots.now) }
{
    match first(slots, Held::Queued(place)) {
        Some(slot) => Some(slot),
        None => first(slots, Held::Nothing),
    }
}

/// The deque was found empty: what was queued was stolen.
pub(crate) fn let_queued_go(slots: &mut [Held])
    ensures { slots.new ≡ map let_go slots.old }
{
    for held in slots.iter_mut() {
        *held = held.let_go();
    }
}

/// Whether any of these slots has a task.
pub(crate) fn any_held(slots: &[Held]) -> bool
    ensures { result ≡ list_any has_task slots.now }
{
    slots.iter().any(|held| held.has_task())
}

/// A place of the first of these deques that has one: each is looked at once, in turn, and comes last then.
pub(crate) fn steal_from<R: Wait>(rt: &R, others: &mut VecDeque<OtherDeque>) -> Option<u32>
    ensures { StealsFrom (deque_len others.old) result others.old.items others.new.items }
{
    for _look in 0..others.len() {
        let Some(mut other) = others.pop_front() else {
            unreachable!()
        };
        let stolen = other.steal(rt);
        others.push_back_reserved(other);
        if let Some(place) = stolen {
            return Some(place);
        }
    }
    None
}
