//! Up to 64 tasks that are polled as one.

ghost use Rattle.std.specs.Prelude.{List, true, ◌≡◌, ◌+◌, ◌<◌, ◌≤◌, ◌++◌, ◌↔◌, ℕ, Bool, false, [], ◌∷◌, map, length, IfOk, IfErr, IsErrAnd, vec_len, vec_capacity};
ghost use Rattle.std.specs.List.{list_any};
ghost use Rattle.aio_base.specs.Polls.{IfReady};
ghost use Rattle.aio_park.specs.declared.group.Slot.TheVariants.{Running, Ended};
ghost use Rattle.aio_park.specs.Groups.{is_running, is_woken, slot_cx, IsPolled, SlotAfter, SlotsAfter, SlotGives, SlotsGive};

use aio_base::{Cx, Later, Poll, Task};
use std::alloc::Global;
use std::marker::Model;
use std::mem;

/// How many tasks a group has at most, ended ones counted: as many as a mask has bits.
const SLOT_LIMIT: usize = 64;

/// Why a task was not added to a group.
#[derive(Clone, Copy, Debug, PartialEq, Eq)]
pub enum GroupRefusal {
    /// The group has 64 tasks, ended ones counted.
    Full,
    /// Memory ran out.
    OutOfMemory,
}

/// The place of a task in a group.
#[derive(Drop)]
pub enum Slot<T, O> {
    /// The task has not ended.
    Running(T),
    /// The task has ended and was let go; this is its answer.
    Ended(O),
}

impl<T, O> Slot<T, O> {
    /// Whether the task has not ended.
    fn is_running(&self) -> bool
        ensures { result ≡ is_running self.now }
    {
        match self {
            Slot::Running(_) => true,
            Slot::Ended(_) => false,
        }
    }
}

/// Up to 64 tasks of one parker, with the answers `O`, that are polled as one task.
///
/// A poll polls just those that have not ended and whose bit is set in the mask, each with a mask
/// of that bit alone, so that the own waker of slot s is 64 times the parker and s. Once all have
/// ended it answers their answers, in the order in which the tasks were added, and has no slot left
/// then.
#[derive(Drop)]
pub struct Group<T, O> {
    parker: u32,
    slots: Vec<Slot<T, O>>,
    /// Empty, with room for an answer of each slot.
    answers: Vec<O>,
    polls: u64,
    alloc: Global,
}

impl<T, O> Model for Group<T, O> {
    ghost use Rattle.std.specs.Prelude.{List, true, ◌≡◌, ◌<◌, ◌≤◌, [], vec_len, vec_capacity};
    ghost use Rattle.aio_park.specs.Groups.{GroupValue};

    ghost Value = { GroupValue T O };

    ghost view = { λ g. record { parker = g.parker; slots = g.slots.items; polls = g.polls } };

    ghost invariant = { λ g. (g.parker < 16) × (vec_len g.slots ≤ 64) × (g.answers.items ≡ [])
        × (vec_len g.slots ≤ vec_capacity g.answers) };
}

impl<T, O> Group<T, O> {
    /// A group of no task, for the slots of `parker`, which is below 16. It takes no memory; `add`
    /// takes it from `alloc`.
    pub fn new(alloc: Global, parker: u32) -> Group<T, O>
        requires { parker < 16 }
        ensures { result ≡ record { parker = parker; slots = []; polls = 0 } }
    {
        Group {
            parker,
            slots: Vec::new(alloc),
            answers: Vec::new(alloc),
            polls: 0,
            alloc,
        }
    }

    /// Adds a task, and answers its slot: how many tasks were added before it since the group was
    /// made or its answers were handed out. It makes the room for the task's answer, so no poll of
    /// the group takes memory of its own.
    ///
    /// # Errors
    ///
    /// `Full` exactly where the group has 64 tasks, ended ones counted, and otherwise `OutOfMemory`
    /// where memory ran out. On both the task comes back, and the group is as it was.
    pub fn add(&mut self, task: T) -> Result<u32, (T, GroupRefusal)>
        ensures slot { IfOk result (λ at. at ≡ length self.old.slots) }
        ensures added { IfOk result (λ at. self.new
            ≡ record self.old { slots = self.old.slots ++ Running task ∷ [] }) }
        ensures full { IsErrAnd result (λ refused. refused.1 ≡ GroupRefusal.Full)
            ↔ (length self.old.slots ≡ 64) }
        ensures back { IfErr result (λ refused. refused.0 ≡ task) }
        ensures refused { IfErr result (λ refused. self.new ≡ self.old) }
        ensures bound { length self.new.slots ≤ 64 }
    {
        let slot = self.slots.len();
        if slot == SLOT_LIMIT {
            return Err((task, GroupRefusal::Full));
        }
        if self.slots.reserve(1).is_err() || self.answers.reserve(slot + 1).is_err() {
            return Err((task, GroupRefusal::OutOfMemory));
        }
        self.slots.push_reserved(Slot::Running(task));
        Ok(slot as u32)
    }

    /// How often it was polled, which `Task::polls` tells for each host.
    pub fn polls(&self) -> u64
        ensures { result ≡ self.now.polls }
    {
        self.polls
    }
}

/// Polls the task of a slot, if it has not ended. One that ends is let go, and its answer kept.
fn poll_slot<H: Later, O: Drop, T: Task<H, Output = O> + Drop>(
    slot: &mut Slot<T, O>,
    host: &mut H,
    cx: Cx,
)
    ensures after { SlotAfter T.poll_step T.poll_count true cx slot.old host.old slot.new host.new }
    ensures gives { (moment : ℕ) (output : O) → cx.now ≤ moment
        → SlotGives T.gives slot.new (H.notifier_is_sure host.old) moment output
        → SlotGives T.gives slot.old (H.notifier_is_sure host.old) moment output }
    ensures host { H.is_later host.old host.new }
{
    if let Slot::Running(task) = slot {
        if let Poll::Ready(answer) = task.poll(host, cx) {
            *slot = Slot::Ended(answer);
        }
    }
}

/// Polls the task of a slot whose bit is set in the mask, if it has not ended.
fn poll_if_woken<H: Later, O: Drop, T: Task<H, Output = O> + Drop>(
    slot: &mut Slot<T, O>,
    at: usize,
    parker: u32,
    host: &mut H,
    cx: &Cx,
)
    requires { at < 64 }
    ensures after { SlotAfter T.poll_step T.poll_count (is_woken cx.entry.now.mask at)
        (slot_cx parker at cx.entry.now) slot.old host.old slot.new host.new }
    ensures gives { (moment : ℕ) (output : O) → cx.entry.now.now ≤ moment
        → SlotGives T.gives slot.new (H.notifier_is_sure host.old) moment output
        → SlotGives T.gives slot.old (H.notifier_is_sure host.old) moment output }
    ensures host { H.is_later host.old host.new }
{
    if (cx.mask >> at) % 2 == 1 {
        let mask = 1 << at;
        poll_slot(
            slot,
            host,
            Cx {
                parker,
                mask,
                now: cx.now,
            },
        );
    }
}

/// Polls the tasks of the slots that are set in the mask, in order.
fn poll_woken<H: Later, O: Drop, T: Task<H, Output = O> + Drop>(
    slots: &mut [Slot<T, O>],
    parker: u32,
    host: &mut H,
    cx: &Cx,
)
    requires { length slots.old ≤ 64 }
    ensures each { SlotsAfter T.poll_step T.poll_count parker 0 cx.entry.now
        slots.old host.old slots.new host.new }
    ensures gives { (moment : ℕ) (outputs : List O) → cx.entry.now.now ≤ moment
        → SlotsGive T.gives slots.new (H.notifier_is_sure host.old) moment outputs
        → SlotsGive T.gives slots.old (H.notifier_is_sure host.old) moment outputs }
    ensures host { H.is_later host.old host.new }
{
    for (at, slot) in slots.iter_mut().enumerate() {
        poll_if_woken(slot, at, parker, host, cx);
    }
}

/// Whether a task has not ended.
fn any_runs<T, O>(slots: &[Slot<T, O>]) -> bool
    ensures { result ≡ list_any is_running slots.now }
{
    slots.iter().any(|slot| slot.is_running())
}

/// The answers of slots that have all ended, moved to the end of a list that has room for them.
fn move_answers<T: Drop, O: Drop>(slots: Vec<Slot<T, O>>, answers: &mut Vec<O>)
    requires ended { list_any is_running slots.items ≡ false }
    requires none { answers.old.items ≡ [] }
    requires room { vec_len slots ≤ vec_capacity answers.old }
    ensures { slots.items ≡ map Ended answers.new.items }
{
    for slot in slots {
        match slot {
            Slot::Running(_) => unreachable!(),
            Slot::Ended(answer) => answers.push_reserved(answer),
        }
    }
}

/// A group is polled as one task, whose answer is the list of its tasks' answers.
impl<H: Later, O: Drop, T: Task<H, Output = O> + Drop> Task<H> for Group<T, O> {
    ghost use Rattle.aio_park.specs.Groups.{GroupPolled, SlotsGive, slots_give_later};

    type Output = Vec<O>;

    ghost gives = { λ g sure moment outputs. SlotsGive T.gives g.slots sure moment outputs.items };

    ghost poll_step = { GroupPolled T.poll_step T.poll_count };

    ghost poll_count = { λ g. g.polls };

    fn poll(&mut self, host: &mut H, cx: Cx) -> Poll<Vec<O>> {
        self.polls = self.polls.saturating_add(1);
        poll_woken(&mut self.slots, self.parker, host, &cx);
        if any_runs(&self.slots) {
            return Poll::Pending;
        }
        let slots = mem::replace(&mut self.slots, Vec::new(self.alloc));
        let mut answers = mem::replace(&mut self.answers, Vec::new(self.alloc));
        move_answers(slots, &mut answers);
        Poll::Ready(answers)
    }

    fn polls(&self) -> u64 {
        self.polls
    }

    ghost gives_later = { λ g sure a b outputs later.
        slots_give_later T.gives T.gives_later g.slots sure a b outputs.items later };
}
