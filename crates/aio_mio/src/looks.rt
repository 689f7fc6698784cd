//! The looks of a wait at the system, and the events that they bring.

ghost use Rattle.std.specs.Prelude.{◌≡◌, ◌≢◌, ◌+◌, ◌≤◌, [], ◌++◌, length, take, drop, min, IfOk, OnOk, OnErr, vec_len, vec_capacity};
ghost use Rattle.mio.specs.Events.{items, capacity as events_capacity};
ghost use Rattle.std.specs.Arc.{arc_value};
ghost use Rattle.aio_mio.specs.Gathering.{BringsUnless, Came, PlansWith};

use crate::keeper::EdgeKeeper;
use crate::names::{is_unsure, source_event};
use crate::selector::Selector;
use crate::wakes::{Plan, plan_of};
use aio_base::{Event, OutOfMemory};
use mio::{Events, Poll};
use std::alloc::Global;
use std::io;
use std::sync::Arc;
use std::time::Duration;

/// How many events one look at the system gives at most, the waker's among them.
const EVENTS: usize = 1_024;

/// How many keys can be due.
const KEYS: usize = 4_096;

/// What looks at the system, with the events of its last look.
#[derive(Drop)]
pub(crate) struct Looks<E> {
    poll: Poll,
    events: Events,
    // The events that came of the last look, and how many of them were given on.
    came: Vec<Event>,
    given: usize,
    selector: Arc<Selector<E>, Global>,
    // Whether the last wait ended without a look.
    passed: bool,
    ghost room: { events_capacity events ≤ vec_capacity came },
    ghost bound: { given ≤ vec_len came },
}

/// Keeps the edges that the system told, in order, and adds the events that they give.
fn gather<E: EdgeKeeper>(edges: &E, events: &Events, came: &mut Vec<Event>)
    requires empty { came.old.items ≡ [] }
    requires room { length (items events.now) ≤ vec_capacity came.old }
    ensures came { Came (E.answers edges.now) (items events.now) came.new.items }
    ensures capacity { vec_capacity came.new ≡ vec_capacity came.old }
{
    for event in events.iter() {
        if let Some(told) = source_event(event) {
            let on = edges.tell(told.key, told.on, is_unsure(event));
            if !on.is_none() {
                came.push_reserved(Event { key: told.key, on });
            }
        }
    }
}

/// What a wait is to do that was told to end before it began, or was not, and the wait before it passed over, or
/// did not. Where a key is due it only looks.
fn plan_with<E: EdgeKeeper>(edges: &E, told: bool, passed: bool, limit: Option<u64>) -> Plan
    ensures { PlansWith (E.dues edges.now) told passed limit result }
{
    let limit = if edges.has_due() { Some(0) } else { limit };
    plan_of(told, passed, limit)
}

/// Adds the first events, as many as there is room for. How many it added.
fn give(events: &[Event], out: &mut Vec<Event>, room: u32) -> u32
    requires { vec_len out.old + room ≤ vec_capacity out.old }
    ensures count { result ≡ min room (length events.now) }
    ensures added { out.new.items ≡ out.old.items ++ take room events.now }
    ensures capacity { vec_capacity out.old ≤ vec_capacity out.new }
{
    let count = events.len().min(room as usize);
    out.extend_from_slice(&events[..count]).unwrap();
    count as u32
}

/// One look at the system, for at most `limit` nanoseconds, and where it brought no event, since
/// its time was over or a signal came, one more that does not wait. So of a process that was
/// stopped inside its wait the events are found before the timers that are due by then.
fn look_within(poll: &mut Poll, events: &mut Events, limit: Option<u64>) -> io::Result<()>
    ensures count { length (items events.new) ≤ events_capacity events.old }
    ensures err { OnErr result (items events.new ≡ []) }
    ensures capacity { events_capacity events.new ≡ events_capacity events.old }
{
    poll.poll(events, limit.map(Duration::from_nanos))?;
    if events.is_empty() && limit != Some(0) {
        return poll.poll(events, Some(Duration::ZERO));
    }
    Ok(())
}

impl<E: EdgeKeeper> Looks<E> {
    ghost use Rattle.aio_mio.specs.Looks.{left_over};

    /// No look was made yet. `OutOfMemory` where memory ran out.
    pub(crate) fn new(
        alloc: Global,
        poll: Poll,
        selector: &Arc<Selector<E>, Global>,
    ) -> Result<Looks<E>, OutOfMemory>
        ensures { IfOk result (λ looks. left_over looks ≡ []) }
    {
        let Ok(events) = Events::with_capacity(alloc, EVENTS) else {
            return Err(OutOfMemory);
        };
        let Ok(came) = Vec::with_capacity(alloc, EVENTS + KEYS) else {
            return Err(OutOfMemory);
        };
        let Ok(selector) = Arc::try_clone(selector) else {
            return Err(OutOfMemory);
        };
        Ok(Looks {
            poll,
            events,
            came,
            given: 0,
            selector,
            passed: false,
        })
    }

    /// Looks, where no event is left over. After an error none is.
    #[tactic(auto, using(crate::proofs::LeftOver::nothing_is_left))]
    pub(crate) fn refill(&mut self, limit: Option<u64>) -> io::Result<()>
        ensures kept { left_over self.old ≢ [] → left_over self.new ≡ left_over self.old }
        ensures none { OnErr result ((left_over self.old ≡ []) × (left_over self.new ≡ [])) }
        ensures fresh { OnOk result (left_over self.old ≡ [] → BringsUnless
            (E.answers (arc_value self.new.selector).edges)
            (E.gives (arc_value self.new.selector).edges) self.new.passed
            (items self.new.events) (left_over self.new)) }
        ensures keeper { self.new.selector ≡ self.old.selector }
    {
        if self.given < self.came.len() {
            return Ok(());
        }
        self.look(limit)
    }

    /// Gives on the first events that are left over, as many as there is room for. How many they
    /// are.
    pub(crate) fn give_on(&mut self, out: &mut Vec<Event>, room: u32) -> u32
        requires { vec_len out.old + room ≤ vec_capacity out.old }
        ensures count { result ≡ min room (length (left_over self.old)) }
        ensures added { out.new.items ≡ out.old.items ++ take room (left_over self.old) }
        ensures left { left_over self.new ≡ drop room (left_over self.old) }
        ensures capacity { vec_capacity out.old ≤ vec_capacity out.new }
    {
        let count = give(&self.came[self.given..], out, room);
        self.given += count as usize;
        count
    }

    /// Looks at the system for at most `limit` nanoseconds, or not at all where the wait is passed
    /// over; where a key is due it only looks. Then what the edges give came, and the events of the keys
    /// that are due. An error is that of the system, and nothing came.
    fn look(&mut self, limit: Option<u64>) -> io::Result<()>
        ensures given { self.new.given ≡ 0 }
        ensures none { OnErr result (self.new.came.items ≡ []) }
        ensures brought { OnOk result (BringsUnless (E.answers (arc_value self.new.selector).edges)
            (E.gives (arc_value self.new.selector).edges) self.new.passed
            (items self.new.events) self.new.came.items) }
        ensures keeper { self.new.selector ≡ self.old.selector }
    {
        self.given = 0;
        self.came.clear();
        let told = self.selector.wakes.begin();
        let planned = plan_with(&self.selector.edges, told, self.passed, limit);
        self.passed = planned == Plan::PassesOver;
        let Plan::Looks(limit) = planned else {
            self.selector.wakes.end();
            return Ok(());
        };
        let looked = look_within(&mut self.poll, &mut self.events, limit);
        self.selector.wakes.end();
        looked?;
        gather(&self.selector.edges, &self.events, &mut self.came);
        self.selector.edges.give_due(&mut self.came);
        Ok(())
    }
}
