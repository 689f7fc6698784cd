//! A core over a poller of one's own. It stands in docs/CORE.md too.

// begin
use aio_base::{
    Arm, Dir, Event, EventWait, Failed, Faults, Interest, Key, Moment, Poll, Poller, Waited, Waker,
};
use aio_react::Core;
use std::alloc::Global;

/// A poller over a list of events that are to be given, the last one first.
#[derive(Drop)]
struct ListPoller {
    events: Vec<Event>,
    waits: u64,
}

impl Faults for ListPoller {
    ghost use Rattle.std.specs.Prelude.{true};
    ghost use Rattle.std.proofs.Common.{arith};

    ghost fault_count = { λ p. 0 };

    ghost is_sure = { λ p. true };

    ghost all_sure = { true };

    ghost sure_below_top = { λ p sure. Prim.omega arith };

    ghost each_sure = { λ p sure. sure };

    fn faults(&self) -> u64 {
        0
    }
}

impl Arm for ListPoller {
    ghost use Rattle.std.specs.Prelude.{⊤, [], ◌∷◌, None};

    ghost interests = { λ p. None };

    ghost rest = { λ p. p.waits ∷ [] };

    ghost arm_step = { λ old call answer new. ⊤ };

    fn add(&mut self, _key: Key) -> Result<(), Failed> {
        Ok(())
    }

    fn arm(&mut self, _key: Key, _on: Interest) -> Result<(), Failed> {
        Ok(())
    }

    fn remove(&mut self, _key: Key) -> Result<(), Failed> {
        Ok(())
    }
}

impl EventWait for ListPoller {
    ghost use Rattle.std.specs.Prelude.{⊤};

    ghost wait_count = { λ p. p.waits };

    ghost wait_step = { λ old call answer added new. ⊤ };

    fn wait(
        &mut self,
        out: &mut Vec<Event>,
        room: u32,
        _limit: Option<u64>,
    ) -> Result<Waited, Failed> {
        self.waits = self.waits.saturating_add(1);
        if room == 0 {
            return Ok(Waited::Given(0));
        }
        match self.events.pop() {
            Some(event) => {
                out.push_reserved(event);
                Ok(Waited::Given(1))
            }
            None => Ok(Waited::Given(0)),
        }
    }

    fn waits(&self) -> u64 {
        self.waits
    }
}

impl Poller for ListPoller {
    ghost use Rattle.std.proofs.Common.{ap};
    ghost use Rattle.std.specs.Prelude.{slice_index_or};

    ghost wait_clears = { λ old new call answer added step. tt };

    ghost waits_in_rest = { λ a b same. ap (λ rest. slice_index_or rest 0 0) same };
}

/// What task 7 saw, which waited to read of a source, and what the round told between its two polls.
#[derive(Clone, Copy, Debug, PartialEq, Eq)]
struct Seen {
    was_ready: bool,
    events: u32,
    woken: Option<Waker>,
    is_ready: bool,
}

/// Polls a source's read direction with waker 7. `None` where that is refused or cannot be armed.
fn polls_ready<P: Poller>(core: &mut Core<P>, key: Key) -> Option<bool> {
    match core.poll(key, Dir::Read, Waker(7)) {
        Ok(polled) => match polled.answer {
            Poll::Ready(Ok(())) => Some(true),
            Poll::Ready(Err(_)) => None,
            Poll::Pending => Some(false),
        },
        Err(_) => None,
    }
}

/// Makes a core over the list, and a round that does not wait, between two polls of its one source.
fn wait_once(alloc: Global, events: Vec<Event>, now: Moment) -> Option<Seen> {
    let Ok(mut core) = Core::new(alloc, ListPoller { events, waits: 0 }) else {
        return None;
    };
    let Ok(key) = core.add() else {
        return None;
    };
    let was_ready = polls_ready(&mut core, key)?;
    let Ok(round) = core.react(now, Some(0)) else {
        return None;
    };
    let woken = core.woken().first().copied();
    let is_ready = polls_ready(&mut core, key)?;
    Some(Seen {
        was_ready,
        events: round.events,
        woken,
        is_ready,
    })
}
// end

mod tests {
    use super::{Seen, wait_once};
    use crate::asserts::{MEMORY, moment, same};
    use aio_base::{Event, Interest, Key, Waker};

    #[test]
    fn an_event_of_the_list_wakes_the_task_and_makes_its_poll_ready(rt: HostRuntime) {
        let event = Event {
            key: Key(0),
            on: Interest::READ,
        };
        let events = vec![in rt.alloc(); event].expect(&rt, MEMORY);
        let seen = wait_once(rt.alloc(), events, moment(&rt, 0));
        let wanted = Seen {
            was_ready: false,
            events: 1,
            woken: Some(Waker(7)),
            is_ready: true,
        };
        same(&rt, seen, Some(wanted));
    }

    #[test]
    fn an_empty_list_wakes_nobody(rt: HostRuntime) {
        let seen = wait_once(rt.alloc(), Vec::new(rt.alloc()), moment(&rt, 0));
        let wanted = Seen {
            was_ready: false,
            events: 0,
            woken: None,
            is_ready: false,
        };
        same(&rt, seen, Some(wanted));
    }
}
