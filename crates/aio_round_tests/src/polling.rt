//! A source whose calls are lent an arm, as the rows of a table use it.

use crate::arms::Told;
use crate::asserts::{MEMORY, same};
use aio_base::{Arm, ArmFault, Dir, Event, Interest, Key, Poll, Waker};
use aio_source::{ListenRefusal, Listened, Polled, SourceState};
use std::alloc::Global;
use std::process::Abort;

/// The key of the source.
pub(crate) const KEY: Key = Key(7);

/// What is done with a source.
#[derive(Clone, Copy)]
pub(crate) enum Act {
    /// Polls a direction with this waker, while so many rounds have begun.
    Poll(Dir, u32, u64),
    /// Polls a direction for a new listener with this waker, while so many rounds have begun.
    Listen(Dir, u32, u64),
    /// Polls it again for the listener before which so many came, with this waker.
    ListenAgain(usize, u32),
    /// Gives that listener up.
    Unlisten(usize),
    /// Handles an event of these directions in this round.
    Handle(Interest, u64),
    /// Has the next arm fail.
    FailNext,
    /// Looks at the arms.
    Arms,
    /// Looks at what is asked for, and whether the last arm failed.
    Asked,
    /// Looks at a direction: how many wait there, and the last round that had an event of it.
    Look(Dir),
    /// Looks whether a direction is ready for who has waited since these rounds.
    ReadySince(Dir, u64, u64),
    /// Looks whether that listener is there.
    Holds(usize),
    /// Counts the wakers that were taken.
    Taken,
}

/// What comes of it.
#[derive(Clone, Copy)]
pub(crate) enum Came {
    /// Nothing is answered, or nothing failed.
    Done,
    /// The answer of a poll, with the waker that it replaced; of a listener's later poll, which replaces none.
    Polled(Polled),
    /// A new listener waits, and remembers these rounds: those that had begun, and the last of its direction.
    Listened(u64, u64),
    /// No listener was there.
    Gone,
    /// An event was handled, or a new listener waits, and the arm failed.
    Failed(ArmFault),
    /// How many arms were counted, and what the last one that did not fail asked for.
    Armed(u64, Interest),
    /// What is asked for, and whether the last arm failed.
    Asked(Interest, bool),
    /// How many wait, and the last round.
    Looked(u64, u64),
    /// Whether it is so.
    Is(bool),
    /// So many.
    Count(usize),
    /// Something else.
    Other,
}

/// What came, as it is compared: which it is, its numbers, its directions, and what a poll answered.
fn told(came: Came) -> (&'static str, [u64; 3], Option<Interest>, Option<Polled>) {
    match came {
        Came::Done => ("done", [0; 3], None, None),
        Came::Polled(polled) => ("polled", [0; 3], None, Some(polled)),
        Came::Listened(begun, last) => ("listened", [begun, last, 0], None, None),
        Came::Gone => ("gone", [0; 3], None, None),
        Came::Failed(fault) => {
            let key = fault.key.0 as u64;
            ("failed", [key, fault.before, fault.after], None, None)
        }
        Came::Armed(arms, last) => ("armed", [arms, 0, 0], Some(last), None),
        Came::Asked(on, broken) => ("asked", [broken as u64, 0, 0], Some(on), None),
        Came::Looked(waiting, tick) => ("looked", [waiting, tick, 0], None, None),
        Came::Is(so) => ("is", [so as u64, 0, 0], None, None),
        Came::Count(count) => ("count", [count as u64, 0, 0], None, None),
        Came::Other => ("other", [0; 3], None, None),
    }
}

/// A poll waits, and replaces nobody.
pub(crate) const WAITS: Came = Came::Polled(Polled {
    answer: Poll::Pending,
    replaced: None,
});

/// A poll waits in the place of the first task.
pub(crate) const REPLACES: Came = Came::Polled(Polled {
    answer: Poll::Pending,
    replaced: Some(Waker(1)),
});

/// A poll is ready.
pub(crate) const READY: Came = Came::Polled(Polled {
    answer: Poll::Ready(Ok(())),
    replaced: None,
});

/// The fault of the arm that was the first to fail.
pub(crate) const FIRST_FAULT: ArmFault = ArmFault {
    key: KEY,
    before: 0,
    after: 1,
};

/// A poll is told that its arm failed, which was the second to fail.
pub(crate) const TOLD: Came = Came::Polled(Polled {
    answer: Poll::Ready(Err(ArmFault {
        key: KEY,
        before: 1,
        after: 2,
    })),
    replaced: None,
});

/// The fault of the arm that was the third to fail.
pub(crate) const THIRD_FAULT: ArmFault = ArmFault {
    key: KEY,
    before: 2,
    after: 3,
};

/// A source, the arm that its calls are lent, the listeners that came, and the wakers that were taken.
#[derive(Drop)]
pub(crate) struct Polling<A: Arm> {
    source: SourceState,
    arm: A,
    listened: Vec<(Dir, Listened)>,
    pub(crate) taken: Vec<Waker>,
}

/// Handles an event of the source, where there is room for the wakers of those who wait.
fn handle<A: Arm>(
    source: &mut SourceState,
    arm: &mut A,
    on: Interest,
    round: u64,
    taken: &mut Vec<Waker>,
) -> Option<Result<(), ArmFault>> {
    let waiting = source
        .waiting(Dir::Write)
        .saturating_add(source.waiting(Dir::Read))
        .saturating_add(source.waiting(Dir::Priority));
    if waiting as usize > taken.capacity() - taken.len() {
        return None;
    }
    let event = Event {
        key: source.key(),
        on,
    };
    Some(source.handle(arm, event, round, taken))
}

/// Polls a source for a new listener: what it remembers, and the fault of its arm.
fn listen<A: Arm>(
    source: &mut SourceState,
    arm: &mut A,
    dir: Dir,
    waker: u32,
    ticker: u64,
) -> Option<(Listened, Option<ArmFault>)> {
    match source.first_listen(arm, dir, Waker(waker), ticker) {
        Ok(listened) => Some((listened, None)),
        Err(ListenRefusal::ArmFault { fault, listened }) => Some((listened, Some(fault))),
        Err(_) => None,
    }
}

/// Polls a source again for a listener.
fn listen_again<A: Arm>(
    source: &mut SourceState,
    arm: &mut A,
    dir: Dir,
    listened: Listened,
    waker: u32,
) -> Came {
    if !source.holds(dir, listened.ticket) {
        return Came::Gone;
    }
    Came::Polled(Polled {
        answer: source.listen_again(arm, dir, listened, Waker(waker)),
        replaced: None,
    })
}

/// Gives a listener of a source up.
fn unlisten(source: &mut SourceState, dir: Dir, listened: Listened) -> Came {
    if !source.holds(dir, listened.ticket) {
        return Came::Gone;
    }
    source.unlisten(dir, listened.ticket);
    Came::Done
}

impl<A: Told + Drop> Polling<A> {
    /// A new source over this arm, and room for eight wakers.
    pub(crate) fn new(rt: &impl Abort, alloc: Global, arm: A) -> Polling<A> {
        let taken = Vec::with_capacity(alloc, 8).expect(rt, MEMORY);
        Polling {
            source: SourceState::new(alloc, KEY),
            arm,
            listened: Vec::new(alloc),
            taken,
        }
    }

    /// Polls for a new listener.
    fn listen(&mut self, dir: Dir, waker: u32, ticker: u64) -> Came {
        let (source, arm) = (&mut self.source, &mut self.arm);
        let Some((listened, fault)) = listen(source, arm, dir, waker, ticker) else {
            return Came::Other;
        };
        match (self.listened.push((dir, listened)), fault) {
            (Ok(()), None) => Came::Listened(listened.a, listened.b),
            (Ok(()), Some(fault)) => Came::Failed(fault),
            _ => Came::Other,
        }
    }

    /// Handles an event.
    fn handle(&mut self, on: Interest, round: u64) -> Came {
        let (arm, taken) = (&mut self.arm, &mut self.taken);
        match handle(&mut self.source, arm, on, round, taken) {
            Some(Ok(())) => Came::Done,
            Some(Err(fault)) => Came::Failed(fault),
            None => Came::Other,
        }
    }

    /// Does this with the listener before which so many came.
    fn act_on(&mut self, index: usize, act: Act) -> Came {
        let Some((dir, listened)) = self.listened.get(index).copied() else {
            return Came::Gone;
        };
        match act {
            Act::ListenAgain(_, waker) => {
                listen_again(&mut self.source, &mut self.arm, dir, listened, waker)
            }
            _ => unlisten(&mut self.source, dir, listened),
        }
    }

    /// Whether the listener before which so many came is there.
    fn holds(&self, index: usize) -> bool {
        match self.listened.get(index) {
            Some((dir, listened)) => self.source.holds(*dir, listened.ticket),
            None => false,
        }
    }

    /// Looks.
    fn look(&self, act: Act) -> Came {
        let source = &self.source;
        match act {
            Act::Arms => {
                let (arms, last) = self.arm.arms();
                Came::Armed(arms, last)
            }
            Act::Asked => Came::Asked(source.asked(), source.broken()),
            Act::Look(dir) => Came::Looked(source.waiting(dir), source.tick(dir)),
            Act::ReadySince(dir, begun, last) => Came::Is(source.ready_since(dir, begun, last)),
            Act::Holds(index) => Came::Is(self.holds(index)),
            Act::Taken => Came::Count(self.taken.len()),
            _ => Came::Other,
        }
    }

    /// Does this.
    fn act(&mut self, act: Act) -> Came {
        match act {
            Act::Poll(dir, waker, ticker) => {
                let polled = self
                    .source
                    .poll_dir(&mut self.arm, dir, Waker(waker), ticker);
                Came::Polled(polled)
            }
            Act::Listen(dir, waker, ticker) => self.listen(dir, waker, ticker),
            Act::ListenAgain(index, _) | Act::Unlisten(index) => self.act_on(index, act),
            Act::Handle(on, round) => self.handle(on, round),
            Act::FailNext => {
                self.arm.fail();
                Came::Done
            }
            act => self.look(act),
        }
    }

    /// Asserts that what these acts come to is what stands beside each.
    pub(crate) fn plays(&mut self, rt: &impl Abort, rows: &[(Act, Came)]) {
        for (act, came) in rows {
            same(rt, told(self.act(*act)), told(*came));
        }
    }
}
