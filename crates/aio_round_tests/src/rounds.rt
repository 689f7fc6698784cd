//! What no clause says of a round: that its calls succeed with ample memory, through the bounds of
//! what they are lent too, and how they follow one another.

ghost use Rattle.std.specs.Prelude.{◌≡◌, [], true};

use crate::asserts::{MEMORY, same};
use crate::rounds::Act::{
    Begin, Fault, Finish, Given, Idle, Insert, Peek, Serve, Timers, Waiting, Woken,
};
use crate::rounds::Came::{Answered, Begun, Done, Ended, Failed, Handled, Is, Number, Woke};
use aio_base::{
    Arm, ArmFault, CountFault, Dir, Event, EventWait, Interest, Key, Moment, OutOfMemory, Poll,
    TimerId, Waited, Waker,
};
use aio_devices::{FailingArm, ScriptedWait, WaitAnswer};
use aio_react::{Round, RoundFault};
use aio_source::{InHand, SourceState};
use aio_timers::{TimerBook, TimerOp};
use std::alloc::Global;
use std::process::Abort;

/// What is done with a round. Moments and limits are in nanoseconds.
#[derive(Clone, Copy)]
enum Act {
    /// Registers a timer at this moment with this waker.
    Insert(u64, u32),
    /// Begins the round at this moment with this limit.
    Begin(u64, Option<u64>),
    /// Waits, and handles the first event on the source, or skips it.
    Serve,
    /// Ends the round at this moment.
    Finish(u64),
    /// Looks whether it is idle.
    Idle,
    /// Looks whether an event is in hand.
    Peek,
    /// Looks whom it woke.
    Woken,
    /// Counts the events that its wait gave.
    Given,
    /// Looks what failed in it first.
    Fault,
    /// Counts the timers that are registered.
    Timers,
    /// Counts who waits for a direction of the source.
    Waiting(Dir),
}

/// What comes of it.
#[derive(Clone, Copy)]
enum Came {
    /// Nothing failed.
    Done,
    /// The round has begun, with this limit.
    Begun(Option<u64>),
    /// The wait answered this, and no event was handled.
    Answered(Waited),
    /// The wait failed.
    Failed(CountFault),
    /// The wait answered this, and its event was handled, where an arm may have failed.
    Handled(Waited, Option<ArmFault>),
    /// The round has ended, and this failed first in it.
    Ended(Option<RoundFault>),
    /// Whether it is so.
    Is(bool),
    /// So many.
    Number(usize),
    /// The first waker and the last one of so many.
    Woke(usize, Option<u32>, Option<u32>),
    /// Something else.
    Other,
}

/// Which it is that came, its number and its limit, its wakers, and what the wait answered or failed.
type Told = (
    &'static str,
    (usize, Option<u64>),
    [Option<u32>; 2],
    (Option<Waited>, Option<RoundFault>),
);

/// What came, as it is compared.
fn told(came: Came) -> Told {
    let (no, nobody, quiet) = ((0, None), [None, None], (None, None));
    match came {
        Came::Done => ("done", no, nobody, quiet),
        Came::Begun(limit) => ("begun", (0, limit), nobody, quiet),
        Came::Answered(waited) => ("answered", no, nobody, (Some(waited), None)),
        Came::Failed(fault) => ("failed", no, nobody, (None, Some(RoundFault::Wait(fault)))),
        Came::Handled(waited, None) => ("handled", no, nobody, (Some(waited), None)),
        Came::Handled(waited, Some(fault)) => {
            let fault = RoundFault::Arm(fault);
            ("handled", no, nobody, (Some(waited), Some(fault)))
        }
        Came::Ended(fault) => ("ended", no, nobody, (None, fault)),
        Came::Is(so) => ("is", (so as usize, None), nobody, quiet),
        Came::Number(number) => ("number", (number, None), nobody, quiet),
        Came::Woke(count, first, last) => ("woke", (count, None), [first, last], quiet),
        Came::Other => ("other", no, nobody, quiet),
    }
}

/// What a wait is to answer.
#[derive(Clone, Copy)]
enum Answer {
    /// It gives this event.
    Gives(Event),
    /// It gives no event.
    GivesNone,
    /// It is interrupted.
    Interrupted,
    /// It fails.
    Fails,
}

const KEY: Key = Key(7);

/// An event of the source.
const READABLE: Event = Event {
    key: KEY,
    on: Interest::READ,
};

/// Asserts that a poll waits.
fn poll_pending<A: Arm>(
    rt: &impl Abort,
    source: &mut SourceState,
    arm: &mut A,
    dir: Dir,
    waker: Waker,
) {
    let polled = source.poll_dir(arm, dir, waker, 0);
    same(rt, polled.answer, Poll::Pending);
}

/// A source whose reader is the second waker and whose writer the third.
fn waited_for<A: Arm>(rt: &impl Abort, alloc: Global, arm: &mut A) -> SourceState {
    let mut source = SourceState::new(alloc, KEY);
    poll_pending(rt, &mut source, arm, Dir::Read, Waker(2));
    poll_pending(rt, &mut source, arm, Dir::Write, Waker(3));
    source
}

/// What a wait answered, and the handling of the event that it gave.
type Served = (Result<Waited, CountFault>, Option<Option<ArmFault>>);

/// Waits, and then handles the first event that it gave on the source, or skips it where the source
/// has another key. Answers both, the second where an event was handled.
fn serve<W: EventWait, A: Arm>(
    round: &mut Round,
    wait: &mut W,
    source: &mut SourceState,
    arm: &mut A,
) -> Result<Served, OutOfMemory>
    requires running { round.old.running ≡ true }
    requires hand { round.old.hand ≡ [] }
    ensures { round.new.running ≡ true }
{
    let waited = round.wait(wait);
    match round.peek() {
        Some(event) if event.key == source.key() => Ok((waited, Some(round.handle(source, arm)?))),
        Some(_) => {
            round.skip();
            Ok((waited, None))
        }
        None => Ok((waited, None)),
    }
}

/// A round, and what is lent to its calls.
#[derive(Drop)]
struct Lending {
    round: Round,
    book: TimerBook,
    wait: ScriptedWait,
    source: SourceState,
    arm: FailingArm,
}

/// An idle round over a wait with these answers, and a source that two tasks wait for. Each of them polled,
/// which armed the source; the arms with the numbers in `fails` fail.
fn make_lending(rt: &impl Abort, alloc: Global, answers: &[Answer], fails: &[u64]) -> Lending {
    let mut arm = FailingArm::new(0, fails.to_vec(alloc).expect(rt, MEMORY));
    Lending {
        round: Round::new(alloc).expect(rt, MEMORY),
        book: TimerBook::new(alloc),
        wait: wait_of(rt, alloc, answers),
        source: waited_for(rt, alloc, &mut arm),
        arm,
    }
}

/// What a wait is to answer, for the device.
fn answer_of(rt: &impl Abort, alloc: Global, answer: Answer) -> WaitAnswer {
    match answer {
        Answer::Gives(event) => WaitAnswer::Gives(vec![in alloc; event].expect(rt, MEMORY)),
        Answer::GivesNone => WaitAnswer::Gives(Vec::new(alloc)),
        Answer::Interrupted => WaitAnswer::Interrupted,
        Answer::Fails => WaitAnswer::Fails,
    }
}

/// A wait that gives these answers.
fn wait_of(rt: &impl Abort, alloc: Global, answers: &[Answer]) -> ScriptedWait {
    let mut told = Vec::new(alloc);
    for answer in answers {
        told.push(answer_of(rt, alloc, *answer)).expect(rt, MEMORY);
    }
    ScriptedWait::new(told)
}

/// What a wait and the handling of its event come to.
fn served(answer: Result<Served, OutOfMemory>) -> Came {
    match answer {
        Ok((Ok(waited), None)) => Came::Answered(waited),
        Ok((Ok(waited), Some(fault))) => Came::Handled(waited, fault),
        Ok((Err(fault), None)) => Came::Failed(fault),
        _ => Came::Other,
    }
}

/// The first waker and the last one.
fn woke(woken: &[Waker]) -> Came {
    let first = woken.first().map(|waker| waker.0);
    let last = woken.last().map(|waker| waker.0);
    Came::Woke(woken.len(), first, last)
}

impl Lending {
    /// Registers a timer.
    fn insert(&mut self, deadline: Moment, waker: u32) -> Came {
        if self.book.reserve(1).is_err() {
            return Came::Other;
        }
        let op = TimerOp::Insert(deadline, TimerId(1), Waker(waker));
        self.book.apply(op);
        Came::Done
    }

    /// Begins the round.
    fn begin(&mut self, now: Moment, limit: Option<u64>) -> Came {
        if !self.round.is_idle() {
            return Came::Other;
        }
        match self.round.begin(&mut self.book, now, limit, 1) {
            Ok(limit) => Came::Begun(limit),
            Err(OutOfMemory) => Came::Other,
        }
    }

    /// Serves while no event is in hand.
    fn serve(&mut self) -> Came {
        if self.round.is_idle() || self.round.in_hand() != 0 {
            return Came::Other;
        }
        served(serve(
            &mut self.round,
            &mut self.wait,
            &mut self.source,
            &mut self.arm,
        ))
    }

    /// Ends the round while no event is in hand.
    fn finish(&mut self, now: Moment) -> Came {
        if self.round.is_idle() || self.round.in_hand() != 0 {
            return Came::Other;
        }
        match self.round.finish(&mut self.book, now) {
            Ok(fault) => Came::Ended(fault),
            Err(OutOfMemory) => Came::Other,
        }
    }

    /// Does this at a moment.
    fn act_at(&mut self, at: u64, act: Act) -> Came {
        let Some(at) = Moment::new(at) else {
            return Came::Other;
        };
        match act {
            Act::Insert(_, waker) => self.insert(at, waker),
            Act::Begin(_, limit) => self.begin(at, limit),
            Act::Finish(_) => self.finish(at),
            _ => Came::Other,
        }
    }

    /// Looks at this.
    fn look(&self, act: Act) -> Came {
        match act {
            Act::Idle => Came::Is(self.round.is_idle()),
            Act::Peek => Came::Is(self.round.peek().is_some()),
            Act::Woken => woke(self.round.woken()),
            Act::Given => Came::Number(self.round.given() as usize),
            Act::Fault => Came::Ended(self.round.fault()),
            Act::Timers => Came::Number(self.book.len()),
            Act::Waiting(dir) => Came::Number(self.source.waiting(dir) as usize),
            _ => Came::Other,
        }
    }

    /// Does this.
    fn act(&mut self, act: Act) -> Came {
        match act {
            Act::Insert(at, _) | Act::Begin(at, _) | Act::Finish(at) => self.act_at(at, act),
            Act::Serve => self.serve(),
            act => self.look(act),
        }
    }

    /// Asserts that what these acts come to is what stands beside each.
    fn plays(&mut self, rt: &impl Abort, rows: &[(Act, Came)]) {
        for (act, came) in rows {
            same(rt, told(self.act(*act)), told(*came));
        }
    }
}

/// Asserts that what these acts come to is what stands beside each, with a round over a wait that gives these
/// answers, and over a source of which the arms with these numbers fail.
fn plays(rt: &impl Abort, alloc: Global, answers: &[Answer], fails: &[u64], rows: &[(Act, Came)]) {
    let mut lending = make_lending(rt, alloc, answers, fails);
    lending.plays(rt, rows);
}

const WAKES_BOTH: [(Act, Came); 13] = [
    (Insert(10, 1), Done),
    (Idle, Is(true)),
    (Woken, Woke(0, None, None)),
    (Fault, Ended(None)),
    (Given, Number(0)),
    (Peek, Is(false)),
    (Begin(10, None), Begun(Some(0))),
    (Serve, Handled(Waited::Given(1), None)),
    (Finish(10), Ended(None)),
    (Idle, Is(true)),
    (Woken, Woke(2, Some(1), Some(2))),
    (Given, Number(1)),
    (Waiting(Dir::Write), Number(1)),
];

#[test]
fn a_round_wakes_what_it_took(rt: HostRuntime) {
    plays(
        &rt,
        rt.alloc(),
        &[Answer::Gives(READABLE)],
        &[],
        &WAKES_BOTH,
    );
}

/// The first fault of the wait.
const FIRST: CountFault = CountFault {
    before: 0,
    after: 1,
};

/// That of the source, in an arm.
const UNARMED: ArmFault = ArmFault {
    key: KEY,
    before: 0,
    after: 1,
};

const FAILS_TWICE: [Answer; 2] = [Answer::Fails, Answer::Gives(READABLE)];

const FIRST_STAYS: [(Act, Came); 6] = [
    (Begin(0, None), Begun(None)),
    (Serve, Failed(FIRST)),
    (Serve, Handled(Waited::Given(1), Some(UNARMED))),
    (Finish(0), Ended(Some(RoundFault::Wait(FIRST)))),
    (Fault, Ended(Some(RoundFault::Wait(FIRST)))),
    (Woken, Woke(1, Some(2), Some(2))),
];

#[test]
fn the_first_fault_of_a_round_stays(rt: HostRuntime) {
    plays(&rt, rt.alloc(), &FAILS_TWICE, &[3], &FIRST_STAYS);
}

const FINDS_THE_TIMER: [(Act, Came); 7] = [
    (Insert(10, 1), Done),
    (Begin(0, Some(50)), Begun(Some(10))),
    (Serve, Answered(Waited::Given(0))),
    (Finish(10), Ended(None)),
    (Given, Number(0)),
    (Timers, Number(0)),
    (Woken, Woke(1, Some(1), Some(1))),
];

const LEAVES_IT_INTERRUPTED: [(Act, Came); 7] = [
    (Insert(10, 1), Done),
    (Begin(0, Some(50)), Begun(Some(10))),
    (Serve, Answered(Waited::Interrupted)),
    (Finish(10), Ended(None)),
    (Given, Number(0)),
    (Timers, Number(1)),
    (Woken, Woke(0, None, None)),
];

/// An event of another source.
const STRAY: Event = Event {
    key: Key(9),
    on: Interest::READ,
};

const LEAVES_IT_AFTER_AN_EVENT: [(Act, Came); 7] = [
    (Insert(10, 1), Done),
    (Begin(0, Some(50)), Begun(Some(10))),
    (Serve, Answered(Waited::Given(1))),
    (Finish(10), Ended(None)),
    (Given, Number(1)),
    (Timers, Number(1)),
    (Woken, Woke(0, None, None)),
];

#[test]
fn only_a_wait_that_gave_no_event_asks_for_a_second_pass(rt: HostRuntime) {
    let (alloc, none) = (rt.alloc(), &[]);
    plays(&rt, alloc, &[Answer::GivesNone], none, &FINDS_THE_TIMER);
    plays(
        &rt,
        alloc,
        &[Answer::Interrupted],
        none,
        &LEAVES_IT_INTERRUPTED,
    );
    plays(
        &rt,
        alloc,
        &[Answer::Gives(STRAY)],
        none,
        &LEAVES_IT_AFTER_AN_EVENT,
    );
}

/// Takes what a lock may hold, and lets it go.
fn send_away<T: Send + Drop>(_value: T) {}

#[test]
fn a_round_may_go_to_another_thread(rt: HostRuntime) {
    send_away(Round::new(rt.alloc()).expect(&rt, MEMORY));
}
