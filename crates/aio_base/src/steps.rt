//! The steps of a trace and their answers, and why a line of a trace is refused.
//!
//! Each variant stands for the line, or the answer, of the same words in the trace language.

use crate::names::{Dir, Event, Key, Moment, Waker};
use crate::outcomes::{EndWord, Which};

/// A step of a trace. `StepEar` and `DropEar` are the lines `step` and `drop`, the poll and the
/// giving up of a listener; `Note` is the line `event`.
#[derive(Clone, Copy, Debug, PartialEq, Eq)]
pub enum Step {
    /// `add`: a new source.
    Add,
    /// `del K`: the source is taken out.
    Del(Key),
    /// `poll K D W`: task W polls a direction of the source.
    Poll(Key, Dir, Waker),
    /// `new K D`: a new listener of a direction of the source.
    New(Key, Dir),
    /// `step N W`: task W polls listener N.
    StepEar(u32, Waker),
    /// `drop N`: listener N is given up.
    DropEar(u32),
    /// `timer at T`: a new timer that fires once.
    TimerAt(Moment),
    /// `timer every T P`: a new timer that fires first at T, then every P nanoseconds, 1 to 10^18.
    TimerEvery(Moment, u64),
    /// `timer never`: a new timer with no deadline.
    TimerNever,
    /// `tick N W`: task W polls timer N at the present moment.
    Tick(u32, Waker),
    /// `set N at T`: timer N gets another deadline.
    SetAt(u32, Moment),
    /// `set N every T P`: timer N gets another deadline, and a period of P nanoseconds, 1 to 10^18.
    SetEvery(u32, Moment, u64),
    /// `end N`: timer N is given up.
    End(u32),
    /// `now T`: the clock is set.
    Now(Moment),
    /// `event K F`: the poller notes an event.
    Note(Event),
    /// `fault X`: the poller's next call of the kind fails.
    Fault(Which),
    /// `interrupt`: the poller's next wait that does not fail is interrupted.
    Interrupt,
    /// `begin L`: a round begins, with a limit in nanoseconds or `none`.
    Begin(Option<u64>),
    /// `wait`: the running round waits for events.
    Wait,
    /// `handle`: the running round handles the first event in hand.
    Handle,
    /// `finish`: the running round ends and wakes.
    Finish,
    /// `react`: a whole round without a limit.
    React,
}

/// The answer to a step. `Wake` is the form of a `wake` line, and the answer of no step.
#[derive(Clone, Copy, Debug, PartialEq, Eq)]
pub enum Answer {
    /// `key K`: the key of the new source.
    KeyIs(Key),
    /// `full`: 4,096 sources are registered.
    Full,
    /// `fault add`: the poller could not register the source.
    FaultAdd,
    /// `gone`: the source is taken out.
    Gone,
    /// `no source`: no source has the key.
    NoSource,
    /// `in use`: the source has listeners.
    InUse,
    /// `fault remove`: the source is taken out, though the poller's call failed.
    FaultRemove,
    /// `ready`: a round that began since the last waiter was stored has handled such an event.
    Ready,
    /// `pending`: not ready.
    Pending,
    /// `fault arm`: the task waits, though the poller could not be armed.
    FaultArm,
    /// `listener N`: the number of the new listener, from 1.
    Listener(u64),
    /// `no listener`: no listener has the number.
    NoListener,
    /// `dropped`: the listener is given up.
    Dropped,
    /// `timer N`: the number of the new timer, from 1.
    Timer(u64),
    /// `ready T`: the deadline of the timer, which has come.
    ReadyAt(Moment),
    /// `no timer`: no timer has the number.
    NoTimer,
    /// `set`: the timer has its new deadline.
    Set,
    /// `ended`: the timer is given up.
    Ended,
    /// `at T`: the clock's new moment.
    At(Moment),
    /// `back T`: the moment at which the clock stays, since the asked one is earlier.
    Back(Moment),
    /// `noted`: the poller was told.
    Noted,
    /// `begin R wait L`: the round has begun.
    Begin {
        /// The round's number, from 1.
        number: u64,
        /// The limit of its wait in nanoseconds, or none.
        limit: Option<u64>,
    },
    /// `locked`: a round is running already.
    Locked,
    /// `given N`: how many events the wait gave.
    Given(u32),
    /// `interrupted`: the wait was interrupted.
    Interrupted,
    /// `fault wait`: the wait failed.
    FaultWait,
    /// `no round`: no round is running.
    NoRound,
    /// `events N`: so many events are still in hand.
    Events(u32),
    /// `handled K`, and `fault arm` behind it where arming failed: one event is handled.
    Handled {
        /// The key that the event names.
        key: Key,
        /// Whether the source could not be armed again.
        fault: bool,
    },
    /// `empty`: no event is in hand.
    Empty,
    /// `end ok`, `end fault wait` or `end fault arm`: how the round ended.
    End(EndWord),
    /// `round R events N` and how the round ended: a whole round.
    Round {
        /// The round's number, from 1.
        number: u64,
        /// How many events it handled.
        events: u32,
        /// How it ended.
        end: EndWord,
    },
    /// `wake W`: the task is woken.
    Wake(Waker),
}

/// Why a line is no step of the trace language.
#[derive(Clone, Copy, Debug, PartialEq, Eq)]
pub enum LineFault {
    /// `long`: more than 256 bytes.
    Long,
    /// `byte`: a byte that may not stand where it does.
    Byte,
    /// `empty`: no word.
    Empty,
    /// `command`: the first word is no command.
    Command,
    /// `count`: a word is missing, or one too many.
    Count,
    /// `number`: a word that should be a number is none, or is out of range.
    Number,
    /// `direction`: a word that should be `r` or `w` is neither.
    Direction,
    /// `flags`: a word that should be `-`, `r`, `w` or `rw` is none of them.
    Flags,
    /// `choice`: the word behind `timer`, `set N` or `fault` is none of those that may stand there.
    Choice,
}

/// Why a trace is refused at a line: a fault of the line; no header in the first line; or a line past
/// the millionth.
#[derive(Clone, Copy, Debug, PartialEq, Eq)]
pub enum Reason {
    /// `long`: more than 256 bytes.
    Long,
    /// `byte`: a byte that may not stand where it does.
    Byte,
    /// `empty`: no word.
    Empty,
    /// `command`: the first word is no command.
    Command,
    /// `count`: a word is missing, or one too many.
    Count,
    /// `number`: a word that should be a number is none, or is out of range.
    Number,
    /// `direction`: a word that should be `r` or `w` is neither.
    Direction,
    /// `flags`: a word that should be `-`, `r`, `w` or `rw` is none of them.
    Flags,
    /// `choice`: the word behind `timer`, `set N` or `fault` is none of those that may stand there.
    Choice,
    /// `header`: the first line is no header.
    Header,
    /// `lines`: the line is past the millionth.
    Lines,
}

impl From<LineFault> for Reason {
    ghost use Rattle.std.specs.Prelude.{◌≡◌};
    ghost use Rattle.aio_base.specs.Trace.{reason_of};

    ghost from_gives = { λ fault reason. reason ≡ reason_of fault };

    /// The reason for which a line with this fault is refused.
    fn from(fault: LineFault) -> Reason {
        match fault {
            LineFault::Long => Reason::Long,
            LineFault::Byte => Reason::Byte,
            LineFault::Empty => Reason::Empty,
            LineFault::Command => Reason::Command,
            LineFault::Count => Reason::Count,
            LineFault::Number => Reason::Number,
            LineFault::Direction => Reason::Direction,
            LineFault::Flags => Reason::Flags,
            LineFault::Choice => Reason::Choice,
        }
    }
}
