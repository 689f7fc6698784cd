//! The queue under the rule of operations: what each kind of call makes of a pass's seat.

use aio_rules::{OpEntry, QueueSeat};
use aio_timers::TimerOp;
use crossbeam_queue::RuledArrayQueue;
use crossbeam_queue::protocol::{Lesson, Outcome, Protocol, Split};

/// An operation on timers, as it lies in the queue.
pub(crate) type Entry = OpEntry<TimerOp>;

/// What a pass pushed and popped.
pub(crate) type Seat = QueueSeat<TimerOp>;

/// The rule of the queue, which holds after each step of any thread.
pub struct InOrder;

impl Protocol<OpEntry<TimerOp>, QueueSeat<TimerOp>> for InOrder {
    ghost use Rattle.aio_rules.specs.Operations.{SeatsRule, new_seat};

    ghost holds = { SeatsRule };

    ghost first = { new_seat 0 1 };
}

/// A new pass, made by the first one, which counts it.
pub struct NewPass;

impl Split<QueueSeat<TimerOp>> for NewPass {
    ghost use Rattle.aio_rules.specs.Operations.{new_seat, with_split};

    ghost left = { with_split };

    ghost right = { λ h. new_seat h.splits 0 };
}

/// A push that succeeds.
pub struct Push;

impl Outcome<OpEntry<TimerOp>, QueueSeat<TimerOp>> for Push {
    ghost use Rattle.std.specs.Prelude.{◌≡◌};
    ghost use Rattle.aio_rules.specs.Operations.{with_push};

    ghost then = { λ h entry after. after ≡ with_push entry h };
}

impl Lesson<OpEntry<TimerOp>, QueueSeat<TimerOp>> for Push {
    ghost use Rattle.std.specs.Prelude.{⊤};

    ghost fact = { λ h items. ⊤ };
}

/// A pop that gives.
pub struct Pop;

impl Outcome<OpEntry<TimerOp>, QueueSeat<TimerOp>> for Pop {
    ghost use Rattle.std.specs.Prelude.{◌≡◌};
    ghost use Rattle.aio_rules.specs.Operations.{with_pop};

    ghost then = { λ h entry after. after ≡ with_pop entry h };
}

impl Lesson<OpEntry<TimerOp>, QueueSeat<TimerOp>> for Pop {
    ghost use Rattle.std.specs.Prelude.{⊤};

    ghost fact = { λ h items. ⊤ };
}

/// The kit's bounded queue under this rule.
pub(crate) type OpQueue = RuledArrayQueue<OpEntry<TimerOp>, QueueSeat<TimerOp>, InOrder>;
