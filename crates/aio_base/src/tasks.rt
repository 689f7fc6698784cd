//! Tasks, and what a poll is told (`core::task`: `Future` and `Context`).

ghost use Rattle.std.specs.Prelude.{◌≡◌, ◌≤◌, ℕ, Bool};

use crate::later::Later;
use crate::names::{Moment, Waker};
use crate::outcomes::Poll;

/// What a poll is told: whose task it is, which of the parker's slots were woken, and the moment. Any
/// parker and any mask are allowed.
#[derive(Clone, Copy, Debug, PartialEq, Eq)]
pub struct Cx {
    /// The parker whose thread polls.
    pub parker: u32,
    /// The slots that were woken, bit by bit from slot 0.
    pub mask: u64,
    /// The moment of the poll.
    pub now: Moment,
}

impl Cx {
    ghost use Rattle.aio_base.specs.Tasks.{own_waker};

    /// The own waker of a task that is polled with this: of the lowest slot that is set, and of slot 0
    /// where none is, modulo 2^32.
    pub fn own_waker(self) -> Waker
        ensures { result.0 ≡ own_waker self.parker self.mask }
    {
        let slot = if self.mask == 0 {
            0
        } else {
            self.mask.trailing_zeros()
        };
        Waker(self.parker.wrapping_mul(64).wrapping_add(slot))
    }
}

/// Work that is polled until it has an output (`core::future::Future`).
///
/// What a task tells of itself, contracts alone see. A task that has nothing to say of its polls takes
/// for `poll_step` the relation that always holds.
pub trait Task<H: Later> {
    ghost use Rattle.aio_base.specs.declared.outcomes.Poll.{Poll};
    ghost use Rattle.aio_base.specs.declared.tasks.Cx.{Cx};
    ghost use Rattle.aio_base.specs.Devices.{raised};
    ghost use Rattle.aio_base.specs.Polls.{IfReady, WhilePending};

    /// What it answers once it is done.
    type Output;

    /// Which outputs the task allows at a moment. Of the host it is told only whether its notifier is
    /// sure, which no call changes. What is allowed after a poll that answers `Pending`, at its moment
    /// or later, was allowed before.
    ghost gives: { Self → Bool → ℕ → Self.Output → Type 0 };

    /// The relation of the task and its host before a poll, what the poll is told, its answer, and the
    /// two after it. Generic code that polls a task can name by it what the poll made of the host.
    ghost poll_step: { Self → H → Cx → Poll Self.Output → Self → H → Type 0 };

    /// The number of its polls so far.
    ghost poll_count: { Self → ℕ };

    /// Polls the task. Its answers are its own, so want of memory too may stand in its output.
    fn poll(&mut self, host: &mut H, cx: Cx) -> Poll<Self::Output>
        ensures ready { IfReady result (λ output. gives self.old (H.notifier_is_sure host.old) cx.now output) }
        ensures pending { WhilePending result ((moment : ℕ) (output : Self.Output) → cx.now ≤ moment
            → gives self.new (H.notifier_is_sure host.old) moment output
            → gives self.old (H.notifier_is_sure host.old) moment output) }
        ensures step { poll_step self.old host.old cx result self.new host.new }
        ensures polls { poll_count self.new ≡ raised (poll_count self.old) }
        ensures host { H.is_later host.old host.new };

    /// The number of its polls: every poll raises it by one, whatever it answers, or it stands at
    /// 2^64 - 1. Nothing else changes it. Takes no memory.
    fn polls(&self) -> u64
        ensures { result ≡ poll_count self.now };

    ghost gives_later: { (s : Self) (sure : Bool) (a b : ℕ) (output : Self.Output) → a ≤ b → gives s sure a output → gives s sure b output };
}
