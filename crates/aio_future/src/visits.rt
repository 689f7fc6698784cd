//! Visits of an entered source: a poll of a direction, and an attempt on its connection that polls where it
//! would block.

ghost use Rattle.std.specs.Prelude.{◌≡◌, ◌≢◌, ℕ, false, None, Some, IfSome};
ghost use Rattle.aio_source.specs.Rules.{direction_of, is_ready};
ghost use Rattle.aio_source.specs.Visits.{IsUnsureArm, arm_fault_of};
ghost use Rattle.aio_future.specs.Visits.{PollsCell, TriesCell, TriesOnce};

use crate::attempts::Attempt;
use aio_base::{Arm, Dir, Poll, Waker};
use aio_source::{SourceCell, Visit, Visited};

/// One poll of a direction of a source with a waker.
#[derive(Clone, Copy, Debug, PartialEq, Eq)]
pub struct PollDir {
    /// The direction.
    pub dir: Dir,
    /// The waker that waits for it.
    pub waker: Waker,
}

impl<A: Arm> Visit<A> for PollDir {
    ghost use Rattle.std.specs.Prelude.{◌≡◌};
    ghost use Rattle.aio_future.specs.Visits.{PollsCell};

    type Output = ();

    ghost visits = { λ poll found ticker polled left put. (left ≡ poll)
        × PollsCell A.arm_step A.interests A.rest A.fault_count A.is_sure
        poll found ticker polled put };

    fn visit(&mut self, cell: &mut SourceCell<A>, ticker: u64) -> Visited<()> {
        let polled = cell
            .state
            .poll_dir(&mut cell.io, self.dir, self.waker, ticker);
        Visited {
            answer: polled.answer,
            replaced: polled.replaced,
        }
    }
}

/// An attempt on the connection of a source, and a poll of a direction where it would block. Where the
/// direction is ready both are done once more, and the second poll is never ready.
#[derive(Drop)]
pub struct TryDir<'a, T> {
    /// The attempt.
    pub attempt: &'a mut T,
    /// The poll.
    pub poll: PollDir,
}

/// Makes one attempt, and one poll where it would block. `None` where the direction was ready then.
fn try_once<A: Arm, T: Attempt<A>>(
    attempt: &mut T,
    mut poll: PollDir,
    cell: &mut SourceCell<A>,
    ticker: u64,
) -> Option<Visited<T::Output>>
    ensures tries { TriesOnce A.arm_step A.interests A.rest A.fault_count A.is_sure T.attempts
        poll attempt.old cell.old ticker result attempt.new cell.new }
    ensures arm { IfSome result (λ tried.
        IfSome (arm_fault_of tried.answer) (IsUnsureArm A.all_sure cell.old.state.key.0)) }
    ensures key { cell.new.state.key ≡ cell.old.state.key }
    ensures seen { result ≡ None
        → is_ready (direction_of cell.new.state.directions poll.dir) ≡ false }
    ensures unready { is_ready (direction_of cell.old.state.directions poll.dir) ≡ false
        → result ≢ None }
{
    if let Some(output) = attempt.attempt(&mut cell.io) {
        return Some(Visited {
            answer: Poll::Ready(Ok(output)),
            replaced: None,
        });
    }
    let polled = poll.visit(cell, ticker);
    let answer = match polled.answer {
        Poll::Ready(Ok(())) => return None,
        Poll::Ready(Err(fault)) => Poll::Ready(Err(fault)),
        Poll::Pending => Poll::Pending,
    };
    Some(Visited {
        answer,
        replaced: polled.replaced,
    })
}

impl<A: Arm, T: Attempt<A>> Visit<A> for TryDir<'_, T> {
    ghost use Rattle.std.specs.Prelude.{◌≡◌};
    ghost use Rattle.aio_future.specs.Visits.{TriesCell};

    type Output = T::Output;

    ghost visits = { λ trying found ticker tried left put.
        (left.attempt.ghost_name ≡ trying.attempt.ghost_name) × (left.poll ≡ trying.poll)
        × TriesCell A.arm_step A.interests A.rest A.fault_count A.is_sure T.attempts
        trying.poll trying.attempt.now found ticker tried left.attempt.now put };

    fn visit(&mut self, cell: &mut SourceCell<A>, ticker: u64) -> Visited<T::Output> {
        if let Some(tried) = try_once(self.attempt, self.poll, cell, ticker) {
            return tried;
        }
        match try_once(self.attempt, self.poll, cell, ticker) {
            Some(tried) => tried,
            None => unreachable!(),
        }
    }
}
