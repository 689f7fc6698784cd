//! A worker: a post at the reactor, and the work of its thread.

ghost use Rattle.std.specs.Prelude.{◌≡◌};
ghost use Rattle.aio_park.specs.Posts.{post_terms};
ghost use Rattle.aio_work.specs.Starting.{places_of};
ghost use Rattle.aio_exec.specs.Workers.{WorkerEnds};

use aio_base::{Arm, Clock, EventWait, Job, Later, Notify};
use aio_park::{Post, WorkerFault, run_then_hand_over};
use aio_shared::Inside;
use aio_work::{Shift, Work};
use std::marker::Model;
use std::sync::Wait;
use std::thread::Threads;

/// One thread's part of an executor: its post at the reactor, and its work, which knows the handle by which
/// the thread waits. Contracts see the parker, under which devices it runs, and which places its deque
/// holds at first.
pub struct Worker<R: Wait, N: Notify, C: Clock, A: Arm, W: EventWait, H: Later, K: Work<H>>
where
    K::Output: Drop,
{
    post: Post<N, C, A, W>,
    shift: Shift<R, H, K>,
}

impl<R: Wait, N: Notify, C: Clock, A: Arm, W: EventWait, H: Later, K: Work<H>> Model
    for Worker<R, N, C, A, W, H, K>
where
    K::Output: Drop,
{
    ghost use Rattle.aio_park.specs.Posts.{post_terms};
    ghost use Rattle.aio_work.specs.Starting.{places_of};
    ghost use Rattle.aio_exec.specs.Workers.{WorkerValue};

    ghost Value = { WorkerValue };

    ghost view = { λ w. record {
      parker = w.post.parker;
      terms = post_terms C.bounds N.is_sure w.post;
      places = places_of w.shift.workload.own;
    } };
}

impl<
    R: Wait + Drop,
    N: Notify + Drop,
    C: Clock + Drop,
    A: Arm + Drop,
    W: EventWait + Drop,
    H: Later,
    K: Work<H> + Drop,
> Drop for Worker<R, N, C, A, W, H, K>
where
    K::Output: Drop,
{
    fn drop(self) {
        let Worker { post: _, shift: _ } = self;
    }
}

impl<R: Wait, N: Notify, C: Clock, A: Arm, W: EventWait, H: Later, K: Work<H>> Worker<
    R,
    N,
    C,
    A,
    W,
    H,
    K,
>
where
    K::Output: Drop,
{
    /// A worker at this post, with this work.
    pub fn new(post: Post<N, C, A, W>, shift: Shift<R, H, K>) -> Worker<R, N, C, A, W, H, K>
        ensures { result ≡ record {
          parker = post.parker;
          terms = post_terms C.bounds N.is_sure post;
          places = places_of shift.workload.own;
        } }
    {
        Worker { post, shift }
    }
}

/// A worker runs its work to the end, or to its fault. Right before it ends it wakes a slot of each other
/// parker, so that one of them makes rounds in its place.
impl<
    R: Wait + Copy + Drop,
    N: Notify + Drop,
    C: Clock + Drop,
    A: Arm + Drop,
    W: EventWait + Drop,
    K: Work<Inside<R, N, A, W>> + Drop,
> Job for Worker<R, N, C, A, W, Inside<R, N, A, W>, K>
where
    K::Output: Drop,
{
    type End = Result<(), WorkerFault>;

    ghost may_end = { WorkerEnds };

    fn run<S: Wait + Threads + Sync + Send + Copy>(self, _rt: &S) -> Result<(), WorkerFault> {
        let Worker { post, shift } = self;
        let mut thread = post.into_thread(shift.rt);
        run_then_hand_over(&mut thread, Ok(shift))
    }
}
