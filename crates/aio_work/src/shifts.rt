//! The work of one thread, polled as one task.

ghost use Rattle.std.specs.Prelude.{◌≡◌, ◌<◌, ℕ};
ghost use Rattle.aio_work.specs.Desks.{DeskPolled, poll_cx};
ghost use Rattle.aio_work.specs.Shifts.{PollsFound, WorksThenFindsNone, held_after};

use crate::keeping::Desks;
use crate::slots::{Found, Held};
use crate::work::Work;
use crate::workload::Workload;
use aio_base::{Cx, Later, Moment, Poll, Task};
use std::alloc::Global;
use std::sync::{Arc, Wait};

/// What one thread works at: what it holds, and the desks of all tasks.
///
/// Polled as a task it queues the tasks of its woken slots, and then takes and polls one after the other,
/// each as the task of a slot of the thread's own parker, until it finds none. It is ready once it
/// holds no task, and has found its own deque and those of all others empty since it polled the last one.
pub struct Shift<R: Wait, H: Later, K: Work<H>>
where
    K::Output: Drop,
{
    /// The handle by which calls may wait.
    pub rt: R,
    /// What the thread holds.
    pub workload: Workload,
    /// The desks of all tasks.
    pub desks: Arc<Desks<H, K>, Global>,
    /// How often it was polled.
    pub polls: u64,
}

impl<R: Wait + Drop, H: Later, K: Work<H> + Drop> Drop for Shift<R, H, K>
where
    K::Output: Drop,
{
    fn drop(self) {
        let Shift {
            rt: _,
            workload: _,
            desks: _,
            polls: _,
        } = self;
    }
}

impl<R: Wait + Copy, H: Later, K: Work<H> + Drop> Shift<R, H, K>
where
    K::Output: Drop,
{
    /// Finds and polls tasks until it finds none.
    fn work(&mut self, host: &mut H, parker: u32, now: Moment)
        ensures worked { WorksThenFindsNone K.poll_step parker now
            self.old.workload host.old self.new.workload host.new }
        ensures host { H.is_later host.old host.new }
        ensures polls { self.new.polls ≡ self.old.polls }
    {
        let rt = self.rt;
        for _ in rt.forever() {
            match self.workload.next(&rt) {
                Some(found) => self.poll_found(host, found, parker, now),
                None => return,
            }
        }
        unreachable!()
    }

    /// Polls the task that was found. Its slot keeps it until it has ended.
    fn poll_found(&mut self, host: &mut H, found: Found, parker: u32, now: Moment)
        requires { found.slot < 64 }
        ensures polled { PollsFound K.poll_step parker now found
            self.old.workload host.old self.new.workload host.new }
        ensures host { H.is_later host.old host.new }
        ensures polls { self.new.polls ≡ self.old.polls }
    {
        let ended = poll_at(&self.rt, &self.desks, host, found, parker, now);
        self.workload
            .put(found.slot, held_after(ended, found.place));
    }
}

/// What the slot of a task has once that was polled.
fn held_after(ended: bool, place: u32) -> Held
    ensures { result ≡ held_after ended place }
{
    if ended {
        Held::Nothing
    } else {
        Held::Waiting(place)
    }
}

/// Polls the task of a place, where it has not ended: it is out of its lock meanwhile, so that nobody else
/// polls it then. Whether it has ended, or is none.
fn poll_at<R: Wait, H: Later, K: Work<H> + Drop>(
    rt: &R,
    desks: &Arc<Desks<H, K>, Global>,
    host: &mut H,
    found: Found,
    parker: u32,
    now: Moment,
) -> bool
where
    K::Output: Drop,
    requires { found.slot < 64 }
    ensures polled { DeskPolled K.poll_step (poll_cx parker found.slot now) result
        host.old host.new }
    ensures host { H.is_later host.old host.new }
{
    let Some(lock) = desks.get(found.place as usize) else {
        return true;
    };
    let (desk, visit) = lock.visit(rt);
    let (desk, ended) = desk.poll(host, parker, found.slot, now);
    lock.leave(visit, desk);
    ended
}

/// It is ready once it holds no task and has found every deque empty.
impl<R: Wait + Copy, H: Later, K: Work<H> + Drop> Task<H> for Shift<R, H, K>
where
    K::Output: Drop,
{
    ghost use Rattle.std.specs.Prelude.{⊤};
    ghost use Rattle.aio_work.specs.Shifts.{ShiftPolled};

    type Output = ();

    ghost gives = { λ shift sure moment done. ⊤ };

    ghost poll_step = { λ old host cx answer new left.
        ShiftPolled K.poll_step cx old.workload host answer new.workload left };

    ghost poll_count = { λ shift. shift.polls };

    fn poll(&mut self, host: &mut H, cx: Cx) -> Poll<()> {
        self.polls = self.polls.saturating_add(1);
        self.workload.queue_woken(cx.mask);
        self.work(host, cx.parker, cx.now);
        if self.workload.holds_any() {
            Poll::Pending
        } else {
            Poll::Ready(())
        }
    }

    fn polls(&self) -> u64 {
        self.polls
    }

    ghost gives_later = { λ shift sure a b done bound given. tt };
}
