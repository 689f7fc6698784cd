//! Tasks at their desks, each in a lock: what their caller keeps of them, and what threads share.

ghost use Rattle.std.specs.Prelude.{◌≡◌, ◌∷◌, ℕ, List, [], IfOk};
ghost use Rattle.std.specs.List.{AllZip};

use crate::desks::Desk;
use crate::work::Work;
use aio_base::{Later, OutOfMemory};
use aio_lock::{Lock, Owner};
use std::alloc::Global;
use std::collections::VecDeque;
use std::marker::Model;
use std::sync::{Arc, Wait};

/// The desks of all tasks, by their places, for threads that visit them.
pub type Desks<H, K> = Vec<Arc<Lock<Desk<H, K>>, Global>>;

/// The lock of a desk, with the owner of number 0, which knows what the task is about. Contracts see that
/// alone.
pub struct Kept<H: Later, K: Work<H>>
where
    K::Output: Drop,
{
    lock: Arc<Lock<Desk<H, K>>, Global>,
    owner: Owner,
}

impl<H: Later, K: Work<H>> Model for Kept<H, K>
where
    K::Output: Drop,
{
    ghost use Rattle.std.specs.Prelude.{◌≡◌, List, ℕ, true, None};
    ghost use Rattle.std.specs.Arc.{arc_value};

    ghost Value = { List ℕ };

    ghost view = { λ kept. kept.owner.knows.first };

    ghost invariant = { λ kept. (kept.owner.lock ≡ arc_value kept.lock)
        × (kept.owner.knows.owns_first ≡ true) × (kept.owner.knows.taken ≡ None) };
}

impl<H: Later, K: Work<H> + Drop> Drop for Kept<H, K>
where
    K::Output: Drop,
{
    fn drop(self) {
        let Kept { lock: _, owner: _ } = self;
    }
}

impl<H: Later, K: Work<H> + Drop> Kept<H, K>
where
    K::Output: Drop,
{
    /// Puts a task at a desk, in a lock that is shared then. `OutOfMemory` where there was no memory for
    /// it; the task is let go.
    pub fn new(
        alloc: Global,
        task: K,
    ) -> Result<(Kept<H, K>, Arc<Lock<Desk<H, K>>, Global>), OutOfMemory>
        ensures { IfOk result (λ made. made.0 ≡ K.about_of task ∷ []) }
    {
        let (lock, mut owner, _second) = Lock::vacant(alloc)?;
        lock.give(&mut owner, Desk::new(task));
        let Ok(lock) = Arc::new(alloc, lock) else {
            return Err(OutOfMemory);
        };
        let Ok(shared) = Arc::try_clone(&lock) else {
            return Err(OutOfMemory);
        };
        Ok((Kept { lock, owner }, shared))
    }

    /// Waits until nobody has the desk out, and takes it out for good: that of a task which is about what
    /// the owner knows.
    pub fn open<R: Wait>(self, rt: &R) -> Desk<H, K>
        ensures { self ≡ result.about ∷ [] }
    {
        let Kept { lock, mut owner } = self;
        lock.take(rt, &mut owner)
    }
}

/// Tasks at their desks: what their caller keeps of each, in their order, and the locks for the threads.
pub struct Seated<H: Later, K: Work<H>>
where
    K::Output: Drop,
{
    /// What the caller keeps of each.
    pub kept: VecDeque<Kept<H, K>>,
    /// The desks, by their places.
    pub desks: Desks<H, K>,
}

/// Puts each task at a desk. Of each the caller keeps what it is about. `OutOfMemory` where there was no
/// memory for it; all tasks are let go.
pub fn seat_tasks<H: Later, K: Work<H> + Drop>(
    alloc: Global,
    tasks: Vec<K>,
) -> Result<Seated<H, K>, OutOfMemory>
where
    K::Output: Drop,
    ensures kept { IfOk result (λ seated.
        AllZip (λ task (kept : List ℕ). kept ≡ K.about_of task ∷ [])
        tasks.items seated.kept.items) }
{
    let mut left = VecDeque::from(tasks);
    let mut kept = VecDeque::new(alloc);
    let mut desks = Vec::new(alloc);
    while let Some(task) = left.pop_front() {
        let (one, lock) = Kept::new(alloc, task)?;
        if kept.push_back(one).is_err() || desks.push(lock).is_err() {
            return Err(OutOfMemory);
        }
    }
    Ok(Seated { kept, desks })
}
