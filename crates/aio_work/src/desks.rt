//! A task beside what it is about, or its answer in its place.

ghost use Rattle.std.specs.Prelude.{◌≡◌, ◌<◌, true};
ghost use Rattle.aio_work.specs.Desks.{DeskAfter, has_ended, is_about, poll_cx};

use crate::work::Work;
use aio_base::{Cx, Later, Moment, Poll};
use aio_rules::Noted;
use std::marker::PhantomData;

/// How far the task of a desk has come.
#[derive(Drop)]
pub enum Progress<K, O> {
    /// The task has not ended.
    Running(K),
    /// The task has ended and was let go; this is its answer.
    Ended(O),
}

/// The desk of a task: what the task is about, and the task, or its answer once it has ended. The task is
/// about this, or the answer is one that this allows.
pub struct Desk<H: Later, K: Work<H>>
where
    K::Output: Drop,
{
    /// What the task is about.
    pub about: u64,
    /// The task, or its answer.
    pub progress: Progress<K, K::Output>,
    /// The host that polls the task.
    pub host: PhantomData<H>,
    ghost agrees: { is_about K.about_of K.allows about progress ≡ true },
}

impl<H: Later, K: Work<H> + Drop> Drop for Desk<H, K>
where
    K::Output: Drop,
{
    fn drop(self) {
        let Desk {
            about: _,
            progress: _,
            host: _,
        } = self;
    }
}

/// Note 0 is what the task is about, and note 1 is empty.
impl<H: Later, K: Work<H>> Noted for Desk<H, K>
where
    K::Output: Drop,
{
    ghost use Rattle.std.specs.Prelude.{[], ◌∷◌};

    ghost first_note = { λ desk. desk.about ∷ [] };

    ghost second_note = { λ desk. [] };
}

impl<H: Later, K: Work<H>> Desk<H, K>
where
    K::Output: Drop,
{
    /// The desk of a task that has not ended.
    pub fn new(task: K) -> Desk<H, K>
        ensures { result.about ≡ K.about_of task }
    {
        let about = task.about();
        Desk {
            about,
            progress: Progress::Running(task),
            host: PhantomData,
        }
    }
}

impl<H: Later, K: Work<H> + Drop> Desk<H, K>
where
    K::Output: Drop,
{
    /// The task, or its answer.
    pub fn into_progress(self) -> Progress<K, K::Output>
        ensures progress { result ≡ self.progress }
        ensures agrees { is_about K.about_of K.allows self.about result ≡ true }
    {
        let Desk {
            about: _,
            progress,
            host: _,
        } = self;
        progress
    }

    /// Polls the task once, where it has not ended: with this slot of this parker alone. Answers the
    /// desk, and whether the task has ended then.
    pub fn poll(self, host: &mut H, parker: u32, slot: u32, now: Moment) -> (Desk<H, K>, bool)
        requires { slot < 64 }
        ensures about { result.0.about ≡ self.about }
        ensures polled { DeskAfter K.poll_step (poll_cx parker slot now)
            self.progress host.old result.0.progress host.new }
        ensures ended { result.1 ≡ has_ended result.0.progress }
        ensures host { H.is_later host.old host.new }
    {
        let Desk {
            about,
            progress,
            host: marker,
        } = self;
        match progress {
            Progress::Ended(output) => {
                let progress = Progress::Ended(output);
                (
                    Desk {
                        about,
                        progress,
                        host: marker,
                    },
                    true,
                )
            }
            Progress::Running(mut task) => {
                let mask = 1 << slot;
                match task.poll(host, Cx { parker, mask, now }) {
                    Poll::Ready(output) => {
                        let progress = Progress::Ended(output);
                        (
                            Desk {
                                about,
                                progress,
                                host: marker,
                            },
                            true,
                        )
                    }
                    Poll::Pending => {
                        let progress = Progress::Running(task);
                        (
                            Desk {
                                about,
                                progress,
                                host: marker,
                            },
                            false,
                        )
                    }
                }
            }
        }
    }
}
