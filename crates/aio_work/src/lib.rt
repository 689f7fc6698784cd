//! Tasks that say what they are about, the desks at which they lie, and the work of one thread that
//! polls them and steals them from others (`async-executor` 1, `Task` and `Runner`).
//!
//! It stands on the locks of `aio_lock` and the deques of `aio_turns`, over any host: it knows neither
//! reactor nor rounds. It promises that whoever keeps a desk knows what its task is about, and that the
//! answer that it finds there is one that such a task may give; and of one thread, from poll to poll, what
//! it queues, takes, steals and polls, as whom, and that it ends only where it holds no task and has found
//! every deque empty.
#![tactic(auto)]

mod deques;
mod desks;
mod finding;
mod keeping;
mod shifts;
mod slots;
mod starting;
mod work;
mod workload;

pub use deques::{OtherDeque, OwnDeque};
pub use desks::{Desk, Progress};
pub use keeping::{Desks, Kept, Seated, seat_tasks};
pub use shifts::Shift;
pub use slots::{Found, Held};
pub use starting::shifts_of;
pub use work::Work;
pub use workload::Workload;
