//! Sources that record what was called on them, and two jobs that call eight of them at once.
//!
//! It stands on `aio_history`, which says what a list of calls has to answer, on `aio_source`, of which it
//! uses one source over an arm that never fails, on `aio_lock`, and of `aio_base` on jobs and what runs
//! them. It promises of every recorded cell that its steps replay, answer by answer, and that its source is
//! what they leave; and of `stress` that in each cell the calls of each job are those that its seed gives,
//! in order and each once, in whatever order the threads came to the cell.
#![tactic(auto)]

mod desk;
mod job;
mod quiet;
mod recorded;
mod stress_cell;
mod stressing;

pub use recorded::RecordedCell;
pub use stress_cell::{Maker, StressCell};
pub use stressing::stress;
