//! An executor of several threads over one reactor, which steal work from one another
//! (`async-executor` 1, `Executor`, with the threads that run it).
//!
//! It stands on the work of one thread in `aio_work`, on the threads of `aio_park` and on what deals to
//! workers in `aio_jobs`. It promises one answer for each task, in the order of the tasks, each one that
//! its task allows; and that it stops before that only where a lent device is not sure, or for want of
//! memory. That tasks run at the same time, and that work is stolen, tests show.
#![tactic(auto)]

mod exec;
mod finishing;
mod worker;
mod workers;

pub use exec::{ExecFault, exec_run};
