//! The commands of the program: which of them its words name, the calls that do each of them but `relay`, and
//! how the program ends by it.
//!
//! It stands on `aio_replay`, which reads a trace and runs its steps, on `aio_writing`, which writes them, on
//! `aio_generator`, which gives those that a number describes, on `aio_bytes`, on `aio_line` for the words of
//! a relay, on `aio_jobs` for six devices that are lent as one, and on `aio_record` for two jobs on recorded
//! cells. It needs no server, so it is proved beside one. It promises a command exactly where the words name
//! one; for every list of bytes that the source has left, that the output of a replay is that of the machine
//! run over the steps of these bytes; for all numbers, that the trace which they describe is written, or the
//! counts of its run, or the line of two jobs; of each other end its cause and what was written by then; and
//! that the user is told the cause as far as the sink for that takes it.
#![tactic(auto)]

mod commands;
mod ends;
mod replaying;
mod status;
mod stressing;
mod texts;

pub use commands::{Command, command_of};
pub use ends::{exit_status, tell};
pub use replaying::run_replay;
pub use status::{Status, Which6, Why};
pub use stressing::run_stress;
pub use texts::{run_gen, run_sum};
