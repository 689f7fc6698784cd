//! The replay of a trace: the driver of its lines, which reads each and writes what is answered, and
//! the replayer, which runs the steps on a core over the poller in memory.
//!
//! It stands on `aio_base`, `aio_bytes`, `aio_script`, `aio_trace`, `aio_writing`, `aio_generator`,
//! `aio_listen`, `aio_source`, `aio_timers`, `aio_react` and `aio_future`, and in its proofs on laws
//! of `aio_laws`. It promises, for every list of bytes that the input has left, that the output is
//! that of the reactor machine run over the steps of these bytes. Where the replay ends with the
//! input or with a refused line, the core that is handed back stands for the machine's world in which
//! that run ends; at a fault, for the world after a front part of the steps, in which is each whose
//! answer was written; where memory ran out there is none. And of a trace that a number describes,
//! that its summary tells the counts of the machine's run. What else answers the lines of an input
//! gives the driver an `Answerer` of its own.
#![tactic(auto)]

pub mod answerer;
pub mod counts;
pub mod driver;
pub mod ends;
mod replayer;
mod replies;
pub mod summing;
mod timer_table;
pub mod trace;
mod version;
mod wakes;

pub use counts::Summary;
pub use ends::ReplayEnd;
pub use summing::summary;
pub use trace::replay;
