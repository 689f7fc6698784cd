//! A server of lines, and its workers, each of which serves up to 64 pairs by one thread of a shared
//! reactor; a pair in a slot of its worker is a `Served`. And the command `relay`, which runs the server.
//!
//! It stands on the pairs of `aio_relay`, on their places of `aio_places`, and on a thread of a shared
//! reactor of `aio_park`; the dealing and the relay's devices are those of `aio_jobs`, its words and
//! lines those of `aio_line`, and its output is one of `aio_bytes`. `serve` promises an end for each pair,
//! in order, that fits the pair's two connections under the clock's bounds, the idle time and the lent
//! notifier, and a cause where it stops instead. `laws` says which ends are left where connections and
//! devices are sure. `relay` promises that its text names the port in use and then an end for each pair,
//! in the order of the pairs, each of which its two connections may come to; and of each other end of a
//! relay its cause and what was written by then.
#![tactic(auto)]

mod accepting;
mod joining;
mod laws;
mod relaying;
mod seats;
mod served;
mod server;
mod starting;
mod worker;

pub use aio_jobs::{CallerSpawner, OpenGate, ThreadSpawner};
pub use aio_park::WorkerFault;
pub use aio_places::Place;
pub use laws::{a_sure_server_stops_for_memory_alone, pairs_of_sure_connections_end};
pub use relaying::{RelayStop, relay};
pub use served::{Served, Stage};
pub use server::{ServeFault, serve};
pub use worker::Worker;
