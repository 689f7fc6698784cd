//! The places of pairs at a shared reactor: the ends of a pair over the sources of the reactor, and the
//! place of a pair, before a worker serves it.
//!
//! It stands on the sources of `aio_sources`, on the reactor of `aio_shared`, and on the ends of
//! `aio_pairs`. `begin` promises of each place that it stands for its two connections.
#![tactic(auto)]

mod ends;
mod places;

pub use ends::SourceEnd;
pub use places::{Begun, Place, begin};
