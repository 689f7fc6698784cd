//! The sources of a reactor that several threads share, each in a lock of its own.
//!
//! It stands on the sources of `aio_source` and what a round with events in hand is to them, on the locks of
//! `aio_lock`, and on the words of `aio_words`, by which the token of a source names its reactor. It promises under which
//! key each source joins, and that the keys of a table rise; that the token of a source knows the rest of
//! its connection whatever rounds did in between; of each event of a round whether a source handled it;
//! and why a call refuses.
//!
//! Whoever has the table may wait for one source, so whoever is inside a source does not ask for the
//! table.
#![tactic(auto)]

mod closing;
mod sealed;
mod source_table;
mod sources;
mod starting;

pub use sealed::SourceRef;
pub use source_table::{SourceTable, TableIsFull};
pub use sources::{InsertFault, Sources};
pub use starting::Places;
