//! What a core keeps of each source and each listener.

use aio_base::{Dir, Key};
use aio_source::{Listened, SourceState};

/// A registered source, and how many listeners it has, polled or not.
#[derive(Drop)]
pub(crate) struct SourceEntry {
    pub source: SourceState,
    pub listeners: u64,
}

/// A listener of a direction of a source: what its first poll remembered, where it was polled.
#[derive(Clone, Copy)]
pub(crate) struct Listener {
    pub key: Key,
    pub dir: Dir,
    pub first: Option<Listened>,
}
