//! The modes of a poller.

/// When a poller gives an event again (`polling` 3, `lib.rs`, `PollMode`).
#[derive(Clone, Copy, Debug, PartialEq, Eq)]
pub enum Mode {
    /// In each wait, as long as the source is ready.
    Level,
    /// Once each time the source becomes ready.
    Edge,
    /// Once each time the source becomes ready, and then not before its interest is set anew.
    EdgeOneshot,
}
