//! What a handle holds.

use aio_base::Moment;
use aio_react::Core;
use aio_script::ScriptPoller;

/// A core over the poller in memory: what the system's poller is asked and what it gives is told to
/// that one call by call.
pub struct Held {
    /// The core.
    pub core: Core<ScriptPoller>,
    /// The moment of the last begin or finish that was not refused.
    pub clock: Moment,
    /// Whether the last finish has wakers that were not all read since.
    pub unread: bool,
}

// Written out: a derived one has those of all that lies in it proved again.
impl Drop for Held {
    fn drop(self) {
        let Held {
            core: _,
            clock: _,
            unread: _,
        } = self;
    }
}
