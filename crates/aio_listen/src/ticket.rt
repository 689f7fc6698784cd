//! The name of a listener.

/// The name of a listener in its list, compared as a whole. No two calls that add a listener to one
/// list give the same ticket.
#[derive(Clone, Copy, Debug, PartialEq, Eq)]
pub struct Ticket {
    /// How many tickets of the list were drawn with this one: the first has 1.
    pub serial: u64,
    /// Where the list keeps the listener, a number that only the list itself reads. It is given
    /// again once the listener was removed, to one with another serial.
    pub place: u32,
}
