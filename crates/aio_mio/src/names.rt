//! Directions and events in the system's names and in the project's.

ghost use Rattle.std.specs.Prelude.{◌≡◌};
ghost use Rattle.aio_mio.specs.Names.{WatchesAll, names_any, source_event, tells_more};

use aio_base::{Event, Interest, Key};
use mio::Token;

/// The token of the waker. No key has its number.
pub(crate) const WAKER: Token = Token(usize::MAX);

/// The token of a source.
pub(crate) fn token_of(key: Key) -> Token {
    Token(key.0 as usize)
}

/// What the system is asked to watch: all that it tells of. Urgent data is among it since a read stops before the
/// urgent byte, though no event of a source tells it.
pub(crate) fn watch_all() -> mio::Interest
    ensures { WatchesAll result }
{
    mio::Interest::READABLE | mio::Interest::WRITABLE | mio::Interest::PRIORITY
}

/// Whether there is reading or writing among these directions, for which alone the system is asked.
pub(crate) fn asks_for_any(on: Interest) -> bool
    ensures { result ≡ names_any on }
{
    on.read || on.write
}

/// Whether the system tells an end, an error or urgent data of a source: then a call that moves fewer bytes than it
/// might does not show that nothing is left. An end or an error that came with the last bytes is no edge of its own.
pub(crate) fn is_unsure(event: &mio::event::Event) -> bool
    ensures { result ≡ tells_more event.now }
{
    event.is_read_closed() || event.is_write_closed() || event.is_error() || event.is_priority()
}

/// The event of a source, which tells no urgent readiness. A direction is named for its end and for an error
/// as well, of which a read or a write then tells. What names no source, as the waker does, is `None`.
pub(crate) fn source_event(event: &mio::event::Event) -> Option<Event>
    ensures { result ≡ source_event event.now }
{
    let Ok(key) = u32::try_from(event.token().0) else {
        return None;
    };
    Some(Event {
        key: Key(key),
        on: Interest {
            read: event.is_readable() || event.is_read_closed() || event.is_error(),
            write: event.is_writable() || event.is_write_closed() || event.is_error(),
            ..Interest::NONE
        },
    })
}
