//! Where the whole lines at the front of some bytes end.

ghost use Rattle.std.specs.Prelude.{◌≡◌, ◌+◌, ◌<◌, ◌≤◌, ◌-◌, length, min, slice_range, take, MatchOption};
ghost use Rattle.aio_pairs.specs.Lines.{HasNoLineFeed, lines};
ghost use Rattle.aio_pairs.specs.Search.{IsLastFeed};

use memchr::memrchr;

/// The most bytes of a line that is passed on, its line feed among them.
pub const LONGEST: usize = 4096;

/// How many bytes at the front of `bytes` are whole lines. None of the first `clear` bytes may be a line
/// feed: what was searched before is not searched again.
///
/// The search goes by windows of `LONGEST` bytes, each from the begin of a line on. Whatever line ends
/// in such a window is short enough, so that the last line feed in it decides; the bytes behind that one
/// are known to be clear then. Each byte is looked at once at most.
pub fn lines_end(bytes: &[u8], clear: usize) -> usize
    requires within { clear ≤ length bytes.now }
    requires short { clear ≤ LONGEST }
    requires no_feed { HasNoLineFeed (take clear bytes.now) }
    ensures { result ≡ length (lines bytes.now) }
{
    let mut line = 0;
    let mut searched = clear;
    loop {
        let window = window_end(line, bytes.len());
        match last_feed(bytes, searched, window) {
            Some(feed) => {
                line = feed + 1;
                searched = window;
            }
            None => return line,
        }
    }
}

// The end of the window from `line` on, of all so many bytes.
#[inline]
fn window_end(line: usize, all: usize) -> usize
    requires { line ≤ all }
    ensures { result ≡ line + min LONGEST (all - line) }
{
    let behind = all - line;
    line + behind.min(LONGEST)
}

// The place of the last line feed from `start` up to `stop`.
#[inline]
fn last_feed(bytes: &[u8], start: usize, stop: usize) -> Option<usize>
    requires order { start ≤ stop }
    requires within { stop ≤ length bytes.now }
    ensures { MatchOption result (HasNoLineFeed (slice_range bytes.now start stop))
        (λ at. IsLastFeed bytes.now start stop at) }
{
    match memrchr(b'\n', &bytes[start..stop]) {
        Some(place) => Some(start + place),
        None => None,
    }
}
