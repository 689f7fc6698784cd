//! Reads and writes of a stream, over any reader and any writer.

ghost use Rattle.std.specs.Prelude.{◌≡◌, ◌+◌, ◌≤◌, length, take, drop, IfOk};
ghost use Rattle.std.specs.Io.KnownBytes.{Consumes};
ghost use Rattle.aio_mio.specs.Answers.{MovesWithin, bytes_of};

use aio_base::{Did, Failed};
use std::io::{self, ErrorKind, Read, Write};

/// How often a call that a signal interrupts is tried.
const TRIES: u32 = 1_000;

/// One read, tried again where a signal interrupts it. A read of 0 bytes is the end.
pub(crate) fn read_from<R: Read>(reader: &mut R, buf: &mut [u8]) -> io::Result<Did>
    ensures most { IfOk result (MovesWithin 0 (length buf.new)) }
    ensures bytes { Consumes (R.remaining reader.old) (R.remaining reader.new)
        (take (bytes_of result) buf.new) }
{
    for _ in 0..TRIES {
        match reader.read(buf) {
            Ok(count) => return Ok(Did::Bytes(count)),
            Err(error) => match error.kind() {
                ErrorKind::WouldBlock => return Ok(Did::Blocked),
                ErrorKind::Interrupted => {}
                _ => return Err(error),
            },
        }
    }
    Err(io::Error::from(ErrorKind::Interrupted))
}

/// One write, tried again where a signal interrupts it. A write that takes nothing is an error.
pub(crate) fn write_to<W: Write>(writer: &mut W, piece: &[u8]) -> io::Result<Did>
    ensures { IfOk result (MovesWithin 1 (length piece.now)) }
{
    for _ in 0..TRIES {
        match writer.write(piece) {
            Ok(0) => return Err(io::Error::from(ErrorKind::WriteZero)),
            Ok(count) => return Ok(Did::Bytes(count)),
            Err(error) => match error.kind() {
                ErrorKind::WouldBlock => return Ok(Did::Blocked),
                ErrorKind::Interrupted => {}
                _ => return Err(error),
            },
        }
    }
    Err(io::Error::from(ErrorKind::Interrupted))
}

/// What a read behind another one came to.
#[derive(Clone, Copy, Debug, PartialEq, Eq)]
pub struct ReadOn {
    /// How many bytes the two reads gave.
    pub count: usize,
    /// What the second one came to.
    pub second: Result<Did, Failed>,
}

/// One more read, behind the first `count` bytes of a buffer, which the read before it gave. Those stay as
/// they are, and what it gives follows them.
pub fn read_on<R: Read>(reader: &mut R, buf: &mut [u8], count: usize) -> ReadOn
    requires { count ≤ length buf.old }
    ensures count { result.count ≡ count + bytes_of result.second }
    ensures most { result.count ≤ length buf.new }
    ensures front { take count buf.new ≡ take count buf.old }
    ensures bytes { Consumes (R.remaining reader.old) (R.remaining reader.new)
        (drop count (take result.count buf.new)) }
{
    let (_, behind) = buf.split_at_mut(count);
    match read_from(reader, behind) {
        Ok(Did::Bytes(more)) => ReadOn {
            count: count + more,
            second: Ok(Did::Bytes(more)),
        },
        Ok(Did::Blocked) => ReadOn {
            count,
            second: Ok(Did::Blocked),
        },
        Err(_) => ReadOn {
            count,
            second: Err(Failed),
        },
    }
}
