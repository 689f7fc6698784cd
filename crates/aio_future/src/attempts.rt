//! What is attempted on the connection of an entered source; a read and a write are attempts.

ghost use Rattle.std.specs.Prelude.{◌≡◌, ◌<◌, length};

use crate::tried::TryFault;
use aio_base::{Arm, Conn, CountFault, Did, Failed};

/// What is attempted on the connection of a source.
pub trait Attempt<A: Arm> {
    ghost use Rattle.std.specs.Prelude.{Option};

    /// What it gives.
    type Output;

    /// The attempt, the connection before it, what it gave, the attempt after it, and the connection after
    /// it.
    ghost attempts: { Self → A → Option Self.Output → Self → A → Type 0 };

    /// Makes the attempt. `None` where it would block.
    fn attempt(&mut self, io: &mut A) -> Option<Self::Output>
        ensures { attempts self.old io.old result self.new io.new };
}

/// A read into the front of a buffer that is not empty. It gives the number of bytes that were read, of
/// which 0 are the end, or the two counts of the connection's faults where the read failed.
#[derive(Drop)]
pub struct Read<'a> {
    /// The buffer.
    pub buf: &'a mut [u8],
    ghost has_room: { 0 < length buf.now },
}

impl<C: Conn> Attempt<C> for Read<'_> {
    ghost use Rattle.aio_future.specs.Tries.{ReadsNow};

    type Output = Result<usize, TryFault>;

    ghost attempts = { λ read io given left after. (left.buf.ghost_name ≡ read.buf.ghost_name)
        × ReadsNow C.conn_step C.telling C.fault_count C.is_sure
        read.buf.now io given left.buf.now after };

    fn attempt(&mut self, io: &mut C) -> Option<Result<usize, TryFault>> {
        let before = io.faults();
        match io.read(self.buf) {
            Ok(Did::Blocked) => None,
            Ok(Did::Bytes(read)) => Some(Ok(read)),
            Err(Failed) => {
                let after = io.faults();
                Some(Err(TryFault::Read(CountFault { before, after })))
            }
        }
    }
}

/// A write of the front of a piece that is not empty. It gives the number of bytes that were written, one
/// at least, or the two counts of the connection's faults where the write failed.
#[derive(Drop)]
pub struct Write<'a> {
    /// The piece.
    pub piece: &'a [u8],
    ghost has_bytes: { 0 < length piece.now },
}

impl<C: Conn> Attempt<C> for Write<'_> {
    ghost use Rattle.aio_future.specs.Tries.{WritesNow};

    type Output = Result<usize, TryFault>;

    ghost attempts = { λ write io given left after. (left ≡ write)
        × WritesNow C.conn_step C.telling C.fault_count C.is_sure write.piece.now io given after };

    fn attempt(&mut self, io: &mut C) -> Option<Result<usize, TryFault>> {
        let before = io.faults();
        match io.write(self.piece) {
            Ok(Did::Blocked) => None,
            Ok(Did::Bytes(sent)) => Some(Ok(sent)),
            Err(Failed) => {
                let after = io.faults();
                Some(Err(TryFault::Write(CountFault { before, after })))
            }
        }
    }
}
