//! An entered source: polls of its directions, and tries of its connection.

ghost use Rattle.std.specs.Prelude.{◌≡◌, ◌<◌, ◌≤◌, length, take, IfSome, Ok};
ghost use Rattle.aio_base.specs.Connections.{ReadTells, WriteTells};
ghost use Rattle.aio_base.specs.declared.outcomes.Poll.TheVariants.{Ready, Pending};
ghost use Rattle.aio_future.specs.Tries.{FaultsWithin, IsReadAnswer, IsWriteAnswer, MovesWithin, Polls, Tries, bytes_over, fault_counts, read_call, write_call};
ghost use Rattle.aio_source.specs.Visits.{IsUnsureArm, arm_fault_of};
ghost use Rattle.aio_future.specs.Visits.{TriesCell};

use crate::attempts::{Attempt, Read, Write};
use crate::tried::{Tried, TryFault};
use crate::visits::{PollDir, TryDir};
use aio_base::{Arm, Conn, Dir, Waker};
use aio_source::{Polled, SourceCell, Visit, Visited};

/// An entered source: the source beside its connection, borrowed, and the number of rounds begun that
/// its polls count with (`async-io` 2, `lib.rs`, `Async`). Letting it go changes nothing.
#[derive(Drop)]
pub struct Async<'a, C> {
    pub(crate) cell: &'a mut SourceCell<C>,
    pub(crate) ticker: u64,
}

impl<'a, C> Async<'a, C> {
    /// The source in a cell, while `ticker` rounds have begun. It takes no memory.
    pub fn of(cell: &'a mut SourceCell<C>, ticker: u64) -> Async<'a, C>
        ensures same_reference { result.cell.ghost_name ≡ cell.entry.ghost_name }
        ensures cell { result.cell.now ≡ cell.old }
        ensures ticker { result.ticker ≡ ticker }
    {
        Async { cell, ticker }
    }

    /// Polls whether the source is readable (`async-io` 2, `lib.rs`, `Async::poll_readable`). It takes
    /// no memory.
    pub fn poll_readable(&mut self, w: Waker) -> Polled
    where
        C: Arm,
        ensures polls { Polls C.arm_step C.interests C.rest C.fault_count C.is_sure
            Dir.Read w self.old.ticker self.old.cell.now.state self.old.cell.now.io
            result self.new.cell.now.state self.new.cell.now.io }
        ensures key { self.new.cell.now.state.key ≡ self.old.cell.now.state.key }
        ensures same_reference { self.new.cell.ghost_name ≡ self.old.cell.ghost_name }
        ensures ticker { self.new.ticker ≡ self.old.ticker }
    {
        poll_dir(self.cell, Dir::Read, self.ticker, w)
    }

    /// Polls whether the source is writable (`async-io` 2, `lib.rs`, `Async::poll_writable`). It takes
    /// no memory.
    pub fn poll_writable(&mut self, w: Waker) -> Polled
    where
        C: Arm,
        ensures polls { Polls C.arm_step C.interests C.rest C.fault_count C.is_sure
            Dir.Write w self.old.ticker self.old.cell.now.state self.old.cell.now.io
            result self.new.cell.now.state self.new.cell.now.io }
        ensures key { self.new.cell.now.state.key ≡ self.old.cell.now.state.key }
        ensures same_reference { self.new.cell.ghost_name ≡ self.old.cell.ghost_name }
        ensures ticker { self.new.ticker ≡ self.old.ticker }
    {
        poll_dir(self.cell, Dir::Write, self.ticker, w)
    }

    /// Polls whether the source is urgently ready, an extension of this project. It takes no memory.
    pub fn poll_priority(&mut self, w: Waker) -> Polled
    where
        C: Arm,
        ensures polls { Polls C.arm_step C.interests C.rest C.fault_count C.is_sure
            Dir.Priority w self.old.ticker self.old.cell.now.state self.old.cell.now.io
            result self.new.cell.now.state self.new.cell.now.io }
        ensures key { self.new.cell.now.state.key ≡ self.old.cell.now.state.key }
        ensures same_reference { self.new.cell.ghost_name ≡ self.old.cell.ghost_name }
        ensures ticker { self.new.ticker ≡ self.old.ticker }
    {
        poll_dir(self.cell, Dir::Priority, self.ticker, w)
    }

    /// Makes an attempt on the connection; where it would block, polls a direction with a waker. Where the
    /// direction is ready both are done once more, and the second poll is never ready. So it is pending
    /// only where the last attempt would block.
    pub fn try_with<T: Attempt<C>>(
        &mut self,
        dir: Dir,
        w: Waker,
        attempt: &mut T,
    ) -> Visited<T::Output>
    where
        C: Arm,
        ensures tries { TriesCell C.arm_step C.interests C.rest C.fault_count C.is_sure T.attempts
            (record { dir = dir; waker = w }) attempt.old self.old.cell.now self.old.ticker
            result attempt.new self.new.cell.now }
        ensures arm { IfSome (arm_fault_of result.answer)
            (IsUnsureArm C.all_sure self.old.cell.now.state.key.0) }
        ensures key { self.new.cell.now.state.key ≡ self.old.cell.now.state.key }
        ensures same_reference { self.new.cell.ghost_name ≡ self.old.cell.ghost_name }
        ensures ticker { self.new.ticker ≡ self.old.ticker }
    {
        let poll = PollDir { dir, waker: w };
        let mut trying = TryDir { attempt, poll };
        trying.visit(self.cell, self.ticker)
    }

    /// Reads by such a read, whose buffer stays lent.
    fn read_by(&mut self, read: &mut Read<'_>, w: Waker) -> Tried
    where
        C: Conn,
        ensures tries { Tries C.conn_step C.arm_step C.interests C.rest C.fault_count C.is_sure
            (read_call (length read.old.buf.now) read.new.buf.now) TryFault.Read
            Dir.Read w self.old.ticker self.old.cell.now.state self.old.cell.now.io
            result self.new.cell.now.state self.new.cell.now.io }
        ensures most { bytes_over result.answer ≤ length read.new.buf.now }
        ensures kind { IsReadAnswer result.answer }
        ensures told { ReadTells (C.telling self.old.cell.now.io) (C.telling self.new.cell.now.io)
            (take (bytes_over result.answer) read.new.buf.now) (result.answer ≡ Pending)
            (result.answer ≡ Ready (Ok 0)) }
        ensures faults { FaultsWithin (C.fault_count self.old.cell.now.io)
            (C.fault_count self.new.cell.now.io) (C.is_sure self.old.cell.now.io)
            (C.is_sure self.new.cell.now.io) (fault_counts result.answer) }
        ensures key { self.new.cell.now.state.key ≡ self.old.cell.now.state.key }
        ensures same_reference { self.new.cell.ghost_name ≡ self.old.cell.ghost_name }
        ensures ticker { self.new.ticker ≡ self.old.ticker }
        ensures lent { read.new.buf.ghost_name ≡ read.old.buf.ghost_name }
    {
        Tried::of(self.try_with(Dir::Read, w, read))
    }

    /// Reads into the front of `buf` what there is to read; 0 bytes are the end (`async-io` 2, `lib.rs`,
    /// `Async::read_with`). A blocked connection is waited for with `w`: its direction is polled. Where
    /// that finds it ready, an event came before; it is read once more and, blocked again, polled once
    /// more, which finds it ready no more. So a pending answer means that the last read was blocked.
    ///
    /// `TryFault` only where the connection's count of faults rose. It takes no memory.
    pub fn read_with(&mut self, buf: &mut [u8], w: Waker) -> Tried
    where
        C: Conn,
        requires { 0 < length buf.old }
        ensures tries { Tries C.conn_step C.arm_step C.interests C.rest C.fault_count C.is_sure
            (read_call (length buf.old) buf.new) TryFault.Read Dir.Read w self.old.ticker
            self.old.cell.now.state self.old.cell.now.io
            result self.new.cell.now.state self.new.cell.now.io }
        ensures most { bytes_over result.answer ≤ length buf.new }
        ensures kind { IsReadAnswer result.answer }
        ensures told { ReadTells (C.telling self.old.cell.now.io) (C.telling self.new.cell.now.io)
            (take (bytes_over result.answer) buf.new) (result.answer ≡ Pending)
            (result.answer ≡ Ready (Ok 0)) }
        ensures faults { FaultsWithin (C.fault_count self.old.cell.now.io)
            (C.fault_count self.new.cell.now.io) (C.is_sure self.old.cell.now.io)
            (C.is_sure self.new.cell.now.io) (fault_counts result.answer) }
        ensures key { self.new.cell.now.state.key ≡ self.old.cell.now.state.key }
        ensures same_reference { self.new.cell.ghost_name ≡ self.old.cell.ghost_name }
        ensures ticker { self.new.ticker ≡ self.old.ticker }
    {
        let mut read = Read { buf };
        self.read_by(&mut read, w)
    }

    /// Writes the front of `piece`, one byte at least, as much as the connection takes (`async-io` 2,
    /// `lib.rs`, `Async::write_with`). It waits, tries again and fails as `read_with` does. It takes no
    /// memory.
    pub fn write_with(&mut self, piece: &[u8], w: Waker) -> Tried
    where
        C: Conn,
        requires { 0 < length piece.now }
        ensures tries { Tries C.conn_step C.arm_step C.interests C.rest C.fault_count C.is_sure
            (write_call piece.now) TryFault.Write Dir.Write w self.old.ticker
            self.old.cell.now.state self.old.cell.now.io
            result self.new.cell.now.state self.new.cell.now.io }
        ensures most { MovesWithin (length piece.now) result.answer }
        ensures kind { IsWriteAnswer result.answer }
        ensures told { WriteTells (C.telling self.old.cell.now.io) (C.telling self.new.cell.now.io)
            (take (bytes_over result.answer) piece.now) (result.answer ≡ Pending) }
        ensures faults { FaultsWithin (C.fault_count self.old.cell.now.io)
            (C.fault_count self.new.cell.now.io) (C.is_sure self.old.cell.now.io)
            (C.is_sure self.new.cell.now.io) (fault_counts result.answer) }
        ensures key { self.new.cell.now.state.key ≡ self.old.cell.now.state.key }
        ensures same_reference { self.new.cell.ghost_name ≡ self.old.cell.ghost_name }
        ensures ticker { self.new.ticker ≡ self.old.ticker }
    {
        let mut write = Write { piece };
        Tried::of(self.try_with(Dir::Write, w, &mut write))
    }
}

/// Polls a direction.
fn poll_dir<C: Arm>(cell: &mut SourceCell<C>, dir: Dir, ticker: u64, w: Waker) -> Polled
    ensures polls { Polls C.arm_step C.interests C.rest C.fault_count C.is_sure dir w ticker
        cell.old.state cell.old.io result cell.new.state cell.new.io }
    ensures key { cell.new.state.key ≡ cell.old.state.key }
{
    cell.state.poll_dir(&mut cell.io, dir, w, ticker)
}
