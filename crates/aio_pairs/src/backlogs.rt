//! What was read of one side and is still to be written to the other.

ghost use Rattle.std.specs.Prelude.{◌≡◌, ◌+◌, ◌-◌, ◌<◌, ◌≤◌, ◌↔◌, [], nat_le, true, false, length, take, drop, slice_range, IfOk, Ok};
ghost use Rattle.aio_base.specs.Connections.{ReadTells};
ghost use Rattle.aio_base.specs.declared.outcomes.Poll.TheVariants.{Ready, Pending};
ghost use Rattle.aio_future.specs.Tries.{bytes_over, fault_counts, IsReadAnswer, FaultsWithin};
ghost use Rattle.aio_pairs.specs.Backlogs.{TakesUp, ends_with, fresh_side, shrunk};
ghost use Rattle.aio_pairs.specs.Calls.{Reads, LeavesHost};
ghost use Rattle.aio_pairs.specs.Lines.{lines, unfinished};

use crate::ends::End;
use crate::lines::{LONGEST, lines_end};
use crate::outcomes::EndTried;
use aio_base::{Host, Poll, Waker};
use aio_future::TryFault;
use std::alloc::{AllocError, Global};
use std::marker::Model;

/// The most bytes of a side that one poll reads.
pub const BLOCK: usize = 65_536;

/// The size of a buffer: a block, behind a line that is not whole yet.
const SIZE: usize = 69_632;

/// The bytes of a side that were read and not yet written. They lie in one buffer that is never grown:
/// whole lines first, from `start` on, then an unfinished line up to `end`. A read moves the unfinished
/// line to the front of the buffer and reads behind it, so that each block is read in one piece.
#[derive(Drop)]
pub struct Backlog {
    buffer: Vec<u8>,
    start: usize,
    lines_end: usize,
    end: usize,
    forwarded: u64,
    ended: bool,
}

impl Model for Backlog {
    ghost use Rattle.std.specs.Prelude.{◌≡◌, ◌+◌, ◌≤◌, length, slice_range, vec_len};
    ghost use Rattle.aio_pairs.specs.Backlogs.{SideState};
    ghost use Rattle.aio_pairs.specs.Lines.{lines};

    ghost Value = { SideState };

    ghost view = { λ s. record {
      backlog = slice_range s.buffer.items s.start s.end;
      forwarded = s.forwarded;
      ended = s.ended;
    } };

    ghost invariant = { λ s. (vec_len s.buffer ≡ 69632) × (s.start ≤ s.end) × (s.end ≤ 69632)
        × (s.lines_end ≡ s.start + length (lines (slice_range s.buffer.items s.start s.end))) };
}

impl Backlog {
    /// The backlog of a side of which nothing was read.
    pub fn new(alloc: Global) -> Result<Backlog, AllocError>
        ensures { IfOk result (λ side. side ≡ fresh_side) }
    {
        let mut buffer = Vec::new(alloc);
        buffer.resize(SIZE, 0)?;
        Ok(Backlog {
            buffer,
            start: 0,
            lines_end: 0,
            end: 0,
            forwarded: 0,
            ended: false,
        })
    }

    /// The whole lines, which are to be written.
    pub fn lines(&self) -> &[u8]
        ensures { result.now ≡ lines self.now.backlog }
    {
        &self.buffer.as_slice()[self.start..self.lines_end]
    }

    /// Whether there is a whole line to be written.
    pub fn has_lines(&self) -> bool
        ensures some { result ≡ true → 0 < length (lines self.now.backlog) }
        ensures none { result ≡ false → lines self.now.backlog ≡ [] }
    {
        self.lines_end > self.start
    }

    /// Whether the line behind the whole ones is too long to be passed on.
    pub fn has_long_line(&self) -> bool
        ensures test { result ≡ nat_le LONGEST (length (unfinished self.now.backlog)) }
        ensures long { result ≡ true → LONGEST ≤ length (unfinished self.now.backlog) }
        ensures short { result ≡ false → length (unfinished self.now.backlog) < LONGEST }
    {
        self.end - self.lines_end >= LONGEST
    }

    /// Whether the side's connection has ended.
    pub fn ended(&self) -> bool
        ensures { result ≡ self.now.ended }
    {
        self.ended
    }

    /// How many bytes of the side were written to the other; it stands still at 2^64 - 1.
    pub fn forwarded(&self) -> u64
        ensures { result ≡ self.now.forwarded }
    {
        self.forwarded
    }

    /// Takes so many bytes of the whole lines out: they were written.
    pub fn shrink(&mut self, n: usize)
        requires { n ≤ length (lines self.old.backlog) }
        ensures { self.new ≡ shrunk self.old n }
    {
        self.start += n;
        self.forwarded = self.forwarded.saturating_add(n as u64);
    }

    /// Reads up to `room` bytes of an end, once all whole lines were written.
    pub fn read_from<H: Host, E: End<H>>(
        &mut self,
        end: &mut E,
        host: &mut H,
        room: usize,
        w: Waker,
    ) -> EndTried
        requires written { lines self.old.backlog ≡ [] }
        requires short { length (unfinished self.old.backlog) < LONGEST }
        requires some { 0 < room }
        requires block { room ≤ BLOCK }
        ensures reads { TakesUp E.end_step E.telling end.old end.new self.old self.new room w result }
        ensures most { bytes_over result.answer ≤ room }
        ensures kind { IsReadAnswer result.answer }
        ensures faults { FaultsWithin (E.fault_count end.old) (E.fault_count end.new)
            (E.is_sure end.old) (E.is_sure end.new) (fault_counts result.answer) }
        ensures host { LeavesHost H.rules H.is_later H.notifier_is_sure result host.old host.new }
    {
        let held = self.end - self.start;
        let buffer = self.buffer.as_mut_slice();
        let tried = read_behind(end, host, buffer, self.start, held, room, w);
        let all = held + count_of(tried.answer);
        self.start = 0;
        self.end = all;
        self.lines_end = lines_end(&self.buffer.as_slice()[..all], held);
        self.ended = is_ended(tried.answer, self.ended);
        tried
    }
}

/// How many bytes went over in a try.
pub fn count_of(answer: Poll<Result<usize, TryFault>>) -> usize
    ensures { result ≡ bytes_over answer }
{
    match answer {
        Poll::Ready(Ok(n)) => n,
        Poll::Ready(Err(_)) | Poll::Pending => 0,
    }
}

// Whether a side has ended, after a read with this answer.
fn is_ended(answer: Poll<Result<usize, TryFault>>, ended: bool) -> bool
    ensures { result ≡ ends_with answer ended }
{
    match answer {
        Poll::Ready(Ok(0)) => true,
        Poll::Ready(Ok(_)) => ended,
        Poll::Ready(Err(_)) => ended,
        Poll::Pending => ended,
    }
}

// Moves `held` bytes from `start` on to the front of the buffer, and reads an end once behind them.
fn read_behind<H: Host, E: End<H>>(
    end: &mut E,
    host: &mut H,
    buffer: &mut [u8],
    start: usize,
    held: usize,
    room: usize,
    w: Waker,
) -> EndTried
    requires some { 0 < room }
    requires part { start + held ≤ length buffer.old }
    requires fits { held + room ≤ length buffer.old }
    ensures front { take held buffer.new ≡ slice_range buffer.old start (start + held) }
    ensures step { E.end_step end.old (Reads room w result
        (take (bytes_over result.answer) (drop held buffer.new))) end.new }
    ensures told { ReadTells (E.telling end.old) (E.telling end.new)
        (take (bytes_over result.answer) (drop held buffer.new))
        (result.answer ≡ Pending) (result.answer ≡ Ready (Ok 0)) }
    ensures most { bytes_over result.answer ≤ room }
    ensures kind { IsReadAnswer result.answer }
    ensures faults { FaultsWithin (E.fault_count end.old) (E.fault_count end.new)
        (E.is_sure end.old) (E.is_sure end.new) (fault_counts result.answer) }
    ensures host { LeavesHost H.rules H.is_later H.notifier_is_sure result host.old host.new }
{
    if start > 0 {
        buffer.copy_within(start..start + held, 0);
    }
    let (_, behind) = buffer.split_at_mut(held);
    let (free, _) = behind.split_at_mut(room);
    end.read(host, free, w)
}
