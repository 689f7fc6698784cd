//! A reader of the lines of a source, which holds a bounded number of bytes of it.

ghost use Rattle.std.specs.Prelude.{◌≡◌, ◌≢◌, ℕ, List, ◌+◌, ◌-◌, ◌<◌, ◌≤◌, ◌==◌, ◌++◌, ◌∷◌, [], ◌↔◌, length, take, drop, slice_range, position, IsTrue, IsErr, IfOk, IfSome, None, OnErr};
ghost use Rattle.std.specs.List.{position_or_len};
ghost use Rattle.std.specs.Bool.{OnTrue, OnFalse};
ghost use Rattle.std.specs.Io.KnownBytes.{Keeps, ReadConsumes};
ghost use Rattle.aio_base.specs.Devices.{TellsFaults};
ghost use Rattle.aio_bytes.specs.Held.{HasNoLineFeed, PutsAhead, with_bytes};
ghost use Rattle.aio_bytes.specs.Unread.{FindsAhead, FindsLast, FindsNext, KeepsUnread, Unread};

use crate::traits::Source;
use aio_base::Failed;
use memchr::memchr;
use std::alloc::{AllocError, Global};
use std::marker::Model;
use std::simd::prelude::*;

/// The most bytes of an unfinished line that a reader of lines takes of its source: 257. So a line
/// may be 256 bytes long before its line feed; where 257 bytes lie ahead and none is a line feed,
/// no more of that line is read.
pub const LONGEST: usize = 257;

/// What is found next of a source.
#[derive(Clone, Copy, Debug, PartialEq, Eq)]
pub enum Next {
    /// A line: one with a line feed, or the rest of the source.
    Line,
    /// The first bytes of a line that is too long.
    Long,
    /// Nothing is left.
    End,
}

/// The lines of a source, one after the other, with at most `LONGEST` bytes read ahead. A line is
/// found by a scan of its bytes and lies in place: nothing is copied and no memory is taken. What
/// is in hand of an unfinished line is moved to the front of the buffer when more is read.
///
/// Contracts see the line found last and the bytes read after it.
#[derive(Drop)]
pub struct LineReader {
    buffer: Vec<u8>,
    line_start: usize,
    line_end: usize,
    start: usize,
    end: usize,
}

impl Model for LineReader {
    ghost use Rattle.std.specs.Prelude.{◌≡◌, ◌≤◌, slice_range, vec_len};
    ghost use Rattle.aio_bytes.specs.Held.{Held};

    ghost Value = { Held };

    ghost view = { λ r. record { line = slice_range r.buffer.items r.line_start r.line_end; ahead = slice_range r.buffer.items r.start r.end } };

    ghost invariant = { λ r. (vec_len r.buffer ≡ 257) × (r.line_start ≤ r.line_end) × (r.line_end ≤ 257) × (r.start ≤ r.end) × (r.end ≤ 257) };
}

impl LineReader {
    /// A reader that has read nothing. `AllocError` where there is no memory for its buffer.
    pub fn new(alloc: Global) -> Result<LineReader, AllocError>
        ensures line { IfOk result (λ reader. reader.line ≡ []) }
        ensures ahead { IfOk result (λ reader. reader.ahead ≡ []) }
    {
        let buffer = Vec::from_array(alloc, [0; LONGEST])?;
        Ok(LineReader {
            buffer,
            line_start: 0,
            line_end: 0,
            start: 0,
            end: 0,
        })
    }

    /// Whether a whole line lies ahead: then it becomes the line found, without its line feed.
    #[inline]
    pub fn find_line(&mut self) -> bool
        ensures found { OnTrue result (self.old.ahead ≡ self.new.line ++ 10 ∷ self.new.ahead) }
        ensures first { OnTrue result (HasNoLineFeed self.new.line) }
        ensures none { OnFalse result (HasNoLineFeed self.old.ahead) }
        ensures kept { OnFalse result (self.new.ahead ≡ self.old.ahead) }
        ensures no_line { OnFalse result (self.new.line ≡ []) }
        ensures held { length self.old.ahead ≤ LONGEST }
        ensures bound { length self.new.ahead ≤ LONGEST }
    {
        self.line_start = self.start;
        let ahead = &self.buffer.as_slice()[self.start..self.end];
        match first_line_feed(ahead) {
            Some(len) => {
                self.line_end = self.start + len;
                self.start += len + 1;
                true
            }
            None => {
                self.line_end = self.start;
                false
            }
        }
    }

    /// What is found next without a read: a whole line that lies ahead, or the first bytes of one that
    /// is too long, which become the line found. `None` where more has to be read, for which there is
    /// room then.
    #[inline]
    pub fn next_ahead(&mut self) -> Option<Next>
        ensures found { IfSome result (λ next.
            FindsAhead next self.new.line self.new.ahead self.old.ahead) }
        ensures none { result ≡ None → HasNoLineFeed self.old.ahead }
        ensures kept { result ≡ None → self.new.ahead ≡ self.old.ahead }
        ensures room { result ≡ None → length self.new.ahead < LONGEST }
        ensures bound { length self.new.ahead ≤ LONGEST }
    {
        if self.find_line() {
            return Some(Next::Line);
        }
        if self.is_full() {
            self.take_rest();
            return Some(Next::Long);
        }
        None
    }

    /// Finds the next line of a source, or its end, or the first bytes of a line that is too long; more
    /// of the source is read only where no line lies ahead. `Failed` only where the source failed: then
    /// no byte is lost, and the next call goes on with the line that this one looked for. It takes no
    /// memory, and waits only where a read of the source does.
    pub fn next<S: Source>(&mut self, source: &mut S) -> Result<Next, Failed>
        ensures found { (unread : List ℕ)
            → Unread (S.remaining source.old) self.old.ahead unread
            → FindsNext result (S.remaining source.new) self.new.line self.new.ahead unread }
        ensures kept { OnErr result (KeepsUnread (S.remaining source.old)
            (S.remaining source.new) self.old.ahead self.new.ahead) }
        ensures unasked { (HasNoLineFeed self.old.ahead → ⊥) → source.new ≡ source.old }
        ensures bound { length self.new.ahead ≤ LONGEST }
        ensures faults { TellsFaults S.Faults.fault_count S.Faults.is_sure
            source.old source.new (IsErr result) }
    {
        match self.next_ahead() {
            Some(next) => Ok(next),
            None => self.read_next(source),
        }
    }

    /// The same where no line lies ahead: more is read until there is one.
    fn read_next<S: Source>(&mut self, source: &mut S) -> Result<Next, Failed>
        requires room { length self.old.ahead < LONGEST }
        requires no_line { HasNoLineFeed self.old.ahead }
        ensures found { (unread : List ℕ)
            → Unread (S.remaining source.old) self.old.ahead unread
            → FindsNext result (S.remaining source.new) self.new.line self.new.ahead unread }
        ensures kept { OnErr result (KeepsUnread (S.remaining source.old)
            (S.remaining source.new) self.old.ahead self.new.ahead) }
        ensures bound { length self.new.ahead ≤ LONGEST }
        ensures faults { TellsFaults S.Faults.fault_count S.Faults.is_sure
            source.old source.new (IsErr result) }
    {
        loop {
            match self.read(source) {
                Ok(0) => return Ok(self.last()),
                Ok(_) => {}
                Err(failed) => return Err(failed),
            }
            match self.next_ahead() {
                Some(next) => return Ok(next),
                None => {}
            }
        }
    }

    /// What is found at the end of the source: the bytes ahead, which become the last line, or
    /// nothing.
    pub fn last(&mut self) -> Next
        ensures found { HasNoLineFeed self.old.ahead
            → FindsLast result self.new.line self.new.ahead self.old.ahead }
        ensures ahead { self.new.ahead ≡ [] }
    {
        if self.ahead_len() == 0 {
            return Next::End;
        }
        self.take_rest();
        Next::Line
    }

    /// Reads as many bytes as there is room for, by one call of the source, and answers how many;
    /// 0 is the end of the source. `Failed` only where the source failed: then the bytes ahead are
    /// as before. No line is found afterwards.
    pub fn read<S: Source>(&mut self, source: &mut S) -> Result<usize, Failed>
        requires { length self.old.ahead < LONGEST }
        ensures call { S.read_step source.old (LONGEST - length self.old.ahead)
            (with_bytes result (drop (length self.old.ahead) self.new.ahead)) source.new }
        ensures ok { IfOk result (PutsAhead (S.remaining source.old) (S.remaining source.new)
            self.old.ahead self.new.ahead) }
        ensures ahead { OnErr result (self.new.ahead ≡ self.old.ahead) }
        ensures kept { OnErr result (Keeps (S.remaining source.old) (S.remaining source.new)) }
        ensures line { self.new.line ≡ [] }
        ensures bound { length self.new.ahead ≤ LONGEST }
        ensures faults { TellsFaults S.Faults.fault_count S.Faults.is_sure
            source.old source.new (IsErr result) }
    {
        let held = self.end - self.start;
        move_to_front(self.buffer.as_mut_slice(), self.start, self.end);
        self.line_start = 0;
        self.line_end = 0;
        self.start = 0;
        self.end = held;
        match read_behind(source, self.buffer.as_mut_slice(), held) {
            Ok(n) => {
                self.end = held + n;
                Ok(n)
            }
            Err(failed) => Err(failed),
        }
    }

    /// Makes the bytes ahead the line found: the last line of a source, which has no line feed.
    pub fn take_rest(&mut self)
        ensures line { self.new.line ≡ self.old.ahead }
        ensures ahead { self.new.ahead ≡ [] }
    {
        self.line_start = self.start;
        self.line_end = self.end;
        self.start = self.end;
    }

    /// The line found last, without its line feed; empty where none was found.
    pub fn line(&self) -> &[u8]
        ensures value { result.now ≡ self.now.line }
        ensures bound { length result.now ≤ LONGEST }
    {
        &self.buffer.as_slice()[self.line_start..self.line_end]
    }

    /// How many bytes were read after the line found last.
    pub fn ahead_len(&self) -> usize
        ensures value { result ≡ length self.now.ahead }
        ensures bound { result ≤ LONGEST }
    {
        self.end - self.start
    }

    /// Whether as many bytes lie ahead as are held at most, so that no more can be read.
    pub fn is_full(&self) -> bool
        ensures full { IsTrue result ↔ (length self.now.ahead ≡ LONGEST) }
        ensures room { OnFalse result (length self.now.ahead < LONGEST) }
    {
        self.end - self.start == LONGEST
    }
}

// How many bytes are compared at once: most lines, with their line feeds, are no longer.
const NEAR: usize = 32;

// The place of the first line feed, which is mostly near.
#[inline]
fn first_line_feed(bytes: &[u8]) -> Option<usize>
    ensures { result ≡ position (λ byte. byte == 10) bytes.now }
{
    if bytes.len() >= NEAR {
        let len = near_line_feed(bytes);
        if len < NEAR {
            return Some(len);
        }
    }
    far_line_feed(bytes)
}

// The same by a search of any length, where few bytes are held or the line is long.
#[inline(never)]
fn far_line_feed(bytes: &[u8]) -> Option<usize>
    ensures { result ≡ position (λ byte. byte == 10) bytes.now }
{
    memchr(b'\n', bytes)
}

// How many of the first `NEAR` bytes come before the first line feed; all where none of them is one.
#[inline]
fn near_line_feed(bytes: &[u8]) -> usize
    requires { NEAR ≤ length bytes.now }
    ensures { result ≡ position_or_len (λ byte. byte == 10) (take NEAR bytes.now) }
{
    let line_feeds = u8x32::from_slice(bytes)
        .simd_eq(u8x32::splat(b'\n'))
        .to_bitmask();
    if line_feeds == 0 {
        return NEAR;
    }
    line_feeds.trailing_zeros() as usize
}

// Moves the bytes from `start` to `end` to the front.
fn move_to_front(bytes: &mut [u8], start: usize, end: usize)
    requires order { start ≤ end }
    requires in_bounds { end ≤ length bytes.old }
    ensures { take (end - start) bytes.new ≡ slice_range bytes.old start end }
{
    if start > 0 {
        bytes.copy_within(start..end, 0);
    }
}

// One read of the source into the bytes behind the first `held`, which stay.
fn read_behind<S: Source>(source: &mut S, bytes: &mut [u8], held: usize) -> Result<usize, Failed>
    requires { held < length bytes.old }
    ensures call { S.read_step source.old (length bytes.old - held)
        (with_bytes result (drop held bytes.new)) source.new }
    ensures front { take held bytes.new ≡ take held bytes.old }
    ensures bound { IfOk result (λ n. held + n ≤ length bytes.new) }
    ensures bytes { ReadConsumes (S.remaining source.old) (S.remaining source.new)
        result (drop held bytes.new) }
    ensures faults { TellsFaults S.Faults.fault_count S.Faults.is_sure
        source.old source.new (IsErr result) }
{
    source.read(&mut bytes[held..])
}
