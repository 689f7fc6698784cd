//! Adapters over std's readers and writers: the trusted edge. What the system gives and takes is not
//! proved.

ghost use Rattle.std.specs.Prelude.{◌≡◌, ◌<◌, ◌≤◌, length, false, None, IfOk, IsErr};
ghost use Rattle.std.specs.Io.KnownBytes.{ReadConsumes, WriteAppends};
ghost use Rattle.aio_base.specs.Devices.{HasCause};
ghost use Rattle.aio_bytes.specs.Adapters.{ReadsBuffered, ReadsBy, WritesBy};
ghost use Rattle.std.specs.Io.Buffered.{reader_buffer};
ghost use Rattle.aio_bytes.specs.Held.{GivesInHand, with_bytes};
ghost use Rattle.aio_bytes.specs.Sinks.{HasFailed};

use crate::memory::copy_front;
use crate::traits::{Sink, SinkRefusal, Source};
use aio_base::{Failed, Faults};
use std::io::{BufRead, BufReader, ErrorKind, Read, Write};
use std::marker::Model;

/// How often a call is tried again that a signal interrupts.
const RETRIES: u32 = 1_000;

/// One read of `reader`, tried again where it is interrupted. `Failed` for any other error, and where
/// it is interrupted at each try.
fn read_retrying<R: Read>(reader: &mut R, buf: &mut [u8]) -> Result<usize, Failed>
    ensures bound { IfOk result (λ n. n ≤ length buf.new) }
    ensures bytes { ReadConsumes (R.remaining reader.old) (R.remaining reader.new) result buf.new }
{
    for _ in 0..=RETRIES {
        match reader.read(buf) {
            Ok(count) => return Ok(count),
            Err(error) => {
                if error.kind() != ErrorKind::Interrupted {
                    return Err(Failed);
                }
            }
        }
    }
    Err(Failed)
}

/// One write to `writer`, tried again where it is interrupted. `Failed` for any other error, where it
/// is interrupted at each try, and where it takes nothing.
fn write_retrying<W: Write>(writer: &mut W, piece: &[u8]) -> Result<usize, Failed>
    ensures bound { IfOk result (λ n. (0 < n) × (n ≤ length piece.now)) }
    ensures bytes { WriteAppends (W.contents writer.old) (W.contents writer.new) result piece.now }
{
    for _ in 0..=RETRIES {
        match writer.write(piece) {
            Ok(0) => return Err(Failed),
            Ok(count) => return Ok(count),
            Err(error) => {
                if error.kind() != ErrorKind::Interrupted {
                    return Err(Failed);
                }
            }
        }
    }
    Err(Failed)
}

/// A source over a reader of std, which tells no bytes, none of them in hand, and is never sure. That
/// its answers are the system's own is not proved.
#[derive(Drop)]
pub struct StdSource<R> {
    inner: R,
    faults: u64,
}

impl<R> Model for StdSource<R> {
    ghost use Rattle.aio_bytes.specs.Adapters.{Adapter};

    ghost Value = { Adapter R };

    ghost view = { λ s. record { inner = s.inner; fault_count = s.faults } };
}

impl<R> StdSource<R> {
    /// A source over `inner`.
    pub fn new(inner: R) -> StdSource<R>
        ensures { result ≡ record { inner = inner; fault_count = 0 } }
    {
        StdSource { inner, faults: 0 }
    }
}

impl<R> Faults for StdSource<R> {
    ghost fault_count = { λ s. s.fault_count };

    ghost is_sure = { λ _. false };

    ghost all_sure = { false };

    fn faults(&self) -> u64 {
        self.faults
    }

    ghost sure_below_top = { λ s sure. Prim.cc };

    ghost each_sure = { λ s sure. Prim.cc };
}

impl<R: Read> Source for StdSource<R> {
    ghost remaining = { λ _. None };

    ghost in_hand = { λ _. 0 };

    ghost read_step = { λ old room answer new. ReadsBy R.remaining old answer new };

    /// None: what the reader holds is not known.
    fn in_hand(&self) -> usize {
        0
    }

    /// One read of the reader, tried again at most 1,000 times where it is interrupted. `Failed` where
    /// the reader fails otherwise or is interrupted at each try; the count of faults then rises by one.
    fn read(&mut self, buf: &mut [u8]) -> Result<usize, Failed>
        requires { 0 < length buf.old }
        ensures step { ReadsBy R.remaining self.old (with_bytes result buf.new) self.new }
        ensures bound { IfOk result (λ n. n ≤ length buf.new) }
        ensures given { GivesInHand 0 (length buf.old) result }
        ensures bytes { ReadConsumes None None result buf.new }
        ensures cause { HasCause self.old.fault_count self.new.fault_count false (IsErr result) }
    {
        let answer = read_retrying(&mut self.inner, buf);
        if answer.is_err() {
            self.faults = self.faults.saturating_add(1);
        }
        answer
    }
}

/// A source over a buffered reader of std: its buffer is in hand. It tells no bytes and is never sure.
/// That the answers of the reader behind the buffer are the system's own is not proved.
#[derive(Drop)]
pub struct BufferedSource<R> {
    inner: BufReader<R>,
    faults: u64,
}

impl<R> Model for BufferedSource<R> {
    ghost use Rattle.std.specs.Global.{Global};
    ghost use Rattle.std.specs.declared.io.buffered.BufReader.{BufReader};
    ghost use Rattle.aio_bytes.specs.Adapters.{Adapter};

    ghost Value = { Adapter (BufReader R Global) };

    ghost view = { λ s. record { inner = s.inner; fault_count = s.faults } };
}

impl<R> BufferedSource<R> {
    /// A source over `inner`.
    pub fn new(inner: BufReader<R>) -> BufferedSource<R>
        ensures { result ≡ record { inner = inner; fault_count = 0 } }
    {
        BufferedSource { inner, faults: 0 }
    }
}

impl<R> Faults for BufferedSource<R> {
    ghost fault_count = { λ s. s.fault_count };

    ghost is_sure = { λ _. false };

    ghost all_sure = { false };

    fn faults(&self) -> u64 {
        self.faults
    }

    ghost sure_below_top = { λ s sure. Prim.cc };

    ghost each_sure = { λ s sure. Prim.cc };
}

impl<R: Read> Source for BufferedSource<R> {
    ghost remaining = { λ _. None };

    ghost in_hand = { λ s. length (reader_buffer s.inner) };

    ghost read_step = { λ old room answer new. ReadsBuffered R.remaining old room answer new };

    /// As many as the buffer holds.
    fn in_hand(&self) -> usize {
        self.inner.buffer().len()
    }

    /// Gives what the buffer holds, as far as there is room. Where it holds nothing it is filled by one
    /// read of the reader behind it, tried again at most 1,000 times where it is interrupted. `Failed`
    /// where that reader fails otherwise or is interrupted at each try; the count of faults then rises
    /// by one.
    fn read(&mut self, buf: &mut [u8]) -> Result<usize, Failed>
        requires { 0 < length buf.old }
        ensures step { ReadsBuffered R.remaining self.old (length buf.old)
            (with_bytes result buf.new) self.new }
        ensures bound { IfOk result (λ n. n ≤ length buf.new) }
        ensures given { GivesInHand (length (reader_buffer self.old.inner))
            (length buf.old) result }
        ensures bytes { ReadConsumes None None result buf.new }
        ensures cause { HasCause self.old.fault_count self.new.fault_count false (IsErr result) }
    {
        let held = self.inner.buffer();
        if !held.is_empty() {
            let count = copy_front(held, buf, buf.len());
            self.inner.consume(count);
            return Ok(count);
        }
        match read_retrying(&mut self.inner, buf) {
            Ok(count) => Ok(count),
            Err(Failed) => {
                self.faults = self.faults.saturating_add(1);
                Err(Failed)
            }
        }
    }
}

/// A sink over a writer of std, which tells no bytes and is never sure. It does not flush: the writer
/// is unbuffered, or the program flushes it. That what it took arrives is not proved.
#[derive(Drop)]
pub struct StdSink<W> {
    inner: W,
    faults: u64,
}

impl<W> Model for StdSink<W> {
    ghost use Rattle.aio_bytes.specs.Adapters.{Adapter};

    ghost Value = { Adapter W };

    ghost view = { λ s. record { inner = s.inner; fault_count = s.faults } };
}

impl<W> StdSink<W> {
    /// A sink over `inner`.
    pub fn new(inner: W) -> StdSink<W>
        ensures { result ≡ record { inner = inner; fault_count = 0 } }
    {
        StdSink { inner, faults: 0 }
    }
}

impl<W> Faults for StdSink<W> {
    ghost fault_count = { λ s. s.fault_count };

    ghost is_sure = { λ _. false };

    ghost all_sure = { false };

    fn faults(&self) -> u64 {
        self.faults
    }

    ghost sure_below_top = { λ s sure. Prim.cc };

    ghost each_sure = { λ s sure. Prim.cc };
}

impl<W: Write> Sink for StdSink<W> {
    ghost contents = { λ _. None };

    ghost write_step = { λ old piece answer new. WritesBy W.contents old piece answer new };

    /// One write to the writer, tried again at most 1,000 times where it is interrupted. `Failed` where
    /// the writer fails otherwise, is interrupted at each try or takes nothing; the count of faults
    /// then rises by one. Never `OutOfMemory`.
    fn write(&mut self, piece: &[u8]) -> Result<usize, SinkRefusal>
        requires { 0 < length piece.now }
        ensures step { WritesBy W.contents self.old piece.now result self.new }
        ensures bound { IfOk result (λ n. (0 < n) × (n ≤ length piece.now)) }
        ensures bytes { WriteAppends None None result piece.now }
        ensures cause { HasCause self.old.fault_count self.new.fault_count
            false (HasFailed result) }
    {
        match write_retrying(&mut self.inner, piece) {
            Ok(count) => Ok(count),
            Err(Failed) => {
                self.faults = self.faults.saturating_add(1);
                Err(SinkRefusal::Failed)
            }
        }
    }
}
