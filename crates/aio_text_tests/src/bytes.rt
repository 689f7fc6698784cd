//! What no clause says: that calls succeed where memory is left, and how often an adapter tries again.

use crate::asserts::{MEMORY, same, same_in};
use aio_base::{Failed, Faults};
use aio_bytes::{
    BufferedSource, MemSink, MemSource, Sink, SinkRefusal, Source, StdSink, StdSource, SureSink,
    SureSource, write_all,
};
use std::io::{self, BufReader, ErrorKind};
use std::process::Abort;

/// Asserts that a sink takes all of these bytes.
fn writes<K: Sink>(rt: &impl Abort, sink: &mut K, bytes: &[u8]) {
    same(rt, write_all(sink, bytes), Ok(()));
}

/// Writes a word in pieces, of which the first is one call, and the last is empty.
fn writes_hello<K: Sink>(rt: &impl Abort, sink: &mut K) {
    same(rt, sink.write(b"hel"), Ok(3));
    writes(rt, sink, b"lo");
    writes(rt, sink, b"");
}

#[test]
fn sinks_in_memory_hold_what_was_written(rt: HostRuntime) {
    let mut scripted = MemSink::new(rt.alloc(), Vec::new(rt.alloc()));
    writes_hello(&rt, &mut scripted);
    same(&rt, scripted.bytes(), b"hello".as_slice());
    let mut sure = SureSink::new(rt.alloc());
    writes_hello(&rt, &mut sure);
    same(&rt, sure.bytes(), b"hello".as_slice());
}

/// Bytes that are written at once, what comes of it, and what the sink holds then.
type Written = (&'static [u8], Result<(), SinkRefusal>, &'static [u8]);

const FAILS_AT_ITS_SECOND_CALL: &[Written] = &[
    (b"ab", Ok(()), b"ab"),
    (b"cd", Err(SinkRefusal::Failed), b"ab"),
    (b"ef", Ok(()), b"abef"),
];

/// Asserts what comes of bytes that are written at once, and what the sink holds then.
fn writes_so(rt: &impl Abort, sink: &mut MemSink, (bytes, answer, held): Written) {
    let wrote = write_all(sink, bytes);
    same(rt, (wrote, sink.bytes()), (answer, held));
}

#[test]
fn a_scripted_sink_fails_at_its_second_call_alone(rt: HostRuntime) {
    let fails = [2].to_vec(rt.alloc()).expect(&rt, MEMORY);
    let mut sink = MemSink::new(rt.alloc(), fails);
    for written in FAILS_AT_ITS_SECOND_CALL {
        writes_so(&rt, &mut sink, *written);
    }
    same(&rt, sink.faults(), 1);
}

/// What a read with room for two bytes answers, and the two bytes then.
type Read = (Result<usize, Failed>, [u8; 2]);

fn read_two<S: Source>(source: &mut S) -> Read {
    let mut buf = [0; 2];
    let answer = source.read(&mut buf);
    (answer, buf)
}

/// Asserts what reads come to, one after the other, and how many bytes are in hand behind each.
fn reads<S: Source>(rt: &impl Abort, source: &mut S, rows: &[(Read, usize)]) {
    for row in rows {
        let read = read_two(source);
        same(rt, (read, source.in_hand()), *row);
    }
}

/// Asserts what a read comes to, and how many faults are counted then.
fn counts<S: Source>(rt: &impl Abort, source: &mut S, wanted: (Read, u64)) {
    let read = read_two(source);
    same(rt, (read, source.faults()), wanted);
}

/// The end of the bytes.
const END: (Read, usize) = ((Ok(0), [0, 0]), 0);

/// A read that fails.
const FAILS: Read = (Err(Failed), [0, 0]);

const AFTER_A_FAILING_CALL: &[(Read, usize)] = &[
    ((Ok(1), [b'a', 0]), 0),
    (FAILS, 0),
    ((Ok(1), [b'b', 0]), 0),
    END,
];

#[test]
fn a_scripted_source_goes_on_after_a_failing_call(rt: HostRuntime) {
    let bytes = b"ab".to_vec(rt.alloc()).expect(&rt, MEMORY);
    let fails = [2].to_vec(rt.alloc()).expect(&rt, MEMORY);
    let mut source = MemSource::new(bytes, 1, fails);
    reads(&rt, &mut source, AFTER_A_FAILING_CALL);
    same(&rt, source.faults(), 1);
}

const WHAT_FITS: &[(Read, usize)] = &[((Ok(2), *b"ab"), 1), ((Ok(1), [b'c', 0]), 0), END];

#[test]
fn a_sure_source_gives_what_fits(rt: HostRuntime) {
    let bytes = b"abc".to_vec(rt.alloc()).expect(&rt, MEMORY);
    reads(&rt, &mut SureSource::new(bytes), WHAT_FITS);
}

#[test]
fn an_adapter_hands_on_what_it_reads(rt: HostRuntime) {
    let mut source = StdSource::new(b"abc".as_slice());
    counts(&rt, &mut source, ((Ok(2), *b"ab"), 0));
}

#[test]
fn an_adapter_hands_on_what_is_written(rt: HostRuntime) {
    let mut written = Vec::new(rt.alloc());
    let mut sink = StdSink::new(&mut written);
    writes_hello(&rt, &mut sink);
    same(&rt, sink.faults(), 0);
    same(&rt, written.as_slice(), b"hello".as_slice());
}

const BEHIND_A_BUFFER: &[(Read, usize)] = &[
    ((Ok(2), *b"ab"), 2),
    ((Ok(2), *b"cd"), 0),
    ((Ok(1), [b'e', 0]), 0),
    END,
];

#[test]
fn a_buffered_source_has_its_buffer_in_hand(rt: HostRuntime) {
    let reader = BufReader::with_capacity(rt.alloc(), 4, b"abcde".as_slice());
    let mut source = BufferedSource::new(reader.expect(&rt, MEMORY));
    same(&rt, source.in_hand(), 0);
    reads(&rt, &mut source, BEHIND_A_BUFFER);
}

#[test]
fn a_buffered_source_counts_the_faults_behind_its_buffer(rt: HostRuntime) {
    let halting = Halting::new(ErrorKind::WouldBlock, 1);
    let reader = BufReader::with_capacity(rt.alloc(), 4, halting);
    let mut source = BufferedSource::new(reader.expect(&rt, MEMORY));
    counts(&rt, &mut source, (FAILS, 1));
    counts(&rt, &mut source, ((Ok(1), [b'x', 0]), 1));
}

/// A reader and writer whose first tries end in an error of this kind, and which then moves a byte.
#[derive(Drop)]
struct Halting {
    kind: ErrorKind,
    errors: u32,
    tries: u32,
}

impl Halting {
    fn new(kind: ErrorKind, errors: u32) -> Halting {
        Halting {
            kind,
            errors,
            tries: 0,
        }
    }

    fn turn(&mut self) -> io::Result<()> {
        self.tries = self.tries.saturating_add(1);
        if self.tries <= self.errors {
            return Err(io::Error::from(self.kind));
        }
        Ok(())
    }
}

impl io::Read for Halting {
    fn read(&mut self, buf: &mut [u8]) -> io::Result<usize> {
        self.turn()?;
        match buf.first_mut() {
            Some(byte) => {
                *byte = b'x';
                Ok(1)
            }
            None => Ok(0),
        }
    }
}

impl io::Write for Halting {
    fn write(&mut self, buf: &[u8]) -> io::Result<usize> {
        self.turn()?;
        Ok(buf.len().min(1))
    }

    fn flush(&mut self) -> io::Result<()> {
        Ok(())
    }
}

/// The kind and number of the errors, whether the call answers `Ok`, and how many tries it makes.
type Halt = (ErrorKind, u32, bool, u32);

const HALTS: &[Halt] = &[
    (ErrorKind::Interrupted, 0, true, 1),
    (ErrorKind::Interrupted, 3, true, 4),
    (ErrorKind::Interrupted, 1_000, true, 1_001),
    (ErrorKind::Interrupted, 2_000, false, 1_001),
    (ErrorKind::WouldBlock, 1, false, 1),
];

/// What a read over so many errors comes to, with the faults and the tries then.
fn read_past(kind: ErrorKind, errors: u32) -> (Read, u64, u32) {
    let mut halting = Halting::new(kind, errors);
    let mut source = StdSource::new(&mut halting);
    let read = read_two(&mut source);
    let faults = source.faults();
    (read, faults, halting.tries)
}

/// What a write over so many errors comes to, in the same way.
fn write_past(kind: ErrorKind, errors: u32) -> (Result<usize, SinkRefusal>, u64, u32) {
    let mut halting = Halting::new(kind, errors);
    let mut sink = StdSink::new(&mut halting);
    let answer = sink.write(b"xy");
    let faults = sink.faults();
    (answer, faults, halting.tries)
}

/// Asserts that a read and a write over so many errors succeed, or both fail, after so many tries.
fn halts(rt: &impl Abort, kind: ErrorKind, errors: u32, is_ok: bool, tries: u32) {
    let (read, written, faults) = if is_ok {
        ((Ok(1), [b'x', 0]), Ok(1), 0)
    } else {
        (FAILS, Err(SinkRefusal::Failed), 1)
    };
    same_in(rt, errors, read_past(kind, errors), (read, faults, tries));
    same_in(
        rt,
        errors,
        write_past(kind, errors),
        (written, faults, tries),
    );
}

#[test]
fn adapters_try_again_where_they_are_interrupted(rt: HostRuntime) {
    for (kind, errors, is_ok, tries) in HALTS {
        halts(&rt, *kind, *errors, *is_ok, *tries);
    }
}

/// A writer that takes nothing.
#[derive(Drop)]
struct Full;

impl io::Write for Full {
    fn write(&mut self, _buf: &[u8]) -> io::Result<usize> {
        Ok(0)
    }

    fn flush(&mut self) -> io::Result<()> {
        Ok(())
    }
}

#[test]
fn a_writer_that_takes_nothing_is_a_fault(rt: HostRuntime) {
    let mut sink = StdSink::new(Full);
    same(&rt, write_all(&mut sink, b"a"), Err(SinkRefusal::Failed));
    same(&rt, sink.faults(), 1);
}
