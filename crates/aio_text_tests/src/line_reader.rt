//! Tests of the reader of lines, over a source in memory that gives its bytes in pieces.

ghost use Rattle.std.specs.Prelude.{◌≤◌, length, None, false};

use crate::asserts::{MEMORY, same, same_in};
use aio_base::{Failed, Faults};
use aio_bytes::{LineReader, Next, Source};
use std::alloc::Global;
use std::process::Abort;

/// Bytes in memory, given in pieces of at most `piece`, where `fails` says that the next read fails.
#[derive(Drop)]
struct Pieces<'a> {
    bytes: &'a [u8],
    at: usize,
    piece: usize,
    fails: bool,
    faults: u64,
    ghost within: { at ≤ length bytes.now },
}

impl Faults for Pieces<'_> {
    ghost fault_count = { λ s. s.faults };

    ghost is_sure = { λ _. false };

    ghost all_sure = { false };

    fn faults(&self) -> u64 {
        self.faults
    }

    ghost sure_below_top = { λ _ h. Prim.cc };

    ghost each_sure = { λ _ h. h };
}

impl Source for Pieces<'_> {
    ghost remaining = { λ _. None };

    ghost in_hand = { λ _. 0 };

    ghost read_step = { λ old room answer new. Unit {0} };

    fn in_hand(&self) -> usize {
        0
    }

    fn read(&mut self, buf: &mut [u8]) -> Result<usize, Failed> {
        if self.fails {
            self.fails = false;
            self.faults = self.faults.saturating_add(1);
            return Err(Failed);
        }
        let count = buf.len().min(self.piece).min(self.bytes.len() - self.at);
        buf[..count].copy_from_slice(&self.bytes[self.at..self.at + count]);
        self.at += count;
        Ok(count)
    }
}

fn source_of(bytes: &[u8], piece: usize) -> Pieces<'_> {
    Pieces {
        bytes,
        at: 0,
        piece,
        fails: false,
        faults: 0,
    }
}

/// A reader that has read nothing.
fn reader_of(rt: &impl Abort, alloc: Global) -> LineReader {
    LineReader::new(alloc).expect(rt, MEMORY)
}

/// A mark behind what a reader has, and whether that was the last of it.
type Turn = (&'static [u8], bool);

/// A line.
const A_LINE: Turn = (b"|", false);

/// A line that is too long.
const LONG: Turn = (b"!", true);

/// More bytes were read, and no line is found yet.
const MORE: Turn = (b"", false);

/// A read that failed.
const FAILED: Turn = (b"?", false);

/// The end of the bytes, and what lies ahead of it.
const END: Turn = (b"", true);

/// Finds the next line, or reads more where there is none.
fn take_turn<S: Source>(reader: &mut LineReader, source: &mut S) -> Turn {
    if reader.find_line() {
        return A_LINE;
    }
    if reader.is_full() {
        return LONG;
    }
    match reader.read(source) {
        Ok(0) => {
            reader.take_rest();
            END
        }
        Ok(_) => MORE,
        Err(_) => FAILED,
    }
}

/// Writes a line and a mark.
fn note(rt: &impl Abort, out: &mut Vec<u8>, line: &[u8], mark: &[u8]) {
    out.extend_from_slice(line).expect(rt, MEMORY);
    out.extend_from_slice(mark).expect(rt, MEMORY);
}

/// The lines of the source, each followed by '|', its rest, and '!' where a line is too long.
fn joined<S: Source>(rt: &impl Abort, alloc: Global, source: &mut S) -> Vec<u8> {
    let mut reader = reader_of(rt, alloc);
    let mut out = Vec::new(alloc);
    for _ in 0..2000 {
        let (mark, is_last) = take_turn(&mut reader, source);
        note(rt, &mut out, reader.line(), mark);
        if is_last {
            break;
        }
    }
    out
}

/// Texts, and what their lines join to.
const TEXTS: &[(&[u8], &[u8])] = &[
    (b"", b""),
    (b"a\nbb\nccc\n", b"a|bb|ccc|"),
    (b"first\n\nlast", b"first||last"),
    (b"\n\n", b"||"),
    (b"\r\n\x00\xff\n", b"\r|\x00\xff|"),
    (b"no line feed", b"no line feed"),
    // Lines of 31, 32 and 33 bytes, then one of 3.
    (
        b"1234567890123456789012345678901\n12345678901234567890123456789012\n123456789012345678901234567890123\nend\n",
        b"1234567890123456789012345678901|12345678901234567890123456789012|123456789012345678901234567890123|end|",
    ),
];

/// Asserts what the lines of each of the texts join to, of which a read gives at most `piece` bytes.
fn joins_each(rt: &impl Abort, alloc: Global, piece: usize) {
    for (text, wanted) in TEXTS {
        let found = joined(rt, alloc, &mut source_of(text, piece));
        same_in(rt, piece, found.as_slice(), wanted);
    }
}

#[test]
fn gives_each_line_of_pieces_of_any_size(rt: HostRuntime) {
    for piece in PIECES {
        joins_each(&rt, rt.alloc(), *piece);
    }
}

/// How many bytes a read gives at most.
const PIECES: &[usize] = &[1, 2, 3, 5, 300];

/// A line of so many bytes, with its line feed.
fn line_of(rt: &impl Abort, alloc: Global, len: usize) -> Vec<u8> {
    let mut text = vec![in alloc; b'x'; len].expect(rt, MEMORY);
    text.push(b'\n').expect(rt, MEMORY);
    text
}

/// How many bytes a text joins to, the last of them, and how many bytes of the text were read.
type Taken = (usize, Option<u8>, usize);

fn taken(rt: &impl Abort, alloc: Global, text: &[u8], piece: usize) -> Taken {
    let mut source = source_of(text, piece);
    let found = joined(rt, alloc, &mut source);
    (found.len(), found.last().copied(), source.at)
}

/// Asserts what a line of so many bytes joins to, which is read up to its 257th byte.
fn takes(rt: &impl Abort, alloc: Global, len: usize, wanted: Taken) {
    let text = line_of(rt, alloc, len);
    for piece in [1, 300] {
        same_in(rt, len, taken(rt, alloc, text.as_slice(), piece), wanted);
    }
}

/// The lengths of lines, and what is taken of each.
const TAKEN: &[(usize, Taken)] = &[
    (256, (257, Some(b'|'), 257)),
    (257, (1, Some(b'!'), 257)),
    (300, (1, Some(b'!'), 257)),
];

#[test]
fn takes_a_line_of_256_bytes_and_no_longer_one(rt: HostRuntime) {
    for (len, wanted) in TAKEN {
        takes(&rt, rt.alloc(), *len, *wanted);
    }
}

/// Asserts what a read comes to that has room, and how many bytes lie ahead then.
fn reads<S: Source>(
    rt: &impl Abort,
    reader: &mut LineReader,
    source: &mut S,
    wanted: (Result<usize, Failed>, usize),
) {
    assert!(rt; !reader.is_full());
    let answer = reader.read(source);
    same(rt, (answer, reader.ahead_len()), wanted);
}

/// Asserts that the reader finds this line, or none, and how many bytes lie ahead then.
fn finds(rt: &impl Abort, reader: &mut LineReader, wanted: (bool, &[u8], usize)) {
    let found = reader.find_line();
    same(rt, (found, reader.line(), reader.ahead_len()), wanted);
}

/// Asserts what is found without a read, and the line that it is.
fn finds_ahead(rt: &impl Abort, reader: &mut LineReader, wanted: (Option<Next>, &[u8])) {
    let found = reader.next_ahead();
    same(rt, (found, reader.line()), wanted);
}

/// Asserts what comes next of the source, and the line that it is.
fn finds_next<S: Source>(
    rt: &impl Abort,
    reader: &mut LineReader,
    source: &mut S,
    wanted: (Result<Next, Failed>, &[u8]),
) {
    let found = reader.next(source);
    same(rt, (found, reader.line()), wanted);
}

/// What is done with a reader and its source, and what comes of it.
#[derive(Clone, Copy)]
enum Act {
    /// Reads, where there is room: what that comes to, and how many bytes lie ahead then.
    Read(Result<usize, Failed>, usize),
    /// Has the next read fail.
    FailNext,
    /// Counts the faults of the source.
    Faults(u64),
    /// Finds a line, or none: whether it did, the line, and how many bytes lie ahead then.
    Find(bool, &'static [u8], usize),
    /// Finds what is there without a read: what it is, and the line.
    Ahead(Option<Next>, &'static [u8]),
    /// Finds what there is behind the last read.
    Last(Next),
    /// Finds what comes next by as many reads as it takes: what it is, and the line.
    Next(Result<Next, Failed>, &'static [u8]),
    /// Looks at the line.
    Line(&'static [u8]),
    /// Takes the rest: the line that it is, and how many bytes lie ahead then.
    Rest(&'static [u8], usize),
}

/// Does this, and asserts what comes of it.
fn comes_to(rt: &impl Abort, reader: &mut LineReader, source: &mut Pieces<'_>, act: Act) {
    match act {
        Act::Read(answer, ahead) => reads(rt, reader, source, (answer, ahead)),
        Act::FailNext => source.fails = true,
        Act::Faults(count) => same(rt, source.faults(), count),
        Act::Find(is_found, line, ahead) => finds(rt, reader, (is_found, line, ahead)),
        Act::Ahead(next, line) => finds_ahead(rt, reader, (next, line)),
        Act::Last(next) => same(rt, reader.last(), next),
        Act::Next(answer, line) => finds_next(rt, reader, source, (answer, line)),
        Act::Line(line) => same(rt, reader.line(), line),
        Act::Rest(line, ahead) => {
            reader.take_rest();
            same(rt, (reader.line(), reader.ahead_len()), (line, ahead));
        }
    }
}

/// Asserts what these acts come to with a new reader, one after the other.
fn plays(rt: &impl Abort, alloc: Global, source: &mut Pieces<'_>, acts: &[Act]) {
    let mut reader = reader_of(rt, alloc);
    for act in acts {
        comes_to(rt, &mut reader, source, *act);
    }
}

const SEVERAL_LINES: &[Act] = &[
    Act::Read(Ok(6), 6),
    Act::Find(true, b"a", 4),
    Act::Find(true, b"bb", 1),
    Act::Find(false, b"", 1),
];

#[test]
fn finds_several_lines_of_one_read(rt: HostRuntime) {
    let mut source = source_of(b"a\nbb\nc", 300);
    plays(&rt, rt.alloc(), &mut source, SEVERAL_LINES);
}

const FOUND_NEXT: &[Act] = &[
    Act::Ahead(None, b""),
    Act::Read(Ok(4), 4),
    Act::Ahead(Some(Next::Line), b"a"),
    Act::Ahead(None, b""),
    Act::Read(Ok(0), 2),
    Act::Last(Next::Line),
    Act::Line(b"bb"),
    Act::Last(Next::End),
];

#[test]
fn tells_what_is_found_next(rt: HostRuntime) {
    let mut source = source_of(b"a\nbb", 300);
    plays(&rt, rt.alloc(), &mut source, FOUND_NEXT);
}

const OVER_A_FAILED_READ: &[Act] = &[
    Act::Read(Ok(5), 5),
    Act::Find(true, b"one", 1),
    Act::FailNext,
    Act::Read(Err(Failed), 1),
    Act::Faults(1),
    Act::Read(Ok(2), 3),
    Act::Rest(b"two", 0),
];

#[test]
fn keeps_what_lies_ahead_over_a_failed_read(rt: HostRuntime) {
    let mut source = source_of(b"one\ntwo", 5);
    plays(&rt, rt.alloc(), &mut source, OVER_A_FAILED_READ);
}

// Three bytes a read: the first line comes with one, the second lies in two, and the last lacks its line
// feed.
const NEXT_OF_TORN_LINES: &[Act] = &[
    Act::Next(Ok(Next::Line), b"a"),
    Act::FailNext,
    Act::Next(Err(Failed), b""),
    Act::Faults(1),
    Act::Next(Ok(Next::Line), b"bb"),
    Act::Next(Ok(Next::Line), b"last"),
    Act::Next(Ok(Next::End), b""),
];

const NEXT_OF_NOTHING: &[Act] = &[
    Act::Next(Ok(Next::End), b""),
    Act::FailNext,
    Act::Next(Err(Failed), b""),
    Act::Next(Ok(Next::End), b""),
    Act::Faults(1),
];

#[test]
fn finds_the_next_line_over_torn_and_failed_reads(rt: HostRuntime) {
    let mut source = source_of(b"a\nbb\nlast", 3);
    plays(&rt, rt.alloc(), &mut source, NEXT_OF_TORN_LINES);
    let mut nothing = source_of(b"", 3);
    plays(&rt, rt.alloc(), &mut nothing, NEXT_OF_NOTHING);
}
