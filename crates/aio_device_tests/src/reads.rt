//! What a read behind another one comes to over a reader in memory.

use crate::asserts::{same, same_in};
use crate::joined::PIECE;
use aio_base::Did;
use aio_mio::{ReadOn, read_on};
use std::io::Read;
use std::process::Abort;

/// As many bytes as a first read gives that is followed by another one.
const FIRST: &[u8] = &[7; 4_096];

/// What comes after them.
const REST: &[u8] = b"abc";

/// Asserts that a read behind so many bytes comes to so many in all, of which it gave so many.
fn reads_on<R: Read>(
    rt: &impl Abort,
    reader: &mut R,
    buf: &mut [u8; PIECE],
    behind: usize,
    gives: usize,
) {
    let wanted = ReadOn {
        count: behind.saturating_add(gives),
        second: Ok(Did::Bytes(gives)),
    };
    let found = read_on(reader, &mut buf[..], behind.min(PIECE));
    same_in(rt, behind, found, wanted);
}

#[test]
fn a_read_behind_another_adds_its_bytes(rt: HostRuntime) {
    let mut reader = FIRST.chain(REST);
    let mut buf = [0u8; PIECE];
    let first = reader.read(&mut buf).ok();
    same(&rt, first, Some(4_096));
    reads_on(&rt, &mut reader, &mut buf, 4_096, 3);
    same(&rt, &buf[4_095..4_100], b"\x07abc\0".as_slice());
    reads_on(&rt, &mut reader, &mut buf, 4_099, 0);
}
