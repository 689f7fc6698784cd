//! A connection between a port and a client of the test, and what is done with its two ends.

ghost use Rattle.std.specs.Prelude.{◌<◌};

use aio_base::{Arm, Conn, Did, Event, EventWait, Failed, Interest, Key, Port};
use aio_mio::{MioConn, MioNotify, MioPort, MioWait, mio_parts};
use std::alloc::Global;
use std::io::{Read, Write};
use std::net::{Ipv4Addr, Net, SocketAddr, TcpStream};
use std::process::Abort;
use std::sync::Wait;

/// Ten seconds in nanoseconds, after which a wait for what should come gives up.
pub(crate) const LONG: Option<u64> = Some(10_000_000_000);

/// A connection, its client, and what waits for its events.
#[derive(Drop)]
pub(crate) struct Joined<R: Net + Copy> {
    pub(crate) port: MioPort<R>,
    pub(crate) wait: MioWait,
    pub(crate) notify: MioNotify,
    pub(crate) conn: MioConn,
    pub(crate) client: TcpStream,
    /// The port in use.
    pub(crate) used: u16,
}

/// A client of the port in use.
pub(crate) fn client_of<R: Net<Stream = TcpStream> + Abort>(rt: &R, used: u16) -> TcpStream {
    let address = SocketAddr::from((Ipv4Addr::LOCALHOST, used));
    TcpStream::connect(rt, address).expect(rt, "a client")
}

/// The next connection of a port.
pub(crate) fn accepted<R: Net + Copy + Wait + Abort>(rt: &R, port: &mut MioPort<R>) -> MioConn {
    port.accept(rt).expect(rt, "a connection")
}

/// A connection whose key is not told yet.
pub(crate) fn connected<R: Net<Stream = TcpStream> + Copy + Wait + Abort>(
    rt: &R,
    alloc: Global,
) -> Joined<R> {
    let (mut port, wait, notify) = mio_parts(alloc, rt).expect(rt, "devices");
    let used = port.bind(0).expect(rt, "a port");
    let client = client_of(rt, used);
    let conn = accepted(rt, &mut port);
    Joined {
        port,
        wait,
        notify,
        conn,
        client,
        used,
    }
}

/// One wait with room for one event: the event, where it gave one.
pub(crate) fn one_event(
    wait: &mut MioWait,
    alloc: Global,
    limit: Option<u64>,
) -> Result<Option<Event>, Failed> {
    let Ok(mut out) = Vec::with_capacity(alloc, 1) else {
        return Err(Failed);
    };
    wait.wait(&mut out, 1, limit)?;
    Ok(out.pop())
}

/// What one read with room for eight bytes came to, and the first byte of that room.
pub(crate) fn read_some(conn: &mut MioConn) -> (Result<Did, Failed>, u8) {
    let mut buf = [0u8; 8];
    let did = conn.read(&mut buf);
    (did, buf[0])
}

/// Registers a connection under a key and arms it.
pub(crate) fn watch(conn: &mut MioConn, key: u32, on: Interest) -> Result<(), Failed>
    requires { key < 4096 }
{
    conn.add(Key(key))?;
    conn.arm(Key(key), on)
}

/// Sends these bytes to the connection at once. Whether they were sent.
pub(crate) fn send_all(client: &mut TcpStream, bytes: &[u8]) -> bool {
    client.write_all(bytes).is_ok()
}

/// How often the end is asked for before a test gives up.
const TURNS: u32 = 10;

/// Reads until the end, arming under key 9 and waiting before each read. Whether the end came.
pub(crate) fn comes_to_its_end<R: Net + Copy>(j: &mut Joined<R>, alloc: Global) -> bool {
    for _ in 0..TURNS {
        if j.conn.arm(Key(9), Interest::READ).is_err()
            || one_event(&mut j.wait, alloc, LONG).is_err()
        {
            return false;
        }
        if read_some(&mut j.conn).0 == Ok(Did::Bytes(0)) {
            return true;
        }
    }
    false
}

/// Many bytes.
pub(crate) const PIECE: usize = 65_536;

/// What one read with room for a piece came to, and the first byte of that room.
pub(crate) fn read_piece(conn: &mut MioConn) -> (Result<Did, Failed>, u8) {
    let mut buf = [0u8; PIECE];
    let did = conn.read(&mut buf);
    (did, buf[0])
}

/// Writes pieces until one is blocked. How many bytes went over; `None` where a write failed or none was
/// blocked.
fn fill(conn: &mut MioConn) -> Option<usize> {
    let piece = [7u8; PIECE];
    let mut sent = 0usize;
    for _ in 0..10_000 {
        match conn.write(&piece) {
            Ok(Did::Bytes(count)) => sent = sent.saturating_add(count),
            Ok(Did::Blocked) => return Some(sent),
            Err(_) => return None,
        }
    }
    None
}

/// Reads so many bytes. Whether they came.
fn drain(client: &mut TcpStream, bytes: usize) -> bool {
    let mut piece = [0u8; PIECE];
    let mut left = bytes;
    for _ in 0..u32::MAX {
        if left == 0 {
            return true;
        }
        match client.read(&mut piece) {
            Ok(0) | Err(_) => return false,
            Ok(count) => left = left.saturating_sub(count),
        }
    }
    false
}

/// Writes until a write is blocked, arms under key 1, and has the client read what was written. Whether all of
/// it was done.
pub(crate) fn fill_and_drain(conn: &mut MioConn, client: &mut TcpStream) -> bool {
    match fill(conn) {
        Some(sent) => conn.arm(Key(1), Interest::WRITE).is_ok() && drain(client, sent),
        None => false,
    }
}
