//! The clients of a relay, which read its text and pass a line by it.

use crate::asserts::MEMORY;
use std::alloc::Global;
use std::io::{BufRead, BufReader, Read, Write};
use std::net::{Ipv4Addr, Net, SocketAddr, TcpListener, TcpStream};
use std::process::Abort;
use std::thread::{Threads, join};

/// What a connection needs.
const SYSTEM: &str = "the system makes a connection";

/// What the first line of a relay does.
const PORT: &str = "the first line names a port";

/// What the clients of one pair saw.
#[derive(Drop)]
pub(crate) struct Seen {
    /// Whether the line of side A was sent.
    pub(crate) sent: bool,
    /// What came to side B.
    pub(crate) came: Option<[u8; 3]>,
    /// The text of the relay behind its first line.
    pub(crate) text: String,
}

/// Both ends of a connection of this machine.
pub(crate) fn joined<R: Net<Listener = TcpListener, Stream = TcpStream> + Abort>(
    rt: &R,
) -> (TcpStream, TcpStream) {
    let any = SocketAddr::from((Ipv4Addr::LOCALHOST, 0));
    let listener = TcpListener::bind(rt, any).expect(rt, SYSTEM);
    let one = client_of(rt, listener.local_addr().expect(rt, SYSTEM).port());
    let (other, _) = listener.accept().expect(rt, SYSTEM);
    (one, other)
}

/// Reads the first line of a relay, then connects two clients, side A first. A sends a line and ends while
/// B reads it, each on a thread; at last the text is read to its end.
pub(crate) fn pass_a_line<R: Net<Stream = TcpStream> + Threads + Sync + Abort>(
    rt: &R,
    alloc: Global,
    text: TcpStream,
) -> Seen {
    let mut reader = BufReader::new(alloc, text).expect(rt, MEMORY);
    let port = listening_port(rt, &mut reader, alloc);
    let a = client_of(rt, port);
    let b = client_of(rt, port);
    let (sent, came) = join(rt, move || send_and_end(a), move || receive_and_end(b));
    let mut text = String::new(alloc);
    reader.read_to_string(&mut text).expect(rt, SYSTEM);
    Seen { sent, came, text }
}

// The port that the first line names.
fn listening_port(rt: &impl Abort, reader: &mut BufReader<TcpStream>, alloc: Global) -> u16 {
    let mut line = String::new(alloc);
    reader.read_line(&mut line).expect(rt, SYSTEM);
    let port = line.as_str().strip_prefix("listening ").expect(rt, PORT);
    let port = port.strip_suffix("\n").expect(rt, PORT);
    port.parse::<u16>().expect(rt, PORT)
}

// A client of the port.
fn client_of<R: Net<Stream = TcpStream> + Abort>(rt: &R, port: u16) -> TcpStream {
    TcpStream::connect(rt, SocketAddr::from((Ipv4Addr::LOCALHOST, port))).expect(rt, SYSTEM)
}

// Sends a line, and ends. Whether it was sent.
fn send_and_end(mut client: TcpStream) -> bool {
    client.write_all(b"ab\n").is_ok()
}

// Reads three bytes, and ends.
fn receive_and_end(mut client: TcpStream) -> Option<[u8; 3]> {
    let mut line = [0u8; 3];
    client.read_exact(&mut line).is_ok().then_some(line)
}
