//! The program `aio`: hands its words and its standard streams to the top call, and ends with its
//! exit status.
#![tactic(auto)]

use aio_base::{EventWait, Notify, Port};
use aio_bytes::{BufferedSource, Sink, Source, StdSink, write_all};
use aio_conns::MemPort;
use aio_devices::{MemNotify, MemWait};
use aio_jobs::{Kit, OpenGate, SixDevices, ThreadSpawner};
use aio_mio::{MioRefusal, RealClock, mio_parts};
use aio_run::run;
use std::io::{BufReader, ErrorKind};
use std::process::ExitCode;
use std::rt::Env;
use std::sync::Wait;
use std::thread::Threads;
use std::{env, io, time};

/// How many bytes of standard input are read ahead.
const READ_AHEAD: usize = 65_536;

/// The exit status where memory ran out.
const OUT_OF_MEMORY: u8 = 5;

/// The exit status where a device failed.
const DEVICE_FAULT: u8 = 6;

fn main(rt: HostRuntime) -> ExitCode {
    let alloc = rt.alloc();
    let mut out = StdSink::new(rt.stdout());
    let mut err = StdSink::new(rt.stderr());
    // Words that are no text are no command.
    let words = match command_words(&rt) {
        Ok(words) => words,
        Err(error) if error.kind() == ErrorKind::OutOfMemory => return out_of_memory(&mut err),
        Err(_) => Vec::new(alloc),
    };
    let words = words.as_slice();
    let Ok(reader) = BufReader::with_capacity(alloc, READ_AHEAD, rt.stdin()) else {
        return out_of_memory(&mut err);
    };
    let mut input = BufferedSource::new(reader);
    if !begins_with_relay(words) {
        let parts = (
            MemPort::new(Vec::new(alloc)),
            MemWait::new(0),
            MemNotify::new(),
        );
        return run_over(&rt, words, parts, &mut input, &mut out, &mut err);
    }
    match mio_parts(alloc, &rt) {
        Ok(parts) => run_over(&rt, words, parts, &mut input, &mut out, &mut err),
        Err(MioRefusal::System) => device_fault(&mut err),
        Err(MioRefusal::OutOfMemory) => out_of_memory(&mut err),
    }
}

/// Whether the first word is that of a relay, which alone has sockets.
fn begins_with_relay(words: &[String]) -> bool {
    match words {
        [name, ..] => name.as_str() == "relay",
        [] => false,
    }
}

/// Runs the words over a port, a wait and a notifier, with the machine's clock, an open gate and a
/// spawner that runs jobs on threads.
fn run_over<
    R: Wait + Threads + Sync + Send + Copy + time::Clock + AllocGlobal,
    P: Port + Drop,
    W: EventWait + Send + Drop,
    N: Notify + Send + Drop,
    S: Source,
    K: Sink,
    E: Sink,
>(
    rt: &R,
    words: &[String],
    (port, wait, notify): (P, W, N),
    input: &mut S,
    out: &mut K,
    err: &mut E,
) -> ExitCode
where
    P::C: Send + Drop,
{
    let mut kit = Kit {
        devices: SixDevices {
            port,
            wait,
            notify,
            clock: RealClock::new(rt),
            gate: OpenGate,
            spawner: ThreadSpawner,
        },
    };
    let status = run(rt, rt.alloc(), words, input, out, err, &mut kit);
    ExitCode::from(status.exit)
}

/// The program's words, without its own name.
fn command_words<R: Env + AllocGlobal>(rt: &R) -> io::Result<Vec<String>> {
    let mut words = Vec::new(rt.alloc());
    for word in env::args(rt)?.skip(1) {
        words.push(word)?;
    }
    Ok(words)
}

/// Tells that there is no memory to begin with.
fn out_of_memory<E: Sink>(err: &mut E) -> ExitCode {
    let _ = write_all(err, b"out of memory\n");
    ExitCode::from(OUT_OF_MEMORY)
}

/// Tells that the system refused the sockets' poll.
fn device_fault<E: Sink>(err: &mut E) -> ExitCode {
    let _ = write_all(err, b"device fault\n");
    ExitCode::from(DEVICE_FAULT)
}
