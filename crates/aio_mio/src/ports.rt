//! A port of this machine.

ghost use Rattle.std.specs.Prelude.{◌≡◌, ◌≢◌, ◌⊎◌, ◌↔◌, false, IfOk};
ghost use Rattle.std.specs.declared.io.ErrorKind.TheVariants.{ConnectionAborted, Interrupted, WouldBlock};
ghost use Rattle.aio_mio.specs.declared.ports.AfterError.TheVariants.{Waits, TriesAgain};

use crate::answers::counted;
use crate::connections::MioConn;
use crate::parts::MioRefusal;
use crate::selector::Selector;
use aio_base::{Failed, Faults, OutOfMemory, Port};
use aio_edges::Edges;
use mio::net::TcpListener;
use mio::{Events, Interest, Poll, Token};
use std::alloc::Global;
use std::io::{self, ErrorKind};
use std::marker::Model;
use std::net::{Ipv4Addr, Net, SocketAddr};
use std::sync::{Arc, Wait};

/// How many turns an accept takes at most.
const TURNS: u32 = 1_000_000;

/// The one listener is all that the poll of a port watches.
const EVENTS: usize = 1;

/// The listener of a port with the poll that watches it, and what the connections share that it accepts.
#[derive(Drop)]
struct Listening {
    poll: Poll,
    events: Events,
    listener: Option<TcpListener>,
    selector: Arc<Selector<Edges>, Global>,
}

impl Listening {
    /// Nothing listens yet. `OutOfMemory` where memory ran out.
    fn new(
        alloc: Global,
        poll: Poll,
        selector: &Arc<Selector<Edges>, Global>,
    ) -> Result<Listening, OutOfMemory> {
        let Ok(events) = Events::with_capacity(alloc, EVENTS) else {
            return Err(OutOfMemory);
        };
        let Ok(selector) = Arc::try_clone(selector) else {
            return Err(OutOfMemory);
        };
        Ok(Listening {
            poll,
            events,
            listener: None,
            selector,
        })
    }

    /// Listens, in place of what listened before. The port in use: the asked one where that is not 0.
    fn listen<R: Net>(&mut self, rt: &R, port: u16) -> io::Result<u16>
        ensures { port ≢ 0 → IfOk result (λ used. used ≡ port) }
    {
        let asked = SocketAddr::from((Ipv4Addr::LOCALHOST, port));
        let mut listener = TcpListener::bind(rt, asked)?;
        let used = if port == 0 {
            listener.local_addr()?.port()
        } else {
            port
        };
        self.poll
            .registry()
            .register(&mut listener, Token(0), Interest::READABLE)?;
        self.listener = Some(listener);
        Ok(used)
    }

    /// The connection that came first of those that nobody took. An error where there is none, where
    /// nothing listens, or where the system refused.
    fn try_accept(&self) -> io::Result<MioConn> {
        let Some(listener) = &self.listener else {
            return Err(io::Error::from(ErrorKind::NotConnected));
        };
        let (stream, _) = listener.accept()?;
        let Ok(selector) = Arc::try_clone(&self.selector) else {
            return Err(io::Error::from(ErrorKind::OutOfMemory));
        };
        let _ = stream.set_nodelay(true);
        Ok(MioConn::new(stream, selector))
    }

    /// The next connection, for which it waits without a limit. An error after the last turn too.
    fn next(&mut self) -> io::Result<MioConn> {
        for _ in 0..TURNS {
            match self.try_accept() {
                Ok(conn) => return Ok(conn),
                Err(error) => match after_error(error.kind()) {
                    AfterError::Waits => self.poll.poll(&mut self.events, None)?,
                    AfterError::TriesAgain => {}
                    AfterError::Fails => return Err(error),
                },
            }
        }
        Err(io::Error::from(ErrorKind::TimedOut))
    }
}

/// What an accept does after an error of the system.
#[derive(Clone, Copy, Debug, PartialEq, Eq)]
enum AfterError {
    /// Nobody is there: it waits for the next client.
    Waits,
    /// It tries again at once: a signal came, or a client went before it was accepted. Others may stand
    /// behind it, of which no event comes any more.
    TriesAgain,
    /// It fails.
    Fails,
}

/// What an accept does after an error of this kind.
fn after_error(kind: ErrorKind) -> AfterError
    ensures waits { result ≡ Waits ↔ kind ≡ WouldBlock }
    ensures again { result ≡ TriesAgain ↔ (kind ≡ Interrupted) ⊎ (kind ≡ ConnectionAborted) }
{
    match kind {
        ErrorKind::WouldBlock => AfterError::Waits,
        ErrorKind::Interrupted | ErrorKind::ConnectionAborted => AfterError::TriesAgain,
        _ => AfterError::Fails,
    }
}

/// What listens on 127.0.0.1 and accepts connections (`async-io` 2, `lib.rs`, `Async<TcpListener>`). It
/// tells neither what it will hand out nor a port of its own, and is never sure.
///
/// Its listener has a poll of its own, so that an accept can wait while nothing else is waited for. What it
/// accepts sends small pieces without delay.
///
/// Contracts see its count of faults.
#[derive(Drop)]
pub struct MioPort<R: Net + Copy> {
    rt: R,
    listening: Listening,
    faults: u64,
}

impl<R: Net + Copy> Model for MioPort<R> {
    ghost use Rattle.aio_mio.specs.Values.{PortValue};

    ghost Value = { PortValue };

    ghost view = { λ p. record { faults = p.faults } };
}

impl<R: Net + Copy> MioPort<R> {
    /// A port that is not bound. `System` where the system refused a poll for its listener, `OutOfMemory`
    /// where memory ran out.
    pub(crate) fn new(
        alloc: Global,
        rt: &R,
        selector: &Arc<Selector<Edges>, Global>,
    ) -> Result<MioPort<R>, MioRefusal>
        ensures { IfOk result (λ port. port.faults ≡ 0) }
    {
        let Ok(poll) = Poll::new(rt) else {
            return Err(MioRefusal::System);
        };
        let Ok(listening) = Listening::new(alloc, poll, selector) else {
            return Err(MioRefusal::OutOfMemory);
        };
        Ok(MioPort {
            rt: *rt,
            listening,
            faults: 0,
        })
    }
}

impl<R: Net + Copy> Faults for MioPort<R> {
    ghost fault_count = { λ p. p.faults };

    ghost is_sure = { λ p. false };

    ghost all_sure = { false };

    ghost sure_below_top = { λ p sure. Prim.cc };

    ghost each_sure = { λ p sure. Prim.cc };

    fn faults(&self) -> u64 {
        self.faults
    }
}

impl<R: Net + Copy> Port for MioPort<R> {
    ghost use Rattle.std.specs.Prelude.{None};

    type C = MioConn;

    ghost waiting = { λ p. None };

    ghost own_port = { λ p. None };

    /// Listens on a port of 127.0.0.1; for 0 the system chooses one that is free.
    fn bind(&mut self, port: u16) -> Result<u16, Failed> {
        let bound = self.listening.listen(&self.rt, port);
        counted(bound, &mut self.faults)
    }

    /// The next connection. It tries before it waits, since several connections may stand behind one event
    /// of the listener, and takes at most 1,000,000 turns.
    fn accept<W: Wait>(&mut self, _rt: &W) -> Result<MioConn, Failed> {
        let accepted = self.listening.next();
        counted(accepted, &mut self.faults)
    }
}
