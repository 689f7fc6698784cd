//! A connection over a TCP stream.

ghost use Rattle.std.specs.Prelude.{◌≡◌, ◌≤◌, length, false, true, IsErr, OnOk, OnErr};
ghost use Rattle.aio_base.specs.declared.names.TheConstants.Interest.{READ_WRITE};
ghost use Rattle.aio_base.specs.declared.names.TheConstants.Interest.{NONE};
ghost use Rattle.aio_base.specs.Devices.{HasCause};
ghost use Rattle.aio_mio.specs.Answers.{KeepsOk};
ghost use Rattle.aio_mio.specs.Names.{watched_after};

use crate::answers::{counted, went_dry};
use crate::names::{asks_for_any, token_of, watch_all};
use crate::reads::{read_from, read_on, write_to};
use crate::selector::Selector;
use aio_base::{Arm, Conn, Did, Dir, Failed, Faults, Interest, Key, Tells};
use aio_edges::Edges;
use mio::net::TcpStream;
use std::alloc::Global;
use std::io;
use std::marker::Model;
use std::sync::Arc;

/// How many bytes a read that left room must have given, so that the system is asked once more.
const MANY: usize = 4_096;

/// A connection that a `MioPort` accepted (`async-io` 2, `lib.rs`, `Async<TcpStream>`). It tells neither
/// its bytes nor its interests, and is never sure or prompt. One thread at a time makes calls of it; its
/// events come to the `MioWait` that was made with the port.
///
/// Contracts see its key, the directions that the system watches, and its count of faults.
#[derive(Drop)]
pub struct MioConn {
    stream: TcpStream,
    selector: Arc<Selector<Edges>, Global>,
    key: Key,
    // The key under which the system watches the stream; `None` while it is not registered.
    watched_as: Option<Key>,
    faults: u64,
    // The system told an error behind the bytes that the last read gave: the next one fails by it.
    late: bool,
}

impl Model for MioConn {
    ghost use Rattle.aio_mio.specs.Names.{watched_by};
    ghost use Rattle.aio_mio.specs.Values.{ConnValue};

    ghost Value = { ConnValue };

    ghost view = { λ c. record {
      key = c.key;
      watched = watched_by c.watched_as;
      faults = c.faults;
    } };
}

impl MioConn {
    /// A connection that is not registered, under key 0.
    pub(crate) fn new(stream: TcpStream, selector: Arc<Selector<Edges>, Global>) -> MioConn
        ensures faults { result.faults ≡ 0 }
        ensures watched { result.watched ≡ NONE }
    {
        MioConn {
            stream,
            selector,
            key: Key(0),
            watched_as: None,
            faults: 0,
            late: false,
        }
    }

    /// Takes this key, under which all may be ready and nothing is armed.
    fn take_key(&mut self, key: Key)
        ensures key { self.new.key ≡ key }
        ensures faults { self.new.faults ≡ self.old.faults }
        ensures watched { self.new.watched ≡ self.old.watched }
    {
        self.key = key;
        self.selector.edges.join(key);
    }

    /// Whether the system watches the stream under its key.
    fn is_watched(&self) -> bool
        ensures watched { result ≡ true → self.now.watched ≡ READ_WRITE }
        ensures none { self.now.watched ≡ NONE → result ≡ false }
    {
        match self.watched_as {
            Some(key) => key == self.key,
            None => false,
        }
    }

    /// Arms these directions and no other. The system is called only where they ask for one that it does not watch.
    /// An error leaves what it watches as it was.
    fn arm_for(&mut self, on: Interest) -> io::Result<()>
        ensures watched { OnOk result (self.new.watched ≡ watched_after self.old.watched on) }
        ensures stays { OnErr result (self.new.watched ≡ self.old.watched) }
        ensures key { self.new.key ≡ self.old.key }
        ensures faults { self.new.faults ≡ self.old.faults }
    {
        if asks_for_any(on) && !self.is_watched() {
            self.selector.edges.expect(self.key, on);
            return self.register();
        }
        self.selector.arm(self.key, on)
    }

    /// Registers the stream under its key for all that the system tells, by which it tells what is ready. After an
    /// error nothing is armed.
    fn register(&mut self) -> io::Result<()>
        ensures watched { OnOk result (self.new.watched ≡ READ_WRITE) }
        ensures stays { OnErr result (self.new.watched ≡ self.old.watched) }
        ensures key { self.new.key ≡ self.old.key }
        ensures faults { self.new.faults ≡ self.old.faults }
    {
        let token = token_of(self.key);
        let registry = &self.selector.registry;
        let registered = if self.watched_as.is_none() {
            registry.register(&mut self.stream, token, watch_all())
        } else {
            registry.reregister(&mut self.stream, token, watch_all())
        };
        if registered.is_ok() {
            self.watched_as = Some(self.key);
        } else {
            self.selector.edges.disarm(self.key);
        }
        registered
    }

    /// Takes the registration back, where there is one. Nothing is armed.
    fn deregister(&mut self) -> io::Result<()>
        ensures watched { self.new.watched ≡ NONE }
        ensures faults { self.new.faults ≡ self.old.faults }
    {
        self.selector.edges.disarm(self.key);
        if self.watched_as.is_none() {
            return Ok(());
        }
        self.watched_as = None;
        self.selector.registry.deregister(&mut self.stream)
    }

    /// Whether the system is to be asked whether something goes over in this direction. It always is where
    /// it does not watch the stream, since no event would tell of it.
    fn may_move(&self, dir: Dir) -> bool
        ensures { self.now.watched ≡ NONE → result ≡ true }
    {
        !self.is_watched() || self.selector.edges.take(self.key, dir)
    }

    /// After a call with this answer that had room for so many bytes: the direction may still be ready, unless the
    /// call saw the system run dry. Where a wait cannot be told so, that is a fault.
    fn keep_unless_dry(&mut self, dir: Dir, answer: Result<Did, Failed>, room: usize)
        ensures key { self.new.key ≡ self.old.key }
        ensures watched { self.new.watched ≡ self.old.watched }
        ensures faults { HasCause self.old.faults self.new.faults false ⊥ }
    {
        if went_dry(answer, room, self.selector.edges.is_unsure(self.key)) {
            return;
        }
        let told = self.selector.keep(self.key, dir);
        let _ = counted(told, &mut self.faults);
    }

    /// One more read, behind the first `count` bytes of a buffer, which the read before gave. How many
    /// bytes there are then. Of an end or an error behind them the next read tells: the system tells an
    /// end again, and an error only once.
    fn read_more(&mut self, buf: &mut [u8], count: usize) -> usize
        requires { count ≤ length buf.old }
        ensures bound { result ≤ length buf.new }
        ensures faults { HasCause self.old.faults self.new.faults false ⊥ }
    {
        let read = read_on(&mut self.stream, buf, count);
        self.late = read.second.is_err();
        self.keep_unless_dry(Dir::Read, read.second, buf.len() - count);
        read.count
    }

    /// What a call with room for so many bytes came to: its fault is counted, and where it did not see the
    /// system run dry, the direction may still be ready.
    fn settle(&mut self, dir: Dir, did: io::Result<Did>, room: usize) -> Result<Did, Failed>
        ensures answer { KeepsOk did result }
        ensures cause { HasCause self.old.faults self.new.faults false (IsErr result) }
    {
        let answer = counted(did, &mut self.faults);
        self.keep_unless_dry(dir, answer, room);
        answer
    }
}

impl Faults for MioConn {
    ghost fault_count = { λ c. c.faults };

    ghost is_sure = { λ c. false };

    ghost all_sure = { false };

    ghost sure_below_top = { λ c sure. Prim.cc };

    ghost each_sure = { λ c sure. Prim.cc };

    fn faults(&self) -> u64 {
        self.faults
    }
}

impl Arm for MioConn {
    ghost use Rattle.std.specs.Prelude.{None, false};
    ghost use Rattle.aio_base.specs.Connections.{rest_of, untold};
    ghost use Rattle.aio_mio.specs.Arms.{ArmsStream};

    ghost interests = { λ c. None };

    ghost rest = { λ c. rest_of false untold };

    ghost arm_step = { ArmsStream };

    /// Takes the key. The system hears of it at the first arm, so that this never fails.
    fn add(&mut self, key: Key) -> Result<(), Failed> {
        self.take_key(key);
        Ok(())
    }

    /// Registers the stream at the first call that names reading or writing, and under another key anew. Each
    /// other call leaves the system alone: where an edge came of a direction that is armed now, the next wait gives
    /// it. Urgent readiness is armed for nothing, since no event tells it.
    fn arm(&mut self, key: Key, on: Interest) -> Result<(), Failed> {
        if key != self.key {
            self.take_key(key);
        }
        let armed = self.arm_for(on);
        counted(armed, &mut self.faults)
    }

    /// Takes the registration back; the system is not asked where there is none. Nothing is armed.
    fn remove(&mut self, _key: Key) -> Result<(), Failed> {
        let done = self.deregister();
        counted(done, &mut self.faults)
    }
}

impl Tells for MioConn {
    ghost use Rattle.aio_base.specs.Connections.{untold};

    ghost telling = { λ c. untold };

    ghost left_is_bounded = { λ c. tt };
}

impl Conn for MioConn {
    ghost use Rattle.std.specs.Prelude.{⊤, refl};

    ghost conn_step = { λ old move new. ⊤ };

    /// Blocked at once where it is known that there is nothing to read; else one read of the system, and
    /// one more where that gave many bytes and left room: a sender that a full queue held back goes on as
    /// soon as a read makes room, often before that read has returned.
    fn read(&mut self, buf: &mut [u8]) -> Result<Did, Failed> {
        if self.late {
            self.late = false;
            return counted(Err(Failed), &mut self.faults);
        }
        if !self.may_move(Dir::Read) {
            return Ok(Did::Blocked);
        }
        let did = read_from(&mut self.stream, buf);
        match self.settle(Dir::Read, did, buf.len()) {
            Ok(Did::Bytes(count)) if MANY <= count && count < buf.len() => {
                Ok(Did::Bytes(self.read_more(buf, count)))
            }
            other => other,
        }
    }

    /// Blocked at once where it is known that nothing can be sent; else one write of the system.
    fn write(&mut self, piece: &[u8]) -> Result<Did, Failed> {
        if !self.may_move(Dir::Write) {
            return Ok(Did::Blocked);
        }
        let did = write_to(&mut self.stream, piece);
        self.settle(Dir::Write, did, piece.len())
    }

    ghost rest_is_laid_out = { λ c. refl };
}
