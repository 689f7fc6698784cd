//! What a pair reads and writes: the ends of its two connections.

ghost use Rattle.std.specs.Prelude.{◌≡◌, ◌<◌, ◌≤◌, length, take, Ok};
ghost use Rattle.aio_base.specs.Hosts.{NotifierTells, wake_fault};
ghost use Rattle.aio_base.specs.declared.outcomes.Poll.TheVariants.{Ready, Pending};
ghost use Rattle.aio_pairs.specs.Calls.{WakesReplaced};

use crate::outcomes::EndTried;
use aio_base::{Conn, CountFault, Faults, Host, Tells, Waker};
use aio_future::Async;
use aio_source::SourceCell;

/// One connection of a pair, as an entered source of a host. It tells of its bytes what the connection
/// tells.
pub trait End<H: Host>: Tells {
    ghost use Rattle.aio_base.specs.Connections.{ReadTells, WriteTells};
    ghost use Rattle.aio_future.specs.Tries.{bytes_over, fault_counts, MovesWithin, IsReadAnswer, IsWriteAnswer, FaultsWithin};
    ghost use Rattle.aio_pairs.specs.Calls.{EndCall, Reads, Writes, LeavesHost};

    /// How a call with its answer leads from one state to the next.
    ghost end_step: { Self → EndCall → Self → Type 0 };

    /// What `Async::read_with` does, by the host's ticker: the bytes read are the first of `buf`.
    /// Whom that replaced the end wakes by the host.
    fn read(&mut self, host: &mut H, buf: &mut [u8], w: Waker) -> EndTried
        requires { 0 < length buf.old }
        ensures host { LeavesHost H.rules H.is_later H.notifier_is_sure result
            host.old host.new }
        ensures step { end_step self.old (Reads (length buf.old) w result
            (take (bytes_over result.answer) buf.new)) self.new }
        ensures told { ReadTells (Self.telling self.old) (Self.telling self.new)
            (take (bytes_over result.answer) buf.new)
            (result.answer ≡ Pending) (result.answer ≡ Ready (Ok 0)) }
        ensures most { bytes_over result.answer ≤ length buf.new }
        ensures kind { IsReadAnswer result.answer }
        ensures faults { FaultsWithin (Self.fault_count self.old) (Self.fault_count self.new)
            (Self.is_sure self.old) (Self.is_sure self.new) (fault_counts result.answer) };

    /// What `Async::write_with` does, by the host's ticker: the bytes written are the first of `piece`.
    /// Whom that replaced the end wakes by the host.
    fn write(&mut self, host: &mut H, piece: &[u8], w: Waker) -> EndTried
        requires { 0 < length piece.now }
        ensures host { LeavesHost H.rules H.is_later H.notifier_is_sure result
            host.old host.new }
        ensures step { end_step self.old (Writes piece.now w result) self.new }
        ensures told { WriteTells (Self.telling self.old) (Self.telling self.new)
            (take (bytes_over result.answer) piece.now) (result.answer ≡ Pending) }
        ensures most { MovesWithin (length piece.now) result.answer }
        ensures kind { IsWriteAnswer result.answer }
        ensures faults { FaultsWithin (Self.fault_count self.old) (Self.fault_count self.new)
            (Self.is_sure self.old) (Self.is_sure self.new) (fault_counts result.answer) };
}

/// An end that owns its source, and serves any host.
#[derive(Drop)]
pub struct MemEnd<C> {
    /// The source with its connection.
    pub cell: SourceCell<C>,
}

impl<C: Conn> Faults for MemEnd<C> {
    ghost fault_count = { λ end. C.fault_count end.cell.io };

    ghost is_sure = { λ end. C.is_sure end.cell.io };

    ghost all_sure = { C.all_sure };

    ghost sure_below_top = { λ end sure. C.sure_below_top end.cell.io sure };

    ghost each_sure = { λ end all. C.each_sure end.cell.io all };

    fn faults(&self) -> u64 {
        self.cell.io.faults()
    }
}

impl<C: Conn> Tells for MemEnd<C> {
    ghost telling = { λ end. C.telling end.cell.io };

    ghost left_is_bounded = { λ end. C.left_is_bounded end.cell.io };
}

impl<H: Host, C: Conn> End<H> for MemEnd<C> {
    ghost use Rattle.aio_pairs.specs.Calls.{Enters};

    ghost end_step = { λ before call after. Enters C.conn_step C.arm_step C.interests C.rest
        C.fault_count C.is_sure before.cell.state before.cell.io call
        after.cell.state after.cell.io };

    fn read(&mut self, host: &mut H, buf: &mut [u8], w: Waker) -> EndTried {
        let rounds = host.ticker();
        let tried = Async::of(&mut self.cell, rounds).read_with(buf, w);
        EndTried {
            answer: tried.answer,
            replaced: tried.replaced,
            rounds,
            woken: wake_replaced(host, tried.replaced),
        }
    }

    fn write(&mut self, host: &mut H, piece: &[u8], w: Waker) -> EndTried {
        let rounds = host.ticker();
        let tried = Async::of(&mut self.cell, rounds).write_with(piece, w);
        EndTried {
            answer: tried.answer,
            replaced: tried.replaced,
            rounds,
            woken: wake_replaced(host, tried.replaced),
        }
    }
}

/// Wakes the waker, if any, that a call of an end took the place of.
fn wake_replaced<H: Host>(host: &mut H, replaced: Option<Waker>) -> Result<(), CountFault>
    ensures wakes { WakesReplaced H.rules replaced result host.old host.new }
    ensures notifier { NotifierTells (H.notifier_is_sure host.old) (H.rules.faults host.old)
        (H.rules.faults host.new) (wake_fault result) }
    ensures later { H.is_later host.old host.new }
    ensures pass { H.rules.pass host.new ≡ H.rules.pass host.old }
    ensures ids { H.rules.drawn host.new ≡ H.rules.drawn host.old }
{
    let Some(waker) = replaced else {
        return Ok(());
    };
    host.wake(waker)
}
