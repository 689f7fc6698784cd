//! The calls of a listener on the source in a cell, which lend it the object beside it.

ghost use Rattle.std.specs.Prelude.{◌≡◌};
ghost use Rattle.aio_listen.specs.Listening.{Holds, has_ticket};
ghost use Rattle.aio_source.specs.Rules.{direction_of, unlistened};
ghost use Rattle.aio_future.specs.Listens.{Listens, ListensAgain};

use aio_base::{Arm, ArmFault, Dir, Poll, Waker};
use aio_source::{ListenRefusal, Listened, SourceCell};

/// A listener's first poll.
pub(crate) fn first_listen<C: Arm>(
    cell: &mut SourceCell<C>,
    dir: Dir,
    ticker: u64,
    w: Waker,
) -> Result<Listened, ListenRefusal>
    ensures listens { Listens C.arm_step C.interests C.rest C.fault_count C.is_sure dir w ticker
        cell.old.state cell.old.io result cell.new.state cell.new.io }
    ensures key { cell.new.state.key ≡ cell.old.state.key }
{
    cell.state.first_listen(&mut cell.io, dir, w, ticker)
}

/// A listener's later poll.
pub(crate) fn listen_again<C: Arm>(
    cell: &mut SourceCell<C>,
    dir: Dir,
    l: Listened,
    w: Waker,
) -> Poll<Result<(), ArmFault>>
    requires { Holds (direction_of cell.old.state.directions dir).listeners.entries l.ticket }
    ensures listens { ListensAgain C.arm_step C.interests C.rest C.fault_count C.is_sure dir w l
        cell.old.state cell.old.io result cell.new.state cell.new.io }
    ensures key { cell.new.state.key ≡ cell.old.state.key }
{
    cell.state.listen_again(&mut cell.io, dir, l, w)
}

/// Whether a listener of the direction has this ticket.
pub(crate) fn is_listed<C>(cell: &SourceCell<C>, dir: Dir, l: Listened) -> bool
    ensures { result ≡ has_ticket (direction_of cell.now.state.directions dir).listeners.entries
        l.ticket }
{
    cell.state.holds(dir, l.ticket)
}

/// Takes a listener out.
pub(crate) fn unlisten<C>(cell: &mut SourceCell<C>, dir: Dir, l: Listened)
    requires { Holds (direction_of cell.old.state.directions dir).listeners.entries l.ticket }
    ensures state { cell.new.state ≡ unlistened cell.old.state dir l.ticket }
    ensures io { cell.new.io ≡ cell.old.io }
{
    cell.state.unlisten(dir, l.ticket);
}
