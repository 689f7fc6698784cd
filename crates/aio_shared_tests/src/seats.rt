//! What a thread does by the round cell or by its member's seat: rounds, looks, wakes and masks.

ghost use Rattle.std.specs.Prelude.{◌≡◌, ◌<◌, false, true, if◌then◌else◌, IfSome};
ghost use Rattle.aio_rules.specs.declared.seats.Mode.TheVariants as mode;
ghost use Rattle.aio_words.specs.Seats.{Belongs};
ghost use Rattle.aio_shared.specs.Cells.{IsIdle};
ghost use Rattle.aio_shared.specs.Members.{IsMemberOf};
ghost use Rattle.aio_shared.specs.OneCell.{IsCellOf};
ghost use Rattle.aio_sources.specs.Visiting.{visited_once};

use crate::acts::{Act, Came, reacted, replaced};
use crate::hosts::{react_by, react_twice_at_most};
use aio_base::{Arm, Dir, EventWait, Notify, Waker};
use aio_devices::{MemClock, MemNotify};
use aio_shared::{Inside, Member, RoundCell, Shared, SourceRef};
use aio_words::{Pass, RoundSeat, Words};
use std::sync::Wait;

/// Blocks parker 0 and looks at its mask. Whether the seat waits now: then the look found no woken slot. Else
/// it blocks.
fn waits_for_first(words: &Words, seat: &mut RoundSeat) -> bool
    requires { Belongs words.now seat.old × (seat.old.view.mode ≡ mode.Idle) × (0 < words.now.parkers) }
    ensures words { seat.new.words ≡ seat.old.words }
    ensures mode { seat.new.view.mode ≡ (if result then mode.Wait 0 else mode.Block 0) }
{
    words.block(seat, 0);
    words.take_or_wait(seat).is_none()
}

/// Unblocks parker 0.
fn unblock_first(words: &Words, seat: &mut RoundSeat)
    requires belongs { Belongs words.now seat.old }
    requires blocks { seat.old.view.mode ≡ mode.Block 0 }
    ensures words { seat.new.words ≡ seat.old.words }
    ensures idle { seat.new.view.mode ≡ mode.Idle }
{
    words.unblock(seat);
}

/// Reacts where the seat waits for parker 0 then, and leaves the seat blocking it. Something else comes where it
/// does not wait: a slot of the parker is woken already.
fn react_where_waiting<R: Wait, N: Notify, A: Arm, W: EventWait>(
    rt: &R,
    shared: &Shared<A, W>,
    m: &mut Member<N, W>,
    cell: &mut RoundCell<W>,
    clock: &mut MemClock,
) -> Came
    requires parker { 0 < shared.now.words.parkers }
    requires member { IsMemberOf shared.now m.old }
    requires cell { IsCellOf m.old.claim cell.old }
    requires idle { cell.old.seat.view.mode ≡ mode.Idle }
    ensures member { IsMemberOf shared.now m.new }
    ensures claim { m.new.claim ≡ m.old.claim }
    ensures cell { IsCellOf m.new.claim cell.new }
    ensures blocks { cell.new.seat.view.mode ≡ mode.Block 0 }
{
    if !waits_for_first(shared.words(), cell.seat()) {
        return Came::Other;
    }
    reacted(shared.react_in(rt, m, cell, clock, Some(0)))
}

/// Does what needs the round cell, by the cell that the thread has: looks at it, unless the act reacts.
fn act_in<R: Wait, N: Notify, A: Arm, W: EventWait>(
    host: &mut Inside<R, N, A, W>,
    cell: &mut RoundCell<W>,
    clock: &mut MemClock,
    act: Act,
) -> Came
    requires parker { 0 < host.old.shared.words.parkers }
    requires cell { IsCellOf host.old.member.claim cell.old }
    requires idle { IsIdle cell.old }
    ensures shared { host.new.shared ≡ host.old.shared }
    ensures claim { host.new.member.claim ≡ host.old.member.claim }
    ensures cell { IsCellOf host.new.member.claim cell.new }
    ensures idle { IsIdle cell.new }
{
    match act {
        Act::React => reacted(react_by(host, cell, clock)),
        Act::ReactAgain => react_twice_at_most(host, cell, clock),
        Act::ReactWaiting => {
            let came = react_where_waiting(&host.rt, &host.shared, &mut host.member, cell, clock);
            unblock_first(host.shared.words(), cell.seat());
            came
        }
        _ => {
            let rounds = host.shared.words().rounds(cell.seat());
            Came::Cell(cell.waits(), cell.round().is_idle(), rounds)
        }
    }
}

/// The round cell: to react, where no other thread has it; for any other act, as soon as no other thread has it.
fn cell_for<R: Wait, N: Notify, A: Arm, W: EventWait>(
    host: &mut Inside<R, N, A, W>,
    act: Act,
) -> Option<RoundCell<W>>
    ensures shared { host.new.shared ≡ host.old.shared }
    ensures cell { IfSome result (λ cell. IsCellOf host.new.member.claim cell × IsIdle cell) }
    ensures holds { IfSome result (λ cell. host.new.member.claim.holds ≡ true) }
{
    match act {
        Act::React => host.shared.try_round(&host.rt, &mut host.member),
        _ => Some(host.shared.take_round(&host.rt, &mut host.member)),
    }
}

/// Takes the round cell, does what needs it, and gives the cell back. Something else comes where another thread
/// has the cell.
pub(crate) fn act_by_cell<R: Wait, N: Notify, A: Arm, W: EventWait>(
    host: &mut Inside<R, N, A, W>,
    clock: &mut MemClock,
    act: Act,
) -> Came
    requires { 0 < host.old.shared.words.parkers }
    ensures { host.new.shared ≡ host.old.shared }
{
    let Some(mut cell) = cell_for(host, act) else {
        return Came::Other;
    };
    let came = act_in(host, &mut cell, clock, act);
    host.shared.give_round(&host.rt, &mut host.member, cell);
    came
}

/// Takes the mask of parker 0, or wakes a task with another notifier than the member's.
pub(crate) fn act_on_words(words: &Words, pass: &mut Pass, act: Act) -> Came
    requires { Belongs words.now pass.old × (0 < words.now.parkers) }
    ensures { pass.new.words ≡ pass.old.words }
{
    match act {
        Act::Take => Came::Mask(words.take(pass, 0)),
        Act::WakeApart(waker) => match words.wake(pass, Waker(waker), &mut MemNotify::new()) {
            Ok(()) => Came::Done,
            Err(_) => Came::Other,
        },
        _ => Came::Other,
    }
}

/// Blocks parker 0, polls the read direction of a source with two wakers in turn, and gives the cell back. The
/// second waker takes the place of the first, whose wake has to call the notifier.
pub(crate) fn poll_while_blocking<R: Wait, N: Notify, A: Arm, W: EventWait>(
    host: &mut Inside<R, N, A, W>,
    source: &mut SourceRef<A>,
) -> Came
    requires parker { 0 < host.old.shared.words.parkers }
    requires outside { source.old.inside ≡ false }
    ensures host { host.new.shared ≡ host.old.shared }
    ensures source { let rest = source.old.rest in
        source.new ≡ visited_once (visited_once source.old rest) rest }
{
    let mut cell = host.shared.take_round(&host.rt, &mut host.member);
    host.shared.words().block(cell.seat(), 0);
    let first = host.poll_source(source, Dir::Read, Waker(3));
    let second = host.poll_source(source, Dir::Read, Waker(5));
    unblock_first(host.shared.words(), cell.seat());
    host.shared.give_round(&host.rt, &mut host.member, cell);
    replaced(first, second)
}
