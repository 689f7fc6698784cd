//! The reactor lock: the one round cell lies in a queue of one place, or is out with one member.

ghost use Rattle.std.specs.Prelude.{◌≡◌, true, false, None, IfOk, IfErr, IfSome, IsNone};
ghost use Rattle.aio_shared.specs.Cells.{IsIdle, said_by};
ghost use Rattle.aio_shared.specs.Members.{IsMemberOf};
ghost use Rattle.aio_shared.specs.OneCell.{FindsNone, IsCellOf, Takes, TakesCell, first_claim, makes_claim, new_claim};

use crate::cell::RoundCell;
use crate::members::Member;
use crate::seats::{CellPass, CellQueue, NewMember, Open, Pop, Push};
use crate::shared::Shared;
use aio_base::{Arm, EventWait, Notify};
use std::alloc::Global;
use std::marker::Model;
use std::sync::Wait;
use std::thread;

/// The lock of a reactor.
#[derive(Drop)]
pub(crate) struct RoundLock<W: EventWait> {
    queue: CellQueue<W>,
}

impl<W: EventWait> Model for RoundLock<W> {
    ghost use Rattle.std.specs.Prelude.{◌≡◌};
    ghost use Rattle.atomic_table.specs.Seated.{TableId};
    ghost use Rattle.crossbeam_queue.specs.Passes.{ruled_capacity};

    ghost Value = { TableId };

    ghost view = { λ l. l.queue.table.shared.table_id };

    ghost invariant = { λ l. ruled_capacity l.queue ≡ 1 };
}

/// What one member may do with a reactor lock, and how often it found the queue empty.
#[derive(Drop)]
pub(crate) struct Claim<W: EventWait> {
    pass: CellPass<W>,
    empties: u64,
}

impl<W: EventWait> Model for Claim<W> {
    ghost use Rattle.std.specs.Prelude.{◌≡◌, [], false};
    ghost use Rattle.aio_shared.specs.OneCell.{ClaimValue, claim_of};

    ghost Value = { ClaimValue };

    ghost view = { λ t. claim_of t.pass.table_id t.pass.me.0.client t.empties };

    ghost invariant = { λ t. (t.pass.me.1 ≡ []) × (t.pass.me.0.client.opening ≡ false) };
}

impl<W: EventWait + Drop> RoundLock<W> {
    /// The lock of a reactor whose connections are of the type `A`, with its cell in the queue, and its
    /// first member. Takes all the memory that the lock ever takes; the cell comes back where it is not
    /// there.
    pub(crate) fn new<A: Arm>(
        alloc: Global,
        cell: RoundCell<W>,
    ) -> Result<(RoundLock<W>, Claim<W>), RoundCell<W>>
        requires { IsIdle cell × (cell.round.fault ≡ None) }
        ensures made { IfOk result (λ made. made.1 ≡ first_claim made.0 (said_by A.all_sure cell)) }
        ensures back { IfErr result (λ back. back ≡ cell) }
    {
        let Ok((queue, mut pass)) = CellQueue::ruled(alloc, 1) else {
            return Err(cell);
        };
        match queue.try_push_as::<Open<A, W>>(&mut pass, cell) {
            Err(cell) => Err(cell),
            Ok(()) => Ok((RoundLock { queue }, Claim { pass, empties: 0 })),
        }
    }
}

impl<W: EventWait> RoundLock<W> {
    /// A member for another thread, split off `from`.
    pub(crate) fn member(&self, from: &mut Claim<W>) -> Claim<W>
        requires { from.old.lock ≡ self.now }
        ensures made { result ≡ new_claim from.old }
        ensures from { from.new ≡ makes_claim from.old }
    {
        Claim {
            pass: self.queue.another::<NewMember>(&mut from.pass),
            empties: 0,
        }
    }

    /// One pop: the cell, which the member holds then. `None` only where the queue was empty at a step
    /// of this call, which the member counts, here and nowhere else.
    pub(crate) fn pop<R: Wait>(&self, rt: &R, claim: &mut Claim<W>) -> Option<RoundCell<W>>
        requires { claim.old.lock ≡ self.now }
        ensures some { IfSome result (λ cell. TakesCell claim.old claim.new cell) }
        ensures none { IsNone result → FindsNone claim.old claim.new }
    {
        match self.queue.pop_as::<Pop<W>, R>(rt, &mut claim.pass) {
            Some(cell) => Some(cell),
            None => {
                claim.empties = claim.empties.saturating_add(1);
                None
            }
        }
    }

    /// Tries until the member holds the cell.
    pub(crate) fn take<R: Wait>(&self, rt: &R, claim: &mut Claim<W>) -> RoundCell<W>
        requires { claim.old.lock ≡ self.now }
        ensures { Takes claim.old claim.new result }
    {
        for _ in rt.forever() {
            if let Some(cell) = self.pop(rt, claim) {
                return cell;
            }
            thread::yield_now();
        }
        unreachable!()
    }

    /// Puts the cell back, by the member that holds it. It always succeeds.
    pub(crate) fn give<R: Wait>(&self, rt: &R, claim: &mut Claim<W>, cell: RoundCell<W>)
        requires claim { (claim.old.lock ≡ self.now) × (claim.old.holds ≡ true) }
        requires cell { IsCellOf claim.old cell × IsIdle cell }
        ensures { claim.new ≡ record claim.old { holds = false } }
    {
        match self.queue.push_as::<Push<W>, R>(rt, &mut claim.pass, cell) {
            Ok(()) => {}
            Err(_) => unreachable!(),
        }
    }
}

impl<A: Arm, W: EventWait> Shared<A, W> {
    /// The round cell, where the reactor lock has it. The member, which did not hold it before, holds it
    /// then; its seat is idle, and it says what the member knows of its words, its wait and its arms.
    /// `None` only where the lock's queue was empty at a step of this call, which the member counts. It
    /// takes no memory.
    pub fn try_round<R: Wait, N: Notify>(
        &self,
        rt: &R,
        m: &mut Member<N, W>,
    ) -> Option<RoundCell<W>>
        requires belongs { IsMemberOf self.now m.old }
        ensures kept { m.new ≡ record m.old { claim = m.new.claim } }
        ensures some { IfSome result (λ cell. TakesCell m.old.claim m.new.claim cell) }
        ensures none { IsNone result → FindsNone m.old.claim m.new.claim }
        ensures belongs { IsMemberOf self.now m.new }
    {
        self.lock.pop(rt, &mut m.claim)
    }

    /// The round cell, as by `try_round`: it tries until the member holds the cell. It takes no memory.
    pub fn take_round<R: Wait, N: Notify>(&self, rt: &R, m: &mut Member<N, W>) -> RoundCell<W>
        requires belongs { IsMemberOf self.now m.old }
        ensures kept { m.new ≡ record m.old { claim = m.new.claim } }
        ensures takes { Takes m.old.claim m.new.claim result }
        ensures belongs { IsMemberOf self.now m.new }
    {
        self.lock.take(rt, &mut m.claim)
    }

    /// Gives the round cell back, whose seat is idle, by the member that holds it. It always succeeds.
    /// It takes no memory.
    pub fn give_round<R: Wait, N: Notify>(&self, rt: &R, m: &mut Member<N, W>, cell: RoundCell<W>)
        requires belongs { IsMemberOf self.now m.old }
        requires holds { m.old.claim.holds ≡ true }
        requires cell { IsCellOf m.old.claim cell × IsIdle cell }
        ensures gave { m.new ≡ record m.old { claim = record m.old.claim { holds = false } } }
        ensures belongs { IsMemberOf self.now m.new }
    {
        self.lock.give(rt, &mut m.claim, cell);
    }
}
