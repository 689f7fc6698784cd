//! The reactor, and how it is made.

ghost use Rattle.std.specs.Prelude.{◌≡◌, ◌≤◌, [], IfOk, IfErr, IsPermutation};
ghost use Rattle.std.specs.Arc.{arc_value};
ghost use Rattle.aio_ops.specs.Passes.{new_pass};
ghost use Rattle.aio_rules.specs.SharedWords.{first_view, after_split, split_view};
ghost use Rattle.aio_shared.specs.OneCell.{first_claim};
ghost use Rattle.aio_shared.specs.Starting.{AreParts, IsFirstMember, IsNewReactor, new_about};
ghost use Rattle.aio_sources.specs.Starting.{entries_added};

use crate::cell::RoundCell;
use crate::members::Member;
use crate::round_lock::{Claim, RoundLock};
use crate::starting::Started;
use crate::timer_lock::TimerLock;
use aio_base::{Arm, ArmFault, EventWait, Notify, OutOfMemory};
use aio_ops::{OpPass, Ops};
use aio_react::Round;
use aio_sources::{SourceRef, SourceTable};
use aio_timers::TimerBook;
use aio_words::{Pass, RoundSeat, Words};
use std::alloc::Global;
use std::marker::Model;
use std::sync::{Arc, Mutex};

/// A reactor that several threads share by reference. Contracts see its lock, its words, which queue of
/// operations on timers it has, and whether it is sure of its arms.
pub struct Shared<A: Arm, W: EventWait> {
    pub(crate) lock: RoundLock<W>,
    pub(crate) words: Arc<Words, Global>,
    pub(crate) ops: Ops,
    pub(crate) sources: Mutex<SourceTable<A>>,
    pub(crate) timers: TimerLock,
}

impl<A: Arm, W: EventWait> Model for Shared<A, W> {
    ghost use Rattle.std.specs.Arc.{arc_value};
    ghost use Rattle.aio_shared.specs.Members.{SharedValue};

    ghost Value = { SharedValue };

    ghost view = { λ s. record {
      lock = s.lock;
      words = arc_value s.words;
      ops = s.ops;
      sure_of_arms = A.all_sure;
    } };
}

impl<A: Arm + Drop, W: EventWait + Drop> Drop for Shared<A, W> {
    fn drop(self) {
        let Shared {
            lock: _,
            words: _,
            ops: _,
            sources: _,
            timers: _,
        } = self;
    }
}

/// What a reactor and its first member are made of, but for the lock of the rounds.
pub(crate) struct Parts<A: Arm> {
    pub(crate) words: Arc<Words, Global>,
    pub(crate) pass: Pass,
    pub(crate) ops: Ops,
    pub(crate) first: OpPass,
    pub(crate) table: SourceTable<A>,
}

impl<A: Arm + Drop> Drop for Parts<A> {
    fn drop(self) {
        let Parts {
            words: _,
            pass: _,
            ops: _,
            first: _,
            table: _,
        } = self;
    }
}

impl<A: Arm + Drop> Parts<A> {
    /// Parts for so many parkers, with no source and no operation, and the seat of the rounds.
    /// `OutOfMemory` where memory ran out.
    pub(crate) fn new(alloc: Global, parkers: u32) -> Result<(Parts<A>, RoundSeat), OutOfMemory>
        requires { (1 ≤ parkers) × (parkers ≤ 16) }
        ensures parts { IfOk result (λ made. AreParts parkers (arc_value made.0.words) made.1
            made.0.pass made.0.ops made.0.first) }
        ensures sources { IfOk result (λ made. made.0.table ≡ []) }
    {
        let (words, seat, pass) = shared_words(alloc, parkers)?;
        let (ops, first, table) = queue_and_table(alloc)?;
        let parts = Parts {
            words,
            pass,
            ops,
            first,
            table,
        };
        Ok((parts, seat))
    }

    /// The reactor of these parts, with this lock, and its first member, with this notifier, beside the
    /// answers of the connections that were added: the table has their sources, and no other.
    pub(crate) fn assemble<W: EventWait, N>(
        self,
        alloc: Global,
        lock: RoundLock<W>,
        claim: Claim<W>,
        notifier: N,
        sources: Vec<Result<SourceRef<A>, ArmFault>>,
    ) -> Started<A, W, N>
        requires sources { IsPermutation (entries_added sources.items) self.table }
        ensures shared { result.shared ≡ record {
          lock = lock;
          words = arc_value self.words;
          ops = self.ops;
          sure_of_arms = A.all_sure;
        } }
        ensures member { result.member ≡ record {
          claim = claim;
          pass = self.pass;
          ops = self.first;
          notifier = notifier;
          ids = 0;
        } }
        ensures sources { result.sources ≡ sources }
    {
        let Parts {
            words,
            pass,
            ops,
            first,
            table,
        } = self;
        let shared = Shared {
            lock,
            words,
            ops,
            sources: Mutex::new(table),
            timers: TimerLock::new(TimerBook::new(alloc)),
        };
        let member = Member {
            claim,
            pass,
            ops: first,
            notifier,
            ids: 0,
        };
        Started {
            shared,
            member,
            sources,
        }
    }
}

/// Words for so many parkers, which threads may share, with the seat of the rounds and a first seat.
/// `OutOfMemory` where memory ran out.
fn shared_words(
    alloc: Global,
    parkers: u32,
) -> Result<(Arc<Words, Global>, RoundSeat, Pass), OutOfMemory>
    requires { (1 ≤ parkers) × (parkers ≤ 16) }
    ensures words { IfOk result (λ made. (arc_value made.0).parkers ≡ parkers) }
    ensures seat { IfOk result (λ made. made.1
        ≡ record { words = (arc_value made.0).identity; view = after_split first_view }) }
    ensures pass { IfOk result (λ made. made.2
        ≡ record { words = (arc_value made.0).identity; view = split_view first_view }) }
{
    let (words, seat, pass) = Words::new(alloc, parkers)?;
    match Arc::new(alloc, words) {
        Ok(words) => Ok((words, seat, pass)),
        Err(_) => Err(OutOfMemory),
    }
}

/// A queue of operations with its first seat, and a table with no source. `OutOfMemory` where memory
/// ran out.
fn queue_and_table<A: Arm + Drop>(
    alloc: Global,
) -> Result<(Ops, OpPass, SourceTable<A>), OutOfMemory>
    ensures first { IfOk result (λ made. made.1 ≡ new_pass made.0 0 1) }
    ensures table { IfOk result (λ made. made.2 ≡ []) }
{
    let (ops, first) = Ops::new(alloc)?;
    let table = SourceTable::new(alloc)?;
    Ok((ops, first, table))
}

/// The lock of a new reactor whose connections are of the type `A`: an idle round over this wait lies in
/// it. The wait comes back as it was where memory ran out.
pub(crate) fn open_lock<A: Arm, W: EventWait + Drop>(
    alloc: Global,
    seat: RoundSeat,
    wait: W,
) -> Result<(RoundLock<W>, Claim<W>), W>
    requires { seat.view ≡ after_split first_view }
    ensures opened { IfOk result (λ made. made.1
        ≡ first_claim made.0 (new_about seat.words (W.is_sure wait) A.all_sure)) }
    ensures back { IfErr result (λ back. back ≡ wait) }
{
    let Ok(round) = Round::new(alloc) else {
        return Err(wait);
    };
    let cell = match RoundCell::new(alloc, seat, round, wait) {
        Ok(cell) => cell,
        Err(wait) => return Err(wait),
    };
    match RoundLock::new::<A>(alloc, cell) {
        Ok(made) => Ok(made),
        Err(cell) => Err(cell.into_wait()),
    }
}

impl<A: Arm + Drop, W: EventWait + Drop> Shared<A, W> {
    /// A reactor for so many parkers, 1 to 16, and its first member, which has seat 0 at the queue of
    /// operations and this notifier, and has drawn no id (`async-io` 2, `reactor.rs`, `Reactor::get`). It
    /// has no source, no timer and no operation, and its round is idle, over this wait. Where memory ran
    /// out, the one refusal, wait and notifier come back as they were.
    pub fn new<N: Notify>(
        alloc: Global,
        parkers: u32,
        wait: W,
        notifier: N,
    ) -> Result<(Shared<A, W>, Member<N, W>), (W, N)>
        requires { (1 ≤ parkers) × (parkers ≤ 16) }
        ensures reactor { IfOk result (λ made. IsNewReactor parkers A.all_sure made.0) }
        ensures member { IfOk result (λ made.
            IsFirstMember made.0 (W.is_sure wait) notifier made.1) }
        ensures back { IfErr result (λ back. back ≡ (wait, notifier)) }
    {
        let Ok((parts, seat)) = Parts::new(alloc, parkers) else {
            return Err((wait, notifier));
        };
        match open_lock::<A, W>(alloc, seat, wait) {
            Err(wait) => Err((wait, notifier)),
            Ok((lock, claim)) => {
                let Started {
                    shared,
                    member,
                    sources: _,
                } = parts.assemble(alloc, lock, claim, notifier, Vec::new(alloc));
                Ok((shared, member))
            }
        }
    }
}
