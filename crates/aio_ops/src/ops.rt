//! The queue of operations and its passes.

ghost use Rattle.std.specs.Prelude.{◌≡◌, ◌==◌, ◌↔◌, ℕ, ◌+◌, ◌<◌, ◌≤◌, ◌^◌, [], IfOk, IfErr, OnOk, OnErr, Err};
ghost use Rattle.aio_rules.specs.Operations.{queue_limit};
ghost use Rattle.aio_ops.specs.Passes.{AppliesItself, Drained, Drains, DrainsAndApplies, FindsFull, Pops, new_pass, pass_limit, pushed, with_applied};

use crate::queue::{Entry, NewPass, OpQueue, Pop, Push, Seat};
use aio_base::OutOfMemory;
use aio_rules::OpEntry;
use aio_timers::{TimerBook, TimerOp};
use crossbeam_queue::Pass;
use std::alloc::Global;
use std::marker::Model;
use std::sync::Wait;

/// How many operations the queue holds at most.
const CAPACITY: usize = 1_000;

/// How many operations a drain takes at most.
const DRAINED: u32 = 1_000;

/// How many passes of a queue there are at most.
const PASSES: u32 = 1 << 24;

/// A queue of at most 1,000 operations on registered timers, for any number of threads, each of which
/// has a pass of its own. Contracts see which queue it is; what it holds no clause can say, since
/// other threads may change it at any moment.
pub struct Ops {
    queue: OpQueue,
}

impl Model for Ops {
    ghost use Rattle.std.specs.Prelude.{◌≡◌};
    ghost use Rattle.atomic_table.specs.Seated.{TableId};
    ghost use Rattle.crossbeam_queue.specs.Passes.{ruled_capacity};
    ghost use Rattle.aio_rules.specs.Operations.{queue_limit};

    ghost Value = { TableId };

    ghost view = { λ ops. ops.queue.table.shared.table_id };

    ghost invariant = { λ ops. ruled_capacity ops.queue ≡ queue_limit };
}

impl Drop for Ops {
    fn drop(self) {
        let Ops { queue: _ } = self;
    }
}

/// What one thread may do with a queue of operations, and what it did: the entries that it pushed and
/// popped, how often it found the queue full and empty, and the last operation that it applied itself.
/// Those of a pass that is let go stay queued.
pub struct OpPass {
    pass: Pass<Entry, Seat>,
    number: u32,
    pushes: u64,
    fulls: u64,
    empties: u64,
    splits: u32,
    applied: Option<TimerOp>,
}

impl Model for OpPass {
    ghost use Rattle.std.specs.Prelude.{◌≡◌, ◌<◌, ◌≤◌, ◌^◌, [], length};
    ghost use Rattle.aio_rules.specs.OperationLaws.{KnowsItsPast};
    ghost use Rattle.aio_ops.specs.Passes.{PassView};

    ghost Value = { PassView };

    ghost view = { λ p. record {
      queue = p.pass.table_id;
      number = p.number;
      own = p.pass.me.0.client.own;
      pulled = p.pass.me.0.client.pulled;
      fulls = p.fulls;
      empties = p.empties;
      splits = p.splits;
      applied = p.applied;
    } };

    ghost invariant = { λ p. (p.pass.me.1 ≡ [])
        × (length p.pass.me.0.client.own ≡ p.pushes)
        × (p.number < 2 ^ 24) × (p.splits ≤ 2 ^ 24)
        × (p.pass.me.0.client.number ≡ p.number) × (p.pass.me.0.client.splits ≡ p.splits)
        × KnowsItsPast (record { seat = p.pass.me.0.client; fulls = p.fulls; empties = p.empties }) };
}

impl Drop for OpPass {
    fn drop(self) {
        let OpPass {
            pass: _,
            number: _,
            pushes: _,
            fulls: _,
            empties: _,
            splits: _,
            applied: _,
        } = self;
    }
}

/// Why no further pass was made.
#[derive(Clone, Copy, Debug, PartialEq, Eq)]
pub enum PassRefusal {
    /// 2^24 passes were made.
    PassesSpent,
    /// Memory ran out.
    OutOfMemory,
}

impl Ops {
    /// A queue that holds nothing, and its first pass, with the number 0. Takes all the memory that
    /// the queue ever takes; `OutOfMemory` where it is not there.
    #[tactic(auto, using(crate::proofs::Steps::past_new))]
    pub fn new(alloc: Global) -> Result<(Ops, OpPass), OutOfMemory>
        ensures { IfOk result (λ made. made.1 ≡ new_pass made.0 0 1) }
    {
        match OpQueue::ruled(alloc, CAPACITY) {
            Err(_) => Err(OutOfMemory),
            Ok((queue, pass)) => Ok((
                Ops { queue },
                OpPass {
                    pass,
                    number: 0,
                    pushes: 0,
                    fulls: 0,
                    empties: 0,
                    splits: 1,
                    applied: None,
                },
            )),
        }
    }

    /// A further pass, for another thread, made by the first pass, which counts it. Its number is how
    /// many were made before.
    ///
    /// # Errors
    ///
    /// `PassesSpent` exactly where 2^24 passes were made; then nothing changes.
    #[tactic(auto, using(crate::proofs::Steps::past_new, crate::proofs::Steps::past_split))]
    pub fn pass<R: Wait>(&self, _rt: &R, from: &mut OpPass) -> Result<OpPass, PassRefusal>
        requires belongs { from.old.queue ≡ self.now }
        requires first { from.old.number ≡ 0 }
        ensures made { IfOk result (λ p. p ≡ new_pass self.now from.old.splits 0) }
        ensures counted { OnOk result (from.new ≡ record from.old { splits = from.old.splits + 1 }) }
        ensures spent { (result ≡ Err PassRefusal.PassesSpent) ↔ (from.old.splits ≡ pass_limit) }
        ensures refused { OnErr result (from.new ≡ from.old) }
    {
        if from.splits == PASSES {
            return Err(PassRefusal::PassesSpent);
        }
        let number = from.splits;
        from.splits += 1;
        Ok(OpPass {
            pass: self.queue.another::<NewPass>(&mut from.pass),
            number,
            pushes: 0,
            fulls: 0,
            empties: 0,
            splits: 0,
            applied: None,
        })
    }

    /// Puts an operation at the end of the queue, as the next entry of the pass. It takes no memory.
    ///
    /// # Errors
    ///
    /// The operation comes back only where the queue held 1,000 operations at a step of this call,
    /// which the pass counts once.
    #[tactic(auto, using(crate::proofs::Steps::past_pushed, crate::proofs::Steps::past_full))]
    pub fn push<R: Wait>(&self, rt: &R, p: &mut OpPass, op: TimerOp) -> Result<(), TimerOp>
        requires belongs { p.old.queue ≡ self.now }
        ensures pushed { OnOk result (p.new ≡ pushed op p.old) }
        ensures back { IfErr result (λ back. back ≡ op) }
        ensures full { OnErr result (FindsFull p.old p.new) }
    {
        let number = next_number(rt, p.pushes);
        let pass = p.number;
        let empties = p.empties;
        let entry = OpEntry {
            pass,
            number,
            empties,
            op,
        };
        match self.queue.push_as::<Push, R>(rt, &mut p.pass, entry) {
            Ok(()) => {
                p.pushes = number;
                Ok(())
            }
            Err(back) => {
                p.fulls = p.fulls.saturating_add(1);
                Err(back.op)
            }
        }
    }

    /// Takes at most 1,000 operations out of the queue and applies each to the book, in the order in
    /// which it takes them. The answer is how many. It ends after 1,000 of them, or where it finds the
    /// queue empty, which the pass counts; either way nothing is queued any longer that the pass had
    /// pushed. It takes no memory.
    pub fn drain_into<R: Wait>(&self, rt: &R, p: &mut OpPass, book: &mut TimerBook) -> u32
        requires belongs { p.old.queue ≡ self.now }
        requires room { queue_limit ≤ book.old.spare }
        ensures { Drains result p.old p.new book.old book.new }
    {
        // By this the proof knows of the pass what its type keeps.
        let _ = &p.number;
        let mut count = 0;
        while count < DRAINED {
            match self.pop(rt, p) {
                None => break,
                Some(op) => book.apply(op),
            }
            count += 1;
        }
        count
    }

    /// Makes room for 1,000 timers in the book, and then drains the queue into it, as `drain_into` does.
    /// `OutOfMemory` where there is no such room; then nothing was taken out of the queue.
    pub fn drain<R: Wait>(
        &self,
        rt: &R,
        p: &mut OpPass,
        book: &mut TimerBook,
    ) -> Result<u32, OutOfMemory>
        requires belongs { p.old.queue ≡ self.now }
        ensures drains { IfOk result (λ count. Drains count p.old p.new book.old book.new) }
        ensures pass { OnOk result (Drained p.old p.new) }
        ensures refused { OnErr result (p.new ≡ p.old) }
        ensures kept { OnErr result (book.new.entries ≡ book.old.entries) }
    {
        book.reserve(DRAINED)?;
        Ok(self.drain_into(rt, p, book))
    }

    /// Drains the queue into the book, and then applies an operation to the book: so it comes after all
    /// that the drain took. The pass notes which one that was. `OutOfMemory` where the book has no room for
    /// both; then nothing was taken out of the queue, and nothing was applied.
    pub fn apply_after_drain<R: Wait>(
        &self,
        rt: &R,
        p: &mut OpPass,
        book: &mut TimerBook,
        op: TimerOp,
    ) -> Result<(), OutOfMemory>
        requires belongs { p.old.queue ≡ self.now }
        ensures applied { OnOk result (DrainsAndApplies op p.old p.new book.old book.new) }
        ensures pass { OnOk result (AppliesItself op p.old p.new) }
        ensures refused { OnErr result (p.new ≡ p.old) }
        ensures kept { OnErr result (book.new.entries ≡ book.old.entries) }
    {
        book.reserve(DRAINED + 1)?;
        self.drain_into(rt, p, book);
        p.note_applied(&op);
        book.apply(op);
        Ok(())
    }

    /// Takes the first operation out of the queue; `None` only where the queue was empty at a step of
    /// this call, which the pass counts.
    #[tactic(auto, using(crate::proofs::Steps::past_popped, crate::proofs::Steps::past_emptied))]
    fn pop<R: Wait>(&self, rt: &R, p: &mut OpPass) -> Option<TimerOp>
        requires belongs { p.old.queue ≡ self.now }
        ensures { Pops result p.old p.new }
    {
        match self.queue.pop_as::<Pop, R>(rt, &mut p.pass) {
            None => {
                p.empties = next_number(rt, p.empties);
                None
            }
            Some(entry) => Some(entry.op),
        }
    }
}

/// The number after this one, of the pushes of a pass or of its pops that found none. After 2^64 - 1 of
/// them it waits for ever: no thread gets there.
fn next_number<R: Wait>(rt: &R, number: u64) -> u64
    ensures { result ≡ number + 1 }
{
    for _ in rt.forever() {
        if number < u64::MAX {
            return number + 1;
        }
    }
    unreachable!()
}

impl OpPass {
    /// The number of the pass, from 0 in the order in which the passes of its queue were made.
    pub fn number(&self) -> u32
        ensures value { result ≡ self.now.number }
        ensures bound { result < pass_limit }
    {
        self.number
    }

    // Notes that it applies this operation itself.
    fn note_applied(&mut self, op: &TimerOp)
        ensures { self.new ≡ with_applied op.now self.old }
    {
        self.applied = Some(*op);
    }

    /// Whether no further pass can be made, as far as this pass has counted them: it counts 2^24.
    pub fn is_spent(&self) -> bool
        ensures { result ≡ (self.now.splits == pass_limit) }
    {
        self.splits == PASSES
    }
}
