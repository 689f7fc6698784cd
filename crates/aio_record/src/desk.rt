//! A job's place at one of the cells.

ghost use Rattle.std.specs.Prelude.{◌≡◌, IfOk, OnErr};
ghost use Rattle.aio_record.specs.Desks.{IsFreshPair, IsJoint, IsPair, NoteGrew};

use crate::stress_cell::{Maker, StressCell};
use aio_base::OutOfMemory;
use aio_history::{CellCall, CellStep};
use aio_lock::{Lock, Owner};
use std::alloc::Global;
use std::marker::Model;
use std::sync::{Arc, Wait};

/// A lock that has a cell, shared with the other job's desk, and the owner of this job's number, which is
/// outside. So it is known which steps this job has made there, whatever the other one made in between.
#[derive(Drop)]
pub(crate) struct Desk {
    lock: Arc<Lock<StressCell>, Global>,
    owner: Owner,
    maker: Maker,
}

impl Model for Desk {
    ghost use Rattle.std.specs.Prelude.{◌≡◌};
    ghost use Rattle.std.specs.Arc.{arc_value};
    ghost use Rattle.aio_lock.specs.Tokens.{owner_of};
    ghost use Rattle.aio_record.specs.Desks.{DeskValue, alone, note_of};

    ghost Value = { DeskValue };

    ghost view = { λ d. record {
      lock = arc_value d.lock;
      maker = d.maker;
      note = note_of d.maker d.owner.knows;
    } };

    ghost invariant = { λ d. d.owner
        ≡ owner_of (arc_value d.lock) (alone d.maker (note_of d.maker d.owner.knows)) };
}

impl Desk {
    /// The two desks of a new cell, on which nothing was called.
    pub(crate) fn pair(alloc: Global) -> Result<(Desk, Desk), OutOfMemory>
        ensures { IfOk result (λ made. IsFreshPair made.0 made.1) }
    {
        let (lock, mut first, second) = Lock::vacant(alloc)?;
        lock.give(&mut first, StressCell::new(alloc));
        let Ok(lock) = Arc::new(alloc, lock) else {
            return Err(OutOfMemory);
        };
        let Ok(again) = Arc::try_clone(&lock) else {
            return Err(OutOfMemory);
        };
        Ok((
            Desk {
                lock,
                owner: first,
                maker: Maker::First,
            },
            Desk {
                lock: again,
                owner: second,
                maker: Maker::Second,
            },
        ))
    }

    /// Makes one call on the cell, and answers its step. Where memory runs out the cell goes back as it was
    /// taken. May wait.
    pub(crate) fn call<R: Wait>(&mut self, rt: &R, call: CellCall) -> Result<CellStep, OutOfMemory>
        ensures lock { self.new.lock ≡ self.old.lock }
        ensures maker { self.new.maker ≡ self.old.maker }
        ensures grew { IfOk result (λ step. NoteGrew call step self.old.note self.new.note) }
        ensures refused { OnErr result (self.new.note ≡ self.old.note) }
    {
        let mut cell = self.lock.take(rt, &mut self.owner);
        let made = cell.make(self.maker, call);
        self.lock.give(&mut self.owner, cell);
        made
    }

    /// The cell of two desks, which has the steps that both know of. May wait.
    pub(crate) fn join<R: Wait>(self, rt: &R, other: Desk) -> StressCell
        requires { IsPair self other }
        ensures { IsJoint self other result }
    {
        let Desk {
            lock,
            mut owner,
            ..
        } = self;
        let Desk { owner: second, .. } = other;
        lock.join(&mut owner, second);
        let cell = lock.take(rt, &mut owner);
        cell.is_whole();
        cell
    }
}
