//! A worker's way to its own deque of places, and to those of the others.

ghost use Rattle.std.specs.Prelude.{◌≡◌, ◌≤◌, length, IfOk, OnOk, OnErr, MatchBool};
ghost use Rattle.aio_turns.specs.Passes.{Pops, Steals, new_owner, new_thief, pushed, with_thief};

use aio_base::OutOfMemory;
use aio_turns::{OwnPass, ThiefPass, Turns};
use std::alloc::Global;
use std::marker::Model;
use std::sync::{Arc, Wait};

/// A deque, with its owner. Contracts see what the owner pushed and pulled.
pub struct OwnDeque {
    turns: Arc<Turns, Global>,
    pass: OwnPass,
}

impl Model for OwnDeque {
    ghost use Rattle.std.specs.Prelude.{◌≡◌};
    ghost use Rattle.std.specs.Arc.{arc_value};
    ghost use Rattle.aio_turns.specs.Passes.{OwnView};

    ghost Value = { OwnView };

    ghost view = { λ d. d.pass };

    ghost invariant = { λ d. d.pass.deque ≡ arc_value d.turns };
}

impl Drop for OwnDeque {
    fn drop(self) {
        let OwnDeque { turns: _, pass: _ } = self;
    }
}

/// The deque of another worker, with a thief. Contracts see what the thief pulled.
pub struct OtherDeque {
    turns: Arc<Turns, Global>,
    pass: ThiefPass,
}

impl Model for OtherDeque {
    ghost use Rattle.std.specs.Prelude.{◌≡◌};
    ghost use Rattle.std.specs.Arc.{arc_value};
    ghost use Rattle.aio_turns.specs.Passes.{ThiefView};

    ghost Value = { ThiefView };

    ghost view = { λ d. d.pass };

    ghost invariant = { λ d. d.pass.deque ≡ arc_value d.turns };
}

impl Drop for OtherDeque {
    fn drop(self) {
        let OtherDeque { turns: _, pass: _ } = self;
    }
}

impl OwnDeque {
    /// A deque that holds nothing. `OutOfMemory` where there is no memory for it.
    pub fn new(alloc: Global) -> Result<OwnDeque, OutOfMemory>
        ensures { IfOk result (λ own. own ≡ new_owner own.deque) }
    {
        let (turns, pass) = Turns::new(alloc)?;
        match Arc::new(alloc, turns) {
            Ok(turns) => Ok(OwnDeque { turns, pass }),
            Err(_) => Err(OutOfMemory),
        }
    }

    /// The same deque, for a thief. `OutOfMemory` where there is no memory for it; the owner may count a
    /// thief more then.
    pub fn thief(&mut self) -> Result<OtherDeque, OutOfMemory>
        ensures thief { IfOk result (λ other. other ≡ new_thief self.old.deque) }
        ensures own { OnOk result (self.new ≡ with_thief self.old) }
        ensures refused { OnErr result (self.new ≡ self.old) }
    {
        let Ok(turns) = Arc::try_clone(&self.turns) else {
            return Err(OutOfMemory);
        };
        let pass = self.turns.thief(&mut self.pass)?;
        Ok(OtherDeque { turns, pass })
    }

    /// Puts a place at the back. `false` where the deque cannot grow, which can only be after 1,024 pushes;
    /// the place is not in it then.
    pub fn push(&mut self, place: u32) -> bool
        ensures { MatchBool result
            (self.new ≡ pushed place self.old)
            ((self.new ≡ self.old) × (1024 ≤ length self.old.pushed)) }
    {
        match self.turns.push(&mut self.pass, place) {
            Ok(()) => true,
            Err(_) => false,
        }
    }

    /// Takes the place at the front; `None` only where the deque was empty at a step of this call.
    pub fn pop<R: Wait>(&mut self, rt: &R) -> Option<u32>
        ensures { Pops result self.old self.new }
    {
        self.turns.pop(rt, &mut self.pass)
    }
}

impl OtherDeque {
    /// Takes the place at the front; `None` only where the deque was empty at a step of this call.
    pub fn steal<R: Wait>(&mut self, rt: &R) -> Option<u32>
        ensures { Steals result self.old self.new }
    {
        self.turns.steal(rt, &mut self.pass)
    }
}
