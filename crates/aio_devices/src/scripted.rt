//! A half of a poller in memory that waits, and answers by a script.

ghost use Rattle.std.specs.Prelude.{◌≡◌, ◌+◌, ◌≤◌, [], ◌++◌, length, min, take, vec_len, vec_capacity};

use aio_base::{Event, EventWait, Failed, Faults, Waited};
use std::alloc::Global;
use std::marker::Model;
use std::vec::IntoIter;

/// What one wait comes to.
#[derive(Debug, Drop)]
pub enum WaitAnswer {
    /// It gives these events, or the first of them where there is room for no more.
    Gives(Vec<Event>),
    /// It is interrupted.
    Interrupted,
    /// It fails.
    Fails,
}

/// Adds the first events, as many as there is room for. How many it added.
pub(crate) fn give(out: &mut Vec<Event>, events: &[Event], room: u32) -> u32
    requires { vec_len out.old + room ≤ vec_capacity out.old }
    ensures count { result ≡ min room (length events.now) }
    ensures added { out.new.items ≡ out.old.items ++ take room events.now }
    ensures capacity { vec_capacity out.old ≤ vec_capacity out.new }
{
    let count = events.len().min(room as usize);
    out.extend_from_slice(&events[..count]).unwrap();
    count as u32
}

/// A half of a poller of which each wait comes to the next answer of its script. After the last of them each
/// wait gives no event.
pub struct ScriptedWait {
    left: IntoIter<WaitAnswer, Global>,
    waits: u64,
    faults: u64,
}

impl Model for ScriptedWait {
    ghost use Rattle.std.specs.Vec.Iter.{into_iter_items};
    ghost use Rattle.aio_devices.specs.Answers.{AnswerWaits};

    ghost Value = { AnswerWaits };

    ghost view = { λ w. record { left = into_iter_items w.left; waits = w.waits; faults = w.faults } };
}

impl Drop for ScriptedWait {
    fn drop(self) {
        let ScriptedWait {
            left: _,
            waits: _,
            faults: _,
        } = self;
    }
}

impl ScriptedWait {
    /// A half that has not waited yet, and whose waits come to these answers.
    pub fn new(answers: Vec<WaitAnswer>) -> ScriptedWait
        ensures { result ≡ record { left = answers.items; waits = 0; faults = 0 } }
    {
        ScriptedWait {
            left: answers.into_iter(),
            waits: 0,
            faults: 0,
        }
    }
}

impl Faults for ScriptedWait {
    ghost use Rattle.std.specs.Prelude.{false};
    ghost use Rattle.std.proofs.lemmas.Bool.{false≢true};

    ghost fault_count = { λ w. w.faults };

    ghost is_sure = { λ w. false };

    ghost all_sure = { false };

    ghost sure_below_top = { λ w sure. absurd (false≢true sure) };

    ghost each_sure = { λ w sure. sure };

    fn faults(&self) -> u64 {
        self.faults
    }
}

impl EventWait for ScriptedWait {
    ghost use Rattle.aio_devices.specs.Answers.{WaitsByAnswers};

    ghost wait_count = { λ w. w.waits };

    ghost wait_step = { WaitsByAnswers };

    /// Comes to the next answer at once, whatever the limit is.
    fn wait(
        &mut self,
        out: &mut Vec<Event>,
        room: u32,
        _limit: Option<u64>,
    ) -> Result<Waited, Failed> {
        self.waits = self.waits.saturating_add(1);
        match self.left.next() {
            None => return Ok(Waited::Given(0)),
            Some(WaitAnswer::Gives(events)) => {
                return Ok(Waited::Given(give(out, events.as_slice(), room)));
            }
            Some(WaitAnswer::Interrupted) => return Ok(Waited::Interrupted),
            Some(WaitAnswer::Fails) => {
                self.faults = self.faults.saturating_add(1);
                return Err(Failed);
            }
        }
    }

    fn waits(&self) -> u64 {
        self.waits
    }
}
