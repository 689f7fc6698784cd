//! What one job does.

ghost use Rattle.std.specs.Prelude.{◌≡◌, length};

use crate::desk::Desk;
use aio_base::{Job, OutOfMemory};
use aio_history::CellDraws;
use std::sync::Wait;
use std::thread::Threads;

/// So many calls on the cells of eight desks, in the order in which they are drawn.
#[derive(Drop)]
pub(crate) struct StressJob {
    /// The desks, by the numbers of their cells.
    pub(crate) desks: Vec<Desk>,
    /// How many calls.
    pub(crate) calls: u32,
    /// What they are drawn from.
    pub(crate) draws: CellDraws,
    ghost eight: { length desks.items ≡ 8 },
}

impl Job for StressJob {
    ghost use Rattle.std.specs.Prelude.{IfOk};
    ghost use Rattle.aio_record.specs.Desks.{Worked};

    /// The desks, whose notes are then whole; or want of memory.
    type End = Result<Vec<Desk>, OutOfMemory>;

    ghost may_end = { λ job end.
        IfOk end (λ ended. Worked job.calls job.draws job.desks.items ended.items) };

    fn run<R: Wait + Threads + Sync + Send + Copy>(self, rt: &R) -> Result<Vec<Desk>, OutOfMemory> {
        let StressJob {
            mut desks,
            calls,
            mut draws,
        } = self;
        let mut left = calls;
        while left > 0 {
            let drawn = draws.next_call();
            desks[drawn.cell].call(rt, drawn.call)?;
            left -= 1;
        }
        Ok(desks)
    }
}
