//! Two jobs on eight cells.

ghost use Rattle.std.specs.Prelude.{◌≡◌, ◌+◌, ◌*◌, ◌<◌, ◌^◌, [], ◌∷◌, length, IfOk};
ghost use Rattle.std.specs.List.{AllZip};
ghost use Rattle.aio_record.specs.Desks.{IsFreshPair, IsPair, Joined};
ghost use Rattle.aio_record.specs.Makers.{Stressed};

use crate::desk::Desk;
use crate::job::StressJob;
use crate::stress_cell::StressCell;
use aio_base::{OutOfMemory, Spawner};
use aio_history::CellDraws;
use std::alloc::Global;
use std::collections::VecDeque;
use std::sync::Wait;
use std::thread::Threads;

/// How many cells the jobs share.
const CELLS: usize = 8;

/// Runs two jobs on eight new recorded cells, each in a lock. Each job makes `calls` calls, one after the
/// other, which are drawn from `seed` for the first and from `seed` + 1 for the second. It answers the cells
/// in order: in each the calls of each job are exactly those that are drawn for it, in order, and each answer
/// is the one that the steps before it say. `OutOfMemory` where memory ran out, in a job too. May wait.
///
/// Whether the jobs run at the same time is for the spawner.
pub fn stress<R: Wait + Threads + Sync + Send + Copy, T: Spawner>(
    rt: &R,
    alloc: Global,
    spawner: &mut T,
    calls: u32,
    seed: u64,
) -> Result<Vec<StressCell>, OutOfMemory>
    requires { seed < 2 ^ 48 }
    ensures { IfOk result (λ cells. Stressed calls seed cells.items) }
{
    let (firsts, seconds) = new_desks(alloc)?;
    let one = StressJob {
        desks: firsts,
        calls,
        draws: CellDraws::new(seed),
    };
    let two = StressJob {
        desks: seconds,
        calls,
        draws: CellDraws::new(seed + 1),
    };
    let Ok(jobs) = Vec::from_array(alloc, [one, two]) else {
        return Err(OutOfMemory);
    };
    let ends = spawner.run_all(alloc, rt, jobs)?;
    let (one, two) = two_ends(ends);
    let firsts = one?;
    let seconds = two?;
    join_all(rt, alloc, firsts, seconds)
}

/// The desks of eight new cells: the first of each, and the second of each.
fn new_desks(alloc: Global) -> Result<(Vec<Desk>, Vec<Desk>), OutOfMemory>
    ensures fresh { IfOk result (λ made. AllZip IsFreshPair made.0.items made.1.items) }
    ensures first { IfOk result (λ made. length made.0.items ≡ 8) }
    ensures second { IfOk result (λ made. length made.1.items ≡ 8) }
{
    let Ok(mut firsts) = Vec::with_capacity(alloc, CELLS) else {
        return Err(OutOfMemory);
    };
    let Ok(mut seconds) = Vec::with_capacity(alloc, CELLS) else {
        return Err(OutOfMemory);
    };
    let mut made = 0usize;
    while made < CELLS {
        let (first, second) = Desk::pair(alloc)?;
        firsts.push_reserved(first);
        seconds.push_reserved(second);
        made += 1;
    }
    Ok((firsts, seconds))
}

/// The cells of desks that are in pairs.
fn join_all<R: Wait>(
    rt: &R,
    alloc: Global,
    firsts: Vec<Desk>,
    seconds: Vec<Desk>,
) -> Result<Vec<StressCell>, OutOfMemory>
    requires { AllZip IsPair firsts.items seconds.items }
    ensures { IfOk result (λ cells. Joined firsts.items seconds.items cells.items) }
{
    let Ok(mut cells) = Vec::with_capacity(alloc, firsts.len()) else {
        return Err(OutOfMemory);
    };
    let mut firsts = VecDeque::from(firsts);
    let mut seconds = VecDeque::from(seconds);
    while let Some(first) = firsts.pop_front() {
        match seconds.pop_front() {
            Some(second) => cells.push_reserved(first.join(rt, second)),
            None => unreachable!(),
        }
    }
    Ok(cells)
}

/// The ends of two jobs.
fn two_ends<E: Drop>(ends: Vec<E>) -> (E, E)
    requires { length ends.items ≡ 2 }
    ensures { ends.items ≡ result.0 ∷ result.1 ∷ [] }
{
    let mut ends = VecDeque::from(ends);
    match (ends.pop_front(), ends.pop_front()) {
        (Some(first), Some(second)) => (first, second),
        _ => unreachable!(),
    }
}
