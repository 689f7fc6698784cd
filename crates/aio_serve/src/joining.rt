//! Workers are run, and the ends of all pairs put in order.

ghost use Rattle.std.specs.Prelude.{List, Bool, Vec, map, IfOk, IfErr};
ghost use Rattle.std.specs.declared.alloc.Global.{Global};
ghost use Rattle.std.specs.List.{AllZip};
ghost use Rattle.aio_jobs.specs.Dealing.{GivesInTurn};
ghost use Rattle.aio_places.specs.Places.{PlaceValue};
ghost use Rattle.aio_pairs.specs.declared.outcomes.PairEnd.{PairEnd};
ghost use Rattle.aio_park.specs.Posts.{HaveParkers, OneStopsFor};
ghost use Rattle.aio_serve.specs.Places.{AllServeUnder, PlaceFits, Terms, WorkerValue, worker_terms};

use crate::worker::Worker;
use aio_base::{Clock, Conn, EventWait, Gate, Notify, OutOfMemory, Spawner};
use aio_jobs::{Rows, gather};
use aio_pairs::PairEnd;
use aio_park::{WorkerFault, ends_of};
use std::alloc::Global;
use std::collections::VecDeque;
use std::sync::Wait;
use std::thread::Threads;

/// The ends of all pairs, in the order in which the pairs were dealt to the workers: one of each in turn.
/// `OutOfMemory` where memory ran out; all ends are let go.
fn in_turn(alloc: Global, ends: VecDeque<Vec<PairEnd>>) -> Result<Vec<PairEnd>, OutOfMemory>
    ensures { IfOk result (λ all. GivesInTurn
        (map (λ (row : Vec PairEnd Global). row.items) ends.items) all.items) }
{
    let rows = Rows::of(alloc, ends)?;
    gather(alloc, rows)
}

/// Runs the workers, each once and by a parker of its own, and answers the ends of their pairs in the order
/// in which the pairs were dealt to them: one of each worker in turn.
///
/// # Errors
///
/// The fault of the first worker that has one, once all workers have stopped; or want of memory. All
/// ends are let go then.
pub(crate) fn run_workers<
    R: Wait + Threads + Sync + Send + Copy,
    T: Spawner,
    N: Notify + Send + Drop,
    C: Clock + Send + Drop,
    A: Conn + Send + Drop,
    W: EventWait + Send + Drop,
    G: Gate + Sync,
>(
    alloc: Global,
    rt: &R,
    spawner: &mut T,
    workers: Vec<Worker<'_, N, C, A, W, G>>,
) -> Result<Vec<PairEnd>, WorkerFault>
    requires parkers { HaveParkers (λ (w : WorkerValue). w.parker) 0 workers.items }
    ensures ends { IfOk result (λ ends.
        (t : Terms) (sure_of_wait : Bool) (places : List PlaceValue)
        → AllServeUnder t sure_of_wait workers.entry.items
        → GivesInTurn (map (λ (w : WorkerValue). w.places) workers.entry.items) places
        → AllZip (PlaceFits t) places ends.items) }
    ensures cause { IfErr result (OneStopsFor worker_terms workers.entry.items) }
{
    let Ok(ended) = spawner.run_all(alloc, rt, workers) else {
        return Err(WorkerFault::OutOfMemory);
    };
    match ends_of(alloc, ended) {
        Err(fault) => Err(fault),
        Ok(ends) => match in_turn(alloc, ends) {
            Ok(all) => Ok(all),
            Err(_) => Err(WorkerFault::OutOfMemory),
        },
    }
}
