//! The workers of a reactor: a post at it for each, and a row of the places.

ghost use Rattle.std.specs.Prelude.{◌≡◌, ◌≤◌, ◌*◌, ◌^◌, length, map, IfOk};
ghost use Rattle.std.specs.Arc.{arc_value};
ghost use Rattle.aio_shared.specs.Members.{IsMemberOf};
ghost use Rattle.aio_jobs.specs.Dealing.{GivesInTurn};
ghost use Rattle.aio_park.specs.Posts.{HaveParkers};
ghost use Rattle.aio_serve.specs.Places.{AllServeUnder, WorkerValue};

use crate::worker::Worker;
use aio_base::{Clock, Conn, EventWait, Notify, OutOfMemory};
use aio_jobs::deal;
use aio_park::posts_of;
use aio_places::Begun;
use std::alloc::Global;
use std::sync::Wait;

/// The workers of a reactor that began, each with a post at it and its row of the places, which are dealt
/// to them in turn. `OutOfMemory` where memory ran out.
pub(crate) fn workers_of<
    'g,
    R: Wait,
    N: Notify + Drop,
    C: Clock + Drop,
    A: Conn + Drop,
    W: EventWait + Drop,
    G,
>(
    alloc: Global,
    rt: &R,
    begun: Begun<A, W, N>,
    clock: &C,
    gate: &'g G,
    idle: u64,
    count: u32,
) -> Result<Vec<Worker<'g, N, C, A, W, G>>, OutOfMemory>
    requires member { IsMemberOf (arc_value begun.shared) begun.member }
    requires first { (begun.member.ops.number ≡ 0) × (begun.member.ops.splits ≡ 1) }
    requires count { (1 ≤ count) × (count ≤ 16) }
    requires parkers { (arc_value begun.shared).words.parkers ≡ count }
    requires idle { (1 ≤ idle) × (idle ≤ 10 ^ 18) }
    requires few { length begun.places.items ≤ 64 * count }
    ensures dealt { IfOk result (λ workers. GivesInTurn
        (map (λ (w : WorkerValue). w.places) workers.items) begun.places.items) }
    ensures parkers { IfOk result (λ workers.
        HaveParkers (λ (w : WorkerValue). w.parker) 0 workers.items) }
    ensures under { IfOk result (λ workers. AllServeUnder (record {
      bounds = C.bounds clock.now;
      idle = idle;
      is_sure = N.is_sure begun.member.notifier;
    }) begun.member.claim.sure_of_wait workers.items) }
{
    let Begun {
        shared,
        mut member,
        places,
    } = begun;
    let mut rows = deal(alloc, places, count)?;
    let mut posts = posts_of(alloc, rt, &shared, &mut member, clock, count)?;
    let Ok(mut workers) = Vec::with_capacity(alloc, count as usize) else {
        return Err(OutOfMemory);
    };
    for _made in 0..count {
        let Some(row) = rows.take_row() else {
            unreachable!()
        };
        let Some(post) = posts.pop_front() else {
            unreachable!()
        };
        workers.push_reserved(Worker::new(post, row, idle, gate, alloc));
    }
    Ok(workers)
}
