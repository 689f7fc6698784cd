//! What the workers of an executor begin with: each a deque with its row of the places of the tasks, and
//! thieves at the deques of all others.

ghost use Rattle.std.specs.Prelude.{◌≡◌, ◌≤◌, ◌*◌, length, map, IfOk, OnOk};
ghost use Rattle.std.specs.List.{AllByRecursion, AllZip};
ghost use Rattle.aio_jobs.specs.Dealing.{GivesInTurn};
ghost use Rattle.aio_work.specs.Starting.{AreAllOthers, HasAllOthers, IsUnused, deque_of_thief, deques_of, numbers, places_of, sight};

use crate::deques::{OtherDeque, OwnDeque};
use crate::keeping::Desks;
use crate::shifts::Shift;
use crate::work::Work;
use crate::workload::Workload;
use aio_base::{Later, OutOfMemory};
use aio_jobs::deal;
use std::alloc::Global;
use std::collections::VecDeque;
use std::sync::{Arc, Wait};

/// The work of so many threads, 1 to 16, for the tasks at these desks, at most 64 for each thread. Each has
/// a deque, in which its row of the places stands, and thieves at all other deques, the next one first.
/// The places are dealt to them in turn. `OutOfMemory` where memory ran out.
pub fn shifts_of<R: Wait + Copy + Drop, H: Later, K: Work<H> + Drop>(
    alloc: Global,
    rt: R,
    desks: Desks<H, K>,
    count: u32,
    tasks: u32,
) -> Result<VecDeque<Shift<R, H, K>>, OutOfMemory>
where
    K::Output: Drop,
    requires some { 1 ≤ count }
    requires few { tasks ≤ 64 * count }
    ensures count { IfOk result (λ shifts. length shifts.items ≡ count) }
    ensures dealt { IfOk result (λ shifts. GivesInTurn
        (map (λ s. places_of s.workload.own) shifts.items) (numbers 0 tasks)) }
    ensures others { IfOk result (λ shifts. AllByRecursion
        (λ s. HasAllOthers (map (λ t. t.workload.own.deque) shifts.items) s.workload)
        shifts.items) }
{
    let Ok(desks) = Arc::new(alloc, desks) else {
        return Err(OutOfMemory);
    };
    let workloads = workloads_of(alloc, count, tasks)?;
    at_desks(alloc, rt, desks, workloads, count)
}

/// The same as tasks over the desks.
fn at_desks<R: Wait + Copy + Drop, H: Later, K: Work<H> + Drop>(
    alloc: Global,
    rt: R,
    desks: Arc<Desks<H, K>, Global>,
    workloads: VecDeque<Workload>,
    count: u32,
) -> Result<VecDeque<Shift<R, H, K>>, OutOfMemory>
where
    K::Output: Drop,
    requires count { length workloads.items ≡ count }
    ensures { IfOk result (λ shifts. map (λ s. s.workload) shifts.items ≡ workloads.items) }
{
    let Ok(mut shifts) = Vec::with_capacity(alloc, count as usize) else {
        return Err(OutOfMemory);
    };
    let mut left = workloads;
    while let Some(workload) = left.pop_front() {
        let Ok(desks) = Arc::try_clone(&desks) else {
            return Err(OutOfMemory);
        };
        shifts.push_reserved(Shift {
            rt,
            workload,
            desks,
            polls: 0,
        });
    }
    Ok(VecDeque::from(shifts))
}

/// What so many threads hold at first, for so many tasks.
fn workloads_of(alloc: Global, count: u32, tasks: u32) -> Result<VecDeque<Workload>, OutOfMemory>
    requires some { 1 ≤ count }
    requires few { tasks ≤ 64 * count }
    ensures count { IfOk result (λ workloads. length workloads.items ≡ count) }
    ensures dealt { IfOk result (λ workloads. GivesInTurn
        (map (λ w. places_of w.own) workloads.items) (numbers 0 tasks)) }
    ensures others { IfOk result (λ workloads. AllByRecursion
        (HasAllOthers (map (λ w. w.own.deque) workloads.items)) workloads.items) }
{
    let mut rows = deal(alloc, places(alloc, tasks)?, count)?;
    let mut owns = own_deques(alloc, count)?;
    let mut thieves = thieves_of(alloc, &mut owns, count)?;
    let Ok(mut workloads) = Vec::with_capacity(alloc, count as usize) else {
        return Err(OutOfMemory);
    };
    for _made in 0..count {
        let Some(row) = rows.take_row() else {
            unreachable!()
        };
        let Some(own) = owns.pop_front() else {
            unreachable!()
        };
        let Some(others) = thieves.pop_front() else {
            unreachable!()
        };
        workloads.push_reserved(Workload::begin(alloc, own, others, row)?);
    }
    Ok(VecDeque::from(workloads))
}

/// The places of so many tasks, from 0 on.
fn places(alloc: Global, tasks: u32) -> Result<Vec<u32>, OutOfMemory>
    ensures { IfOk result (λ places. places.items ≡ numbers 0 tasks) }
{
    let Ok(mut places) = Vec::with_capacity(alloc, tasks as usize) else {
        return Err(OutOfMemory);
    };
    for place in 0..tasks {
        places.push_reserved(place);
    }
    Ok(places)
}

/// So many deques that hold nothing.
fn own_deques(alloc: Global, count: u32) -> Result<VecDeque<OwnDeque>, OutOfMemory>
    ensures count { IfOk result (λ owns. length owns.items ≡ count) }
    ensures unused { IfOk result (λ owns. AllByRecursion IsUnused owns.items) }
{
    let Ok(mut owns) = Vec::with_capacity(alloc, count as usize) else {
        return Err(OutOfMemory);
    };
    for _made in 0..count {
        owns.push_reserved(OwnDeque::new(alloc)?);
    }
    Ok(VecDeque::from(owns))
}

/// For each of these deques, in their order, thieves at all others, the next one first.
fn thieves_of(
    alloc: Global,
    owns: &mut VecDeque<OwnDeque>,
    count: u32,
) -> Result<VecDeque<VecDeque<OtherDeque>>, OutOfMemory>
    requires count { length owns.old.items ≡ count }
    ensures rows { IfOk result (λ rows. AllZip
        (λ deque row. AreAllOthers (deques_of owns.old.items) deque row.items)
        (deques_of owns.old.items) rows.items) }
    ensures kept { OnOk result (map sight owns.new.items ≡ map sight owns.old.items) }
{
    let Ok(mut rows) = Vec::with_capacity(alloc, count as usize) else {
        return Err(OutOfMemory);
    };
    for _made in 0..count {
        let Some(own) = owns.pop_front() else {
            unreachable!()
        };
        rows.push_reserved(thieves(alloc, owns)?);
        if owns.push_back(own).is_err() {
            return Err(OutOfMemory);
        }
    }
    Ok(VecDeque::from(rows))
}

/// A thief at each of these deques, in their order.
fn thieves(
    alloc: Global,
    owns: &mut VecDeque<OwnDeque>,
) -> Result<VecDeque<OtherDeque>, OutOfMemory>
    ensures thieves { IfOk result (λ others.
        map deque_of_thief others.items ≡ deques_of owns.old.items) }
    ensures kept { OnOk result (map sight owns.new.items ≡ map sight owns.old.items) }
{
    let count = owns.len();
    let Ok(mut others) = Vec::with_capacity(alloc, count) else {
        return Err(OutOfMemory);
    };
    for _made in 0..count {
        let Some(mut own) = owns.pop_front() else {
            unreachable!()
        };
        others.push_reserved(own.thief()?);
        owns.push_back_reserved(own);
    }
    Ok(VecDeque::from(others))
}
