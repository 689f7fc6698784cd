//! What no clause says of a thread that blocks on a group: that the group ends, also with as many tasks as it
//! may have.

use crate::asserts::same;
use crate::readers::{Alone, alone, block_on, waits};
use crate::tasks::{Link, WakesItself};
use aio_base::Task;
use aio_devices::{MemNotify, MemWait, SureArm};
use aio_park::Group;
use aio_shared::Inside;
use std::alloc::Global;
use std::process::Abort;
use std::sync::Wait;

/// A thread over devices that never fail, and give no event.
type Undisturbed<R> = Alone<R, MemNotify, SureArm, MemWait>;

/// Blocks on a group. Its answers, and how many waits there were then.
fn answers_of<
    R: Wait + Copy + Abort,
    T: Task<Inside<R, MemNotify, SureArm, MemWait>, Output = u64> + Drop,
>(rt: R, alloc: Global, mut group: Group<T, u64>) -> (Vec<u64>, Option<u64>) {
    let devices = (MemNotify::new(), MemWait::new(0));
    let mut thread: Undisturbed<R> = alone(rt, alloc, devices, (1, 0));
    let blocked = block_on(&mut thread, &mut group);
    drop(group);
    let waits = waits(&mut thread);
    drop(thread);
    (blocked.expect(&rt, "answers"), waits)
}

/// Adds a task to a group, for which there is room.
fn join<T: Drop>(rt: &impl Abort, group: &mut Group<T, u64>, task: T) {
    same(rt, group.add(task).is_ok(), true);
}

/// A group of tasks that wake themselves, and end at these polls with the answers beside them.
fn waking(rt: &impl Abort, alloc: Global, tasks: &[(u64, u64)]) -> Group<WakesItself, u64> {
    let mut group = Group::new(alloc, 0);
    for (last, answer) in tasks {
        join(rt, &mut group, WakesItself::until(*last, *answer));
    }
    group
}

/// A group of so many links of a chain.
fn chain(rt: &impl Abort, alloc: Global, length: u32) -> Group<Link, u64> {
    let mut group = Group::new(alloc, 0);
    for _ in 0..length {
        join(rt, &mut group, Link::new());
    }
    group
}

#[test]
fn a_group_answers_in_the_order_of_its_slots(rt: HostRuntime) {
    let group = waking(&rt, rt.alloc(), &[(2, 10), (1, 11)]);
    let (answers, waits) = answers_of(&rt, rt.alloc(), group);
    let is_in_order = answers.as_slice() == [10, 11].as_slice();
    same(&rt, (is_in_order, waits), (true, Some(1)));
}

/// Whether these are the slots from 0 on, so many.
fn are_slots(answers: &[u64], count: usize) -> bool {
    let mut next: u64 = 0;
    for answer in answers {
        if *answer != next {
            return false;
        }
        next = next.saturating_add(1);
    }
    answers.len() == count
}

// Each wake is in a mask of its own, and before each poll there is a round.
#[test]
fn each_of_64_slots_is_woken_in_turn(rt: HostRuntime) {
    let group = chain(&rt, rt.alloc(), 64);
    let (answers, waits) = answers_of(&rt, rt.alloc(), group);
    let are_all = are_slots(answers.as_slice(), 64);
    same(&rt, (are_all, waits), (true, Some(64)));
}
