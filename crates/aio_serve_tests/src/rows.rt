//! What is dealt to rows comes back in its order.

use crate::asserts::{MEMORY, same};
use aio_jobs::{Rows, deal, gather};
use std::alloc::Global;
use std::process::Abort;

/// The numbers from 0 on, so many.
fn numbers(rt: &impl Abort, alloc: Global, count: u32) -> Vec<u32> {
    let mut numbers = Vec::new(alloc);
    for number in 0..count {
        numbers.push(number).expect(rt, MEMORY);
    }
    numbers
}

/// So many numbers, dealt to so many rows.
fn dealt(rt: &impl Abort, alloc: Global, count: u32, rows: u32) -> Rows<u32> {
    deal(alloc, numbers(rt, alloc, count), rows.max(1)).expect(rt, MEMORY)
}

#[test]
fn each_row_has_every_third_of_three(rt: HostRuntime) {
    let mut dealt = dealt(&rt, rt.alloc(), 8, 3);
    let first = dealt.take_row().expect(&rt, "there is a row");
    let mut alone = Rows::new(rt.alloc());
    alone.add(first).expect(&rt, MEMORY);
    let row = gather(rt.alloc(), alone).expect(&rt, MEMORY);
    same(&rt, row.as_slice(), [0, 3, 6].as_slice());
}

/// Deals so many numbers to sixteen rows, and gathers them.
fn dealt_and_gathered(rt: &impl Abort, alloc: Global, count: u32) -> Vec<u32> {
    gather(alloc, dealt(rt, alloc, count, 16)).expect(rt, MEMORY)
}

#[test]
fn numbers_that_were_dealt_are_gathered_in_order(rt: HostRuntime) {
    let wanted = numbers(&rt, rt.alloc(), 1024);
    let found = dealt_and_gathered(&rt, rt.alloc(), 1024);
    same(&rt, found.as_slice() == wanted.as_slice(), true);
    let few = dealt_and_gathered(&rt, rt.alloc(), 2);
    same(&rt, few.as_slice(), [0, 1].as_slice());
}
