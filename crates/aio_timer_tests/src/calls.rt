//! Calls of a book, with plain numbers in place of its types.

use crate::asserts::MEMORY;
use aio_base::{Moment, TimerId, Waker};
use aio_timers::{TimerBook, TimerOp};
use std::alloc::Global;
use std::process::Abort;

/// Registers a timer. `false` where there is no room for one more, or the deadline is past 10^18.
pub(crate) fn register(book: &mut TimerBook, deadline: u64, id: u64, waker: u32) -> bool {
    if book.spare() == 0 {
        return false;
    }
    match Moment::new(deadline) {
        None => false,
        Some(at) => {
            book.apply(TimerOp::Insert(at, TimerId(id), Waker(waker)));
            true
        }
    }
}

/// Unregisters a timer, where it is there. `false` where the deadline is past 10^18.
pub(crate) fn unregister(book: &mut TimerBook, deadline: u64, id: u64) -> bool {
    match Moment::new(deadline) {
        None => false,
        Some(at) => {
            book.apply(TimerOp::Remove(at, TimerId(id)));
            true
        }
    }
}

/// The wakers that a pass takes.
pub(crate) fn passed(
    rt: &impl Abort,
    alloc: Global,
    book: &mut TimerBook,
    now: Moment,
) -> Vec<Waker> {
    let mut taken = Vec::with_capacity(alloc, book.due_count(now)).expect(rt, MEMORY);
    book.pass(now, &mut taken);
    taken
}
