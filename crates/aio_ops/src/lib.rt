//! The queue of operations on registered timers: what the users of a shared reactor want done to the
//! book of timers, until whoever has the book does it (`async-io` 2, `reactor.rs`,
//! `Reactor::timer_ops`).
//!
//! It stands on `aio_timers`, on the rule of operations in `aio_rules`, which holds after each step of any
//! thread, and on the kit's bounded queue for threads. It promises of each call what it pushed or popped,
//! in order, whatever other threads do; that an operation which is not queued comes back; that a drain
//! applies to the book exactly the operations that it popped; and that it leaves none in the queue which
//! its pass had pushed before, if the counts of full queues and of empty pops rise only where the kit's
//! queue answered so, as reading shows. So a timer that one pass inserted and removed is out of the book once the
//! removal was applied.
#![tactic(auto)]

mod ops;
mod queue;
mod removal_laws;

pub use ops::{OpPass, Ops, PassRefusal};
pub use removal_laws::a_removed_timer_is_out_of_the_book;
