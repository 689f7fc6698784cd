//! The book of registered timers: which tasks wake at which moments.
//!
//! It stands on the names and definitions of `aio_base`. It promises the whole book after each call:
//! timers stand in the order in which they fire, by deadline and then by id, a change is that of one
//! pair of a deadline and an id, and a pass takes exactly the wakers that are due, in order.
//!
//! The list is kept as a pairing heap of nodes that are linked by their indices (`nodes`, `siblings`,
//! `merge`, `heap`, `due`), with chains of nodes by id (`buckets`, `chains`) and a list of free nodes
//! (`room`). That is the matter of the book's invariant: no clause above speaks of it.
#![tactic(auto)]

mod book;
mod buckets;
mod chains;
mod due;
mod heap;
mod link;
mod merge;
mod node;
mod nodes;
mod op;
mod reads;
mod room;
mod siblings;
mod steps;
mod timer_heap;

pub use book::TimerBook;
pub use op::TimerOp;
