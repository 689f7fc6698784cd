//! The listeners of one direction of a source: who waits, in the order of arrival, and with which
//! waker.
//!
//! It stands on the kit's `slab` alone: a doubly linked list through the slab's nodes, which a
//! listener joins at the end and leaves anywhere in constant time. It promises the whole list after
//! each call: which entry came, went, got a waker or lost it, with the order and all other entries
//! kept, and that no ticket is ever given twice.
#![tactic(auto)]

mod drain;
mod link;
mod listeners;
mod node;
mod order;
mod ticket;

pub use listeners::{AddRefusal, Listeners};
pub use ticket::Ticket;
