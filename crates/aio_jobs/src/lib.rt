//! What a running command shares out and by what it is run: six devices that are lent in one piece;
//! spawners that run jobs on threads or on the caller; a gate that holds nothing back; and rows by which
//! items are dealt to workers in turn and what comes of them is gathered.
//!
//! It stands on `aio_base` alone, so that whatever runs workers can have it without what they serve. It
//! promises that a lender's devices are afterwards as the borrower left them, and that what is dealt in
//! turn and gathered keeps one order, of which each row has its share.
#![tactic(auto)]

mod gates;
mod kit;
mod rows;
mod spawners;

pub use gates::OpenGate;
pub use kit::{Devices, Kit, SixDevices};
pub use rows::{Rows, deal, gather};
pub use spawners::{CallerSpawner, ThreadSpawner};
