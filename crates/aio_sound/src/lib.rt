//! Laws that join a core to the runs of the machine: each world that a run reaches is one for which a core
//! may stand, and a round of a core that want of memory stopped is one of which the law of stopped
//! rounds speaks.
//!
//! It stands on `aio_react`, whose contracts ask that a world is sound, and on the laws of `aio_laws`.
//! No program calls it: it is what makes the premises of those contracts and laws ones that every run
//! and every core meets.
#![tactic(auto)]

pub mod laws;
