//! The ground that most other crates stand on: the names of a reactor (keys, wakers, moments,
//! interests, events), the traits of its devices and of what a reactor is to those that it serves, a host of
//! timers and a host of tasks, with their written meaning, and the definitions of the machine that contracts
//! cite.
//!
//! It stands on nothing but std. The traits promise what `devices` and `hosts` say; the definitions of
//! `specs/` say what the machine answers to each step, and which bytes a trace of steps writes. What
//! holds of the machine is proved in `aio_laws`.
#![tactic(auto)]

pub mod clock;
pub mod connections;
pub mod devices;
pub mod draws;
pub mod hosts;
pub mod jobs;
pub mod later;
pub mod lent;
pub mod names;
pub mod notify;
pub mod outcomes;
mod running;
pub mod steps;
pub mod tasks;

pub use clock::Clock;
pub use connections::{Conn, Did, Port, Tells};
pub use devices::{Arm, EventWait, Faults, Poller};
pub use draws::Draws;
pub use hosts::{Host, InsertRefusal, TimerHost};
pub use jobs::{Gate, Job, Placement, Spawner};
pub use later::Later;
pub use lent::{Lent, Parts};
pub use names::{DIRS, Dir, Event, Interest, Key, Moment, TimerId, Waker};
pub use notify::Notify;
pub use outcomes::{
    ArmFault, CountFault, DueFaults, EndWord, Failed, OutOfMemory, Poll, Waited, Which,
};
pub use steps::{Answer, LineFault, Reason, Step};
pub use tasks::{Cx, Task};
