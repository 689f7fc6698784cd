//! The history of a source: the calls that were made on it, with what each answered; and calls that a
//! number describes.
//!
//! It stands on `aio_base` alone. It says of each next call on a source what it has to answer, by the
//! steps before it and by nothing else: no tick, no remembered number, no list of listeners. Which calls a
//! seed gives for eight sources is defined here too, and drawn.
#![tactic(auto)]

mod drawing;
mod laws;
mod steps;

pub use drawing::{CellDraws, DrawnCall};
pub use laws::{
    a_step_with_its_answer_replays, a_storing_poll_is_a_place_of_its_past,
    every_drawn_call_is_for_one_cell, notes_tell_their_steps, worked_steps_replay,
    wrong_steps_do_not_replay,
};
pub use steps::{CellCall, CellStep};
