//! The language of traces as it is written: the line of each step and of each answer, and what a whole
//! step gives, at the end of a block of output.
//!
//! It stands on `aio_base`, whose `specs/Lines.antt` and `specs/Text.antt` say how a step and an answer
//! are written. It promises exactly that text behind what stood there, and that nothing is written where
//! there was no room for it. It shares nothing with `aio_trace`, which reads lines. What writes the lines
//! of other versions of the language stands on the same parts.
#![tactic(auto)]

mod answer_lines;
mod step_lines;
mod writing;

pub use step_lines::push_step;
pub use writing::{push_before, push_numbered, write_answer, write_line, write_reply};
