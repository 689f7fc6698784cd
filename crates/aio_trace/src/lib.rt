//! The language of traces as it is read: which step a line reads as, and what is wrong with a line that
//! reads as none.
//!
//! It stands on `aio_base`, whose `specs/Lines.antt` says what a line reads as, by its words and by one
//! table of what may follow them. It promises both ways: a line reads as a step exactly where that
//! definition says so and otherwise has the fault that it names; and as laws, that a written line reads
//! as its step and as no other. `aio_writing` writes lines. Another version of the language is a `Dialect`,
//! and is read by the same table.
#![tactic(auto)]

mod commands;
mod common;
mod dialect;
pub mod laws;
mod places;
mod reading;
mod runs;
mod taking;
mod words;

pub use aio_base::LineFault;
pub use commands::read_words;
pub use dialect::{Dialect, with_waker, word_is};
pub use reading::{LINE_BYTES, all_allowed, body_of, hand_line, is_header, read_line};
pub use taking::{HandsOut, StepTaker};
pub use words::{has_ended, next_number, next_word};
