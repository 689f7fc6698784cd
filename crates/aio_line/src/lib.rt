//! What the command `relay` reads and writes: the words that ask for it, and the lines of its text.
//!
//! It stands on `aio_pairs` for what a pair comes to, and on `aio_trace` for numbers. It promises an order
//! exactly where the words name one, and that each line is the one of its port or of its pair's number and
//! end.
#![tactic(auto)]

mod numbers;
mod texts;
mod words;

pub use numbers::number_up_to;
pub use texts::{listening_text, pair_lines, push_pair_line};
pub use words::{RelayOrder, relay_order};
