//! Bytes in and out: the source that a program reads and the sink that it writes, with their counts
//! of faults and the bytes that they tell; sources and sinks in memory and over std; and a reader of
//! the lines of a source.
//!
//! It stands on `aio_base`. It promises which bytes were taken and added, what a refusal leaves, and
//! that a fault comes only where the count of faults rose.
#![tactic(auto)]

pub mod adapters;
pub mod lines;
pub mod memory;
pub mod sure;
pub mod torn;
pub mod traits;
pub mod writing;

pub use adapters::{BufferedSource, StdSink, StdSource};
pub use lines::{LONGEST, LineReader, Next};
pub use memory::{MemSink, MemSource};
pub use sure::{SureSink, SureSource};
pub use torn::Torn;
pub use traits::{Sink, SinkRefusal, Source};
pub use writing::{BLOCK, flush, write_all};
