//! What is kept of sources that the system watches once and for all, and tells of by edges: which edges came
//! that no call has used up, and what is armed. So to arm a source is no call of the system.
//!
//! It stands on `aio_base`, and on `aio_modes` for the lists of a poller in edge mode. One word stands for
//! each key, and each call changes it in single steps that see what they change, so that threads need no
//! lock. Proved is what each step makes of a word, in the words of those lists, and the law over all orders
//! of steps: what is armed, and of which an edge came, is given, or is due to be given by the next wait.
#![tactic(auto)]

mod due;
mod edges;
mod laws;
mod words;

pub use edges::Edges;
pub use laws::what_is_owed_is_seen_to;
