//! Connections in memory, the port that hands them out, and a port that cannot be bound, for what stands
//! above a connection and has to be tried.
//!
//! It stands on `aio_base`, on `aio_devices` for calls that fail by a script, and on `aio_script` for the
//! interest of each key. A connection promises by the relations of its traits what each call answers and
//! what it leaves, tells its bytes and its interests, and says whether it is prompt; its `new` says what it
//! makes.
#![tactic(auto)]

mod closed;
mod connections;
mod giving;
mod peers;
mod pieces;
mod ports;
mod sending;

pub use closed::ClosedPort;
pub use connections::{MemConn, SureConn};
pub use peers::{ENDS, Peer, SILENT};
pub use pieces::Piece;
pub use ports::MemPort;
