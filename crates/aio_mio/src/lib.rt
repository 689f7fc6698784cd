//! The devices of a reactor over the kit's `mio`: connections over TCP streams, the half of a poller that
//! waits, its notifiers, a listening port and the machine's clock.
//!
//! It stands on `aio_base`, whose traits it meets, on `aio_edges`, and on `mio`. Here the system's answers come
//! in: the devices tell no bytes and no interests, and are never sure. What is proved of them is that each call
//! is safe and meets its trait, that a fault is told only where the count of faults rose, and what is made of
//! an event once the system has given it. What the system does is not.
//!
//! The system watches a connection from its first arm until it is taken out, and tells of it by edges. What is
//! armed and which edges came is kept beside that (`aio_edges`): so a later arm is no call of the system, and
//! nothing is asked where it is known that nothing would go over. A notifier calls the system only while a wait
//! may be inside it; `wakes` says why no notify is lost by that.
#![tactic(auto)]

mod answers;
mod clock;
mod connections;
mod keeper;
mod looks;
mod names;
mod notify;
mod parts;
mod ports;
mod reads;
mod selector;
mod waits;
mod wakes;

pub use clock::RealClock;
pub use connections::MioConn;
pub use notify::MioNotify;
pub use parts::{MioRefusal, mio_parts};
pub use ports::MioPort;
pub use reads::{ReadOn, read_on};
pub use waits::MioWait;
