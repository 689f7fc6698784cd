//! The pairs of a worker, polled as one task.

use crate::served::Served;
use aio_base::{Clock, Conn, Cx, EventWait, Gate, Notify, Poll, Task};
use aio_pairs::PairEnd;
use aio_park::Group;
use aio_shared::Inside;
use std::marker::Model;
use std::sync::Wait;
use std::thread::Threads;

/// A group of pairs.
type Pairs<'g, C, W, K, G> = Group<Served<'g, C, W, K, G>, PairEnd>;

/// A group of pairs, with the gate that may hold them, so that the type itself names how long the
/// gate lasts. Contracts see the group.
#[derive(Drop)]
pub(crate) struct Seats<'g, C: Conn, W: EventWait, K: Clock, G> {
    pub(crate) group: Pairs<'g, C, W, K, G>,
    pub(crate) gate: &'g G,
}

impl<'g, C: Conn, W: EventWait, K: Clock, G> Model for Seats<'g, C, W, K, G> {
    ghost use Rattle.aio_pairs.specs.declared.outcomes.PairEnd.{PairEnd};
    ghost use Rattle.aio_park.specs.Groups.{GroupValue};
    ghost use Rattle.aio_serve.specs.Served.{ServedValue};

    ghost Value = { GroupValue ServedValue PairEnd };

    ghost view = { λ seats. seats.group };
}

impl<
    'g,
    R: Wait + Threads + Sync + Send + Copy,
    N: Notify,
    C: Conn + Drop,
    W: EventWait + Drop,
    K: Clock + Drop,
    G: Gate,
> Task<Inside<R, N, C, W>> for Seats<'g, C, W, K, G> {
    ghost use Rattle.aio_park.specs.Groups.{slots_give_later};
    ghost use Rattle.aio_serve.specs.Served.{served_gives, served_gives_later};

    type Output = Vec<PairEnd>;

    ghost gives = { ⟦<Pairs<'g, C, W, K, G> as Task<Inside<R, N, C, W>>>⟧.gives };

    ghost poll_step = { ⟦<Pairs<'g, C, W, K, G> as Task<Inside<R, N, C, W>>>⟧.poll_step };

    ghost poll_count = { λ seats. seats.polls };

    fn poll(&mut self, host: &mut Inside<R, N, C, W>, cx: Cx) -> Poll<Vec<PairEnd>> {
        self.group.poll(host, cx)
    }

    fn polls(&self) -> u64 {
        self.group.polls()
    }

    ghost gives_later = { λ seats sure a b ends.
        slots_give_later served_gives served_gives_later seats.slots sure a b ends.items };
}
