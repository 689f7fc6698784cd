//! A worker: a post at a server's reactor, and the places of the pairs that it serves.

ghost use Rattle.std.specs.Prelude.{◌≡◌, ◌<◌, ◌≤◌, ◌^◌, ◌++◌, ◌∷◌, [], ℕ, length, IfOk, OnOk};
ghost use Rattle.std.specs.List.{AllZip};
ghost use Rattle.std.specs.VecDeque.{deque_len};
ghost use Rattle.aio_base.specs.ClockBounds.{IsWithin};
ghost use Rattle.aio_park.specs.declared.group.Slot.TheVariants.{Running};
ghost use Rattle.aio_serve.specs.Places.{WorkerEnds};
ghost use Rattle.aio_serve.specs.Seated.{IsSeated};

use crate::seats::Seats;
use crate::served::Served;
use aio_base::{Clock, Conn, EventWait, Gate, Job, Moment, Notify, OutOfMemory};
use aio_pairs::PairEnd;
use aio_park::{Group, GroupRefusal, Post, Thread, WorkerFault, run_then_hand_over};
use aio_places::Place;
use std::alloc::Global;
use std::collections::VecDeque;
use std::marker::Model;
use std::sync::Wait;
use std::thread::Threads;

/// One thread's part of a server: its post at the reactor, and up to 64 places of pairs, in their order.
/// Contracts see the parker, under which terms it serves, whether its reactor is sure of its wait, and
/// the places.
pub struct Worker<'g, N: Notify, C: Clock, A: Conn, W: EventWait, G> {
    post: Post<N, C, A, W>,
    places: VecDeque<Place<A, W>>,
    idle: u64,
    gate: &'g G,
    alloc: Global,
}

impl<'g, N: Notify, C: Clock, A: Conn, W: EventWait, G> Model for Worker<'g, N, C, A, W, G> {
    ghost use Rattle.std.specs.Prelude.{◌<◌, ◌≤◌, ◌^◌};
    ghost use Rattle.std.specs.VecDeque.{deque_len};
    ghost use Rattle.aio_serve.specs.Places.{WorkerValue};

    ghost Value = { WorkerValue };

    ghost view = { λ w. record {
      parker = w.post.parker;
      terms = record {
        bounds = C.bounds w.post.clock;
        idle = w.idle;
        is_sure = N.is_sure w.post.member.notifier;
      };
      sure_of_wait = w.post.member.claim.sure_of_wait;
      places = w.places.items;
    } };

    ghost invariant = { λ w. (w.post.parker < 16) × (deque_len w.places ≤ 64)
        × (0 < w.idle) × (w.idle ≤ 10 ^ 18) };
}

impl<'g, N: Notify + Drop, C: Clock + Drop, A: Conn + Drop, W: EventWait + Drop, G> Drop
    for Worker<'g, N, C, A, W, G> {
    fn drop(self) {
        let Worker {
            post: _,
            places: _,
            idle: _,
            gate: _,
            alloc: _,
        } = self;
    }
}

impl<'g, N: Notify, C: Clock, A: Conn, W: EventWait, G> Worker<'g, N, C, A, W, G> {
    /// A worker at this post. It serves 64 places at most. A pair is idle once no byte went over for
    /// `idle` nanoseconds, 1 to 10^18.
    pub fn new(
        post: Post<N, C, A, W>,
        places: VecDeque<Place<A, W>>,
        idle: u64,
        gate: &'g G,
        alloc: Global,
    ) -> Worker<'g, N, C, A, W, G>
        requires small { post.parker < 16 }
        requires few { deque_len places ≤ 64 }
        requires some { 0 < idle }
        requires bound { idle ≤ 10 ^ 18 }
        ensures { result ≡ record {
          parker = post.parker;
          terms = record {
            bounds = C.bounds post.clock;
            idle = idle;
            is_sure = N.is_sure post.member.notifier;
          };
          sure_of_wait = post.member.claim.sure_of_wait;
          places = places.items;
        } }
    {
        Worker {
            post,
            places,
            idle,
            gate,
            alloc,
        }
    }
}

impl<'g, N: Notify + Drop, C: Clock + Drop, A: Conn + Drop, W: EventWait + Drop, G> Worker<
    'g,
    N,
    C,
    A,
    W,
    G,
> {
    // The worker's thread, and the places seated in a group, where there was memory for it: both with the
    // worker's parker. The idle times of the pairs run from a moment that the clock answered.
    fn begin<R: Wait + Copy>(
        self,
        rt: R,
    ) -> (
        Thread<R, N, A, W, C>,
        Result<Seats<'g, A, W, C, G>, OutOfMemory>,
    )
        ensures thread { self.entry ≡ record {
          parker = result.0.parker;
          terms = record {
            bounds = C.bounds result.0.clock;
            idle = self.entry.terms.idle;
            is_sure = N.is_sure result.0.host.member.notifier;
          };
          sure_of_wait = result.0.host.member.claim.sure_of_wait;
          places = self.entry.places;
        } }
        ensures parker { IfOk result.1 (λ seats. seats.parker ≡ self.entry.parker) }
        ensures seated { IfOk result.1 (λ seats. (start : ℕ)
            × IsWithin (C.bounds result.0.clock) start
            × AllZip (IsSeated (C.bounds result.0.clock) self.entry.terms.idle start)
            self.entry.places seats.slots) }
    {
        let Worker {
            post,
            places,
            idle,
            gate,
            alloc,
        } = self;
        let mut thread = post.into_thread(rt);
        let start = thread.clock.now();
        let seated = seat_all(
            alloc,
            thread.parker,
            places,
            idle,
            start,
            gate,
            &thread.clock,
        );
        (thread, seated)
    }
}

/// A worker ends with an end for each of its places, in their order, or with its fault. Right
/// before that it wakes a slot of each other parker, so that one of them makes rounds in its place.
impl<'g, N: Notify + Drop, C: Clock + Drop, A: Conn + Drop, W: EventWait + Drop, G: Gate> Job
    for Worker<'g, N, C, A, W, G> {
    type End = Result<Vec<PairEnd>, WorkerFault>;

    ghost may_end = { WorkerEnds };

    fn run<R: Wait + Threads + Sync + Send + Copy>(
        self,
        rt: &R,
    ) -> Result<Vec<PairEnd>, WorkerFault> {
        let (mut thread, seated) = self.begin(*rt);
        run_then_hand_over(&mut thread, seated)
    }
}

/// The places, each in a slot of a group of this parker, in their order, with a twin of the clock.
fn seat_all<'g, A: Conn + Drop, W: EventWait + Drop, C: Clock + Drop, G>(
    alloc: Global,
    parker: u32,
    places: VecDeque<Place<A, W>>,
    idle: u64,
    start: Moment,
    gate: &'g G,
    clock: &C,
) -> Result<Seats<'g, A, W, C, G>, OutOfMemory>
    requires small { parker < 16 }
    requires few { deque_len places ≤ 64 }
    requires some { 0 < idle }
    requires bound { idle ≤ 10 ^ 18 }
    ensures seated { IfOk result (λ seats. AllZip (IsSeated (C.bounds clock.now) idle start)
        places.items seats.slots) }
    ensures parker { IfOk result (λ seats. seats.parker ≡ parker) }
{
    let mut group = Group::new(alloc, parker);
    let mut left = places;
    let pairs = left.len() as u32;
    while let Some(place) = left.pop_front() {
        let served = Served::among(alloc, place, idle, start, gate, clock.twin()?, pairs)?;
        seat(&mut group, served)?;
    }
    Ok(Seats { group, gate })
}

/// Puts a pair in the next slot of a group. `OutOfMemory` where there was no memory for it; it is let go.
fn seat<T: Drop>(group: &mut Group<T, PairEnd>, served: T) -> Result<(), OutOfMemory>
    requires room { length group.old.slots < 64 }
    ensures { OnOk result (group.new ≡ record group.old {
      slots = group.old.slots ++ Running served ∷ [];
    }) }
{
    match group.add(served) {
        Ok(_) => Ok(()),
        Err((_, GroupRefusal::Full)) => unreachable!(),
        Err((_, GroupRefusal::OutOfMemory)) => Err(OutOfMemory),
    }
}
