//! The state of a source and its calls.

ghost use Rattle.std.specs.Prelude.{◌≡◌, ◌+◌, ◌-◌, ◌^◌, ◌<◌, ◌≤◌, ◌++◌, ◌↔◌, [], false, true, length, IfSome, IsErrOf, vec_len, vec_capacity};
ghost use Rattle.aio_base.specs.World.{directions};
ghost use Rattle.aio_listen.specs.Listening.{Holds, has_ticket};
ghost use Rattle.aio_source.specs.Rules.{new_source, is_above, waiters_of, waiters_in, direction_of, taken_along, polling, listening_first, listening_on, polling_again, unlistened, handling, Covered};
ghost use Rattle.aio_source.specs.Lent.{arm_answer, fault_of, UsesArm, arm_of, settled};
ghost use Rattle.aio_source.specs.Answers.{poll_answer, armed_in, armed_first, listened_in, ticket_in};

mod asks;

use crate::answers::{ListenRefusal, Listened, Polled};
use crate::arming::Arming;
use crate::directions::Directions;
use aio_base::{Arm, ArmFault, Dir, Event, Interest, Key, Poll, Waker};
use aio_listen::{AddRefusal, Ticket};
use std::alloc::Global;
use std::marker::Model;

/// A source of a reactor (`async-io` 2, `reactor.rs`, `Source`): its key, who waits for its
/// directions, and what the poller was asked for.
///
/// Each direction with a waiter was asked for, or the last arm failed; its key is below 4,096.
pub struct SourceState {
    // Fields lie in this order: these two small ones share a word.
    key: Key,
    arming: Arming,
    directions: Directions,
}

impl Model for SourceState {
    ghost use Rattle.std.specs.Prelude.{◌<◌};
    ghost use Rattle.aio_source.specs.Values.{SourceValue};
    ghost use Rattle.aio_source.specs.Rules.{Covers};

    ghost Value = { SourceValue };

    ghost view = { λ s. record {
      key = s.key;
      directions = s.directions;
      asked = s.arming.asked;
      broken = s.arming.broken;
    } };

    ghost invariant = { λ s. (s.key.0 < 4096)
        × Covers s.directions s.arming.asked s.arming.broken };
}

impl Drop for SourceState {
    fn drop(self) {
        let SourceState {
            key: _,
            arming: _,
            directions: _,
        } = self;
    }
}

/// A source beside the object that is armed for it.
#[derive(Drop)]
pub struct SourceCell<A> {
    pub state: SourceState,
    pub io: A,
}

impl SourceState {
    /// A source with no waiter, of which no event was handled and for which nothing was asked. It
    /// takes no memory; its listeners take theirs from `alloc`.
    pub fn new(alloc: Global, key: Key) -> SourceState
        requires { key.0 < 4096 }
        ensures { result ≡ new_source key }
    {
        SourceState {
            key,
            arming: Arming {
                asked: Interest::NONE,
                broken: false,
            },
            directions: Directions::new(alloc),
        }
    }

    /// The number under which the source is registered.
    pub fn key(&self) -> Key
        ensures value { result ≡ self.now.key }
        ensures bound { result.0 < 4096 }
    {
        self.key
    }

    /// How many waiters a direction has: its poll waiter, and its listeners that hold a waker.
    pub fn waiting(&self, dir: Dir) -> u64
        ensures value { result ≡ length (waiters_of (direction_of self.now.directions dir)) }
        ensures bound { result ≤ 2 ^ 63 }
    {
        self.directions.get(dir).waiting()
    }

    /// Whether the source has had no listener yet. A waiter of each direction waits at most then.
    pub fn is_only_polled(&self) -> bool
        ensures { result ≡ true → length (waiters_in directions self.now.directions) ≤ length directions }
    {
        self.directions.are_only_polled()
    }

    /// Whether a waiter may wait: false only if none does. It is told by what was asked of the poller.
    #[inline(always)]
    #[tactic(auto, using(crate::proofs::AskLemmas::nobody_in))]
    pub fn may_wait(&self) -> bool
        ensures { result ≡ false → waiters_in directions self.now.directions ≡ [] }
    {
        self.arming.may_wait()
    }

    /// Whether the last round that handled an event of a direction is above both numbers.
    pub fn ready_since(&self, dir: Dir, a: u64, b: u64) -> bool
        ensures { result ≡ is_above a b (direction_of self.now.directions dir).tick }
    {
        self.directions.get(dir).is_above(a, b)
    }

    /// The interest that the last arm asked for: none where it failed, or where no waiter was left
    /// after an event.
    pub fn asked(&self) -> Interest
        ensures value { result ≡ self.now.asked }
        ensures covered { Covered self.now }
    {
        self.arming.asked
    }

    /// Whether the last arm failed.
    pub fn broken(&self) -> bool
        ensures value { result ≡ self.now.broken }
        ensures covered { Covered self.now }
    {
        self.arming.broken
    }

    /// The last round that handled an event of a direction, and 0 before the first.
    pub fn tick(&self, dir: Dir) -> u64
        ensures { result ≡ (direction_of self.now.directions dir).tick }
    {
        self.directions.get(dir).tick()
    }

    /// Whether a listener of a direction has this ticket.
    pub fn holds(&self, dir: Dir, t: Ticket) -> bool
        ensures { result ≡ has_ticket (direction_of self.now.directions dir).listeners.entries t }
    {
        self.directions.get(dir).holds(t)
    }

    /// Polls a direction with a waker, while `ticker` rounds have begun (`async-io` 2, `reactor.rs`,
    /// `Source::poll_ready`). It is ready where a round that began after the poll waiter was stored
    /// has handled an event of the direction. Otherwise the waker becomes the poll waiter, which
    /// stays also where the poller could not be armed: `ArmFault` only where the count of faults of
    /// `arm` rose. A poll waiter that it replaced is handed out to be woken. It takes no memory.
    #[inline(always)]
    pub fn poll_dir<A: Arm>(&mut self, arm: &mut A, dir: Dir, w: Waker, ticker: u64) -> Polled
        ensures answer { let p = polling self.old dir w ticker in
            result ≡ record {
              answer = poll_answer p.ready (fault_of self.old.key (A.fault_count arm.old)
                  (A.fault_count arm.new) (arm_answer (armed_in result.answer)));
              replaced = p.replaced;
            } }
        ensures after { let p = polling self.old dir w ticker in
            self.new ≡ settled p.arms (arm_answer (armed_in result.answer)) p.source }
        ensures key { self.new.key ≡ self.old.key }
        ensures lent { let p = polling self.old dir w ticker in
            UsesArm A.arm_step A.interests A.rest A.fault_count A.is_sure
            p.arms (arm_of p.source) (arm_answer (armed_in result.answer)) arm.old arm.new }
    {
        let direction = self.directions.get_mut(dir);
        if direction.is_ready() {
            direction.see();
            return Polled {
                answer: Poll::Ready(Ok(())),
                replaced: None,
            };
        }
        let arms = direction.is_idle() || self.arming.broken;
        let replaced = direction.store(w, ticker);
        let armed = self.arming.arm_where(arms, arm, self.key, &self.directions);
        Polled {
            answer: pending_unless(armed),
            replaced,
        }
    }

    /// A listener's first poll of a direction, while `ticker` rounds have begun (`async-io` 2,
    /// `reactor.rs`, the future `Ready`): it becomes the last listener of the direction with this
    /// waker, and remembers the rounds begun and the last round of the direction. `Ok` means that it
    /// is pending. `ArmFault` only where the count of faults of `arm` rose; the listener stays.
    /// `TicketsSpent` exactly where 2^64 - 1 tickets of the direction were drawn, and `OutOfMemory`
    /// where memory ran out; both come before the poller is armed and leave all as it was.
    pub fn first_listen<A: Arm>(
        &mut self,
        arm: &mut A,
        dir: Dir,
        w: Waker,
        ticker: u64,
    ) -> Result<Listened, ListenRefusal>
        ensures listened { IfSome (listened_in result) (λ l.
            (l.a ≡ ticker) × (l.b ≡ (direction_of self.old.directions dir).tick)) }
        ensures serial { IfSome (ticket_in result) (λ t.
            t.serial ≡ (direction_of self.old.directions dir).listeners.drawn + 1) }
        ensures fresh { IfSome (ticket_in result) (λ t.
            ¬ Holds (direction_of self.old.directions dir).listeners.entries t) }
        ensures spent { IsErrOf result ListenRefusal.TicketsSpent
            ↔ ((direction_of self.old.directions dir).listeners.drawn ≡ 2 ^ 64 - 1) }
        ensures fault { armed_first result ≡ fault_of self.old.key (A.fault_count arm.old)
            (A.fault_count arm.new) (arm_answer (armed_first result)) }
        ensures after { let p = listening_first self.old dir w (ticket_in result) in
            self.new ≡ settled p.arms (arm_answer (armed_first result)) p.source }
        ensures key { self.new.key ≡ self.old.key }
        ensures lent { let p = listening_first self.old dir w (ticket_in result) in
            UsesArm A.arm_step A.interests A.rest A.fault_count A.is_sure
            p.arms (arm_of p.source) (arm_answer (armed_first result)) arm.old arm.new }
    {
        let direction = self.directions.get_mut(dir);
        let arms = direction.is_idle() || self.arming.broken;
        let b = direction.tick();
        let ticket = match direction.listen(w) {
            Ok(ticket) => ticket,
            Err(AddRefusal::TicketsSpent) => return Err(ListenRefusal::TicketsSpent),
            Err(AddRefusal::OutOfMemory) => return Err(ListenRefusal::OutOfMemory),
        };
        let listened = Listened {
            ticket,
            a: ticker,
            b,
        };
        match self.arming.arm_where(arms, arm, self.key, &self.directions) {
            Ok(()) => Ok(listened),
            Err(fault) => Err(ListenRefusal::ArmFault { fault, listened }),
        }
    }

    /// A listener's later poll. It is ready where a round that began after its first poll has
    /// handled an event of the direction, and stays so. Otherwise the listener holds this waker in
    /// place of an earlier one, which is not woken. `ArmFault` only where the count of faults of
    /// `arm` rose; the listener keeps the waker. It takes no memory.
    pub fn listen_again<A: Arm>(
        &mut self,
        arm: &mut A,
        dir: Dir,
        l: Listened,
        w: Waker,
    ) -> Poll<Result<(), ArmFault>>
        requires { Holds (direction_of self.old.directions dir).listeners.entries l.ticket }
        ensures answer { let p = polling_again self.old dir l w in
            result ≡ poll_answer p.ready (fault_of self.old.key (A.fault_count arm.old)
            (A.fault_count arm.new) (arm_answer (armed_in result))) }
        ensures after { let p = polling_again self.old dir l w in
            self.new ≡ settled p.arms (arm_answer (armed_in result)) p.source }
        ensures key { self.new.key ≡ self.old.key }
        ensures lent { let p = polling_again self.old dir l w in
            UsesArm A.arm_step A.interests A.rest A.fault_count A.is_sure
            p.arms (arm_of p.source) (arm_answer (armed_in result)) arm.old arm.new }
    {
        if self.ready_since(dir, l.a, l.b) {
            return Poll::Ready(Ok(()));
        }
        self.listen_on(arm, dir, l.ticket, w)
    }

    /// A listener's later poll where it is known not to be ready: it holds this waker in place of an
    /// earlier one, which is not woken. `ArmFault` only where the count of faults of `arm` rose; the
    /// listener keeps the waker. It takes no memory.
    #[inline(always)]
    pub fn listen_on<A: Arm>(
        &mut self,
        arm: &mut A,
        dir: Dir,
        t: Ticket,
        w: Waker,
    ) -> Poll<Result<(), ArmFault>>
        requires { Holds (direction_of self.old.directions dir).listeners.entries t }
        ensures answer { result ≡ poll_answer false (fault_of self.old.key (A.fault_count arm.old)
            (A.fault_count arm.new) (arm_answer (armed_in result))) }
        ensures after { let p = listening_on self.old dir t w in
            self.new ≡ settled p.arms (arm_answer (armed_in result)) p.source }
        ensures key { self.new.key ≡ self.old.key }
        ensures lent { let p = listening_on self.old dir t w in
            UsesArm A.arm_step A.interests A.rest A.fault_count A.is_sure
            p.arms (arm_of p.source) (arm_answer (armed_in result)) arm.old arm.new }
    {
        let direction = self.directions.get_mut(dir);
        let arms = direction.is_idle() || self.arming.broken;
        direction.listen_again(t, w);
        pending_unless(self.arming.arm_where(arms, arm, self.key, &self.directions))
    }

    /// Gives up a listener: it goes with its waker, and nothing that was asked for changes. It takes
    /// no memory.
    #[tactic(auto, using(crate::proofs::WaiterLemmas::covers_unlistened))]
    pub fn unlisten(&mut self, dir: Dir, t: Ticket)
        requires { Holds (direction_of self.old.directions dir).listeners.entries t }
        ensures { self.new ≡ unlistened self.old dir t }
    {
        self.directions.get_mut(dir).unlisten(t);
    }

    /// Handles an event of a round (`async-io` 2, `reactor.rs`, `ReactorLock::react`): the waiters of
    /// the directions that it names go to the end of `taken`, in the order of `DIRS` and for each
    /// direction the poll waiter first. Then the poller is armed where a waiter is left. `ArmFault`
    /// only where the count of faults of `arm` rose; the wakers are taken all the same. It takes no
    /// memory.
    #[inline(always)]
    pub fn handle<A: Arm>(
        &mut self,
        arm: &mut A,
        e: Event,
        round: u64,
        taken: &mut Vec<Waker>,
    ) -> Result<(), ArmFault>
        requires key { e.key ≡ self.old.key }
        requires room { vec_len taken.old + length (waiters_in directions self.old.directions)
            ≤ vec_capacity taken.old }
        ensures answer { result ≡ fault_of self.old.key (A.fault_count arm.old)
            (A.fault_count arm.new) (arm_answer result) }
        ensures taken { taken.new.items
            ≡ taken.old.items ++ taken_along e.on round directions self.old.directions }
        ensures capacity { vec_capacity taken.new ≡ vec_capacity taken.old }
        ensures after { let p = handling self.old e.on round in
            self.new ≡ settled p.arms (arm_answer result) p.source }
        ensures lent { let p = handling self.old e.on round in
            UsesArm A.arm_step A.interests A.rest A.fault_count A.is_sure
            p.arms (arm_of p.source) (arm_answer result) arm.old arm.new }
    {
        let may = self.arming.may_wait();
        self.directions.take_waiters(may, e.on, round, taken);
        self.arming.asked = Interest::NONE;
        let left = self.directions.has_waiter_where(may);
        self.arming.arm_where(left, arm, self.key, &self.directions)
    }
}

/// The answer to a poll that is not ready.
fn pending_unless(armed: Result<(), ArmFault>) -> Poll<Result<(), ArmFault>>
    ensures { result ≡ poll_answer false armed }
{
    match armed {
        Ok(()) => Poll::Pending,
        Err(fault) => Poll::Ready(Err(fault)),
    }
}
