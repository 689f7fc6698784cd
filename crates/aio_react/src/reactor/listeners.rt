//! The calls of a core on its listeners: tasks that wait for its sources beside the poll waiters.

ghost use Rattle.std.specs.Prelude.{◌≡◌, ◌<◌, ◌≤◌, [], None, Some, Err, is_ok, is_some, IfSome, IfErr, IsErr, OnErr};
ghost use Rattle.aio_base.specs.Devices.{PollerStep, TellsFaults};
ghost use Rattle.aio_base.specs.declared.steps.Step.TheVariants as step;
ghost use Rattle.aio_react.specs.declared.refusals.CoreRefusal.TheVariants.{NoListener, OutOfMemory};
ghost use Rattle.aio_listen.specs.Listening.{Holds};
ghost use Rattle.aio_source.specs.Answers.{poll_answer, armed_in};
ghost use Rattle.aio_source.specs.Lent.{arm_answer, fault_of, UsesArm, arm_of, settled};
ghost use Rattle.aio_source.specs.Rules.{direction_of, polling_again};
ghost use Rattle.aio_react.specs.Asking.{UsesPoller, step_part};
ghost use Rattle.aio_react.specs.Cores.{IsListenedTo};
ghost use Rattle.aio_react.specs.Listeners.{listen_reply, listen_refusal, step_reply, step_refusal, step_armed, first_step, IsFirstPoll, drop_reply, given_up};
ghost use Rattle.aio_react.specs.Meeting.{Meets};
ghost use Rattle.aio_react.specs.Numbers.{value_of};
ghost use Rattle.aio_react.specs.Seats.{listened_in};
ghost use Rattle.aio_react.specs.Sections.{IsRefusedBy};

use crate::entries::{Listener, SourceEntry};
use crate::listener_table::{FirstPoll, Seat, listened_in};
use crate::reactor::Core;
use crate::refusals::CoreRefusal;
use aio_base::{Arm, ArmFault, Dir, Key, Poll, Poller, Waker};
use aio_source::{ListenRefusal, Listened, SourceState};

impl<P: Poller> Core<P> {
    /// A new listener of a direction of a source, which has not been polled: its number, from 1 on
    /// in the order in which they came. `NoSource` exactly where no source has this key, and then
    /// `TicketsSpent` exactly where 2^64 - 1 numbers were given. `OutOfMemory` where memory ran out.
    /// A refusal leaves all as it was.
    #[inline(always)]
    pub fn listen(&mut self, key: Key, dir: Dir) -> Result<u64, CoreRefusal>
        ensures meets { IfSome (listen_reply result) (λ reply. Meets
            (PollerStep P.arm_step P.wait_step) P.interests (step.New key dir) None
            reply [] None self.old self.new) }
        ensures cause { IsRefusedBy (listen_refusal self.old.1 key.0) result }
        ensures refused { OnErr result (self.new ≡ self.old) }
        ensures round { self.new.1.round ≡ self.old.1.round }
        ensures poller { self.new.0 ≡ self.old.0 }
    {
        let Some(entry) = self.sources.get_mut(key) else {
            return Err(CoreRefusal::NoSource);
        };
        if self.listeners.given() == u64::MAX {
            return Err(CoreRefusal::TicketsSpent);
        }
        let listener = Listener {
            key,
            dir,
            first: None,
        };
        let Ok(number) = self.listeners.add(listener) else {
            return Err(CoreRefusal::OutOfMemory);
        };
        entry.listeners += 1;
        Ok(number)
    }
    /// Polls a listener with a waker (`async-io` 2, `reactor.rs`, the future `Ready`), as
    /// `SourceState::first_listen` does at its first poll and `listen_again` at each later one, while
    /// as many rounds have begun as the core counts. Nobody is to be woken. `NoListener` exactly
    /// where no living listener has this number. At a first poll alone `TicketsSpent`, exactly where
    /// 2^64 - 1 tickets of the direction were drawn, and `OutOfMemory` where memory ran out. A refusal
    /// leaves all as it was, and the poller is not armed. `ArmFault`, inside the answer, only where
    /// the poller's count of faults rose; the listener stays.
    #[inline(always)]
    pub fn step(
        &mut self,
        listener: u64,
        w: Waker,
    ) -> Result<Poll<Result<(), ArmFault>>, CoreRefusal>
        ensures meets { IfSome (step_reply result) (λ reply. Meets
            (PollerStep P.arm_step P.wait_step) P.interests (step.StepEar listener w) None
            reply [] None self.old self.new) }
        ensures cause { IsRefusedBy (step_refusal self.old.1 listener) result }
        ensures memory { result ≡ Err OutOfMemory → IsFirstPoll self.old.1.listeners listener }
        ensures refused { OnErr result (self.new ≡ self.old) }
        ensures round { self.new.1.round ≡ self.old.1.round }
        ensures lent { UsesPoller P.arm_step P.interests P.rest P.fault_count P.is_sure
            (step_part self.old.1 self.new.1 listener w) (step_armed result)
            self.old.0 self.new.0 }
        ensures faults { TellsFaults P.fault_count P.is_sure self.old.0 self.new.0
            (IsErr (step_armed result)) }
        ensures fault { IfErr (step_armed result) (λ fault.
            IfSome (value_of self.old.1.listeners listener) (λ l. fault ≡ record {
              key = l.key;
              before = P.fault_count self.old.0;
              after = P.fault_count self.new.0;
            })) }
    {
        let seat = self.listeners.seat(listener);
        if let Seat::Polled {
            dir,
            key,
            place,
            early,
        } = seat
        {
            let first_poll = self.listeners.first_poll(listener);
            return match self.sources.given_mut(Key(key as u32)) {
                Some(entry) => Ok(poll_again(
                    &mut entry.source,
                    &mut self.poller,
                    dir,
                    place,
                    early,
                    first_poll,
                    w,
                )),
                None => Err(CoreRefusal::NoListener),
            };
        }
        let Seat::Unpolled { dir, key } = seat else {
            return Err(CoreRefusal::NoListener);
        };
        let listened = match self.sources.given_mut(Key(key as u32)) {
            Some(entry) => entry
                .source
                .first_listen(&mut self.poller, dir, w, self.ticker),
            None => return Err(CoreRefusal::NoListener),
        };
        let (answer, first) = match told_first(listened) {
            Ok(told) => told,
            Err(refusal) => return Err(refusal),
        };
        let heard = Listener {
            key: Key(key as u32),
            dir,
            first: Some(first),
        };
        self.listeners.set(listener, heard);
        Ok(answer)
    }

    /// Gives up a listener: it goes with its waker, and nothing that was asked of the poller changes.
    /// `NoListener` exactly where no living listener has this number; all is as it was then. It takes
    /// no memory.
    #[inline(always)]
    pub fn unlisten(&mut self, listener: u64) -> Result<(), CoreRefusal>
        ensures meets { Meets (PollerStep P.arm_step P.wait_step) P.interests
            (step.DropEar listener) None (drop_reply result) [] None self.old self.new }
        ensures known { is_ok result ≡ is_some (value_of self.old.1.listeners listener) }
        ensures refused { IfErr result (λ refusal.
            (refusal ≡ NoListener) × (self.new ≡ self.old)) }
        ensures round { self.new.1.round ≡ self.old.1.round }
        ensures poller { self.new.0 ≡ self.old.0 }
    {
        let Some(heard) = self.listeners.take(listener) else {
            return Err(CoreRefusal::NoListener);
        };
        let Some(entry) = self.sources.given_mut(heard.key) else {
            return Err(CoreRefusal::NoListener);
        };
        give_up(entry, heard);
        Ok(())
    }
}

/// Polls a listener again, by its seat's direction, place and `early`. Where no round later than that has
/// handled an event of the direction, what lies beside the seat is not read.
#[inline(always)]
fn poll_again<A: Arm>(
    source: &mut SourceState,
    arm: &mut A,
    dir: Dir,
    place: u32,
    early: u16,
    first_poll: &FirstPoll,
    w: Waker,
) -> Poll<Result<(), ArmFault>>
    requires early { early ≤ first_poll.now.a }
    requires holds { let first = listened_in place first_poll.now in
        Holds (direction_of source.old.directions dir).listeners.entries first.ticket }
    ensures answer { let p = polling_again source.old dir (listened_in place first_poll.now) w in
        result ≡ poll_answer p.ready (fault_of source.old.key (A.fault_count arm.old)
        (A.fault_count arm.new) (arm_answer (armed_in result))) }
    ensures after { let p = polling_again source.old dir (listened_in place first_poll.now) w in
        source.new ≡ settled p.arms (arm_answer (armed_in result)) p.source }
    ensures key { source.new.key ≡ source.old.key }
    ensures lent { let p = polling_again source.old dir (listened_in place first_poll.now) w in
        UsesArm A.arm_step A.interests A.rest A.fault_count A.is_sure
        p.arms (arm_of p.source) (arm_answer (armed_in result)) arm.old arm.new }
{
    if source.tick(dir) <= u64::from(early) {
        let t = listened_in(place, first_poll).ticket;
        return source.listen_on(arm, dir, t, w);
    }
    source.listen_again(arm, dir, listened_in(place, first_poll), w)
}

/// What a listener's first poll comes to: its answer, and what the listener remembers.
fn told_first(
    listened: Result<Listened, ListenRefusal>,
) -> Result<(Poll<Result<(), ArmFault>>, Listened), CoreRefusal>
    ensures { result ≡ first_step listened }
{
    match listened {
        Ok(first) => Ok((Poll::Pending, first)),
        Err(ListenRefusal::ArmFault { fault, listened }) => {
            Ok((Poll::Ready(Err(fault)), listened))
        }
        Err(ListenRefusal::TicketsSpent) => Err(CoreRefusal::TicketsSpent),
        Err(ListenRefusal::OutOfMemory) => Err(CoreRefusal::OutOfMemory),
    }
}

/// Takes a listener from the source that it is of. Made part of the call, so that what a removal does not
/// use of the first poll is not read.
#[inline(always)]
fn give_up(entry: &mut SourceEntry, heard: Listener)
    requires counted { 0 < entry.old.listeners }
    requires heard { IsListenedTo (Some entry.old) heard }
    ensures { entry.new ≡ given_up entry.old heard }
{
    entry.listeners -= 1;
    if let Some(first) = heard.first {
        entry.source.unlisten(heard.dir, first.ticket);
    }
}
