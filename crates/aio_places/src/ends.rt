//! The ends of a pair over sources of a shared reactor.

ghost use Rattle.std.specs.Prelude.{◌≡◌, ◌≤◌, false, length, take, IfErr, Ok};
ghost use Rattle.std.specs.Arc.{arc_value};
ghost use Rattle.aio_base.specs.Hosts.{NotifierTells, wake_fault};
ghost use Rattle.aio_rules.specs.SharedWords.{after};
ghost use Rattle.aio_rules.specs.declared.seats.WordStep.TheVariants as word_step;
ghost use Rattle.aio_base.specs.Connections.{ReadTells};
ghost use Rattle.aio_base.specs.declared.outcomes.Poll.TheVariants.{Ready, Pending};
ghost use Rattle.aio_future.specs.Tries.{FaultsWithin, IsReadAnswer, bytes_over, counts_in, fault_counts, tried_of};
ghost use Rattle.aio_pairs.specs.Calls.{LeavesHost, Reads, WakesReplaced, entered};
ghost use Rattle.aio_shared.specs.Inside.{IsLaterInside, inside_rules};
ghost use Rattle.aio_shared.specs.Polling.{VisitsOnce};
ghost use Rattle.aio_sources.specs.Sources.{IsUnsure, Removes};
ghost use Rattle.aio_places.specs.Places.{new_end};
ghost use Rattle.aio_places.specs.SourceEnds.{EntersShared, IsRestOf, TriesCalls, fault_from, is_sure_end, last_told, told_by, told_from, tried_from};

use aio_base::{
    ArmFault, Conn, CountFault, Dir, EventWait, Faults, Host, Notify, Poll, Tells, Waker,
};
use aio_future::{Attempt, Read, Tried, TryFault, Write};
use aio_pairs::{End, EndTried};
use aio_shared::{Entered, Inside, Shared, SourceRef};
use std::alloc::Global;
use std::marker::Model;
use std::sync::{Arc, Wait};

/// One connection of a pair, as a source of a shared reactor: each call enters the source, tries
/// the connection, and leaves the source again. It keeps the token of the source, which is outside
/// between its calls, and tells of the connection what the token knows. It holds the reactor, so
/// that whoever has the end can close it.
pub struct SourceEnd<C: Conn, W: EventWait> {
    shared: Arc<Shared<C, W>, Global>,
    token: SourceRef<C>,
    told: u64,
}

impl<C: Conn, W: EventWait> Model for SourceEnd<C, W> {
    ghost use Rattle.std.specs.Prelude.{◌≡◌, IsTrue, false};
    ghost use Rattle.std.specs.Arc.{arc_value};
    ghost use Rattle.aio_base.specs.Connections.{sure_read};
    ghost use Rattle.aio_places.specs.SourceEnds.{IsRestOf, SourceEndValue};

    ghost Value = { SourceEndValue };

    ghost view = { λ end. record {
      words = end.token.words;
      key = end.token.key;
      lock = end.token.lock;
      rest = end.token.rest;
      visits = end.token.visits;
      taken = end.token.taken;
      told = end.told;
    } };

    ghost invariant = { λ end. (end.token.inside ≡ false) × IsRestOf C.rest end.token.rest
        × (IsTrue (sure_read end.token.rest) → end.told ≡ 0)
        × (end.token.words ≡ (arc_value end.shared).words.identity) };
}

impl<C: Conn + Drop, W: EventWait + Drop> Drop for SourceEnd<C, W> {
    fn drop(self) {
        let SourceEnd {
            shared: _,
            token: _,
            told: _,
        } = self;
    }
}

impl<C: Conn, W: EventWait> SourceEnd<C, W> {
    /// The end of the connection whose source has this token, in this reactor. No fault was told.
    pub fn new(shared: Arc<Shared<C, W>, Global>, token: SourceRef<C>) -> SourceEnd<C, W>
        requires belongs { token.words ≡ (arc_value shared).words.identity }
        requires outside { token.inside ≡ false }
        requires rest { IsRestOf C.rest token.rest }
        ensures { result ≡ new_end token }
    {
        SourceEnd {
            shared,
            token,
            told: 0,
        }
    }
}

impl<C: Conn + Drop, W: EventWait + Drop> SourceEnd<C, W> {
    /// The token of the source.
    pub fn into_token(self) -> SourceRef<C>
        ensures { result ≡ record {
          words = self.words;
          key = self.key;
          lock = self.lock;
          inside = false;
          rest = self.rest;
          visits = self.visits;
          taken = self.taken;
        } }
    {
        let SourceEnd {
            shared: _,
            token,
            told: _,
        } = self;
        token
    }

    /// Takes the source out of its reactor, and then tells the connection by one `remove`. The
    /// connection is let go. `CountFault` only where its count of faults rose, and not all
    /// connections of its type are sure; the source is gone all the same. May wait. Takes no memory.
    pub fn close<R: Wait>(self, rt: &R) -> Result<(), CountFault>
        ensures removed { Removes C.arm_step C.rest C.fault_count self.key self.rest result }
        ensures fault { IfErr result (λ fault. IsUnsure C.all_sure fault) }
    {
        let SourceEnd {
            shared,
            token,
            told: _,
        } = self;
        shared.close_source(rt, token)
    }
}

impl<C: Conn, W: EventWait> Faults for SourceEnd<C, W> {
    ghost use Rattle.aio_places.specs.SourceEnds.{is_sure_end, not_all_are, sure_has_told_none};

    ghost fault_count = { λ end. end.told };

    ghost is_sure = { λ end. is_sure_end end.rest end.told };

    ghost all_sure = { false };

    ghost sure_below_top = { λ end sure. sure_has_told_none end.rest end.told sure };

    ghost each_sure = { λ end all. not_all_are end.rest end.told all };

    fn faults(&self) -> u64 {
        self.told
    }
}

impl<C: Conn, W: EventWait> Tells for SourceEnd<C, W> {
    ghost use Rattle.aio_base.specs.Connections.{telling_read};
    ghost use Rattle.aio_places.specs.SourceEnds.{is_bounded, told_by};

    ghost telling = { λ end. told_by end.rest };

    ghost left_is_bounded = { λ end. is_bounded (telling_read end.rest).left };
}

impl<R: Wait, N: Notify, C: Conn, W: EventWait> End<Inside<R, N, C, W>> for SourceEnd<C, W> {
    ghost use Rattle.aio_places.specs.SourceEnds.{EntersShared};

    ghost end_step = { EntersShared C.conn_step C.arm_step C.interests C.rest C.fault_count C.is_sure };

    fn read(&mut self, host: &mut Inside<R, N, C, W>, buf: &mut [u8], w: Waker) -> EndTried {
        let mut read = Read { buf };
        self.read_by(host, &mut read, w)
    }

    fn write(&mut self, host: &mut Inside<R, N, C, W>, piece: &[u8], w: Waker) -> EndTried {
        let mut write = Write { piece };
        let tried = write_source(host, &mut self.token, &mut write, w);
        tell(&mut self.told, tried)
    }
}

impl<C: Conn, W: EventWait> SourceEnd<C, W> {
    /// Reads by such a read, whose buffer stays lent.
    fn read_by<R: Wait, N: Notify>(
        &mut self,
        host: &mut Inside<R, N, C, W>,
        read: &mut Read<'_>,
        w: Waker,
    ) -> EndTried
        ensures host { LeavesHost (inside_rules N.call_count N.fault_count N.notify_step)
            (IsLaterInside N.fault_count N.is_sure) (λ inside. N.is_sure inside.member.notifier)
            result host.old host.new }
        ensures step { EntersShared C.conn_step C.arm_step C.interests C.rest C.fault_count
            C.is_sure self.old (Reads (length read.old.buf.now) w result
            (take (bytes_over result.answer) read.new.buf.now)) self.new }
        ensures told { ReadTells (told_by self.old.rest) (told_by self.new.rest)
            (take (bytes_over result.answer) read.new.buf.now)
            (result.answer ≡ Pending) (result.answer ≡ Ready (Ok 0)) }
        ensures most { bytes_over result.answer ≤ length read.new.buf.now }
        ensures kind { IsReadAnswer result.answer }
        ensures faults { FaultsWithin self.old.told self.new.told
            (is_sure_end self.old.rest self.old.told) (is_sure_end self.new.rest self.new.told)
            (fault_counts result.answer) }
        ensures lent { read.new.buf.ghost_name ≡ read.old.buf.ghost_name }
    {
        let tried = read_source(host, &mut self.token, read, w);
        tell(&mut self.told, tried)
    }
}

/// Reads from the connection of a source, and wakes whom that replaced. The buffer stays lent.
fn read_source<'a, R: Wait, N: Notify, C: Conn, W: EventWait>(
    host: &mut Inside<R, N, C, W>,
    token: &mut SourceRef<C>,
    read: &mut Read<'a>,
    w: Waker,
) -> EndTried
    requires outside { token.old.inside ≡ false }
    ensures tries { VisitsOnce C.rest (λ found ticker tried put. (ticker ≡ tried.rounds)
        × TriesCalls C.arm_step C.interests C.rest C.fault_count C.is_sure
        ⟦<Read<'a> as Attempt<C>>⟧.attempts (record { dir = Dir.Read; waker = w })
        read.old found ticker tried read.new put) token.old token.new host.old.member.pass.view
        (after (word_step.LoadTicker result.rounds) host.old.member.pass.view) result }
    ensures lent { read.new.buf.ghost_name ≡ read.old.buf.ghost_name }
    ensures host { LeavesHost (inside_rules N.call_count N.fault_count N.notify_step)
        (IsLaterInside N.fault_count N.is_sure) (λ inside. N.is_sure inside.member.notifier)
        result host.old host.new }
{
    let made = host.try_entered(token, Dir::Read, w, read);
    once_woken(host, made)
}

/// Writes to the connection of a source, and wakes whom that replaced.
fn write_source<'a, R: Wait, N: Notify, C: Conn, W: EventWait>(
    host: &mut Inside<R, N, C, W>,
    token: &mut SourceRef<C>,
    write: &mut Write<'a>,
    w: Waker,
) -> EndTried
    requires outside { token.old.inside ≡ false }
    ensures tries { VisitsOnce C.rest (λ found ticker tried put. (ticker ≡ tried.rounds)
        × TriesCalls C.arm_step C.interests C.rest C.fault_count C.is_sure
        ⟦<Write<'a> as Attempt<C>>⟧.attempts (record { dir = Dir.Write; waker = w })
        write.old found ticker tried write.new put) token.old token.new host.old.member.pass.view
        (after (word_step.LoadTicker result.rounds) host.old.member.pass.view) result }
    ensures host { LeavesHost (inside_rules N.call_count N.fault_count N.notify_step)
        (IsLaterInside N.fault_count N.is_sure) (λ inside. N.is_sure inside.member.notifier)
        result host.old host.new }
{
    let made = host.try_entered(token, Dir::Write, w, write);
    once_woken(host, made)
}

/// What a try inside a source comes to, once the waker that it replaced was woken.
fn once_woken<H: Host>(host: &mut H, made: Entered<Result<usize, TryFault>>) -> EndTried
    ensures tried { entered result ≡ tried_of made.visited }
    ensures rounds { result.rounds ≡ made.rounds }
    ensures wakes { WakesReplaced H.rules result.replaced result.woken host.old host.new }
    ensures notifier { NotifierTells (H.notifier_is_sure host.old) (H.rules.faults host.old)
        (H.rules.faults host.new) (wake_fault result.woken) }
    ensures later { H.is_later host.old host.new }
    ensures pass { H.rules.pass host.new ≡ H.rules.pass host.old }
    ensures ids { H.rules.drawn host.new ≡ H.rules.drawn host.old }
{
    let tried = Tried::of(made.visited);
    EndTried {
        answer: tried.answer,
        replaced: tried.replaced,
        rounds: made.rounds,
        woken: wake_replaced(host, tried.replaced),
    }
}

/// Wakes the waker, if any, that a call of an end took the place of.
fn wake_replaced<H: Host>(host: &mut H, replaced: Option<Waker>) -> Result<(), CountFault>
    ensures wakes { WakesReplaced H.rules replaced result host.old host.new }
    ensures notifier { NotifierTells (H.notifier_is_sure host.old) (H.rules.faults host.old)
        (H.rules.faults host.new) (wake_fault result) }
    ensures later { H.is_later host.old host.new }
    ensures pass { H.rules.pass host.new ≡ H.rules.pass host.old }
    ensures ids { H.rules.drawn host.new ≡ H.rules.drawn host.old }
{
    let Some(waker) = replaced else {
        return Ok(());
    };
    host.wake(waker)
}

/// The two counts of a fault, not below a count that was told before.
fn told_on(told: u64, fault: CountFault) -> CountFault
    ensures { result ≡ told_from told fault }
{
    if fault.before < told {
        CountFault {
            before: told,
            after: told.saturating_add(1),
        }
    } else {
        fault
    }
}

/// The same of the fault of a try.
fn fault_on(told: u64, fault: TryFault) -> TryFault
    ensures { result ≡ fault_from told fault }
{
    match fault {
        TryFault::Read(fault) => TryFault::Read(told_on(told, fault)),
        TryFault::Write(fault) => TryFault::Write(told_on(told, fault)),
        TryFault::Arm(fault) => {
            let counts = told_on(
                told,
                CountFault {
                    before: fault.before,
                    after: fault.after,
                },
            );
            TryFault::Arm(ArmFault {
                key: fault.key,
                before: counts.before,
                after: counts.after,
            })
        }
    }
}

/// The greater of the two counts of the fault of a try.
fn last_count(fault: TryFault) -> u64
    ensures { result ≡ (counts_in fault).after }
{
    match fault {
        TryFault::Read(fault) => fault.after,
        TryFault::Write(fault) => fault.after,
        TryFault::Arm(fault) => fault.after,
    }
}

/// Tells what a call came to, its counts of faults from the greatest one on that was told before.
fn tell(told: &mut u64, tried: EndTried) -> EndTried
    ensures told { result ≡ tried_from told.old tried }
    ensures count { told.new ≡ last_told told.old result.answer }
{
    match tried.answer {
        Poll::Ready(Err(fault)) => {
            let fault = fault_on(*told, fault);
            *told = last_count(fault);
            EndTried {
                answer: Poll::Ready(Err(fault)),
                ..tried
            }
        }
        Poll::Ready(Ok(count)) => EndTried {
            answer: Poll::Ready(Ok(count)),
            ..tried
        },
        Poll::Pending => EndTried {
            answer: Poll::Pending,
            ..tried
        },
    }
}
