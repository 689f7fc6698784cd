//! A round in sections.

ghost use Rattle.std.specs.Prelude.{◌≡◌, ◌≢◌, ◌<◌, ◌≤◌, ◌+◌, ◌++◌, [], true, false, not, None, Some, IfOk, IfSome, IsErr, OnOk, OnErr, length, nat_lt, vec_len, vec_capacity};
ghost use Rattle.std.specs.List.{All};
ghost use Rattle.std.specs.Option.{option_or};
ghost use Rattle.aio_base.specs.Devices.{TellsFaults, raised};
ghost use Rattle.aio_base.specs.Timers.{due_wakers, after_pass, limit_of, lesser, time_to, first_deadline};
ghost use Rattle.aio_base.specs.Waits.{IsCountOf};
ghost use Rattle.aio_base.specs.World.{Registration, directions};
ghost use Rattle.aio_source.specs.Rules.{waiters_in};
ghost use Rattle.aio_react.specs.Rounds.{new_round, begun, HasRisen, wait_of, poller_told, wait_told, waited, given_by, has_second_pass, second_wakers, second_book, finished};

use aio_base::{
    Arm, ArmFault, CountFault, DIRS, Event, EventWait, Failed, Moment, OutOfMemory, Waited, Waker,
};
use aio_source::{InHand, RoundFault, SourceState};
use aio_timers::TimerBook;
use std::alloc::Global;
use std::marker::Model;

/// How many events one wait gives at most.
const WAIT_ROOM: u32 = 1024;

/// One round after another, each in sections (`async-io` 2, `reactor.rs`, `ReactorLock::react`): a
/// begin, waits, events that are handled one by one, and a finish.
///
/// The book of timers, the poller, a source and the arm are lent to the calls that need them. What
/// a round leaves to its caller: the count of rounds, which is raised to the round's number before
/// any wait; the source of an event's key, with a skip where there is none; and the waking of
/// `woken`.
///
/// Contracts see the running round, or the last one as it ended. At most 1,024 events are in hand,
/// and none on an idle round. A fault that is kept has two counts between which the count rose.
pub struct Round {
    /// The events of the last wait, of which so many were handled or skipped.
    events: Vec<Event>,
    done: usize,
    taken: Vec<Waker>,
    number: u64,
    limit: Option<u64>,
    last: Option<Result<Waited, Failed>>,
    fault: Option<RoundFault>,
    running: bool,
}

impl Model for Round {
    ghost use Rattle.std.specs.Prelude.{◌≡◌, ◌≤◌, [], false, drop, option_map, IfSome, vec_capacity, vec_len};
    ghost use Rattle.aio_source.specs.InHand.{RoundValue};
    ghost use Rattle.aio_react.specs.Rounds.{wait_answer, HasRisen};

    ghost Value = { RoundValue };

    ghost view = { λ r. record {
      running = r.running;
      number = r.number;
      limit = r.limit;
      hand = drop r.done r.events.items;
      taken = r.taken.items;
      last = option_map (wait_answer r.limit r.events.items) r.last;
      fault = r.fault;
    } };

    ghost invariant = { λ r. (1024 ≤ vec_capacity r.events) × (vec_len r.events ≤ 1024)
        × (r.done ≤ vec_len r.events) × (r.running ≡ false → drop r.done r.events.items ≡ [])
        × IfSome r.fault HasRisen };
}

impl Drop for Round {
    fn drop(self) {
        let Round {
            events: _,
            done: _,
            taken: _,
            number: _,
            limit: _,
            last: _,
            fault: _,
            running: _,
        } = self;
    }
}

impl Round {
    /// An idle round before the first begin, with room for 1,024 events and as many wakers. More
    /// wakers take their memory from `alloc` too.
    pub fn new(alloc: Global) -> Result<Round, OutOfMemory>
        ensures { IfOk result (λ round. round ≡ new_round) }
    {
        let Ok(events) = Vec::with_capacity(alloc, WAIT_ROOM as usize) else {
            return Err(OutOfMemory);
        };
        let Ok(taken) = Vec::with_capacity(alloc, WAIT_ROOM as usize) else {
            return Err(OutOfMemory);
        };
        Ok(Round {
            events,
            done: 0,
            taken,
            number: 0,
            limit: None,
            last: None,
            fault: None,
            running: false,
        })
    }

    /// Begins the round of this number: a pass over the timers at the moment `now`. Answers the
    /// limit of its waits in nanoseconds: 0 where the pass took a timer, otherwise the lesser of
    /// the time to the first deadline and the given limit, each where there is one. `OutOfMemory`
    /// where there is no memory for the wakers that are due; round and book are then as before.
    #[inline(always)]
    pub fn begin(
        &mut self,
        book: &mut TimerBook,
        now: Moment,
        given: Option<u64>,
        number: u64,
    ) -> Result<Option<u64>, OutOfMemory>
        requires { self.old.running ≡ false }
        ensures limit { IfOk result (λ limit. limit ≡ limit_of now book.old.entries given) }
        ensures round { IfOk result (λ limit.
            self.new ≡ begun number limit (due_wakers now book.old.entries)) }
        ensures book { OnOk result (book.new.entries ≡ after_pass now book.old.entries) }
        ensures spare { OnOk result (book.old.spare ≤ book.new.spare) }
        ensures refused { OnErr result ((self.new ≡ self.old) × (book.new ≡ book.old)) }
    {
        let has_timers = book.len() > 0;
        match make_pass_room(&mut self.taken, book, has_timers, now) {
            Ok(()) => {}
            Err(refused) => return Err(refused),
        }
        self.taken.clear();
        pass_over(book, has_timers, now, &mut self.taken);
        let limit = if self.taken.is_empty() {
            lesser(time_left(book, now), given)
        } else {
            Some(0)
        };
        self.number = number;
        self.limit = limit;
        self.last = None;
        self.fault = None;
        self.running = true;
        Ok(limit)
    }

    /// Waits once, for at most the round's limit. The events that the poller gives, at most 1,024,
    /// are in hand then, in its order; an interrupted or failed wait gives none. `CountFault` only
    /// where the poller's count of faults rose; it is kept where no fault was. It takes no memory.
    #[inline(always)]
    pub fn wait<W: EventWait>(&mut self, poller: &mut W) -> Result<Waited, CountFault>
        requires running { self.old.running ≡ true }
        requires hand { self.old.hand ≡ [] }
        ensures round { self.new ≡ waited self.old result self.new.hand }
        ensures step { W.wait_step poller.old (wait_of self.old.limit) (poller_told result)
            self.new.hand poller.new }
        ensures count { IsCountOf (poller_told result) 1024 self.new.hand }
        ensures fault { result ≡ wait_told (W.fault_count poller.old) (W.fault_count poller.new)
            (poller_told result) }
        ensures waits { W.wait_count poller.new ≡ raised (W.wait_count poller.old) }
        ensures faults { TellsFaults W.fault_count W.is_sure
            poller.old poller.new (IsErr (poller_told result)) }
    {
        self.events.clear();
        self.done = 0;
        let before = poller.faults();
        let answer = poller.wait(&mut self.events, WAIT_ROOM, self.limit);
        self.last = Some(answer);
        match answer {
            Ok(waited) => Ok(waited),
            Err(_) => {
                let fault = CountFault {
                    before,
                    after: poller.faults(),
                };
                self.keep(RoundFault::Wait(fault));
                Err(fault)
            }
        }
    }

    /// Ends the round and answers its first fault. Where its last wait gave no event and had time
    /// to wait, a second pass over the timers is made at the moment `now`. The round is idle then,
    /// and all wakers that it took are to be woken. `OutOfMemory` where there is no memory for the
    /// wakers that are due; the round then runs on, and round and book are as before.
    #[inline(always)]
    pub fn finish(
        &mut self,
        book: &mut TimerBook,
        now: Moment,
    ) -> Result<Option<RoundFault>, OutOfMemory>
        requires running { self.old.running ≡ true }
        requires hand { self.old.hand ≡ [] }
        ensures fault { IfOk result (λ fault. fault ≡ self.old.fault) }
        ensures cause { IfOk result (λ fault. IfSome fault HasRisen) }
        ensures round { OnOk result
            (self.new ≡ finished self.old (second_wakers self.old now book.old.entries)) }
        ensures book { OnOk result
            (book.new.entries ≡ second_book self.old now book.old.entries) }
        ensures spare { OnOk result (book.old.spare ≤ book.new.spare) }
        ensures refused { OnErr result ((self.new ≡ self.old) × (book.new ≡ book.old)) }
        ensures wanting { OnErr result (due_wakers now book.old.entries ≢ []) }
    {
        if self.has_second_pass() {
            let has_timers = book.len() > 0;
            match make_pass_room(&mut self.taken, book, has_timers, now) {
                Ok(()) => {}
                Err(refused) => return Err(refused),
            }
            pass_over(book, has_timers, now, &mut self.taken);
        }
        self.running = false;
        Ok(self.fault)
    }

    /// On an idle round the wakers that are to be woken for its last finish, in the order in which
    /// they were taken; on a running one those taken so far.
    pub fn woken(&self) -> &[Waker]
        ensures { result.now ≡ self.now.taken }
    {
        self.taken.as_slice()
    }

    /// On an idle round what its last finish answered, and `None` before the first; on a running
    /// one its first fault so far.
    pub fn fault(&self) -> Option<RoundFault>
        ensures value { result ≡ self.now.fault }
        ensures cause { IfSome result HasRisen }
    {
        self.fault
    }

    /// How many events the last wait of this round gave, on an idle round that of the last finished
    /// one: 0 where that wait failed or was interrupted, and where none was made.
    pub fn given(&self) -> u32
        ensures value { result ≡ given_by self.now.last }
        ensures bound { result ≤ 1024 }
    {
        match self.last {
            Some(Ok(Waited::Given(_))) => self.events.len() as u32,
            _ => 0,
        }
    }

    /// Whether no round runs.
    pub fn is_idle(&self) -> bool
        ensures { result ≡ not self.now.running }
    {
        !self.running
    }

    /// The events in hand.
    pub(crate) fn hand(&self) -> &[Event]
        ensures value { result.now ≡ self.now.hand }
        ensures bound { length result.now ≤ 1024 }
        ensures idle { self.now.running ≡ false → result.now ≡ [] }
    {
        self.events.as_slice().split_at(self.done).1
    }

    /// Whether the last wait gave no event, and had time to wait. A wait that failed or was
    /// interrupted gave none either, but asks for no second pass.
    #[inline(always)]
    fn has_second_pass(&self) -> bool
        ensures { result ≡ has_second_pass self.now }
    {
        match self.last {
            Some(Ok(Waited::Given(_))) => self.events.is_empty() && self.limit != Some(0),
            _ => false,
        }
    }

    /// Keeps a fault, unless one was kept before.
    fn keep(&mut self, fault: RoundFault)
        requires { HasRisen fault }
        ensures { self.new ≡ record self.old { fault = option_or self.old.fault (Some fault) } }
    {
        if self.fault.is_none() {
            self.fault = Some(fault);
        }
    }
}

impl InHand for Round {
    ghost round = { λ r. r };

    fn peek(&self) -> Option<Event> {
        self.hand().first().copied()
    }

    fn in_hand(&self) -> usize {
        self.hand().len()
    }

    #[inline(always)]
    fn handle<A: Arm>(
        &mut self,
        s: &mut SourceState,
        arm: &mut A,
    ) -> Result<Option<ArmFault>, OutOfMemory> {
        let event = self.events[self.done];
        match make_room(&mut self.taken, s) {
            Ok(()) => {}
            Err(refusal) => return Err(refusal),
        }
        match s.handle(arm, event, self.number, &mut self.taken) {
            Ok(()) => {
                self.done += 1;
                Ok(None)
            }
            Err(fault) => {
                self.done += 1;
                self.keep(RoundFault::Arm(fault));
                Ok(Some(fault))
            }
        }
    }

    fn skip(&mut self) {
        self.done += 1;
    }
}

/// Makes room for the wakers that a pass takes: for as many as there are timers, so that those which
/// are due need not be counted; and for these alone where memory is short.
#[inline(always)]
fn make_pass_room(
    taken: &mut Vec<Waker>,
    book: &TimerBook,
    has_timers: bool,
    now: Moment,
) -> Result<(), OutOfMemory>
    requires { has_timers ≡ nat_lt 0 (length book.now.entries) }
    ensures items { taken.new.items ≡ taken.old.items }
    ensures room { OnOk result (vec_len taken.new + length (due_wakers now book.now.entries)
        ≤ vec_capacity taken.new) }
    ensures wanting { OnErr result (due_wakers now book.now.entries ≢ []) }
{
    if !has_timers {
        return Ok(());
    }
    if taken.reserve(book.len()).is_ok() {
        return Ok(());
    }
    match taken.reserve(book.due_count(now)) {
        Ok(()) => Ok(()),
        Err(_) => Err(OutOfMemory),
    }
}

/// A pass over the timers, which need not be looked at where there are none.
#[inline(always)]
fn pass_over(book: &mut TimerBook, has_timers: bool, now: Moment, taken: &mut Vec<Waker>)
    requires timers { has_timers ≡ nat_lt 0 (length book.old.entries) }
    requires room { vec_len taken.old + length (due_wakers now book.old.entries)
        ≤ vec_capacity taken.old }
    ensures taken { taken.new.items ≡ taken.old.items ++ due_wakers now book.old.entries }
    ensures entries { book.new.entries ≡ after_pass now book.old.entries }
    ensures later { All (λ (r : Registration). now < r.deadline) book.new.entries }
    ensures spare { book.old.spare ≤ book.new.spare }
{
    if !has_timers {
        return;
    }
    book.pass(now, taken);
}

/// Makes room behind `taken` for all waiters of a source, where one may wait. Where none of its
/// directions has had a listener they are not counted, for each has its poll waiter at most.
#[inline(always)]
fn make_room(taken: &mut Vec<Waker>, s: &SourceState) -> Result<(), OutOfMemory>
    ensures items { taken.new.items ≡ taken.old.items }
    ensures room { OnOk result (vec_len taken.new
        + length (waiters_in directions s.now.directions) ≤ vec_capacity taken.new) }
{
    if !s.may_wait() {
        return Ok(());
    }
    if taken.capacity() - taken.len() >= DIRS.len() && s.is_only_polled() {
        return Ok(());
    }
    make_room_for_all(taken, s)
}

/// Makes room behind `taken` for all waiters of a source, by their count.
#[inline(always)]
fn make_room_for_all(taken: &mut Vec<Waker>, s: &SourceState) -> Result<(), OutOfMemory>
    ensures items { taken.new.items ≡ taken.old.items }
    ensures room { OnOk result (vec_len taken.new
        + length (waiters_in directions s.now.directions) ≤ vec_capacity taken.new) }
{
    match count_waiters(s) {
        Some(waiting) if taken.capacity() - taken.len() >= waiting as usize => Ok(()),
        Some(waiting) => taken.reserve(waiting as usize).map_err(|_| OutOfMemory),
        None => Err(OutOfMemory),
    }
}

/// How many waiters a source has in all directions. `None` where they are more than a number
/// counts.
fn count_waiters(s: &SourceState) -> Option<u64>
    ensures { IfSome result (λ n. n ≡ length (waiters_in directions s.now.directions)) }
{
    let mut waiting = 0_u64;
    for dir in DIRS {
        waiting = waiting.checked_add(s.waiting(dir))?;
    }
    Some(waiting)
}

/// The time from a moment to the first deadline in nanoseconds, where each is later.
fn time_left(book: &TimerBook, now: Moment) -> Option<u64>
    requires { All (λ (r : Registration). now < r.deadline) book.now.entries }
    ensures { result ≡ time_to now (first_deadline book.now.entries) }
{
    let (deadline, _) = book.first()?;
    let left = deadline.get() - now.get();
    Some(left)
}

/// The lesser of two limits, each where there is one.
fn lesser(a: Option<u64>, b: Option<u64>) -> Option<u64>
    ensures { result ≡ lesser a b }
{
    match (a, b) {
        (None, b) => b,
        (a, None) => a,
        (Some(a), Some(b)) => Some(a.min(b)),
    }
}
