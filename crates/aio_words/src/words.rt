//! The words, the seat of each thread, and the one seat that begins rounds and waits.

ghost use Rattle.std.specs.Prelude.{◌≡◌, ◌≢◌, ◌↔◌, ℕ, ◌+◌, ◌-◌, ◌/◌, ◌^◌, ◌≤◌, ◌<◌, unwrap_or, IfSome, IfNone, IfOk, IsOk, IsErr, IfErr, OnErr, OnOk};
ghost use Rattle.aio_base.specs.Devices.{TellsFaults, raised};
ghost use Rattle.aio_rules.specs.SharedWords.{after, first_view, joined_seat, split_view, after_split};
ghost use Rattle.aio_rules.specs.WordCalls.{wake_steps};
ghost use Rattle.aio_rules.specs.declared.seats.Mode.TheVariants as mode;
ghost use Rattle.aio_rules.specs.declared.seats.WordStep.TheVariants as word_step;
ghost use Rattle.aio_words.specs.Calls.{Called, Offers, Parks, TellsCounts, WakesSlot, notify_steps, uncounted};
ghost use Rattle.aio_words.specs.Seats.{Belongs, Blocks, IsIdleOrWaits, is_waiting};
ghost use Rattle.aio_words.specs.Steps.{MayStep};

use crate::sleepers::Sleepers;
use crate::table::{WordSeat, WordTable};
use aio_base::{CountFault, Notify, OutOfMemory, Waker};
use std::alloc::Global;
use std::marker::Model;
use std::sync::Wait;

/// The answer where the ticker stands at 2^64 - 1, so that no round can begin any more.
#[derive(Clone, Copy, Debug, PartialEq, Eq)]
pub struct RoundsSpent;

/// The words of one reactor, which its threads share by reference. Contracts see which words they are
/// and for how many parkers.
pub struct Words {
    table: WordTable,
    parkers: u32,
    sleepers: Sleepers,
}

impl Model for Words {
    ghost use Rattle.aio_words.specs.Seats.{IsWords, WordsValue};

    ghost Value = { WordsValue };

    ghost view = { λ w. w.table };

    ghost invariant = { λ w. IsWords w.table w.parkers w.sleepers };
}

impl Drop for Words {
    fn drop(self) {
        let Words {
            table: _,
            parkers: _,
            sleepers: _,
        } = self;
    }
}

/// The seat of one thread. Between calls it owes nothing, so each wake that it made was told.
#[derive(Drop)]
pub struct Pass {
    seat: WordSeat,
}

impl Model for Pass {
    ghost use Rattle.aio_words.specs.Seats.{IsPass, SeatValue};

    ghost Value = { SeatValue };

    ghost view = { λ p. p.seat };

    ghost invariant = { λ p. IsPass p.seat };
}

/// The one seat that begins rounds and waits for events. It is idle, blocks a parker or waits for one.
#[derive(Drop)]
pub struct RoundSeat {
    seat: WordSeat,
    // The ticker, which no other seat raises.
    rounds: u64,
    // The parker that the seat blocks or waits for, where there is one.
    parker: u32,
    // Whether the seat waits.
    waits: bool,
}

impl Model for RoundSeat {
    ghost use Rattle.aio_words.specs.Seats.{IsRoundSeat, SeatValue};

    ghost Value = { SeatValue };

    ghost view = { λ s. s.seat };

    ghost invariant = { λ s. IsRoundSeat s.seat s.rounds s.parker s.waits };
}

impl RoundSeat {
    /// Whether the seat waits for a parker.
    pub fn is_waiting(&self) -> bool
        ensures { result ≡ is_waiting self.now.view.mode }
    {
        self.waits
    }
}

impl Words {
    /// Words for so many parkers, all of them 0, with the round seat and a first pass. Takes all the
    /// memory that the words ever take; `OutOfMemory` where it is not there.
    pub fn new(alloc: Global, parkers: u32) -> Result<(Words, RoundSeat, Pass), OutOfMemory>
        requires { (1 ≤ parkers) × (parkers ≤ 16) }
        ensures words { IfOk result (λ made. made.0.parkers ≡ parkers) }
        ensures round { IfOk result (λ made. Belongs made.0 made.1
            × (made.1.view ≡ after_split first_view)) }
        ensures pass { IfOk result (λ made. Belongs made.0 made.2 × (made.2.view ≡ split_view first_view)) }
    {
        let sleepers = Sleepers::new(alloc, parkers)?;
        let (table, mut seat) = WordTable::new(alloc, parkers)?;
        let pass = table.split(&mut seat);
        Ok((
            Words {
                table,
                parkers,
                sleepers,
            },
            RoundSeat {
                seat,
                rounds: 0,
                parker: 0,
                waits: false,
            },
            Pass { seat: pass },
        ))
    }

    /// Splits a seat for another thread off `from`: it starts from the ticker that `from` has seen.
    pub fn pass(&self, from: &mut Pass) -> Pass
        requires { Belongs self.now from.old }
        ensures made { Belongs self.now result × (result.view ≡ split_view from.old.view) }
        ensures from { Belongs self.now from.new × (from.new.view ≡ after_split from.old.view) }
    {
        let seat = self.table.split(&mut from.seat);
        Pass { seat }
    }

    /// Takes a pass in: `into` has then seen what either has seen.
    pub fn join(&self, into: &mut Pass, old: Pass)
        requires { Belongs self.now into.old × Belongs self.now old }
        ensures words { into.new.words ≡ into.old.words }
        ensures view { into.new.view ≡ joined_seat into.old.view old.view }
    {
        self.table.merge(&mut into.seat, old.seat);
    }

    /// The number of rounds begun, by one load: no less than the pass has seen before
    /// (`async-io` 2, `reactor.rs`, `Reactor::ticker`).
    pub fn ticker(&self, p: &mut Pass) -> u64
        requires { Belongs self.now p.old }
        ensures words { p.new.words ≡ p.old.words }
        ensures view { p.new.view ≡ after (word_step.LoadTicker result) p.old.view }
        ensures least { p.old.view.seen ≤ result }
    {
        self.table.load_ticker(&mut p.seat)
    }

    /// Wakes a task: sets bit `w % 64` in the mask of parker `w / 64`. Where that mask was 0, its
    /// parked thread is told, and the parker's blocked flag is looked at; where that is set, `n` is
    /// called as by `notify`. A waker of no parker is let be. `CountFault` where that call failed, so
    /// only where the count of faults of `n` rose, with the two counts; the bit is set all the same.
    pub fn wake<N: Notify>(&self, p: &mut Pass, w: Waker, n: &mut N) -> Result<(), CountFault>
        requires { Belongs self.now p.old }
        ensures words { p.new.words ≡ p.old.words }
        ensures nobody { self.now.parkers ≤ w.0 / 64
            → (p.new ≡ p.old) × (n.new ≡ n.old) × IsOk result }
        ensures woke { Offers N.call_count N.notify_step (wake_steps w.0 self.now.parkers)
            p.old.view p.new.view n.old n.new result }
        ensures faults { TellsFaults N.fault_count N.is_sure n.old n.new (IsErr result) }
        ensures counts { IfErr result (TellsCounts (N.fault_count n.old) (N.fault_count n.new)) }
    {
        let parker = w.0 / 64;
        if parker >= self.parkers {
            return Ok(());
        }
        let won = self.wake_slot(&mut p.seat, parker, w.0 % 64);
        call_where(won, n)
    }

    /// Sets `notified`, and calls `n` only where it was not set yet (`polling` 3, `lib.rs`,
    /// `Poller::notify`). `CountFault` where that call failed, so only where the count of faults of `n`
    /// rose, with the two counts.
    pub fn notify<N: Notify>(&self, p: &mut Pass, n: &mut N) -> Result<(), CountFault>
        requires { Belongs self.now p.old }
        ensures words { p.new.words ≡ p.old.words }
        ensures told { Offers N.call_count N.notify_step notify_steps
            p.old.view p.new.view n.old n.new result }
        ensures faults { TellsFaults N.fault_count N.is_sure n.old n.new (IsErr result) }
        ensures counts { IfErr result (TellsCounts (N.fault_count n.old) (N.fault_count n.new)) }
    {
        let found = self.table.exchange_notified(&mut p.seat);
        call_where(found == 0, n)
    }

    /// The woken slots of a parker, which are woken no longer.
    pub fn take(&self, p: &mut Pass, parker: u32) -> u64
        requires { Belongs self.now p.old × (parker < self.now.parkers) }
        ensures words { p.new.words ≡ p.old.words }
        ensures view { p.new.view ≡ after (word_step.SwapMask parker result) p.old.view }
    {
        self.table.swap_mask(&mut p.seat, parker)
    }

    /// Waits until slots of a parker are woken, and answers them; they are woken no longer
    /// (`async-io` 2, `driver.rs`, `block_on`, where it parks).
    pub fn park<R: Wait>(&self, rt: &R, p: &mut Pass, parker: u32) -> u64
        requires { Belongs self.now p.old × (parker < self.now.parkers) }
        ensures words { p.new.words ≡ p.old.words }
        ensures view { Parks parker result p.old.view p.new.view }
    {
        for _ in rt.forever() {
            match self.sleepers.of(parker).count_in().read().look(self, p) {
                Ok(slots) => return slots,
                Err(unwoken) => unwoken.sleep(rt),
            }
        }
        unreachable!()
    }

    /// Begins a round: raises the ticker by one and answers it. `RoundsSpent` exactly where the ticker
    /// stands at 2^64 - 1; then nothing changes.
    pub fn bump(&self, s: &mut RoundSeat) -> Result<u64, RoundsSpent>
        requires { Belongs self.now s.old }
        ensures words { s.new.words ≡ s.old.words }
        ensures round { IfOk result (λ round. round ≡ s.old.view.seen + 1) }
        ensures view { OnOk result
            (s.new.view ≡ after (word_step.AddTicker s.old.view.seen) s.old.view) }
        ensures spent { IsErr result ↔ (s.old.view.seen ≡ 2 ^ 64 - 1) }
        ensures refused { OnErr result (s.new ≡ s.old) }
    {
        if s.rounds == u64::MAX {
            return Err(RoundsSpent);
        }
        let before = self.table.add_ticker(&mut s.seat);
        s.rounds = before + 1;
        Ok(s.rounds)
    }

    /// The number of rounds begun, exactly, by one load.
    pub fn rounds(&self, s: &mut RoundSeat) -> u64
        requires { Belongs self.now s.old }
        ensures words { s.new.words ≡ s.old.words }
        ensures exact { result ≡ s.old.view.seen }
        ensures view { s.new.view ≡ after (word_step.LoadTicker result) s.old.view }
    {
        self.table.load_ticker(&mut s.seat)
    }

    /// Says that a parker's thread is about to wait for events: sets the parker's blocked flag.
    pub fn block(&self, s: &mut RoundSeat, parker: u32)
        requires parker { Belongs self.now s.old × (parker < self.now.parkers) }
        requires idle { s.old.view.mode ≡ mode.Idle }
        ensures words { s.new.words ≡ s.old.words }
        ensures view { s.new.view ≡ after (word_step.StoreBlocked parker 1 0) s.old.view }
    {
        self.table.store_blocked(&mut s.seat, parker, 1);
        s.parker = parker;
    }

    /// Takes nothing and does not wait: it looks at the mask of the parker that the seat blocks, by one
    /// load that leaves it as it is. The woken slots, where there are any: the seat then still blocks.
    /// `None` exactly where there are none: the seat is then one that waits, and whoever wakes a slot
    /// from now on ends its wait.
    pub fn take_or_wait(&self, s: &mut RoundSeat) -> Option<u64>
        requires { Belongs self.now s.old × Blocks s.old }
        ensures words { s.new.words ≡ s.old.words }
        ensures view { (parker : ℕ) → s.old.view.mode ≡ mode.Block parker
            → s.new.view ≡ after (word_step.LoadMask parker (unwrap_or result 0)) s.old.view }
        ensures some { IfSome result (λ mask. (mask ≢ 0) × (s.new.view.mode ≡ s.old.view.mode)) }
        ensures none { IfNone result ((parker : ℕ) → s.old.view.mode ≡ mode.Block parker
            → s.new.view.mode ≡ mode.Wait parker) }
    {
        let mask = self.table.load_mask(&mut s.seat, s.parker);
        s.waits = mask == 0;
        if mask == 0 { None } else { Some(mask) }
    }

    /// Clears `notified` after a wait for events (`polling` 3, `lib.rs`, `Poller::wait`). A seat that
    /// waits blocks again, and an idle one stays idle.
    pub fn waited(&self, s: &mut RoundSeat)
        requires { Belongs self.now s.old × IsIdleOrWaits s.old }
        ensures words { s.new.words ≡ s.old.words }
        ensures view { (found : ℕ) × (s.new.view ≡ after (word_step.SwapNotified found) s.old.view) }
    {
        self.table.swap_notified(&mut s.seat);
        s.waits = false;
    }

    /// Says that the thread of the parker that the seat blocks no longer waits for events: clears its
    /// blocked flag. The seat is idle.
    pub fn unblock(&self, s: &mut RoundSeat)
        requires { Belongs self.now s.old × Blocks s.old }
        ensures words { s.new.words ≡ s.old.words }
        ensures view { (parker : ℕ) → s.old.view.mode ≡ mode.Block parker
            → s.new.view ≡ after (word_step.StoreBlocked parker 0 1) s.old.view }
    {
        self.table.store_blocked(&mut s.seat, s.parker, 0);
    }

    // Sets the bit of a slot. Where it is the first, tells the parked thread and looks at the blocked
    // flag; where that is set, sets `notified`. Whether it was this call that set `notified`.
    fn wake_slot(&self, s: &mut WordSeat, parker: u32, slot: u32) -> bool
        requires { MayStep self.now s.old (word_step.SetBit parker slot 0) }
        ensures { WakesSlot parker slot s.old s.new result }
    {
        let others = self.table.set_bit(s, parker, slot);
        if others != 0 {
            return false;
        }
        let told = self.sleepers.of(parker).raise(s).call();
        let waits = self.table.load_blocked(s, parker, told);
        if waits != 1 {
            return false;
        }
        self.table.exchange_notified(s) == 0
    }
}

// Calls the notifier where it is to be called, and tells its fault by the two counts.
fn call_where<N: Notify>(due: bool, n: &mut N) -> Result<(), CountFault>
    ensures called { Called N.call_count N.notify_step due n.old n.new result }
    ensures faults { TellsFaults N.fault_count N.is_sure n.old n.new (IsErr result) }
    ensures counts { IfErr result (TellsCounts (N.fault_count n.old) (N.fault_count n.new)) }
{
    if !due {
        return Ok(());
    }
    let before = n.faults();
    if n.notify().is_ok() {
        return Ok(());
    }
    let after = n.faults();
    Err(CountFault { before, after })
}
