//! The table of the words: the one place where a word is touched, with a call for each kind of step.
//!
//! By the rule a step that changes a word shows in its seat. A seat is made by `new` and `split` alone: the
//! rule refuses one of which nobody has counted the split, but not one that tells of splits of its own.

ghost use Rattle.std.specs.Prelude.{◌≡◌, ◌+◌, ◌-◌, ◌*◌, ◌<◌, ◌≤◌, IfOk, replicate};
ghost use Rattle.aio_rules.specs.declared.seats.Role.TheVariants as role;
ghost use Rattle.aio_rules.specs.declared.seats.WordStep.TheVariants as word_step;
ghost use Rattle.aio_rules.specs.SharedWords.{IsFree, first_view, joined_seat, split_view, after_split, word_count};
ghost use Rattle.aio_words.specs.Seats.{Belongs, seat_at};
ghost use Rattle.aio_words.specs.Steps.{MayStep, stepped};

use crate::plays::{
    AddTicker, ExchangeNotified, LoadBlocked, LoadMask, LoadTicker, NewPass, Rule, SetBit,
    StoreBlocked, SwapMask, SwapNotified, TakeIn,
};
use crate::sleepers::Told;
use aio_base::OutOfMemory;
use aio_rules::SeatView;
use atomic_table::{Seat, Table};
use std::alloc::Global;
use std::marker::Model;

const TICKER: usize = 0;

const NOTIFIED: usize = 1;

/// A seat at a table of words, with no slot.
#[derive(Drop)]
pub struct WordSeat {
    seat: Seat<(), SeatView>,
}

impl Model for WordSeat {
    ghost use Rattle.std.specs.Prelude.{◌≡◌, []};
    ghost use Rattle.aio_words.specs.Seats.{SeatValue};

    ghost Value = { SeatValue };

    ghost view = { λ s. record { words = s.seat.table_id; view = s.seat.me.0 } };

    ghost invariant = { λ s. s.seat.me.1 ≡ [] };
}

/// The words for so many parkers.
pub struct WordTable {
    table: Table<(), SeatView, u32, Rule, Global>,
}

impl Model for WordTable {
    ghost use Rattle.std.specs.Prelude.{◌≡◌};
    ghost use Rattle.aio_rules.specs.SharedWords.{word_count};
    ghost use Rattle.aio_words.specs.Seats.{WordsValue};

    ghost Value = { WordsValue };

    ghost view = { λ t. record { identity = t.table.shared.table_id; parkers = t.table.shared.key } };

    ghost invariant = { λ t. t.table.shared.table_id.words ≡ word_count t.table.shared.key };
}

impl Drop for WordTable {
    fn drop(self) {
        let WordTable { table: _ } = self;
    }
}

// The words for so many parkers, all 0.
fn zero_words(alloc: Global, parkers: u32) -> Result<Vec<u64>, OutOfMemory>
    ensures { IfOk result (λ words. words.items ≡ replicate (word_count parkers) 0) }
{
    match vec![in alloc; 0u64; 2 + 2 * parkers as usize] {
        Ok(words) => Ok(words),
        Err(_) => Err(OutOfMemory),
    }
}

impl WordTable {
    /// All words are 0, and the seat is the one that begins rounds.
    pub fn new(alloc: Global, parkers: u32) -> Result<(WordTable, WordSeat), OutOfMemory>
        ensures table { IfOk result (λ made. made.0.parkers ≡ parkers) }
        ensures sized { IfOk result (λ made. made.0.identity.words ≡ word_count parkers) }
        ensures seat { IfOk result (λ made. made.1 ≡ seat_at made.0 first_view) }
    {
        let zeros = zero_words(alloc, parkers)?;
        match Table::of_words(alloc, zeros.as_slice(), &parkers) {
            Ok((table, seat)) => Ok((WordTable { table }, WordSeat { seat })),
            Err(_) => Err(OutOfMemory),
        }
    }

    /// Splits a new pass off a seat.
    pub fn split(&self, from: &mut WordSeat) -> WordSeat
        requires { Belongs self.now from.old }
        ensures made { result ≡ seat_at self.now (split_view from.old.view) }
        ensures from { from.new ≡ seat_at self.now (after_split from.old.view) }
    {
        let seat = self.table.shared.split_seat::<NewPass>(&mut from.seat);
        WordSeat { seat }
    }

    /// A pass takes in another that owes nothing.
    pub fn merge(&self, into: &mut WordSeat, other: WordSeat)
        requires into { Belongs self.now into.old × (into.old.view.role ≡ role.Pass) }
        requires other { Belongs self.now other × IsFree other.view }
        ensures { into.new ≡ seat_at self.now (joined_seat into.old.view other.view) }
    {
        let WordSeat { seat } = other;
        self.table.shared.join_seat::<TakeIn>(&mut into.seat, seat);
    }

    pub fn load_ticker(&self, s: &mut WordSeat) -> u64
        requires { MayStep self.now s.old (word_step.LoadTicker 0) }
        ensures step { s.new ≡ stepped (word_step.LoadTicker result) s.old }
        ensures least { s.old.view.seen ≤ result }
        ensures exact { s.old.view.role ≡ role.Round → result ≡ s.old.view.seen }
    {
        self.table.shared.load::<LoadTicker>(&mut s.seat, TICKER)
    }

    pub fn add_ticker(&self, s: &mut WordSeat) -> u64
        requires { MayStep self.now s.old (word_step.AddTicker 0) }
        ensures step { s.new ≡ stepped (word_step.AddTicker result) s.old }
        ensures exact { result ≡ s.old.view.seen }
    {
        self.table
            .shared
            .fetch_add::<AddTicker>(&mut s.seat, TICKER, 1)
    }

    pub fn set_bit(&self, s: &mut WordSeat, parker: u32, bit: u32) -> u64
        requires { MayStep self.now s.old (word_step.SetBit parker bit 0) }
        ensures { s.new ≡ stepped (word_step.SetBit parker bit result) s.old }
    {
        let at = 3 + 2 * parker as usize;
        self.table
            .shared
            .fetch_or::<SetBit>(&mut s.seat, at, 1 << bit)
    }

    /// The parker's thread was told before.
    pub fn load_blocked(&self, s: &mut WordSeat, parker: u32, told: Told) -> u64
        requires may { MayStep self.now s.old (word_step.LoadBlocked parker 0) }
        requires told { told ≡ parker }
        ensures { s.new ≡ stepped (word_step.LoadBlocked parker result) s.old }
    {
        let at = 2 + 2 * parker as usize;
        self.table.shared.load::<LoadBlocked>(&mut s.seat, at)
    }

    pub fn exchange_notified(&self, s: &mut WordSeat) -> u64
        requires { MayStep self.now s.old (word_step.ExchangeNotified 0) }
        ensures { s.new ≡ stepped (word_step.ExchangeNotified result) s.old }
    {
        self.table
            .shared
            .compare_exchange::<ExchangeNotified>(&mut s.seat, NOTIFIED, 0, 1)
    }

    /// A store is told no value found: by the rule a store of 1 finds 0, and one of 0 finds 1.
    pub fn store_blocked(&self, s: &mut WordSeat, parker: u32, flag: u64)
        requires { MayStep self.now s.old (word_step.StoreBlocked parker flag 0) }
        ensures { s.new ≡ stepped (word_step.StoreBlocked parker flag (1 - flag)) s.old }
    {
        let at = 2 + 2 * parker as usize;
        self.table
            .shared
            .store::<StoreBlocked>(&mut s.seat, at, flag);
    }

    pub fn swap_mask(&self, s: &mut WordSeat, parker: u32) -> u64
        requires { MayStep self.now s.old (word_step.SwapMask parker 0) }
        ensures { s.new ≡ stepped (word_step.SwapMask parker result) s.old }
    {
        let at = 3 + 2 * parker as usize;
        self.table.shared.swap::<SwapMask>(&mut s.seat, at, 0)
    }

    pub fn load_mask(&self, s: &mut WordSeat, parker: u32) -> u64
        requires { MayStep self.now s.old (word_step.LoadMask parker 0) }
        ensures { s.new ≡ stepped (word_step.LoadMask parker result) s.old }
    {
        let at = 3 + 2 * parker as usize;
        self.table.shared.load::<LoadMask>(&mut s.seat, at)
    }

    pub fn swap_notified(&self, s: &mut WordSeat) -> u64
        requires { MayStep self.now s.old (word_step.SwapNotified 0) }
        ensures { s.new ≡ stepped (word_step.SwapNotified result) s.old }
    {
        self.table
            .shared
            .swap::<SwapNotified>(&mut s.seat, NOTIFIED, 0)
    }
}
