//! Items that are dealt to rows in turn, and gathered again.

ghost use Rattle.std.specs.Prelude.{◌≡◌, ◌+◌, ◌<◌, ◌++◌, ◌∷◌, [], ℕ, List, length, map, drop, IfOk, OnOk, OnErr, IfSome, IfNone};
ghost use Rattle.aio_jobs.specs.Dealing.{GivesInTurn, HaveShares, IsAtTurn, IsOver};

use aio_base::OutOfMemory;
use std::alloc::Global;
use std::collections::VecDeque;
use std::marker::Model;

/// Rows of items, each with a turn: the first row's comes next. Contracts see the rows as lists.
#[derive(Drop)]
pub struct Rows<X> {
    rows: VecDeque<VecDeque<X>>,
}

impl<X> Model for Rows<X> {
    ghost use Rattle.std.specs.Prelude.{List, map};

    ghost Value = { List (List X) };

    ghost view = { λ r. map (λ row. row.items) r.rows.items };
}

impl<X: Drop> Rows<X> {
    /// No row.
    pub fn new(alloc: Global) -> Rows<X>
        ensures { result ≡ [] }
    {
        Rows {
            rows: VecDeque::new(alloc),
        }
    }

    /// Rows with these items, in this order. `OutOfMemory` where there was no room for them; they are let go.
    pub fn of(alloc: Global, rows: VecDeque<Vec<X>>) -> Result<Rows<X>, OutOfMemory>
        ensures { IfOk result (λ made. made ≡ map (λ row. row.items) rows.items) }
    {
        let mut made = Rows::new(alloc);
        let mut left = rows;
        while let Some(row) = left.pop_front() {
            made.add(VecDeque::from(row))?;
        }
        Ok(made)
    }

    /// One more row, whose turn comes last. `OutOfMemory` where there is no room for it; it is let go, and
    /// nothing is added.
    pub fn add(&mut self, row: VecDeque<X>) -> Result<(), OutOfMemory>
        ensures added { OnOk result (self.new ≡ self.old ++ row.items ∷ []) }
        ensures refused { OnErr result (self.new ≡ self.old) }
    {
        match self.rows.push_back(row) {
            Ok(()) => Ok(()),
            Err(_) => Err(OutOfMemory),
        }
    }

    /// Takes the row whose turn it is, where there is one.
    pub fn take_row(&mut self) -> Option<VecDeque<X>>
        ensures row { IfSome result (λ row. self.old ≡ row.items ∷ self.new) }
        ensures none { IfNone result (self.old ≡ []) }
    {
        self.rows.pop_front()
    }

    /// Takes the first item of the row whose turn it is; that row's next turn comes last. `None` where
    /// there is no row, and where that row is empty; it is let go then, and the others stay.
    pub fn take(&mut self) -> Option<X>
        ensures item { IfSome result (λ x. IsAtTurn self.old x (λ left. self.new ≡ left)) }
        ensures none { IfNone result (IsOver self.old) }
        ensures left { IfNone result (self.new ≡ drop 1 self.old) }
    {
        let Some(mut row) = self.rows.pop_front() else {
            return None;
        };
        let Some(x) = row.pop_front() else {
            return None;
        };
        self.rows.push_back_reserved(row);
        Some(x)
    }

    /// Puts an item before all others: at the front of the row whose turn comes last, which comes next
    /// then. `OutOfMemory` where there is no room for it; item and row are let go.
    fn put_first(&mut self, x: X) -> Result<(), OutOfMemory>
        requires { 0 < length self.old }
        ensures first { OnOk result ((xs : List X) → GivesInTurn self.old xs
            → GivesInTurn self.new (x ∷ xs)) }
        ensures rows { OnOk result (length self.new ≡ length self.old) }
        ensures shares { OnOk result ((total : ℕ) → HaveShares total (length self.old) 0 self.old
            → HaveShares (total + 1) (length self.new) 0 self.new) }
    {
        let Some(mut row) = self.rows.pop_back() else {
            unreachable!()
        };
        match row.push_front(x) {
            Ok(()) => {}
            Err(_) => return Err(OutOfMemory),
        }
        self.rows.push_front_reserved(row);
        Ok(())
    }
}

/// Deals items to so many rows: one to each in turn, the first to the first row. `OutOfMemory` where
/// there is no room for them; they are let go.
pub fn deal<X: Drop>(alloc: Global, items: Vec<X>, count: u32) -> Result<Rows<X>, OutOfMemory>
    requires { 0 < count }
    ensures dealt { IfOk result (λ rows. GivesInTurn rows items.items) }
    ensures rows { IfOk result (λ rows. length rows ≡ count) }
    ensures shares { IfOk result (λ rows. HaveShares (length items.items) count 0 rows) }
{
    let mut rows = empty_rows(alloc, count)?;
    let mut left = items;
    while let Some(last) = left.pop() {
        rows.put_first(last)?;
    }
    Ok(rows)
}

/// Takes all items of rows in turn, up to the turn of a row that has none. `OutOfMemory` where there is no
/// room for them; they are let go.
pub fn gather<X: Drop>(alloc: Global, rows: Rows<X>) -> Result<Vec<X>, OutOfMemory>
    ensures { IfOk result (λ all. GivesInTurn rows all.items) }
{
    let mut left = rows;
    let mut all = Vec::new(alloc);
    while let Some(next) = left.take() {
        match all.push(next) {
            Ok(()) => {}
            Err(_) => return Err(OutOfMemory),
        }
    }
    Ok(all)
}

/// So many rows without items.
#[tactic(auto, using(crate::proofs::Turns::over_from))]
fn empty_rows<X: Drop>(alloc: Global, count: u32) -> Result<Rows<X>, OutOfMemory>
    ensures over { IfOk result (λ rows. IsOver rows) }
    ensures rows { IfOk result (λ rows. length rows ≡ count) }
    ensures shares { IfOk result (λ rows. HaveShares 0 count 0 rows) }
{
    let mut rows = Rows::new(alloc);
    for _made in 0..count {
        rows.add(VecDeque::new(alloc))?;
    }
    Ok(rows)
}
