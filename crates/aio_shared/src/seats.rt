//! What each member knows of the reactor lock, the rule of its queue, and what each step tells.

use crate::cell::RoundCell;
use aio_base::{Arm, EventWait};
use aio_rules::{ClaimView, RoundItem};
use aio_words::Words;
use crossbeam_queue::protocol::{Lesson, Outcome, Protocol, Split};
use crossbeam_queue::{Pass, RuledArrayQueue};
use std::marker::{Model, PhantomData};

/// Names the words to which a seat belongs. No value of it is made.
pub struct WordsName {
    words: Words,
}

impl Model for WordsName {
    ghost use Rattle.atomic_table.specs.Seated.{TableId};

    ghost Value = { TableId };

    ghost view = { λ name. name.words.identity };
}

/// What a member knows. No value of it is made.
pub type Knows = ClaimView<WordsName>;

impl<W: EventWait> RoundItem<WordsName> for RoundCell<W> {
    ghost use Rattle.aio_shared.specs.Cells.{CellSays, IsIdle};

    ghost says = { CellSays };

    ghost is_idle = { IsIdle };
}

/// The rule of the queue.
pub struct OneCell<W> {
    marker: PhantomData<W>,
}

impl<W: EventWait> Protocol<RoundCell<W>, Knows> for OneCell<W> {
    ghost use Rattle.aio_rules.specs.RoundLock.{RoundLockRule, opening_claim};
    ghost use Rattle.aio_shared.specs.Cells.{CellSays, IsIdle};
    ghost use Rattle.aio_shared.specs.OneCell.{no_words};

    ghost holds = { RoundLockRule CellSays IsIdle };

    ghost first = { opening_claim no_words };
}

/// The first push, in a reactor whose connections are of this type.
pub struct Open<A, W> {
    connections: PhantomData<A>,
    wait: PhantomData<W>,
}

impl<A: Arm, W: EventWait> Outcome<RoundCell<W>, Knows> for Open<A, W> {
    ghost use Rattle.std.specs.Prelude.{◌≡◌};
    ghost use Rattle.aio_rules.specs.RoundLock.{knowing};
    ghost use Rattle.aio_shared.specs.Cells.{said_by};

    ghost then = { λ knows cell after. after ≡ knowing (said_by A.all_sure cell) };
}

/// A pop that gives.
pub struct Pop<W> {
    marker: PhantomData<W>,
}

impl<W: EventWait> Outcome<RoundCell<W>, Knows> for Pop<W> {
    ghost use Rattle.aio_shared.specs.OneCell.{PopsCell};

    ghost then = { PopsCell };
}

impl<W: EventWait> Lesson<RoundCell<W>, Knows> for Pop<W> {
    ghost use Rattle.std.specs.Prelude.{⊤};

    ghost fact = { λ knows items. ⊤ };
}

/// A push by a member that holds the cell, which finds the queue empty.
pub struct Push<W> {
    marker: PhantomData<W>,
}

impl<W: EventWait> Outcome<RoundCell<W>, Knows> for Push<W> {
    ghost use Rattle.std.specs.Prelude.{◌≡◌};
    ghost use Rattle.aio_rules.specs.RoundLock.{released};

    ghost then = { λ knows cell after. after ≡ released knows };
}

impl<W: EventWait> Lesson<RoundCell<W>, Knows> for Push<W> {
    ghost use Rattle.std.specs.Prelude.{◌≡◌, []};

    ghost fact = { λ knows items. items ≡ [] };
}

/// A member is split off another, which keeps count of those.
pub struct NewMember;

impl Split<Knows> for NewMember {
    ghost use Rattle.aio_rules.specs.RoundLock.{next_claim, split_claim};

    ghost left = { split_claim };

    ghost right = { next_claim };
}

/// The kit's bounded queue under this rule.
pub type CellQueue<W> = RuledArrayQueue<RoundCell<W>, Knows, OneCell<W>>;

/// A member's seat at it.
pub type CellPass<W> = Pass<RoundCell<W>, Knows>;
