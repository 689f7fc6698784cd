//! The rule of the words as the table takes it, and what each kind of step tells its seat.

use aio_rules::SeatView;
use atomic_table::{Join, Play, Split, TableRule};

/// The rule of the words. The table is told once for how many parkers it is.
pub struct Rule;

impl TableRule<(), SeatView, u32> for Rule {
    ghost use Rattle.aio_rules.specs.SharedWords.{first_view};
    ghost use Rattle.aio_words.specs.Plays.{Ruled};

    ghost holds = { Ruled };

    ghost first = { λ _. first_view };
}

/// A pass that is split off a seat.
pub struct NewPass;

impl Split<SeatView> for NewPass {
    ghost use Rattle.aio_rules.specs.SharedWords.{split_view, after_split};

    ghost left = { after_split };

    ghost right = { split_view };
}

/// A pass that takes in another.
pub struct TakeIn;

impl Join<SeatView> for TakeIn {
    ghost use Rattle.aio_rules.specs.SharedWords.{joined_seat, spent_view};

    ghost both = { joined_seat };

    ghost spent = { spent_view };
}

pub struct LoadTicker;

impl Play<(), SeatView> for LoadTicker {
    ghost use Rattle.aio_words.specs.Plays.{LoadsTicker};

    ghost then = { LoadsTicker };
}

pub struct AddTicker;

impl Play<(), SeatView> for AddTicker {
    ghost use Rattle.aio_words.specs.Plays.{AddsTicker};

    ghost then = { AddsTicker };
}

pub struct SetBit;

impl Play<(), SeatView> for SetBit {
    ghost use Rattle.aio_words.specs.Plays.{SetsBit};

    ghost then = { SetsBit };
}

pub struct LoadBlocked;

impl Play<(), SeatView> for LoadBlocked {
    ghost use Rattle.aio_words.specs.Plays.{LoadsBlocked};

    ghost then = { LoadsBlocked };
}

pub struct ExchangeNotified;

impl Play<(), SeatView> for ExchangeNotified {
    ghost use Rattle.aio_words.specs.Plays.{ExchangesNotified};

    ghost then = { ExchangesNotified };
}

pub struct StoreBlocked;

impl Play<(), SeatView> for StoreBlocked {
    ghost use Rattle.aio_words.specs.Plays.{StoresBlocked};

    ghost then = { StoresBlocked };
}

pub struct SwapMask;

impl Play<(), SeatView> for SwapMask {
    ghost use Rattle.aio_words.specs.Plays.{SwapsMask};

    ghost then = { SwapsMask };
}

pub struct LoadMask;

impl Play<(), SeatView> for LoadMask {
    ghost use Rattle.aio_words.specs.Plays.{LoadsMask};

    ghost then = { LoadsMask };
}

pub struct SwapNotified;

impl Play<(), SeatView> for SwapNotified {
    ghost use Rattle.aio_words.specs.Plays.{SwapsNotified};

    ghost then = { SwapsNotified };
}
