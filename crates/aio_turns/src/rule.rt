//! The deque under its rule: what each kind of call makes of a pass's hand.

use crate::entries::{TurnEntry, TurnHand};
use crossbeam_deque::protocol::{Outcome, Protocol, Split};
use crossbeam_deque::{Pass, Stealer, Worker};
use std::alloc::Global;

/// The rule of a deque, which holds after each step of any thread.
#[derive(Drop)]
pub struct OldestFirst;

impl Protocol<TurnEntry, TurnHand> for OldestFirst {
    ghost use Rattle.aio_turns.specs.Turns.{TurnsRule, new_hand};

    ghost holds = { TurnsRule };

    ghost first = { new_hand };

    ghost guest = { new_hand };
}

/// A push by the owner.
pub struct Push;

impl Outcome<TurnEntry, TurnHand> for Push {
    ghost use Rattle.std.specs.Prelude.{◌≡◌};
    ghost use Rattle.aio_turns.specs.Turns.{with_pushes};

    ghost then = { λ h xs after. after ≡ with_pushes xs h };
}

/// A pop by the owner.
pub struct OwnPull;

impl Outcome<TurnEntry, TurnHand> for OwnPull {
    ghost use Rattle.std.specs.Prelude.{◌≡◌, []};
    ghost use Rattle.aio_turns.specs.Turns.{OwnerMet, OwnerMetFirst, with_pulls};

    ghost then = { λ h xs after. (after ≡ with_pulls xs h) × OwnerMetFirst xs h };

    ghost empty = { λ h. OwnerMet [] h };
}

/// A steal.
pub struct ThiefPull;

impl Outcome<TurnEntry, TurnHand> for ThiefPull {
    ghost use Rattle.std.specs.Prelude.{◌≡◌, []};
    ghost use Rattle.aio_turns.specs.Turns.{Met, MetFirst, with_pulls};

    ghost then = { λ h xs after. (after ≡ with_pulls xs h) × MetFirst xs h };

    ghost empty = { λ h. Met [] h };
}

/// A thief, made by the owner, which counts it.
pub struct NewThief;

impl Split<TurnHand> for NewThief {
    ghost use Rattle.aio_turns.specs.Turns.{new_hand, with_thief};

    ghost left = { with_thief };

    ghost right = { λ h. new_hand };
}

/// The kit's deque under this rule, its stealing half, and a thief's pass.
pub(crate) type Deque = Worker<TurnEntry, Global, TurnHand, OldestFirst>;

pub(crate) type StealingHalf = Stealer<TurnEntry, Global, TurnHand, OldestFirst>;

pub(crate) type KitPass = Pass<TurnEntry, TurnHand, Global>;
