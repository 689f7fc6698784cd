//! Laws of a lock whose value has two notes, as contracts of functions with no work to do.

ghost use Rattle.aio_rules.specs.LockLaws.{ArrivalKeepsRule, ExchangeKeepsRule, JoinKeepsLockRule, LateArrivalKeepsRule, LostExchangeKeepsRule, OneIsInside, OwnersKeepRule, SlotComesOut, SlotGoesBack, StartMeetsLockRule, StoreKeepsRule};

use crate::notes::Noted;

/// The rule of a lock holds at the start, and each kind of step keeps it, whichever seat makes it and
/// whatever the others have done before: making the two owners, an exchange that wins or finds the lock
/// taken, a visitor's first swap, a store that opens the lock, and joining two owners. So do the two
/// moves of the empty slot by the seat that has taken.
pub fn every_step_keeps_the_rule_of_a_lock<T: Noted>()
    ensures start { StartMeetsLockRule T.first_note T.second_note }
    ensures owners { OwnersKeepRule T.first_note T.second_note }
    ensures exchange { ExchangeKeepsRule T.first_note T.second_note }
    ensures lost_exchange { LostExchangeKeepsRule T.first_note T.second_note }
    ensures arrival { ArrivalKeepsRule T.first_note T.second_note }
    ensures late_arrival { LateArrivalKeepsRule T.first_note T.second_note }
    ensures slot_goes_back { SlotGoesBack T.first_note T.second_note }
    ensures slot_comes_out { SlotComesOut T.first_note T.second_note }
    ensures store { StoreKeepsRule T.first_note T.second_note }
    ensures join { JoinKeepsLockRule T.first_note T.second_note }
{}

/// While a token is inside, the lock is taken, and no other token is inside. What an owner knows of
/// its number is what every token that is inside knows of it.
pub fn one_token_is_inside<T: Noted>()
    ensures { OneIsInside T.first_note T.second_note }
{}
