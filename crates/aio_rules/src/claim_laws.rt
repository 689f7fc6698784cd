//! Laws of the lock of a shared reactor, as contracts of functions with no work to do.

ghost use Rattle.aio_rules.specs.RoundLockLaws.{EmptyPopKeepsRule, FirstPushKeepsRule, HolderFindsNone, NewMemberKeepsRule, OneHolds, PopKeepsRule, PushKeepsRule, StartMeetsRoundLockRule};

use crate::claims::RoundItem;

/// The rule of the reactor lock holds at the start, and each kind of step keeps it, whichever member
/// makes it and whatever the others have done before: the first push, a pop that gives, one that finds
/// none, a push by a member that holds the cell, and making a member for another thread.
pub fn every_step_keeps_the_rule_of_the_reactor_lock<I, X: RoundItem<I>>()
    ensures start { StartMeetsRoundLockRule X.says X.is_idle }
    ensures first_push { FirstPushKeepsRule X.says X.is_idle }
    ensures pop { PopKeepsRule X.says X.is_idle }
    ensures empty_pop { EmptyPopKeepsRule X.says X.is_idle }
    ensures push { PushKeepsRule X.says X.is_idle }
    ensures new_member { NewMemberKeepsRule X.says X.is_idle }
{}

/// A member that holds the cell finds the queue empty, so that it can always give the cell back, and no
/// other member holds it.
pub fn one_member_holds_the_cell<I, X: RoundItem<I>>()
    ensures empty { HolderFindsNone X.says X.is_idle }
    ensures one { OneHolds X.says X.is_idle }
{}
