//! Laws of the words that threads share, as contracts of functions with no work to do.

ghost use Rattle.aio_rules.specs.WordCalls.{ParkTakesOnce};
ghost use Rattle.aio_rules.specs.WordLaws.{JoinKeepsWordRule, NoSeatAppears, OnlySwapTakesBits, SplitKeepsRule, StartMeetsWordRule, StepKeepsRule, StepKeepsSeat, ViewsTellWords, WokenWaitIsTold};

/// The rule of the words holds at the start; each step that its seat may make keeps it, whichever seat
/// makes it and whatever the others have done before, and so does each split and each join of seats. A
/// step leaves its seat's role, and lets what the seat has seen not fall.
pub fn every_step_keeps_the_rule_of_the_words()
    ensures start { StartMeetsWordRule }
    ensures step { StepKeepsRule }
    ensures split { SplitKeepsRule }
    ensures join { JoinKeepsWordRule }
    ensures seat { StepKeepsSeat }
{}

/// No slot that was woken is lost: only a swap of a parker's mask takes a bit out of it.
pub fn only_a_swap_takes_woken_slots()
    ensures { OnlySwapTakesBits }
{}

/// While the round seat waits for a parker and one of that parker's slots is woken, `notified` is set or
/// a wake is in the middle of its call, and that wake will look at the flag or set `notified`.
pub fn a_wait_with_a_woken_slot_is_told()
    ensures { WokenWaitIsTold }
{}

/// A park takes woken slots out of a mask exactly once, and begins no round.
pub fn a_park_takes_woken_slots_once()
    ensures { ParkTakesOnce }
{}

/// What the steps of all seats found tells the words: a step that no seat shows changes none. No seat
/// comes about beside others that stay as they are, unless seats were split off it.
pub fn every_change_of_the_words_shows_in_a_seat()
    ensures words { ViewsTellWords }
    ensures seats { NoSeatAppears }
{}
