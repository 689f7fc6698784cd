//! A law of operations on timers, as the contract of a function with no work to do.

ghost use Rattle.aio_ops.specs.Removals.{RemovedIsOut};

/// Once the removal of a timer was applied, the timer is out of the book, where one pass inserted and
/// removed it: whether the two operations went through the queue, or their calls applied them.
pub fn a_removed_timer_is_out_of_the_book()
    ensures { RemovedIsOut }
{}
