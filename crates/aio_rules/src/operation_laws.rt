//! Laws of the queue of operations, as contracts of functions with no work to do.

ghost use Rattle.aio_rules.specs.OperationLaws.{DrainedHasNoneQueued, DrainedStays, EmptyPopKeepsQueueRule, FullPushKeepsQueueRule, NewPassKeepsQueueRule, OwnApplicationStaysInOrder, PopKeepsQueueRule, PopStaysInOrder, PushKeepsQueueRule, PushStaysInOrder, RuleHasItsParts, StartMeetsQueueRule};

/// The rule of the queue holds at the start, and each kind of step keeps it, whichever pass makes it and
/// whatever the others have done before: a push that succeeds, one that finds 1,000 entries, a pop that
/// gives, one that finds none, and making a pass.
pub fn every_step_keeps_the_rule_of_the_queue<O>()
    ensures start { StartMeetsQueueRule O }
    ensures push { PushKeepsQueueRule O }
    ensures full_push { FullPushKeepsQueueRule O }
    ensures pop { PopKeepsQueueRule O }
    ensures empty_pop { EmptyPopKeepsQueueRule O }
    ensures new_pass { NewPassKeepsQueueRule O }
{}

/// What the rule of the queue says of entries and passes, part by part. So no entry is lost or popped
/// twice, and one that was popped has no earlier one of its pass in the queue, whoever popped it.
pub fn the_rule_of_the_queue_has_five_parts<O>()
    ensures { RuleHasItsParts O }
{}

/// After 1,000 pops that gave since its last push, or one that found none, nothing of a pass is queued.
/// It stays so until the pass pushes again.
pub fn a_pass_that_drained_has_nothing_queued<O>()
    ensures none { DrainedHasNoneQueued O }
    ensures stays { DrainedStays O }
{}

/// The operations of each pass are applied in the order of its calls, each once: those that went through
/// the queue, whoever popped them, and those that a call applied itself after a drain.
pub fn operations_are_applied_in_the_order_of_the_calls<O>()
    ensures push { PushStaysInOrder O }
    ensures pop { PopStaysInOrder O }
    ensures own { OwnApplicationStaysInOrder O }
{}
