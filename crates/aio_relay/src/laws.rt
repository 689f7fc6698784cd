//! What a poll of a pair comes to once both sides have ended.

ghost use Rattle.std.specs.Prelude.{◌≡◌, Bool};
ghost use Rattle.aio_base.specs.Devices.{Rose};
ghost use Rattle.aio_base.specs.declared.outcomes.Poll.{Poll};
ghost use Rattle.aio_base.specs.declared.tasks.Cx.{Cx};
ghost use Rattle.aio_pairs.specs.declared.outcomes.PairEnd.{PairEnd};
ghost use Rattle.aio_relay.specs.Pairs.{PairState, PollsPair, BothDone, BothShort, IsTheEnd};

use aio_base::Host;
use aio_pairs::End;

/// A poll after which both sides have ended and all lines were written tells just that, or that memory
/// ran out, where no line is too long and neither the host's notifier nor an end failed in it.
pub fn a_done_pair_ends<H: Host, E: End<H>>()
    ensures { (old new : PairState E) (host left : H) (cx : Cx) (answer : Poll PairEnd)
        → PollsPair E.end_step E.telling E.is_sure E.fault_count
        H.rules H.is_later H.notifier_is_sure old host cx answer new left
        → BothShort new → BothDone new → ¬ Rose (H.rules.faults host) (H.rules.faults left)
        → ¬ Rose (E.fault_count old.a) (E.fault_count new.a)
        → ¬ Rose (E.fault_count old.b) (E.fault_count new.b) → IsTheEnd answer }
{}
