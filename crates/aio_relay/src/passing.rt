//! Passing whole lines between two ends.

ghost use Rattle.std.specs.Prelude.{◌≡◌, ◌+◌, ◌<◌, ◌≤◌, ◌⊎◌, [], true, false, length, IfErr, IsOk, Ok, ⊤};
ghost use Rattle.aio_pairs.specs.Backlogs.{saturated};
ghost use Rattle.aio_pairs.specs.Calls.{CallsFor, HostGoesOn, RoseIn};
ghost use Rattle.aio_pairs.specs.Exchanges.{BothGoOn, GoesOn, IsLongAt, IsLongHere, IsLongThere, IsOver, IsReason, IsSameEnd, OneFailed, after_read, after_write, pair_end_of, stop_in, tries_again, work_left};
ghost use Rattle.aio_pairs.specs.Lines.{lines, unfinished};

use aio_base::{Host, Poll, Waker};
use aio_future::TryFault;
use aio_pairs::{BLOCK, Backlog, End, LONGEST, PairEnd, Side, Tally, count_of};

/// Passes whole lines both ways, until neither side can go on or a block of one was read; or until a
/// line is too long or a call failed, which is the end of the pair.
pub fn exchange<H: Host, E: End<H>>(
    a: &mut E,
    b: &mut E,
    from_a: &mut Backlog,
    from_b: &mut Backlog,
    tally_a: &mut Tally,
    tally_b: &mut Tally,
    host: &mut H,
    w: Waker,
) -> Result<(), PairEnd>
    requires room_a { tally_a.old.read < BLOCK }
    requires room_b { tally_b.old.read < BLOCK }
    ensures passes { BothGoOn E.end_step E.telling E.is_sure E.fault_count
        (CallsFor H.rules H.is_later H.notifier_is_sure w) host.old host.new a.old b.old a.new b.new
        from_a.old from_b.old from_a.new from_b.new tally_a.old tally_b.old tally_a.new tally_b.new
        (IsOk result) (stop_in result) }
    ensures most_of_a { tally_a.new.read ≤ BLOCK }
    ensures most_of_b { tally_b.new.read ≤ BLOCK }
    ensures short { IsOk result → (length (unfinished from_a.new.backlog) < LONGEST)
        × (length (unfinished from_b.new.backlog) < LONGEST) }
    ensures reason { IfErr result (IsReason (IsLongThere from_a.new from_b.new)
        (OneFailed E.is_sure E.fault_count a.old a.new b.old b.new)
        (RoseIn (H.rules.faults host.old) (H.rules.faults host.new) (H.notifier_is_sure host.old))) }
    ensures host { HostGoesOn H.rules H.is_later host.old host.new }
{
    loop {
        let finished = match turn(a, b, from_a, from_b, tally_a, tally_b, host, w) {
            Ok(finished) => finished,
            Err(end) => return Err(end),
        };
        if finished {
            return Ok(());
        }
    }
}

// One step each way, and whether that was the last one.
fn turn<H: Host, E: End<H>>(
    a: &mut E,
    b: &mut E,
    from_a: &mut Backlog,
    from_b: &mut Backlog,
    tally_a: &mut Tally,
    tally_b: &mut Tally,
    host: &mut H,
    w: Waker,
) -> Result<bool, PairEnd>
    requires room_a { tally_a.old.read < BLOCK }
    requires room_b { tally_b.old.read < BLOCK }
    ensures passes { BothGoOn E.end_step E.telling E.is_sure E.fault_count
        (CallsFor H.rules H.is_later H.notifier_is_sure w) host.old host.new a.old b.old a.new b.new
        from_a.old from_b.old from_a.new from_b.new tally_a.old tally_b.old tally_a.new tally_b.new
        (result ≡ Ok true) (stop_in result) }
    ensures most_of_a { tally_a.new.read ≤ BLOCK }
    ensures most_of_b { tally_b.new.read ≤ BLOCK }
    ensures room { result ≡ Ok false → (tally_a.new.read < BLOCK) × (tally_b.new.read < BLOCK) }
    ensures less { result ≡ Ok false → work_left from_a.new tally_a.new + work_left from_b.new tally_b.new
        < work_left from_a.old tally_a.old + work_left from_b.old tally_b.old }
    ensures short { IsOk result → (length (unfinished from_a.new.backlog) < LONGEST)
        × (length (unfinished from_b.new.backlog) < LONGEST) }
    ensures a_same { IsSameEnd E.telling E.is_sure E.fault_count a.old a.new }
    ensures b_same { IsSameEnd E.telling E.is_sure E.fault_count b.old b.new }
    ensures reason { IfErr result (IsReason (IsLongThere from_a.new from_b.new)
        (OneFailed E.is_sure E.fault_count a.old a.new b.old b.new)
        (RoseIn (H.rules.faults host.old) (H.rules.faults host.new) (H.notifier_is_sure host.old))) }
    ensures host { HostGoesOn H.rules H.is_later host.old host.new }
{
    let more_a = match step(Side::A, a, b, from_a, tally_a, host, w) {
        Ok(more) => more,
        Err(end) => return Err(end),
    };
    let more_b = match step(Side::B, b, a, from_b, tally_b, host, w) {
        Ok(more) => more,
        Err(end) => return Err(end),
    };
    Ok(is_finished(more_a, more_b, tally_a.read, tally_b.read))
}

// Whether the exchange is over: neither side can go on, or a block of one was read.
fn is_finished(more_a: bool, more_b: bool, read_a: usize, read_b: usize) -> bool
    requires a { read_a ≤ BLOCK }
    requires b { read_b ≤ BLOCK }
    ensures over { result ≡ true → IsOver more_a more_b read_a read_b }
    ensures room { result ≡ false → (read_a < BLOCK) × (read_b < BLOCK) }
    ensures more { result ≡ false → (more_a ≡ true) ⊎ (more_b ≡ true) }
{
    if read_a == BLOCK || read_b == BLOCK {
        return true;
    }
    if more_a {
        return false;
    }
    !more_b
}

// One step of what goes from one end to the other. Whole lines are written before more is read, so that
// what is held of a side stays below a block; and lines that were just read are written at once.
fn step<H: Host, E: End<H>>(
    here: Side,
    from: &mut E,
    to: &mut E,
    side: &mut Backlog,
    tally: &mut Tally,
    host: &mut H,
    w: Waker,
) -> Result<bool, PairEnd>
    requires room { tally.old.read < BLOCK }
    ensures passes { GoesOn E.end_step E.telling E.is_sure E.fault_count
        (CallsFor H.rules H.is_later H.notifier_is_sure w) host.old host.new
        from.old to.old from.new to.new side.old side.new tally.old tally.new
        (tries_again result) (stop_in result) }
    ensures block { tally.new.read ≤ BLOCK }
    ensures less { result ≡ Ok true → work_left side.new tally.new < work_left side.old tally.old }
    ensures most { work_left side.new tally.new ≤ work_left side.old tally.old }
    ensures short { IsOk result → length (unfinished side.new.backlog) < LONGEST }
    ensures from_same { IsSameEnd E.telling E.is_sure E.fault_count from.old from.new }
    ensures to_same { IsSameEnd E.telling E.is_sure E.fault_count to.old to.new }
    ensures reason { IfErr result (IsReason (IsLongHere here side.new)
        (OneFailed E.is_sure E.fault_count from.old from.new to.old to.new)
        (RoseIn (H.rules.faults host.old) (H.rules.faults host.new) (H.notifier_is_sure host.old))) }
    ensures host { HostGoesOn H.rules H.is_later host.old host.new }
{
    if side.has_long_line() {
        let at = long_line_end(side);
        return Err(PairEnd::TooLong { side: here, at });
    }
    if side.has_lines() {
        return write_lines(from, to, side, tally, host, w);
    }
    if side.ended() {
        return Ok(false);
    }
    let more = match read_more(here, from, to, side, tally, host, w) {
        Ok(more) => more,
        Err(end) => return Err(end),
    };
    if more {
        return write_if_any(from, to, side, tally, host, w);
    }
    Ok(false)
}

// Reads once of a side whose lines were all written. Answers whether it may go on.
fn read_more<H: Host, E: End<H>>(
    here: Side,
    from: &mut E,
    to: &mut E,
    side: &mut Backlog,
    tally: &mut Tally,
    host: &mut H,
    w: Waker,
) -> Result<bool, PairEnd>
    requires written { lines side.old.backlog ≡ [] }
    requires not_ended { side.old.ended ≡ false }
    requires short { length (unfinished side.old.backlog) < LONGEST }
    requires room { tally.old.read < BLOCK }
    ensures passes { GoesOn E.end_step E.telling E.is_sure E.fault_count
        (CallsFor H.rules H.is_later H.notifier_is_sure w) host.old host.new
        from.old to.old from.new to.new side.old side.new tally.old tally.new
        (tries_again result) (stop_in result) }
    ensures block { tally.new.read ≤ BLOCK }
    ensures less { result ≡ Ok true → work_left side.new tally.new < work_left side.old tally.old }
    ensures most { work_left side.new tally.new ≤ work_left side.old tally.old }
    ensures short { IsOk result → length (unfinished side.new.backlog) < LONGEST }
    ensures from_same { IsSameEnd E.telling E.is_sure E.fault_count from.old from.new }
    ensures to_same { IsSameEnd E.telling E.is_sure E.fault_count to.old to.new }
    ensures reason { IfErr result (IsReason (IsLongHere here side.new)
        (OneFailed E.is_sure E.fault_count from.old from.new to.old to.new)
        (RoseIn (H.rules.faults host.old) (H.rules.faults host.new) (H.notifier_is_sure host.old))) }
    ensures host { HostGoesOn H.rules H.is_later host.old host.new }
{
    let tried = side.read_from(from, host, BLOCK - tally.read, w);
    tally.add_read(count_of(tried.answer));
    match tried.woken {
        Ok(()) => read_answer(here, side, tried.answer),
        Err(fault) => Err(PairEnd::NotifyFault(fault)),
    }
}

// Writes whole lines once, as many as the other end takes. Answers whether the side may go on.
fn write_lines<H: Host, E: End<H>>(
    from: &mut E,
    to: &mut E,
    side: &mut Backlog,
    tally: &mut Tally,
    host: &mut H,
    w: Waker,
) -> Result<bool, PairEnd>
    requires some { 0 < length (lines side.old.backlog) }
    requires block { tally.old.read ≤ BLOCK }
    ensures passes { GoesOn E.end_step E.telling E.is_sure E.fault_count
        (CallsFor H.rules H.is_later H.notifier_is_sure w) host.old host.new
        from.old to.old from.new to.new side.old side.new tally.old tally.new
        (tries_again result) (stop_in result) }
    ensures read { tally.new.read ≡ tally.old.read }
    ensures less { result ≡ Ok true → work_left side.new tally.new < work_left side.old tally.old }
    ensures most { work_left side.new tally.new ≤ work_left side.old tally.old }
    ensures rest { unfinished side.new.backlog ≡ unfinished side.old.backlog }
    ensures from_same { IsSameEnd E.telling E.is_sure E.fault_count from.old from.new }
    ensures to_same { IsSameEnd E.telling E.is_sure E.fault_count to.old to.new }
    ensures reason { IfErr result (IsReason (λ side at. ⊥)
        (OneFailed E.is_sure E.fault_count from.old from.new to.old to.new)
        (RoseIn (H.rules.faults host.old) (H.rules.faults host.new) (H.notifier_is_sure host.old))) }
    ensures host { HostGoesOn H.rules H.is_later host.old host.new }
{
    let tried = to.write(host, side.lines(), w);
    let n = count_of(tried.answer);
    side.shrink(n);
    tally.add_written(n);
    match tried.woken {
        Ok(()) => write_answer(tried.answer),
        Err(fault) => Err(PairEnd::NotifyFault(fault)),
    }
}

// Writes whole lines once, where there are any.
fn write_if_any<H: Host, E: End<H>>(
    from: &mut E,
    to: &mut E,
    side: &mut Backlog,
    tally: &mut Tally,
    host: &mut H,
    w: Waker,
) -> Result<bool, PairEnd>
    requires block { tally.old.read ≤ BLOCK }
    ensures passes { GoesOn E.end_step E.telling E.is_sure E.fault_count
        (CallsFor H.rules H.is_later H.notifier_is_sure w) host.old host.new
        from.old to.old from.new to.new side.old side.new tally.old tally.new
        (tries_again result) (stop_in result) }
    ensures read { tally.new.read ≡ tally.old.read }
    ensures most { work_left side.new tally.new ≤ work_left side.old tally.old }
    ensures rest { unfinished side.new.backlog ≡ unfinished side.old.backlog }
    ensures from_same { IsSameEnd E.telling E.is_sure E.fault_count from.old from.new }
    ensures to_same { IsSameEnd E.telling E.is_sure E.fault_count to.old to.new }
    ensures reason { IfErr result (IsReason (λ side at. ⊥)
        (OneFailed E.is_sure E.fault_count from.old from.new to.old to.new)
        (RoseIn (H.rules.faults host.old) (H.rules.faults host.new) (H.notifier_is_sure host.old))) }
    ensures host { HostGoesOn H.rules H.is_later host.old host.new }
{
    if !side.has_lines() {
        return Ok(true);
    }
    write_lines(from, to, side, tally, host, w)
}

// What the answer to a read is for the pair.
fn read_answer(
    here: Side,
    side: &Backlog,
    answer: Poll<Result<usize, TryFault>>,
) -> Result<bool, PairEnd>
    ensures { result ≡ after_read here side.now answer }
{
    match answer {
        Poll::Ready(Ok(0)) => Ok(false),
        Poll::Ready(Ok(_)) => {
            if side.has_long_line() {
                let at = long_line_end(side);
                return Err(PairEnd::TooLong { side: here, at });
            }
            Ok(true)
        }
        Poll::Ready(Err(fault)) => Err(failed(fault)),
        Poll::Pending => Ok(false),
    }
}

// What the answer to a write is for the pair.
fn write_answer(answer: Poll<Result<usize, TryFault>>) -> Result<bool, PairEnd>
    ensures { result ≡ after_write answer }
{
    match answer {
        Poll::Pending => Ok(false),
        Poll::Ready(Ok(_)) => Ok(true),
        Poll::Ready(Err(fault)) => Err(failed(fault)),
    }
}

// The end of a pair one of whose calls failed.
fn failed(fault: TryFault) -> PairEnd
    ensures { result ≡ pair_end_of fault }
{
    match fault {
        TryFault::Read(counts) => PairEnd::ReadFault(counts),
        TryFault::Write(counts) => PairEnd::WriteFault(counts),
        TryFault::Arm(fault) => PairEnd::ArmFault(fault),
    }
}

// Where the first bytes of a line that is too long end, as many as a line may have.
fn long_line_end(side: &Backlog) -> u64
    ensures { result
        ≡ saturated (side.now.forwarded + length (lines side.now.backlog) + LONGEST) }
{
    let waiting = side.lines().len();
    side.forwarded()
        .saturating_add(waiting as u64)
        .saturating_add(LONGEST as u64)
}
