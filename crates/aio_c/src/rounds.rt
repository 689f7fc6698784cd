//! The sections of a round.

ghost use Rattle.std.specs.Prelude.{◌≡◌, true, false, length};
ghost use Rattle.aio_base.specs.World.{World};
ghost use Rattle.aio_react.specs.Asking.{asked_of, handle_part};
ghost use Rattle.aio_react.specs.Standing.{Stands};
ghost use Rattle.aio_c.specs.Codes.{begin_answer, wait_answer, handle_answer, finish_answer};
ghost use Rattle.aio_c.specs.Codes.{ask_answer, limit_behind, unread_answer};
ghost use Rattle.aio_c.specs.Promises.{Crossed, Begins, WaitPromises, HandlePromises, Finishes};
ghost use Rattle.aio_c.specs.Promises.{ChangesCoreAlone, has_wakers, unread_wakers, unread_behind};
ghost use Rattle.aio_c.specs.Promises.{tells, written};

use crate::Handle;
use crate::answers::{
    AskAnswer, BeginAnswer, FinishAnswer, HandleAnswer, WaitAnswer, ask_answer, begin_answer,
    finish_answer, handle_answer, limit_in, moment_from, wait_answer,
};
use crate::held::Held;
use aio_base::Waker;

/// How many rounds have begun.
#[unsafe(no_mangle)]
pub extern "C" fn aio_ticker(h: Handle, out: &mut Handle) -> u64
    ensures value { result ≡ h.home.core.1.ticker }
    ensures world { (w : World) → Stands (tells h.home.core.0) h.home.core.1 w
        → result ≡ w.rounds }
    ensures same { out.new.home ≡ h.home }
{
    let held = h.open();
    let ticker = held.core.ticker();
    *out = Handle::close(held);
    ticker
}

/// The limit with which a round begins: 0 where events were given that no wait has taken, else the given
/// one where `limited` says that there is one.
fn begin_limit(held: &mut Held, limited: bool, limit: u64) -> Option<u64>
    ensures value { result ≡ limit_behind held.old.core.0.noted limited limit }
    ensures same { held.new ≡ held.old }
{
    match held.core.poller().noted() {
        [] => limit_in(limited, limit),
        [..] => Some(0),
    }
}

/// Begins a round at a moment, with a limit for its waits where `limited` says so, in nanoseconds; with
/// the limit 0 where events were given that no wait has taken, which the system will not tell again. A moment
/// below that of the last begin or finish counts as that one. Refused, with all as it was, exactly where
/// wakers of the last finish were not read, and else where the core refuses.
#[unsafe(no_mangle)]
pub extern "C" fn aio_begin(
    h: Handle,
    out: &mut Handle,
    now: u64,
    limited: bool,
    limit: u64,
) -> BeginAnswer
    ensures begun { h.home.unread ≡ false → Crossed begin_answer (λ told. Begins h.home now
        (limit_behind h.home.core.0.noted limited limit) told out.new.home) result }
    ensures unread { h.home.unread ≡ true → (result ≡ unread_answer) × (out.new.home ≡ h.home) }
{
    let mut held = h.open();
    if held.unread {
        *out = Handle::close(held);
        return BeginAnswer {
            code: 19,
            limited: false,
            number: 0,
            limit: 0,
        };
    }
    let limit = begin_limit(&mut held, limited, limit);
    let now = moment_from(held.clock, now);
    let told = held.core.begin(now, limit);
    if told.is_ok() {
        held.clock = now;
    }
    *out = Handle::close(held);
    begin_answer(told)
}

/// Waits once: the first 1,024 of the events that the poller was given are in hand then. The others are
/// for the next wait, and all of them where this one fails or is interrupted.
#[unsafe(no_mangle)]
pub extern "C" fn aio_wait(h: Handle, out: &mut Handle) -> WaitAnswer
    ensures answer { Crossed wait_answer
        (λ told. WaitPromises h.home.core told out.new.home.core) result }
    ensures rest { ChangesCoreAlone h.home out.new.home }
{
    let mut held = h.open();
    let told = held.core.wait();
    *out = Handle::close(held);
    wait_answer(told)
}

/// Handles the first event in hand.
#[unsafe(no_mangle)]
pub extern "C" fn aio_handle(h: Handle, out: &mut Handle) -> HandleAnswer
    ensures answer { Crossed handle_answer
        (λ told. HandlePromises h.home.core told out.new.home.core) result }
    ensures rest { ChangesCoreAlone h.home out.new.home }
{
    let mut held = h.open();
    let told = held.core.handle();
    *out = Handle::close(held);
    handle_answer(told)
}

/// What `aio_handle` would ask of the poller now, where it is not refused.
#[unsafe(no_mangle)]
pub extern "C" fn aio_handle_asks(h: Handle, out: &mut Handle) -> AskAnswer
    ensures asks { result ≡ ask_answer (asked_of (handle_part h.home.core.1)) }
    ensures same { out.new.home ≡ h.home }
{
    let held = h.open();
    let asked = held.core.handle_asks();
    *out = Handle::close(held);
    ask_answer(asked)
}

/// Ends the round at a moment; one below that of the last begin or finish counts as that one. Its wakers are
/// to be read then, before another round begins.
#[unsafe(no_mangle)]
pub extern "C" fn aio_finish(h: Handle, out: &mut Handle, now: u64) -> FinishAnswer
    ensures { Crossed (λ told. finish_answer told (length out.new.home.core.1.round.taken))
        (λ told. Finishes h.home now told out.new.home) result }
{
    let mut held = h.open();
    let now = moment_from(held.clock, now);
    let told = held.core.finish(now);
    let wakers = held.core.woken().len() as u64;
    if told.is_ok() {
        held.clock = now;
        held.unread = has_wakers(held.core.woken());
    }
    *out = Handle::close(held);
    finish_answer(told, wakers)
}

fn has_wakers(woken: &[Waker]) -> bool
    ensures { result ≡ has_wakers woken.now }
{
    match woken {
        [] => false,
        [..] => true,
    }
}

/// Writes the wakers that the last finish has to wake, in order, as far as there is room; the places behind
/// stay as they are. Where there is room for all of them, they are read: from then on it writes nothing, nor
/// does it while a round runs.
#[unsafe(no_mangle)]
pub extern "C" fn aio_woken(h: Handle, out: &mut Handle, wakers: &mut [u32])
    ensures written { wakers.new ≡ written (unread_wakers h.home) wakers.old }
    ensures read { out.new.home
        ≡ record h.home { unread = unread_behind h.home (length wakers.old) } }
{
    let mut held = h.open();
    if held.unread {
        write_wakers(held.core.woken(), wakers);
        held.unread = wakers.len() < held.core.woken().len();
    }
    *out = Handle::close(held);
}

/// Writes the numbers of the first wakers, as far as there is room.
fn write_wakers(woken: &[Waker], slots: &mut [u32])
    ensures { slots.new ≡ written woken.now slots.old }
{
    let count = woken.len().min(slots.len());
    for at in 0..count {
        slots[at] = woken[at].0;
    }
}
