//! Timers are registered and taken out.

ghost use Rattle.std.specs.Prelude.{◌≡◌, true, false};
ghost use Rattle.aio_react.specs.Hosting.{unregistered};
ghost use Rattle.aio_base.specs.Hosts.{has_id_left};
ghost use Rattle.aio_c.specs.Codes.{timer_answer, no_id, moment_at};
ghost use Rattle.aio_c.specs.Promises.{Crossed, ChangesCoreAlone, InsertPromises};

use crate::Handle;
use crate::answers::{NumberAnswer, memory_code, moment_at, timer_answer};
use aio_base::{TimerHost, TimerId, Waker};

/// Registers a timer for a moment with a waker: its number is its id. It fires once, and a round that
/// takes its waker takes it out.
#[unsafe(no_mangle)]
pub extern "C" fn aio_insert_timer(h: Handle, out: &mut Handle, at: u64, waker: u32) -> NumberAnswer
    ensures inserted { has_id_left h.home.core.1.ids_drawn ≡ true → Crossed timer_answer
        (λ told. InsertPromises h.home.core (moment_at at) (record { 0 = waker })
        told out.new.home.core) result }
    ensures rest { ChangesCoreAlone h.home out.new.home }
    ensures spent { has_id_left h.home.core.1.ids_drawn ≡ false
        → (result ≡ no_id) × (out.new.home ≡ h.home) }
{
    let mut held = h.open();
    if !held.core.ids_left() {
        *out = Handle::close(held);
        return NumberAnswer {
            code: 18,
            number: 0,
        };
    }
    let told = held.core.insert_timer(moment_at(at), Waker(waker));
    *out = Handle::close(held);
    timer_answer(told)
}

/// Takes the timer of this moment and id out, where there is one; it is done where there is none, too.
#[unsafe(no_mangle)]
pub extern "C" fn aio_remove_timer(h: Handle, out: &mut Handle, at: u64, id: u64) -> u32
    ensures done { result ≡ 0 }
    ensures removed { out.new.home ≡ record h.home {
      core = (h.home.core.0, unregistered h.home.core.1 (moment_at at) (record { 0 = id }));
    } }
{
    let mut held = h.open();
    let told = held.core.remove_timer(moment_at(at), TimerId(id));
    *out = Handle::close(held);
    memory_code(told)
}
