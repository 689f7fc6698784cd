//! Tasks wait for the sources: poll waiters and listeners.

ghost use Rattle.std.specs.Prelude.{◌≡◌, Some};
ghost use Rattle.aio_base.specs.declared.names.Dir.TheVariants.{Priority};
ghost use Rattle.aio_base.specs.declared.names.Waker.{Waker as Task};
ghost use Rattle.aio_listen.specs.declared.ticket.Ticket.{Ticket};
ghost use Rattle.aio_react.specs.Asking.{asked_of, poll_part, step_part_of};
ghost use Rattle.aio_react.specs.Numbers.{value_of};
ghost use Rattle.aio_c.specs.Codes.{poll_answer, listener_answer, step_code, done_code, ask_answer};
ghost use Rattle.aio_c.specs.Codes.{dir_of};
ghost use Rattle.aio_c.specs.Promises.{Crossed, ChangesCoreAlone, PollPromises, ListenPromises};
ghost use Rattle.aio_c.specs.Promises.{StepPromises, UnlistenPromises};

use crate::Handle;
use crate::answers::{
    AskAnswer, NumberAnswer, PollAnswer, ask_answer, dir_of, done_code, listener_answer,
    poll_answer, step_code,
};
use aio_base::{Dir, Key, Waker};

/// Polls whether a source is readable, or writable where `write` says so, with a waker.
#[unsafe(no_mangle)]
pub extern "C" fn aio_poll(
    h: Handle,
    out: &mut Handle,
    key: u32,
    write: bool,
    waker: u32,
) -> PollAnswer
    ensures answer { Crossed poll_answer (λ told. PollPromises h.home.core (record { 0 = key })
        (dir_of write) (record { 0 = waker }) told out.new.home.core) result }
    ensures rest { ChangesCoreAlone h.home out.new.home }
{
    let mut held = h.open();
    let told = held.core.poll(Key(key), dir_of(write), Waker(waker));
    *out = Handle::close(held);
    poll_answer(told)
}

/// What `aio_poll` would ask of the poller now.
#[unsafe(no_mangle)]
pub extern "C" fn aio_poll_asks(h: Handle, out: &mut Handle, key: u32, write: bool) -> AskAnswer
    ensures asks { (w : Task) → result
        ≡ ask_answer (asked_of (poll_part h.home.core.1 key (dir_of write) w)) }
    ensures same { out.new.home ≡ h.home }
{
    let held = h.open();
    let asked = held.core.poll_asks(Key(key), dir_of(write));
    *out = Handle::close(held);
    ask_answer(asked)
}

/// Polls whether a source is urgently ready, with a waker.
#[unsafe(no_mangle)]
pub extern "C" fn aio_poll_priority(h: Handle, out: &mut Handle, key: u32, waker: u32) -> PollAnswer
    ensures answer { Crossed poll_answer (λ told. PollPromises h.home.core (record { 0 = key })
        Priority (record { 0 = waker }) told out.new.home.core) result }
    ensures rest { ChangesCoreAlone h.home out.new.home }
{
    let mut held = h.open();
    let told = held.core.poll(Key(key), Dir::Priority, Waker(waker));
    *out = Handle::close(held);
    poll_answer(told)
}

/// What `aio_poll_priority` would ask of the poller now.
#[unsafe(no_mangle)]
pub extern "C" fn aio_poll_priority_asks(h: Handle, out: &mut Handle, key: u32) -> AskAnswer
    ensures asks { (w : Task) → result
        ≡ ask_answer (asked_of (poll_part h.home.core.1 key Priority w)) }
    ensures same { out.new.home ≡ h.home }
{
    let held = h.open();
    let asked = held.core.poll_asks(Key(key), Dir::Priority);
    *out = Handle::close(held);
    ask_answer(asked)
}

/// A new listener of a source for reading, or for writing where `write` says so. It waits from its first
/// `aio_step` on, and once it is ready it stays so. Its number never comes again.
#[unsafe(no_mangle)]
pub extern "C" fn aio_listen(h: Handle, out: &mut Handle, key: u32, write: bool) -> NumberAnswer
    ensures answer { Crossed listener_answer (λ told. ListenPromises h.home.core (record { 0 = key })
        (dir_of write) told out.new.home.core) result }
    ensures rest { ChangesCoreAlone h.home out.new.home }
{
    let mut held = h.open();
    let told = held.core.listen(Key(key), dir_of(write));
    *out = Handle::close(held);
    listener_answer(told)
}

/// A new listener of a source for urgent readiness.
#[unsafe(no_mangle)]
pub extern "C" fn aio_listen_priority(h: Handle, out: &mut Handle, key: u32) -> NumberAnswer
    ensures answer { Crossed listener_answer (λ told. ListenPromises h.home.core (record { 0 = key })
        Priority told out.new.home.core) result }
    ensures rest { ChangesCoreAlone h.home out.new.home }
{
    let mut held = h.open();
    let told = held.core.listen(Key(key), Dir::Priority);
    *out = Handle::close(held);
    listener_answer(told)
}

/// Polls a listener with a waker.
#[unsafe(no_mangle)]
pub extern "C" fn aio_step(h: Handle, out: &mut Handle, listener: u64, waker: u32) -> u32
    ensures answer { Crossed step_code (λ told. StepPromises h.home.core listener
        (record { 0 = waker }) told out.new.home.core) result }
    ensures rest { ChangesCoreAlone h.home out.new.home }
{
    let mut held = h.open();
    let told = held.core.step(listener, Waker(waker));
    *out = Handle::close(held);
    step_code(told)
}

/// What `aio_step` would ask of the poller now, where it is not refused.
#[unsafe(no_mangle)]
pub extern "C" fn aio_step_asks(h: Handle, out: &mut Handle, listener: u64) -> AskAnswer
    ensures asks { (w : Task) (t : Ticket) → result ≡ ask_answer (asked_of (step_part_of
        h.home.core.1.sources w (Some t) (value_of h.home.core.1.listeners listener))) }
    ensures same { out.new.home ≡ h.home }
{
    let held = h.open();
    let asked = held.core.step_asks(listener);
    *out = Handle::close(held);
    ask_answer(asked)
}

/// Gives up a listener.
#[unsafe(no_mangle)]
pub extern "C" fn aio_unlisten(h: Handle, out: &mut Handle, listener: u64) -> u32
    ensures answer { Crossed done_code (λ told. UnlistenPromises h.home.core listener
        told out.new.home.core) result }
    ensures rest { ChangesCoreAlone h.home out.new.home }
{
    let mut held = h.open();
    let told = held.core.unlisten(listener);
    *out = Handle::close(held);
    done_code(told)
}
