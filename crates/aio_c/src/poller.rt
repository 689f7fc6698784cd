//! What the system's poller answered is told to the poller in memory.

ghost use Rattle.std.specs.Prelude.{◌≡◌, false, true};
ghost use Rattle.aio_base.specs.Machine.{with_due};
ghost use Rattle.aio_c.specs.Codes.{memory_code, which_of};
ghost use Rattle.aio_c.specs.Promises.{Crossed, ChangesCoreAlone, GivePromises};

use crate::Handle;
use crate::answers::{memory_code, which_of};
use aio_base::{Event, Interest, Key};

/// Tells the poller in memory an event of this source.
fn give(h: Handle, out: &mut Handle, event: Event) -> u32
    ensures answer { Crossed memory_code
        (λ told. GivePromises h.home.core event told out.new.home.core) result }
    ensures rest { ChangesCoreAlone h.home out.new.home }
{
    let mut held = h.open();
    let told = held.core.poller().give(event);
    *out = Handle::close(held);
    memory_code(told)
}

/// An event of the system's poller without urgent readiness, for the next wait that has room for it. Its
/// key may be one that no source has.
#[unsafe(no_mangle)]
pub extern "C" fn aio_give(h: Handle, out: &mut Handle, key: u32, read: bool, write: bool) -> u32
    ensures answer { Crossed memory_code (λ told. GivePromises h.home.core (record {
      key = record { 0 = key };
      on = record { read = read; write = write; priority = false };
    }) told out.new.home.core) result }
    ensures rest { ChangesCoreAlone h.home out.new.home }
{
    let event = Event {
        key: Key(key),
        on: Interest {
            read,
            write,
            ..Interest::NONE
        },
    };
    give(h, out, event)
}

/// An event of the system's poller that tells urgent readiness, and of these directions too.
#[unsafe(no_mangle)]
pub extern "C" fn aio_give_priority(
    h: Handle,
    out: &mut Handle,
    key: u32,
    read: bool,
    write: bool,
) -> u32
    ensures answer { Crossed memory_code (λ told. GivePromises h.home.core (record {
      key = record { 0 = key };
      on = record { read = read; write = write; priority = true };
    }) told out.new.home.core) result }
    ensures rest { ChangesCoreAlone h.home out.new.home }
{
    let event = Event {
        key: Key(key),
        on: Interest {
            read,
            write,
            ..Interest::PRIORITY
        },
    };
    give(h, out, event)
}

/// The next call of this kind of the poller fails, as the system's did: 0 for a registration, 1
/// for an arm, 2 for a removal, and each other number for a wait.
#[unsafe(no_mangle)]
pub extern "C" fn aio_fail_next(h: Handle, out: &mut Handle, kind: u32)
    ensures { out.new.home ≡ record h.home {
      core = (
        record h.home.core.0 {
          due = with_due (which_of kind) h.home.core.0.due;
        },
        h.home.core.1,
      );
    } }
{
    let mut held = h.open();
    held.core.poller().fail_next(which_of(kind));
    *out = Handle::close(held);
}

/// The next wait of the poller that does not fail is interrupted, as the system's was.
#[unsafe(no_mangle)]
pub extern "C" fn aio_interrupt_next(h: Handle, out: &mut Handle)
    ensures { out.new.home ≡ record h.home {
      core = (
        record h.home.core.0 {
          due = record h.home.core.0.due { interrupt = true };
        },
        h.home.core.1,
      );
    } }
{
    let mut held = h.open();
    held.core.poller().interrupt_next();
    *out = Handle::close(held);
}
