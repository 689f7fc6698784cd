//! A reactor's core for programs that are not Rattle: a static library over `aio_react` and
//! `aio_script`, whose header is `aio.h`.
//!
//! A caller holds a handle: a core over the poller in memory. Each call of the core but a whole
//! round has one export, which takes the handle and puts it back through `out`. Its answer is a
//! plain struct with a code. Of each it promises that some answer of the core crossed as that
//! struct, and of that answer what the core's own call promises, clause by clause, over what the
//! handle held before and holds after; beside the core that is the moment of the last begin or finish, so
//! that moments never fall, and whether the wakers of the last finish were read, before which no round
//! begins. So the machine's rules hold across the handle, for a caller that keeps to what the proofs take
//! for granted of it. A handle that is used is one that a call, or an `aio_new` that answered `true`, has
//! put back; it is used once, by one call at a time, and never after `aio_free`. `out` is a place for a
//! handle, and `wakers` one for as many numbers as it says.
#![tactic(auto)]

ghost use Rattle.std.specs.Prelude.{◌≡◌, List, true, false};
ghost use Rattle.aio_base.specs.World.{ArmedDirection, opening};
ghost use Rattle.aio_c.specs.declared.held.Held.{Held};
ghost use Rattle.aio_c.specs.Owning.{held_coded, handle_owns};
ghost use Rattle.aio_c.specs.Promises.{tells};
ghost use Rattle.aio_react.specs.Cores.{new_core};
ghost use Rattle.aio_react.specs.Standing.{Stands};
ghost use Rattle.aio_facts.specs.Armed.{AgreesWithArmed};
ghost use Rattle.aio_script.specs.Script.{new_script};

mod answers;
mod held;
mod parts;
mod poller;
mod rounds;
mod sources;
mod tasks;
#[cfg(test)]
mod tests;
mod timers;

use aio_base::Moment;
use aio_react::Core;
use aio_script::ScriptPoller;
use held::Held;
use parts::Parts;
use std::alloc::Global;
use std::marker::Model;

/// A core, as it crosses to C: a pointer behind which C does not look.
#[repr(C)]
#[derive(Drop)]
pub struct Handle {
    ptr: *mut u8,
    alloc: Global,
    pub ghost home: { Held } by { held_coded },
}

impl Model for Handle {
    ghost also_owns = { λ s. handle_owns s.alloc s.ptr s.home };
}

impl Handle {
    fn into_parts(self) -> Parts<Held, Global>
        ensures { result.value ≡ self.home }
    {
        let Handle { ptr, alloc } = self;
        Parts {
            ptr: ptr as *mut Held,
            alloc,
        }
    }

    fn of_parts(parts: Parts<Held, Global>) -> Handle
        ensures { result.home ≡ parts.value }
    {
        let Parts { ptr, alloc } = parts;
        Handle {
            ptr: ptr as *mut u8,
            alloc,
        }
    }

    /// What the handle holds.
    fn open(self) -> Box<Held, Global>
        ensures { result.value ≡ self.home }
    {
        self.into_parts().into_box()
    }

    /// A handle that holds this.
    fn close(held: Box<Held, Global>) -> Handle
        ensures { result.home ≡ held.value }
    {
        Handle::of_parts(Parts::of(held))
    }
}

/// Makes a core with no source, no listener, no timer and no round, over a poller with nothing
/// armed: it stands for the opening world. `false` where memory ran out; `out` is as it was then.
#[unsafe(no_mangle)]
pub extern "C" fn aio_new(alloc: Global, out: &mut Handle) -> bool
    ensures made { result ≡ true → out.new.home ≡ record {
      core = (new_script, new_core);
      clock = 0;
      unread = false;
    } }
    ensures stands { (armed : List ArmedDirection) → AgreesWithArmed (tells new_script) armed
        → result ≡ true → Stands (tells out.new.home.core.0) out.new.home.core.1
        (record opening { armed = armed }) }
    ensures refused { result ≡ false → out.new ≡ out.old }
{
    let Some(clock) = Moment::new(0) else {
        return false;
    };
    let Ok(poller) = ScriptPoller::new(alloc) else {
        return false;
    };
    let Ok(core) = Core::new(alloc, poller) else {
        return false;
    };
    let held = Held {
        core,
        clock,
        unread: false,
    };
    match Box::new(alloc, held) {
        Ok(made) => {
            *out = Handle::close(made);
            true
        }
        Err(_) => false,
    }
}

/// Frees a core with all that it holds.
#[unsafe(no_mangle)]
pub extern "C" fn aio_free(h: Handle) {
    drop(h.open());
}
