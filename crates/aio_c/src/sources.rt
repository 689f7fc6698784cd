//! Sources join the core and leave it.

ghost use Rattle.std.specs.Prelude.{◌≡◌, is_some};
ghost use Rattle.aio_base.specs.Machine.{is_live};
ghost use Rattle.aio_base.specs.World.{World};
ghost use Rattle.aio_react.specs.Cores.{entry_at};
ghost use Rattle.aio_react.specs.Standing.{Stands};
ghost use Rattle.aio_c.specs.Codes.{key_answer, done_code};
ghost use Rattle.aio_c.specs.Promises.{Crossed, ChangesCoreAlone, AddPromises, DelPromises, tells};

use crate::Handle;
use crate::answers::{KeyAnswer, done_code, key_answer};
use aio_base::Key;

/// Registers a source under the least key that is not live.
#[unsafe(no_mangle)]
pub extern "C" fn aio_add(h: Handle, out: &mut Handle) -> KeyAnswer
    ensures answer { Crossed key_answer
        (λ told. AddPromises h.home.core told out.new.home.core) result }
    ensures rest { ChangesCoreAlone h.home out.new.home }
{
    let mut held = h.open();
    let told = held.core.add();
    *out = Handle::close(held);
    key_answer(told)
}

/// Takes a source out.
#[unsafe(no_mangle)]
pub extern "C" fn aio_del(h: Handle, out: &mut Handle, key: u32) -> u32
    ensures answer { Crossed done_code
        (λ told. DelPromises h.home.core (record { 0 = key }) told out.new.home.core) result }
    ensures rest { ChangesCoreAlone h.home out.new.home }
{
    let mut held = h.open();
    let told = held.core.del(Key(key));
    *out = Handle::close(held);
    done_code(told)
}

/// Whether a source has this key.
#[unsafe(no_mangle)]
pub extern "C" fn aio_live(h: Handle, out: &mut Handle, key: u32) -> bool
    ensures live { result ≡ is_some (entry_at h.home.core.1.sources key) }
    ensures world { (w : World) → Stands (tells h.home.core.0) h.home.core.1 w
        → result ≡ is_live w.live key }
    ensures same { out.new.home ≡ h.home }
{
    let held = h.open();
    let live = held.core.live(Key(key));
    *out = Handle::close(held);
    live
}
