//! The keys that the next wait has to look at, for any number of threads.
//!
//! A key stands in three levels: whether it is due itself, whether one of its group is, and whether any is. Each is
//! set after the one below it, and taken before it. So where a look finds nothing, what was put before it began has
//! been taken, or whoever put it has not come back yet.

ghost use Rattle.std.specs.Prelude.{◌≡◌, ◌+◌, ◌*◌, ◌<◌};

use aio_base::{Key, OutOfMemory};
use std::alloc::Global;
use std::sync::atomic::{AtomicBool, Ordering};

/// How many keys make a group.
pub(crate) const GROUP: u32 = 64;

/// How many groups there are, of 4,096 keys together.
pub(crate) const GROUPS: u32 = 64;

/// The keys that are due. Threads share it.
#[derive(Drop)]
pub(crate) struct DueKeys {
    any: AtomicBool,
    groups: Vec<AtomicBool>,
    keys: Vec<AtomicBool>,
}

/// So many flags, none of which is set. `OutOfMemory` where memory ran out.
fn flags(alloc: Global, count: u32) -> Result<Vec<AtomicBool>, OutOfMemory> {
    let Ok(mut flags) = Vec::with_capacity(alloc, count as usize) else {
        return Err(OutOfMemory);
    };
    for _ in 0..count {
        if flags.push(AtomicBool::new(false)).is_err() {
            return Err(OutOfMemory);
        }
    }
    Ok(flags)
}

/// Sets the flag at a place, where there is one.
fn set(flags: &[AtomicBool], place: u32) {
    if let Some(flag) = flags.get(place as usize) {
        flag.store(true, Ordering::SeqCst);
    }
}

/// Takes the flag at a place back. Whether it was set.
fn take(flags: &[AtomicBool], place: u32) -> bool {
    match flags.get(place as usize) {
        Some(flag) => flag.swap(false, Ordering::SeqCst),
        None => false,
    }
}

impl DueKeys {
    /// None is due. `OutOfMemory` where memory ran out.
    pub(crate) fn new(alloc: Global) -> Result<DueKeys, OutOfMemory> {
        Ok(DueKeys {
            any: AtomicBool::new(false),
            groups: flags(alloc, GROUPS)?,
            keys: flags(alloc, GROUPS * GROUP)?,
        })
    }

    /// A key is due from now on.
    pub(crate) fn put(&self, key: Key) {
        set(&self.keys, key.0);
        set(&self.groups, key.0 / GROUP);
        self.any.store(true, Ordering::SeqCst);
    }

    /// Whether there may be one.
    pub(crate) fn has_any(&self) -> bool {
        self.any.load(Ordering::SeqCst)
    }

    /// Whether there may be one, which is asked once: then there is none, until one is put again.
    pub(crate) fn take_any(&self) -> bool {
        self.any.swap(false, Ordering::SeqCst)
    }

    /// The same of a group.
    pub(crate) fn take_group(&self, group: u32) -> bool {
        take(&self.groups, group)
    }

    /// Whether a key was due; it is not any longer.
    pub(crate) fn take_key(&self, key: Key) -> bool {
        take(&self.keys, key.0)
    }
}
