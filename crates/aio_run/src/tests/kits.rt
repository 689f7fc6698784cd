//! Devices in memory for the calls of the tests.

use crate::tests::asserts::MEMORY;
use aio_base::{EventWait, Faults, Moment, Notify, Placement, Port, Spawner};
use aio_devices::{FailingWait, MemClock, MemNotify, clock_until};
use aio_jobs::{Kit, SixDevices};
use aio_serve::OpenGate;
use std::alloc::Global;
use std::cell::Cell;
use std::process::Abort;

/// Six devices, of which the tests choose the port.
pub(crate) type MemKit<P> = Kit<P, FailingWait, MemNotify, MemClock, OpenGate, ChosenSpawner>;

/// Runs the jobs of a call where the tests choose, and counts how often it is asked where.
#[derive(Drop)]
pub(crate) struct ChosenSpawner {
    placement: Placement,
    asked: Cell<u64>,
}

impl ChosenSpawner {
    /// How often jobs were run.
    pub(crate) fn asked(&self) -> u64 {
        self.asked.get()
    }
}

impl Spawner for ChosenSpawner {
    fn placement(&self) -> Placement {
        self.asked.set(self.asked.get().saturating_add(1));
        self.placement
    }
}

/// How often the clock is looked at while it stands at 0.
const LOOKS: usize = 1000;

/// What the tests choose of a wait, a clock and a spawner.
#[derive(Clone, Copy)]
pub(crate) struct Course {
    /// Each wait gives events of so many keys, 1,024 at most.
    pub(crate) keys: u32,
    /// The numbers of the waits that fail.
    pub(crate) fails: &'static [u64],
    /// Where the clock stands once it was looked at a thousand times, in nanoseconds, 10^18 at most.
    pub(crate) until: u64,
    /// Where jobs run.
    pub(crate) placement: Placement,
}

/// Waits give nothing, the clock stands still, and jobs run on the caller.
pub(crate) const NOTHING_COMES: Course = Course {
    keys: 0,
    fails: &[],
    until: 0,
    placement: Placement::Caller,
};

/// This port, with a wait, a clock and a spawner of this course, a notifier and an open gate.
pub(crate) fn kit_of<P: Port>(
    rt: &impl Abort,
    alloc: Global,
    port: P,
    course: Course,
) -> MemKit<P> {
    let fails = course.fails.to_vec(alloc).expect(rt, MEMORY);
    let until = Moment::new(course.until).expect(rt, "the moment is at most 10^18");
    Kit {
        devices: SixDevices {
            port,
            wait: FailingWait::new(course.keys.min(1024), fails),
            notify: MemNotify::new(),
            clock: clock_until(alloc, LOOKS, until).expect(rt, MEMORY),
            gate: OpenGate,
            spawner: ChosenSpawner {
                placement: course.placement,
                asked: Cell::new(0),
            },
        },
    }
}

/// What devices count: the faults of port and wait, the waits, the calls of the notifier, and how often jobs
/// were run.
pub(crate) fn counts<P: Port>(kit: &MemKit<P>) -> [u64; 5] {
    let six = &kit.devices;
    [
        six.port.faults(),
        six.wait.faults(),
        six.wait.waits(),
        six.notify.calls(),
        six.spawner.asked(),
    ]
}
