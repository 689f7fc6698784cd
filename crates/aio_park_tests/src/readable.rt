//! A program that reads from a connection with a timeout, by a thread over a source and a timer. It stands in
//! docs/BLOCK_ON.md too.

// begin
use aio_base::{Dir, EventWait, Moment, Notify, OutOfMemory};
use aio_devices::{MemBytes, MemClock, MemNotify, MemWait};
use aio_park::{BlockFault, Thread, TryUntil, UntilFault};
use aio_shared::{Attempt, InsertFault};
use std::alloc::Global;
use std::sync::Wait;

/// Reads a byte of a connection, where that does not block.
#[derive(Clone, Copy, Drop)]
struct ReadByte;

impl Attempt<MemBytes> for ReadByte {
    ghost use Rattle.std.specs.Prelude.{⊤};

    type Output = u8;

    ghost attempts = { λ attempt io given left after. ⊤ };

    fn attempt(&mut self, io: &mut MemBytes) -> Option<u8> {
        io.read()
    }
}

/// Why it is not known whether a byte comes in time.
#[derive(Clone, Copy, Debug, PartialEq, Eq)]
enum Fault {
    /// Memory ran out for the reactor.
    OutOfMemory,
    /// The connection did not join the reactor.
    Insert(InsertFault),
    /// The poller could not be armed, or the timer has no id or no memory, or a notifier failed.
    Poll(UntilFault),
    /// A round failed.
    Round(BlockFault),
}

/// Reads a byte of a connection on this thread, unless a moment comes first.
fn read_in_time<R: Wait + Copy, N: Notify, W: EventWait>(
    thread: &mut Thread<R, N, MemBytes, W, MemClock>,
    io: MemBytes,
    until: Moment,
) -> Result<Option<u8>, Fault> {
    let source = match thread.host.insert_source(io) {
        Ok(source) => source,
        Err((_, fault)) => return Err(Fault::Insert(fault)),
    };
    let mut task = TryUntil::new(source, Dir::Read, ReadByte, until);
    match thread.run(&mut task) {
        Ok(Ok(read)) => Ok(read),
        Ok(Err(fault)) => Err(Fault::Poll(fault)),
        Err(fault) => Err(Fault::Round(fault)),
    }
}

/// Makes a reactor for one thread, whose wait gives an event of its first source each time, and reads.
fn read_alone<R: Wait + Copy>(
    rt: R,
    alloc: Global,
    clock: MemClock,
    io: MemBytes,
    until: Moment,
) -> Result<Option<u8>, Fault> {
    match Thread::new(alloc, rt, 1, MemWait::new(1), MemNotify::new(), clock) {
        Ok(mut thread) => read_in_time(&mut thread, io, until),
        Err(OutOfMemory) => Err(Fault::OutOfMemory),
    }
}
// end

/// Whether this comes of it to read so on a thread of a new reactor.
fn reads_alone<R: Wait + Copy>(
    rt: R,
    alloc: Global,
    clock: MemClock,
    io: MemBytes,
    until: Moment,
    wanted: Option<u8>,
) -> bool {
    read_alone(rt, alloc, clock, io, until) == Ok(wanted)
}

mod tests {
    use super::{Fault, read_in_time, reads_alone};
    use crate::asserts::{MEMORY, moment, same};
    use crate::readers::{Alone, alone, waits};
    use aio_devices::{MemBytes, MemNotify, MemWait, clock_until};
    use std::alloc::Global;
    use std::process::Abort;
    use std::sync::Wait;

    /// When a read gives up, in nanoseconds.
    const TIMEOUT: u64 = 1000;

    /// What comes of it to read.
    type Read = Result<Option<u8>, Fault>;

    #[test]
    fn a_byte_that_comes_is_read_before_the_timeout(rt: HostRuntime) {
        let until = moment(&rt, TIMEOUT);
        let clock = clock_until(rt.alloc(), 3, until).expect(&rt, MEMORY);
        let io = MemBytes::new(2, 7);
        let reads = reads_alone(&rt, rt.alloc(), clock, io, until, Some(7));
        same(&rt, reads, true);
    }

    /// Reads of a connection of which so many reads would block, over a wait that gives no event. The time-out
    /// comes after so many looks at the clock. How many waits there were.
    fn read_silent<R: Wait + Copy + Abort>(
        rt: R,
        alloc: Global,
        looks: usize,
        blocks: u32,
    ) -> (Read, Option<u64>) {
        let devices = (MemNotify::new(), MemWait::new(0));
        let mut thread: Alone<_, _, MemBytes, _> = alone(rt, alloc, devices, (looks, TIMEOUT));
        let until = moment(&rt, TIMEOUT);
        let read = read_in_time(&mut thread, MemBytes::new(blocks, 7), until);
        let waits = waits(&mut thread);
        drop(thread);
        (read, waits)
    }

    #[test]
    fn a_byte_that_is_there_is_read_without_a_round(rt: HostRuntime) {
        let read = read_silent(&rt, rt.alloc(), 0, 0);
        same(&rt, read, (Ok(Some(7)), Some(0)));
    }

    // The first pass of the second round finds the timer due, as it does for a task that sleeps.
    #[test]
    fn a_connection_that_stays_silent_runs_into_its_timeout(rt: HostRuntime) {
        let read = read_silent(&rt, rt.alloc(), 3, 9);
        same(&rt, read, (Ok(None), Some(2)));
    }
}
