//! A program in which two threads of one reactor read from a connection each, with a timeout. It stands in
//! docs/BLOCK_ON.md too.

// begin
use aio_base::{CountFault, Dir, Moment, OutOfMemory};
use aio_devices::{MemBytes, MemClock, MemNotify, MemWait};
use aio_park::{BlockFault, Thread, TryUntil, UntilFault};
use aio_shared::{Attempt, InsertFault};
use std::alloc::Global;
use std::sync::Wait;
use std::thread::{Threads, join};

/// Takes the next byte of a connection, where there is one.
#[derive(Clone, Copy, Drop)]
struct TakeByte;

impl Attempt<MemBytes> for TakeByte {
    ghost use Rattle.std.specs.Prelude.{⊤};

    type Output = u8;

    ghost attempts = { λ attempt io given left after. ⊤ };

    fn attempt(&mut self, io: &mut MemBytes) -> Option<u8> {
        io.read()
    }
}

/// Why a thread did not come to an answer.
#[derive(Clone, Copy, Debug, PartialEq, Eq)]
enum Stopped {
    /// Memory ran out for the reactor.
    OutOfMemory,
    /// It has no second thread: memory ran out, or 2^24 were made.
    NoSecond,
    /// A connection did not join the reactor.
    Insert(InsertFault),
    /// The poll of the task failed.
    Poll(UntilFault),
    /// A round failed.
    Round(BlockFault),
    /// The other thread could not be told that this one makes no further round.
    HandOver(CountFault),
}

/// A thread of a reactor over devices in memory.
type MemThread<R> = Thread<R, MemNotify, MemBytes, MemWait, MemClock>;

/// Reads a byte of a connection, unless a moment comes first.
type ReadInTime = TryUntil<MemBytes, TakeByte>;

/// Has a connection join the reactor, and makes the task that reads of it.
fn task_over<R: Wait + Copy>(
    thread: &MemThread<R>,
    io: MemBytes,
    until: Moment,
) -> Result<ReadInTime, Stopped> {
    match thread.host.insert_source(io) {
        Ok(source) => Ok(TryUntil::new(source, Dir::Read, TakeByte, until)),
        Err((_, fault)) => Err(Stopped::Insert(fault)),
    }
}

/// Runs a thread's task to its end. Whatever comes of it, the other thread is told then, as it may sleep and
/// count on the rounds of this one.
fn run_and_hand_over<R: Wait + Copy>(
    mut thread: MemThread<R>,
    mut task: ReadInTime,
) -> Result<Option<u8>, Stopped> {
    let ran = thread.run(&mut task);
    match thread.hand_over() {
        Ok(()) => {}
        Err(fault) => return Err(Stopped::HandOver(fault)),
    }
    match ran {
        Ok(Ok(read)) => Ok(read),
        Ok(Err(fault)) => Err(Stopped::Poll(fault)),
        Err(fault) => Err(Stopped::Round(fault)),
    }
}

/// Two threads read, each from a connection of its own with a clock of its own, at the same time. The wait
/// gives events of the first connection.
fn read_both<R: Wait + Threads + Sync + Send + Copy>(
    rt: R,
    alloc: Global,
    clocks: (MemClock, MemClock),
    connections: (MemBytes, MemBytes),
    until: Moment,
) -> Result<(Option<u8>, Option<u8>), Stopped> {
    let (clock, other_clock) = clocks;
    let (io, other_io) = connections;
    let mut one = match Thread::new(alloc, rt, 2, MemWait::new(1), MemNotify::new(), clock) {
        Ok(thread) => thread,
        Err(OutOfMemory) => return Err(Stopped::OutOfMemory),
    };
    let task = task_over(&one, io, until)?;
    let other_task = task_over(&one, other_io, until)?;
    let Ok(other) = one.another(1, other_clock) else {
        return Err(Stopped::NoSecond);
    };
    let (read, other_read) = join(
        &rt,
        move || run_and_hand_over(one, task),
        move || run_and_hand_over(other, other_task),
    );
    Ok((read?, other_read?))
}
// end

/// Whether this comes of it that two threads read so.
fn both_read<R: Wait + Threads + Sync + Send + Copy>(
    rt: R,
    alloc: Global,
    clocks: (MemClock, MemClock),
    connections: (MemBytes, MemBytes),
    until: Moment,
    wanted: (Option<u8>, Option<u8>),
) -> bool {
    read_both(rt, alloc, clocks, connections, until) == Ok(wanted)
}

mod tests {
    use super::both_read;
    use crate::asserts::{MEMORY, same};
    use crate::moments::moment;
    use aio_devices::{MemBytes, clock_at, clock_until};

    #[test]
    fn one_thread_reads_its_byte_and_the_other_one_runs_into_its_timeout(rt: HostRuntime) {
        let until = moment(&rt, 1000);
        let still = clock_at(rt.alloc(), moment(&rt, 0)).expect(&rt, MEMORY);
        let going = clock_until(rt.alloc(), 1, until).expect(&rt, MEMORY);
        let connections = (MemBytes::new(2, 7), MemBytes::new(1_000_000, 9));
        let wanted = (Some(7), None);
        let read = both_read(&rt, rt.alloc(), (still, going), connections, until, wanted);
        same(&rt, read, true);
    }
}
