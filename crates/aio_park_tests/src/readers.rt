//! A thread with a source of its own, which carries out the acts of a table.

ghost use Rattle.std.specs.Prelude.{◌≡◌, false};

use crate::acts::{Act, Came, counted, driven, ended, ended_well, fired, polled, told};
use crate::asserts::{MEMORY, moment, same};
use crate::tasks::{Never, Readable, WakesItself};
use aio_base::{Arm, Dir, EventWait, Moment, Notify, Task, Waker};
use aio_devices::{MemClock, clock_until};
use aio_future::Sleep;
use aio_park::{BlockFault, Thread, drive};
use aio_shared::{Inside, SourceRef};
use std::alloc::Global;
use std::process::Abort;
use std::sync::Wait;

/// A thread of a reactor for one, whose clock stands still in the end.
pub(crate) type Alone<R, N, A, W> = Thread<R, N, A, W, MemClock>;

/// A thread with a source of its own.
#[derive(Drop)]
pub(crate) struct Reader<R: Wait, N: Notify, A: Arm, W: EventWait> {
    thread: Alone<R, N, A, W>,
    task: Readable<A>,
}

/// Blocks on a task.
pub(crate) fn block_on<
    R: Wait + Copy,
    N: Notify,
    A: Arm,
    W: EventWait,
    T: Task<Inside<R, N, A, W>>,
>(thread: &mut Alone<R, N, A, W>, task: &mut T) -> Result<T::Output, BlockFault> {
    thread.run(task)
}

/// Blocks until a timer fires.
fn sleep<R: Wait + Copy, N: Notify, A: Arm, W: EventWait>(
    thread: &mut Alone<R, N, A, W>,
    at: u64,
) -> Came {
    let Some(at) = Moment::new(at) else {
        return Came::Other;
    };
    let mut task = Sleep::until(at);
    let answer = block_on(thread, &mut task);
    fired(answer, task.polls)
}

/// Blocks on a task that wakes itself.
fn wake_itself<R: Wait + Copy, N: Notify, A: Arm, W: EventWait>(
    thread: &mut Alone<R, N, A, W>,
    last: u64,
) -> Came {
    let mut task = WakesItself::until(last, 0);
    let answer = block_on(thread, &mut task);
    ended(answer, task.polls)
}

/// Blocks on a task that never ends.
fn never_end<R: Wait + Copy, N: Notify, A: Arm, W: EventWait>(
    thread: &mut Alone<R, N, A, W>,
) -> Came {
    let mut task = Never { polls: 0 };
    let answer = block_on(thread, &mut task);
    ended(answer, task.polls)
}

/// Makes so many rounds.
fn drive_on<R: Wait + Copy, N: Notify, A: Arm, W: EventWait>(
    thread: &mut Alone<R, N, A, W>,
    rounds: u32,
) -> Came {
    let host = &mut thread.host;
    driven(drive(
        &host.rt,
        &host.shared,
        &mut host.member,
        &mut thread.clock,
        rounds,
    ))
}

/// Takes the mask of the thread's parker.
fn take<R: Wait + Copy, N: Notify, A: Arm, W: EventWait>(thread: &mut Alone<R, N, A, W>) -> u64 {
    let host = &mut thread.host;
    host.shared
        .words()
        .take(host.member.words_pass(), thread.parker)
}

/// Polls a direction of a task's source.
fn poll_in<R: Wait + Copy, N: Notify, A: Arm, W: EventWait>(
    thread: &mut Alone<R, N, A, W>,
    task: &mut Readable<A>,
    dir: Dir,
    waker: u32,
) -> Came {
    let host = &mut thread.host;
    polled(host.poll_source(&mut task.source, dir, Waker(waker)))
}

/// How many waits there were, where the reactor lock has the cell. The cell goes back.
pub(crate) fn waits<R: Wait + Copy, N: Notify, A: Arm, W: EventWait>(
    thread: &mut Alone<R, N, A, W>,
) -> Option<u64> {
    let host = &mut thread.host;
    let cell = host.shared.try_round(&host.rt, &mut host.member)?;
    let waits = cell.waits();
    host.shared.give_round(&host.rt, &mut host.member, cell);
    Some(waits)
}

/// The thread of a new reactor over these devices. Its clock stands at 0 for so many looks, and then at this
/// moment.
pub(crate) fn alone<R: Wait + Copy + Abort, N: Notify + Drop, A: Arm + Drop, W: EventWait + Drop>(
    rt: R,
    alloc: Global,
    devices: (N, W),
    times: (usize, u64),
) -> Alone<R, N, A, W> {
    let (notifier, wait) = devices;
    let clock = clock_until(alloc, times.0, moment(&rt, times.1)).expect(&rt, MEMORY);
    Thread::new(alloc, rt, 1, wait, notifier, clock).expect(&rt, MEMORY)
}

/// The source of a connection in a thread's reactor.
fn source_of<R: Wait + Copy + Abort, N: Notify, A: Arm + Drop, W: EventWait>(
    rt: R,
    thread: &Alone<R, N, A, W>,
    io: A,
) -> SourceRef<A>
    ensures { result.inside ≡ false }
{
    match thread.host.insert_source(io) {
        Ok(source) => source,
        Err(_) => rt.panic("the reactor takes the source"),
    }
}

impl<R: Wait + Copy, N: Notify, A: Arm, W: EventWait> Reader<R, N, A, W> {
    /// Blocks until the source is readable.
    fn read(&mut self) -> Came {
        let answer = block_on(&mut self.thread, &mut self.task);
        ended_well(answer, self.task.polls)
    }

    /// Polls a direction of the source.
    fn poll(&mut self, dir: Dir, waker: u32) -> Came {
        poll_in(&mut self.thread, &mut self.task, dir, waker)
    }

    /// Does this.
    fn act(&mut self, act: Act) -> Came {
        match act {
            Act::Sleep(at) => sleep(&mut self.thread, at),
            Act::WakeItself(last) => wake_itself(&mut self.thread, last),
            Act::Never => never_end(&mut self.thread),
            Act::Read => self.read(),
            Act::Poll(dir, waker) => self.poll(dir, waker),
            Act::Drive(rounds) => drive_on(&mut self.thread, rounds),
            Act::Take => Came::Mask(take(&mut self.thread)),
            Act::Count => counted(waits(&mut self.thread)),
        }
    }

    /// Asserts that what these acts come to is what stands beside each.
    fn plays(&mut self, rt: &impl Abort, rows: &[(Act, Came)]) {
        for (act, came) in rows {
            same(rt, told(self.act(*act)), told(*came));
        }
    }
}

/// Makes a new reactor over these devices for a thread, whose clock stands at 0 for so many looks and then at
/// this moment, inserts its connection, and asserts that what these acts come to is what stands beside each.
pub(crate) fn plays<R: Wait + Copy + Abort, N: Notify + Drop, A: Arm + Drop, W: EventWait + Drop>(
    rt: R,
    alloc: Global,
    devices: (N, A, W),
    times: (usize, u64),
    rows: &[(Act, Came)],
) {
    let (notifier, io, wait) = devices;
    let thread = alone(rt, alloc, (notifier, wait), times);
    let source = source_of(rt, &thread, io);
    let task = Readable { source, polls: 0 };
    let mut reader = Reader { thread, task };
    reader.plays(&rt, rows);
    drop(reader);
}
