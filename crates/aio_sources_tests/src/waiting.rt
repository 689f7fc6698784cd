//! What no clause says of a thread that waits in a round: that it leaves the table of sources to the other threads
//! as long as its wait lasts.

ghost use Rattle.aio_shared.specs.Members.{IsMemberOf};

use crate::asserts::{MEMORY, same};
use crate::calls::{join_and_close, new_reactor, react};
use aio_base::Notify;
use aio_devices::{BlockingNotify, BlockingWait, SureArm, blocking_pair};
use aio_shared::{Member, ReactFault, ReactedIn, Shared};
use std::alloc::Global;
use std::process::Abort;
use std::sync::Wait;
use std::thread::{Threads, join, sleep};
use std::time::{Clock, Duration};

/// How often a wait looks before it fails. A thread that would have to wait for its end meets the failure.
const MOST_LOOKS: u64 = 5_000_000;

/// A reactor whose waits last until they are told to end.
type Blocking<R> = Shared<SureArm, BlockingWait<R>>;

/// Sleeps for so many microseconds, lets a source join and be closed, and only then ends the wait of the other
/// thread. Whether nothing was refused.
fn use_the_table<R: Wait + Clock + Copy>(
    rt: R,
    shared: &Blocking<R>,
    notifier: &mut BlockingNotify<R>,
    pause: u64,
) -> bool {
    sleep(&rt, Duration::from_micros(pause));
    let came_and_went = join_and_close(&rt, shared, SureArm::new(7));
    notifier.notify().is_ok() && came_and_went
}

/// The member of the thread that waits.
type Waiter<R> = Member<BlockingNotify<R>, BlockingWait<R>>;

/// Such a reactor, its member, and a notifier for another thread.
fn blocking<R: Wait + Abort + Copy>(
    rt: R,
    alloc: Global,
) -> (Blocking<R>, Waiter<R>, BlockingNotify<R>)
    ensures { IsMemberOf result.0 result.1 }
{
    let (wait, notifier) = blocking_pair(rt, alloc, MOST_LOOKS).expect(&rt, MEMORY);
    let of_other = notifier.twin().expect(&rt, MEMORY);
    let (shared, member) = new_reactor(&rt, alloc, wait, notifier);
    (shared, member, of_other)
}

/// One thread makes a round without a limit, and another one uses the table after so many microseconds.
fn wait_beside_a_use<'a, R: Threads + Wait + Clock + Sync + Abort>(
    rt: &'a R,
    alloc: Global,
    shared: &Blocking<&'a R>,
    m: &mut Waiter<&'a R>,
    notifier: &mut BlockingNotify<&'a R>,
    pause: u64,
) -> (Result<ReactedIn, ReactFault>, bool)
    requires { IsMemberOf shared.now m.old }
{
    join(
        rt,
        || -> Result<ReactedIn, ReactFault>
            requires { IsMemberOf shared.now m.now }
        { react(rt, alloc, shared, m, None) },
        || use_the_table(rt, shared, notifier, pause),
    )
}

/// The same in a new reactor.
fn wait_in_new<R: Threads + Wait + Clock + Sync + Abort>(
    rt: &R,
    alloc: Global,
    pause: u64,
) -> (Result<ReactedIn, ReactFault>, bool) {
    let (shared, mut member, mut of_other) = blocking(rt, alloc);
    wait_beside_a_use(rt, alloc, &shared, &mut member, &mut of_other, pause)
}

/// What a round without events and timers answers.
const NOTHING_CAME: ReactedIn = ReactedIn {
    resumed: false,
    events: 0,
    woken: 0,
};

// The longer the pause, the surer the round waits by then.
#[test]
fn sources_join_and_leave_while_a_thread_waits(rt: HostRuntime) {
    for step in 0..12 {
        let came = wait_in_new(&rt, rt.alloc(), step * 500);
        same(&rt, came, (Ok(NOTHING_CAME), true));
    }
}
