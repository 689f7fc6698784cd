//! What no clause says of threads that share a reactor: that what each registers is registered, that a token
//! knows its connection whatever rounds do beside it, and that each waker that was stored comes once.

ghost use Rattle.std.specs.Prelude.{◌≡◌};

use crate::acts::Act::{Insert, InsertAndRemove, InsertTimes, React};
use crate::acts::Came::Round;
use crate::acts::{Act, Came, told};
use crate::asserts::{MEMORY, same};
use crate::hosts::{Quiet, another, enter};
use crate::owners::Owner;
use crate::scripts::give;
use aio_base::{Interest, Poll};
use aio_devices::{MemNotify, ScriptedWait, SureArm};
use aio_source::Polled;
use std::alloc::Global;
use std::process::Abort;
use std::sync::Wait;
use std::thread::{Threads, map_vec};

/// What each of several threads does beside the others.
#[derive(Clone, Copy)]
enum Job {
    /// This, once.
    Once(Act),
    /// Timers, a poll and a round, in so many turns.
    Turns(u32),
}

/// A thread before it begins, over a wait with a script.
#[derive(Drop)]
struct Worker<R: Wait> {
    caller: Quiet<R, ScriptedWait>,
    job: Job,
}

/// A thread with a source of its own.
type Poller<R> = Owner<R, MemNotify, SureArm, ScriptedWait>;

/// The number that each connection begins with.
const FIRST_NUMBER: u64 = 7;

/// How many wakers were stored, in timers and in sources; how many came, out of a round or because another
/// one took their place; and in how many turns a source's connection had the number that was left there.
#[derive(Clone, Copy)]
struct Tally {
    stored: u64,
    came: u64,
    known: u64,
}

impl Tally {
    fn and(self, other: Tally) -> Tally {
        Tally {
            stored: self.stored.saturating_add(other.stored),
            came: self.came.saturating_add(other.came),
            known: self.known.saturating_add(other.known),
        }
    }
}

const NOTHING: Tally = Tally {
    stored: 0,
    came: 0,
    known: 0,
};

/// What an act comes to.
fn tally_of(came: Came) -> Tally {
    let (stored, came) = match came {
        Came::Id(_) => (1, 0),
        Came::Times(times) => (u64::from(times), 0),
        Came::Round(_, woken) => (0, woken),
        _ => (0, 0),
    };
    Tally {
        stored,
        came,
        known: 0,
    }
}

/// What the poll of this turn comes to, which left the connection with this number: one waker is stored where
/// it is pending.
fn polled_as(polled: Polled, number: u64, turn: u32) -> Tally {
    Tally {
        stored: u64::from(polled.answer == Poll::Pending),
        came: u64::from(polled.replaced.is_some()),
        known: u64::from(number == FIRST_NUMBER + 1 + u64::from(turn)),
    }
}

/// Registers a timer that is not due yet, which is taken out again, and one that is due; polls the source,
/// each time with another waker than the time before; and tries to react.
fn take_turn<R: Wait>(owner: &mut Poller<R>, turn: u32) -> Tally {
    let waker = turn % 2;
    owner.act(InsertAndRemove(9, 1));
    let set = owner.act(Insert(5, waker));
    let (polled, number) = owner.poll_and_count(waker);
    let reacted = owner.act(React);
    polled_as(polled, number, turn)
        .and(tally_of(set))
        .and(tally_of(reacted))
}

/// Takes so many turns.
fn take_turns<R: Wait>(owner: &mut Poller<R>, turns: u32) -> Tally {
    let mut tally = NOTHING;
    for turn in 0..turns {
        tally = tally.and(take_turn(owner, turn));
    }
    tally
}

/// Does this job.
fn do_job<R: Wait>(owner: &mut Poller<R>, job: Job) -> Tally {
    match job {
        Job::Once(act) => tally_of(owner.act(act)),
        Job::Turns(turns) => take_turns(owner, turns),
    }
}

/// A thread's job with a source of its own, which it leaves in the table.
fn work<R: Wait + Abort + Copy>(worker: Worker<R>) -> Tally {
    let Worker { caller, job } = worker;
    let mut owner = Owner::new(caller, SureArm::new(FIRST_NUMBER));
    let tally = do_job(&mut owner, job);
    drop(owner);
    tally
}

/// So many more threads, each with this job and a clock at 5.
fn workers<R: Wait + Abort + Copy>(
    alloc: Global,
    first: &mut Quiet<R, ScriptedWait>,
    threads: u32,
    job: Job,
) -> Vec<Worker<R>>
    requires { first.old.host.member.ops.number ≡ 0 }
{
    let rt = first.host.rt;
    let mut workers = Vec::new(alloc);
    for _ in 0..threads {
        let caller = another(first, alloc, 5);
        workers.push(Worker { caller, job }).expect(&rt, MEMORY);
    }
    workers
}

/// What these threads come to together, all at the same time.
fn work_together<R: Threads + Wait + Sync + Abort>(rt: &R, workers: Vec<Worker<&R>>) -> Tally {
    let tallies = map_vec(rt, workers, &work).expect(rt, MEMORY);
    let mut sum = NOTHING;
    for tally in &tallies {
        sum = sum.and(*tally);
    }
    sum
}

/// What so many more threads with this job come to together, and then two rounds of the first.
fn work_beside<R: Threads + Wait + Sync + Abort>(
    rt: &R,
    alloc: Global,
    first: &mut Quiet<&R, ScriptedWait>,
    threads: u32,
    job: Job,
) -> (Tally, (Came, Came))
    requires { first.old.host.member.ops.number ≡ 0 }
{
    let workers = workers(alloc, first, threads, job);
    let tally = work_together(rt, workers);
    (tally, (first.act(React), first.act(React)))
}

/// Four keys, two in each of so many pairs of rounds.
fn keys_in_turn(rt: &impl Abort, alloc: Global, pairs: u32) -> ScriptedWait {
    let mut answers = Vec::new(alloc);
    for round in 0..pairs.saturating_mul(2) {
        give(
            rt,
            alloc,
            &mut answers,
            (round % 2 * 2, 2),
            Interest::READ_WRITE,
        );
    }
    ScriptedWait::new(answers)
}

/// The same in a new reactor with a clock at 10, whose rounds give an event of each of four keys in turn.
fn work_in_new<R: Threads + Wait + Sync + Abort>(
    rt: &R,
    alloc: Global,
    pairs: u32,
    threads: u32,
    job: Job,
) -> (Tally, (Came, Came)) {
    let wait = keys_in_turn(rt, alloc, pairs);
    let mut first = enter(rt, alloc, 1, (wait, MemNotify::new()), 10);
    let worked = work_beside(rt, alloc, &mut first, threads, job);
    drop(first);
    worked
}

/// What two threads do with timers beside each other, how often both of them did, and how many timers fire
/// in the next round.
const ON_TWO_THREADS: &[(Act, u64, u64)] = &[
    (InsertTimes(5, 800), 1600, 1600),
    (InsertTimes(5, 600), 1200, 1200),
    (InsertAndRemove(4, 600), 1200, 0),
];

#[test]
fn each_timer_of_two_threads_fires_once_unless_it_was_taken_out(rt: HostRuntime) {
    for (act, times, fire) in ON_TWO_THREADS {
        let (tally, rounds) = work_in_new(&rt, rt.alloc(), 0, 2, Job::Once(*act));
        same(
            &rt,
            (tally.stored, told(rounds.0), told(rounds.1)),
            (*times, told(Round(0, *fire)), told(Round(0, 0))),
        );
    }
}

#[test]
fn a_token_knows_its_connection_beside_rounds(rt: HostRuntime) {
    let (tally, _) = work_in_new(&rt, rt.alloc(), 300, 2, Job::Turns(200));
    same(&rt, (tally.known, tally.came <= tally.stored), (400, true));
}

// Each waker came that was stored, and there were more than 400.
#[test]
fn each_waker_of_four_threads_comes_once(rt: HostRuntime) {
    let (tally, rounds) = work_in_new(&rt, rt.alloc(), 300, 4, Job::Turns(100));
    let all = tally.and(tally_of(rounds.0)).and(tally_of(rounds.1));
    same(&rt, (all.came, all.stored > 400), (all.stored, true));
}
