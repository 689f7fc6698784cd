//! What no clause says of threads that wait for one lock: that each of them gets it, though nobody else touches the
//! lock afterwards, who could call a forgotten sleeper by chance.

ghost use Rattle.std.specs.Prelude.{◌≡◌, []};
ghost use Rattle.std.specs.Thread.{IsSync};
ghost use Rattle.aio_rules.specs.SharedLock.{first_owner, second_owner, took_out};
ghost use Rattle.aio_lock.specs.Tokens.{owner_of};

use crate::asserts::{MEMORY, same};
use aio_lock::{Lock, Owner};
use aio_rules::Noted;
use std::alloc::Global;
use std::process::Abort;
use std::sync::Wait;
use std::sync::atomic::{AtomicU64, Ordering};
use std::thread::{Threads, join, sleep};
use std::time::{Clock, Duration};

/// How often the value was taken. Neither owner has a note of it, so visitors may count too.
#[derive(Drop)]
struct Turns {
    taken: u64,
}

impl Noted for Turns {
    ghost use Rattle.std.specs.Prelude.{[]};

    ghost first_note = { λ turns. [] };

    ghost second_note = { λ turns. [] };
}

impl Turns {
    fn and_one(self) -> Turns {
        Turns {
            taken: self.taken.saturating_add(1),
        }
    }
}

/// Gives the first value, and touches the lock no more.
fn give_first(lock: &Lock<Turns>, mut owner: Owner)
    requires { owner ≡ owner_of lock.now (took_out [] [] (first_owner [])) }
{
    lock.give(&mut owner, Turns { taken: 0 });
}

/// Waits for the value by an owner, and gives it back with one turn more.
fn take_once<R: Wait>(rt: &R, lock: &Lock<Turns>, mut owner: Owner)
    requires { owner ≡ owner_of lock.now (second_owner []) }
{
    let turns = lock.take(rt, &mut owner);
    lock.give(&mut owner, turns.and_one());
}

/// Waits for the value without an owner, and gives it back with one turn more.
fn visit_once<R: Wait>(rt: &R, lock: &Lock<Turns>) {
    let (turns, visit) = lock.visit(rt);
    lock.leave(visit, turns.and_one());
}

/// How often the value was taken.
fn count_in<R: Wait>(rt: &R, lock: &Lock<Turns>) -> u64 {
    let (turns, visit) = lock.visit(rt);
    let taken = turns.taken;
    lock.leave(visit, turns);
    taken
}

/// Turns so often, which takes a little while.
fn turn(turns: u32) {
    let turned = AtomicU64::new(0);
    for _ in 0..turns {
        turned.fetch_add(1, Ordering::SeqCst);
    }
}

/// Two visitors wait.
fn visit_on_two<R: Threads + Wait + Sync>(rt: &R, lock: &Lock<Turns>) {
    join(rt, || visit_once(rt, lock), || visit_once(rt, lock));
}

/// An owner and two visitors wait.
fn wait_on_three<R: Threads + Wait + Sync>(rt: &R, lock: &Lock<Turns>, owner: Owner)
    requires { owner ≡ owner_of lock.now (second_owner []) }
{
    join(
        rt,
        move || -> ()
            requires { owner ≡ owner_of lock.now (second_owner []) }
        { take_once(rt, lock, owner) },
        || visit_on_two(rt, lock),
    );
}

/// Who waits for the value, and what comes before it is given.
#[derive(Clone, Copy)]
enum Trial {
    /// An owner waits, and so many turns come before.
    One(u32),
    /// An owner and two visitors wait, and so many microseconds come before.
    Three(u64),
}

/// Waits for the value.
fn wait_for_it<R: Threads + Wait + Sync>(rt: &R, lock: &Lock<Turns>, owner: Owner, trial: Trial)
    requires { (owner ≡ owner_of lock.now (second_owner [])) × IsSync R.row }
{
    match trial {
        Trial::One(_) => take_once(rt, lock, owner),
        Trial::Three(_) => wait_on_three(rt, lock, owner),
    }
}

/// What comes before the value is given.
fn pause<R: Wait + Clock>(rt: &R, trial: Trial) {
    match trial {
        Trial::One(turns) => turn(turns),
        Trial::Three(micros) => sleep(rt, Duration::from_micros(micros)),
    }
}

/// Some wait for the value, which another thread gives after a while. How often it was taken.
fn wait_beside_a_give<R: Threads + Wait + Clock + Sync + Abort>(
    rt: &R,
    alloc: Global,
    trial: Trial,
) -> u64 {
    let (lock, first, second) = Lock::vacant(alloc).expect(rt, MEMORY);
    let shared = &lock;
    join(
        rt,
        move || -> ()
            requires { (second ≡ owner_of shared.now (second_owner [])) × IsSync R.row }
        { wait_for_it(rt, shared, second, trial) },
        move || -> ()
            requires { first ≡ owner_of shared.now (took_out [] [] (first_owner [])) }
        {
            pause(rt, trial);
            give_first(shared, first)
        },
    );
    let taken = count_in(rt, &lock);
    drop(lock);
    taken
}

#[test]
fn a_take_ends_by_one_give_whenever_that_comes(rt: HostRuntime) {
    for step in 0..100 {
        let taken = wait_beside_a_give(&rt, rt.alloc(), Trial::One(step * 300));
        same(&rt, taken, 1);
    }
}

// The longer the pause, the surer all three sleep when the one give comes. Each of them calls the next.
#[test]
fn three_that_wait_all_take_it_after_one_give(rt: HostRuntime) {
    for step in 0..25 {
        let taken = wait_beside_a_give(&rt, rt.alloc(), Trial::Three(step * 400));
        same(&rt, taken, 3);
    }
}
