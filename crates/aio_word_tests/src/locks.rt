//! What no clause says: that owners, visits and joins go together, and that two owners fill their lists at once
//! while others visit.

ghost use Rattle.std.specs.Prelude.{◌≡◌, ◌++◌, ◌∷◌, []};
ghost use Rattle.std.specs.List.{range_with_len};
ghost use Rattle.aio_rules.specs.SharedLock.{first_owner, second_owner};
ghost use Rattle.aio_lock.specs.Tokens.{owner_of};

use crate::asserts::{MEMORY, may_be_sent, may_be_shared, same};
use aio_lock::{Lock, Owner};
use aio_rules::Noted;
use std::alloc::Global;
use std::process::Abort;
use std::sync::Wait;
use std::thread::{Threads, join};

/// Two lists, each of which is the note of its number.
#[derive(Drop)]
struct Lists {
    zero: Vec<u64>,
    one: Vec<u64>,
}

impl Noted for Lists {
    ghost first_note = { λ lists. lists.zero.items };

    ghost second_note = { λ lists. lists.one.items };
}

impl Lists {
    fn empty(alloc: Global) -> Lists
        ensures zero { result.zero.items ≡ [] }
        ensures one { result.one.items ≡ [] }
    {
        Lists {
            zero: Vec::new(alloc),
            one: Vec::new(alloc),
        }
    }
}

/// Adds a number to a list.
fn add(rt: &impl Abort, list: &mut Vec<u64>, number: u64)
    ensures { list.new.items ≡ list.old.items ++ number ∷ [] }
{
    list.push(number).expect(rt, MEMORY);
}

/// Takes the value out for a visit, and puts it back.
fn visit_once<R: Wait>(rt: &R, lock: &Lock<Lists>) {
    let (lists, visit) = lock.visit(rt);
    may_be_shared(lock);
    may_be_sent(&visit);
    lock.leave(visit, lists);
}

/// Adds so many numbers from `first` on to list 0, by a take for each, with a visit after each. Whether it always
/// found as many as it had added.
#[tactic(auto, using(crate::proofs::Numbers::one_more))]
fn fill_zero<R: Wait + Abort>(
    rt: &R,
    lock: &Lock<Lists>,
    mut owner: Owner,
    first: u32,
    times: u32,
) -> (Owner, bool)
    requires { owner ≡ owner_of lock.now (first_owner []) }
    ensures { result.0 ≡ owner_of lock.now (first_owner (range_with_len first times)) }
{
    let mut kept = true;
    let mut done = 0;
    while done < times {
        let mut lists = lock.take(rt, &mut owner);
        kept = kept && lists.zero.len() == done as usize;
        add(rt, &mut lists.zero, first as u64 + done as u64);
        lock.give(&mut owner, lists);
        done += 1;
        visit_once(rt, lock);
    }
    (owner, kept)
}

/// The same of list 1.
#[tactic(auto, using(crate::proofs::Numbers::one_more))]
fn fill_one<R: Wait + Abort>(
    rt: &R,
    lock: &Lock<Lists>,
    mut owner: Owner,
    first: u32,
    times: u32,
) -> (Owner, bool)
    requires { owner ≡ owner_of lock.now (second_owner []) }
    ensures { result.0 ≡ owner_of lock.now (second_owner (range_with_len first times)) }
{
    let mut kept = true;
    let mut done = 0;
    while done < times {
        let mut lists = lock.take(rt, &mut owner);
        kept = kept && lists.one.len() == done as usize;
        add(rt, &mut lists.one, first as u64 + done as u64);
        lock.give(&mut owner, lists);
        done += 1;
        visit_once(rt, lock);
    }
    (owner, kept)
}

/// Has each owner of a lock add one number to its list, with a visit after each, and takes the lists by both
/// owners together.
fn add_and_join<R: Wait + Abort>(rt: &R, lock: &Lock<Lists>, zero: Owner, one: Owner) -> Lists
    requires zero { zero ≡ owner_of lock.now (first_owner []) }
    requires one { one ≡ owner_of lock.now (second_owner []) }
{
    let (mut zero, _) = fill_zero(rt, lock, zero, 7, 1);
    let (one, _) = fill_one(rt, lock, one, 8, 1);
    lock.join(&mut zero, one);
    may_be_sent(&zero);
    lock.take(rt, &mut zero)
}

/// The same with a new lock of empty lists.
fn add_to_new<R: Wait + Abort>(rt: &R, alloc: Global) -> Lists {
    let (lock, mut zero, one) = Lock::vacant(alloc).expect(rt, MEMORY);
    lock.give(&mut zero, Lists::empty(alloc));
    add_and_join(rt, &lock, zero, one)
}

/// Asserts that the lists are these.
fn assert_lists(rt: &impl Abort, lists: &Lists, zero: &[u64], one: &[u64]) {
    same(rt, lists.zero.as_slice(), zero);
    same(rt, lists.one.as_slice(), one);
}

#[test]
fn each_owner_knows_its_list_and_a_visit_changes_none(rt: HostRuntime) {
    let lists = add_to_new(&rt, rt.alloc());
    assert_lists(&rt, &lists, &[7], &[8]);
}

/// Two threads add 300 numbers each at once, from 0 and from 1,000 on. That both lists are whole at the end is a
/// clause.
fn fill_beside<R: Threads + Wait + Sync + Abort>(
    rt: &R,
    shared: &Lock<Lists>,
    zero: Owner,
    one: Owner,
) -> (Lists, bool)
    requires zero { zero ≡ owner_of shared.now (first_owner []) }
    requires one { one ≡ owner_of shared.now (second_owner []) }
    ensures zero { result.0.zero.items ≡ range_with_len 0 300 }
    ensures one { result.0.one.items ≡ range_with_len 1000 300 }
{
    let ((mut both, zero_kept), (one, one_kept)) = join(
        rt,
        move || -> (Owner, bool)
            requires { zero ≡ owner_of shared.now (first_owner []) }
            ensures { result.0 ≡ owner_of shared.entry.now (first_owner (range_with_len 0 300)) }
        { fill_zero(rt, shared, zero, 0, 300) },
        move || -> (Owner, bool)
            requires { one ≡ owner_of shared.now (second_owner []) }
            ensures { result.0 ≡ owner_of shared.entry.now (second_owner (range_with_len 1000 300)) }
        { fill_one(rt, shared, one, 1000, 300) },
    );
    shared.join(&mut both, one);
    (shared.take(rt, &mut both), zero_kept && one_kept)
}

/// The same with a new lock of empty lists.
fn fill_new<R: Threads + Wait + Sync + Abort>(rt: &R, alloc: Global) -> (Lists, bool) {
    let (lock, mut zero, one) = Lock::vacant(alloc).expect(rt, MEMORY);
    lock.give(&mut zero, Lists::empty(alloc));
    fill_beside(rt, &lock, zero, one)
}

/// So many numbers from `first` on.
fn numbers(rt: &impl Abort, alloc: Global, first: u64, times: u64) -> Vec<u64> {
    let mut all = Vec::new(alloc);
    for number in 0..times {
        add(rt, &mut all, first.saturating_add(number));
    }
    all
}

#[test]
fn two_owners_each_find_their_300_numbers_in_order(rt: HostRuntime) {
    let zero = numbers(&rt, rt.alloc(), 0, 300);
    let one = numbers(&rt, rt.alloc(), 1000, 300);
    let (lists, kept) = fill_new(&rt, rt.alloc());
    same(&rt, kept, true);
    assert_lists(&rt, &lists, zero.as_slice(), one.as_slice());
}
