//! What no clause says of a deque of places: that it gives what was put in, on one thread and on two, and that
//! the room for its first places is there.

ghost use Rattle.std.specs.Prelude.{◌≡◌};
ghost use Rattle.std.specs.Arc.{arc_value};

use crate::asserts::{MEMORY, may_be_sent, may_be_shared, same};
use aio_turns::{OwnPass, ThiefPass, Turns};
use std::alloc::Global;
use std::process::Abort;
use std::sync::{Arc, Wait};
use std::thread::{Threads, join, yield_now};

/// A deque with its owner.
struct Own {
    turns: Arc<Turns, Global>,
    pass: OwnPass,
    ghost belongs: { pass.deque ≡ arc_value turns },
}

/// A deque with a thief.
struct Thief {
    turns: Arc<Turns, Global>,
    pass: ThiefPass,
    ghost belongs: { pass.deque ≡ arc_value turns },
}

impl Drop for Own {
    fn drop(self) {
        let Own { turns: _, pass: _ } = self;
    }
}

impl Drop for Thief {
    fn drop(self) {
        let Thief { turns: _, pass: _ } = self;
    }
}

impl Own {
    fn new(rt: &impl Abort, alloc: Global) -> Own {
        let (turns, pass) = Turns::new(alloc).expect(rt, MEMORY);
        let turns = Arc::new(alloc, turns).expect(rt, MEMORY);
        may_be_shared(&turns);
        may_be_sent(&pass);
        Own { turns, pass }
    }

    fn thief(&mut self, rt: &impl Abort) -> Thief {
        let turns = Arc::try_clone(&self.turns).expect(rt, MEMORY);
        let pass = self.turns.thief(&mut self.pass).expect(rt, MEMORY);
        may_be_sent(&pass);
        Thief { turns, pass }
    }

    /// Puts a place into the deque. Whether there was room for it.
    fn push(&mut self, place: u32) -> bool {
        self.turns.push(&mut self.pass, place) == Ok(())
    }

    fn pop<R: Wait>(&mut self, rt: &R) -> Option<u32> {
        self.turns.pop(rt, &mut self.pass)
    }
}

impl Thief {
    fn steal<R: Wait>(&mut self, rt: &R) -> Option<u32> {
        self.turns.steal(rt, &mut self.pass)
    }
}

/// Has the owner and a thief take from the deque in turn, the owner twice in between: what each took.
fn take_in_turn<R: Wait>(rt: &R, own: &mut Own, thief: &mut Thief) -> [Option<u32>; 5] {
    let first = own.pop(rt);
    let second = thief.steal(rt);
    let third = own.pop(rt);
    let fourth = own.pop(rt);
    [first, second, third, fourth, thief.steal(rt)]
}

#[test]
fn the_owner_and_a_thief_take_the_oldest_place(rt: HostRuntime) {
    let mut own = Own::new(&rt, rt.alloc());
    let mut thief = own.thief(&rt);
    for place in 5..8 {
        same(&rt, own.push(place), true);
    }
    let taken = take_in_turn(&rt, &mut own, &mut thief);
    same(&rt, taken, [Some(5), Some(6), Some(7), None, None]);
}

#[test]
fn the_first_1024_places_have_room(rt: HostRuntime) {
    let mut own = Own::new(&rt, rt.alloc());
    for place in 0..1_024 {
        same(&rt, own.push(place), true);
    }
    same(&rt, own.pop(&rt), Some(0));
}

/// Pushes the places 0 to 1,999, with a pop after every fifth, and pops until the deque is empty. What it popped,
/// in order.
fn push_all<R: Wait>(rt: &R, mut own: Own, mut popped: Vec<u32>) -> Vec<u32> {
    for place in 0..2_000 {
        let _pushed = own.push(place);
        if place % 5 == 4 {
            if let Some(place) = own.pop(rt) {
                let _kept = popped.push(place);
            }
        }
    }
    for _ in rt.forever() {
        match own.pop(rt) {
            Some(place) => {
                let _kept = popped.push(place);
            }
            None => return popped,
        }
    }
    unreachable!()
}

/// Tries to steal 1,000,000 times, until it has stolen 500 places. What it stole, in order.
fn steal_some<R: Wait>(rt: &R, mut thief: Thief, mut stolen: Vec<u32>) -> Vec<u32> {
    for _try in 0..1_000_000 {
        match thief.steal(rt) {
            Some(place) => {
                let _kept = stolen.push(place);
            }
            None => yield_now(),
        }
        if stolen.len() == 500 {
            return stolen;
        }
    }
    stolen
}

/// Whether each place is above the one before.
fn rises(places: &[u32]) -> bool {
    let mut least = 0;
    for place in places {
        if (*place as u64) < least {
            return false;
        }
        least = *place as u64 + 1;
    }
    true
}

/// The owner pushes and pops 2,000 places while a thief steals. What each took.
fn take_beside<R: Threads + Wait + Sync>(
    rt: &R,
    own: Own,
    thief: Thief,
    popped: Vec<u32>,
    stolen: Vec<u32>,
) -> (Vec<u32>, Vec<u32>) {
    join(
        rt,
        move || -> Vec<u32> { push_all(rt, own, popped) },
        move || -> Vec<u32> { steal_some(rt, thief, stolen) },
    )
}

#[test]
fn two_threads_take_each_place_once_and_in_order(rt: HostRuntime) {
    let alloc = rt.alloc();
    let mut own = Own::new(&rt, alloc);
    let thief = own.thief(&rt);
    let popped = Vec::with_capacity(alloc, 2_000).expect(&rt, MEMORY);
    let stolen = Vec::with_capacity(alloc, 500).expect(&rt, MEMORY);
    let (mut all, stolen) = take_beside(&rt, own, thief, popped, stolen);
    same(&rt, rises(all.as_slice()) && rises(stolen.as_slice()), true);
    for place in stolen.iter() {
        all.push(*place).expect(&rt, MEMORY);
    }
    all.sort().expect(&rt, MEMORY);
    same(&rt, all.len(), 2_000);
    same(
        &rt,
        rises(all.as_slice()) && all.last() == Some(&1_999),
        true,
    );
}
