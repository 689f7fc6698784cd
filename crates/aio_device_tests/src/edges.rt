//! What is kept beside registrations, without sockets: that an edge and an arm meet in either order and beside each
//! other, once each time.

use crate::asserts::{MEMORY, same};
use aio_base::{Dir, Event, Interest, Key};
use aio_edges::Edges;
use std::alloc::Global;
use std::process::Abort;
use std::thread::{Threads, join};

/// The last key.
const KEY: Key = Key(4_095);

/// The keys that are due, as far as a list with this room has them.
fn due(rt: &impl Abort, alloc: Global, edges: &Edges, room: usize) -> Vec<Event> {
    let mut out = Vec::with_capacity(alloc, room).expect(rt, MEMORY);
    edges.give_due(&mut out);
    out
}

/// Asserts that the keys that are due are these.
fn same_due(rt: &impl Abort, alloc: Global, edges: &Edges, wanted: &[Event]) {
    let found = due(rt, alloc, edges, 4);
    same(rt, found.as_slice(), wanted);
    drop(found);
}

/// An event of a key.
const fn event(key: Key, on: Interest) -> Event {
    Event { key, on }
}

#[test]
fn an_edge_is_given_where_it_is_armed_and_kept_where_it_is_not(rt: HostRuntime) {
    let edges = Edges::new(rt.alloc()).expect(&rt, MEMORY);
    edges.join(KEY);
    edges.expect(KEY, Interest::READ);
    same(
        &rt,
        (edges.take(KEY, Dir::Read), edges.take(KEY, Dir::Write)),
        (false, true),
    );
    same(&rt, edges.tell(KEY, Interest::WRITE, false), Interest::NONE);
    same(
        &rt,
        edges.tell(KEY, Interest::READ_WRITE, false),
        Interest::READ,
    );
    // what is given is armed no longer
    same(&rt, edges.tell(KEY, Interest::READ, false), Interest::NONE);
    same_due(&rt, rt.alloc(), &edges, &[]);
    same(&rt, edges.arm(KEY, Interest::READ_WRITE), true);
    same_due(&rt, rt.alloc(), &edges, &[event(KEY, Interest::READ_WRITE)]);
    same_due(&rt, rt.alloc(), &edges, &[]);
    same(&rt, edges.take(KEY, Dir::Read), true);
    same(&rt, edges.arm(KEY, Interest::READ), false);
    same(&rt, edges.has_due(), false);
    same(&rt, edges.keep(KEY, Dir::Read), true);
    same(&rt, edges.has_due(), true);
    edges.disarm(KEY);
    same_due(&rt, rt.alloc(), &edges, &[]);
    same(&rt, edges.is_unsure(KEY), false);
    same(&rt, edges.tell(KEY, Interest::READ, true), Interest::NONE);
    same(&rt, edges.is_unsure(KEY), true);
    // whoever joins under the key finds nothing of this
    edges.join(KEY);
    same(
        &rt,
        (edges.take(KEY, Dir::Read), edges.take(KEY, Dir::Write)),
        (true, true),
    );
    same(&rt, edges.is_unsure(KEY), false);
    drop(edges);
}

#[test]
fn keys_are_given_in_rising_order_and_stay_due_where_there_is_no_room(rt: HostRuntime) {
    let edges = Edges::new(rt.alloc()).expect(&rt, MEMORY);
    for key in [Key(70), Key(4_095), Key(3)] {
        edges.join(key);
        same(&rt, edges.arm(key, Interest::READ), true);
    }
    let first = due(&rt, rt.alloc(), &edges, 2);
    same(
        &rt,
        first.as_slice(),
        &[
            event(Key(3), Interest::READ),
            event(Key(70), Interest::READ),
        ],
    );
    drop(first);
    same_due(&rt, rt.alloc(), &edges, &[event(KEY, Interest::READ)]);
    drop(edges);
}

/// What is armed of a key, so that keys side by side differ.
fn armed_of(key: u32) -> Interest {
    if key % 2 == 0 {
        Interest::READ
    } else {
        Interest::WRITE
    }
}

/// Arms all keys.
fn arm_all(edges: &Edges) {
    for key in 0..4_096 {
        edges.join(Key(key));
        edges.expect(Key(key), armed_of(key));
    }
}

/// Whether edges of both directions give of each key what is armed of it.
fn give_what_is_armed(edges: &Edges) -> bool {
    for key in 0..4_096 {
        if edges.tell(Key(key), Interest::READ_WRITE, false) != armed_of(key) {
            return false;
        }
    }
    true
}

/// Whether each key is due once it is armed where an edge was kept.
fn are_due(edges: &Edges) -> bool {
    for key in 0..4_096 {
        if !edges.arm(Key(key), armed_of(key)) {
            return false;
        }
    }
    true
}

/// Whether these are the events of all keys, in rising order.
fn are_all(events: &[Event]) -> bool {
    let mut wanted = 0;
    for found in events {
        if *found != event(Key(wanted), armed_of(wanted)) {
            return false;
        }
        wanted = wanted.wrapping_add(1);
    }
    wanted == 4_096
}

#[test]
fn each_of_4096_keys_is_armed_and_due_for_itself(rt: HostRuntime) {
    let edges = Edges::new(rt.alloc()).expect(&rt, MEMORY);
    arm_all(&edges);
    same(&rt, give_what_is_armed(&edges), true);
    same(&rt, are_due(&edges), true);
    let events = due(&rt, rt.alloc(), &edges, 4_096);
    same(&rt, are_all(events.as_slice()), true);
    drop(events);
    same_due(&rt, rt.alloc(), &edges, &[]);
    drop(edges);
}

/// An edge beside an arm. Whether it is given, at once or by a look afterwards, and once alone.
fn meet<R: Threads + Sync + Abort>(rt: &R, alloc: Global, edges: &Edges) -> bool {
    edges.join(KEY);
    let _ = edges.take(KEY, Dir::Read);
    let (given, _) = join(
        rt,
        || edges.tell(KEY, Interest::READ, false),
        || edges.arm(KEY, Interest::READ),
    );
    let later = due(rt, alloc, edges, 4);
    let by_the_edge = given == Interest::READ;
    let by_the_look = later.as_slice() == [event(KEY, Interest::READ)].as_slice();
    drop(later);
    by_the_edge != by_the_look
}

#[test]
fn an_edge_beside_an_arm_is_given_once(rt: HostRuntime) {
    let edges = Edges::new(rt.alloc()).expect(&rt, MEMORY);
    for _ in 0..2_000 {
        same(&rt, meet(&rt, rt.alloc(), &edges), true);
    }
    drop(edges);
}

/// So many edges, one after the other, each of a direction that is armed, behind an edge of the other direction.
/// Whether each is given, at once or by the look after it.
fn each_is_given(rt: &impl Abort, alloc: Global, edges: &Edges) -> bool {
    for _ in 0..20_000 {
        let _ = edges.take(KEY, Dir::Read);
        let _ = edges.tell(KEY, Interest::WRITE, false);
        let _ = edges.arm(KEY, Interest::READ);
        let given = edges.tell(KEY, Interest::READ, false);
        let later = due(rt, alloc, edges, 4);
        let is_given = given == Interest::READ || !later.is_empty();
        drop(later);
        if !is_given {
            return false;
        }
    }
    true
}

/// Uses up the edges of the other direction, as they come.
fn use_up(edges: &Edges) {
    for _ in 0..400_000 {
        let _ = edges.take(KEY, Dir::Write);
    }
}

#[test]
fn no_edge_is_lost_beside_a_call_that_uses_up_another(rt: HostRuntime) {
    let edges = Edges::new(rt.alloc()).expect(&rt, MEMORY);
    edges.join(KEY);
    let (is_given, ()) = join(
        &rt,
        || each_is_given(&rt, rt.alloc(), &edges),
        || use_up(&edges),
    );
    same(&rt, is_given, true);
    drop(edges);
}
