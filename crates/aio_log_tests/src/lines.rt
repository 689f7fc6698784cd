//! What lines of a log are, one by one.

use crate::asserts::{MEMORY, same};
use aio_base::{Answer, Event, Interest, Key, Step, Waker};
use aio_log::{
    CallTold, call_told, event_of, given_in, has_entry, is_answer, is_log_header, step_of,
};
use std::alloc::Global;
use std::process::Abort;

/// The step that a line is.
fn step_in(rt: &impl Abort, alloc: Global, line: &str) -> Option<Step> {
    let mut room = Vec::new(alloc);
    step_of(line.as_bytes(), &mut room).expect(rt, MEMORY)
}

/// The event that a line is.
fn event_in(rt: &impl Abort, alloc: Global, line: &str) -> Option<Event> {
    let mut room = Vec::new(alloc);
    event_of(line.as_bytes(), &mut room).expect(rt, MEMORY)
}

/// How many events a line says that a wait gave.
fn count_in(rt: &impl Abort, alloc: Global, line: &str) -> Option<u32> {
    let mut room = Vec::new(alloc);
    given_in(line.as_bytes(), &mut room).expect(rt, MEMORY)
}

#[test]
fn a_step_has_one_spelling(rt: HostRuntime) {
    same(&rt, is_log_header(b"log 1".as_slice()), true);
    same(&rt, is_log_header(b"log 1\r".as_slice()), false);
    same(
        &rt,
        step_in(&rt, rt.alloc(), "step 3 7"),
        Some(Step::StepEar(3, Waker(7))),
    );
    same(&rt, step_in(&rt, rt.alloc(), "step 3 07"), None);
    same(&rt, step_in(&rt, rt.alloc(), "react"), None);
    same(&rt, has_entry(&Step::React), false);
}

#[test]
fn an_event_is_written_behind_got(rt: HostRuntime) {
    let event = Event {
        key: Key(4_294_967_295),
        on: Interest::READ_WRITE,
    };
    same(
        &rt,
        event_in(&rt, rt.alloc(), "got 4294967295 rw"),
        Some(event),
    );
    same(&rt, event_in(&rt, rt.alloc(), "got 4294967295 wr"), None);
    same(&rt, event_in(&rt, rt.alloc(), "event 4294967295 rw"), None);
}

#[test]
fn a_wait_gives_at_most_1024_events(rt: HostRuntime) {
    same(&rt, count_in(&rt, rt.alloc(), "given 0"), Some(0));
    same(&rt, count_in(&rt, rt.alloc(), "given 1024"), Some(1024));
    same(&rt, count_in(&rt, rt.alloc(), "given 1025"), None);
    same(&rt, count_in(&rt, rt.alloc(), "given 00"), None);
}

#[test]
fn an_answer_tells_of_the_poller(rt: HostRuntime) {
    let handled = Answer::Handled {
        key: Key(0),
        fault: true,
    };
    let mut room = Vec::new(rt.alloc());
    let line = b"handled 0 fault arm".as_slice();
    let is = is_answer(line, &handled, &mut room).expect(&rt, MEMORY);
    same(&rt, is, true);
    same(&rt, call_told(&Step::Handle, line), CallTold::Failed);
    same(
        &rt,
        call_told(&Step::Finish, b"end fault arm".as_slice()),
        CallTold::Done,
    );
    same(
        &rt,
        call_told(&Step::Wait, b"interrupted".as_slice()),
        CallTold::Interrupted,
    );
}
