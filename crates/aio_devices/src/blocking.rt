//! A half of a poller in memory whose waits last, and its notifiers, which serve other threads.

ghost use Rattle.std.specs.Prelude.{◌≡◌, ◌+◌, ◌≤◌, true, Ok, IsTrue, IfOk, IfSome, IfNone, vec_len, vec_capacity};
ghost use Rattle.aio_devices.specs.Blocking.{Gives, looks_of};

use crate::scripted::give;
use aio_base::{Event, EventWait, Failed, Faults, Notify, OutOfMemory, Waited};
use std::alloc::Global;
use std::marker::Model;
use std::sync::{Arc, Mutex, Wait};
use std::thread::yield_now;

/// What other threads have left for the half that waits.
#[derive(Drop)]
struct Inbox {
    notified: bool,
    events: Vec<Event>,
}

impl Inbox {
    /// Moves the events to the end of `out`, as many as there is room for. `None` where there was neither
    /// an event nor a notify; a notify is then taken too.
    fn empty(&mut self, out: &mut Vec<Event>, room: u32) -> Option<u32>
        requires { vec_len out.old + room ≤ vec_capacity out.old }
        ensures some { IfSome result (λ count. Gives room count out.old.items out.new.items) }
        ensures none { IfNone result (out.new ≡ out.old) }
        ensures capacity { vec_capacity out.old ≤ vec_capacity out.new }
    {
        if !self.notified && self.events.is_empty() {
            return None;
        }
        self.notified = false;
        let count = give(out, self.events.as_slice(), room);
        self.events.drain(..count as usize);
        Some(count)
    }
}

/// A half of a poller whose waits last until its notifier is called, until events were made ready for it, or
/// until their limit is over. Between two looks at what came it lets other threads run. A nanosecond of the
/// limit is one look, and each wait looks once at least.
///
/// A wait that was to look more often than `most_looks` times fails after so many: so where a wake is lost, a
/// test fails in place of hanging. What other threads leave stands under a lock, so no contract tells which
/// events a wait gives.
pub struct BlockingWait<R: Wait> {
    rt: R,
    inbox: Arc<Mutex<Inbox>, Global>,
    most_looks: u64,
    waits: u64,
    faults: u64,
}

impl<R: Wait> Model for BlockingWait<R> {
    ghost use Rattle.aio_devices.specs.Blocking.{BlockingWaits};

    ghost Value = { BlockingWaits };

    ghost view = { λ w. record { most_looks = w.most_looks; waits = w.waits; faults = w.faults } };
}

impl<R: Wait + Drop> Drop for BlockingWait<R> {
    fn drop(self) {
        let BlockingWait {
            rt: _,
            inbox: _,
            most_looks: _,
            waits: _,
            faults: _,
        } = self;
    }
}

/// A notifier of a half that waits. It counts its calls, of which none ever fails; contracts see it as their
/// number.
pub struct BlockingNotify<R: Wait> {
    rt: R,
    inbox: Arc<Mutex<Inbox>, Global>,
    calls: u64,
}

impl<R: Wait> Model for BlockingNotify<R> {
    ghost use Rattle.std.specs.Prelude.{ℕ};

    ghost Value = { ℕ };

    ghost view = { λ n. n.calls };
}

impl<R: Wait + Drop> Drop for BlockingNotify<R> {
    fn drop(self) {
        let BlockingNotify {
            rt: _,
            inbox: _,
            calls: _,
        } = self;
    }
}

/// A half that has not waited yet, and its notifier, which was not called yet. A wait looks at most so many
/// times.
///
/// # Errors
///
/// `OutOfMemory` where memory ran out.
pub fn blocking_pair<R: Wait + Copy>(
    rt: R,
    alloc: Global,
    most_looks: u64,
) -> Result<(BlockingWait<R>, BlockingNotify<R>), OutOfMemory>
    ensures wait { IfOk result (λ made.
        made.0 ≡ record { most_looks = most_looks; waits = 0; faults = 0 }) }
    ensures note { IfOk result (λ made. made.1 ≡ 0) }
{
    let events = Vec::new(alloc);
    let inbox = Mutex::new(Inbox {
        notified: false,
        events,
    });
    let Ok(inbox) = Arc::new(alloc, inbox) else {
        return Err(OutOfMemory);
    };
    let Ok(of_note) = Arc::try_clone(&inbox) else {
        return Err(OutOfMemory);
    };
    let wait = BlockingWait {
        rt,
        inbox,
        most_looks,
        waits: 0,
        faults: 0,
    };
    let note = BlockingNotify {
        rt,
        inbox: of_note,
        calls: 0,
    };
    Ok((wait, note))
}

/// How often a wait with this limit, in nanoseconds, looks before it is over.
fn looks_of(limit: Option<u64>) -> u64
    ensures { result ≡ looks_of limit }
{
    match limit {
        Some(nanoseconds) => nanoseconds.max(1),
        None => u64::MAX,
    }
}

impl<R: Wait> BlockingWait<R> {
    /// Looks what came, at most so many times, until something did.
    fn look(&self, out: &mut Vec<Event>, room: u32, looks: u64) -> Option<u32>
        requires { vec_len out.old + room ≤ vec_capacity out.old }
        ensures some { IfSome result (λ count. Gives room count out.old.items out.new.items) }
        ensures none { IfNone result (out.new ≡ out.old) }
        ensures capacity { vec_capacity out.old ≤ vec_capacity out.new }
    {
        for _ in 0..looks {
            let found = self.look_once(out, room);
            if found.is_some() {
                return found;
            }
            yield_now();
        }
        None
    }

    /// One look.
    fn look_once(&self, out: &mut Vec<Event>, room: u32) -> Option<u32>
        requires { vec_len out.old + room ≤ vec_capacity out.old }
        ensures some { IfSome result (λ count. Gives room count out.old.items out.new.items) }
        ensures none { IfNone result (out.new ≡ out.old) }
        ensures capacity { vec_capacity out.old ≤ vec_capacity out.new }
    {
        let mut inbox = self.inbox.lock(&self.rt);
        inbox.empty(out, room)
    }
}

impl<R: Wait> Faults for BlockingWait<R> {
    ghost use Rattle.std.specs.Prelude.{false};
    ghost use Rattle.std.proofs.lemmas.Bool.{false≢true};

    ghost fault_count = { λ w. w.faults };

    ghost is_sure = { λ w. false };

    ghost all_sure = { false };

    ghost sure_below_top = { λ w sure. absurd (false≢true sure) };

    ghost each_sure = { λ w sure. sure };

    fn faults(&self) -> u64 {
        self.faults
    }
}

impl<R: Wait> EventWait for BlockingWait<R> {
    ghost use Rattle.aio_devices.specs.Blocking.{WaitsBlocking};

    ghost wait_count = { λ w. w.waits };

    ghost wait_step = { WaitsBlocking };

    fn wait(
        &mut self,
        out: &mut Vec<Event>,
        room: u32,
        limit: Option<u64>,
    ) -> Result<Waited, Failed> {
        self.waits = self.waits.saturating_add(1);
        let wanted = looks_of(limit);
        if let Some(count) = self.look(out, room, wanted.min(self.most_looks)) {
            return Ok(Waited::Given(count));
        }
        if wanted <= self.most_looks {
            return Ok(Waited::Given(0));
        }
        self.faults = self.faults.saturating_add(1);
        Err(Failed)
    }

    fn waits(&self) -> u64 {
        self.waits
    }
}

impl<R: Wait> BlockingNotify<R> {
    /// Makes an event ready, as the system does: the wait that runs, or the next one, gives it. It is no
    /// notify.
    ///
    /// # Errors
    ///
    /// `OutOfMemory` where memory ran out.
    pub fn give(&self, event: Event) -> Result<(), OutOfMemory> {
        let mut inbox = self.inbox.lock(&self.rt);
        match inbox.events.push(event) {
            Ok(()) => Ok(()),
            Err(_) => Err(OutOfMemory),
        }
    }
}

impl<R: Wait> Faults for BlockingNotify<R> {
    ghost use Rattle.std.specs.Prelude.{true};
    ghost use Rattle.std.proofs.Common.{arith};

    ghost fault_count = { λ n. 0 };

    ghost is_sure = { λ n. true };

    ghost all_sure = { true };

    ghost sure_below_top = { λ n sure. Prim.omega arith };

    ghost each_sure = { λ n sure. sure };

    /// No call fails, so none is counted.
    fn faults(&self) -> u64 {
        0
    }
}

impl<R: Wait + Copy> Notify for BlockingNotify<R> {
    ghost use Rattle.std.specs.Prelude.{◌≡◌, Ok};
    ghost use Rattle.aio_base.specs.Devices.{raised};

    ghost call_count = { λ n. n };

    ghost notify_step = { λ old answer new. (answer ≡ Ok tt) × (new ≡ raised old) };

    /// Ends the wait that runs, or the next one, and counts the call.
    fn notify(&mut self) -> Result<(), Failed> {
        self.calls = self.calls.saturating_add(1);
        let mut inbox = self.inbox.lock(&self.rt);
        inbox.notified = true;
        Ok(())
    }

    fn calls(&self) -> u64 {
        self.calls
    }

    /// A notifier of the same half that was not called yet.
    fn twin(&self) -> Result<BlockingNotify<R>, OutOfMemory>
        ensures sure { IsTrue true → IfOk result (λ twin. IsTrue true) }
        ensures anew { IfOk result (λ twin. twin ≡ 0) }
    {
        match Arc::try_clone(&self.inbox) {
            Ok(inbox) => Ok(BlockingNotify {
                rt: self.rt,
                inbox,
                calls: 0,
            }),
            Err(_) => Err(OutOfMemory),
        }
    }
}
