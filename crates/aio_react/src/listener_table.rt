//! The listeners of a core by their numbers.

ghost use Rattle.std.specs.Prelude.{◌≡◌, ◌+◌, ◌<◌, ◌≤◌, ◌^◌, ◌++◌, [], ◌∷◌, length, None, Some, IfOk, OnErr};
ghost use Rattle.aio_react.specs.Numbers.{value_of, with_value};
ghost use Rattle.aio_react.specs.Seats.{listener_in, listened_in, opened, seat_of, seat_in, first_poll_of, IsBeside};
ghost use Rattle.aio_react.specs.declared.listener_table.Seat.TheVariants as seat;

use crate::entries::Listener;
use aio_base::{DIRS, Dir, Key, OutOfMemory};
use aio_listen::Ticket;
use aio_source::Listened;
use std::alloc::Global;
use std::marker::Model;

/// Which direction of which source a listener is of, and of one that was polled what the next poll
/// needs.
#[derive(Clone, Copy)]
pub(crate) enum Seat {
    /// The listener was given up.
    Gone,
    /// It was not polled yet.
    Unpolled {
        dir: Dir,
        key: u16,
    },
    /// It was polled: `place` is that of its ticket, and `early` is how many rounds had begun then,
    /// or 65,535 where there were more.
    Polled {
        dir: Dir,
        key: u16,
        place: u32,
        early: u16,
    },
}

/// A seat as it lies in memory, in eight bytes: a key is below 8,192, so its direction and whether it
/// was polled lie beside it in two.
#[derive(Clone, Copy)]
struct PackedSeat {
    place: u32,
    /// Eight times the key, and of a listener 1 and the place of its direction, beyond all of these
    /// where it was polled.
    code: u16,
    early: u16,
}

impl PackedSeat {
    /// The seat of no listener.
    fn gone() -> PackedSeat
        ensures { opened result ≡ seat.Gone }
    {
        PackedSeat {
            place: 0,
            code: 0,
            early: 0,
        }
    }

    /// The seat.
    #[inline(always)]
    fn open(self) -> Seat
        ensures { result ≡ opened self }
    {
        let key = self.code / 8;
        let kind = usize::from(self.code % 8);
        if kind == 0 || kind > 2 * DIRS.len() {
            return Seat::Gone;
        }
        if kind <= DIRS.len() {
            return Seat::Unpolled {
                dir: DIRS[kind - 1],
                key,
            };
        }
        Seat::Polled {
            dir: DIRS[kind - 1 - DIRS.len()],
            key,
            place: self.place,
            early: self.early,
        }
    }
}

/// What a listener remembers of its first poll beside its seat.
#[derive(Clone, Copy)]
pub(crate) struct FirstPoll {
    pub(crate) serial: u64,
    pub(crate) a: u64,
    pub(crate) b: u64,
}

/// For how many listeners there is room from the start.
const LISTENER_ROOM: usize = 8192;

/// The listeners of a core under numbers from 1, in the order in which they came. A number stays
/// given where its listener was given up.
///
/// A poll of one listener among many waits for memory, not for the processor. So what a poll needs
/// that finds a listener not ready lies apart, as small as it can be: more of it stays in the cache,
/// and the rest is read only where the listener may be ready.
///
/// Contracts see a place for each number that was given. Every call takes constant time.
#[derive(Drop)]
pub(crate) struct ListenerTable {
    seats: Vec<PackedSeat>,
    /// The first poll of each number that has one, beside its seat.
    first_polls: Vec<FirstPoll>,
}

impl Model for ListenerTable {
    ghost use Rattle.std.specs.Prelude.{◌≡◌, List, Option, length, map};
    ghost use Rattle.aio_react.specs.declared.entries.Listener.{Listener};
    ghost use Rattle.aio_react.specs.Seats.{listeners_in, opened, AreEarly};

    ghost Value = { List (Option Listener) };

    ghost view = { λ t. listeners_in (map opened t.seats.items) t.first_polls.items };

    ghost invariant = { λ t. (length t.first_polls.items ≡ length t.seats.items)
        × AreEarly (map opened t.seats.items) t.first_polls.items };
}

impl ListenerTable {
    /// No number was given, and there is room for 8,192. `OutOfMemory` where memory ran out; `add` takes
    /// more from `alloc`.
    pub(crate) fn new(alloc: Global) -> Result<ListenerTable, OutOfMemory>
        ensures { IfOk result (λ table. table ≡ []) }
    {
        let Ok(seats) = Vec::with_capacity(alloc, LISTENER_ROOM) else {
            return Err(OutOfMemory);
        };
        let Ok(first_polls) = Vec::with_capacity(alloc, LISTENER_ROOM) else {
            return Err(OutOfMemory);
        };
        Ok(ListenerTable { seats, first_polls })
    }

    /// Puts a listener under the next number. `OutOfMemory` where memory ran out; no number is given
    /// then.
    #[inline(always)]
    pub(crate) fn add(&mut self, listener: Listener) -> Result<u64, OutOfMemory>
        requires { listener.key.0 < 2 ^ 13 }
        ensures number { IfOk result (λ number. number ≡ length self.new) }
        ensures added { IfOk result (λ number. self.new ≡ self.old ++ Some listener ∷ []) }
        ensures refused { OnErr result (self.new ≡ self.old) }
    {
        if self.seats.reserve(1).is_err() || self.first_polls.reserve(1).is_err() {
            return Err(OutOfMemory);
        }
        self.seats.push_reserved(seat_of(listener));
        self.first_polls
            .push_reserved(first_poll_of(listener.first));
        Ok(self.seats.len() as u64)
    }

    /// How many numbers were given.
    pub(crate) fn given(&self) -> u64
        ensures value { result ≡ length self.now }
        ensures bound { result < 2 ^ 63 }
    {
        self.seats.len() as u64
    }

    /// The seat of the listener under a number, which is gone also where the number was not given.
    #[inline(always)]
    pub(crate) fn seat(&self, number: u64) -> Seat
        ensures { result ≡ seat_in (value_of self.now number) }
    {
        if number == 0 || number > self.seats.len() as u64 {
            return Seat::Gone;
        }
        self.seats[number as usize - 1].open()
    }

    /// What lies beside the seat of a number that was given.
    #[inline(always)]
    pub(crate) fn first_poll(&self, number: u64) -> &FirstPoll
        requires given { 0 < number }
        requires bound { number ≤ length self.now }
        ensures { IsBeside (value_of self.now number) result.now }
    {
        &self.first_polls[number as usize - 1]
    }

    /// Puts a listener under a number that was given, in place of its own. Under another number
    /// nothing is put.
    pub(crate) fn set(&mut self, number: u64, listener: Listener)
        requires { listener.key.0 < 2 ^ 13 }
        ensures { self.new ≡ with_value self.old number (Some listener) }
    {
        if number == 0 || number > self.seats.len() as u64 {
            return;
        }
        let at = number as usize - 1;
        self.seats[at] = seat_of(listener);
        self.first_polls[at] = first_poll_of(listener.first);
    }

    /// The listener under a number, where there is one.
    pub(crate) fn get(&self, number: u64) -> Option<Listener>
        ensures { result ≡ value_of self.now number }
    {
        if number == 0 || number > self.seats.len() as u64 {
            return None;
        }
        let at = number as usize - 1;
        listener_in(self.seats[at].open(), self.first_polls[at])
    }

    /// Takes the listener under a number out, where there is one.
    pub(crate) fn take(&mut self, number: u64) -> Option<Listener>
        ensures value { result ≡ value_of self.old number }
        ensures after { self.new ≡ with_value self.old number None }
    {
        if number == 0 || number > self.seats.len() as u64 {
            return None;
        }
        let at = number as usize - 1;
        let taken = listener_in(self.seats[at].open(), self.first_polls[at]);
        self.seats[at] = PackedSeat::gone();
        taken
    }
}

/// The listener of a seat, if it is not gone, with its first poll.
fn listener_in(seat: Seat, first_poll: FirstPoll) -> Option<Listener>
    ensures { result ≡ listener_in seat first_poll }
{
    match seat {
        Seat::Gone => None,
        Seat::Unpolled { dir, key } => Some(Listener {
            key: Key(u32::from(key)),
            dir,
            first: None,
        }),
        Seat::Polled {
            dir,
            key,
            place,
            ..
        } => Some(Listener {
            key: Key(u32::from(key)),
            dir,
            first: Some(listened_in(place, &first_poll)),
        }),
    }
}

/// What a listener remembers of its first poll, by its seat's place and what lies beside.
#[inline(always)]
pub(crate) fn listened_in(place: u32, first_poll: &FirstPoll) -> Listened
    ensures { result ≡ listened_in place first_poll.now }
{
    Listened {
        ticket: Ticket {
            serial: first_poll.serial,
            place,
        },
        a: first_poll.a,
        b: first_poll.b,
    }
}

/// The seat of a listener.
#[inline(always)]
fn seat_of(listener: Listener) -> PackedSeat
    requires { listener.key.0 < 2 ^ 13 }
    ensures { opened result ≡ seat_of listener }
{
    let code = 8 * listener.key.0 as u16 + 1 + listener.dir.index() as u16;
    match listener.first {
        None => PackedSeat {
            place: 0,
            code,
            early: 0,
        },
        Some(first) => PackedSeat {
            place: first.ticket.place,
            code: code + DIRS.len() as u16,
            early: first.a.min(65_535) as u16,
        },
    }
}

/// What a listener remembers of its first poll beside its seat, and zeros where it was not polled.
#[inline(always)]
fn first_poll_of(first: Option<Listened>) -> FirstPoll
    ensures { result ≡ first_poll_of first }
{
    match first {
        None => FirstPoll {
            serial: 0,
            a: 0,
            b: 0,
        },
        Some(first) => FirstPoll {
            serial: first.ticket.serial,
            a: first.a,
            b: first.b,
        },
    }
}
