//! The names of a reactor: sources, tasks, timers, moments, directions and events.

ghost use Rattle.std.specs.Prelude.{◌≡◌, ℕ, ◌^◌, ◌<◌, ◌≤◌, true, false, not, [], ◌∷◌, Some, length, slice_get, SomeIff};
ghost use Rattle.aio_base.specs.World.{directions, except, has_any, has_dir, index_of, interest_where, same_dir, with_dir};

use std::marker::Model;

/// The number of a registered source, as `polling` 3 keys its events (`lib.rs`, `Event::key`).
#[derive(Clone, Copy, Debug, PartialEq, Eq, PartialOrd, Ord, Hash)]
pub struct Key(pub u32);

/// The number of a task. Two wakers wake the same task exactly where their numbers are equal.
#[derive(Clone, Copy, Debug, PartialEq, Eq, PartialOrd, Ord, Hash)]
pub struct Waker(pub u32);

/// The number of a registered timer: the registrations of one deadline fire in its order
/// (`async-io` 2, `reactor.rs`, `insert_timer`).
#[derive(Clone, Copy, Debug, PartialEq, Eq, PartialOrd, Ord, Hash)]
pub struct TimerId(pub u64);

/// A moment in whole nanoseconds from a clock's start, at most 10^18.
#[derive(Clone, Copy, Debug, PartialEq, Eq, PartialOrd, Ord, Hash)]
pub struct Moment {
    nanoseconds: u64,
}

impl Model for Moment {
    ghost Value = { ℕ };

    ghost view = { λ m. m.nanoseconds };

    ghost invariant = { λ m. m.nanoseconds ≤ 10 ^ 18 };

    ghost inverse = { λ n. record { nanoseconds = n } };
}

impl Moment {
    /// The moment so many nanoseconds after the clock's start; `None` exactly above 10^18.
    pub fn new(n: u64) -> Option<Moment>
        ensures { SomeIff result (n ≤ 10 ^ 18) n }
    {
        if n <= 1_000_000_000_000_000_000 {
            Some(Moment { nanoseconds: n })
        } else {
            None
        }
    }

    /// The nanoseconds since the clock's start.
    pub fn get(self) -> u64
        ensures value { result ≡ self }
        ensures bound { result ≤ 10 ^ 18 }
    {
        self.nanoseconds
    }
}

/// A direction of a source (`async-io` 2, `reactor.rs`, the constants `READ` and `WRITE`).
#[derive(Clone, Copy, Debug, PartialEq, Eq, PartialOrd, Ord, Hash)]
pub enum Dir {
    /// Readability, written `r`.
    Read,
    /// Writability, written `w`.
    Write,
    /// Urgent readiness, an extension of this project: `polling` 3 knows it as an extra of an event.
    Priority,
}

impl Dir {
    /// The place of the direction in `DIRS`.
    pub fn index(self) -> usize
        ensures value { result ≡ index_of self }
        ensures bound { result < length DIRS }
        ensures direction { slice_get DIRS result ≡ Some self }
    {
        match self {
            Dir::Write => 0,
            Dir::Read => 1,
            Dir::Priority => 2,
        }
    }
}

/// All directions, in the order in which one event takes waiters: the published reactor looks at
/// writability first (`async-io` 2, `reactor.rs`, `react`).
pub const DIRS: [Dir; 3] = [Dir::Write, Dir::Read, Dir::Priority];

/// `DIRS` is Write, then Read, then Priority, and these are the directions of the machine in its
/// order.
pub fn writability_comes_first()
    ensures order { DIRS ≡ Dir.Write ∷ Dir.Read ∷ Dir.Priority ∷ [] }
    ensures machine { DIRS ≡ directions }
{}

/// The directions that a source is watched for, or that an event names.
#[derive(Clone, Copy, Debug, PartialEq, Eq, PartialOrd, Ord, Hash)]
pub struct Interest {
    /// Whether readability is among them.
    pub read: bool,
    /// Whether writability is among them.
    pub write: bool,
    /// Whether urgent readiness is among them.
    pub priority: bool,
}

impl Interest {
    /// No direction.
    pub const NONE: Interest = Interest {
        read: false,
        write: false,
        priority: false,
    };

    /// Readability alone.
    pub const READ: Interest = Interest {
        read: true,
        ..Interest::NONE
    };

    /// Writability alone.
    pub const WRITE: Interest = Interest {
        write: true,
        ..Interest::NONE
    };

    /// Readability and writability.
    pub const READ_WRITE: Interest = Interest {
        read: true,
        ..Interest::WRITE
    };

    /// Urgent readiness alone.
    pub const PRIORITY: Interest = Interest {
        priority: true,
        ..Interest::NONE
    };

    /// All directions.
    pub const ALL: Interest = Interest {
        priority: true,
        ..Interest::READ_WRITE
    };

    /// The directions that pass a test.
    #[inline(always)]
    pub fn from_fn<F: Fn(Dir) -> bool>(test: F) -> Interest
        requires { F.IsAlwaysCallable test }
        ensures { (dir : Dir) → F.post test dir (has_dir result dir) }
    {
        Interest {
            read: test(Dir::Read),
            write: test(Dir::Write),
            priority: test(Dir::Priority),
        }
    }

    /// Whether no direction is among them.
    #[inline(always)]
    pub fn is_none(self) -> bool
        ensures { result ≡ not (has_any self) }
    {
        self == Interest::NONE
    }

    /// Whether a direction is among them.
    pub fn has(self, dir: Dir) -> bool
        ensures { result ≡ has_dir self dir }
    {
        match dir {
            Dir::Read => self.read,
            Dir::Write => self.write,
            Dir::Priority => self.priority,
        }
    }

    /// These directions and this one.
    pub fn with(self, dir: Dir) -> Interest
        ensures { result ≡ with_dir self dir }
    {
        match dir {
            Dir::Read => Interest { read: true, ..self },
            Dir::Write => Interest {
                write: true,
                ..self
            },
            Dir::Priority => Interest {
                priority: true,
                ..self
            },
        }
    }

    /// These directions without those of another interest.
    pub fn except(self, other: Interest) -> Interest
        ensures { result ≡ except self other }
    {
        Interest::from_fn(|dir| !other.has(dir) && self.has(dir))
    }
}

/// The law of the constants of `Interest`: each has the directions that its name says.
pub fn interests_have_the_directions_of_their_names()
    ensures none { Interest.NONE ≡ interest_where (λ d. false) }
    ensures read { Interest.READ ≡ interest_where (same_dir Dir.Read) }
    ensures write { Interest.WRITE ≡ interest_where (same_dir Dir.Write) }
    ensures read_write { Interest.READ_WRITE ≡ with_dir Interest.READ Dir.Write }
    ensures priority { Interest.PRIORITY ≡ interest_where (same_dir Dir.Priority) }
    ensures all { Interest.ALL ≡ interest_where (λ d. true) }
{}

/// An event of a poller: the directions of the source `key` that are ready, maybe none
/// (`polling` 3, `lib.rs`, `Event`).
#[derive(Clone, Copy, Debug, PartialEq, Eq, PartialOrd, Ord, Hash)]
pub struct Event {
    /// The key of the source, which need not be registered any longer.
    pub key: Key,
    /// The directions that are ready.
    pub on: Interest,
}
