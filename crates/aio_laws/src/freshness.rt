//! The law that joins the two numbers that a reactor remembers to the past that the machine searches.

ghost use Rattle.std.specs.Prelude.{◌≡◌, ℕ, ◌≤◌, ◌&&◌, nat_lt, List};
ghost use Rattle.aio_base.specs.declared.names.Dir.{Dir};
ghost use Rattle.aio_base.specs.World.{HandledDirection, is_fresh};
ghost use Rattle.aio_base.specs.Rounds.{rounds_at, last_tick, AllBegun};

/// An event is fresh for a waiter, by a search of the past, exactly where the last round of its
/// direction is above both numbers that were remembered when the waiter was stored: the rounds begun
/// by then, and the last round of the direction at that time (`async-io` 2, `reactor.rs`,
/// `Direction::ticks`).
pub fn remembered_rounds_tell_freshness()
    ensures { (begun : List ℕ) (handled : List HandledDirection) (serial : ℕ) (dir : Dir) (position second : ℕ)
        → AllBegun handled begun → second ≤ rounds_at begun position
        → is_fresh handled serial dir position
        ≡ nat_lt (rounds_at begun position) (last_tick begun handled serial dir) && nat_lt second (last_tick begun handled serial dir) }
{}
