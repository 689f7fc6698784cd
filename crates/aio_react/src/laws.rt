//! The law of the worlds for which a core stands, as the contract of a function with no work to do.

ghost use Rattle.std.specs.Prelude.{◌≡◌, ℕ, List, find, Option, Some};
ghost use Rattle.aio_base.specs.declared.names.Dir.{Dir};
ghost use Rattle.aio_base.specs.Devices.{Interests};
ghost use Rattle.aio_base.specs.Machine.{is_fresh_since, is_listener};
ghost use Rattle.aio_base.specs.World.{ListenerEntry, World, mark_of, serial_of};
ghost use Rattle.aio_source.specs.Rules.{direction_of, is_above, is_ready};
ghost use Rattle.aio_source.specs.declared.answers.Listened.{Listened};
ghost use Rattle.aio_react.specs.declared.entries.Listener.{Listener};
ghost use Rattle.aio_react.specs.declared.entries.SourceEntry.{SourceEntry};
ghost use Rattle.aio_react.specs.Cores.{CoreValue, entry_at};
ghost use Rattle.aio_react.specs.Numbers.{value_of};
ghost use Rattle.aio_react.specs.Standing.{Stands};

/// The numbers that a core remembers in place of the past tell what a search of the past tells. A
/// direction of a live source is ready exactly where a round that began after its last poll waiter was
/// stored has handled an event of it (`poll`). For a listener that was polled, the last round of its
/// direction is above both of its numbers exactly where a round that began after its first poll has
/// handled an event of it (`listener`).
pub fn remembered_rounds_of_a_core_tell_freshness()
    ensures poll { (told : Option Interests) (core : CoreValue) (w : World)
        (key : ℕ) (dir : Dir) (e : SourceEntry) (serial : ℕ)
        → Stands told core w
        → entry_at core.sources key ≡ Some e → serial_of w key ≡ Some serial
        → is_ready (direction_of e.source.directions dir)
        ≡ is_fresh_since w serial dir (mark_of w.marks serial dir) }
    ensures listener { (told : Option Interests) (core : CoreValue) (w : World)
        (number : ℕ) (l : Listener) (first : Listened) (e : SourceEntry) (entry : ListenerEntry)
        → Stands told core w
        → value_of core.listeners number ≡ Some l → l.first ≡ Some first
        → entry_at core.sources l.key.0 ≡ Some e
        → find (is_listener number) w.listeners ≡ Some entry
        → is_above first.a first.b (direction_of e.source.directions l.dir).tick
        ≡ is_fresh_since w entry.serial entry.dir entry.position }
{}
