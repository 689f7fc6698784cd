//! Laws of what a raw poller gives, and of what is left of it where it is armed.

ghost use Rattle.std.specs.Prelude.{◌≡◌, ℕ, ◌<◌, ◌≤◌, ◌&&◌, true, List, length};
ghost use Rattle.std.specs.List.{All, AllPairs};
ghost use Rattle.aio_base.specs.declared.names.Dir.{Dir};
ghost use Rattle.aio_base.specs.declared.names.Event.{Event};
ghost use Rattle.aio_base.specs.Devices.{Interests};
ghost use Rattle.aio_base.specs.World.{has_any, has_dir};
ghost use Rattle.aio_modes.specs.declared.mode.Mode.{Mode};
ghost use Rattle.aio_modes.specs.Interests.{common, Cut, names_direction, names_key};
ghost use Rattle.aio_modes.specs.Laws.{IsArmedWhole, IsLeftOf};
ghost use Rattle.aio_modes.specs.Raw.{Gives, Owed, RawLists};

/// What a raw poller gives: of any two events the earlier one has the lesser key, so that no key is
/// named twice; there are at most `room`; each names what is owed of its key, which is never none;
/// and a key of which something is owed is named, where there is room left.
pub fn given_keys_rise()
    ensures rising { (mode : Mode) (lists : RawLists) (room : ℕ)
        → AllPairs (λ (first later : Event). first.key.0 < later.key.0) (Gives mode lists room) }
    ensures few { (mode : Mode) (lists : RawLists) (room : ℕ)
        → length (Gives mode lists room) ≤ room }
    ensures owed { (mode : Mode) (lists : RawLists) (room : ℕ)
        → All (λ (event : Event). event.on ≡ Owed mode lists event.key.0) (Gives mode lists room) }
    ensures some { (mode : Mode) (lists : RawLists) (room : ℕ)
        → All (λ (event : Event). has_any event.on ≡ true) (Gives mode lists room) }
    ensures all { (mode : Mode) (lists : RawLists) (room key : ℕ)
        → length (Gives mode lists room) < room → key < 4096
        → has_any (Owed mode lists key) ≡ true
        → names_key (Gives mode lists room) key ≡ true }
{}

/// What is left of events where it is armed: a direction of a key is named exactly where an event
/// named it and it is armed; what is left is in order, and no key and no direction is added; and
/// where all that each event names is armed, nothing is cut off.
pub fn cuts_keep_what_is_armed()
    ensures named { (events : List Event) (armed : Interests) (key : ℕ) (dir : Dir)
        → names_direction (Cut events armed) key dir
        ≡ (names_direction events key dir && has_dir (armed key) dir) }
    ensures order { (events : List Event) (armed : Interests)
        → IsLeftOf events (Cut events armed) }
    ensures whole { (events : List Event) (armed : Interests) → All (IsArmedWhole armed) events
        → Cut events armed ≡ events }
{}
