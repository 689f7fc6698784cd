//! How raw events become the answer of a wait.

ghost use Rattle.std.specs.Prelude.{◌≡◌, ◌+◌, ◌≤◌, ◌<◌, ◌++◌, List, length, filter, map, take, vec_capacity};
ghost use Rattle.aio_base.specs.declared.names.Event.{Event};
ghost use Rattle.aio_base.specs.Devices.{clear_interests};
ghost use Rattle.aio_script.specs.Interests.{interests_in};
ghost use Rattle.aio_modes.specs.Interests.{cut_event, Cut, has_directions};
ghost use Rattle.aio_modes.specs.Raw.{RawDid};
ghost use Rattle.std.proofs.lemmas.List.Filters.{FiltersInPlace};
ghost use Rattle.aio_modes.specs.OneShots.{Answered, SetsOne, SetsEach, keys_to_set};

use crate::interests::{common_of, has_some};
use crate::mode::Mode;
use crate::owed::KEYS;
use crate::raw::RawPoller;
use aio_base::{Event, Key};
use aio_script::InterestTable;

/// Makes the events from `start` on the answer of a wait, and answers how many are left.
pub(crate) fn answer_from<R: RawPoller>(
    raw: &mut R,
    armed: &mut InterestTable,
    out: &mut Vec<Event>,
    start: usize,
    room: u32,
) -> u32
    requires within { start ≤ length out.old.items }
    requires few { length out.old.items ≤ start + room }
    ensures answered { (before events : List Event) → out.old.items ≡ before ++ events
        → length before ≡ start
        → Answered (RawDid R.raw_step R.told R.mode_of R.fault_count R.is_sure)
        (R.mode_of raw.old) (interests_in armed.old) (interests_in armed.new)
        raw.old events raw.new before out.new.items result }
    ensures within { result ≤ room }
    ensures capacity { vec_capacity out.new ≡ vec_capacity out.old }
{
    let left = answer_events(raw, armed, &mut out[start..]);
    out.truncate(start + left);
    left as u32
}

/// Makes raw events the answer of a wait: each is cut to what is armed, the keys that are given
/// become unarmed, in level and edge mode the raw poller is set to what is armed, and the events
/// that name a direction come to the front. It answers how many these are.
fn answer_events<R: RawPoller>(
    raw: &mut R,
    armed: &mut InterestTable,
    events: &mut [Event],
) -> usize
    ensures front { take result events.new ≡ Cut events.old (interests_in armed.old) }
    ensures within { result ≤ length events.old }
    ensures size { length events.new ≡ length events.old }
    ensures armed { interests_in armed.new ≡ clear_interests
        (Cut events.old (interests_in armed.old)) (interests_in armed.old) }
    ensures sets { SetsEach (RawDid R.raw_step R.told R.mode_of R.fault_count R.is_sure)
        (interests_in armed.new) raw.old
        (keys_to_set (R.mode_of raw.old) events.old) raw.new }
{
    cut_all(events, armed);
    unarm(armed, events);
    set_again(raw, armed, events);
    keep_cut(events)
}

/// Cuts each event to what is armed.
fn cut_all(events: &mut [Event], armed: &InterestTable)
    ensures { events.new ≡ map (cut_event (interests_in armed.now)) events.old }
{
    for event in events {
        event.on = common_of(event.on, armed.get(event.key));
    }
}

/// Unarms the key of each event that names a direction.
fn unarm(armed: &mut InterestTable, events: &[Event])
    ensures { interests_in armed.new ≡ clear_interests
        (filter has_directions events.now) (interests_in armed.old) }
{
    for event in events {
        if has_some(event.on) {
            armed.disarm(&[*event]);
        }
    }
}

/// Sets the raw poller, in level and edge mode, to what is armed for the key of each event.
fn set_again<R: RawPoller>(raw: &mut R, armed: &InterestTable, events: &[Event])
    ensures { SetsEach (RawDid R.raw_step R.told R.mode_of R.fault_count R.is_sure)
        (interests_in armed.now) raw.old (keys_to_set (R.mode_of raw.old) events.now) raw.new }
{
    match raw.mode() {
        Mode::Level | Mode::Edge => set_each(raw, armed, events),
        Mode::EdgeOneshot => {}
    }
}

/// Sets the raw poller to what is armed for the key of each event.
fn set_each<R: RawPoller>(raw: &mut R, armed: &InterestTable, events: &[Event])
    ensures { SetsEach (RawDid R.raw_step R.told R.mode_of R.fault_count R.is_sure)
        (interests_in armed.now) raw.old (map (λ (event : Event). event.key) events.now) raw.new }
{
    for event in events {
        set_one(raw, armed, event.key);
    }
}

/// Sets the raw poller to what is armed for a key below 4,096; a failure is passed over.
fn set_one<R: RawPoller>(raw: &mut R, armed: &InterestTable, key: Key)
    ensures { SetsOne (RawDid R.raw_step R.told R.mode_of R.fault_count R.is_sure)
        (interests_in armed.now) raw.old key raw.new }
{
    if key.0 < KEYS {
        let _ = raw.set(key, armed.get(key));
    }
}

/// Moves the events that name a direction to the front, in order. It answers how many they are.
fn keep_cut(events: &mut [Event]) -> usize
    ensures front { take result events.new ≡ filter has_directions events.old }
    ensures within { result ≤ length events.old }
    ensures len { length events.new ≡ length events.old }
{
    let mut left = 0;
    for index in 0..events.len() {
        left = keep_one(events, left, index);
    }
    left
}

/// Moves the event at `index` behind the first `left`, where it names a direction. It answers how
/// many they are then.
fn keep_one(events: &mut [Event], left: usize, index: usize) -> usize
    requires bound { index < length events.old }
    requires behind { left ≤ index }
    ensures keeps { (all : List Event) → FiltersInPlace has_directions all events.old left index
        → FiltersInPlace has_directions all events.new result (index + 1) }
    ensures within { result ≤ index + 1 }
    ensures len { length events.new ≡ length events.old }
{
    let event = events[index];
    if !has_some(event.on) {
        return left;
    }
    events[left] = event;
    left + 1
}
