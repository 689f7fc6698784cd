//! What is owed by a raw poller in memory, and what is left once it is given.

ghost use Rattle.std.specs.Prelude.{◌≡◌, ℕ, ◌+◌, ◌-◌, ◌≤◌, List, vec_len, vec_capacity};
ghost use Rattle.aio_base.specs.declared.names.Event.{Event};
ghost use Rattle.aio_base.specs.Devices.{Interests, with_interest};
ghost use Rattle.aio_base.specs.World.{except};
ghost use Rattle.aio_script.specs.Interests.{interests_in};
ghost use Rattle.aio_modes.specs.Interests.{common};
ghost use Rattle.aio_modes.specs.Raw.{event_of, lessened};
ghost use Rattle.aio_modes.specs.Scripts.{GivesSoFar};

use crate::interests::{common_of, has_some};
use aio_base::{Event, Key};
use aio_script::InterestTable;

/// How many keys have an interest: one for each source that a reactor can hold.
pub(crate) const KEYS: u32 = 4096;

/// Puts at the end of `out` an event for each of the first `room` keys of which something is asked
/// for and there. It answers how many.
pub(crate) fn give_owed(
    on: &InterestTable,
    there: &InterestTable,
    out: &mut Vec<Event>,
    room: u32,
) -> u32
    requires { vec_len out.old + room ≤ vec_capacity out.old }
    ensures gives { GivesSoFar (λ key. common (interests_in on.now key) (interests_in there.now key))
        room out.old.items 4096 out.new.items result }
    ensures capacity { vec_capacity out.new ≡ vec_capacity out.old }
{
    let mut given: u32 = 0;
    for number in 0..KEYS {
        let key = Key(number);
        let owed = common_of(on.get(key), there.get(key));
        given = give_one(out, Event { key, on: owed }, given, room);
    }
    given
}

/// Puts an event at the end of `out` where it names a direction and there is room. It answers how
/// many were given then.
#[tactic(auto, using(crate::proofs::GivingLemmas::one_more_cut_off, crate::proofs::GivingLemmas::one_more_passed))]
fn give_one(out: &mut Vec<Event>, event: Event, given: u32, room: u32) -> u32
    requires fits { vec_len out.old + (room - given) ≤ vec_capacity out.old }
    ensures gives { (owed : Interests) (before : List Event) (n : ℕ) → event ≡ event_of owed n
        → GivesSoFar owed room before n out.old.items given
        → GivesSoFar owed room before (n + 1) out.new.items result }
    ensures room { vec_len out.new + given ≡ vec_len out.old + result }
    ensures within { given ≤ room → result ≤ room }
    ensures capacity { vec_capacity out.new ≡ vec_capacity out.old }
{
    if !has_some(event.on) {
        return given;
    }
    if given >= room {
        return given;
    }
    out.push_reserved(event);
    given + 1
}

/// Takes the directions of each event away.
pub(crate) fn lessen(edges: &mut InterestTable, events: &[Event])
    ensures { interests_in edges.new ≡ lessened events.now (interests_in edges.old) }
{
    for event in events {
        lessen_one(edges, *event);
    }
}

/// Takes the directions of an event away.
#[tactic(auto, using(crate::proofs::TableLemmas::lessened_past_end))]
fn lessen_one(edges: &mut InterestTable, event: Event)
    ensures { interests_in edges.new ≡ with_interest event.key.0
        (except (interests_in edges.old event.key.0) event.on) (interests_in edges.old) }
{
    let was = edges.get(event.key);
    if event.key.0 >= KEYS {
        return;
    }
    edges.set(event.key, was.except(event.on));
}
