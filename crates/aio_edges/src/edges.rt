//! Which edges of which sources came, which of their directions are armed, and which keys are due.

ghost use Rattle.std.specs.Prelude.{◌≡◌, ◌⊎◌, ◌+◌, ◌*◌, ◌/◌, ◌%◌, ◌<◌, ◌≤◌, vec_capacity};
ghost use Rattle.aio_base.specs.declared.names.TheConstants.Interest.{NONE};
ghost use Rattle.aio_edges.specs.Words.{owed_in};
ghost use Rattle.aio_edges.specs.Given.{AddsNamed};

use crate::due::{DueKeys, GROUP, GROUPS};
use crate::words::{
    ARMED, JOINED, armed_bits, edge_bit, edge_bits, is_unsure_in, owed_in, told_bits,
};
use aio_base::{Dir, Event, Interest, Key, OutOfMemory};
use std::alloc::Global;
use std::sync::atomic::{AtomicU64, Ordering};

/// As many keys as there are sources at once.
const KEYS: usize = 4_096;

/// Where the word of a key stands. Keys follow one another as sources join, and threads serve those of neighbours
/// at a time: so their words stand 512 bytes apart, and no thread waits for another's. No two keys have one place,
/// since a key is known by its place; a key beyond all sources has none.
fn place_of(key: Key) -> usize
    ensures own { key.0 < 4096 → result % 64 * 64 + result / 64 ≡ key.0 }
    ensures inside { key.0 < 4096 → result < 4096 }
    ensures outside { 4096 ≤ key.0 → 4096 ≤ result }
{
    let key = key.0 as usize;
    if key < KEYS {
        key % 64 * 64 + key / 64
    } else {
        key
    }
}

/// What is kept of 4,096 sources, each of which the system watches for all directions and tells of by edges. One
/// thread at a time makes calls of a source; one more tells edges and gives what is due.
///
/// An edge of a direction is kept until a call uses it up. A direction that is armed and has an edge is owed: it is
/// given at once where the edge came last, and else its key is due, and the next look gives it. To give a key takes
/// all that is armed of it. No clause says what a word holds, since other threads may change it at any moment.
#[derive(Drop)]
pub struct Edges {
    words: Vec<AtomicU64>,
    due: DueKeys,
}

impl Edges {
    /// No source has joined. `OutOfMemory` where memory ran out.
    pub fn new(alloc: Global) -> Result<Edges, OutOfMemory> {
        let Ok(mut words) = Vec::with_capacity(alloc, KEYS) else {
            return Err(OutOfMemory);
        };
        for _ in 0..KEYS {
            if words.push(AtomicU64::new(JOINED)).is_err() {
                return Err(OutOfMemory);
            }
        }
        Ok(Edges {
            words,
            due: DueKeys::new(alloc)?,
        })
    }

    /// The word of a key below 4,096.
    fn word(&self, key: Key) -> Option<&AtomicU64> {
        self.words.get(place_of(key))
    }

    /// A source joins under this key: each of its directions may be ready, and nothing is armed.
    pub fn join(&self, key: Key) {
        if let Some(word) = self.word(key) {
            word.store(JOINED, Ordering::SeqCst);
        }
    }

    /// These directions are armed from now on, and no other, of a source that the system is about to watch. Then it
    /// tells an edge of each direction that is ready, so that none of these is until then.
    pub fn expect(&self, key: Key, on: Interest) {
        if let Some(word) = self.word(key) {
            word.fetch_and(!(ARMED | edge_bits(on)), Ordering::SeqCst);
            word.fetch_or(armed_bits(on), Ordering::SeqCst);
        }
    }

    /// These directions are armed from now on, and no other. Whether the key is due by that: whoever waits must not
    /// sleep on.
    pub fn arm(&self, key: Key, on: Interest) -> bool {
        self.disarm(key);
        self.raise(key, armed_bits(on))
    }

    /// Nothing is armed from now on.
    pub fn disarm(&self, key: Key) {
        if let Some(word) = self.word(key) {
            word.fetch_and(!ARMED, Ordering::SeqCst);
        }
    }

    /// Whether a direction may be ready, which is asked once: then it is not, until an edge of it comes. A key
    /// beyond all sources and urgent readiness always are.
    pub fn take(&self, key: Key, dir: Dir) -> bool {
        let bit = edge_bit(dir);
        match self.word(key) {
            Some(word) if bit != 0 => word.fetch_and(!bit, Ordering::SeqCst) & bit != 0,
            _ => true,
        }
    }

    /// A direction may still be ready. Whether the key is due by that.
    pub fn keep(&self, key: Key, dir: Dir) -> bool {
        self.raise(key, edge_bit(dir))
    }

    /// Whether the system told an end, an error or urgent data of this source: a call that moved fewer bytes than it
    /// might have does not show that nothing is left.
    pub fn is_unsure(&self, key: Key) -> bool {
        match self.word(key) {
            Some(word) => is_unsure_in(word.load(Ordering::SeqCst)),
            None => false,
        }
    }

    /// The system told edges of these directions, and whether it told more than that (`is_unsure`). The directions
    /// that are given by it, maybe none; nothing of the key is armed then where some are.
    pub fn tell(&self, key: Key, on: Interest, unsure: bool) -> Interest {
        let Some(word) = self.word(key) else {
            return Interest::NONE;
        };
        let bits = told_bits(on, unsure);
        let found = word.fetch_or(bits, Ordering::SeqCst);
        self.give(key, word, found | bits)
    }

    /// Whether there may be keys that are due.
    pub fn has_due(&self) -> bool {
        self.due.has_any()
    }

    /// Gives the events of the keys that are due, in rising order, as far as the list has room. The others stay due.
    #[tactic(auto, using(crate::proofs::GivenLemmas::adds_none, crate::proofs::GivenLemmas::adds_then))]
    pub fn give_due(&self, out: &mut Vec<Event>)
        ensures added { AddsNamed out.old.items out.new.items }
        ensures capacity { vec_capacity out.old ≤ vec_capacity out.new }
    {
        if !self.due.take_any() {
            return;
        }
        for group in 0..GROUPS {
            if self.due.take_group(group) {
                self.give_group(group, out);
            }
        }
    }

    /// The same of a group of keys.
    #[tactic(auto, using(crate::proofs::GivenLemmas::adds_none, crate::proofs::GivenLemmas::adds_then))]
    fn give_group(&self, group: u32, out: &mut Vec<Event>)
        requires { group < 64 }
        ensures added { AddsNamed out.old.items out.new.items }
        ensures capacity { vec_capacity out.old ≤ vec_capacity out.new }
    {
        for place in 0..GROUP {
            let key = Key(group * GROUP + place);
            if self.due.take_key(key) {
                self.give_key(key, out);
            }
        }
    }

    /// The same of one key.
    fn give_key(&self, key: Key, out: &mut Vec<Event>)
        ensures added { AddsNamed out.old.items out.new.items }
        ensures capacity { vec_capacity out.old ≤ vec_capacity out.new }
    {
        if out.len() >= out.capacity() {
            self.due.put(key);
            return;
        }
        let on = self.look(key);
        if !on.is_none() {
            out.push_reserved(Event { key, on });
        }
    }

    /// Gives what is owed of a key by now.
    fn look(&self, key: Key) -> Interest {
        match self.word(key) {
            Some(word) => self.give(key, word, word.load(Ordering::SeqCst)),
            None => Interest::NONE,
        }
    }

    /// Gives what is owed by the word that was seen, by which nothing of the key is armed any longer. Where the word
    /// is another by now, it gives nothing, and the key is due.
    fn give(&self, key: Key, word: &AtomicU64, seen: u64) -> Interest
        ensures { (result ≡ NONE) ⊎ (result ≡ owed_in seen) }
    {
        let owed = owed_in(seen);
        if owed.is_none() {
            return Interest::NONE;
        }
        let left = seen & !ARMED;
        match word.compare_exchange(seen, left, Ordering::SeqCst, Ordering::SeqCst) {
            Ok(_) => owed,
            Err(_) => {
                self.due.put(key);
                Interest::NONE
            }
        }
    }

    /// Sets these bits of the word. Whether something is owed of it by then; the key is due in that case.
    fn raise(&self, key: Key, bits: u64) -> bool {
        let Some(word) = self.word(key) else {
            return false;
        };
        let found = word.fetch_or(bits, Ordering::SeqCst);
        let is_owed = !owed_in(found | bits).is_none();
        if is_owed {
            self.due.put(key);
        }
        is_owed
    }
}
