//! Things under keys, each at the place of its key.

ghost use Rattle.std.specs.Prelude.{◌≡◌, ◌<◌, ◌≤◌, [], None, is_some, IfOk, IfSome, length, option_copied, slice_set, vec_capacity, vec_len};
ghost use Rattle.std.specs.Option.{option_copied_mut};
ghost use Rattle.std.specs.Borrow.{sem};
ghost use Rattle.aio_source.specs.KeyTables.{at_key, least_free, put_at};
ghost use Rattle.aio_source.specs.TableLending.{lends_at};

use aio_base::{Key, OutOfMemory};
use std::alloc::Global;
use std::marker::Model;

/// How many keys there are.
const KEY_LIMIT: usize = 4096;

/// A table of things under keys below 4,096, with room for all of them from the start. A new thing gets
/// the least free key, so the table takes no memory later.
///
/// Contracts see a place for each key that was ever given, with what stands there.
#[derive(Drop)]
pub struct KeyTable<T> {
    places: Vec<Option<T>>,
    /// Every key below this one is taken.
    first_free: usize,
}

impl<T> Model for KeyTable<T> {
    ghost use Rattle.std.specs.Prelude.{List, Option, ◌≤◌, vec_capacity, vec_len};
    ghost use Rattle.aio_source.specs.KeyTables.{least_free};

    ghost Value = { List (Option T) };

    ghost view = { λ t. t.places.items };

    ghost invariant = { λ t. (vec_len t.places ≤ 4096) × (4096 ≤ vec_capacity t.places)
        × (t.first_free ≤ least_free t.places.items) };
}

impl<T> KeyTable<T> {
    /// A table with nothing in it. `OutOfMemory` where there is no room for 4,096 things.
    pub fn new(alloc: Global) -> Result<KeyTable<T>, OutOfMemory>
        ensures { IfOk result (λ table. table ≡ []) }
    {
        let Ok(places) = Vec::with_capacity(alloc, KEY_LIMIT) else {
            return Err(OutOfMemory);
        };
        Ok(KeyTable {
            places,
            first_free: 0,
        })
    }

    /// The least key at which nothing is. `None` exactly where all are taken.
    #[inline(always)]
    pub fn free_key(&self) -> Option<Key>
        ensures least { IfSome result (λ key. key.0 ≡ least_free self.now) }
        ensures bound { IfSome result (λ key. key.0 < 4096) }
        ensures full { result ≡ None → 4096 ≤ least_free self.now }
        ensures few { length self.now ≤ 4096 }
    {
        let at = first_free_place(self.places.as_slice(), self.first_free);
        if at < KEY_LIMIT {
            Some(Key(at as u32))
        } else {
            None
        }
    }

    /// What is at a key.
    #[inline(always)]
    pub fn get(&self, key: Key) -> Option<&T>
        ensures value { option_copied result ≡ at_key self.now key.0 }
        ensures few { length self.now ≤ 4096 }
    {
        let at = key.0 as usize;
        if at >= self.places.len() {
            return None;
        }
        self.places[at].as_ref()
    }

    /// Whether something is at a key.
    #[inline(always)]
    pub fn is_taken(&self, key: Key) -> bool
        ensures { result ≡ is_some (at_key self.now key.0) }
    {
        self.get(key).is_some()
    }

    /// What is at a key, to be changed.
    #[inline(always)]
    pub fn get_mut(&mut self, key: Key) -> Option<&mut T>
        ensures* writes_back { sem 𝓛 (lends_at T.row self.entry key.0 result) }
        ensures value { option_copied_mut result ≡ at_key self.old key.0 }
        ensures few { length self.old ≤ 4096 }
    {
        if key.0 as usize >= self.places.len() {
            return None;
        }
        self.given_mut(key)
    }

    /// What is at a key that was given once, to be changed.
    #[inline(always)]
    pub fn given_mut(&mut self, key: Key) -> Option<&mut T>
        requires { key.0 < length self.old }
        ensures* writes_back { sem 𝓛 (lends_at T.row self.entry key.0 result) }
        ensures value { option_copied_mut result ≡ at_key self.old key.0 }
        ensures few { length self.old ≤ 4096 }
    {
        self.places[key.0 as usize].as_mut()
    }
}

impl<T: Drop> KeyTable<T> {
    /// Puts a thing at the least free key.
    #[inline(always)]
    pub fn put(&mut self, key: Key, x: T)
        requires free { key.0 ≡ least_free self.old }
        requires bound { key.0 < 4096 }
        ensures { self.new ≡ put_at self.old key.0 x }
    {
        let at = key.0 as usize;
        fill_place(&mut self.places, at, x);
        self.first_free = at + 1;
    }

    /// Lets what is at a key go, where there is something.
    #[inline(always)]
    pub fn clear(&mut self, key: Key)
        ensures { self.new ≡ slice_set self.old key.0 None }
    {
        let at = key.0 as usize;
        if at < self.places.len() {
            self.places[at] = None;
            self.first_free = self.first_free.min(at);
        }
    }
}

/// The first place with nothing in it, or the end, where each place before `from` has something.
fn first_free_place<T>(places: &[Option<T>], from: usize) -> usize
    requires { from ≤ least_free places.now }
    ensures { result ≡ least_free places.now }
{
    for place in from..places.len() {
        if places[place].is_none() {
            return place;
        }
    }
    places.len()
}

/// Puts a thing at a place, which may be the first past the end.
#[inline(always)]
fn fill_place<T: Drop>(places: &mut Vec<Option<T>>, at: usize, x: T)
    requires within { at ≤ vec_len places.old }
    requires room { at < vec_capacity places.old }
    ensures items { places.new.items ≡ put_at places.old.items at x }
    ensures capacity { vec_capacity places.old ≤ vec_capacity places.new }
{
    if at < places.len() {
        places[at] = Some(x);
    } else {
        places.push_reserved(Some(x));
    }
}
