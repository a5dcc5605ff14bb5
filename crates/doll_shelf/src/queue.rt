//! Pairs of a key and a value in the order in which the keys came.

ghost use Rattle.std.specs.Prelude.{◌≡◌, ◌∷◌, ◌++◌, ◌^◌, ◌<◌, [], None, Some, length, drop, slice_get, option_map, option_copied, IfOk, OnOk, OnErr};
ghost use Rattle.std.specs.List.{IsDistinct};
ghost use Rattle.std.specs.Map.{keys_of, lookup, lookup_entry, remove_entry, set_value};
ghost use Rattle.std.specs.Map.Iter.{deref_pair};
ghost use Rattle.std.specs.Option.{option_map_or};
ghost use Rattle.std.specs.Str.{bytes_eq};
ghost use Rattle.doll_shelf.specs.Queue.{IsEndless, kept_until, queued};

use crate::kept::Kept;
use doll_key::KeyText;
use doll_text::Memory;
use lru::LruCache;
use std::alloc::Global;
use std::hash::RandomState;
use std::marker::Model;

type Map = LruCache<KeyText, Kept, RandomState>;

/// Pairs with distinct keys, which contracts see as their list, the oldest first. A value that is replaced keeps its place.
#[derive(Drop)]
pub struct Queue {
    keys: RandomState,
    /// The newest first: a use never moves a pair. There is no map before the first pair, so that an empty queue takes no memory.
    map: Option<Map>,
}

impl Model for Queue {
    ghost use Rattle.std.specs.Prelude.{List, ℕ};
    ghost use Rattle.std.specs.List.{IsDistinct};
    ghost use Rattle.std.specs.Map.{keys_of};
    ghost use Rattle.std.specs.Str.{bytes_eq};
    ghost use Rattle.doll_shelf.specs.Queue.{IsEndless, queued};
    ghost use Rattle.doll_shelf.specs.declared.kept.Kept.{Kept};

    ghost Value = { List (List ℕ × Kept) };

    ghost view = { λ q. queued q.map };

    ghost invariant = { λ q. IsEndless q.map × IsDistinct bytes_eq (keys_of (queued q.map)) };
}

impl Queue {
    /// No pairs, for keys that are hashed with these. Takes no memory.
    pub fn new(keys: RandomState) -> Queue
        ensures { result ≡ [] }
    {
        Queue { keys, map: None }
    }

    /// How many there are.
    pub fn len(&self) -> usize
        ensures value { result ≡ length self.now }
        ensures small { result < 2 ^ 63 }
        ensures distinct { IsDistinct bytes_eq (keys_of self.now) }
    {
        match &self.map {
            Some(map) => map.len(),
            None => 0,
        }
    }

    /// The value under a key.
    pub fn get(&self, key: &KeyText) -> Option<&Kept>
        ensures { option_copied result ≡ lookup (bytes_eq key.now) self.now }
    {
        match &self.map {
            Some(map) => map.peek(key),
            None => None,
        }
    }

    /// The oldest pair.
    pub fn first(&self) -> Option<(&KeyText, &Kept)>
        ensures { option_map deref_pair result ≡ slice_get self.now 0 }
    {
        match &self.map {
            Some(map) => map.peek_lru(),
            None => None,
        }
    }

    /// Moves the expiry of the value under a key.
    pub fn move_expiry(&mut self, key: &KeyText, expiry: u64)
        ensures { self.new ≡ option_map_or
            (λ kept. set_value (bytes_eq key.now) self.old (kept_until expiry kept))
            (lookup (bytes_eq key.now) self.old) self.old }
    {
        let Some(map) = &mut self.map else {
            return;
        };
        let Some(kept) = map.peek_mut(key) else {
            return;
        };
        kept.expires_at = Some(expiry);
    }

    /// Replaces the value under a key.
    pub fn replace(&mut self, key: &KeyText, kept: Kept)
        ensures { self.new ≡ set_value (bytes_eq key.now) self.old kept }
    {
        let Some(map) = &mut self.map else {
            return;
        };
        let Some(place) = map.peek_mut(key) else {
            return;
        };
        *place = kept;
    }

    /// Adds a pair whose key is new behind all others. A refusal changes nothing.
    pub fn push(&mut self, alloc: Global, key: KeyText, kept: Kept) -> Result<(), Memory>
        requires { lookup (bytes_eq key) self.old ≡ None }
        ensures ok { OnOk result (self.new ≡ self.old ++ (key, kept) ∷ []) }
        ensures err { OnErr result (self.new ≡ self.old) }
    {
        let mut map = self.take_map(alloc)?;
        // A map that is full would push its oldest pair out.
        let count = map.len();
        prove!(count < usize::MAX);
        let added = map.put(key, kept);
        self.map = Some(map);
        added?;
        Ok(())
    }

    /// Takes the map out, or makes one. A refusal changes nothing.
    fn take_map(&mut self, alloc: Global) -> Result<Map, Memory>
        ensures taken { IfOk result (λ map. queued (Some map) ≡ self.old) }
        ensures endless { IfOk result (λ map. IsEndless (Some map)) }
        ensures distinct { OnOk result (IsDistinct bytes_eq (keys_of self.old)) }
        ensures err { OnErr result (self.new ≡ self.old) }
    {
        match self.map.take() {
            Some(map) => Ok(map),
            None => Ok(LruCache::unbounded_with_hasher(alloc, self.keys)?),
        }
    }

    /// Removes the pair under a key.
    pub fn remove(&mut self, key: &KeyText) -> Option<(KeyText, Kept)>
        ensures value { result ≡ lookup_entry (bytes_eq key.now) self.old }
        ensures left { self.new ≡ remove_entry (bytes_eq key.now) self.old }
    {
        let Some(map) = &mut self.map else {
            return None;
        };
        map.pop_entry(key)
    }

    /// Removes the oldest pair.
    pub fn pop(&mut self) -> Option<(KeyText, Kept)>
        ensures value { result ≡ slice_get self.old 0 }
        ensures left { self.new ≡ drop 1 self.old }
    {
        let Some(map) = &mut self.map else {
            return None;
        };
        map.pop_lru()
    }
}
