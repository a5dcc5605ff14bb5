//! Entries in order, found by their keys.

ghost use Rattle.std.specs.Prelude.{◌≡◌, ◌+◌, ◌^◌, ◌<◌, ◌≤◌, [], length, take, drop, remove, slice_get, false, IfOk, OnOk, OnErr};
ghost use Rattle.std.specs.Option.{option_map_or};
ghost use Rattle.std.specs.List.{prefix_len};
ghost use Rattle.doll_entry.specs.declared.judging.TheConstants.{LATEST_TIME};
ghost use Rattle.doll_shelf.specs.Batches.{is_older};
ghost use Rattle.doll_shelf.specs.Calls.{AreDistinct};
ghost use Rattle.doll_shelf.specs.Entries as spec;
ghost use Rattle.doll_shelf.specs.Fetches.{Fetches, HitsOrTells, ReadsAll, any_failed, fetched};
ghost use Rattle.doll_shelf.specs.Kept.{entry_kept};
ghost use Rattle.doll_shelf.specs.Shares.{Shares};

use crate::kept::{Kept, is_past, size_kept, size_under};
use crate::queue::Queue;
use doll_entry::{Ask, Fetched, Fragment, Judged, Miss, counted_time, judge_kept};
use doll_key::{KeyText, Versions};
use doll_text::{Copied, Memory};
use std::alloc::Global;
use std::hash::RandomState;
use std::marker::Model;

/// Entries with distinct keys, which contracts see as their list.
#[derive(Drop)]
pub struct Entries {
    queue: Queue,
    /// The sum of their sizes.
    size: u64,
}

impl Model for Entries {
    ghost use Rattle.std.specs.Prelude.{◌≡◌, List};
    ghost use Rattle.doll_entry.specs.declared.entry.Entry.{Entry};
    ghost use Rattle.doll_shelf.specs.Entries.{total_size};
    ghost use Rattle.doll_shelf.specs.Kept.{entries_of};

    ghost Value = { List Entry };

    ghost view = { λ e. entries_of e.queue };

    ghost invariant = { λ e. e.size ≡ total_size (entries_of e.queue) };
}

impl Entries {
    /// No entries, for keys that are hashed with these. Takes no memory.
    pub fn new(keys: RandomState) -> Entries
        ensures { result ≡ [] }
    {
        Entries {
            queue: Queue::new(keys),
            size: 0,
        }
    }

    /// How many there are.
    pub fn len(&self) -> usize
        ensures value { result ≡ length self.now }
        ensures small { result < 2 ^ 63 }
        ensures distinct { AreDistinct self.now }
    {
        self.queue.len()
    }

    /// The sum of their sizes, in bytes.
    pub fn size(&self) -> u64
        ensures { result ≡ spec.total_size self.now }
    {
        self.size
    }

    /// The fragment under a key where it has these versions; an entry that has expired may stay for `ttl` microseconds.
    pub fn fetch(
        &mut self,
        alloc: Global,
        key: &KeyText,
        versions: &Versions,
        now: u64,
        ttl: u64,
    ) -> Fetched
        requires { ttl ≤ LATEST_TIME }
        ensures found { Fetches (fetched key.now versions.now now ttl self.old)
            result self.old self.new }
        ensures tells { HitsOrTells (fetched key.now versions.now now ttl self.old).0 result }
        ensures fewer { length self.new ≤ length self.old }
    {
        let Some(kept) = self.queue.get(key) else {
            return Fetched::Miss(Miss::Absent);
        };
        match judge_kept(&kept.versions, kept.expires_at, versions, now, ttl) {
            Judged::Live => shared(alloc, &kept.value),
            Judged::Mismatch => Fetched::Miss(Miss::Mismatch),
            Judged::Bump => {
                self.queue.move_expiry(key, counted_time(now) + ttl);
                Fetched::Miss(Miss::Bumped)
            }
            Judged::Dead => {
                self.remove(key);
                Fetched::Miss(Miss::Dead)
            }
        }
    }

    /// Asks for several fragments in turn. A refusal changes nothing.
    pub fn fetch_all(
        &mut self,
        alloc: Global,
        asks: &[Ask],
        now: u64,
    ) -> Result<Vec<Fetched>, Memory>
        ensures found { IfOk result (λ found. ReadsAll asks.now now found.items self.old self.new) }
        ensures failed { IfOk result (λ found. any_failed found.items ≡ false) }
        ensures same { OnErr result (self.new ≡ self.old) }
        ensures fewer { length self.new ≤ length self.old }
    {
        let mut found = Vec::with_capacity(alloc, asks.len())?;
        for ask in asks {
            let one = self.fetch(alloc, &ask.key, &ask.versions, now, 0);
            found.push(one).unwrap();
        }
        Ok(found)
    }

    /// Removes the entry under a key.
    fn remove(&mut self, key: &KeyText)
        ensures { self.new ≡ option_map_or (remove self.old)
            (spec.place_of key.now self.old) self.old }
    {
        if let Some((key, kept)) = self.queue.remove(key) {
            self.size -= size_kept(&key, &kept);
        }
    }

    /// Keeps an entry in the place of the one under its key, else last. A refusal changes nothing.
    pub fn put(&mut self, alloc: Global, key: KeyText, kept: Kept) -> Result<(), Memory>
        ensures ok { OnOk result (self.new ≡ spec.put (entry_kept (key, kept)) self.old) }
        ensures err { OnErr result (self.new ≡ self.old) }
        ensures more { length self.new ≤ length self.old + 1 }
    {
        let size = size_kept(&key, &kept);
        match size_under(&self.queue, &key) {
            Some(old) => {
                self.size = sum(self.size - old, size)?;
                self.queue.replace(&key, kept);
            }
            None => {
                let size = sum(self.size, size)?;
                self.queue.push(alloc, key, kept)?;
                self.size = size;
            }
        }
        Ok(())
    }

    /// Removes so many of the first entries.
    pub fn remove_first(&mut self, count: u32)
        ensures { self.new ≡ drop count self.old }
    {
        for _ in 0..count {
            self.pop();
        }
    }

    /// Removes those at the front, of the first `most`, that are older than an age at a time, and says how many went.
    pub fn remove_older(&mut self, most: u32, age: Option<u64>, time: u64) -> u32
        ensures count { result ≡ prefix_len (is_older age time) (take most self.old) }
        ensures left { self.new ≡ drop result self.old }
    {
        for count in 0..most {
            if !self.begins_older(age, time) {
                return count;
            }
            self.pop();
        }
        most
    }

    /// Removes the first entry.
    fn pop(&mut self)
        ensures { self.new ≡ drop 1 self.old }
    {
        if let Some((key, kept)) = self.queue.pop() {
            self.size -= size_kept(&key, &kept);
        }
    }

    /// Whether the first entry is older than an age at a time; not where there is none.
    fn begins_older(&self, age: Option<u64>, time: u64) -> bool
        ensures { result ≡ option_map_or (is_older age time) (slice_get self.now 0) false }
    {
        match self.queue.first() {
            Some((_, kept)) => is_past(kept.written_at, age, time),
            None => false,
        }
    }
}

/// The sum of two sizes. Sizes are of bytes in memory, so a sum that doesn't fit is one for which there is none.
fn sum(sizes: u64, size: u64) -> Result<u64, Memory>
    ensures { IfOk result (λ sum. sum ≡ sizes + size) }
{
    match sizes.checked_add(size) {
        Some(sum) => Ok(sum),
        None => Err(Memory),
    }
}

/// A fragment as an answer, which shares its bytes.
fn shared(alloc: Global, value: &Fragment) -> Fetched
    ensures { Shares value.now result }
{
    match value.copy(alloc) {
        Ok(value) => Fetched::Hit(value),
        Err(Memory) => Fetched::Miss(Miss::Memory),
    }
}
