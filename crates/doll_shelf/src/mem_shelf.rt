//! A shelf in memory.

ghost use Rattle.std.specs.Prelude.{◌≡◌, ◌+◌, ◌<◌, [], length, IfErr, OnOk, OnErr, Some, min};
ghost use Rattle.doll_shelf.specs.Batches as batch;
ghost use Rattle.doll_shelf.specs.Calls.{IsShelf};
ghost use Rattle.doll_shelf.specs.Fetches as spec;
ghost use Rattle.doll_shelf.specs.Settings.{AreValid};
ghost use Rattle.doll_shelf.specs.declared.shelf.ShelfFault.TheVariants.{Memory as NoMemory};

use crate::entries::Entries;
use crate::kept::kept_of;
use crate::settings::ShelfSettings;
use crate::shelf::{Shelf, ShelfFault};
use doll_entry::{Ask, Fetched, Fresh, counted_time};
use doll_key::{KeyText, Versions};
use std::alloc::Global;
use std::hash::RandomState;
use std::marker::Model;

/// A shelf over a hashed map in order, which tells its entries and never fails.
#[derive(Drop)]
pub struct MemShelf {
    settings: ShelfSettings,
    entries: Entries,
    writes: u32,
}

impl Model for MemShelf {
    ghost use Rattle.doll_shelf.specs.Calls.{IsSound, Shelved};

    ghost Value = { Shelved };

    ghost view = { λ s. record { settings = s.settings; entries = s.entries; writes = s.writes } };

    ghost invariant = { λ s. IsSound (record { settings = s.settings; entries = s.entries; writes = s.writes }) };
}

impl MemShelf {
    /// A shelf with these settings and no entries, for keys that are hashed with these. Takes no memory.
    pub fn new(settings: ShelfSettings, keys: RandomState) -> MemShelf
        requires { AreValid settings }
        ensures { result ≡ record { settings = settings; entries = []; writes = 0 } }
    {
        MemShelf {
            settings,
            entries: Entries::new(keys),
            writes: 0,
        }
    }

    /// How many entries there are.
    pub fn len(&self) -> usize
        ensures value { result ≡ length self.now.entries }
        ensures shelf { IsShelf self.now }
    {
        self.entries.len()
    }
}

impl Shelf for MemShelf {
    ghost settings = { λ s. s.settings };

    ghost entries = { λ s. Some s.entries };

    ghost writes = { λ s. s.writes };

    ghost faults = { λ _. 0 };

    fn fetch(&mut self, alloc: Global, key: &KeyText, versions: &Versions, now: u64) -> Fetched
        ensures found { spec.Fetches
            (spec.fetched key.now versions.now now self.old.settings.race_ttl self.old.entries)
            result self.old.entries self.new.entries }
        ensures tells { spec.HitsOrTells
            (spec.fetched key.now versions.now now self.old.settings.race_ttl self.old.entries).0
            result }
        ensures writes { self.new.writes ≡ self.old.writes }
        ensures settings { self.new.settings ≡ self.old.settings }
    {
        let ttl = self.settings.race_ttl;
        self.entries.fetch(alloc, key, versions, now, ttl)
    }

    fn read_multi(
        &mut self,
        alloc: Global,
        asks: &[Ask],
        now: u64,
    ) -> Result<Vec<Fetched>, ShelfFault> {
        Ok(self.entries.fetch_all(alloc, asks, now)?)
    }

    fn write(&mut self, alloc: Global, fresh: Fresh, now: u64) -> Result<(), ShelfFault>
        ensures written { OnOk result (self.new.entries
            ≡ batch.after_write self.old.settings self.old.writes fresh now self.old.entries) }
        ensures writes { OnOk result (self.new.writes
            ≡ batch.ready_writes self.old.settings self.old.writes + 1) }
        ensures refused { OnErr result (self.new.entries
            ≡ batch.ready_entries self.old.settings self.old.writes now self.old.entries) }
        ensures refused_writes { OnErr result (self.new.writes
            ≡ batch.ready_writes self.old.settings self.old.writes) }
        ensures memory { IfErr result (λ fault. fault ≡ NoMemory) }
        ensures settings { self.new.settings ≡ self.old.settings }
    {
        self.make_ready(now);
        let (key, kept) = kept_of(fresh, &self.settings, now);
        self.entries.put(alloc, key, kept)?;
        self.writes += 1;
        Ok(())
    }

    fn expire_batch(&mut self, now: u64) -> u32
        ensures removed { result ≡ batch.removed_count self.old.settings now self.old.entries }
        ensures left { self.new.entries ≡ batch.after_batch self.old.settings now self.old.entries }
        ensures writes { self.new.writes ≡ 0 }
        ensures settings { self.new.settings ≡ self.old.settings }
    {
        let count = remove_batch(&self.settings, &mut self.entries, now);
        self.writes = 0;
        count
    }

    fn due(&self) -> bool
        ensures { result ≡ batch.is_due self.now.settings self.now.writes }
    {
        2 * self.writes >= self.settings.batch
    }
}

impl MemShelf {
    /// Runs a batch where one is full.
    fn make_ready(&mut self, now: u64)
        ensures entries { self.new.entries
            ≡ batch.ready_entries self.old.settings self.old.writes now self.old.entries }
        ensures writes { self.new.writes ≡ batch.ready_writes self.old.settings self.old.writes }
        ensures room { self.new.writes < self.new.settings.batch }
        ensures settings { self.new.settings ≡ self.old.settings }
    {
        if self.writes == self.settings.batch {
            self.expire_batch(now);
        }
    }
}

/// Removes a batch from the front, and says how many went.
fn remove_batch(settings: &ShelfSettings, entries: &mut Entries, now: u64) -> u32
    ensures removed { result ≡ batch.removed_count settings.now now entries.old }
    ensures left { entries.new ≡ batch.after_batch settings.now now entries.old }
{
    if are_over(settings, entries) {
        let count = fewer(settings.batch, entries.len());
        entries.remove_first(count);
        return count;
    }
    entries.remove_older(settings.batch, settings.max_age, counted_time(now))
}

/// The lesser of two numbers, of which the first has 32 bits.
fn fewer(most: u32, count: usize) -> u32
    ensures { result ≡ min most count }
{
    if (most as usize) < count {
        most
    } else {
        count as u32
    }
}

/// Whether entries are too many or too large.
fn are_over(settings: &ShelfSettings, entries: &Entries) -> bool
    ensures { result ≡ batch.are_over settings.now entries.now }
{
    if exceeds(settings.max_entries, entries.len() as u64) {
        return true;
    }
    exceeds(settings.max_size, entries.size())
}

/// Whether an amount is above a limit; one that isn't set is never passed.
fn exceeds(limit: Option<u64>, amount: u64) -> bool
    ensures { result ≡ batch.exceeds limit amount }
{
    match limit {
        Some(most) => amount > most,
        None => false,
    }
}
