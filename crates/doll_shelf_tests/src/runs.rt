//! A long run of a shelf beside a plain list of its entries.

ghost use Rattle.doll_shelf.specs.Settings.{AreValid};

use doll_entry::{Ask, BlockId, Fetched, Fragment, Fresh, Miss};
use doll_key::{KeyText, Versions};
use doll_shelf::{MemShelf, Shelf, ShelfSettings};
use doll_text::{Bytes, Items, Memory};
use std::alloc::Global;
use std::hash::RandomState;
use std::test::Fail;

const KEYS: u64 = 40;

const STEPS: u32 = 25_000;

const BLOCK: BlockId = BlockId {
    tree: 0,
    template: 0,
    block: 0,
};

/// Settings under which all rules play.
const ALL: ShelfSettings = ShelfSettings {
    expires_in: Some(60),
    race_ttl: 9,
    max_entries: Some(25),
    max_size: Some(180),
    max_age: Some(40),
    batch: 7,
};

const TOO_MANY: ShelfSettings = ShelfSettings {
    max_size: None,
    max_age: None,
    ..ALL
};

const TOO_LARGE: ShelfSettings = ShelfSettings {
    max_entries: None,
    max_age: None,
    ..ALL
};

/// Nothing expires.
const TOO_OLD: ShelfSettings = ShelfSettings {
    expires_in: None,
    max_entries: None,
    max_size: None,
    ..ALL
};

/// An entry of the list. Its key's text has two bytes, its fragment so many as its length.
#[derive(Clone, Copy)]
struct Plain {
    key: u8,
    version: u64,
    length: u64,
    written_at: u64,
    expires_at: Option<u64>,
}

/// A plain list of entries, with the count of writes.
#[derive(Drop)]
struct List {
    entries: Vec<Plain>,
    writes: u32,
}

fn place_of(entries: &[Plain], key: u8) -> Option<usize> {
    for place in 0..entries.len() {
        if entries[place].key == key {
            return Some(place);
        }
    }
    None
}

/// What is answered: the length of the fragment, or why there is none.
type Answer = Result<u64, Miss>;

fn answer_of(found: &Fetched) -> Answer {
    match found {
        Fetched::Hit(value) => Ok(value.get().as_slice().len() as u64),
        Fetched::Miss(why) => Err(*why),
    }
}

impl List {
    fn fetch(&mut self, key: u8, version: u64, now: u64, ttl: u64) -> Answer {
        let Some(place) = place_of(self.entries.as_slice(), key) else {
            return Err(Miss::Absent);
        };
        let Some(entry) = self.entries.get(place).copied() else {
            return Err(Miss::Failed);
        };
        let Some(since) = expired_since(entry.expires_at, now) else {
            return if entry.version == version {
                Ok(entry.length)
            } else {
                Err(Miss::Mismatch)
            };
        };
        if ttl > 0 && since <= ttl {
            self.put(Plain {
                expires_at: Some(now.wrapping_add(ttl)),
                ..entry
            });
            return Err(Miss::Bumped);
        }
        self.without(place);
        Err(Miss::Dead)
    }

    /// Puts an entry in the place of the one with its key, if there is one.
    fn put(&mut self, entry: Plain) -> bool {
        for place in 0..self.entries.len() {
            if self.entries[place].key == entry.key {
                self.entries[place] = entry;
                return true;
            }
        }
        false
    }

    fn without(&mut self, place: usize) {
        if place < self.entries.len() {
            self.entries.remove(place);
        }
    }

    fn write(&mut self, settings: &ShelfSettings, entry: Plain, now: u64) -> Result<(), Memory> {
        if self.writes == settings.batch {
            self.expire_batch(settings, now);
        }
        if !self.put(entry) {
            self.entries.push(entry)?;
        }
        self.writes = self.writes.wrapping_add(1);
        Ok(())
    }

    fn expire_batch(&mut self, settings: &ShelfSettings, now: u64) -> u32 {
        let over = exceeds(settings.max_entries, self.entries.len() as u64)
            || exceeds(settings.max_size, self.size());
        self.writes = 0;
        for gone in 0..settings.batch {
            let Some(first) = self.entries.first().copied() else {
                return gone;
            };
            let old = now > first.written_at
                && exceeds(settings.max_age, now.wrapping_sub(first.written_at));
            if !over && !old {
                return gone;
            }
            self.without(0);
        }
        settings.batch
    }

    fn size(&self) -> u64 {
        let mut size = 0u64;
        for entry in self.entries.as_slice() {
            size = size.wrapping_add(entry.length).wrapping_add(2);
        }
        size
    }
}

fn expired_since(expires_at: Option<u64>, now: u64) -> Option<u64> {
    match expires_at {
        Some(expiry) => now.checked_sub(expiry),
        None => None,
    }
}

fn exceeds(limit: Option<u64>, amount: u64) -> bool {
    match limit {
        Some(most) => amount > most,
        None => false,
    }
}

/// The next of a row of numbers that look random.
fn next(number: u64) -> u64 {
    number
        .wrapping_mul(6_364_136_223_846_793_005)
        .wrapping_add(1_442_695_040_888_963_407)
}

/// A number below a limit, drawn at a place of a number.
fn drawn(number: u64, place: u32, below: u64) -> u64 {
    if below == 0 || place > 60 {
        return 0;
    }
    (number >> place) % below
}

fn drawn_key(number: u64, place: u32) -> u8 {
    (drawn(number, place, KEYS) & 0xFF) as u8
}

fn key_text(alloc: Global, key: u8) -> Result<KeyText, Memory> {
    Ok(KeyText::from_vec(Vec::from_slice(alloc, &[key, 7])?))
}

fn ask(alloc: Global, key: u8, version: u64) -> Result<Ask, Memory> {
    Ok(Ask {
        key: key_text(alloc, key)?,
        versions: Versions::from_slice(alloc, &[version])?,
        block: BLOCK,
        vars: Items::new(alloc),
    })
}

fn fragment(alloc: Global, length: u64) -> Result<Fragment, Memory> {
    let mut bytes = Vec::new(alloc);
    for _ in 0..length {
        bytes.push(46)?;
    }
    Fragment::new(alloc, Bytes::from_vec(bytes))
}

fn fresh(alloc: Global, entry: &Plain) -> Result<Fresh, Memory> {
    Ok(Fresh {
        key: key_text(alloc, entry.key)?,
        versions: Versions::from_slice(alloc, &[entry.version])?,
        value: fragment(alloc, entry.length)?,
        vars: Items::new(alloc),
        block: BLOCK,
        origin: 0,
    })
}

/// One question to both; whether the answers are the same.
fn fetches_alike(
    alloc: Global,
    shelf: &mut MemShelf,
    list: &mut List,
    question: (u8, u64, u64),
    ttl: u64,
) -> Result<bool, Memory> {
    let (key, version, now) = question;
    let ask = ask(alloc, key, version)?;
    let found = shelf.fetch(alloc, &ask.key, &ask.versions, now);
    Ok(answer_of(&found) == list.fetch(key, version, now, ttl))
}

/// Two questions at once to both.
fn reads_alike(
    alloc: Global,
    shelf: &mut MemShelf,
    list: &mut List,
    keys: [u8; 2],
    now: u64,
) -> Result<bool, Memory> {
    let mut asks = Vec::new(alloc);
    for key in keys {
        asks.push(ask(alloc, key, 1)?)?;
    }
    let Ok(found) = shelf.read_multi(alloc, &asks, now) else {
        return Err(Memory);
    };
    for (key, one) in keys.into_iter().zip(found.as_slice()) {
        if answer_of(one) != list.fetch(key, 1, now, 0) {
            return Ok(false);
        }
    }
    Ok(found.len() == 2)
}

/// One step of both, by a number that was drawn.
fn steps_alike(
    alloc: Global,
    shelf: &mut MemShelf,
    list: &mut List,
    settings: &ShelfSettings,
    draw: (u64, u64),
) -> Result<bool, Memory> {
    let (number, now) = draw;
    let key = drawn_key(number, 32);
    let version = drawn(number, 40, 2);
    match drawn(number, 56, 16) {
        0 => Ok(shelf.expire_batch(now) == list.expire_batch(settings, now)),
        1 | 2 => reads_alike(alloc, shelf, list, [key, drawn_key(number, 44)], now),
        3..=8 => fetches_alike(alloc, shelf, list, (key, version, now), settings.race_ttl),
        _ => {
            let entry = Plain {
                key,
                version,
                length: drawn(number, 48, 9),
                written_at: now,
                expires_at: settings.expires_in.map(|after| now.wrapping_add(after)),
            };
            if shelf.write(alloc, fresh(alloc, &entry)?, now).is_err() {
                return Err(Memory);
            }
            list.write(settings, entry, now)?;
            Ok(true)
        }
    }
}

/// Whether a shelf and a plain list do the same in a long run.
fn runs_alike(alloc: Global, settings: ShelfSettings, keys: RandomState) -> Result<bool, Memory>
    requires { AreValid settings }
{
    let mut shelf = MemShelf::new(settings, keys);
    let mut list = List {
        entries: Vec::new(alloc),
        writes: 0,
    };
    let mut number = 7u64;
    let mut now = 1u64;
    for _ in 0..STEPS {
        number = next(number);
        now = now.wrapping_add(drawn(number, 50, 3));
        if !steps_alike(alloc, &mut shelf, &mut list, &settings, (number, now))? {
            return Ok(false);
        }
        if shelf.len() != list.entries.len() {
            return Ok(false);
        }
    }
    Ok(true)
}

#[test]
fn a_long_run_is_that_of_a_plain_list(rt: HostRuntime) -> Result<(), Fail> {
    let alloc = rt.alloc();
    let alike = runs_alike(alloc, ALL, RandomState::new(&rt)?);
    assert!(rt; alike.ok().ok_or("no memory")?);
    let alike = runs_alike(alloc, TOO_MANY, RandomState::new(&rt)?);
    assert!(rt; alike.ok().ok_or("no memory")?);
    let alike = runs_alike(alloc, TOO_LARGE, RandomState::new(&rt)?);
    assert!(rt; alike.ok().ok_or("no memory")?);
    let alike = runs_alike(alloc, TOO_OLD, RandomState::new(&rt)?);
    assert!(rt; alike.ok().ok_or("no memory")?);
    Ok(())
}
