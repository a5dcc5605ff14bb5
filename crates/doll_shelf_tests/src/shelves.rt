//! A shelf in a few steps.

use doll_entry::{Ask, BlockId, Fetched, Fragment, Fresh, Miss};
use doll_key::{KeyText, Versions};
use doll_shelf::{MemShelf, Shelf, ShelfSettings};
use doll_text::{Bytes, Items, Memory};
use std::alloc::Global;
use std::hash::RandomState;
use std::test::Fail;

/// Settings under which nothing expires, is too old or too much.
const PLAIN: ShelfSettings = ShelfSettings {
    expires_in: None,
    race_ttl: 0,
    max_entries: None,
    max_size: None,
    max_age: None,
    batch: 2,
};

fn key(alloc: Global, key: &[u8]) -> Result<KeyText, Memory> {
    Ok(KeyText::from_vec(Vec::from_slice(alloc, key)?))
}

/// A fragment under a key with one version.
fn fresh(alloc: Global, name: &[u8], version: u64) -> Result<Fresh, Memory> {
    Ok(Fresh {
        key: key(alloc, name)?,
        versions: Versions::from_slice(alloc, &[version])?,
        value: Fragment::new(alloc, Bytes::from_vec(Vec::from_slice(alloc, b"ab")?))?,
        vars: Items::new(alloc),
        block: BlockId {
            tree: 0,
            template: 0,
            block: 0,
        },
        origin: 0,
    })
}

/// Writes an entry of version 1 under a key.
fn write(alloc: Global, shelf: &mut MemShelf, name: &[u8], now: u64) -> bool {
    match fresh(alloc, name, 1) {
        Ok(fresh) => shelf.write(alloc, fresh, now).is_ok(),
        Err(Memory) => false,
    }
}

/// Why a question finds nothing, or none where it hits.
fn miss(
    alloc: Global,
    shelf: &mut MemShelf,
    name: &[u8],
    version: u64,
    now: u64,
) -> Result<Option<Miss>, Memory> {
    let key = key(alloc, name)?;
    let versions = Versions::from_slice(alloc, &[version])?;
    match shelf.fetch(alloc, &key, &versions, now) {
        Fetched::Hit(_) => Ok(None),
        Fetched::Miss(why) => Ok(Some(why)),
    }
}

/// Whether a question is answered so.
fn misses(
    alloc: Global,
    shelf: &mut MemShelf,
    question: (&[u8], u64, u64),
    expected: Option<Miss>,
) -> bool {
    let (name, version, now) = question;
    match miss(alloc, shelf, name, version, now) {
        Ok(found) => found == expected,
        Err(Memory) => false,
    }
}

#[test]
fn an_entry_in_its_race_window_is_moved_once(rt: HostRuntime) -> Result<(), Fail> {
    let alloc = rt.alloc();
    let mut shelf = MemShelf::new(
        ShelfSettings {
            expires_in: Some(99),
            race_ttl: 5,
            ..PLAIN
        },
        RandomState::new(&rt)?,
    );
    assert!(rt; write(alloc, &mut shelf, b"k", 1));
    assert!(rt; misses(alloc, &mut shelf, (b"k", 1, 105), Some(Miss::Bumped)));
    assert!(rt; misses(alloc, &mut shelf, (b"k", 1, 106), None));
    assert!(rt; misses(alloc, &mut shelf, (b"k", 2, 106), Some(Miss::Mismatch)));
    assert!(rt; misses(alloc, &mut shelf, (b"l", 1, 106), Some(Miss::Absent)));
    assert!(rt; misses(alloc, &mut shelf, (b"k", 1, 109), None));
    assert!(rt; misses(alloc, &mut shelf, (b"k", 1, 110), Some(Miss::Bumped)));
    Ok(())
}

#[test]
fn an_entry_past_its_race_window_goes(rt: HostRuntime) -> Result<(), Fail> {
    let alloc = rt.alloc();
    let mut shelf = MemShelf::new(
        ShelfSettings {
            expires_in: Some(99),
            race_ttl: 5,
            ..PLAIN
        },
        RandomState::new(&rt)?,
    );
    assert!(rt; write(alloc, &mut shelf, b"k", 1));
    assert!(rt; misses(alloc, &mut shelf, (b"k", 1, 106), Some(Miss::Dead)));
    assert!(rt; misses(alloc, &mut shelf, (b"k", 1, 106), Some(Miss::Absent)));
    let mut shelf = MemShelf::new(
        ShelfSettings {
            expires_in: Some(99),
            ..PLAIN
        },
        RandomState::new(&rt)?,
    );
    assert!(rt; write(alloc, &mut shelf, b"k", 1));
    assert!(rt; misses(alloc, &mut shelf, (b"k", 1, 100), Some(Miss::Dead)));
    Ok(())
}

#[test]
fn a_full_batch_runs_before_a_write(rt: HostRuntime) -> Result<(), Fail> {
    let alloc = rt.alloc();
    let mut shelf = MemShelf::new(
        ShelfSettings {
            max_entries: Some(4),
            ..PLAIN
        },
        RandomState::new(&rt)?,
    );
    assert!(rt; write(alloc, &mut shelf, b"k1", 1));
    assert!(rt; write(alloc, &mut shelf, b"k2", 1));
    assert!(rt; write(alloc, &mut shelf, b"k3", 1));
    assert!(rt; write(alloc, &mut shelf, b"k1", 1));
    assert!(rt; write(alloc, &mut shelf, b"k4", 1));
    assert!(rt; write(alloc, &mut shelf, b"k5", 1));
    assert!(rt; shelf.len() == 5 && shelf.due());
    assert!(rt; write(alloc, &mut shelf, b"k6", 1));
    assert!(rt; shelf.len() == 4 && shelf.due());
    assert!(rt; misses(alloc, &mut shelf, (b"k2", 1, 1), Some(Miss::Absent)));
    assert!(rt; misses(alloc, &mut shelf, (b"k1", 1, 1), Some(Miss::Absent)));
    assert!(rt; misses(alloc, &mut shelf, (b"k3", 1, 1), None));
    assert!(rt; misses(alloc, &mut shelf, (b"k6", 1, 1), None));
    Ok(())
}

#[test]
fn a_batch_takes_the_first_where_sizes_are_too_much(rt: HostRuntime) -> Result<(), Fail> {
    let alloc = rt.alloc();
    let mut shelf = MemShelf::new(
        ShelfSettings {
            max_size: Some(10),
            ..PLAIN
        },
        RandomState::new(&rt)?,
    );
    assert!(rt; write(alloc, &mut shelf, b"k1", 1));
    assert!(rt; write(alloc, &mut shelf, b"k2", 1));
    assert!(rt; write(alloc, &mut shelf, b"k3", 1));
    assert!(rt; shelf.expire_batch(1) == 2);
    assert!(rt; misses(alloc, &mut shelf, (b"k3", 1, 1), None));
    Ok(())
}

#[test]
fn a_batch_takes_what_is_too_old(rt: HostRuntime) -> Result<(), Fail> {
    let alloc = rt.alloc();
    let mut shelf = MemShelf::new(
        ShelfSettings {
            max_age: Some(10),
            ..PLAIN
        },
        RandomState::new(&rt)?,
    );
    assert!(rt; write(alloc, &mut shelf, b"k", 1));
    assert!(rt; shelf.expire_batch(11) == 0);
    assert!(rt; shelf.expire_batch(12) == 1);
    Ok(())
}

#[test]
fn a_batch_is_due_at_half(rt: HostRuntime) -> Result<(), Fail> {
    let alloc = rt.alloc();
    let mut shelf = MemShelf::new(ShelfSettings { batch: 3, ..PLAIN }, RandomState::new(&rt)?);
    assert!(rt; write(alloc, &mut shelf, b"k1", 1));
    assert!(rt; !shelf.due());
    assert!(rt; write(alloc, &mut shelf, b"k2", 1));
    assert!(rt; shelf.due());
    Ok(())
}

/// A question for version 1 under a key.
fn ask(alloc: Global, name: &[u8]) -> Result<Ask, Memory> {
    Ok(Ask {
        key: key(alloc, name)?,
        versions: Versions::from_slice(alloc, &[1])?,
        block: BlockId {
            tree: 0,
            template: 0,
            block: 0,
        },
        vars: Items::new(alloc),
    })
}

#[test]
fn several_questions_are_all_answered_past_a_miss(rt: HostRuntime) -> Result<(), Fail> {
    let alloc = rt.alloc();
    let mut shelf = MemShelf::new(
        ShelfSettings {
            expires_in: Some(99),
            race_ttl: 5,
            ..PLAIN
        },
        RandomState::new(&rt)?,
    );
    assert!(rt; write(alloc, &mut shelf, b"a", 1));
    assert!(rt; write(alloc, &mut shelf, b"b", 50));
    let mut asks = Vec::new(alloc);
    for name in [b"l", b"a", b"b"] {
        asks.push(ask(alloc, name).ok().ok_or("no memory")?)?;
    }
    let found = shelf.read_multi(alloc, &asks, 101).ok().ok_or("no memory")?;
    assert!(rt; found.len() == 3);
    assert!(rt; matches!(found[0], Fetched::Miss(Miss::Absent)));
    assert!(rt; matches!(found[1], Fetched::Miss(Miss::Dead)));
    assert!(rt; matches!(found[2], Fetched::Hit(_)));
    assert!(rt; shelf.len() == 1);
    Ok(())
}
