//! Worlds in a few steps.

ghost use Rattle.std.specs.Prelude.{◌≡◌, [], IfSome};

use crate::site::{checked, copied, creation, records, schema};
use crate::untold::Untold;
use doll_entry::{Ask, BlockId, Fetched, Fragment, Fresh, Miss};
use doll_keep::MemKeeper;
use doll_key::{KeyText, Versions};
use doll_shelf::{MemShelf, Shelf, ShelfSettings};
use doll_text::{Bytes, Items, Memory, Shared};
use doll_world::World;
use std::alloc::Global;
use std::hash::RandomState;
use std::test::Fail;

/// Entries expire, and a batch has two of them.
const SETTINGS: ShelfSettings = ShelfSettings {
    expires_in: Some(100),
    race_ttl: 5,
    max_entries: Some(1),
    max_size: None,
    max_age: None,
    batch: 2,
};

/// A world of the site over a shelf without entries.
fn world<H: Shelf + Drop>(alloc: Global, shelf: H) -> Option<World<MemKeeper, H>>
    requires { IfSome (H.entries shelf) (λ entries. entries ≡ []) }
{
    let schema = schema(alloc)?;
    let records = records(alloc, copied(alloc, &schema)?)?;
    let checked = checked(alloc, schema)?;
    match Shared::new(alloc, checked) {
        Ok(checked) => Some(World::open(records, shelf, checked)),
        Err(_) => None,
    }
}

fn key(alloc: Global, name: &[u8]) -> Result<KeyText, Memory> {
    Ok(KeyText::from_vec(Vec::from_slice(alloc, name)?))
}

const BLOCK: BlockId = BlockId {
    tree: 0,
    template: 0,
    block: 0,
};

fn ask(alloc: Global, name: &[u8], version: u64) -> Result<Ask, Memory> {
    Ok(Ask {
        key: key(alloc, name)?,
        versions: Versions::from_slice(alloc, &[version])?,
        block: BLOCK,
        vars: Items::new(alloc),
    })
}

fn fresh(alloc: Global, name: &[u8], version: u64) -> Result<Fresh, Memory> {
    Ok(Fresh {
        key: key(alloc, name)?,
        versions: Versions::from_slice(alloc, &[version])?,
        value: Fragment::new(alloc, Bytes::from_vec(Vec::from_slice(alloc, b"Chess")?))?,
        vars: Items::new(alloc),
        block: BLOCK,
        origin: 0,
    })
}

/// Whether a question is answered so, where none is a hit.
fn reads<H: Shelf>(
    alloc: Global,
    world: &mut World<MemKeeper, H>,
    question: (&[u8], u64, u64),
    expected: Option<Miss>,
) -> bool {
    let (name, version, now) = question;
    let Ok(ask) = ask(alloc, name, version) else {
        return false;
    };
    match world.read(alloc, &ask, now) {
        Fetched::Hit(_) => expected.is_none(),
        Fetched::Miss(why) => expected == Some(why),
    }
}

/// Creates a product, and says how many commits there are then.
fn commit<H: Shelf>(alloc: Global, world: &mut World<MemKeeper, H>, now: u64) -> Option<u64> {
    let changes = creation(alloc)?;
    match world.commit(alloc, 0, 0, changes, now) {
        Ok(committed) => Some(committed.place),
        Err(_) => None,
    }
}

/// Writes an entry to a world whose shelf doesn't tell its entries.
fn write(alloc: Global, world: &mut World<MemKeeper, Untold>, name: &[u8], now: u64) -> bool {
    match fresh(alloc, name, 1) {
        Ok(fresh) => world.write(alloc, fresh, now).is_ok(),
        Err(Memory) => false,
    }
}

#[test]
fn a_new_world_has_no_fragment(rt: HostRuntime) -> Result<(), Fail> {
    let alloc = rt.alloc();
    let shelf = MemShelf::new(SETTINGS, RandomState::new(&rt)?);
    let mut world = world(alloc, shelf).ok_or("not opened")?;
    assert_eq!(rt; commit(alloc, &mut world, 7), Some(1));
    assert_eq!(rt; commit(alloc, &mut world, 7), Some(2));
    let snapshot = world.snapshot(alloc).map_err(|_| "no memory")?;
    assert!(rt; snapshot.place == 2 && snapshot.moment == 8);
    assert_eq!(rt; world.history().len(), 2);
    assert!(rt; reads(alloc, &mut world, (b"k", 1, 9), Some(Miss::Absent)));
    assert!(rt; !world.due());
    assert_eq!(rt; world.expire(9), 0);
    assert_eq!(rt; world.checked().get().typed().schema().models().len(), 1);
    Ok(())
}

/// A world over a shelf that doesn't tell its entries.
fn untold_world(rt: &HostRuntime) -> Result<World<MemKeeper, Untold>, Fail> {
    let shelf = Untold {
        shelf: MemShelf::new(SETTINGS, RandomState::new(rt)?),
    };
    Ok(world(rt.alloc(), shelf).ok_or("not opened")?)
}

#[test]
fn what_is_written_is_read_after_a_commit_too(rt: HostRuntime) -> Result<(), Fail> {
    let alloc = rt.alloc();
    let mut world = untold_world(&rt)?;
    assert!(rt; write(alloc, &mut world, b"k", 1));
    assert!(rt; reads(alloc, &mut world, (b"k", 1, 2), None));
    assert!(rt; reads(alloc, &mut world, (b"k", 2, 2), Some(Miss::Mismatch)));
    assert_eq!(rt; commit(alloc, &mut world, 7), Some(1));
    assert!(rt; reads(alloc, &mut world, (b"k", 1, 8), None));
    Ok(())
}

/// Whether two questions are answered by a fragment and by no entry.
fn reads_one_of_two(alloc: Global, world: &mut World<MemKeeper, Untold>, now: u64) -> bool {
    let Ok(asks) = two_asks(alloc) else {
        return false;
    };
    match world.read_many(alloc, asks.as_slice(), now) {
        Ok(found) => is_one_of_two(found.as_slice()),
        Err(_) => false,
    }
}

fn two_asks(alloc: Global) -> Result<Vec<Ask>, Memory> {
    let mut asks = Vec::new(alloc);
    asks.push(ask(alloc, b"k", 1)?)?;
    asks.push(ask(alloc, b"l", 1)?)?;
    Ok(asks)
}

fn is_one_of_two(found: &[Fetched]) -> bool {
    match found {
        [Fetched::Hit(hit), Fetched::Miss(Miss::Absent)] => hit.get().as_slice()
            == b"Chess".as_slice(),
        _ => false,
    }
}

#[test]
fn several_are_read_and_a_batch_goes(rt: HostRuntime) -> Result<(), Fail> {
    let alloc = rt.alloc();
    let mut world = untold_world(&rt)?;
    assert!(rt; write(alloc, &mut world, b"k", 1));
    assert!(rt; reads_one_of_two(alloc, &mut world, 2));
    assert!(rt; write(alloc, &mut world, b"m", 2) && world.due());
    assert_eq!(rt; world.expire(3), 2);
    assert!(rt; reads(alloc, &mut world, (b"k", 1, 3), Some(Miss::Absent)));
    Ok(())
}
