//! Tables that share their rows: many shares of many rows are kept, and a write to one leaves the others as they were.

use doll_schema::{Row, Schema, Value, Values};
use doll_table::Table;
use doll_text::{Items, Memory, Shared};
use std::alloc::Global;
use std::test::Fail;

const ONE_MODEL: &str =
    r#"{"models":[{"name":"note","plural":"notes","attributes":[{"name":"stars","kind":"integer"}]}]}"#;

/// How many rows the table has. Of as many shares as these no memory holds copies of them.
const ROWS: u32 = 100_000;

const SHARES: u32 = 10_000;

/// An empty table of notes.
fn empty(alloc: Global) -> Option<Table> {
    let json = serde_json::Value::from_slice(alloc, ONE_MODEL.as_bytes()).ok()?;
    let schema = Schema::read(alloc, &json).ok()?;
    Table::empty(alloc, &schema).ok()
}

/// Puts a note with as many stars under an id.
fn put(alloc: Global, table: &mut Table, id: u32, stars: u32) -> Result<(), Memory> {
    if table.schema().models().is_empty() {
        return Err(Memory);
    }
    let mut values: Values = Items::new(alloc);
    values.push(Value::Int(i64::from(stars)))?;
    let row = Row {
        values: Shared::new(alloc, values)?,
        parents: Items::new(alloc),
        updated_at: 1,
    };
    table.put(0, id, row)
}

/// A table of notes, each with as many stars as its id says.
fn filled(alloc: Global) -> Option<Table> {
    let mut table = empty(alloc)?;
    for id in 1..=ROWS {
        put(alloc, &mut table, id, id).ok()?;
    }
    Some(table)
}

fn shares_of(alloc: Global, table: &Table) -> Result<Vec<Table>, Memory> {
    let mut shares = Vec::new(alloc);
    for _share in 0..SHARES {
        shares.push(table.share(alloc)?)?;
    }
    Ok(shares)
}

/// The stars of the note under an id.
fn stars(table: &Table, id: u32) -> Option<i64> {
    match table.row(0, id)?.values.get().get(0) {
        Some(Value::Int(stars)) => Some(*stars),
        _ => None,
    }
}

#[test]
fn shares_have_the_rows(rt: HostRuntime) -> Result<(), Fail> {
    let alloc = rt.alloc();
    let table = filled(alloc).ok_or("no table")?;
    let shares = shares_of(alloc, &table).ok().ok_or("no memory")?;
    assert_eq!(rt; shares.len(), SHARES as usize);
    for at in [0, shares.len().saturating_sub(1)] {
        let share = shares.get(at).ok_or("no share")?;
        assert_eq!(rt; share.all(0).len(), ROWS as usize);
        for id in [1, 2, 64, 65, 50_000, ROWS] {
            assert_eq!(rt; stars(share, id), Some(i64::from(id)));
        }
        assert_eq!(rt; stars(share, ROWS + 1), None);
    }
    Ok(())
}

#[test]
fn a_write_stays_in_its_table(rt: HostRuntime) -> Result<(), Fail> {
    let alloc = rt.alloc();
    let mut table = empty(alloc).ok_or("no table")?;
    put(alloc, &mut table, 1, 5).ok().ok_or("no memory")?;
    let mut share = table.share(alloc).ok().ok_or("no memory")?;
    put(alloc, &mut share, 1, 6).ok().ok_or("no memory")?;
    put(alloc, &mut share, 2, 7).ok().ok_or("no memory")?;
    assert_eq!(rt; [stars(&table, 1), stars(&table, 2)], [Some(5), None]);
    assert_eq!(rt; [stars(&share, 1), stars(&share, 2)], [Some(6), Some(7)]);
    assert_eq!(rt; table.all(0), [1].as_slice());
    assert_eq!(rt; share.all(0), [1, 2].as_slice());
    Ok(())
}
