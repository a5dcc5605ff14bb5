//! Histories and tables, on small sites worked by hand.

ghost use Rattle.std.specs.Prelude.{◌≡◌, IfOk, IfSome};
ghost use Rattle.doll_journal.specs.Storable.{AreStorable};

use doll_commit::Why;
use doll_journal::{Changes, JournalFault, changes_of};
use doll_keep::{KeepFault, Keeper, MemKeeper};
use doll_records::{Committed, LAST_MOMENT, OpenFault, RecordFault, Records};
use doll_schema::{Row, Schema, Value};
use doll_table::{Assoc, Table};
use doll_text::{Copied, Items, Memory, Shared};
use serde_json::Value as Json;
use std::alloc::{AllocError, Global};
use std::process::Abort;
use std::test::Fail;

/// A site with one model, m, whose records may have a parent.
const SITE: &str =
    r#"{"models":[{"name":"m","plural":"ms","attributes":[{"name":"t","kind":"text"}],"belongs_to":[{"name":"p","model":"m","touch":true,"null":true}],"has_many":[{"name":"c","model":"m","inverse":"p","dependent":"destroy"}]}]}"#;

/// The number of that model.
const M: u16 = 0;

/// Author 0, serial 0, moment 6, one change: an m is created, without values.
const CREATED: [u8; 34] = [
    0, 0, 0, 0, 0, 0, 0, 0, 0, 0, 0, 0, 0, 0, 0, 0, 0, 0, 0, 6, 0, 0, 0, 1, 1, 0, 0, 0, 1, b'm', 0,
    0, 0, 0,
];

/// The same with a change more, which is refused: the m with id 2 is touched.
const REFUSED: [u8; 44] = [
    0, 0, 0, 0, 0, 0, 0, 0, 0, 0, 0, 0, 0, 0, 0, 0, 0, 0, 0, 6, 0, 0, 0, 2, 1, 0, 0, 0, 1, b'm', 0,
    0, 0, 0, 4, 0, 0, 0, 1, b'm', 0, 0, 0, 2,
];

/// The same changes in JSON.
const CREATE: &str = r#"[{"create":"m","values":{}}]"#;

const CREATE_AND_TOUCH: &str = r#"[{"create":"m","values":{}},{"touch":"m","id":2}]"#;

/// A change of each kind, where the m with id 1 lives.
const ALL_KINDS: &str =
    r#"[{"create":"m","values":{"t":"A"}},{"update":"m","id":1,"values":{"p_id":2}},{"touch":"m","id":1},{"destroy":"m","id":1}]"#;

/// The commit of these with author 0, serial 1 and moment 7.
const ALL_KINDS_KEPT: [u8; 96] = [
    0, 0, 0, 0, 0, 0, 0, 0, 0, 0, 0, 1, 0, 0, 0, 0, 0, 0, 0, 7, 0, 0, 0, 4, 1, 0, 0, 0, 1, b'm', 0,
    0, 0, 1, 0, 0, 0, 1, b't', 4, 0, 0, 0, 1, b'A', 2, 0, 0, 0, 1, b'm', 0, 0, 0, 1, 0, 0, 0, 1, 0,
    0, 0, 4, b'p', b'_', b'i', b'd', 3, 0, 0, 0, 0, 0, 0, 0, 2, 4, 0, 0, 0, 1, b'm', 0, 0, 0, 1, 3,
    0, 0, 0, 1, b'm', 0, 0, 0, 1,
];

/// Two records, of which the second is under the first; what was made first has another text then.
const GROWN: &str =
    r#"[{"create":"m","values":{"t":"A"}},{"create":"m","values":{"t":"B","p_id":1}},{"update":"m","id":1,"values":{"t":"C"}}]"#;

fn schema(alloc: Global, json: &Json) -> Option<Schema> {
    Schema::read(alloc, json).ok()
}

fn site(alloc: Global) -> Option<Schema> {
    match Json::from_slice(alloc, SITE.as_bytes()) {
        Ok(json) => schema(alloc, &json),
        Err(_) => None,
    }
}

/// The changes that a JSON value is.
fn changes_in(alloc: Global, json: &Json) -> Option<Changes>
    ensures { IfSome result (λ changes. AreStorable changes) }
{
    match changes_of(alloc, json) {
        Ok(changes) => changes,
        Err(_) => None,
    }
}

/// The changes that a text says.
fn changes(alloc: Global, text: &str) -> Option<Changes>
    ensures { IfSome result (λ changes. AreStorable changes) }
{
    match Json::from_slice(alloc, text.as_bytes()) {
        Ok(json) => changes_in(alloc, &json),
        Err(_) => None,
    }
}

fn copied<T: Copied>(alloc: Global, value: &T) -> Result<T, Memory>
    ensures { IfOk result (λ copy. copy ≡ value.now) }
{
    value.copy(alloc)
}

/// A copy of the changes that a text says.
fn copied_changes(alloc: Global, text: &str) -> Result<Changes, Memory>
    ensures { IfOk result (λ changes. AreStorable changes) }
{
    match changes(alloc, text) {
        Some(changes) => copied(alloc, &changes),
        None => Err(Memory),
    }
}

/// Commits a copy of the changes that a text says.
fn commit(
    alloc: Global,
    records: &mut Records<MemKeeper>,
    (author, serial): (u32, u64),
    text: &str,
    now: u64,
) -> Result<Committed, RecordFault> {
    match copied_changes(alloc, text) {
        Ok(changes) => records.commit(alloc, author, serial, changes, now),
        Err(_) => Err(RecordFault::Memory),
    }
}

/// The bytes of a commit without changes at a moment: author, serial, moment and count, highest byte first.
fn item(moment: u64) -> [u8; 24] {
    let mut bytes = [0; 24];
    bytes[12..20].copy_from_slice(&moment.to_be_bytes());
    bytes
}

/// A keeper with these items that fails in these calls; the first numbers are those of the items.
fn keeper(alloc: Global, items: &[&[u8]], failing: &[u64]) -> Result<MemKeeper, KeepFault> {
    let mut keeper = MemKeeper::new(alloc, Vec::from_slice(alloc, failing)?, None);
    for item in items {
        keeper.append(alloc, item)?;
    }
    Ok(keeper)
}

fn opened(alloc: Global, keeper: MemKeeper) -> Option<Records<MemKeeper>> {
    Records::open(alloc, keeper, site(alloc)?).ok()
}

/// The history of these items, over a keeper that fails in these calls.
fn begun(alloc: Global, items: &[&[u8]], failing: &[u64]) -> Option<Records<MemKeeper>> {
    opened(alloc, keeper(alloc, items, failing).ok()?)
}

/// What several threads may use.
fn is_shared<T: Send + Sync>(_value: &T) {}

/// The text of a row, its parent and its moment, as a line.
fn line(alloc: Global, row: &Row) -> Result<Vec<u8>, AllocError> {
    let mut line = Vec::new(alloc);
    if let Some(Value::Text(text)) = row.values.get().as_slice().first() {
        line.extend_from_slice(text.as_bytes())?;
    }
    if let Some(Some(parent)) = row.parents.as_slice().first() {
        line.extend_from_slice(format!(in alloc; " of {parent}")?.as_bytes())?;
    }
    let moment = row.updated_at;
    line.extend_from_slice(format!(in alloc; " at {moment};")?.as_bytes())?;
    Ok(line)
}

/// A line for each row of a table.
fn lines(alloc: Global, table: &Table) -> Result<Vec<u8>, Memory> {
    let mut lines = Vec::new(alloc);
    for id in table.all(M) {
        let row = table.row(M, *id).ok_or(Memory)?;
        lines.extend_from_slice(line(alloc, row)?.as_slice())?;
    }
    Ok(lines)
}

/// How many commits a snapshot has, the last's moment, and a line for each row.
fn told(alloc: Global, records: &Records<MemKeeper>) -> Result<(u64, u64, Vec<u8>), Memory> {
    let snapshot = records.snapshot(alloc)?;
    is_shared(&snapshot);
    let lines = lines(alloc, snapshot.table.get())?;
    Ok((snapshot.place, snapshot.moment, lines))
}

#[test]
fn twenty_commits_come_back(rt: HostRuntime) -> Result<(), Fail> {
    let alloc = rt.alloc();
    let mut records = begun(alloc, &[], &[]).ok_or("not begun")?;
    for serial in 0..20 {
        let told = commit(alloc, &mut records, (3, serial), GROWN, 10 * serial);
        assert!(rt; told.is_ok(), "at {serial}");
    }
    let (place, moment, rows) = told(alloc, &records).ok().ok_or("no memory")?;
    assert_eq!(rt; (place, moment), (20, 190));
    let first = b"C at 190;B of 1 at 1;A at 10;B of 1 at 10;";
    assert!(rt; rows.as_slice().starts_with(first));
    let again = opened(alloc, records.close()).ok_or("not opened")?;
    assert_eq!(rt; again.history().len(), 20);
    let (place, moment, found) = told(alloc, &again).ok().ok_or("no memory")?;
    assert_eq!(rt; (place, moment), (20, 190));
    assert_eq!(rt; found.as_slice(), rows.as_slice());
    Ok(())
}

/// Sees that changes at the time 6 are refused so.
fn sees_refused(
    rt: &(impl Abort + AllocGlobal),
    records: &mut Records<MemKeeper>,
    text: &str,
    wanted: RecordFault,
) {
    let told = commit(rt.alloc(), records, (0, 0), text, 6).err();
    assert!(rt; told == Some(wanted));
}

/// Sees that changes at the time 6 are the commit at this place with this moment, and that they create the record with
/// this id.
fn sees_recorded(
    rt: &(impl Abort + AllocGlobal),
    records: &mut Records<MemKeeper>,
    (serial, text): (u64, &str),
    wanted: (u64, u64),
    id: u32,
) -> Result<(), Fail> {
    let told = commit(rt.alloc(), records, (0, serial), text, 6).ok();
    let told = told.ok_or("not recorded")?;
    assert!(rt; (told.place, told.moment) == wanted);
    assert_eq!(rt; told.ids.as_slice(), [id].as_slice());
    Ok(())
}

/// The moment of the last commit, and how many changes it has, of a copy.
fn last_of(alloc: Global, records: &Records<MemKeeper>) -> Option<(u64, usize)> {
    let last = copied(alloc, records.history().last()?).ok()?;
    Some((last.moment, last.changes.len()))
}

/// Sees that a keeper keeps this item at a place.
fn sees_kept(
    rt: &(impl Abort + AllocGlobal),
    keeper: &mut MemKeeper,
    at: u64,
    wanted: &[u8],
) -> Result<(), Fail> {
    let kept = keeper.load(rt.alloc(), at).ok().ok_or("not loaded")?;
    assert_eq!(rt; kept.ok_or("not kept")?.as_slice(), wanted);
    Ok(())
}

/// Sees that a keeper keeps two items.
fn sees_two(rt: &(impl Abort + AllocGlobal), keeper: &mut MemKeeper) -> Result<(), Fail> {
    let kept = keeper.load(rt.alloc(), 2).ok().ok_or("not loaded")?;
    assert!(rt; kept.is_none());
    Ok(())
}

#[test]
fn what_fails_leaves_the_history(rt: HostRuntime) -> Result<(), Fail> {
    let alloc = rt.alloc();
    // The call 0 is the load of an opening without items; that of the second commit fails.
    let mut records = begun(alloc, &[], &[2]).ok_or("not begun")?;
    let refused = RecordFault::Refused {
        index: 1,
        why: Why::MissingRow,
    };
    sees_refused(&rt, &mut records, CREATE_AND_TOUCH, refused);
    sees_recorded(&rt, &mut records, (0, CREATE), (1, 6), 1)?;
    sees_refused(&rt, &mut records, CREATE, RecordFault::Kept);
    sees_recorded(&rt, &mut records, (1, ALL_KINDS), (2, 7), 2)?;
    assert!(rt; last_of(alloc, &records) == Some((7, 4)));
    let mut keeper = records.close();
    sees_kept(&rt, &mut keeper, 0, &CREATED)?;
    sees_kept(&rt, &mut keeper, 1, &ALL_KINDS_KEPT)?;
    sees_two(&rt, &mut keeper)
}

/// Sees that the commit of moment 5 and this item are refused so where these calls fail, and that the keeper still has
/// both. The calls 0 and 1 are those that add the items.
fn sees_not_opened(
    rt: &(impl Abort + AllocGlobal),
    second: &[u8],
    failing: &[u64],
    wanted: OpenFault,
) -> Result<(), Fail> {
    let alloc = rt.alloc();
    let keeper = keeper(alloc, &[&item(5), second], failing).ok();
    let keeper = keeper.ok_or("no keeper")?;
    let site = site(alloc).ok_or("no site")?;
    let refusal = Records::open(alloc, keeper, site).err().ok_or("opened")?;
    assert!(rt; refusal.fault == wanted);
    let mut keeper = refusal.keeper;
    sees_kept(rt, &mut keeper, 1, second)?;
    sees_two(rt, &mut keeper)
}

#[test]
fn a_refused_opening_hands_the_keeper_back(rt: HostRuntime) -> Result<(), Fail> {
    let cut = OpenFault::Journal {
        index: 1,
        fault: JournalFault::Truncated { at: 20 },
    };
    sees_not_opened(&rt, &item(5)[..23], &[], cut)?;
    let not_later = OpenFault::Moment {
        index: 1,
        moment: 5,
    };
    sees_not_opened(&rt, &item(5), &[], not_later)?;
    let missing = OpenFault::Apply {
        index: 1,
        index_in: 1,
        why: Why::MissingRow,
    };
    sees_not_opened(&rt, &REFUSED, &[], missing)?;
    sees_not_opened(&rt, &CREATED, &[4], OpenFault::Kept)
}

#[test]
fn no_commit_comes_after_the_last_moment(rt: HostRuntime) -> Result<(), Fail> {
    let mut records = begun(rt.alloc(), &[&item(LAST_MOMENT)], &[]).ok_or("not opened")?;
    let wanted = RecordFault::MomentsEnded { last: LAST_MOMENT };
    sees_refused(&rt, &mut records, CREATE, wanted);
    Ok(())
}

/// A record under a parent.
fn under(alloc: Global, parent: u32) -> Result<Row, Memory> {
    copied(
        alloc,
        &Row {
            values: Shared::new(alloc, Items::new(alloc))?,
            parents: Items::from_slice(alloc, &[Some(parent)])?,
            updated_at: 9,
        },
    )
}

/// Puts a record under a parent.
fn put(alloc: Global, table: &mut Table, id: u32, parent: u32) -> Result<(), Memory> {
    let m = table.schema().model_named(b"m").ok_or(Memory)?;
    table.put(m, id, under(alloc, parent)?)
}

/// Sets the next id.
fn set_next(table: &mut Table, next: u32) {
    if let Some(m) = table.schema().model_named(b"m") {
        table.set_next(m, next);
    }
}

fn next(table: &Table) -> Option<u32> {
    Some(table.next(table.schema().model_named(b"m")?))
}

fn remove(table: &mut Table, id: u32) -> Result<bool, Memory> {
    let m = table.schema().model_named(b"m").ok_or(Memory)?;
    table.remove(m, id)
}

/// A table of records under 1 and 2, one of which was moved, with the next id 10.
fn family(alloc: Global) -> Result<Table, Memory> {
    let schema = site(alloc).ok_or(Memory)?;
    let mut table = Table::empty(alloc, &schema)?;
    for (id, parent) in [(7, 1), (5, 1), (9, 2), (7, 2)] {
        put(alloc, &mut table, id, parent)?;
    }
    set_next(&mut table, 10);
    Ok(table)
}

/// The children of a record.
fn children(table: &Table, parent: u32) -> &[u32] {
    let assoc = Assoc {
        model: M,
        has_many: 0,
    };
    table.children(assoc, parent)
}

#[test]
fn tables_keep_rows_and_children(rt: HostRuntime) -> Result<(), Fail> {
    let alloc = rt.alloc();
    let mut table = family(alloc).ok().ok_or("no table")?;
    let shared = table.share(alloc).ok().ok_or("no memory")?;
    assert!(rt; remove(&mut table, 9) == Ok(true));
    assert!(rt; remove(&mut table, 9) == Ok(false));
    assert_eq!(rt; children(&table, 1), [5].as_slice());
    assert_eq!(rt; children(&table, 2), [7].as_slice());
    assert_eq!(rt; children(&shared, 2), [7, 9].as_slice());
    assert_eq!(rt; shared.all(M).len(), 3);
    assert!(rt; next(&shared) == Some(10));
    Ok(())
}
