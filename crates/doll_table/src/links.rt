//! The children of each record: for each place among the foreign keys of a model's rows, the ids under each parent.

ghost use Rattle.std.specs.Prelude.{◌≡◌, ℕ, false, ◌&&◌, ◌==◌, if◌then◌else◌, IfOk, IfSome, OnOk, OnErr};
ghost use Rattle.std.specs.Bool.{Decides};
ghost use Rattle.std.specs.FinMap as finite;
ghost use Rattle.doll_table.specs.Ids.{has_id};
ghost use Rattle.doll_table.specs.Tables.{names_parent, without_ids};
ghost use Rattle.doll_table.specs.Links.{linked, HasMore, HasLess, HasFewer, HasNone, HaveNone};

use crate::id_list::IdList;
use doll_pages::{Edit, InMap, PageMap, Slots};
use doll_schema::Row;
use doll_text::{Copied, Memory};
use std::alloc::Global;

pub type Links = Slots<PageMap<IdList>>;

/// Adds a child.
#[derive(Drop)]
struct More {
    id: u32,
}

impl Edit<IdList> for More {
    ghost use Rattle.doll_table.specs.Links.{more_linked};

    ghost gives = { λ more ids. more_linked more.id ids };

    fn make(self, alloc: Global, slot: &mut Option<IdList>) -> Result<(), Memory> {
        let More { id } = self;
        match slot {
            Some(ids) => ids.insert(alloc, id),
            None => {
                let mut ids = IdList::new(alloc)?;
                ids.insert(alloc, id)?;
                *slot = Some(ids);
                Ok(())
            }
        }
    }
}

/// Takes a child away.
#[derive(Drop)]
struct Less {
    id: u32,
}

impl Edit<IdList> for Less {
    ghost use Rattle.doll_table.specs.Links.{less_linked};

    ghost gives = { λ less ids. less_linked less.id ids };

    fn make(self, alloc: Global, slot: &mut Option<IdList>) -> Result<(), Memory> {
        let Less { id } = self;
        match slot {
            Some(ids) => ids.remove(alloc, id),
            None => Ok(()),
        }
    }
}

/// Takes all children away that live no more, if a child is among them.
#[derive(Drop)]
struct Living<'a> {
    id: u32,
    rows: &'a PageMap<Row>,
}

impl<'a> Edit<IdList> for Living<'a> {
    ghost use Rattle.doll_table.specs.Links.{living_linked};

    ghost gives = { λ living ids. living_linked living.rows.now living.id ids };

    fn make(self, alloc: Global, slot: &mut Option<IdList>) -> Result<(), Memory> {
        let Living { id, rows } = self;
        let Some(ids) = slot else {
            return Ok(());
        };
        if ids.contains(id) {
            return ids.keep_living(alloc, rows);
        }
        Ok(())
    }
}

/// The children of a parent at a place, ascending.
pub fn children(links: &Links, place: u16, parent: u32) -> &[u32]
    ensures { result.now ≡ finite.keys (linked links.now place parent) }
{
    let Some(parents) = links.get(place as usize) else {
        return &[];
    };
    match parents.get(parent) {
        Some(ids) => ids.as_slice(),
        None => &[],
    }
}

/// Whether two rows have the same foreign keys.
pub fn same_parents(a: &Row, b: &Row) -> bool
    ensures { Decides result (a.now.parents ≡ b.now.parents) }
{
    a.parents.as_slice() == b.parents.as_slice()
}

/// The place and the parent of a record's one link, none where it has several or none.
fn sole_link(row: &Row) -> Option<(usize, u32)>
    ensures { IfSome result (λ sole. (place parent : ℕ) →
        names_parent place parent row.now ≡ (place == sole.0 && parent == sole.1)) }
{
    let mut found = None;
    for (place, parent) in row.parents.as_slice().iter().enumerate() {
        if let Some(parent) = parent {
            if found.is_some() {
                return None;
            }
            found = Some((place, *parent));
        }
    }
    found
}

/// Adds the links of a record: its one link in place, and several on a copy. A refusal changes nothing.
pub fn gain(alloc: Global, links: &mut Links, row: &Row, id: u32) -> Result<(), Memory>
    ensures ok { OnOk result (HasMore links.old links.new row.now id) }
    ensures err { OnErr result (links.new ≡ links.old) }
{
    if let Some((place, parent)) = sole_link(row) {
        let edit = More { id };
        links.edit(alloc, place, InMap { id: parent, edit })?;
        return Ok(());
    }
    let mut more = links.copy(alloc)?;
    link(alloc, &mut more, row, id)?;
    *links = more;
    Ok(())
}

/// Takes the links of a record away: its one link in place, and several on a copy. A refusal changes nothing.
pub fn lose(alloc: Global, links: &mut Links, row: &Row, id: u32) -> Result<(), Memory>
    ensures ok { OnOk result (HasLess links.old links.new row.now id) }
    ensures err { OnErr result (links.new ≡ links.old) }
{
    if let Some((place, parent)) = sole_link(row) {
        let edit = Less { id };
        links.edit(alloc, place, InMap { id: parent, edit })?;
        return Ok(());
    }
    let mut less = links.copy(alloc)?;
    unlink(alloc, &mut less, row, id)?;
    *links = less;
    Ok(())
}

/// Links with those of a record's new row in the place of those of its old one.
pub fn moved(alloc: Global, links: &Links, old: &Row, new: &Row, id: u32) -> Result<Links, Memory>
    requires { (place parent : ℕ) →
        has_id (linked links.now place parent) id ≡ names_parent place parent old.now }
    ensures { IfOk result (λ moved. (place parent child : ℕ) →
        has_id (linked moved place parent) child ≡
        (if child == id then names_parent place parent new.now
        else has_id (linked links.now place parent) child)) }
{
    let mut moved = links.copy(alloc)?;
    unlink(alloc, &mut moved, old, id)?;
    link(alloc, &mut moved, new, id)?;
    Ok(moved)
}

/// Adds the links of a record. After a refusal some may be there.
fn link(alloc: Global, links: &mut Links, row: &Row, id: u32) -> Result<(), Memory>
    ensures { OnOk result (HasMore links.old links.new row.now id) }
{
    for (place, parent) in row.parents.as_slice().iter().enumerate() {
        if let Some(parent) = parent {
            let edit = More { id };
            links.edit(alloc, place, InMap { id: *parent, edit })?;
        }
    }
    Ok(())
}

/// Takes the links of a record away. After a refusal some may be gone.
fn unlink(alloc: Global, links: &mut Links, row: &Row, id: u32) -> Result<(), Memory>
    ensures { OnOk result (HasLess links.old links.new row.now id) }
{
    for (place, parent) in row.parents.as_slice().iter().enumerate() {
        if let Some(parent) = parent {
            let edit = Less { id };
            links.edit(alloc, place, InMap { id: *parent, edit })?;
        }
    }
    Ok(())
}

/// Takes the links away of the rows under ids that live no more. Each list of children is passed through once, since the
/// first child that goes takes the others with it. After a refusal some may be gone.
pub fn unlink_all(
    alloc: Global,
    links: &mut Links,
    rows: &PageMap<Row>,
    ids: &[u32],
    living: &PageMap<Row>,
) -> Result<(), Memory>
    requires { living.now ≡ without_ids rows.now ids.now }
    ensures fewer { OnOk result (HasFewer living.now links.old links.new) }
    ensures none { OnOk result (HaveNone rows.now links.new ids.now) }
{
    for id in ids {
        if let Some(row) = rows.get(*id) {
            unlink_gone(alloc, links, row, *id, living)?;
        }
    }
    Ok(())
}

/// Takes the links away of a row that lives no more, and of others that stand beside them. After a refusal some may be
/// gone.
fn unlink_gone(
    alloc: Global,
    links: &mut Links,
    row: &Row,
    id: u32,
    living: &PageMap<Row>,
) -> Result<(), Memory>
    requires { finite.contains_key living.now id ≡ false }
    ensures fewer { OnOk result (HasFewer living.now links.old links.new) }
    ensures none { OnOk result (HasNone links.new row.now id) }
{
    for (place, parent) in row.parents.as_slice().iter().enumerate() {
        if let Some(parent) = parent {
            let edit = Living { id, rows: living };
            links.edit(alloc, place, InMap { id: *parent, edit })?;
        }
    }
    Ok(())
}
