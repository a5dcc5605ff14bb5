//! Ids in ascending order, which several owners may share.

ghost use Rattle.std.specs.Prelude.{◌≡◌, ◌+◌, ◌<◌, ◌≤◌, ℕ, filter, length, slice_index, vec_len, vec_capacity, MatchResult, IfOk, OnOk, OnErr};
ghost use Rattle.std.specs.FinMap as finite;
ghost use Rattle.doll_table.specs.Ids.{Ascend, set_of, with_id, without_id, has_id};
ghost use Rattle.doll_table.specs.Links.{HasMore, HasLess, living_ids};

use crate::links::{Links, gain, lose};
use doll_pages::PageMap;
use doll_schema::Row;
use doll_text::{Copied, Memory};
use std::alloc::Global;
use std::marker::Model;
use std::sync::Arc;

/// Ascending ids. A copy is one owner more, and a write copies the ids where another owner has them too.
#[derive(Drop)]
pub struct IdList {
    ids: Arc<Vec<u32>>,
}

impl Model for IdList {
    ghost use Rattle.std.specs.Arc.{arc_value};
    ghost use Rattle.std.specs.FinMap as finite;
    ghost use Rattle.std.specs.Coded.{coded_ℕ};
    ghost use base.Stored.{coded_unit};
    ghost use Rattle.doll_table.specs.Ids.{IdSet, Ascend, set_of};

    ghost Value = { IdSet };

    ghost coded = { finite.code coded_ℕ coded_unit };

    ghost view = { λ l. set_of (arc_value l.ids).items };

    ghost invariant = { λ l. Ascend (arc_value l.ids).items };
}

impl IdList {
    /// No ids.
    pub fn new(alloc: Global) -> Result<IdList, Memory>
        ensures { IfOk result (λ list. list ≡ finite.empty) }
    {
        let ids = Arc::new(alloc, Vec::new(alloc))?;
        Ok(IdList { ids })
    }

    /// The ids, ascending.
    pub fn as_slice(&self) -> &[u32]
        ensures { result.now ≡ finite.keys self.now }
    {
        self.ids.as_slice()
    }

    /// Whether an id is there.
    pub fn contains(&self, id: u32) -> bool
        ensures { result ≡ has_id self.now id }
    {
        seek(self.ids.as_slice(), id).is_ok()
    }

    /// Sees to it that no one else has these ids, by a copy of them where someone has.
    fn own(&mut self, alloc: Global) -> Result<(), Memory>
        ensures { self.new ≡ self.old }
    {
        if Arc::strong_count(&self.ids) != 1 {
            let ids = copy_with_room(alloc, self.ids.as_slice())?;
            self.ids = Arc::new(alloc, ids)?;
        }
        Ok(())
    }

    /// Adds an id. A refusal changes nothing.
    pub fn insert(&mut self, alloc: Global, id: u32) -> Result<(), Memory>
        ensures ok { OnOk result (self.new ≡ with_id self.old id) }
        ensures err { OnErr result (self.new ≡ self.old) }
    {
        self.own(alloc)?;
        let Some(ids) = Arc::get_mut(&mut self.ids) else {
            return Err(Memory);
        };
        ids.reserve(1)?;
        put_id(ids, id);
        Ok(())
    }

    /// Takes an id away. A refusal changes nothing.
    pub fn remove(&mut self, alloc: Global, id: u32) -> Result<(), Memory>
        ensures ok { OnOk result (self.new ≡ without_id self.old id) }
        ensures err { OnErr result (self.new ≡ self.old) }
    {
        self.own(alloc)?;
        let Some(ids) = Arc::get_mut(&mut self.ids) else {
            return Err(Memory);
        };
        take_id(ids, id);
        Ok(())
    }

    /// Adds the id of a record, and its links, or neither.
    pub fn insert_linked(
        &mut self,
        alloc: Global,
        id: u32,
        links: &mut Links,
        row: &Row,
    ) -> Result<(), Memory>
        ensures ok { OnOk result (self.new ≡ with_id self.old id) }
        ensures links { OnOk result (HasMore links.old links.new row.now id) }
        ensures err { OnErr result (self.new ≡ self.old) }
        ensures links_stay { OnErr result (links.new ≡ links.old) }
    {
        self.own(alloc)?;
        let Some(ids) = Arc::get_mut(&mut self.ids) else {
            return Err(Memory);
        };
        ids.reserve(1)?;
        gain(alloc, links, row, id)?;
        put_id(ids, id);
        Ok(())
    }

    /// Takes the id of a record away, and its links, or neither.
    pub fn remove_linked(
        &mut self,
        alloc: Global,
        id: u32,
        links: &mut Links,
        row: &Row,
    ) -> Result<(), Memory>
        ensures ok { OnOk result (self.new ≡ without_id self.old id) }
        ensures links { OnOk result (HasLess links.old links.new row.now id) }
        ensures err { OnErr result (self.new ≡ self.old) }
        ensures links_stay { OnErr result (links.new ≡ links.old) }
    {
        self.own(alloc)?;
        let Some(ids) = Arc::get_mut(&mut self.ids) else {
            return Err(Memory);
        };
        lose(alloc, links, row, id)?;
        take_id(ids, id);
        Ok(())
    }

    /// Takes all ids away under which no row lives, in one pass. A refusal changes nothing.
    pub fn keep_living(&mut self, alloc: Global, rows: &PageMap<Row>) -> Result<(), Memory>
        ensures ok { OnOk result (self.new ≡ living_ids rows.now self.old) }
        ensures err { OnErr result (self.new ≡ self.old) }
    {
        let living = living_of(alloc, self.ids.as_slice(), rows)?;
        self.ids = Arc::new(alloc, living)?;
        Ok(())
    }
}

impl Copied for IdList {
    fn copy(&self, _alloc: Global) -> Result<IdList, Memory> {
        let ids = Arc::try_clone(&self.ids)?;
        Ok(IdList { ids })
    }
}

/// The same ids, with room for some more.
fn copy_with_room(alloc: Global, ids: &[u32]) -> Result<Vec<u32>, Memory>
    ensures { IfOk result (λ copy. copy.items ≡ ids.now) }
{
    let mut copy = Vec::with_capacity(alloc, ids.len() + ids.len() / 16 + 1)?;
    copy.extend_from_slice(ids)?;
    Ok(copy)
}

/// The ids under which rows live.
fn living_of(alloc: Global, ids: &[u32], rows: &PageMap<Row>) -> Result<Vec<u32>, Memory>
    ensures { IfOk result
        (λ living. living.items ≡ filter (λ id. finite.contains_key rows.now id) ids.now) }
{
    let mut living = Vec::with_capacity(alloc, ids.len())?;
    for id in ids {
        if rows.get(*id).is_some() {
            living.push(*id)?;
        }
    }
    Ok(living)
}

/// Where an id is in an ascending list, or would go.
fn seek(ids: &[u32], id: u32) -> Result<usize, usize>
    requires { (i j : ℕ) → i ≤ j → j < length ids.now →
        slice_index ids.now i ≤ slice_index ids.now j }
    ensures { MatchResult result
        (λ i. (i < length ids.now) × (slice_index ids.now i ≡ id))
        (λ i. (i ≤ length ids.now) × ((k : ℕ) → k < i → slice_index ids.now k < id)
        × ((k : ℕ) → i ≤ k → k < length ids.now → id < slice_index ids.now k)) }
{
    ids.binary_search(&id)
}

/// Adds an id in its place, for which there is room.
fn put_id(ids: &mut Vec<u32>, id: u32)
    requires ascend { Ascend ids.old.items }
    requires room { vec_len ids.old < vec_capacity ids.old }
    ensures ascend { Ascend ids.new.items }
    ensures set { set_of ids.new.items ≡ with_id (set_of ids.old.items) id }
{
    if let Err(at) = seek(ids.as_slice(), id) {
        let _ = ids.insert(at, id);
    }
}

/// Takes an id away, if it is there.
fn take_id(ids: &mut Vec<u32>, id: u32)
    requires ascend { Ascend ids.old.items }
    ensures ascend { Ascend ids.new.items }
    ensures set { set_of ids.new.items ≡ without_id (set_of ids.old.items) id }
{
    if let Ok(at) = seek(ids.as_slice(), id) {
        ids.remove(at);
    }
}
