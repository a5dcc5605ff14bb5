//! The rows of one model, beside their ids in ascending order, with the links to their parents.

ghost use Rattle.std.specs.Prelude.{◌≡◌, ℕ, map, filter, IfOk, OnOk, OnErr};
ghost use Rattle.std.specs.Option.{option_copied};
ghost use Rattle.std.specs.FinMap as finite;
ghost use Rattle.doll_schema.specs.declared.value.Row.{Row};
ghost use Rattle.doll_table.specs.Tables.{names_parent, without_ids};

use crate::id_list::IdList;
use crate::links;
use crate::links::Links;
use doll_pages::{PageMap, Put, Removal, Slots};
use doll_schema::Row;
use doll_text::{Copied, Memory};
use std::alloc::Global;
use std::marker::Model;

#[derive(Drop)]
pub struct ModelRows {
    ids: IdList,
    rows: PageMap<Row>,
    links: Links,
    next: u32,
}

impl Model for ModelRows {
    ghost use Rattle.doll_table.specs.Tables.{Extent};
    ghost use Rattle.doll_table.specs.Links.{AreKept};
    ghost use Rattle.doll_table.specs.Codes.{extent_code};

    ghost Value = { Extent };

    ghost coded = { extent_code };

    ghost view = { λ m. record { rows = m.rows; next = m.next } };

    ghost invariant = { λ m. AreKept m.rows m.ids m.links };
}

impl ModelRows {
    /// No rows; the next id is 1.
    pub fn new(alloc: Global) -> Result<ModelRows, Memory>
        ensures { IfOk result (λ rows. rows ≡ record { rows = finite.empty; next = 1 }) }
    {
        let ids = IdList::new(alloc)?;
        let rows = PageMap::new(alloc)?;
        let links = Slots::new(alloc)?;
        Ok(ModelRows {
            ids,
            rows,
            links,
            next: 1,
        })
    }

    /// The row under an id.
    pub fn row(&self, id: u32) -> Option<&Row>
        ensures { option_copied result ≡ finite.get self.now.rows id }
    {
        self.rows.get(id)
    }

    /// The living ids, ascending.
    pub fn ids(&self) -> &[u32]
        ensures { result.now ≡ finite.keys self.now.rows }
    {
        self.ids.as_slice()
    }

    /// The ids of the rows whose key at a place names a parent, ascending.
    pub fn children(&self, place: u16, parent: u32) -> &[u32]
        ensures { result.now ≡ map (λ (e : ℕ × Row). e.0)
            (filter (λ (e : ℕ × Row). names_parent place parent e.1)
            (finite.entries self.now.rows)) }
    {
        links::children(&self.links, place, parent)
    }

    pub fn next(&self) -> u32
        ensures { result ≡ self.now.next }
    {
        self.next
    }

    pub fn set_next(&mut self, next: u32)
        ensures { self.new ≡ record self.old { next = next } }
    {
        self.next = next;
    }

    /// The same rows, which have one owner more.
    pub fn share(&self, alloc: Global) -> Result<ModelRows, Memory>
        ensures { IfOk result (λ copy. copy ≡ self.now) }
    {
        let ids = self.ids.copy(alloc)?;
        let rows = self.rows.copy(alloc)?;
        let links = self.links.copy(alloc)?;
        Ok(ModelRows {
            ids,
            rows,
            links,
            next: self.next,
        })
    }

    /// Puts a row under an id, in the place of what was there. A refusal changes nothing.
    pub fn put(&mut self, alloc: Global, id: u32, row: Row) -> Result<(), Memory>
        ensures ok { OnOk result
            (self.new ≡ record self.old { rows = finite.insert self.old.rows id row }) }
        ensures err { OnErr result (self.new ≡ self.old) }
    {
        let Some(old) = self.rows.get(id) else {
            let value = row.copy(alloc)?;
            let mut rows = self.rows.copy(alloc)?;
            rows.edit(alloc, id, Put { value })?;
            self.ids.insert_linked(alloc, id, &mut self.links, &row)?;
            self.rows = rows;
            return Ok(());
        };
        // In most updates and each touch no link moves.
        if links::same_parents(old, &row) {
            self.rows.edit(alloc, id, Put { value: row })?;
            return Ok(());
        }
        let links = links::moved(alloc, &self.links, old, &row, id)?;
        self.rows.edit(alloc, id, Put { value: row })?;
        self.links = links;
        Ok(())
    }

    /// Takes the row under an id away, if it lives. A refusal changes nothing.
    pub fn remove(&mut self, alloc: Global, id: u32) -> Result<bool, Memory>
        ensures lived { IfOk result (λ lived. lived ≡ finite.contains_key self.old.rows id) }
        ensures ok { OnOk result
            (self.new ≡ record self.old { rows = finite.remove self.old.rows id }) }
        ensures err { OnErr result (self.new ≡ self.old) }
    {
        let Some(old) = self.rows.get(id) else {
            return Ok(false);
        };
        let mut rows = self.rows.copy(alloc)?;
        rows.edit(alloc, id, Removal)?;
        self.ids.remove_linked(alloc, id, &mut self.links, old)?;
        self.rows = rows;
        Ok(true)
    }

    /// Takes the rows under these ids away, those that live. No list is moved once for each: the ids of the model are
    /// passed through once, and so are the children of each parent of these rows. A refusal changes nothing.
    pub fn remove_all(&mut self, alloc: Global, ids: &[u32]) -> Result<(), Memory>
        ensures ok { OnOk result
            (self.new ≡ record self.old { rows = without_ids self.old.rows ids.now }) }
        ensures err { OnErr result (self.new ≡ self.old) }
    {
        if ids.is_empty() {
            return Ok(());
        }
        let mut living = self.rows.copy(alloc)?;
        take_rows(alloc, &mut living, ids)?;
        let mut links = self.links.copy(alloc)?;
        links::unlink_all(alloc, &mut links, &self.rows, ids, &living)?;
        self.ids.keep_living(alloc, &living)?;
        self.rows = living;
        self.links = links;
        Ok(())
    }
}

/// Takes the rows under these ids out of a map. After a refusal some may be gone.
fn take_rows(alloc: Global, rows: &mut PageMap<Row>, ids: &[u32]) -> Result<(), Memory>
    ensures { OnOk result (rows.new ≡ without_ids rows.old ids.now) }
{
    let mut left = ids.len();
    while left > 0 {
        left -= 1;
        rows.edit(alloc, ids[left], Removal)?;
    }
    Ok(())
}
