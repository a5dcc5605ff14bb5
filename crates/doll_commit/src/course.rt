//! What changes made in order come to.

ghost use Rattle.std.specs.Prelude.{◌≡◌, OnOk};
ghost use Rattle.std.specs.List.{flat_map};
ghost use Rattle.doll_commit.specs.Refs.{with_ref, with_refs};
ghost use Rattle.doll_commit.specs.Commits.{touch_parents};

use crate::refs::{Ref, Refs};
use crate::touched::{add_all_touch_parents, add_touch_parents};
use doll_schema::Schema;
use doll_table::Table;
use doll_text::{Ids, Memory};

/// The table after the changes so far, the records that they touched at once, and the ids that they created.
#[derive(Drop)]
pub struct Course {
    pub table: Table,
    /// Each record that a change touched, and its touch parents just before and just after that; each stands once.
    pub touched: Refs,
    /// In the order of the creations.
    pub ids: Ids,
}

impl Course {
    /// Notes that a record is changed, and its touch parents before that.
    pub fn note(&mut self, schema: &Schema, one: Ref) -> Result<(), Memory>
        ensures touched { OnOk result
            (self.new.touched ≡ with_refs (with_ref self.old.touched one)
            (touch_parents self.old.table schema.now one)) }
        ensures table { self.new.table ≡ self.old.table }
        ensures ids { self.new.ids ≡ self.old.ids }
    {
        self.touched.add(one)?;
        add_touch_parents(&mut self.touched, schema, &self.table, one)
    }

    /// Notes a record's touch parents after a change.
    pub fn note_parents(&mut self, schema: &Schema, one: Ref) -> Result<(), Memory>
        ensures touched { OnOk result
            (self.new.touched ≡ with_refs self.old.touched
            (touch_parents self.old.table schema.now one)) }
        ensures table { self.new.table ≡ self.old.table }
        ensures ids { self.new.ids ≡ self.old.ids }
    {
        add_touch_parents(&mut self.touched, schema, &self.table, one)
    }

    /// Notes that records are changed, and their touch parents before that.
    pub fn note_all(&mut self, schema: &Schema, records: &[Ref]) -> Result<(), Memory>
        ensures touched { OnOk result
            (self.new.touched ≡ with_refs (with_refs self.old.touched records.now)
            (flat_map (touch_parents self.old.table schema.now) records.now)) }
        ensures table { self.new.table ≡ self.old.table }
        ensures ids { self.new.ids ≡ self.old.ids }
    {
        self.touched.add_all(records)?;
        add_all_touch_parents(&mut self.touched, schema, &self.table, records)
    }
}
