//! The records that a commit touches, and the moment that they get.

ghost use Rattle.std.specs.Prelude.{◌≡◌, length, IfOk, OnOk};
ghost use Rattle.std.specs.List.{flat_map};
ghost use Rattle.doll_table.specs.Fits.{Fits};
ghost use Rattle.doll_commit.specs.Refs.{with_refs};
ghost use Rattle.doll_commit.specs.Commits.{touched_by, row_touches, touch_parents, stamped_at, stamped, applied_of};

use crate::apply::Applied;
use crate::refs::{Ref, Refs};
use crate::walk::{Step, reached};
use doll_schema::{BelongsTo, Model, Row, Schema};
use doll_table::Table;
use doll_text::{Copied, Ids, Memory};
use std::alloc::Global;

/// What changes made in order come to: the table after it with the commit's moment at its touched set.
pub fn finish(
    alloc: Global,
    schema: &Schema,
    moment: u64,
    table: Table,
    touched: Refs,
    ids: Ids,
) -> Result<Applied, Memory>
    requires { Fits schema.now table }
    ensures exact { IfOk result
        (λ applied. applied ≡ applied_of schema.now moment
        (record { table = table; touched = touched; ids = ids })) }
    ensures fits { IfOk result (λ applied. Fits schema.now applied.table) }
{
    let mut table = table;
    let refs = reached(Step::TouchParents, &table, schema, touched)?;
    stamp(alloc, &mut table, moment, &refs)?;
    Ok(Applied { table, ids })
}

/// Adds the touch parents of each of the records.
pub fn add_all_touch_parents(
    refs: &mut Refs,
    schema: &Schema,
    table: &Table,
    records: &[Ref],
) -> Result<(), Memory>
    ensures { OnOk result
        (refs.new ≡ with_refs refs.old
        (flat_map (touch_parents table.now schema.now) records.now)) }
{
    for one in records {
        add_touch_parents(refs, schema, table, *one)?;
    }
    Ok(())
}

/// Adds a record's touch parents.
pub fn add_touch_parents(
    refs: &mut Refs,
    schema: &Schema,
    table: &Table,
    one: Ref,
) -> Result<(), Memory>
    ensures { OnOk result (refs.new ≡ with_refs refs.old (touch_parents table.now schema.now one)) }
{
    let Some(model) = schema.model(one.0) else {
        return Ok(());
    };
    let Some(row) = table.row(one.0, one.1) else {
        return Ok(());
    };
    add_row_touches(refs, model, row)
}

fn add_row_touches(refs: &mut Refs, model: &Model, row: &Row) -> Result<(), Memory>
    ensures { OnOk result (refs.new ≡ with_refs refs.old (row_touches model.now row.now)) }
{
    for (parent, key) in model
        .belongs_to
        .as_slice()
        .iter()
        .zip(row.parents.as_slice())
    {
        add_touched_by(refs, parent, *key)?;
    }
    Ok(())
}

fn add_touched_by(refs: &mut Refs, parent: &BelongsTo, key: Option<u32>) -> Result<(), Memory>
    ensures { OnOk result (refs.new ≡ with_refs refs.old (touched_by (parent.now, key))) }
{
    if !parent.touch {
        return Ok(());
    }
    match key {
        Some(id) => refs.add((parent.model, id)),
        None => Ok(()),
    }
}

/// Gives a moment to those of the records that live.
pub fn stamp(alloc: Global, table: &mut Table, moment: u64, refs: &Refs) -> Result<(), Memory>
    requires { length table.old.extents ≡ length table.old.schema.models }
    ensures { OnOk result (table.new ≡ stamped moment table.old refs.now) }
{
    for one in refs.as_slice() {
        stamp_one(alloc, table, moment, *one)?;
    }
    Ok(())
}

fn stamp_one(alloc: Global, table: &mut Table, moment: u64, one: Ref) -> Result<(), Memory>
    requires { length table.old.extents ≡ length table.old.schema.models }
    ensures { OnOk result (table.new ≡ stamped_at moment table.old one) }
{
    let Some(row) = table.row(one.0, one.1) else {
        return Ok(());
    };
    let mut row = row.copy(alloc)?;
    row.updated_at = moment;
    table.put(one.0, one.1, row)
}
