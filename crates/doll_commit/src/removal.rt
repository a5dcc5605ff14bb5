//! What goes with a record that is destroyed, and when it may not go.

ghost use Rattle.std.specs.Prelude.{◌≡◌, ◌==◌, ◌<◌, ◌≤◌, true, ℕ, map, length, IfOk, OnOk};
ghost use Rattle.std.specs.List.{flat_map, enumerate_from};
ghost use Rattle.doll_schema.specs.declared.model.BelongsTo.{BelongsTo};
ghost use Rattle.doll_schema.specs.declared.limits.TheConstants.{MOST_PARENTS};
ghost use Rattle.doll_table.specs.Tables.{without_rows};
ghost use Rattle.doll_commit.specs.Refs.{has, with_refs};
ghost use Rattle.doll_commit.specs.Removed as spec;

use crate::refs::{Ref, Refs};
use crate::walk::{Step, reached};
use doll_schema::{BelongsTo, HasMany, Schema};
use doll_table::Table;
use doll_text::Memory;
use std::alloc::Global;

/// A record, those that go because it goes, those that go because they go, and so on.
pub fn removed_with(
    alloc: Global,
    table: &Table,
    schema: &Schema,
    first: Ref,
) -> Result<Refs, Memory>
    ensures { IfOk result (λ removed. removed ≡ spec.removed_with table.now schema.now first) }
{
    let mut seeds = Refs::new(alloc);
    seeds.add(first)?;
    reached(Step::Dependents, table, schema, seeds)
}

/// Adds the records that go because a record goes.
pub fn add_dependents(
    removed: &mut Refs,
    table: &Table,
    schema: &Schema,
    gone: Ref,
) -> Result<(), Memory>
    ensures { OnOk result
        (removed.new ≡ with_refs removed.old (spec.dependents table.now schema.now gone)) }
{
    let Some(model) = schema.model(gone.0) else {
        return Ok(());
    };
    for many in model.has_many.as_slice() {
        add_children(removed, table, gone.1, many)?;
    }
    Ok(())
}

/// Adds a record's children under an association, if that destroys them.
fn add_children(
    removed: &mut Refs,
    table: &Table,
    parent: u32,
    many: &HasMany,
) -> Result<(), Memory>
    ensures { OnOk result
        (removed.new ≡ with_refs removed.old (spec.children_under table.now parent many.now)) }
{
    if !many.destroy {
        return Ok(());
    }
    add_all(
        removed,
        many.model,
        table.named(many.model, many.inverse, parent),
    )
}

fn add_all(refs: &mut Refs, model: u16, ids: &[u32]) -> Result<(), Memory>
    ensures { OnOk result (refs.new ≡ with_refs refs.old (map (λ id. (model, id)) ids.now)) }
{
    for id in ids {
        refs.add((model, *id))?;
    }
    Ok(())
}

/// Whether a row outside of these records names one of them.
pub fn is_restricted(table: &Table, schema: &Schema, removed: &Refs) -> bool
    ensures { result ≡ spec.is_restricted table.now schema.now removed.now }
{
    for gone in removed.as_slice() {
        if is_named(table, schema, removed, *gone) {
            return true;
        }
    }
    false
}

/// Whether a row outside of these records names this one.
fn is_named(table: &Table, schema: &Schema, removed: &Refs, gone: Ref) -> bool
    ensures { result ≡ spec.has_other removed.now (spec.naming table.now schema.now gone) }
{
    for (number, model) in schema.models().iter().enumerate() {
        let parents = model.belongs_to.as_slice();
        if is_named_by(table, removed, gone, number as u16, parents) {
            return true;
        }
    }
    false
}

fn is_named_by(table: &Table, removed: &Refs, gone: Ref, model: u16, parents: &[BelongsTo]) -> bool
    requires { length parents.now ≤ MOST_PARENTS }
    ensures { result ≡ spec.has_other removed.now
        (flat_map (spec.naming_by table.now gone model) (enumerate_from 0 parents.now)) }
{
    for (place, association) in parents.iter().enumerate() {
        if is_named_at(table, removed, gone, model, place as u16, association) {
            return true;
        }
    }
    false
}

fn is_named_at(
    table: &Table,
    removed: &Refs,
    gone: Ref,
    model: u16,
    place: u16,
    association: &BelongsTo,
) -> bool
    ensures { result ≡ spec.has_other removed.now
        (spec.naming_by table.now gone model (place, association.now)) }
{
    association.model == gone.0 && stays(removed, model, table.named(model, place, gone.1))
}

/// Whether one of these is not to be removed.
fn stays(removed: &Refs, model: u16, ids: &[u32]) -> bool
    ensures { result ≡ spec.has_other removed.now (map (λ id. (model, id)) ids.now) }
{
    for id in ids {
        if !removed.contains((model, *id)) {
            return true;
        }
    }
    false
}

/// From how many records on a table passes through the ids that stay once, which takes it longer than to move them up for
/// each of fewer.
const MANY: usize = 64;

/// Removes these records.
pub fn remove_all(table: &mut Table, removed: &[Ref]) -> Result<(), Memory>
    requires { (ref : ℕ × ℕ) → has removed.now ref ≡ true →
        ref.0 < length table.old.schema.models }
    ensures { OnOk result (table.new ≡ without_rows table.old removed.now) }
{
    if removed.len() < MANY {
        return remove_each(table, removed);
    }
    table.remove_all(removed)
}

/// Removes these records one by one, the last first: children stand in ascending order, so that a table moves few ids up
/// where they go from their end.
fn remove_each(table: &mut Table, removed: &[Ref]) -> Result<(), Memory>
    requires { (ref : ℕ × ℕ) → has removed.now ref ≡ true →
        ref.0 < length table.old.schema.models }
    ensures { OnOk result (table.new ≡ without_rows table.old removed.now) }
{
    let mut left = removed.len();
    while left > 0 {
        left -= 1;
        let (model, id) = removed[left];
        table.remove(model, id)?;
    }
    Ok(())
}
