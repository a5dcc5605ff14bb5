//! One change.

ghost use Rattle.std.specs.Prelude.{◌≡◌, ◌<◌, length, slice_get, IfOk, OnOk};
ghost use Rattle.doll_schema.specs.declared.model.Model.{Model};
ghost use Rattle.doll_table.specs.Fits.{Fits, RowFits};
ghost use Rattle.doll_commit.specs.Changes as spec;
ghost use Rattle.doll_commit.specs.Answers.{Answers, GoesOn, seen};

use crate::course::Course;
use crate::fault::{ChangeFault, Why};
use crate::given::given_fault;
use crate::refs::{Ref, lives};
use crate::removal::{is_restricted, remove_all, removed_with};
use crate::rows::{blank_row, lacks, row_after};
use doll_journal::Change;
use doll_schema::{Model, Row, Schema, Value};
use doll_table::Table;
use doll_text::Name;
use std::alloc::Global;

/// The number of the model that has a name.
fn model_of(schema: &Schema, name: &[u8]) -> Result<u16, ChangeFault>
    ensures exact { Answers (spec.model_of schema.now name.now) result }
    ensures within { IfOk result (λ m. m < length schema.now.models) }
{
    match schema.model_named(name) {
        Some(number) => Ok(number),
        None => Err(ChangeFault::Refused(Why::UnknownModel)),
    }
}

/// A row with the values given, if these are values for it and leave nothing nil that may not be.
fn filled(
    alloc: Global,
    table: &Table,
    model: &Model,
    given: &[(Name, Value)],
    old: &Row,
) -> Result<Row, ChangeFault>
    ensures exact { Answers (spec.filled table.now model.now given.now old.now) result }
    ensures fits { RowFits table.now model.now old.now → IfOk result
        (λ row. RowFits table.now model.now row) }
{
    if let Some(why) = given_fault(table, model, given) {
        return Err(ChangeFault::Refused(why));
    }
    let row = row_after(alloc, model, given, old)?;
    if lacks(model, &row) {
        return Err(ChangeFault::Refused(Why::NullRefused));
    }
    Ok(row)
}

/// The row of a creation.
fn created_row(
    alloc: Global,
    table: &Table,
    schema: &Schema,
    given: &[(Name, Value)],
    model: u16,
) -> Result<Row, ChangeFault>
    ensures exact { Answers (spec.created_row table.now schema.now given.now model) result }
    ensures fits { (m : Model) → slice_get schema.now.models model ≡ Some m → IfOk result
        (λ row. RowFits table.now m row) }
{
    let Some(model) = schema.model(model) else {
        return Err(ChangeFault::Refused(Why::UnknownModel));
    };
    let blank = blank_row(alloc, model)?;
    filled(alloc, table, model, given, &blank)
}

/// The row of an update.
fn updated_row(
    alloc: Global,
    table: &Table,
    schema: &Schema,
    given: &[(Name, Value)],
    one: Ref,
) -> Result<Row, ChangeFault>
    requires { Fits schema.now table.now }
    ensures exact { Answers (spec.updated_row table.now schema.now given.now one) result }
    ensures fits { (m : Model) → slice_get schema.now.models one.0 ≡ Some m → IfOk result
        (λ row. RowFits table.now m row) }
{
    let Some(old) = table.row(one.0, one.1) else {
        return Err(ChangeFault::Refused(Why::MissingRow));
    };
    let Some(model) = schema.model(one.0) else {
        return Err(ChangeFault::Refused(Why::UnknownModel));
    };
    filled(alloc, table, model, given, old)
}

/// The id that no record gets.
pub const NO_ID: u32 = u32::MAX;

fn create(
    alloc: Global,
    schema: &Schema,
    course: &mut Course,
    given: &[(Name, Value)],
    model: u16,
) -> Result<(), ChangeFault>
    requires fits { Fits schema.now course.old.table }
    requires within { model < length schema.now.models }
    ensures exact { GoesOn schema.now (seen course.old)
        (spec.create course.old.table schema.now given.now model) (seen course.new) result }
    ensures fits { OnOk result (Fits schema.now course.new.table) }
{
    let id = course.table.next(model);
    if id == NO_ID {
        return Err(ChangeFault::Refused(Why::IdsEnded));
    }
    let row = created_row(alloc, &course.table, schema, given, model)?;
    course.note(schema, (model, id))?;
    course.table.set_next(model, id + 1);
    course.table.put(model, id, row)?;
    course.note_parents(schema, (model, id))?;
    course.ids.push(id)?;
    Ok(())
}

fn update(
    alloc: Global,
    schema: &Schema,
    course: &mut Course,
    given: &[(Name, Value)],
    one: Ref,
) -> Result<(), ChangeFault>
    requires fits { Fits schema.now course.old.table }
    requires within { one.0 < length schema.now.models }
    ensures exact { GoesOn schema.now (seen course.old)
        (spec.update course.old.table schema.now given.now one) (seen course.new) result }
    ensures fits { OnOk result (Fits schema.now course.new.table) }
{
    let row = updated_row(alloc, &course.table, schema, given, one)?;
    course.note(schema, one)?;
    course.table.put(one.0, one.1, row)?;
    course.note_parents(schema, one)?;
    Ok(())
}

fn touch(schema: &Schema, course: &mut Course, one: Ref) -> Result<(), ChangeFault>
    requires fits { Fits schema.now course.old.table }
    ensures exact { GoesOn schema.now (seen course.old) (spec.touch course.old.table one)
        (seen course.new) result }
    ensures fits { OnOk result (Fits schema.now course.new.table) }
{
    if !lives(&course.table, one) {
        return Err(ChangeFault::Refused(Why::MissingRow));
    }
    course.note(schema, one)?;
    course.note_parents(schema, one)?;
    Ok(())
}

fn destroy(alloc: Global, schema: &Schema, course: &mut Course, one: Ref) -> Result<(), ChangeFault>
    requires fits { Fits schema.now course.old.table }
    ensures exact { GoesOn schema.now (seen course.old)
        (spec.destroy course.old.table schema.now one) (seen course.new) result }
    ensures fits { OnOk result (Fits schema.now course.new.table) }
{
    if !lives(&course.table, one) {
        return Err(ChangeFault::Refused(Why::MissingRow));
    }
    let removed = removed_with(alloc, &course.table, schema, one)?;
    if is_restricted(&course.table, schema, &removed) {
        return Err(ChangeFault::Refused(Why::Restricted));
    }
    course.note_all(schema, removed.as_slice())?;
    remove_all(&mut course.table, removed.as_slice())?;
    Ok(())
}

/// Makes a change on the table of a course.
pub fn make_change(
    alloc: Global,
    schema: &Schema,
    course: &mut Course,
    change: &Change,
) -> Result<(), ChangeFault>
    requires fits { Fits schema.now course.old.table }
    ensures exact { GoesOn schema.now (seen course.old)
        (spec.made course.old.table schema.now change.now) (seen course.new) result }
    ensures fits { OnOk result (Fits schema.now course.new.table) }
{
    match change {
        Change::Create { model, values } => {
            let model = model_of(schema, model.as_bytes())?;
            create(alloc, schema, course, values.as_slice(), model)
        }
        Change::Update { model, id, values } => {
            let model = model_of(schema, model.as_bytes())?;
            update(alloc, schema, course, values.as_slice(), (model, *id))
        }
        Change::Destroy { model, id } => {
            let model = model_of(schema, model.as_bytes())?;
            destroy(alloc, schema, course, (model, *id))
        }
        Change::Touch { model, id } => {
            let model = model_of(schema, model.as_bytes())?;
            touch(schema, course, (model, *id))
        }
    }
}
