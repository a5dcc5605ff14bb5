//! A step from a record to what it has.

ghost use Rattle.std.specs.Prelude.{◌≡◌, ◌+◌, ◌≤◌, ◌<◌, pos, length, slice_get, IfOk, IsSome};
ghost use Rattle.std.specs.Option.{option_map_or};
ghost use Rattle.doll_schema.specs.declared.value.Row.{Row};
ghost use Rattle.doll_schema.specs.declared.value.Value.{Value};
ghost use Rattle.doll_table.specs.Tables.{row_of, parent_of, children_of};
ghost use Rattle.doll_schema.specs.Limits.{HasFewParts};
ghost use Rattle.doll_schema.specs.Lookups.{many_of};
ghost use Rattle.doll_table.specs.Fits.{Fits};
ghost use Rattle.doll_eval.specs.Living.{IsLiving};
ghost use Rattle.doll_eval.specs.Values;
ghost use Rattle.doll_eval.specs.Values.{step_looks};
ghost use Rattle.doll_eval.specs.Operations.{nil, whole};

use crate::member::Member;
use crate::operators::{nil, whole};
use doll_expr::{Copied, Ids, Memory, Name};
use doll_schema::{Model, Schema, Val, Value};
use doll_table::{Assoc, Rows};
use std::alloc::Global;

/// What a name gives at a value: a part of a record, nil at all else.
pub fn step<R: Rows>(
    alloc: Global,
    from: Val,
    name: &Name,
    schema: &Schema,
    rows: &mut R,
) -> Result<Val, Memory>
    requires fits { Fits schema.now (R.table rows.old) }
    requires living { IsLiving (R.table rows.old) from }
    ensures value { IfOk result (λ v. v ≡ Values.step schema.now (R.table rows.old) from name.now) }
    ensures living { IfOk result (λ v. IsLiving (R.table rows.old) v) }
    ensures table { R.table rows.new ≡ R.table rows.old }
    ensures looks { R.looks rows.new ≤ R.looks rows.old + step_looks schema.now from name.now }
{
    step_from(alloc, &from, name, schema, rows)
}

fn step_from<R: Rows>(
    alloc: Global,
    from: &Val,
    name: &Name,
    schema: &Schema,
    rows: &mut R,
) -> Result<Val, Memory>
    requires fits { Fits schema.now (R.table rows.old) }
    requires living { IsLiving (R.table rows.old) from.now }
    ensures value { IfOk result
        (λ v. v ≡ Values.step schema.now (R.table rows.old) from.now name.now) }
    ensures living { IfOk result (λ v. IsLiving (R.table rows.old) v) }
    ensures table { R.table rows.new ≡ R.table rows.old }
    ensures looks { R.looks rows.new ≤ R.looks rows.old + step_looks schema.now from.now name.now }
{
    match from {
        Val::Record { model, id } => record_step(alloc, *model, *id, name, schema, rows),
        _ => Ok(nil()),
    }
}

fn record_step<R: Rows>(
    alloc: Global,
    model: u16,
    id: u32,
    name: &Name,
    schema: &Schema,
    rows: &mut R,
) -> Result<Val, Memory>
    requires fits { Fits schema.now (R.table rows.old) }
    requires living { IsSome (row_of (R.table rows.old) model id) }
    ensures value { IfOk result
        (λ v. v ≡ Values.record_step schema.now (R.table rows.old) model id name.now) }
    ensures table { R.table rows.new ≡ R.table rows.old }
    ensures looks { R.looks rows.new ≤ R.looks rows.old + step_looks schema.now
        (Val.Record model id) name.now }
{
    let Some(of) = schema.model(model) else {
        return Ok(nil());
    };
    match Member::of(of, name.as_bytes()) {
        Member::Attribute(at) => attribute(rows, alloc, model, id, at),
        Member::Key(at) => Ok(number_or_nil(key(rows, model, id, at))),
        Member::Id => Ok(Val::Plain(Value::Int(i64::from(id)))),
        Member::UpdatedAt => Ok(updated_at(rows, model, id)),
        Member::Parent(at) => Ok(parent(rows, of, model, id, at)),
        Member::Children(at) => children_list(rows, alloc, of, model, id, at),
        Member::Unknown => Ok(nil()),
    }
}

fn number_or_nil(number: Option<u32>) -> Val
    ensures { result ≡ option_map_or (λ key. Val.Plain (Value.Int (pos key))) number nil }
{
    match number {
        Some(number) => Val::Plain(Value::Int(i64::from(number))),
        None => nil(),
    }
}

/// The parent of a record.
fn parent<R: Rows>(rows: &mut R, of: &Model, model: u16, id: u32, at: usize) -> Val
    requires { model < length (R.table rows.old).schema.models }
    ensures value { result ≡ Values.parent_value (R.table rows.old) of.now model id at }
    ensures table { R.table rows.new ≡ R.table rows.old }
    ensures looks { R.looks rows.new ≤ R.looks rows.old + 1 }
{
    let Some(parent) = of.belongs_to.get(at) else {
        return nil();
    };
    match key(rows, model, id, at) {
        Some(id) => Val::Record {
            model: parent.model,
            id,
        },
        None => nil(),
    }
}

/// The children of a record.
fn children_list<R: Rows>(
    rows: &mut R,
    alloc: Global,
    of: &Model,
    model: u16,
    id: u32,
    at: usize,
) -> Result<Val, Memory>
    requires same { slice_get (R.table rows.old).schema.models model ≡ Some of.now }
    requires few { HasFewParts of.now }
    ensures value { IfOk result
        (λ v. v ≡ Values.children_value (R.table rows.old) of.now model id at) }
    ensures table { R.table rows.new ≡ R.table rows.old }
    ensures looks { R.looks rows.new ≤ R.looks rows.old + 1 }
{
    let Some(many) = of.has_many.get(at) else {
        return Ok(nil());
    };
    let has_many = at as u16;
    let ids = children(rows, alloc, Assoc { model, has_many }, id)?;
    Ok(Val::List {
        model: many.model,
        ids,
    })
}

/// An attribute of a record.
fn attribute<R: Rows>(
    rows: &mut R,
    alloc: Global,
    model: u16,
    id: u32,
    at: usize,
) -> Result<Val, Memory>
    requires { model < length (R.table rows.old).schema.models }
    ensures value { IfOk result (λ v. v ≡ Values.attribute_value (R.table rows.old) model id at) }
    ensures table { R.table rows.new ≡ R.table rows.old }
    ensures looks { R.looks rows.new ≤ R.looks rows.old + 1 }
{
    let Some(row) = rows.row(model, id) else {
        return Ok(nil());
    };
    match row.values.get().get(at) {
        Some(value) => Ok(Val::Plain(value.copy(alloc)?)),
        None => Ok(nil()),
    }
}

/// A foreign key of a record.
fn key<R: Rows>(rows: &mut R, model: u16, id: u32, at: usize) -> Option<u32>
    requires { model < length (R.table rows.old).schema.models }
    ensures value { result ≡ option_map_or (λ (row : Row). parent_of row at)
        (row_of (R.table rows.old) model id) None }
    ensures table { R.table rows.new ≡ R.table rows.old }
    ensures looks { R.looks rows.new ≤ R.looks rows.old + 1 }
{
    let Some(row) = rows.row(model, id) else {
        return None;
    };
    match row.parents.get(at) {
        Some(key) => *key,
        None => None,
    }
}

/// The moment of a record's last change or touch.
fn updated_at<R: Rows>(rows: &mut R, model: u16, id: u32) -> Val
    requires { model < length (R.table rows.old).schema.models }
    ensures value { result ≡ option_map_or (λ (row : Row). whole (pos row.updated_at))
        (row_of (R.table rows.old) model id) nil }
    ensures table { R.table rows.new ≡ R.table rows.old }
    ensures looks { R.looks rows.new ≤ R.looks rows.old + 1 }
{
    let Some(row) = rows.row(model, id) else {
        return nil();
    };
    whole(row.updated_at)
}

/// The ids of a record's children.
fn children<R: Rows>(rows: &mut R, alloc: Global, assoc: Assoc, id: u32) -> Result<Ids, Memory>
    requires { IsSome (many_of (R.table rows.old).schema assoc.model assoc.has_many) }
    ensures value { IfOk result
        (λ ids. ids ≡ children_of (R.table rows.old) assoc.model assoc.has_many id) }
    ensures table { R.table rows.new ≡ R.table rows.old }
    ensures looks { R.looks rows.new ≤ R.looks rows.old + 1 }
{
    Ids::from_slice(alloc, rows.children(assoc, id))
}
