//! Opening the page of a route.

ghost use Rattle.std.specs.Prelude.{◌≡◌, ◌≤◌, ◌+◌, ◌++◌, ◌∷◌, [], None, Some, IfOk, OnOk, IfSome, map};
ghost use Rattle.doll_table.specs.Fits.{Fits};
ghost use Rattle.doll_eval.specs.Living.{AreLiving};
ghost use Rattle.doll_plain.specs.Variables.{parameters};
ghost use Rattle.doll_run.specs.Pages.{opening_looks};
ghost use Rattle.doll_types.specs.declared.types.ValueType.TheVariants as types;
ghost use Rattle.doll_frames.specs.Openings as spec;

use crate::scope::Scope;
use doll_route::{Route, Subject};
use doll_schema::{Schema, Val, Value, Values};
use doll_table::Rows;
use doll_text::{Copied, Ids, Items, Memory, Name};
use doll_types::ValueType;
use std::alloc::Global;

/// The variables that a route binds, with their types; none exactly where its record isn't in the table.
pub fn route_scope<R: Rows>(
    alloc: Global,
    schema: &Schema,
    route: &Route,
    id: Option<u32>,
    params: &Values,
    rows: &mut R,
) -> Result<Option<Scope>, Memory>
    requires fits { Fits schema.now (R.table rows.old) }
    ensures opened { IfOk result (λ scope. scope
        ≡ spec.opened_scope schema.now route.now id params.now (R.table rows.old)) }
    ensures living { IfOk result
        (λ scope. IfSome scope (λ one. AreLiving (R.table rows.old) one.vars)) }
    ensures table { R.table rows.new ≡ R.table rows.old }
    ensures looks { OnOk result (R.looks rows.new ≤ R.looks rows.old + opening_looks route.now.subject) }
{
    let Some(scope) = subject_scope(alloc, schema, route.subject, id, rows)? else {
        return Ok(None);
    };
    let mut scope = scope;
    add_types(alloc, route.params.as_slice(), &mut scope)?;
    add_values(
        alloc,
        route.params.as_slice(),
        params.as_slice(),
        &mut scope,
    )?;
    Ok(Some(scope))
}

/// What a route is about under its name; none exactly where that is a record that isn't in the table.
fn subject_scope<R: Rows>(
    alloc: Global,
    schema: &Schema,
    subject: Subject,
    id: Option<u32>,
    rows: &mut R,
) -> Result<Option<Scope>, Memory>
    requires fits { Fits schema.now (R.table rows.old) }
    ensures opened { IfOk result
        (λ scope. scope ≡ spec.opened_subject schema.now subject id (R.table rows.old)) }
    ensures table { R.table rows.new ≡ R.table rows.old }
    ensures looks { OnOk result (R.looks rows.new ≤ R.looks rows.old + opening_looks subject) }
{
    match subject {
        Subject::Nothing => Ok(Some(no_scope(alloc))),
        Subject::Record { model } => match id {
            Some(id) => record_scope(alloc, schema, model, id, rows),
            None => Ok(None),
        },
        Subject::List { model } => Ok(Some(list_scope(alloc, schema, model, rows)?)),
    }
}

fn no_scope(alloc: Global) -> Scope
    ensures typing { result.typing ≡ [] }
    ensures vars { result.vars ≡ [] }
{
    Scope {
        typing: Items::new(alloc),
        vars: Items::new(alloc),
    }
}

fn record_scope<R: Rows>(
    alloc: Global,
    schema: &Schema,
    model: u16,
    id: u32,
    rows: &mut R,
) -> Result<Option<Scope>, Memory>
    requires fits { Fits schema.now (R.table rows.old) }
    ensures opened { IfOk result (λ scope. scope
        ≡ spec.opened_subject schema.now (Subject.Record model) (Some id) (R.table rows.old)) }
    ensures table { R.table rows.new ≡ R.table rows.old }
    ensures looks { OnOk result (R.looks rows.new ≤ R.looks rows.old + 1) }
{
    let Some(of) = schema.model(model) else {
        return Ok(None);
    };
    if rows.row(model, id).is_none() {
        return Ok(None);
    }
    let mut scope = no_scope(alloc);
    let value = Val::Record { model, id };
    add_variable(
        alloc,
        &of.name,
        ValueType::Record { model },
        value,
        &mut scope,
    )?;
    Ok(Some(scope))
}

fn list_scope<R: Rows>(
    alloc: Global,
    schema: &Schema,
    model: u16,
    rows: &mut R,
) -> Result<Scope, Memory>
    requires fits { Fits schema.now (R.table rows.old) }
    ensures opened { IfOk result (λ scope. scope
        ≡ spec.subject_scope schema.now (Subject.List model) None (R.table rows.old)) }
    ensures table { R.table rows.new ≡ R.table rows.old }
    ensures looks { OnOk result (R.looks rows.new ≤ R.looks rows.old + 1) }
{
    let mut scope = no_scope(alloc);
    let Some(of) = schema.model(model) else {
        return Ok(scope);
    };
    let ids = Ids::from_slice(alloc, rows.all(model))?;
    let value = Val::List { model, ids };
    add_variable(
        alloc,
        &of.plural,
        ValueType::List { model },
        value,
        &mut scope,
    )?;
    Ok(scope)
}

fn add_variable(
    alloc: Global,
    name: &Name,
    of: ValueType,
    value: Val,
    scope: &mut Scope,
) -> Result<(), Memory>
    ensures typing { OnOk result (scope.new.typing ≡ scope.old.typing ++ (name.now, of) ∷ []) }
    ensures vars { OnOk result (scope.new.vars ≡ scope.old.vars ++ (name.now, value) ∷ []) }
{
    scope.typing.push((name.copy(alloc)?, of))?;
    scope.vars.push((name.copy(alloc)?, value))?;
    Ok(())
}

/// Appends the types of parameters.
fn add_types(alloc: Global, names: &[Name], scope: &mut Scope) -> Result<(), Memory>
    ensures typing { OnOk result (scope.new.typing
        ≡ scope.old.typing ++ map (λ name. (name, types.Text)) names.now) }
    ensures vars { OnOk result (scope.new.vars ≡ scope.old.vars) }
{
    for name in names {
        scope.typing.push((name.copy(alloc)?, ValueType::Text))?;
    }
    Ok(())
}

/// Appends the parameters that have a value, each under its name.
fn add_values(
    alloc: Global,
    names: &[Name],
    values: &[Value],
    scope: &mut Scope,
) -> Result<(), Memory>
    ensures typing { OnOk result (scope.new.typing ≡ scope.old.typing) }
    ensures vars { OnOk result
        (scope.new.vars ≡ scope.old.vars ++ parameters names.now values.now) }
{
    for (name, value) in names.iter().zip(values) {
        scope
            .vars
            .push((name.copy(alloc)?, Val::Plain(value.copy(alloc)?)))?;
    }
    Ok(())
}
