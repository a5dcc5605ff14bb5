//! The variables that a route binds.

ghost use Rattle.std.specs.Prelude.{◌≡◌, ◌++◌, true, option_map, IfOk, OnOk};
ghost use Rattle.doll_eval.specs.Living.{AreLiving};
ghost use Rattle.doll_plain.specs.Variables as spec;

use doll_expr::{Ids, Items, Memory, Name};
use doll_route::{Route, Subject, variable_of};
use doll_schema::{Schema, Val, Value, Values, Vars};
use doll_table::Table;
use doll_text::Copied;
use std::alloc::Global;

/// Whether what a route is about is there: a record must be in the table.
pub fn is_there(table: &Table, subject: Subject, id: Option<u32>) -> bool
    ensures { result ≡ spec.is_there table.now subject id }
{
    let Subject::Record { model } = subject else {
        return true;
    };
    let Some(id) = id else {
        return false;
    };
    table.row(model, id).is_some()
}

/// The variables that a route binds: what it is about, then its parameters.
#[tactic(auto, using(crate::proofs::Lives::route_lives))]
pub fn route_variables(
    alloc: Global,
    schema: &Schema,
    route: &Route,
    id: Option<u32>,
    params: &Values,
    table: &Table,
) -> Result<Vars, Memory>
    requires { spec.is_there table.now route.now.subject id ≡ true }
    ensures value { IfOk result (λ vars. vars
        ≡ spec.route_variables schema.now route.now id params.now table.now) }
    ensures living { IfOk result (AreLiving table.now) }
{
    let value = subject_value(alloc, table, route.subject, id)?;
    let mut vars = variable_with(alloc, variable_of(schema, route.subject), value)?;
    add_parameters(alloc, route.params.as_slice(), params.as_slice(), &mut vars)?;
    Ok(vars)
}

/// What a route is about: the record that its path names, or all records of a model.
fn subject_value(
    alloc: Global,
    table: &Table,
    subject: Subject,
    id: Option<u32>,
) -> Result<Option<Val>, Memory>
    ensures { IfOk result (λ value. value ≡ spec.subject_value table.now subject id) }
{
    match subject {
        Subject::Nothing => Ok(None),
        Subject::Record { model } => Ok(id.map(|id| Val::Record { model, id })),
        Subject::List { model } => Ok(Some(Val::List {
            model,
            ids: Ids::from_slice(alloc, table.all(model))?,
        })),
    }
}

/// A variable, where there is both a name and a value.
fn variable_with(alloc: Global, name: Option<&[u8]>, value: Option<Val>) -> Result<Vars, Memory>
    ensures { IfOk result (λ vars. vars
        ≡ spec.variable_with (option_map (λ name. name.now) name.entry) value) }
{
    let mut vars: Vars = Items::new(alloc);
    let Some(name) = name else {
        return Ok(vars);
    };
    let Some(value) = value else {
        return Ok(vars);
    };
    vars.push((Name::from_bytes(alloc, name)?, value))?;
    Ok(vars)
}

/// Appends the parameters of a route, each under its name.
fn add_parameters(
    alloc: Global,
    names: &[Name],
    values: &[Value],
    vars: &mut Vars,
) -> Result<(), Memory>
    ensures { OnOk result (vars.new ≡ vars.old ++ spec.parameters names.now values.now) }
{
    for (name, value) in names.iter().zip(values) {
        vars.push((name.copy(alloc)?, Val::Plain(value.copy(alloc)?)))?;
    }
    Ok(())
}
