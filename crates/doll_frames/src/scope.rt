//! The variables of a part of a template, with their types and values.

ghost use Rattle.std.specs.Prelude.{◌≡◌, ◌+◌, ◌≤◌, ◌++◌, ◌∷◌, ◌-◌, [], IfOk, OnOk, IfSome, length, take, map};
ghost use Rattle.doll_erb.specs.declared.node.Local.{Local};
ghost use Rattle.doll_table.specs.Fits.{Fits};
ghost use Rattle.doll_eval.specs.Living.{AreLiving};
ghost use Rattle.doll_eval.specs.Values.{value_of};
ghost use Rattle.doll_frames.specs.Scopes as spec;

use doll_erb::Local;
use doll_eval::eval;
use doll_expr::Name;
use doll_schema::{Schema, Val, Vars};
use doll_table::Rows;
use doll_text::{Copied, Items, Memory};
use doll_types::{Typing, ValueType, locals_typing};
use std::alloc::Global;

/// Variables, with their types and with their values.
#[derive(Drop)]
pub struct Scope {
    pub typing: Typing,
    pub vars: Vars,
}

/// Binds a name to a record and its type, after all other variables.
pub fn bind(
    alloc: Global,
    name: &Name,
    of: ValueType,
    model: u16,
    id: u32,
    scope: &mut Scope,
) -> Result<(), Memory>
    ensures typing { OnOk result (scope.new.typing ≡ scope.old.typing ++ (name.now, of) ∷ []) }
    ensures vars { OnOk result
        (scope.new.vars ≡ scope.old.vars ++ (name.now, Val.Record model id) ∷ []) }
{
    scope.typing.push((name.copy(alloc)?, of))?;
    scope
        .vars
        .push((name.copy(alloc)?, Val::Record { model, id }))?;
    Ok(())
}

/// Takes the last variable away.
#[tactic(auto, using(doll_plain::proofs::Parts::front_is))]
pub fn unbind(scope: &mut Scope)
    ensures typing { scope.new.typing
        ≡ take (length scope.old.typing - 1) scope.old.typing }
    ensures vars { scope.new.vars ≡ take (length scope.old.vars - 1) scope.old.vars }
{
    scope.typing.pop();
    scope.vars.pop();
}

/// A record with its type under a name, alone.
pub fn alone(
    alloc: Global,
    name: &Name,
    of: ValueType,
    model: u16,
    id: u32,
) -> Result<Scope, Memory>
    ensures typing { IfOk result (λ scope. scope.typing ≡ (name.now, of) ∷ []) }
    ensures vars { IfOk result (λ scope. scope.vars ≡ (name.now, Val.Record model id) ∷ []) }
{
    let typing = alone_typing(alloc, name, of)?;
    let vars = alone_vars(alloc, name, model, id)?;
    Ok(Scope { typing, vars })
}

/// A type under a name, alone.
pub fn alone_typing(alloc: Global, name: &Name, of: ValueType) -> Result<Typing, Memory>
    ensures { IfOk result (λ typing. typing ≡ (name.now, of) ∷ []) }
{
    let mut typing: Typing = Items::new(alloc);
    typing.push((name.copy(alloc)?, of))?;
    Ok(typing)
}

/// A record under a name, alone.
pub fn alone_vars(alloc: Global, name: &Name, model: u16, id: u32) -> Result<Vars, Memory>
    ensures { IfOk result (λ vars. vars ≡ (name.now, Val.Record model id) ∷ []) }
{
    let mut vars: Vars = Items::new(alloc);
    vars.push((name.copy(alloc)?, Val::Record { model, id }))?;
    Ok(vars)
}

/// The variables that a partial is rendered with; none where one of them has no type.
pub fn locals_scope<R: Rows>(
    alloc: Global,
    locals: &[Local],
    scope: &Scope,
    schema: &Schema,
    rows: &mut R,
) -> Result<Option<Scope>, Memory>
    requires fits { Fits schema.now (R.table rows.old) }
    requires living { AreLiving (R.table rows.old) scope.now.vars }
    ensures value { IfOk result (λ own. spec.AreLocals schema.now (R.table rows.old) locals.now
        scope.now own) }
    ensures living { IfOk result
        (λ own. IfSome own (λ one. AreLiving (R.table rows.old) one.vars)) }
    ensures table { R.table rows.new ≡ R.table rows.old }
    ensures looks { OnOk result (R.looks rows.new ≤ R.looks rows.old
        + spec.locals_looks schema.now (R.table rows.old) locals.now scope.now.vars) }
{
    let Ok(typing) = locals_typing(alloc, schema, &scope.typing, locals)? else {
        return Ok(None);
    };
    let vars = locals_values(alloc, locals, &scope.vars, schema, rows)?;
    Ok(Some(Scope { typing, vars }))
}

/// The values of the variables that a partial is rendered with.
fn locals_values<R: Rows>(
    alloc: Global,
    locals: &[Local],
    vars: &Vars,
    schema: &Schema,
    rows: &mut R,
) -> Result<Vars, Memory>
    requires fits { Fits schema.now (R.table rows.old) }
    requires living { AreLiving (R.table rows.old) vars.now }
    ensures value { IfOk result (λ own. own ≡ map
        (λ (l : Local). (l.name, value_of l.value vars.now schema.now (R.table rows.old))) locals.now) }
    ensures living { IfOk result (AreLiving (R.table rows.old)) }
    ensures table { R.table rows.new ≡ R.table rows.old }
    ensures looks { OnOk result (R.looks rows.new ≤ R.looks rows.old
        + spec.locals_looks schema.now (R.table rows.old) locals.now vars.now) }
{
    let mut own: Vars = Items::new(alloc);
    for local in locals {
        let value = eval(alloc, &local.value, vars, schema, rows)?;
        own.push((local.name.copy(alloc)?, value))?;
    }
    Ok(own)
}
