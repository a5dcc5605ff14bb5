//! Variables of a body, and the items that they stand for.

ghost use Rattle.std.specs.Prelude.{◌≡◌, ◌++◌, ◌∷◌, ◌-◌, [], IfOk, OnOk, length, map, take};
ghost use Rattle.doll_table.specs.Fits.{Fits};
ghost use Rattle.doll_eval.specs.Living.{IsLiving, AreLiving};
ghost use Rattle.doll_erb.specs.declared.node.Local.{Local};
ghost use Rattle.doll_eval.specs.Operations;
ghost use Rattle.doll_eval.specs.Values.{value_of};
ghost use Rattle.doll_plain.specs.Direct.{items_of};

use doll_erb::Local;
use doll_eval::{eval, is_true};
use doll_expr::{Copied, Expr, Ids, Items, Memory, Name};
use doll_schema::{Schema, Val, Vars};
use doll_table::Rows;
use std::alloc::Global;

/// Records of one model, in order.
#[derive(Drop)]
pub struct Records {
    pub model: u16,
    pub ids: Ids,
}

/// Whether a test holds.
pub fn holds<R: Rows>(
    alloc: Global,
    test: &Expr,
    vars: &Vars,
    schema: &Schema,
    rows: &mut R,
) -> Result<bool, Memory>
    requires fits { Fits schema.now (R.table rows.old) }
    requires living { AreLiving (R.table rows.old) vars.now }
    ensures value { IfOk result (λ held. held ≡ Operations.is_true (value_of test.now vars.now schema.now (R.table rows.old))) }
    ensures table { R.table rows.new ≡ R.table rows.old }
{
    let value = eval(alloc, test, vars, schema, rows)?;
    Ok(is_true(&value))
}

/// The items of a list, none of what is no list.
pub fn items<R: Rows>(
    alloc: Global,
    list: &Expr,
    vars: &Vars,
    schema: &Schema,
    rows: &mut R,
) -> Result<Records, Memory>
    requires fits { Fits schema.now (R.table rows.old) }
    requires living { AreLiving (R.table rows.old) vars.now }
    ensures value { IfOk result (λ r. map (λ id. Val.Record r.model id) r.ids ≡ items_of (value_of list.now vars.now schema.now (R.table rows.old))) }
    ensures living { IfOk result (λ r. IsLiving (R.table rows.old) (Val.List r.model r.ids)) }
    ensures table { R.table rows.new ≡ R.table rows.old }
{
    match eval(alloc, list, vars, schema, rows)? {
        Val::List { model, ids } => Ok(Records { model, ids }),
        _ => Ok(Records {
            model: 0,
            ids: Ids::new(alloc),
        }),
    }
}

/// Binds a name to a record, after all other variables.
pub fn bind(alloc: Global, name: &Name, model: u16, id: u32, vars: &mut Vars) -> Result<(), Memory>
    ensures { OnOk result (vars.new ≡ vars.old ++ (name.now, Val.Record model id) ∷ []) }
{
    let name = name.copy(alloc)?;
    vars.push((name, Val::Record { model, id }))?;
    Ok(())
}

/// A record under a name, alone.
pub fn one_var(alloc: Global, name: &Name, model: u16, id: u32) -> Result<Vars, Memory>
    ensures { IfOk result (λ own. own ≡ (name.now, Val.Record model id) ∷ []) }
{
    let mut alone: Vars = Items::new(alloc);
    bind(alloc, name, model, id, &mut alone)?;
    Ok(alone)
}

/// The variables of a partial, each with the value of its expression.
pub fn locals_of<R: Rows>(
    alloc: Global,
    locals: &[Local],
    vars: &Vars,
    schema: &Schema,
    rows: &mut R,
) -> Result<Vars, Memory>
    requires fits { Fits schema.now (R.table rows.old) }
    requires living { AreLiving (R.table rows.old) vars.now }
    ensures value { IfOk result (λ own. own ≡ map
        (λ (l : Local). (l.name, value_of l.value vars.now schema.now (R.table rows.old))) locals.now) }
    ensures living { IfOk result (AreLiving (R.table rows.old)) }
    ensures table { R.table rows.new ≡ R.table rows.old }
{
    let mut own: Vars = Items::new(alloc);
    for local in locals {
        let value = eval(alloc, &local.value, vars, schema, rows)?;
        own.push((local.name.copy(alloc)?, value))?;
    }
    Ok(own)
}

/// Takes the last variable away.
#[tactic(auto, using(crate::proofs::Parts::front_is))]
pub fn unbind(vars: &mut Vars)
    ensures { vars.new ≡ take (length vars.old - 1) vars.old }
{
    vars.pop();
}
