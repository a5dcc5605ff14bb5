//! The value of an expression.

ghost use Rattle.std.specs.Prelude.{◌≡◌, ◌+◌, ◌≤◌, ℕ, List, IfOk, find, reverse, bytes_eq};
ghost use Rattle.std.specs.Option.{option_copied, option_map_or};
ghost use Rattle.doll_schema.specs.declared.value.Val.{Val};
ghost use Rattle.doll_table.specs.Tables.{TableMap};
ghost use Rattle.doll_table.specs.Fits.{Fits};
ghost use Rattle.doll_eval.specs.Living.{IsLiving, AreLiving};
ghost use Rattle.doll_eval.specs.Operations;
ghost use Rattle.doll_eval.specs.Values.{value_of, looks_of, variable};

use crate::operators::{ask, is_settled, negate, nil, not, operate, truth};
use crate::steps::step;
use doll_expr::{Copied, Expr, Memory, Name};
use doll_schema::{Schema, Val, Value, Vars};
use doll_table::Rows;
use std::alloc::Global;

/// The value of an expression under these variables.
pub fn eval<R: Rows>(
    alloc: Global,
    expr: &Expr,
    vars: &Vars,
    schema: &Schema,
    rows: &mut R,
) -> Result<Val, Memory>
    requires fits { Fits schema.now (R.table rows.old) }
    requires living { AreLiving (R.table rows.old) vars.now }
    ensures value { IfOk result
        (λ v. v ≡ value_of expr.now vars.now schema.now (R.table rows.old)) }
    ensures living { IfOk result (λ v. IsLiving (R.table rows.old) v) }
    ensures table { R.table rows.new ≡ R.table rows.old }
    ensures looks { R.looks rows.new ≤ R.looks rows.old + looks_of expr.now vars.now schema.now
        (R.table rows.old) }
{
    match expr {
        Expr::Nil => Ok(nil()),
        Expr::True => Ok(truth(true)),
        Expr::False => Ok(truth(false)),
        Expr::Int(number) => Ok(Val::Plain(Value::Int(*number))),
        Expr::Text(text) => Ok(Val::Plain(Value::Text(text.copy(alloc)?))),
        Expr::Var(name) => look_up(alloc, vars, name.as_bytes()),
        Expr::Step(of, name) => {
            let from = eval(alloc, of.get(), vars, schema, rows)?;
            step(alloc, from, name, schema, rows)
        }
        Expr::Ask(of, query) => Ok(ask(*query, eval(alloc, of.get(), vars, schema, rows)?)),
        Expr::Not(of) => Ok(not(eval(alloc, of.get(), vars, schema, rows)?)),
        Expr::Neg(of) => Ok(negate(eval(alloc, of.get(), vars, schema, rows)?)),
        Expr::Binary(op, left, right) => {
            let left = eval(alloc, left.get(), vars, schema, rows)?;
            if is_settled(*op, &left) {
                return Ok(left);
            }
            let right = eval(alloc, right.get(), vars, schema, rows)?;
            operate(alloc, *op, left, right)
        }
    }
}

/// The value of a variable, nil where it isn't bound.
pub fn look_up(alloc: Global, vars: &Vars, name: &[u8]) -> Result<Val, Memory>
    ensures value { IfOk result (λ v. v ≡ variable vars.now name.now) }
    ensures living { (table : TableMap) → AreLiving table vars.now → IfOk result
        (λ v. IsLiving table v) }
{
    held_copy(alloc, last_binding(vars, name))
}

fn held_copy(alloc: Global, binding: Option<&(Name, Val)>) -> Result<Val, Memory>
    ensures { IfOk result
        (λ v. v ≡ option_map_or (λ (b : List ℕ × Val). b.1) (option_copied binding.entry)
        Operations.nil) }
{
    match binding {
        Some(binding) => binding.1.copy(alloc),
        None => Ok(nil()),
    }
}

/// The last binding of a name.
fn last_binding<'a>(vars: &'a Vars, name: &[u8]) -> Option<&'a (Name, Val)>
    ensures { option_copied result ≡ find (λ (b : List ℕ × Val). bytes_eq b.0 name.now)
        (reverse vars.now) }
{
    vars.as_slice()
        .iter()
        .rev()
        .find(|binding| binding.0.as_bytes() == name)
}
