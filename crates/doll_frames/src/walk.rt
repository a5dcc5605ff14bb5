//! Records that are gone through one after another.

ghost use Rattle.std.specs.Prelude.{◌≡◌, ◌+◌, ◌≤◌, IfOk, OnOk, IfSome};
ghost use Rattle.doll_table.specs.Fits.{Fits};
ghost use Rattle.doll_eval.specs.Living.{AreLiving};
ghost use Rattle.doll_eval.specs.Values.{looks_of};
ghost use Rattle.doll_frames.specs.Walks as spec;

use crate::scope::Scope;
use doll_eval::eval;
use doll_expr::{Expr, Ids};
use doll_schema::{Schema, Val};
use doll_table::Rows;
use doll_text::Memory;
use doll_types::{ValueType, items_type};
use std::alloc::Global;

/// Records of one model with their type, and how many of them were passed.
#[derive(Drop)]
pub struct Walk {
    pub of: ValueType,
    pub model: u16,
    pub ids: Ids,
    pub at: usize,
}

/// The items of a list, of which none was passed; none where it has no items by its type.
pub fn begin_walk<R: Rows>(
    alloc: Global,
    list: &Expr,
    scope: &Scope,
    schema: &Schema,
    rows: &mut R,
) -> Result<Option<Walk>, Memory>
    requires fits { Fits schema.now (R.table rows.old) }
    requires living { AreLiving (R.table rows.old) scope.now.vars }
    ensures value { IfOk result
        (λ walk. spec.Begins schema.now (R.table rows.old) list.now scope.now walk) }
    ensures living { IfOk result (λ walk. IfSome walk (spec.Lives (R.table rows.old))) }
    ensures table { R.table rows.new ≡ R.table rows.old }
    ensures looks { OnOk result (R.looks rows.new ≤ R.looks rows.old
        + looks_of list.now scope.now.vars schema.now (R.table rows.old)) }
{
    let Ok(of) = items_type(alloc, schema, &scope.typing, list)? else {
        return Ok(None);
    };
    let value = eval(alloc, list, &scope.vars, schema, rows)?;
    Ok(Some(walk_of(alloc, of, value)))
}

/// The items of a value; what is no list has none.
fn walk_of(alloc: Global, of: ValueType, value: Val) -> Walk
    ensures { result ≡ spec.walk_of of value }
{
    match value {
        Val::List { model, ids } => Walk {
            of,
            model,
            ids,
            at: 0,
        },
        _ => Walk {
            of,
            model: 0,
            ids: Ids::new(alloc),
            at: 0,
        },
    }
}
