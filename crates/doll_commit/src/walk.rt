//! A walk over records: from some to all that they lead to.

ghost use Rattle.std.specs.Prelude.{◌≡◌, IfOk, OnOk};
ghost use Rattle.doll_commit.specs.Refs.{with_refs, closure};
ghost use Rattle.doll_commit.specs.Walk.{steps_from};

use crate::refs::{Ref, Refs};
use crate::removal::add_dependents;
use crate::touched::add_touch_parents;
use doll_schema::Schema;
use doll_table::Table;
use doll_text::Memory;

/// How a record leads to others.
#[derive(Clone, Copy)]
pub enum Step {
    /// To the records that go because it goes.
    Dependents,
    /// To the records that are touched because it is.
    TouchParents,
}

/// The records, and all that steps lead to from them.
pub fn reached(step: Step, table: &Table, schema: &Schema, seeds: Refs) -> Result<Refs, Memory>
    ensures { IfOk result
        (λ all. all ≡ closure (steps_from step table.now schema.now) table.now seeds) }
{
    let mut all = seeds;
    let mut at = 0;
    while let Some(one) = all.get(at) {
        add_next(step, &mut all, table, schema, one)?;
        at += 1;
    }
    Ok(all)
}

/// Adds the records that a step leads to from one.
fn add_next(
    step: Step,
    refs: &mut Refs,
    table: &Table,
    schema: &Schema,
    one: Ref,
) -> Result<(), Memory>
    ensures { OnOk result (refs.new ≡ with_refs refs.old (steps_from step table.now schema.now one)) }
{
    match step {
        Step::Dependents => add_dependents(refs, table, schema, one),
        Step::TouchParents => add_touch_parents(refs, schema, table, one),
    }
}
