//! What a lint finds in all that pages reach.

ghost use Rattle.std.specs.Prelude.{List, IfOk, OnOk};
ghost use Rattle.doll_route.specs.declared.route.Route.{Route};
ghost use Rattle.doll_types.specs.Reached.{AreReached};
ghost use Rattle.doll_lint.specs.Faults.{AreLintFaults};
ghost use Rattle.doll_lint.specs.Found as spec;

use crate::fault::LintFaults;
use crate::found::{Found, copy_typing};
use crate::order::in_order;
use crate::shared::add_shared;
use crate::walk::{Ground, add_blocks, tree_at};
use doll_schema::Schema;
use doll_set::TemplateSet;
use doll_text::Memory;
use doll_types::Reached;
use std::alloc::Global;

/// What is found at the blocks of all that pages reach.
pub fn find_blocks(
    alloc: Global,
    set: &TemplateSet,
    schema: &Schema,
    reached: &[Reached],
) -> Result<Found, Memory>
    ensures { IfOk result (spec.AreFound set.now schema.now reached.now) }
{
    let mut found = Found {
        faults: Vec::new(alloc),
        notes: Vec::new(alloc),
    };
    add_all(alloc, set, schema, reached, &mut found)?;
    Ok(found)
}

/// Finds the blocks of what pages reach.
fn add_all(
    alloc: Global,
    set: &TemplateSet,
    schema: &Schema,
    reached: &[Reached],
    found: &mut Found,
) -> Result<(), Memory>
    ensures { OnOk result (spec.Grows set.now schema.now
        (spec.all_blocks set.now schema.now reached.now) found.old found.new) }
{
    for one in reached {
        add_reached(alloc, set, schema, one, found)?;
    }
    Ok(())
}

/// Finds the blocks of a template with the types of its variables.
fn add_reached(
    alloc: Global,
    set: &TemplateSet,
    schema: &Schema,
    one: &Reached,
    found: &mut Found,
) -> Result<(), Memory>
    ensures { OnOk result (spec.Grows set.now schema.now
        (spec.reached_blocks set.now schema.now one.now) found.old found.new) }
{
    let number = one.template;
    let ground = Ground {
        set,
        schema,
        number,
    };
    let mut typing = copy_typing(alloc, &one.typing)?;
    add_blocks(alloc, &ground, tree_at(set, number), &mut typing, found)
}

/// The faults of all that pages reach, each once, in their order.
#[tactic(auto, using(crate::proofs::Answering::are_faults))]
pub fn faults_of(
    alloc: Global,
    set: &TemplateSet,
    schema: &Schema,
    reached: &[Reached],
) -> Result<LintFaults, Memory>
    ensures { (routes : List Route) → AreReached set.now schema.now routes reached.now
        → IfOk result (AreLintFaults set.now schema.now routes) }
{
    let Found { faults, notes } = find_blocks(alloc, set, schema, reached)?;
    let mut faults = faults;
    add_shared(alloc, set, notes, &mut faults)?;
    Ok(in_order(faults)?)
}
