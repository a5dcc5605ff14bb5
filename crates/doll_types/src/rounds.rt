//! All that pages reach, round by round.

ghost use Rattle.std.specs.Prelude.{◌≡◌, ◌≤◌, ℕ, suc, List, length, IfOk, OnOk};
ghost use Rattle.doll_set.specs.Sets.{IsSet};
ghost use Rattle.doll_route.specs.declared.route.Route.{Route};
ghost use Rattle.doll_types.specs.Reachings as spec;

use crate::opening::opened;
use crate::reaching::{Reach, expand};
use doll_route::Route;
use doll_schema::Schema;
use doll_set::{LONGEST_CHAIN, TemplateSet};
use doll_text::Memory;
use std::alloc::Global;

/// All that the pages of routes reach, with its calls and its faults. In each round what the one before reached is looked at; no
/// chain is longer than there are rounds.
pub(crate) fn reach_all(
    alloc: Global,
    set: &TemplateSet,
    schema: &Schema,
    routes: &[Route],
) -> Result<Reach, Memory>
    requires set { IsSet set.now.templates set.now.graph set.now.digests }
    ensures reaching { IfOk result (spec.IsReaching set.now schema.now routes.now) }
    ensures all { IfOk result (λ reach. length reach.reached ≤ length reach.calls) }
{
    let mut reach = opened(alloc, set, schema, routes)?;
    for _round in 0..LONGEST_CHAIN {
        let end = reach.reached.len();
        expand_to(alloc, set, schema, end, &mut reach)?;
    }
    Ok(reach)
}

/// Numbers the calls of those that are listed up to a place.
fn expand_to(
    alloc: Global,
    set: &TemplateSet,
    schema: &Schema,
    end: usize,
    reach: &mut Reach,
) -> Result<(), Memory>
    requires set { IsSet set.now.templates set.now.graph set.now.digests }
    requires end { end ≡ length reach.old.reached }
    ensures reaching { (routes : List Route) → spec.IsReaching set.now schema.now routes reach.old
        → OnOk result (spec.IsReaching set.now schema.now routes reach.new) }
    ensures short { (levels : ℕ) → spec.IsShallow set.now.graph (suc levels) reach.old
        → OnOk result (spec.IsShallow set.now.graph levels reach.new) }
{
    'round: while reach.calls.len() < end {
        expand(alloc, set, schema, reach)?;
    }
    Ok(())
}
