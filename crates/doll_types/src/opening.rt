//! The templates that routes open.

ghost use Rattle.std.specs.Prelude.{◌≡◌, ◌++◌, ◌∷◌, [], IfOk, OnOk};
ghost use Rattle.doll_types.specs.Reached as reached;
ghost use Rattle.doll_types.specs.Reachings as spec;

use crate::fault::TypeFault;
use crate::findings::bind;
use crate::reaching::{Reach, number_of};
use crate::types::{TypeKind, Typing, ValueType};
use doll_route::{Route, Subject};
use doll_schema::Schema;
use doll_set::TemplateSet;
use doll_text::{Items, Memory};
use indexmap::IndexMap;
use std::alloc::Global;

/// What all routes open, and the faults of those whose template isn't there.
#[tactic(auto, using(crate::proofs::Opens::none_opened, crate::proofs::Opens::opens_more, crate::proofs::Opens::all_opened))]
pub(crate) fn opened(
    alloc: Global,
    set: &TemplateSet,
    schema: &Schema,
    routes: &[Route],
) -> Result<Reach, Memory>
    ensures { IfOk result (spec.AreOpened set.now schema.now routes.now) }
{
    let mut reach = Reach {
        reached: Items::new(alloc),
        calls: Items::new(alloc),
        faults: Vec::new(alloc),
        numbers: IndexMap::new(alloc),
    };
    for route in routes {
        open(alloc, set, schema, route, &mut reach)?;
    }
    Ok(reach)
}

/// What one route opens, or its fault.
#[tactic(auto, using(crate::proofs::Opens::opens_one, crate::proofs::Opens::opens_none))]
fn open(
    alloc: Global,
    set: &TemplateSet,
    schema: &Schema,
    route: &Route,
    reach: &mut Reach,
) -> Result<(), Memory>
    ensures { OnOk result (spec.IsOpened set.now schema.now route.now reach.old reach.new) }
{
    let Some(number) = set.number_of(route.template.as_bytes()) else {
        return add_missing(alloc, route, reach);
    };
    let typing = route_typing(alloc, schema, route)?;
    number_of(alloc, reach, number, &typing)?;
    Ok(())
}

/// Lists the fault of a route whose template isn't there.
fn add_missing(alloc: Global, route: &Route, reach: &mut Reach) -> Result<(), Memory>
    ensures faults { OnOk result (reach.new.faults.items ≡ reach.old.faults.items
        ++ record { template = route.now.template; at = 0; kind = TypeKind.MissingTemplate } ∷ []) }
    ensures reached { reach.new.reached ≡ reach.old.reached }
    ensures calls { reach.new.calls ≡ reach.old.calls }
{
    let template = route.template.copy(alloc)?;
    reach.faults.push(TypeFault {
        template,
        at: 0,
        kind: TypeKind::MissingTemplate,
    })?;
    Ok(())
}

/// The variables of a route with their types.
fn route_typing(alloc: Global, schema: &Schema, route: &Route) -> Result<Typing, Memory>
    ensures { IfOk result (λ typing. typing ≡ reached.route_typing schema.now route.now) }
{
    let mut typing = subject_typing(alloc, schema, route.subject)?;
    for name in route.params.as_slice() {
        bind(alloc, name, ValueType::Text, &mut typing)?;
    }
    Ok(typing)
}

/// The record or the list that a route binds to its variable.
fn subject_typing(alloc: Global, schema: &Schema, subject: Subject) -> Result<Typing, Memory>
    ensures { IfOk result (λ typing. typing ≡ reached.subject_typing schema.now subject) }
{
    let mut typing = Items::new(alloc);
    match subject {
        Subject::Record { model } => {
            let Some(of) = schema.model(model) else {
                return Ok(typing);
            };
            bind(alloc, &of.name, ValueType::Record { model }, &mut typing)?;
            Ok(typing)
        }
        Subject::List { model } => {
            let Some(of) = schema.model(model) else {
                return Ok(typing);
            };
            bind(alloc, &of.plural, ValueType::List { model }, &mut typing)?;
            Ok(typing)
        }
        Subject::Nothing => Ok(typing),
    }
}
