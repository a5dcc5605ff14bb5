//! Sets of templates that are typed.

ghost use Rattle.std.specs.Prelude.{◌≡◌, IfOk};
ghost use Rattle.doll_types.specs.Sets as spec;

use crate::fault::{TypeRefusal, in_order};
use crate::reached::Reached;
use crate::reaching::Reach;
use crate::rounds::reach_all;
use doll_route::{Route, Routes};
use doll_schema::Schema;
use doll_set::TemplateSet;
use doll_text::{Items, Memory};
use std::alloc::Global;
use std::marker::Model;

/// A set of templates in which no page of its routes has a fault of types, with what the pages reach.
#[derive(Drop)]
pub struct Typed {
    set: TemplateSet,
    schema: Schema,
    routes: Items<Route>,
    reached: Items<Reached>,
    calls: Items<Items<usize>>,
}

impl Model for Typed {
    ghost use Rattle.std.specs.Coded.{codes};
    ghost use Rattle.doll_erb.specs.contracts.node.Node as node;
    ghost use Rattle.doll_types.specs.Sets.{TypedSet, IsTypedSet};

    ghost Value = { TypedSet };

    ghost coded = { Prim.hlevel (codes, node.the_row.coded) };

    ghost view = { λ t. record { set = t.set; schema = t.schema; routes = t.routes; reached = t.reached; calls = t.calls } };

    ghost invariant = { λ t. IsTypedSet (record { set = t.set; schema = t.schema; routes = t.routes; reached = t.reached; calls = t.calls }) };
}

impl Typed {
    /// The set of templates.
    pub fn set(&self) -> &TemplateSet
        ensures value { result.now ≡ self.now.set }
        ensures typed { spec.IsTypedSet self.now }
    {
        &self.set
    }

    /// The schema.
    pub fn schema(&self) -> &Schema
        ensures { result.now ≡ self.now.schema }
    {
        &self.schema
    }

    /// The templates that pages reach, each with the types of its variables, by their numbers.
    pub fn reached(&self) -> &[Reached]
        ensures { result.now ≡ self.now.reached }
    {
        self.reached.as_slice()
    }

    /// Of each of these the numbers of the partials that it renders, in the order of the text.
    pub fn calls(&self) -> &[Items<usize>]
        ensures { result.now ≡ self.now.calls }
    {
        self.calls.as_slice()
    }
}

/// Types what the pages of routes reach. Each template is typed once with each typing with which a page reaches it; no other
/// template is. The routes are those of this schema.
pub fn type_set(
    alloc: Global,
    set: TemplateSet,
    schema: Schema,
    routes: &Routes,
) -> Result<Typed, TypeRefusal>
    ensures { spec.IsAnswered set schema routes.now result }
{
    let _templates = set.templates();
    let Reach {
        reached,
        calls,
        faults,
        ..
    } = reach_all(alloc, &set, &schema, routes.as_slice())?;
    let faults = in_order(faults)?;
    if !faults.is_empty() {
        return Err(TypeRefusal::Faults(faults));
    }
    let routes = copy_routes(alloc, routes.as_slice())?;
    Ok(Typed {
        set,
        schema,
        routes,
        reached,
        calls,
    })
}

/// The same routes.
fn copy_routes(alloc: Global, routes: &[Route]) -> Result<Items<Route>, Memory>
    ensures { IfOk result (λ copy. copy ≡ routes.now) }
{
    let mut copy = Items::new(alloc);
    for route in routes {
        copy.push(copy_route(alloc, route)?)?;
    }
    Ok(copy)
}

fn copy_route(alloc: Global, route: &Route) -> Result<Route, Memory>
    ensures { IfOk result (λ copy. copy ≡ route.now) }
{
    let mut params = Items::new(alloc);
    for name in route.params.as_slice() {
        params.push(name.copy(alloc)?)?;
    }
    Ok(Route {
        path: route.path.copy(alloc)?,
        template: route.template.copy(alloc)?,
        subject: route.subject,
        params,
    })
}
