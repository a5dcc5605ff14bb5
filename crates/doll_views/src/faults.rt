//! The schema and the routes of a bundle, and their faults as the bundle's.

ghost use Rattle.std.specs.Prelude.{◌≡◌, option_map, IfOk};
ghost use Rattle.serde_json.specs.View.{view};
ghost use Rattle.doll_text.specs.Gives.{Gives};
ghost use Rattle.doll_schema.specs.Schemas.{schema_of};
ghost use Rattle.doll_route.specs.Routes.{AreRoutesOf};
ghost use Rattle.doll_views.specs.Faults.{or_schema_refusal, schema_refusal, route_refusal, routes_in};

use crate::refusal::{BundlePart, Kind, Refusal};
use doll_route::{RouteFault, Routes};
use doll_schema::{Schema, SchemaFault};
use serde_json::Value;
use std::alloc::Global;

/// A schema's fault as the bundle's.
fn schema_refusal(fault: SchemaFault) -> Refusal
    ensures { result ≡ schema_refusal fault }
{
    let (at, kind) = match fault {
        SchemaFault::BadForm { at } => (at, Kind::BadForm),
        SchemaFault::TooMany { at } => (at, Kind::TooMany),
        SchemaFault::UnknownKind { at } => (at, Kind::UnknownKind),
        SchemaFault::DuplicateName { at } => (at, Kind::DuplicateName),
        SchemaFault::UnknownModel { at } => (at, Kind::UnknownModel),
        SchemaFault::BadInverse { at } => (at, Kind::BadInverse),
        SchemaFault::Memory => return Refusal::Memory,
    };
    Refusal::Refused {
        part: BundlePart::Schema,
        number: u64::from(at.model),
        kind,
    }
}

/// The schema of a bundle.
pub fn schema_in(alloc: Global, schema: &Value) -> Result<Schema, Refusal>
    ensures { Gives Refusal.Memory (or_schema_refusal (schema_of (view schema.now))) result }
{
    match Schema::read(alloc, schema) {
        Ok(schema) => Ok(schema),
        Err(fault) => Err(schema_refusal(fault)),
    }
}

/// A route's fault as the bundle's.
fn route_refusal(fault: RouteFault) -> Refusal
    ensures { result ≡ route_refusal fault }
{
    let (number, kind) = match fault {
        RouteFault::BadForm { at } => (at, Kind::BadForm),
        RouteFault::BadPath { at } => (at, Kind::BadPath),
        RouteFault::Reserved { at } => (at, Kind::Reserved),
        RouteFault::UnknownModel { at } => (at, Kind::UnknownModel),
        RouteFault::Duplicate { at } => (at, Kind::Duplicate),
        RouteFault::TooMany { at } => (at, Kind::TooMany),
        RouteFault::Memory => return Refusal::Memory,
    };
    Refusal::Refused {
        part: BundlePart::Routes,
        number: u64::from(number),
        kind,
    }
}

/// The routes of a bundle, none where they are left out.
pub fn routes_in(alloc: Global, schema: &Schema, routes: Option<&Value>) -> Result<Routes, Refusal>
    ensures exact { Gives Refusal.Memory
        (routes_in schema.now (option_map (λ d. view d.now) routes.entry)) result }
    ensures fits { IfOk result (AreRoutesOf schema.now) }
{
    let Some(routes) = routes else {
        return Ok(Routes::empty(alloc));
    };
    match Routes::read(alloc, routes, schema) {
        Ok(routes) => Ok(routes),
        Err(fault) => Err(route_refusal(fault)),
    }
}
