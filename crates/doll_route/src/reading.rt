//! Reading a route from JSON.

ghost use Rattle.std.specs.Prelude.{◌≡◌, ◌<◌, ◌≤◌, ◌∷◌, ◌++◌, [], true, false, not, length, option_map, IfOk, IfSome, OnOk, bytes_eq};
ghost use Rattle.std.specs.List.{list_any};
ghost use Rattle.serde_json.specs.View.{view};
ghost use Rattle.doll_text.specs.Gives.{Gives};
ghost use Rattle.doll_text.specs.Segments.{is_virtual_path};
ghost use Rattle.doll_route.specs.Readings.{has_id_of, route_from, route_in, subject_of};
ghost use Rattle.doll_route.specs.Routes.{FitsSchema, IsRoute, are_distinct, has_path, is_own_among, subject_model, texts_in, variable_of};

use crate::draft::{Named, RouteDraft, draft_of};
use crate::fault::RouteFault;
use crate::limits::{MOST_PARAMS, MOST_ROUTES};
use crate::path::{is_path, is_reserved_path, names_id};
use crate::route::{Route, Subject};
use doll_schema::Schema;
use doll_text::{Memory, Name};
use indexmap::IndexSet;
use serde_json::Value;
use std::alloc::Global;

/// The route that a JSON value is, behind the earlier ones.
pub fn route_in(
    alloc: Global,
    schema: &Schema,
    earlier: &[Route],
    json: &Value,
) -> Result<Route, RouteFault>
    requires { length earlier.now ≤ MOST_ROUTES }
    ensures exact { Gives RouteFault.Memory (route_in schema.now earlier.now (view json.now))
        result }
    ensures route { IfOk result IsRoute }
    ensures fits { IfOk result (FitsSchema schema.now) }
    ensures fresh { IfOk result (λ route. has_path earlier.now route.path ≡ false) }
    ensures room { OnOk result (length earlier.now < MOST_ROUTES) }
{
    let draft = draft_of(alloc, earlier.len() as u32, json)?;
    route_from(alloc, schema, earlier, draft)
}

/// A draft as a route, its model looked up.
fn route_from(
    alloc: Global,
    schema: &Schema,
    earlier: &[Route],
    draft: RouteDraft,
) -> Result<Route, RouteFault>
    requires room { length earlier.now ≤ MOST_ROUTES }
    requires template { is_virtual_path draft.template ≡ true }
    ensures exact { Gives RouteFault.Memory (route_from schema.now earlier.now draft) result }
    ensures route { IfOk result IsRoute }
    ensures fits { IfOk result (FitsSchema schema.now) }
    ensures fresh { IfOk result (λ route. has_path earlier.now route.path ≡ false) }
    ensures room { OnOk result (length earlier.now < MOST_ROUTES) }
{
    let at = earlier.len() as u32;
    let path = draft.path.as_bytes();
    if !is_path(path) {
        return Err(RouteFault::BadPath { at });
    }
    if !has_id_of(&draft.named, path) {
        return Err(RouteFault::BadPath { at });
    }
    if is_reserved_path(path) {
        return Err(RouteFault::Reserved { at });
    }
    let Some(subject) = subject_of(schema, &draft.named) else {
        return Err(RouteFault::UnknownModel { at });
    };
    if has_path(earlier, path) {
        return Err(RouteFault::Duplicate { at });
    }
    if has_variable(schema, subject, draft.params.as_slice()) {
        return Err(RouteFault::Duplicate { at });
    }
    if !are_distinct(alloc, draft.params.as_slice())? {
        return Err(RouteFault::Duplicate { at });
    }
    if draft.params.len() > MOST_PARAMS {
        return Err(RouteFault::TooMany { at });
    }
    if at >= MOST_ROUTES {
        return Err(RouteFault::TooMany { at });
    }
    Ok(Route {
        path: draft.path,
        template: draft.template,
        subject,
        params: draft.params,
    })
}

/// Whether an id stands in the path of a record's route, and in no other.
fn has_id_of(named: &Named, path: &[u8]) -> bool
    ensures { result ≡ has_id_of named.now path.now }
{
    if named.names_record() {
        names_id(path)
    } else {
        !names_id(path)
    }
}

/// What a route is about, its model looked up.
fn subject_of(schema: &Schema, named: &Named) -> Option<Subject>
    ensures subject { result ≡ subject_of schema.now named.now }
    ensures within { IfSome result (λ subject. IfSome (subject_model subject)
        (λ model. model < length schema.now.models)) }
{
    match named {
        Named::Nothing => Some(Subject::Nothing),
        Named::Record(name) => {
            let model = schema.model_named(name.as_bytes())?;
            Some(Subject::Record { model })
        }
        Named::List(name) => {
            let model = schema.model_named(name.as_bytes())?;
            Some(Subject::List { model })
        }
    }
}

/// Whether a route has a path.
fn has_path(routes: &[Route], path: &[u8]) -> bool
    ensures { result ≡ has_path routes.now path.now }
{
    routes.iter().any(|route| path == route.path.as_bytes())
}

/// Whether a parameter is the variable of the route's record or list.
fn has_variable(schema: &Schema, subject: Subject, params: &[Name]) -> bool
    ensures { result ≡ is_own_among (variable_of schema.now subject) params.now }
{
    match variable_of(schema, subject) {
        Some(own) => is_among(params, own),
        None => false,
    }
}

/// The variable of a route's record or list.
pub fn variable_of(schema: &Schema, subject: Subject) -> Option<&[u8]>
    ensures { option_map (λ own. own.now) result ≡ variable_of schema.now subject }
{
    match subject {
        Subject::Nothing => None,
        Subject::Record { model } => Some(schema.model(model)?.name.as_bytes()),
        Subject::List { model } => Some(schema.model(model)?.plural.as_bytes()),
    }
}

/// Whether no name stands twice. There may be many before it is told that they are too many, so they are looked up by their hash.
#[tactic(auto, using(crate::proofs::Distinct::all_apart))]
fn are_distinct(alloc: Global, mut names: &[Name]) -> Result<bool, Memory>
    ensures { IfOk result (λ distinct. distinct ≡ are_distinct names.entry.now) }
{
    let mut seen = IndexSet::new(alloc);
    while let [name, rest @ ..] = names {
        if !add_new(alloc, &mut seen, name.as_bytes())? {
            return Ok(false);
        }
        names = rest;
    }
    Ok(true)
}

/// Puts a name among others, and tells whether it wasn't there.
fn add_new(alloc: Global, seen: &mut IndexSet<Vec<u8>>, name: &[u8]) -> Result<bool, Memory>
    ensures told { IfOk result (λ new. new
        ≡ not (list_any (bytes_eq name.now) (texts_in seen.old.keys))) }
    ensures added { IfOk result (λ new. new ≡ true
        → texts_in seen.new.keys ≡ texts_in seen.old.keys ++ name.now ∷ []) }
{
    let name = Vec::from_slice(alloc, name)?;
    Ok(seen.insert(name)?)
}

fn is_among(names: &[Name], name: &[u8]) -> bool
    ensures { result ≡ list_any (bytes_eq name.now) names.now }
{
    names.iter().any(|other| name == other.as_bytes())
}
