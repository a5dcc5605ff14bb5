//! Routes as they are written: what they are about is still a name.

ghost use Rattle.std.specs.Prelude.{◌≡◌, true, option_map, IfOk};
ghost use Rattle.std.specs.Option.{ok_or};
ghost use Rattle.serde_json.specs.Find.{as_str};
ghost use Rattle.serde_json.specs.View.{view};
ghost use Rattle.doll_text.specs.Gives.{Gives};
ghost use Rattle.doll_text.specs.Segments.{is_virtual_path};
ghost use Rattle.doll_route.specs.Drafts.{draft_of, name_in, names_record, named_at, names_at, virtual_path_at};

use crate::fault::RouteFault;
use crate::route::Names;
use doll_schema::json::{has_only, list_or_empty, text_at};
use doll_text::{Items, Name, Text, is_name, is_virtual_path};
use serde_json::Value;
use std::alloc::Global;

/// What a route is about: nothing, or a record or all records of the model with a name.
#[derive(Drop)]
pub enum Named {
    Nothing,
    Record(Text),
    List(Text),
}

impl Named {
    /// Whether a record is named.
    pub fn names_record(&self) -> bool
        ensures { result ≡ names_record self.now }
    {
        match self {
            Named::Record(_) => true,
            Named::List(_) => false,
            Named::Nothing => false,
        }
    }
}

/// A route whose model isn't looked up yet.
#[derive(Drop)]
pub struct RouteDraft {
    pub path: Text,
    pub template: Name,
    pub named: Named,
    pub params: Names,
}

/// The draft of the route with a number, where the JSON keeps the form of one.
pub fn draft_of(alloc: Global, at: u32, json: &Value) -> Result<RouteDraft, RouteFault>
    ensures exact { Gives RouteFault.Memory (draft_of at (view json.now)) result }
    ensures template { IfOk result (λ draft. is_virtual_path draft.template ≡ true) }
{
    if !has_only(json, &["path", "template", "record", "list", "params"]) {
        return Err(RouteFault::BadForm { at });
    }
    let Some(path) = text_at(json, "path") else {
        return Err(RouteFault::BadForm { at });
    };
    let Some(template) = virtual_path_at(json, "template") else {
        return Err(RouteFault::BadForm { at });
    };
    let named = named_at(alloc, at, json)?;
    let params = names_at(alloc, at, json)?;
    Ok(RouteDraft {
        path: Text::from_bytes(alloc, path.as_bytes())?,
        template: Name::from_bytes(alloc, template.as_bytes())?,
        named,
        params,
    })
}

/// The virtual path under a key.
fn virtual_path_at<'a>(json: &'a Value, key: &str) -> Option<&'a str>
    ensures { option_map (λ s. s.now) result ≡ virtual_path_at key.now (view json.now) }
{
    let text = text_at(json, key)?;
    if is_virtual_path(text.as_bytes()) {
        Some(text)
    } else {
        None
    }
}

/// What a route is about: a record or a list, but not both.
fn named_at(alloc: Global, at: u32, json: &Value) -> Result<Named, RouteFault>
    ensures { Gives RouteFault.Memory (ok_or (named_at (view json.now)) (RouteFault.BadForm at))
        result }
{
    match (json.get("record"), json.get("list")) {
        (None, None) => Ok(Named::Nothing),
        (Some(record), None) => Ok(Named::Record(text_in(alloc, at, record)?)),
        (None, Some(list)) => Ok(Named::List(text_in(alloc, at, list)?)),
        (Some(_), Some(_)) => Err(RouteFault::BadForm { at }),
    }
}

/// The text that a value is.
fn text_in(alloc: Global, at: u32, json: &Value) -> Result<Text, RouteFault>
    ensures { Gives RouteFault.Memory (ok_or (as_str (view json.now)) (RouteFault.BadForm at))
        result }
{
    let Some(text) = json.as_str() else {
        return Err(RouteFault::BadForm { at });
    };
    Ok(Text::from_bytes(alloc, text.as_bytes())?)
}

/// The names of the parameters, which may be left out.
fn names_at(alloc: Global, at: u32, json: &Value) -> Result<Names, RouteFault>
    ensures { Gives RouteFault.Memory (names_at at (view json.now)) result }
{
    let Some(items) = list_or_empty(json, "params") else {
        return Err(RouteFault::BadForm { at });
    };
    let mut names = Items::new(alloc);
    for item in items {
        let Some(name) = name_in(item) else {
            return Err(RouteFault::BadForm { at });
        };
        names.push(Name::from_bytes(alloc, name.as_bytes())?)?;
    }
    Ok(names)
}

/// The name that a value is.
fn name_in(json: &Value) -> Option<&str>
    ensures { option_map (λ s. s.now) result ≡ name_in (view json.now) }
{
    let text = json.as_str()?;
    if is_name(text.as_bytes()) {
        Some(text)
    } else {
        None
    }
}
