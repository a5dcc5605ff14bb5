//! Faults of a schema and of routes, explained.

use crate::words::{Words, route_words, schema_words};
use doll_excerpt::{Paper, put_shown};
use doll_route::RouteFault;
use doll_schema::json::{list_at, text_at};
use doll_schema::{Part, Place, SchemaFault};
use doll_text::Memory;
use serde_json::Value;

/// Appends the explanation of a schema's fault: its path, and the text that stands there.
pub(crate) fn put_schema(
    paper: &mut Paper,
    schema: &Value,
    fault: SchemaFault,
) -> Result<(), Memory> {
    let words = schema_words(fault);
    let Some(at) = place_in(fault) else {
        return Ok(());
    };
    paper.put("schema")?;
    let Some(models) = list_at(schema, "models") else {
        return put_said(paper, None, words);
    };
    paper.put(".models")?;
    put_index(paper, u64::from(at.model))?;
    let Some(model) = models.get(at.model as usize) else {
        return put_said(paper, None, words);
    };
    put_part(paper, model, at, fault, words)
}

/// The place of a fault.
fn place_in(fault: SchemaFault) -> Option<Place> {
    match fault {
        SchemaFault::BadForm { at }
        | SchemaFault::TooMany { at }
        | SchemaFault::UnknownKind { at }
        | SchemaFault::DuplicateName { at }
        | SchemaFault::UnknownModel { at }
        | SchemaFault::BadInverse { at } => Some(at),
        SchemaFault::Memory => None,
    }
}

/// Appends the rest of the path of a part of a model, and what is said of it.
fn put_part(
    paper: &mut Paper,
    model: &Value,
    at: Place,
    fault: SchemaFault,
    words: Words,
) -> Result<(), Memory> {
    match at.part {
        Part::Whole => put_said(paper, None, words),
        Part::Name => put_text(paper, model, "name", words),
        Part::Plural => put_text(paper, model, "plural", words),
        Part::Attributes => put_item(paper, model, "attributes", at.item, fault, words),
        Part::BelongsTo => put_item(paper, model, "belongs_to", at.item, fault, words),
        Part::HasMany => put_item(paper, model, "has_many", at.item, fault, words),
    }
}

/// Appends the path of an item of a part, and what is said of it.
fn put_item(
    paper: &mut Paper,
    model: &Value,
    part: &str,
    item: u32,
    fault: SchemaFault,
    words: Words,
) -> Result<(), Memory> {
    paper.put(".")?;
    paper.put(part)?;
    let Some(items) = list_at(model, part) else {
        return put_said(paper, None, words);
    };
    put_index(paper, u64::from(item))?;
    let Some(json) = items.get(item as usize) else {
        return put_said(paper, None, words);
    };
    match key_of(fault) {
        Some(key) => put_text(paper, json, key, words),
        None => put_said(paper, None, words),
    }
}

/// The key of an item under which a fault stands.
fn key_of(fault: SchemaFault) -> Option<&'static str> {
    match fault {
        SchemaFault::UnknownKind { .. } => Some("kind"),
        SchemaFault::DuplicateName { .. } => Some("name"),
        SchemaFault::UnknownModel { .. } => Some("model"),
        SchemaFault::BadInverse { .. } => Some("inverse"),
        SchemaFault::BadForm { .. } | SchemaFault::TooMany { .. } | SchemaFault::Memory => None,
    }
}

/// Appends a number in brackets.
pub(crate) fn put_index(paper: &mut Paper, number: u64) -> Result<(), Memory> {
    paper.put("[")?;
    paper.put_number(number)?;
    paper.put("]")
}

/// Appends a key, and what is said of the text under it.
fn put_text(paper: &mut Paper, json: &Value, key: &str, words: Words) -> Result<(), Memory> {
    paper.put(".")?;
    paper.put(key)?;
    put_said(paper, text_at(json, key), words)
}

/// Appends what is said, of a text where there is one.
pub(crate) fn put_said(paper: &mut Paper, text: Option<&str>, words: Words) -> Result<(), Memory> {
    paper.put(": ")?;
    if let Some(text) = text {
        paper.put("\"")?;
        put_shown(paper, text.as_bytes())?;
        paper.put("\" ")?;
    }
    paper.put(words.wrong)?;
    paper.put("\n")?;
    paper.put(words.instead)
}

/// Appends the explanation of a fault of routes: its path, and the text that stands there.
pub(crate) fn put_route(
    paper: &mut Paper,
    routes: &Value,
    fault: RouteFault,
) -> Result<(), Memory> {
    let words = route_words(fault);
    let Some(number) = number_in(fault) else {
        return Ok(());
    };
    paper.put("routes")?;
    let Some(items) = routes.as_array() else {
        return put_said(paper, None, words);
    };
    put_index(paper, u64::from(number))?;
    let Some(route) = items.get(number as usize) else {
        return put_said(paper, None, words);
    };
    match route_key(fault, route) {
        Some(key) => put_text(paper, route, key, words),
        None => put_said(paper, None, words),
    }
}

/// The number of a fault's route.
fn number_in(fault: RouteFault) -> Option<u32> {
    match fault {
        RouteFault::BadForm { at }
        | RouteFault::BadPath { at }
        | RouteFault::Reserved { at }
        | RouteFault::UnknownModel { at }
        | RouteFault::Duplicate { at }
        | RouteFault::TooMany { at } => Some(at),
        RouteFault::Memory => None,
    }
}

/// The key of a route under which a fault stands.
fn route_key(fault: RouteFault, route: &Value) -> Option<&'static str> {
    match fault {
        RouteFault::BadPath { .. } | RouteFault::Reserved { .. } => Some("path"),
        RouteFault::UnknownModel { .. } => {
            if text_at(route, "record").is_some() {
                Some("record")
            } else {
                Some("list")
            }
        }
        _ => None,
    }
}
