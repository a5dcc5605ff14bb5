//! Reading models from JSON, each with its own faults.

ghost use Rattle.std.specs.Prelude.{◌≡◌, ◌<◌, ◌≤◌, ◌||◌, [], length, option_map, codes, IfOk, OnOk};
ghost use Rattle.std.specs.List.{list_any};
ghost use Rattle.std.specs.Option.{ok_or};
ghost use Rattle.std.specs.Str.{bytes_eq};
ghost use Rattle.serde_json.specs.Find.{get};
ghost use Rattle.serde_json.specs.View.{items_view, view};
ghost use Rattle.doll_text.specs.Gives.{Gives};
ghost use Rattle.doll_schema.specs.Limits.{AreFewModels, HasFewDrafts, AreDraftsWithinLimits};
ghost use Rattle.doll_schema.specs.Lookups.{key_name};
ghost use Rattle.doll_schema.specs.Drafts.{attribute_draft, parent_draft, many_draft, attributes_of, parents_of, manys_of, model_draft, model_with, models_from, drafts_of, name_at, kind_named, destroy_named, destroy_if_given, is_taken, is_model, is_plural, has_model_keys, model_items, place};

use crate::draft::{ManyDraft, ManyDrafts, ModelDraft, ModelDrafts, ParentDraft, ParentDrafts};
use crate::fault::{Part, Place, SchemaFault};
use crate::json::{bool_or, has_only, list_at, list_or_empty, text_at};
use crate::limits::{MOST_ATTRIBUTES, MOST_MANYS, MOST_MODELS, MOST_PARENTS};
use crate::model::{Attribute, Attributes, Kind};
use doll_text::{Items, Memory, Name, Text, is_name};
use serde_json::Value;
use std::alloc::Global;

/// All models, or the first fault that one of them has by itself.
pub fn drafts_of(alloc: Global, json: &Value) -> Result<ModelDrafts, SchemaFault>
    ensures exact { Gives SchemaFault.Memory (drafts_of (view json.now)) result }
    ensures room { IfOk result AreDraftsWithinLimits }
{
    let Some(items) = model_items(json) else {
        return Err(SchemaFault::BadForm {
            at: place(0, Part::Whole, 0),
        });
    };
    models_of(alloc, items)
}

fn place(model: u32, part: Part, item: u32) -> Place
    ensures { result ≡ place model part item }
{
    Place { model, part, item }
}

fn model_items(json: &Value) -> Option<&[Value]>
    ensures { option_map (λ s. items_view s.now) result ≡ model_items (view json.now) }
{
    if !has_only(json, &["models"]) {
        return None;
    }
    list_at(json, "models")
}

fn models_of(alloc: Global, items: &[Value]) -> Result<ModelDrafts, SchemaFault>
    ensures exact { Gives SchemaFault.Memory (models_from [] (items_view items.now)) result }
    ensures room { IfOk result AreDraftsWithinLimits }
{
    let mut models = Items::new(alloc);
    for item in items {
        let model = model_draft(alloc, models.as_slice(), item)?;
        models.push(model)?;
    }
    Ok(models)
}

fn model_draft(
    alloc: Global,
    earlier: &[ModelDraft],
    json: &Value,
) -> Result<ModelDraft, SchemaFault>
    requires { AreFewModels earlier.now }
    ensures exact { Gives SchemaFault.Memory (model_draft earlier.now (view json.now)) result }
    ensures room { OnOk result (length earlier.now < MOST_MODELS) }
    ensures few { IfOk result HasFewDrafts }
{
    let number = earlier.len() as u32;
    if !has_model_keys(json) {
        return Err(SchemaFault::BadForm {
            at: place(number, Part::Whole, 0),
        });
    }
    if number >= MOST_MODELS {
        return Err(SchemaFault::TooMany {
            at: place(number, Part::Whole, 0),
        });
    }
    let at = place(number, Part::Name, 0);
    let name = own_name(alloc, at, json, "name")?;
    if is_model(earlier, name.as_bytes()) {
        return Err(SchemaFault::DuplicateName { at });
    }
    let at = place(number, Part::Plural, 0);
    let plural = own_name(alloc, at, json, "plural")?;
    if is_plural(earlier, plural.as_bytes()) {
        return Err(SchemaFault::DuplicateName { at });
    }
    model_with(alloc, number, name, plural, json)
}

/// A model of these names, its parts in order.
fn model_with(
    alloc: Global,
    model: u32,
    name: Name,
    plural: Name,
    json: &Value,
) -> Result<ModelDraft, SchemaFault>
    ensures exact { Gives SchemaFault.Memory (model_with model name plural (view json.now)) result }
    ensures few { IfOk result HasFewDrafts }
{
    let attributes = model_attributes(alloc, model, json)?;
    let belongs_to = model_parents(alloc, model, attributes.as_slice(), json)?;
    let has_many = model_manys(
        alloc,
        model,
        attributes.as_slice(),
        belongs_to.as_slice(),
        json,
    )?;
    Ok(ModelDraft {
        name,
        plural,
        attributes,
        belongs_to,
        has_many,
    })
}

fn has_model_keys(json: &Value) -> bool
    ensures { result ≡ has_model_keys (view json.now) }
{
    has_only(
        json,
        &["name", "plural", "attributes", "belongs_to", "has_many"],
    ) && json.get("name").is_some()
        && json.get("plural").is_some()
        && json.get("attributes").is_some()
}

/// A name of a model's own, under a key.
fn own_name(alloc: Global, at: Place, json: &Value, key: &str) -> Result<Name, SchemaFault>
    ensures { Gives SchemaFault.Memory
        (ok_or (name_at key.now (view json.now)) (SchemaFault.BadForm at)) result }
{
    let Some(name) = name_at(json, key) else {
        return Err(SchemaFault::BadForm { at });
    };
    Ok(Name::from_bytes(alloc, name.as_bytes())?)
}

fn is_model(models: &[ModelDraft], name: &[u8]) -> bool
    ensures { result ≡ is_model models.now name.now }
{
    models.iter().any(|m| name == m.name.as_bytes())
}

fn is_plural(models: &[ModelDraft], name: &[u8]) -> bool
    ensures { result ≡ is_plural models.now name.now }
{
    models.iter().any(|m| name == m.plural.as_bytes())
}

/// The name under a key.
pub fn name_at<'a>(json: &'a Value, key: &str) -> Option<&'a str>
    ensures { option_map (λ s. s.now) result ≡ name_at key.now (view json.now) }
{
    let text = text_at(json, key)?;
    if is_name(text.as_bytes()) {
        Some(text)
    } else {
        None
    }
}

fn model_attributes(alloc: Global, model: u32, json: &Value) -> Result<Attributes, SchemaFault>
    ensures exact { Gives SchemaFault.Memory (attributes_of model (view json.now)) result }
    ensures few { IfOk result (λ attributes. length attributes ≤ MOST_ATTRIBUTES) }
{
    let Some(items) = list_at(json, "attributes") else {
        return Err(SchemaFault::BadForm {
            at: place(model, Part::Attributes, 0),
        });
    };
    let mut attributes = Items::new(alloc);
    for item in items {
        let at = place(model, Part::Attributes, attributes.len() as u32);
        let attribute = attribute_draft(alloc, at, attributes.as_slice(), item)?;
        attributes.push(attribute)?;
    }
    Ok(attributes)
}

fn attribute_draft(
    alloc: Global,
    at: Place,
    earlier: &[Attribute],
    json: &Value,
) -> Result<Attribute, SchemaFault>
    ensures exact { Gives SchemaFault.Memory (attribute_draft at earlier.now (view json.now))
        result }
    ensures room { OnOk result (at.item < MOST_ATTRIBUTES) }
{
    if !has_only(json, &["name", "kind", "null"]) {
        return Err(SchemaFault::BadForm { at });
    }
    let Some(name) = name_at(json, "name") else {
        return Err(SchemaFault::BadForm { at });
    };
    let Some(kind) = text_at(json, "kind") else {
        return Err(SchemaFault::BadForm { at });
    };
    let Some(null) = bool_or(json, "null", true) else {
        return Err(SchemaFault::BadForm { at });
    };
    if at.item >= MOST_ATTRIBUTES {
        return Err(SchemaFault::TooMany { at });
    }
    let Some(kind) = kind_named(kind) else {
        return Err(SchemaFault::UnknownKind { at });
    };
    if is_taken(name.as_bytes(), earlier, &[], &[]) {
        return Err(SchemaFault::DuplicateName { at });
    }
    let name = Name::from_bytes(alloc, name.as_bytes())?;
    Ok(Attribute { name, kind, null })
}

fn kind_named(text: &str) -> Option<Kind>
    ensures { result ≡ kind_named text.now }
{
    if text == "integer" {
        return Some(Kind::Integer);
    }
    if text == "text" {
        return Some(Kind::Text);
    }
    if text == "boolean" {
        return Some(Kind::Boolean);
    }
    None
}

/// Whether an attribute, an association or a foreign key has this name.
fn is_taken(
    name: &[u8],
    attributes: &[Attribute],
    parents: &[ParentDraft],
    manys: &[ManyDraft],
) -> bool
    ensures { result ≡ is_taken name.now attributes.now parents.now manys.now }
{
    attribute_has(name, attributes) || parent_has(name, parents) || many_has(name, manys)
}

fn attribute_has(name: &[u8], attributes: &[Attribute]) -> bool
    ensures { result ≡ list_any (λ a. bytes_eq name.now a.name) attributes.now }
{
    attributes.iter().any(|a| name == a.name.as_bytes())
}

fn parent_has(name: &[u8], parents: &[ParentDraft]) -> bool
    ensures { result ≡ list_any (λ p. bytes_eq name.now p.name || bytes_eq name.now p.key)
        parents.now }
{
    parents
        .iter()
        .any(|p| name == p.name.as_bytes() || name == p.key.as_bytes())
}

fn many_has(name: &[u8], manys: &[ManyDraft]) -> bool
    ensures { result ≡ list_any (λ m. bytes_eq name.now m.name) manys.now }
{
    manys.iter().any(|m| name == m.name.as_bytes())
}

fn model_parents(
    alloc: Global,
    model: u32,
    attributes: &[Attribute],
    json: &Value,
) -> Result<ParentDrafts, SchemaFault>
    ensures exact { Gives SchemaFault.Memory (parents_of model attributes.now (view json.now))
        result }
    ensures few { IfOk result (λ parents. length parents ≤ MOST_PARENTS) }
{
    let Some(items) = list_or_empty(json, "belongs_to") else {
        return Err(SchemaFault::BadForm {
            at: place(model, Part::BelongsTo, 0),
        });
    };
    let mut parents = Items::new(alloc);
    for item in items {
        let at = place(model, Part::BelongsTo, parents.len() as u32);
        let parent = parent_draft(alloc, at, attributes, parents.as_slice(), item)?;
        parents.push(parent)?;
    }
    Ok(parents)
}

fn parent_draft(
    alloc: Global,
    at: Place,
    attributes: &[Attribute],
    earlier: &[ParentDraft],
    json: &Value,
) -> Result<ParentDraft, SchemaFault>
    ensures exact { Gives SchemaFault.Memory
        (parent_draft at attributes.now earlier.now (view json.now)) result }
    ensures room { OnOk result (at.item < MOST_PARENTS) }
{
    if !has_only(json, &["name", "model", "touch", "null"]) {
        return Err(SchemaFault::BadForm { at });
    }
    let Some(name) = name_at(json, "name") else {
        return Err(SchemaFault::BadForm { at });
    };
    let Some(model) = text_at(json, "model") else {
        return Err(SchemaFault::BadForm { at });
    };
    let Some(touch) = bool_or(json, "touch", false) else {
        return Err(SchemaFault::BadForm { at });
    };
    let Some(null) = bool_or(json, "null", false) else {
        return Err(SchemaFault::BadForm { at });
    };
    if at.item >= MOST_PARENTS {
        return Err(SchemaFault::TooMany { at });
    }
    let key = key_name(alloc, name)?;
    if is_taken(name.as_bytes(), attributes, earlier, &[]) {
        return Err(SchemaFault::DuplicateName { at });
    }
    if is_taken(key.as_bytes(), attributes, earlier, &[]) {
        return Err(SchemaFault::DuplicateName { at });
    }
    Ok(ParentDraft {
        name: Name::from_bytes(alloc, name.as_bytes())?,
        key,
        model: Text::from_bytes(alloc, model.as_bytes())?,
        touch,
        null,
    })
}

/// The name of the foreign key of an association.
fn key_name(alloc: Global, name: &str) -> Result<Name, Memory>
    ensures { IfOk result (λ key. key ≡ key_name name.now) }
{
    let mut key = Vec::from_slice(alloc, name.as_bytes())?;
    key.extend_from_slice(b"_id")?;
    Ok(Name::from_vec(key))
}

fn model_manys(
    alloc: Global,
    model: u32,
    attributes: &[Attribute],
    parents: &[ParentDraft],
    json: &Value,
) -> Result<ManyDrafts, SchemaFault>
    ensures exact { Gives SchemaFault.Memory
        (manys_of model attributes.now parents.now (view json.now)) result }
    ensures few { IfOk result (λ manys. length manys ≤ MOST_MANYS) }
{
    let Some(items) = list_or_empty(json, "has_many") else {
        return Err(SchemaFault::BadForm {
            at: place(model, Part::HasMany, 0),
        });
    };
    let mut manys = Items::new(alloc);
    for item in items {
        let at = place(model, Part::HasMany, manys.len() as u32);
        let many = many_draft(alloc, at, attributes, parents, manys.as_slice(), item)?;
        manys.push(many)?;
    }
    Ok(manys)
}

fn many_draft(
    alloc: Global,
    at: Place,
    attributes: &[Attribute],
    parents: &[ParentDraft],
    earlier: &[ManyDraft],
    json: &Value,
) -> Result<ManyDraft, SchemaFault>
    ensures exact { Gives SchemaFault.Memory
        (many_draft at attributes.now parents.now earlier.now (view json.now)) result }
    ensures room { OnOk result (at.item < MOST_MANYS) }
{
    if !has_only(json, &["name", "model", "inverse", "dependent"]) {
        return Err(SchemaFault::BadForm { at });
    }
    let Some(name) = name_at(json, "name") else {
        return Err(SchemaFault::BadForm { at });
    };
    let Some(model) = text_at(json, "model") else {
        return Err(SchemaFault::BadForm { at });
    };
    let Some(inverse) = text_at(json, "inverse") else {
        return Err(SchemaFault::BadForm { at });
    };
    let Some(destroy) = destroy_at(json) else {
        return Err(SchemaFault::BadForm { at });
    };
    if at.item >= MOST_MANYS {
        return Err(SchemaFault::TooMany { at });
    }
    if is_taken(name.as_bytes(), attributes, parents, earlier) {
        return Err(SchemaFault::DuplicateName { at });
    }
    Ok(ManyDraft {
        name: Name::from_bytes(alloc, name.as_bytes())?,
        model: Text::from_bytes(alloc, model.as_bytes())?,
        inverse: Text::from_bytes(alloc, inverse.as_bytes())?,
        destroy,
    })
}

fn destroy_at(json: &Value) -> Option<bool>
    ensures { result ≡ destroy_if_given (get (codes "dependent") (view json.now)) }
{
    match json.get("dependent") {
        None => Some(false),
        Some(word) => destroy_named(word.as_str()?),
    }
}

fn destroy_named(text: &str) -> Option<bool>
    ensures { result ≡ destroy_named text.now }
{
    if text == "destroy" {
        return Some(true);
    }
    if text == "restrict" {
        return Some(false);
    }
    None
}
