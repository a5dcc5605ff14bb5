//! Reading changes from JSON.

ghost use Rattle.std.specs.Prelude.{◌≡◌, ◌<◌, ◌^◌, option_map, IfOk, IfSome, is_some};
ghost use Rattle.std.specs.List.{AllByRecursion};
ghost use Rattle.std.specs.Str.{IsUtf8};
ghost use Rattle.serde_json.specs.View.{items_view, members_view, view};
ghost use Rattle.serde_json.specs.Find.{get};
ghost use Rattle.doll_journal.specs.Storable.{FitsValue, FitsPair, FitsChange, AreStorable};
ghost use Rattle.doll_journal.specs.Forms.{value_in, pair_in, pairs_in, given_in, given_at, id_at, model_at, short_text, create_in, update_in, destroy_in, touch_in, change_in, list_in, changes_in};

use crate::change::{Change, Changes, Given};
use crate::lengths::have_room;
use doll_schema::Value;
use doll_schema::json::{has_only, object_at, text_at, whole_at};
use doll_text::{Items, Memory, Name, Text};
use serde_json::Map;
use std::alloc::Global;

/// The changes that the JSON value is, or None where it is no array of changes.
///
/// A commit may have them, whoever makes it: where their bytes are too many for one, the answer is the want of memory.
pub fn changes_of(alloc: Global, json: &serde_json::Value) -> Result<Option<Changes>, Memory>
    ensures exact { IfOk result (λ o. o ≡ changes_in (view json.now)) }
    ensures storable { IfOk result (λ o. IfSome o AreStorable) }
{
    let Some(items) = json.as_array() else {
        return Ok(None);
    };
    let Some(changes) = changes_in(alloc, items.as_slice())? else {
        return Ok(None);
    };
    if !have_room(changes.as_slice()) {
        return Err(Memory);
    }
    Ok(Some(changes))
}

#[tactic(auto, using(std::proofs::lemmas::Grind::common_steps, crate::proofs::Fronts::front_starts, crate::proofs::Fronts::front_grows, crate::proofs::Fronts::front_stops, crate::proofs::Fronts::front_ends))]
fn changes_in(alloc: Global, items: &[serde_json::Value]) -> Result<Option<Changes>, Memory>
    ensures exact { IfOk result (λ o. o ≡ list_in (items_view items.now)) }
    ensures fits { IfOk result (λ o. IfSome o (AllByRecursion FitsChange)) }
{
    let mut changes = Items::new(alloc);
    for item in items {
        let Some(change) = change_in(alloc, item)? else {
            return Ok(None);
        };
        changes.push(change)?;
    }
    Ok(Some(changes))
}

fn change_in(alloc: Global, json: &serde_json::Value) -> Result<Option<Change>, Memory>
    ensures exact { IfOk result (λ o. o ≡ change_in (view json.now)) }
    ensures fits { IfOk result (λ o. IfSome o FitsChange) }
{
    if json.get("create").is_some() {
        return create_in(alloc, json);
    }
    if json.get("update").is_some() {
        return update_in(alloc, json);
    }
    if json.get("destroy").is_some() {
        return destroy_in(alloc, json);
    }
    touch_in(alloc, json)
}

fn create_in(alloc: Global, json: &serde_json::Value) -> Result<Option<Change>, Memory>
    ensures exact { IfOk result (λ o. o ≡ create_in (view json.now)) }
    ensures fits { IfOk result (λ o. IfSome o FitsChange) }
{
    if !has_only(json, &["create", "values"]) {
        return Ok(None);
    }
    let Some(model) = model_at(alloc, json, "create")? else {
        return Ok(None);
    };
    let Some(values) = given_at(alloc, json)? else {
        return Ok(None);
    };
    Ok(Some(Change::Create { model, values }))
}

fn update_in(alloc: Global, json: &serde_json::Value) -> Result<Option<Change>, Memory>
    ensures exact { IfOk result (λ o. o ≡ update_in (view json.now)) }
    ensures fits { IfOk result (λ o. IfSome o FitsChange) }
{
    if !has_only(json, &["update", "id", "values"]) {
        return Ok(None);
    }
    let Some(model) = model_at(alloc, json, "update")? else {
        return Ok(None);
    };
    let Some(id) = id_at(json) else {
        return Ok(None);
    };
    let Some(values) = given_at(alloc, json)? else {
        return Ok(None);
    };
    Ok(Some(Change::Update { model, id, values }))
}

fn destroy_in(alloc: Global, json: &serde_json::Value) -> Result<Option<Change>, Memory>
    ensures exact { IfOk result (λ o. o ≡ destroy_in (view json.now)) }
    ensures fits { IfOk result (λ o. IfSome o FitsChange) }
{
    if !has_only(json, &["destroy", "id"]) {
        return Ok(None);
    }
    let Some(model) = model_at(alloc, json, "destroy")? else {
        return Ok(None);
    };
    let Some(id) = id_at(json) else {
        return Ok(None);
    };
    Ok(Some(Change::Destroy { model, id }))
}

fn touch_in(alloc: Global, json: &serde_json::Value) -> Result<Option<Change>, Memory>
    ensures exact { IfOk result (λ o. o ≡ touch_in (view json.now)) }
    ensures fits { IfOk result (λ o. IfSome o FitsChange) }
{
    if !has_only(json, &["touch", "id"]) {
        return Ok(None);
    }
    let Some(model) = model_at(alloc, json, "touch")? else {
        return Ok(None);
    };
    let Some(id) = id_at(json) else {
        return Ok(None);
    };
    Ok(Some(Change::Touch { model, id }))
}

fn id_at(json: &serde_json::Value) -> Option<u32>
    ensures exact { result ≡ id_at (view json.now) }
    ensures fits { IfSome result (λ id. id < 2 ^ 32) }
{
    let id = whole_at(json, "id")?;
    if id < 4_294_967_296 {
        Some(id as u32)
    } else {
        None
    }
}

fn model_at(alloc: Global, json: &serde_json::Value, key: &str) -> Result<Option<Name>, Memory>
    ensures exact { IfOk result (λ o. o ≡ model_at key.now (view json.now)) }
    ensures fits { IfOk result (λ o. IfSome o IsUtf8) }
{
    let Some(text) = text_at(json, key) else {
        return Ok(None);
    };
    let Some(name) = short_text(alloc, text)? else {
        return Ok(None);
    };
    Ok(Some(Name::from_vec(name)))
}

/// The longest text of a change, in bytes.
pub const LONGEST_TEXT: usize = 1_048_576;

/// How many values a change may give.
pub const MOST_VALUES: usize = 64;

/// The bytes of a text that isn't too long for a change.
fn short_text(alloc: Global, text: &str) -> Result<Option<Vec<u8>>, Memory>
    ensures exact { IfOk result (λ o. option_map (λ v. v.items) o ≡ short_text text.now) }
    ensures fits { IfOk result (λ o. IfSome o (λ v. IsUtf8 v.items)) }
{
    if text.len() > LONGEST_TEXT {
        return Ok(None);
    }
    Ok(Some(Vec::from_slice(alloc, text.as_bytes())?))
}

fn given_at(alloc: Global, json: &serde_json::Value) -> Result<Option<Given>, Memory>
    ensures exact { IfOk result (λ o. o ≡ given_at (view json.now)) }
    ensures fits { IfOk result (λ o. IfSome o (AllByRecursion FitsPair)) }
{
    match object_at(json, "values") {
        None => Ok(None),
        Some(members) => given_in(alloc, members),
    }
}

#[tactic(auto, using(std::proofs::lemmas::Grind::common_steps, crate::proofs::Texts::members_count))]
fn given_in(
    alloc: Global,
    members: &Map<String, serde_json::Value>,
) -> Result<Option<Given>, Memory>
    ensures exact { IfOk result (λ o. o ≡ given_in (members_view members.now.entries)) }
    ensures fits { IfOk result (λ o. IfSome o (AllByRecursion FitsPair)) }
{
    if members.len() > MOST_VALUES {
        return Ok(None);
    }
    pairs_in(alloc, members)
}

#[tactic(auto, using(std::proofs::lemmas::Grind::common_steps, crate::proofs::Fronts::front_starts, crate::proofs::Fronts::front_grows, crate::proofs::Fronts::front_stops, crate::proofs::Fronts::front_ends))]
fn pairs_in(
    alloc: Global,
    members: &Map<String, serde_json::Value>,
) -> Result<Option<Given>, Memory>
    ensures exact { IfOk result (λ o. o ≡ pairs_in (members_view members.now.entries)) }
    ensures fits { IfOk result (λ o. IfSome o (AllByRecursion FitsPair)) }
{
    let mut given = Items::new(alloc);
    for (name, json) in members.iter() {
        let Some(pair) = pair_in(alloc, name.as_str(), json)? else {
            return Ok(None);
        };
        given.push(pair)?;
    }
    Ok(Some(given))
}

fn pair_in(
    alloc: Global,
    name: &str,
    json: &serde_json::Value,
) -> Result<Option<(Name, Value)>, Memory>
    ensures exact { IfOk result (λ o. o ≡ pair_in name.now (view json.now)) }
    ensures fits { IfOk result (λ o. IfSome o FitsPair) }
{
    let Some(name) = short_text(alloc, name)? else {
        return Ok(None);
    };
    let Some(value) = value_in(alloc, json)? else {
        return Ok(None);
    };
    Ok(Some((Name::from_vec(name), value)))
}

fn value_in(alloc: Global, json: &serde_json::Value) -> Result<Option<Value>, Memory>
    ensures exact { IfOk result (λ o. o ≡ value_in (view json.now)) }
    ensures fits { IfOk result (λ o. IfSome o FitsValue) }
{
    match json {
        serde_json::Value::Null => Ok(Some(Value::Nil)),
        serde_json::Value::Bool(value) => Ok(Some(Value::Bool(*value))),
        serde_json::Value::Number(number) => Ok(number.as_i64().map(Value::Int)),
        serde_json::Value::String(text) => match short_text(alloc, text.as_str())? {
            None => Ok(None),
            Some(text) => Ok(Some(Value::Text(Text::from_vec(text)))),
        },
        _ => Ok(None),
    }
}
