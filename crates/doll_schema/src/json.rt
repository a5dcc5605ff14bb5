//! Reading what stands under the keys of a JSON object.

ghost use Rattle.std.specs.Prelude.{◌≡◌, map, option_map};
ghost use Rattle.std.specs.List.{list_any};
ghost use Rattle.std.specs.Str.{bytes_eq};
ghost use Rattle.serde_json.specs.View.{items_view, members_view, view};
ghost use Rattle.doll_schema.specs.Json.{has_only, text_at, list_at, list_or_empty, whole_at, bool_or, object_at};

use serde_json::{Map, Value};

/// Whether the value is an object with no other keys than these.
pub fn has_only(json: &Value, keys: &[&str]) -> bool
    ensures { result ≡ has_only (map (λ k. k.now) keys.now) (view json.now) }
{
    let Some(object) = json.as_object() else {
        return false;
    };
    for (key, _value) in object.iter() {
        if !is_key(key.as_str(), keys) {
            return false;
        }
    }
    true
}

fn is_key(key: &str, keys: &[&str]) -> bool
    ensures { result ≡ list_any (bytes_eq key.now) (map (λ k. k.now) keys.now) }
{
    for one in keys {
        if key == *one {
            return true;
        }
    }
    false
}

/// The text under a key.
pub fn text_at<'a>(json: &'a Value, key: &str) -> Option<&'a str>
    ensures { option_map (λ s. s.now) result ≡ text_at key.now (view json.now) }
{
    json.get(key).and_then(Value::as_str)
}

/// The array under a key.
pub fn list_at<'a>(json: &'a Value, key: &str) -> Option<&'a [Value]>
    ensures { option_map (λ s. items_view s.now) result ≡ list_at key.now (view json.now) }
{
    let items = json.get(key)?.as_array()?;
    Some(items.as_slice())
}

/// The array under a key, with no items where the key isn't there.
pub fn list_or_empty<'a>(json: &'a Value, key: &str) -> Option<&'a [Value]>
    ensures { option_map (λ s. items_view s.now) result ≡ list_or_empty key.now (view json.now) }
{
    match json.get(key) {
        None => Some(&[]),
        Some(value) => Some(value.as_array()?.as_slice()),
    }
}

/// The truth value under a key, or `otherwise` where the key isn't there.
pub fn bool_or(json: &Value, key: &str, otherwise: bool) -> Option<bool>
    ensures { result ≡ bool_or key.now otherwise (view json.now) }
{
    match json.get(key) {
        None => Some(otherwise),
        Some(value) => value.as_bool(),
    }
}

/// The whole number under a key, from 0 to 2^64 - 1.
pub fn whole_at(json: &Value, key: &str) -> Option<u64>
    ensures { result ≡ whole_at key.now (view json.now) }
{
    json.get(key).and_then(Value::as_u64)
}

/// The object under a key.
pub fn object_at<'a>(json: &'a Value, key: &str) -> Option<&'a Map<String, Value>>
    ensures { option_map (λ m. members_view m.now.entries) result ≡ object_at key.now
        (view json.now) }
{
    json.get(key)?.as_object()
}
