//! The numbers of settings.

ghost use Rattle.std.specs.Prelude.{◌≡◌, option_map, IfSome};
ghost use Rattle.serde_json.specs.View.{view};
ghost use Rattle.doll_settings.specs.Numbers.{is_null, limit_in, limit_or, number_in, number_or};
ghost use Rattle.doll_settings.specs.Numbers.{IsBetween, IsSetBetween};

use serde_json::Value;

/// The whole number that a value is, where it is one from `least` to `most`.
pub fn number_in(json: &Value, least: u64, most: u64) -> Option<u64>
    ensures exact { result ≡ number_in least most (view json.now) }
    ensures between { IfSome result (IsBetween least most) }
{
    let number = json.as_u64()?;
    if least <= number && number <= most {
        Some(number)
    } else {
        None
    }
}

/// The same where null may stand too, which sets no limit.
pub fn limit_in(json: &Value, least: u64, most: u64) -> Option<Option<u64>>
    ensures exact { result ≡ limit_in least most (view json.now) }
    ensures between { IfSome result (IsSetBetween least most) }
{
    if json.is_null() {
        return Some(None);
    }
    match number_in(json, least, most) {
        Some(number) => Some(Some(number)),
        None => None,
    }
}

/// The number that a value is, or the default where it is left out.
pub(crate) fn number_or(json: Option<&Value>, least: u64, most: u64, default: u64) -> Option<u64>
    requires default { IsBetween least most default }
    ensures exact { result
        ≡ number_or least most default (option_map (λ d. view d.now) json.entry) }
    ensures between { IfSome result (IsBetween least most) }
{
    match json {
        Some(json) => number_in(json, least, most),
        None => Some(default),
    }
}

/// The limit that a value sets, or the default where it is left out.
pub(crate) fn limit_or(
    json: Option<&Value>,
    least: u64,
    most: u64,
    default: Option<u64>,
) -> Option<Option<u64>>
    requires default { IsSetBetween least most default }
    ensures exact { result
        ≡ limit_or least most default (option_map (λ d. view d.now) json.entry) }
    ensures between { IfSome result (IsSetBetween least most) }
{
    match json {
        Some(json) => limit_in(json, least, most),
        None => Some(default),
    }
}
