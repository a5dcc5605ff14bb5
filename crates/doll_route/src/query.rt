//! The parameters of a query, in the syntax of web forms.

ghost use Rattle.std.specs.Prelude.{◌≡◌, map, IfOk};
ghost use Rattle.doll_route.specs.Queries.{AreParamsFor, param_value};

use crate::route::Names;
use doll_schema::{Value, Values};
use doll_text::{Items, Memory, Name, Text};
use form_urlencoded::parse;
use std::alloc::Global;

/// The values of parameters with these names.
pub fn values_of(alloc: Global, names: &Names, query: &str) -> Result<Values, Memory>
    ensures exact { IfOk result (λ values. values ≡ map (param_value query.now) names.now) }
    ensures fits { IfOk result (AreParamsFor names.now) }
{
    let names: &[Name] = names.as_slice();
    let mut values = Items::new(alloc);
    for name in names {
        values.push(param_value(alloc, name.as_bytes(), query)?)?;
    }
    Ok(values)
}

/// The value of the first pair with a name, else nil.
fn param_value(alloc: Global, name: &[u8], query: &str) -> Result<Value, Memory>
    ensures { IfOk result (λ value. value ≡ param_value query.now name.now) }
{
    for pair in parse(alloc, query.as_bytes()) {
        let (key, value) = pair?;
        if key.as_bytes() == name {
            let text = Text::from_bytes(alloc, value.as_bytes())?;
            return Ok(Value::Text(text));
        }
    }
    Ok(Value::Nil)
}
