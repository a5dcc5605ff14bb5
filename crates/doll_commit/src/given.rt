//! The values that a change gives to attributes and foreign keys.

ghost use Rattle.std.specs.Prelude.{◌≡◌, ℕ, List, bytes_eq, is_some, reverse, find};
ghost use Rattle.std.specs.Option.{option_copied};
ghost use Rattle.doll_schema.specs.declared.value.Value.{Value};
ghost use Rattle.doll_commit.specs.Given as spec;
ghost use Rattle.doll_schema.specs.Lookups.{key_name};

use crate::fault::Why;
use crate::refs::lives;
use doll_schema::{Attribute, BelongsTo, Model, Value};
use doll_table::Table;
use doll_text::Name;

/// The last value that a name is given, if it is given any.
pub fn value_given<'a>(given: &'a [(Name, Value)], name: &[u8]) -> Option<&'a Value>
    ensures { option_copied result ≡ spec.value_given given.now name.now }
{
    let pair = last_given(given, name)?;
    Some(&pair.1)
}

fn last_given<'a>(given: &'a [(Name, Value)], name: &[u8]) -> Option<&'a (Name, Value)>
    ensures { option_copied result ≡ find (λ (pair : List ℕ × Value). bytes_eq name.now pair.0)
        (reverse given.now) }
{
    given.iter().rev().find(|pair| name == pair.0.as_bytes())
}

/// The last value that the foreign key of an association is given.
pub fn key_given<'a>(given: &'a [(Name, Value)], association: &BelongsTo) -> Option<&'a Value>
    ensures { option_copied result ≡ spec.value_given given.now (key_name association.now.name) }
{
    let pair = last_for_key(given, association)?;
    Some(&pair.1)
}

fn last_for_key<'a>(
    given: &'a [(Name, Value)],
    association: &BelongsTo,
) -> Option<&'a (Name, Value)>
    ensures { option_copied result ≡ find
        (λ (pair : List ℕ × Value). bytes_eq (key_name association.now.name) pair.0)
        (reverse given.now) }
{
    given
        .iter()
        .rev()
        .find(|pair| association.has_key(pair.0.as_bytes()))
}

/// The first fault of the values given, in order.
pub fn given_fault(table: &Table, model: &Model, given: &[(Name, Value)]) -> Option<Why>
    ensures { result ≡ spec.given_fault table.now model.now given.now }
{
    for (name, value) in given {
        let fault = pair_fault(table, model, name.as_bytes(), value);
        if fault.is_some() {
            return fault;
        }
    }
    None
}

/// What is wrong with a given value.
fn pair_fault(table: &Table, model: &Model, name: &[u8], value: &Value) -> Option<Why>
    ensures { result ≡ spec.pair_fault table.now model.now (name.now, value.now) }
{
    if !is_known(model, name) {
        return Some(Why::UnknownAttribute);
    }
    match attributes_fault(model.attributes.as_slice(), name, value) {
        Some(why) => Some(why),
        None => keys_fault(table, model.belongs_to.as_slice(), name, value),
    }
}

fn is_known(model: &Model, name: &[u8]) -> bool
    ensures { result ≡ spec.is_known model.now name.now }
{
    model.attribute_named(name).is_some() || model.key_named(name).is_some()
}

fn attributes_fault(attributes: &[Attribute], name: &[u8], value: &Value) -> Option<Why>
    ensures { result ≡ spec.fault_among (spec.attribute_fault (name.now, value.now))
        attributes.now }
{
    for attribute in attributes {
        let fault = attribute_fault(attribute, name, value);
        if fault.is_some() {
            return fault;
        }
    }
    None
}

fn attribute_fault(attribute: &Attribute, name: &[u8], value: &Value) -> Option<Why>
    ensures { result ≡ spec.attribute_fault (name.now, value.now) attribute.now }
{
    if attribute.name.as_bytes() != name || attribute.kind.has(value) {
        None
    } else {
        Some(Why::WrongKind)
    }
}

fn keys_fault(table: &Table, associations: &[BelongsTo], name: &[u8], value: &Value) -> Option<Why>
    ensures { result ≡ spec.fault_among (spec.key_fault table.now (name.now, value.now))
        associations.now }
{
    for association in associations {
        let fault = key_fault(table, association, name, value);
        if fault.is_some() {
            return fault;
        }
    }
    None
}

fn key_fault(table: &Table, association: &BelongsTo, name: &[u8], value: &Value) -> Option<Why>
    ensures { result ≡ spec.key_fault table.now (name.now, value.now) association.now }
{
    if association.has_key(name) {
        value_fault(table, association, value)
    } else {
        None
    }
}

fn value_fault(table: &Table, association: &BelongsTo, value: &Value) -> Option<Why>
    ensures { result ≡ spec.value_fault table.now association.now value.now }
{
    match value {
        Value::Nil => None,
        Value::Int(number) => number_fault(table, association.model, *number),
        _ => Some(Why::WrongKind),
    }
}

fn number_fault(table: &Table, model: u16, number: i64) -> Option<Why>
    ensures { result ≡ spec.number_fault table.now model number }
{
    match id_of_int(number) {
        Some(id) if lives(table, (model, id)) => None,
        _ => Some(Why::BadParent),
    }
}

/// The foreign key that a value is: nil is none.
pub fn key_of(value: &Value) -> Option<u32>
    ensures { result ≡ spec.key_of value.now }
{
    match value {
        Value::Int(number) => id_of_int(*number),
        _ => None,
    }
}

/// The id that a whole number is. Ids have 32 bits.
fn id_of_int(number: i64) -> Option<u32>
    ensures { result ≡ spec.id_of_int number }
{
    u32::try_from(number).ok()
}
