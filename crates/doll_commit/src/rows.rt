//! The rows that creations and updates leave.

ghost use Rattle.std.specs.Prelude.{◌≡◌, ◌||◌, map, zip, IfOk, MatchResult};
ghost use Rattle.std.specs.List.{list_any};
ghost use Rattle.doll_schema.specs.declared.value.Value.{Value};
ghost use Rattle.doll_commit.specs.Given.{value_given, key_of};
ghost use Rattle.doll_commit.specs.Rows as spec;

use crate::given::{key_given, key_of, value_given};
use doll_schema::{Attribute, BelongsTo, Model, ParentIds, Row, Value, Values};
use doll_text::{Copied, Items, Memory, Name, Shared};
use std::alloc::Global;

/// A row before its creation: all nil.
pub fn blank_row(alloc: Global, model: &Model) -> Result<Row, Memory>
    ensures { IfOk result (λ row. row ≡ spec.blank_row model.now) }
{
    Ok(Row {
        values: Shared::new(alloc, no_values(alloc, model.attributes.as_slice())?)?,
        parents: no_parents(alloc, model.belongs_to.as_slice())?,
        updated_at: 0,
    })
}

fn no_values(alloc: Global, attributes: &[Attribute]) -> Result<Values, Memory>
    ensures { IfOk result (λ values. values ≡ map (λ a. Value.Nil) attributes.now) }
{
    let mut values = Items::new(alloc);
    for _attribute in attributes {
        values.push(Value::Nil)?;
    }
    Ok(values)
}

fn no_parents(alloc: Global, associations: &[BelongsTo]) -> Result<ParentIds, Memory>
    ensures { IfOk result (λ parents. parents ≡ map (λ b. None) associations.now) }
{
    let mut parents = Items::new(alloc);
    for _association in associations {
        parents.push(None)?;
    }
    Ok(parents)
}

/// A row with the values given.
pub fn row_after(
    alloc: Global,
    model: &Model,
    given: &[(Name, Value)],
    old: &Row,
) -> Result<Row, Memory>
    ensures { IfOk result (λ row. row ≡ spec.row_after model.now given.now old.now) }
{
    let values = values_after(
        alloc,
        model.attributes.as_slice(),
        given,
        old.values.get().as_slice(),
    )?;
    let parents = keys_after(
        alloc,
        model.belongs_to.as_slice(),
        given,
        old.parents.as_slice(),
    )?;
    Ok(Row {
        values: Shared::new(alloc, values)?,
        parents,
        updated_at: old.updated_at,
    })
}

fn values_after(
    alloc: Global,
    attributes: &[Attribute],
    given: &[(Name, Value)],
    old: &[Value],
) -> Result<Values, Memory>
    ensures { IfOk result
        (λ values. values ≡ map (spec.value_after given.now) (zip attributes.now old.now)) }
{
    let mut values = Items::new(alloc);
    for (attribute, value) in attributes.iter().zip(old) {
        values.push(value_after(alloc, given, attribute, value)?)?;
    }
    Ok(values)
}

fn value_after(
    alloc: Global,
    given: &[(Name, Value)],
    attribute: &Attribute,
    old: &Value,
) -> Result<Value, Memory>
    ensures { IfOk result (λ value. value ≡ spec.value_after given.now (attribute.now, old.now)) }
{
    match value_given(given, attribute.name.as_bytes()) {
        Some(value) => value.copy(alloc),
        None => old.copy(alloc),
    }
}

fn keys_after(
    alloc: Global,
    associations: &[BelongsTo],
    given: &[(Name, Value)],
    old: &[Option<u32>],
) -> Result<ParentIds, Memory>
    ensures { IfOk result
        (λ keys. keys ≡ map (spec.key_after given.now) (zip associations.now old.now)) }
{
    let mut keys = Items::new(alloc);
    for (association, key) in associations.iter().zip(old) {
        keys.push(key_after(given, association, *key))?;
    }
    Ok(keys)
}

fn key_after(given: &[(Name, Value)], association: &BelongsTo, old: Option<u32>) -> Option<u32>
    ensures { result ≡ spec.key_after given.now (association.now, old) }
{
    match key_given(given, association) {
        Some(value) => key_of(value),
        None => old,
    }
}

/// Whether a row has nil where its model allows none.
pub fn lacks(model: &Model, row: &Row) -> bool
    ensures { result ≡ spec.lacks model.now row.now }
{
    lacks_value(model.attributes.as_slice(), row.values.get().as_slice())
        || lacks_parent(model.belongs_to.as_slice(), row.parents.as_slice())
}

fn lacks_value(attributes: &[Attribute], values: &[Value]) -> bool
    ensures { result ≡ list_any spec.lacks_value (zip attributes.now values.now) }
{
    for (attribute, value) in attributes.iter().zip(values) {
        if !attribute.null && is_nil(value) {
            return true;
        }
    }
    false
}

fn lacks_parent(associations: &[BelongsTo], keys: &[Option<u32>]) -> bool
    ensures { result ≡ list_any spec.lacks_parent (zip associations.now keys.now) }
{
    for (association, key) in associations.iter().zip(keys) {
        if !association.null && key.is_none() {
            return true;
        }
    }
    false
}

fn is_nil(value: &Value) -> bool
    ensures { result ≡ spec.is_nil value.now }
{
    matches!(value, Value::Nil)
}
