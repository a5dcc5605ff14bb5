//! The key of a cached block over a table.

ghost use Rattle.std.specs.Prelude.{◌≡◌, ◌+◌, ◌≤◌, ◌^◌, ◌++◌, List, true, nat_lt, IfOk, OnOk};
ghost use Rattle.std.specs.Int.Signed.{mag};
ghost use Rattle.doll_table.specs.Fits.{Fits};
ghost use Rattle.doll_eval.specs.Living.{AreLiving, IsLiving};
ghost use Rattle.doll_key.specs.declared.components.Component.{Component};
ghost use Rattle.doll_key.specs.Components.{component_behind, components_text};
ghost use Rattle.doll_run.specs.Keys as spec;

use doll_erb::KeyPart;
use doll_eval::eval;
use doll_key::{KeyText, Versions, append_literal, append_record, append_scalar, key_prefix};
use doll_schema::{Schema, Val, Value, Vars};
use doll_set::TemplateSet;
use doll_table::Rows;
use doll_text::{Copied, Memory};
use doll_types::{TypeKind, Typing, ValueType, type_of};
use std::alloc::Global;

/// The key of a block: its text and the versions of its records.
#[derive(Drop)]
pub struct BlockKey {
    pub text: KeyText,
    pub versions: Versions,
}

impl Copied for BlockKey {
    fn copy(&self, alloc: Global) -> Result<BlockKey, Memory> {
        Ok(BlockKey {
            text: self.text.copy(alloc)?,
            versions: self.versions.copy(alloc)?,
        })
    }
}

/// The key of a block of the template with a number, by its parts, under types and values of variables, behind a prefix that is
/// the one of the template's keys. The variables must live in the table of `rows`, which must fit the schema.
#[tactic(auto, unfolding(doll_run::specs::Keys::keyed_over))]
pub fn block_key<R: Rows>(
    alloc: Global,
    set: &TemplateSet,
    schema: &Schema,
    number: usize,
    typing: &Typing,
    key: &[KeyPart],
    vars: &Vars,
    prefix: Vec<u8>,
    rows: &mut R,
) -> Result<BlockKey, Memory>
    requires fits { Fits schema.now (R.table rows.old) }
    requires living { AreLiving (R.table rows.old) vars.now }
    requires prefix { prefix.items ≡ spec.prefix_at set.now number }
    ensures text { IfOk result (λ k. k.text ≡ (spec.keyed_over set.now schema.now
        (R.table rows.old) number typing.now key.now vars.now).text) }
    ensures versions { IfOk result (λ k. k.versions ≡ (spec.keyed_over set.now schema.now
        (R.table rows.old) number typing.now key.now vars.now).versions) }
    ensures is_key { OnOk result ((spec.keyed_over set.now schema.now
        (R.table rows.old) number typing.now key.now vars.now).is_key ≡ true) }
    ensures table { R.table rows.new ≡ R.table rows.old }
    ensures looks { OnOk result (R.looks rows.new ≤ R.looks rows.old + (spec.keyed_over set.now
        schema.now (R.table rows.old) number typing.now key.now vars.now).looks) }
{
    let mut text = prefix;
    let mut versions = Versions::new(alloc);
    for part in key {
        add_part(
            alloc,
            schema,
            typing,
            part,
            vars,
            rows,
            &mut text,
            &mut versions,
        )?;
    }
    let text = text_at(alloc, set, number, text);
    Ok(BlockKey { text, versions })
}

/// What stands before the components in the text of a key of the template with a number: it is the same for all of them.
pub fn prefix_at(alloc: Global, set: &TemplateSet, number: usize) -> Result<Vec<u8>, Memory>
    ensures { IfOk result (λ prefix. prefix.items ≡ spec.prefix_at set.now number) }
{
    let Some(digest) = set.digest(number) else {
        return Ok(Vec::new(alloc));
    };
    let Some(template) = set.templates().get(number) else {
        return Ok(Vec::new(alloc));
    };
    key_prefix(alloc, template.name.as_bytes(), digest)
}

/// The text of a key of the template with a number, where these bytes are its prefix and its components.
fn text_at(alloc: Global, set: &TemplateSet, number: usize, bytes: Vec<u8>) -> KeyText
    ensures { (components : List Component)
        → bytes.items ≡ spec.prefix_at set.now number ++ components_text components
        → result ≡ spec.text_at set.now number components }
{
    if set.digest(number).is_none() {
        return KeyText::from_vec(Vec::new(alloc));
    }
    if set.templates().get(number).is_none() {
        return KeyText::from_vec(Vec::new(alloc));
    }
    KeyText::from_vec(bytes)
}

/// Appends what a part of a key is, and its version where it is a record.
fn add_part<R: Rows>(
    alloc: Global,
    schema: &Schema,
    typing: &Typing,
    part: &KeyPart,
    vars: &Vars,
    rows: &mut R,
    text: &mut Vec<u8>,
    versions: &mut Versions,
) -> Result<(), Memory>
    requires fits { Fits schema.now (R.table rows.old) }
    requires living { AreLiving (R.table rows.old) vars.now }
    ensures component { OnOk result (text.new.items ≡ text.old.items ++ component_behind
        (spec.part_component schema.now (R.table rows.old) typing.now vars.now part.now)) }
    ensures versions { OnOk result (versions.new ≡ versions.old
        ++ spec.part_versions schema.now (R.table rows.old) typing.now vars.now part.now) }
    ensures bounded { OnOk result (spec.is_bounded
        (spec.part_component schema.now (R.table rows.old) typing.now vars.now part.now) ≡ true) }
    ensures table { R.table rows.new ≡ R.table rows.old }
    ensures looks { R.looks rows.new ≤ R.looks rows.old
        + spec.part_looks schema.now (R.table rows.old) typing.now vars.now part.now }
{
    match part {
        KeyPart::Literal(literal) => {
            tell_bytes(literal.as_bytes());
            append_literal(literal.as_bytes(), text)
        }
        KeyPart::Path(expr) => {
            let of = type_of(alloc, schema, typing, expr)?;
            let value = eval(alloc, expr, vars, schema, rows)?;
            add_value(schema, of, value, rows, text, versions)
        }
    }
}

/// Appends a value by the type of its part, and its version where it is a record.
fn add_value<R: Rows>(
    schema: &Schema,
    of: Result<ValueType, TypeKind>,
    value: Val,
    rows: &mut R,
    text: &mut Vec<u8>,
    versions: &mut Versions,
) -> Result<(), Memory>
    requires fits { Fits schema.now (R.table rows.old) }
    requires living { IsLiving (R.table rows.old) value }
    ensures component { OnOk result (text.new.items
        ≡ text.old.items ++ component_behind (spec.component_by schema.now of value)) }
    ensures versions { OnOk result
        (versions.new ≡ versions.old ++ spec.versions_by (R.table rows.old) of value) }
    ensures bounded { OnOk result (spec.is_bounded (spec.component_by schema.now of value) ≡ true) }
    ensures table { R.table rows.new ≡ R.table rows.old }
    ensures looks { R.looks rows.new ≤ R.looks rows.old + spec.looks_by of value }
{
    match of {
        Ok(ValueType::Record { model }) => {
            let plural = plural_of(schema, model);
            let id = id_of(&value);
            versions.push(version_of(rows, schema, &value))?;
            append_record(plural, id, text)
        }
        _ => {
            let single = single_of(value);
            tell_value(&single);
            append_scalar(&single, text)
        }
    }
}

/// The plural of the model with a number.
fn plural_of(schema: &Schema, model: u16) -> &[u8]
    ensures { result.now ≡ spec.plural_of schema.now model }
{
    match schema.model(model) {
        Some(of) => of.plural.as_bytes(),
        None => &[],
    }
}

/// The id of a record.
fn id_of(value: &Val) -> Option<u32>
    ensures id { result ≡ spec.id_of value.now }
    ensures bounded { spec.is_id result ≡ true }
{
    match value {
        Val::Record { id, .. } => Some(*id),
        _ => None,
    }
}

/// The value that is no record and no list.
fn single_of(value: Val) -> Value
    ensures { result ≡ spec.single_of value }
{
    match value {
        Val::Plain(value) => value,
        _ => Value::Nil,
    }
}

/// A whole number of a value has 64 bits, and its text is made of bytes.
fn tell_value(value: &Value)
    ensures { spec.is_value value.now ≡ true }
{
    match value {
        Value::Nil => {}
        Value::Bool(_) => {}
        Value::Int(number) => tell_number(*number),
        Value::Text(text) => tell_bytes(text.as_bytes()),
    }
}

/// A whole number has 64 bits.
fn tell_number(number: i64)
    ensures { nat_lt (mag number) (2 ^ 63) ≡ true }
{}

/// A text is made of bytes.
fn tell_bytes(text: &[u8])
    ensures { spec.are_bytes text.now ≡ true }
{}

/// The moment of a record's last change.
fn version_of<R: Rows>(rows: &mut R, schema: &Schema, value: &Val) -> u64
    requires fits { Fits schema.now (R.table rows.old) }
    requires living { IsLiving (R.table rows.old) value.now }
    ensures value { result ≡ spec.version_of (R.table rows.old) value.now }
    ensures table { R.table rows.new ≡ R.table rows.old }
    ensures looks { R.looks rows.new ≤ R.looks rows.old + spec.version_looks value.now }
{
    match value {
        Val::Record { model, id } => record_version(rows, schema, *model, *id),
        _ => 0,
    }
}

fn record_version<R: Rows>(rows: &mut R, schema: &Schema, model: u16, id: u32) -> u64
    requires fits { Fits schema.now (R.table rows.old) }
    requires living { IsLiving (R.table rows.old) (Val.Record model id) }
    ensures value { result ≡ spec.version_of (R.table rows.old) (Val.Record model id) }
    ensures table { R.table rows.new ≡ R.table rows.old }
    ensures looks { R.looks rows.new ≤ R.looks rows.old + 1 }
{
    let Some(row) = rows.row(model, id) else {
        return 0;
    };
    row.updated_at
}
