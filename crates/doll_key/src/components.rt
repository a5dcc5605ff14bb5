//! The components of a key.

ghost use Rattle.std.specs.Prelude.{◌≡◌, ◌++◌, OnOk};
ghost use Rattle.doll_key.specs.Components as spec;

use crate::escapes::append_escaped;
use doll_schema::Value;
use doll_text::{Copied, Items, Memory, Name, SLASH, Text};
use itoa::Buffer;
use std::alloc::Global;

/// What stands before a literal, and before a digest.
pub const COLON: u8 = b':';

/// What stands before a value.
pub const EQUALS: u8 = b'=';

/// What stands before the text of a value.
pub const QUOTE: u8 = b'\'';

/// One part of a key.
#[derive(Drop)]
pub enum Component {
    /// A record, by its model's plural and its id; no id stands for nil in a record's place.
    Record { plural: Name, id: Option<u32> },
    /// A text of the template.
    Literal(Text),
    /// A value.
    Scalar(Value),
}

pub type Components = Items<Component>;

impl Copied for Component {
    fn copy(&self, alloc: Global) -> Result<Component, Memory> {
        match self {
            Component::Record { plural, id } => Ok(Component::Record {
                plural: plural.copy(alloc)?,
                id: *id,
            }),
            Component::Literal(text) => Ok(Component::Literal(text.copy(alloc)?)),
            Component::Scalar(value) => Ok(Component::Scalar(value.copy(alloc)?)),
        }
    }
}

/// Appends the text of components, each behind a slash. After a refusal some of it may stand there.
pub fn append_components(components: &[Component], out: &mut Vec<u8>) -> Result<(), Memory>
    ensures { OnOk result (out.new.items ≡ out.old.items ++ spec.components_text components.now) }
{
    for component in components {
        append_component(component, out)?;
    }
    Ok(())
}

fn append_component(component: &Component, out: &mut Vec<u8>) -> Result<(), Memory>
    ensures { OnOk result (out.new.items
        ≡ out.old.items ++ spec.component_behind component.now) }
{
    match component {
        Component::Record { plural, id } => append_record(plural.as_bytes(), *id, out),
        Component::Literal(text) => append_literal(text.as_bytes(), out),
        Component::Scalar(value) => append_scalar(value, out),
    }
}

/// Appends the text of a record behind a slash. After a refusal some of it may stand there.
pub fn append_record(plural: &[u8], id: Option<u32>, out: &mut Vec<u8>) -> Result<(), Memory>
    ensures { OnOk result (out.new.items
        ≡ out.old.items ++ spec.component_behind (Component.Record plural.now id)) }
{
    out.push(SLASH)?;
    out.extend_from_slice(plural)?;
    out.push(SLASH)?;
    match id {
        Some(id) => {
            let mut digits = Buffer::new();
            out.extend_from_slice(digits.format(id).as_bytes())?;
        }
        None => out.extend_from_slice(b"nil")?,
    }
    Ok(())
}

/// Appends the text of a literal behind a slash. After a refusal some of it may stand there.
pub fn append_literal(text: &[u8], out: &mut Vec<u8>) -> Result<(), Memory>
    ensures { OnOk result (out.new.items
        ≡ out.old.items ++ spec.component_behind (Component.Literal text.now)) }
{
    out.push(SLASH)?;
    out.push(COLON)?;
    append_escaped(text, out)
}

/// Appends the text of a value behind a slash. After a refusal some of it may stand there.
pub fn append_scalar(value: &Value, out: &mut Vec<u8>) -> Result<(), Memory>
    ensures { OnOk result (out.new.items
        ≡ out.old.items ++ spec.component_behind (Component.Scalar value.now)) }
{
    out.push(SLASH)?;
    out.push(EQUALS)?;
    append_value(value, out)
}

fn append_value(value: &Value, out: &mut Vec<u8>) -> Result<(), Memory>
    ensures { OnOk result (out.new.items ≡ out.old.items ++ spec.value_text value.now) }
{
    match value {
        Value::Nil => out.extend_from_slice(b"nil")?,
        Value::Bool(true) => out.extend_from_slice(b"true")?,
        Value::Bool(false) => out.extend_from_slice(b"false")?,
        Value::Int(number) => {
            let mut digits = Buffer::new();
            out.extend_from_slice(digits.format(*number).as_bytes())?;
        }
        Value::Text(text) => {
            out.push(QUOTE)?;
            append_escaped(text.as_bytes(), out)?;
        }
    }
    Ok(())
}
