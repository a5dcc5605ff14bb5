//! Keys by which templates with typings are found.

ghost use Rattle.std.specs.Prelude.{◌≡◌, true, IfOk};

use crate::operators::is_same;
use crate::types::{Typing, ValueType};
use doll_text::{Copied, Items, Memory, Name};
use std::alloc::Global;

/// The key of a template with a typing: its number, and of each variable the name, the place of its type among the types, below
/// each byte of a name, and the number of its model.
pub(crate) fn key_of(alloc: Global, template: usize, typing: &Typing) -> Result<Vec<u8>, Memory> {
    let mut key = Vec::new(alloc);
    key.extend_from_slice(&template.to_be_bytes())?;
    for (name, of) in typing.as_slice() {
        key.extend_from_slice(name.as_bytes())?;
        let (place, model) = place_of(*of);
        key.push(place)?;
        key.extend_from_slice(&model.to_be_bytes())?;
    }
    Ok(key)
}

/// The place of a type among the types, and the number of its model.
fn place_of(of: ValueType) -> (u8, u16) {
    match of {
        ValueType::Integer => (0, 0),
        ValueType::Text => (1, 0),
        ValueType::Boolean => (2, 0),
        ValueType::Record { model } => (3, model),
        ValueType::List { model } => (4, model),
        ValueType::Nil => (5, 0),
    }
}

/// Whether two typings are the same.
pub(crate) fn is_same_typing(one: &[(Name, ValueType)], other: &[(Name, ValueType)]) -> bool
    ensures { result ≡ true → one.now ≡ other.now }
{
    let [first, rest @ ..] = one else {
        return other.is_empty();
    };
    let [second, more @ ..] = other else {
        return false;
    };
    if !is_same_binding(first, second) {
        return false;
    }
    is_same_typing(rest, more)
}

#[tactic(auto, using(crate::proofs::Typings::same_type_is, crate::proofs::Typings::same_binding))]
fn is_same_binding(one: &(Name, ValueType), other: &(Name, ValueType)) -> bool
    ensures { result ≡ true → one.now ≡ other.now }
{
    if one.0.as_bytes() != other.0.as_bytes() {
        return false;
    }
    is_same(one.1, other.1)
}

/// A typing with the same variables.
pub(crate) fn copy_typing(alloc: Global, typing: &Typing) -> Result<Typing, Memory>
    ensures { IfOk result (λ copy. copy ≡ typing.now) }
{
    let mut copy = Items::new(alloc);
    for binding in typing.as_slice() {
        let name = binding.0.copy(alloc)?;
        copy.push((name, binding.1))?;
    }
    Ok(copy)
}
