//! Types of values, and typings of variables.

ghost use Rattle.std.specs.Prelude.{◌≡◌};
ghost use Rattle.doll_types.specs.Faults.{kind_name, kind_place};

use doll_text::{Copied, Items, Memory, Name};
use std::alloc::Global;

/// What an expression gives. Nil is a value of every type.
#[derive(Clone, Copy, PartialEq, Eq)]
pub enum ValueType {
    Integer,
    Text,
    Boolean,
    /// A record of the model with this number.
    Record { model: u16 },
    /// Records of one model.
    List { model: u16 },
    /// Always nil; it fits every type.
    Nil,
}

/// Variables with their types. Of one name the last stands.
pub type Typing = Items<(Name, ValueType)>;

/// What is wrong with a tag.
#[derive(Drop)]
pub enum TypeKind {
    /// A route's template isn't in the set.
    MissingTemplate,
    /// No variable has this name.
    UnknownVariable(Name),
    /// The value has no such part.
    UnknownStep(Name),
    /// An operator or a question has sides that it doesn't take.
    Mismatch,
    /// A record or a list is written.
    NotPrintable,
    /// What `each` or a collection goes over is no list.
    NotList,
    /// A part of a key is neither a variable with a single value nor a path to a record.
    BadKey,
}

impl TypeKind {
    /// The place of the kind among the kinds.
    pub(crate) fn place(&self) -> u8
        ensures { result ≡ kind_place self.now }
    {
        match self {
            TypeKind::MissingTemplate => 0,
            TypeKind::UnknownVariable(_) => 1,
            TypeKind::UnknownStep(_) => 2,
            TypeKind::Mismatch => 3,
            TypeKind::NotPrintable => 4,
            TypeKind::NotList => 5,
            TypeKind::BadKey => 6,
        }
    }

    /// The name that the kind carries, nothing where it carries none.
    pub fn name(&self) -> &[u8]
        ensures { result.now ≡ kind_name self.now }
    {
        match self {
            TypeKind::UnknownVariable(name) | TypeKind::UnknownStep(name) => name.as_bytes(),
            _ => &[],
        }
    }
}

impl Copied for TypeKind {
    fn copy(&self, alloc: Global) -> Result<TypeKind, Memory> {
        match self {
            TypeKind::MissingTemplate => Ok(TypeKind::MissingTemplate),
            TypeKind::UnknownVariable(name) => Ok(TypeKind::UnknownVariable(name.copy(alloc)?)),
            TypeKind::UnknownStep(name) => Ok(TypeKind::UnknownStep(name.copy(alloc)?)),
            TypeKind::Mismatch => Ok(TypeKind::Mismatch),
            TypeKind::NotPrintable => Ok(TypeKind::NotPrintable),
            TypeKind::NotList => Ok(TypeKind::NotList),
            TypeKind::BadKey => Ok(TypeKind::BadKey),
        }
    }
}
