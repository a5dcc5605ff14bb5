//! The models of a site: what its records hold and how they belong together.

ghost use Rattle.std.specs.Prelude.{◌≡◌, ◌<◌, length, slice_get, bytes_eq, position, IfSome};
ghost use Rattle.std.specs.Option.{option_copied};
ghost use Rattle.serde_json.specs.View.{view};
ghost use Rattle.doll_text.specs.Gives.{Gives};
ghost use Rattle.doll_schema.specs.Limits.{AreWithinLimits, HasFewParts};
ghost use Rattle.doll_schema.specs.Lookups.{key_name, model_named, attribute_named, key_named, parent_named, many_named};
ghost use Rattle.doll_schema.specs.Schemas.{schema_of};
ghost use Rattle.doll_schema.specs.Values.{has_kind};

use crate::drafting::drafts_of;
use crate::fault::SchemaFault;
use crate::linking::linked;
use crate::value::Value;
use doll_text::{Copied, Items, Memory, Name, copy_list};
use std::alloc::Global;
use std::marker;

/// What an attribute holds.
#[derive(Clone, Copy, PartialEq, Eq)]
pub enum Kind {
    /// A whole number of 64 bits, signed.
    Integer,
    Text,
    Boolean,
}

impl Kind {
    /// Whether a value is of this kind; nil is of each.
    pub fn has(self, value: &Value) -> bool
        ensures { result ≡ has_kind self value.now }
    {
        match (self, value) {
            (_, Value::Nil) => true,
            (Kind::Boolean, Value::Bool(_)) => true,
            (Kind::Integer, Value::Int(_)) => true,
            (Kind::Text, Value::Text(_)) => true,
            _ => false,
        }
    }
}

/// A named value of each record of a model.
#[derive(Drop)]
pub struct Attribute {
    pub name: Name,
    pub kind: Kind,
    /// Whether a record may leave it nil.
    pub null: bool,
}

/// An association to one parent record, kept as a foreign key of the record.
#[derive(Drop)]
pub struct BelongsTo {
    pub name: Name,
    /// The number of the parent's model.
    pub model: u16,
    /// Whether a change of the record also touches its parent.
    pub touch: bool,
    /// Whether a record may be without a parent.
    pub null: bool,
}

impl BelongsTo {
    /// Whether a name is that of the foreign key: the association's with `_id` after it.
    #[tactic(auto, using(crate::proofs::Keys::suffix_apart))]
    pub fn has_key(&self, name: &[u8]) -> bool
        ensures { result ≡ bytes_eq (key_name self.now.name) name.now }
    {
        if name.len() < 3 {
            return false;
        }
        let at = name.len() - 3;
        if &name[..at] != self.name.as_bytes() {
            return false;
        }
        &name[at..] == b"_id".as_slice()
    }
}

/// An association to the records whose foreign key names this one.
#[derive(Drop)]
pub struct HasMany {
    pub name: Name,
    /// The number of the children's model.
    pub model: u16,
    /// The number of the children's association to this model, among theirs.
    pub inverse: u16,
    /// Whether the children go with their parent; else a parent with children stays.
    pub destroy: bool,
}

pub type Attributes = Items<Attribute>;

pub type Parents = Items<BelongsTo>;

pub type Manys = Items<HasMany>;

/// A kind of record.
#[derive(Drop)]
pub struct Model {
    pub name: Name,
    pub plural: Name,
    pub attributes: Attributes,
    pub belongs_to: Parents,
    pub has_many: Manys,
}

impl Model {
    /// The place of the attribute with a name.
    pub fn attribute_named(&self, name: &[u8]) -> Option<usize>
        ensures { result ≡ attribute_named self.now name.now }
    {
        self.attributes
            .as_slice()
            .iter()
            .position(|a| a.name.as_bytes() == name)
    }

    /// The place of the association to a parent whose foreign key has a name.
    pub fn key_named(&self, name: &[u8]) -> Option<usize>
        ensures { result ≡ key_named self.now name.now }
    {
        self.belongs_to
            .as_slice()
            .iter()
            .position(|b| b.has_key(name))
    }

    /// The place of the association to a parent with a name.
    pub fn parent_named(&self, name: &[u8]) -> Option<usize>
        ensures { result ≡ parent_named self.now name.now }
    {
        self.belongs_to
            .as_slice()
            .iter()
            .position(|b| b.name.as_bytes() == name)
    }

    /// The place of the association to children with a name.
    pub fn many_named(&self, name: &[u8]) -> Option<usize>
        ensures { result ≡ many_named self.now name.now }
    {
        self.has_many
            .as_slice()
            .iter()
            .position(|h| h.name.as_bytes() == name)
    }
}

pub type Models = Items<Model>;

/// The models of a site. A model is named by its number in this list. There are at most 32, and each of these has at most
/// 32 attributes, 8 associations to parents and 8 to children.
#[derive(Drop)]
pub struct Schema {
    models: Models,
}

impl marker::Model for Schema {
    ghost use Rattle.doll_schema.specs.Limits.{AreWithinLimits};
    ghost use Rattle.doll_schema.specs.Models.{ModelList};

    ghost Value = { ModelList };

    ghost view = { λ s. record { models = s.models } };

    ghost invariant = { λ s. AreWithinLimits s.models };
}

impl Schema {
    /// The schema that the JSON value is, or its first fault: first each model's own, in the order of the models and of
    /// `Part`, then those of what they refer to.
    pub fn read(alloc: Global, json: &serde_json::Value) -> Result<Schema, SchemaFault>
        ensures { Gives SchemaFault.Memory (schema_of (view json.now)) result }
    {
        let drafts = drafts_of(alloc, json)?;
        let models = linked(alloc, drafts.as_slice())?;
        Ok(Schema { models })
    }

    /// The models in the order of their numbers.
    pub fn models(&self) -> &[Model]
        ensures models { result.now ≡ self.now.models }
        ensures limits { AreWithinLimits self.now.models }
    {
        self.models.as_slice()
    }

    /// The model with a number.
    pub fn model(&self, number: u16) -> Option<&Model>
        ensures model { option_copied result ≡ slice_get self.now.models number }
        ensures few { IfSome (option_copied result) HasFewParts }
    {
        self.models.get(number as usize)
    }

    /// The number of the model with a name.
    pub fn model_named(&self, name: &[u8]) -> Option<u16>
        ensures number { result ≡ model_named self.now name.now }
        ensures within { IfSome result (λ number. number < length self.now.models) }
    {
        let number = model_at(self.models.as_slice(), name)?;
        Some(number as u16)
    }
}

fn model_at(models: &[Model], name: &[u8]) -> Option<usize>
    ensures { result ≡ position (λ (m : Model). bytes_eq m.name name.now) models.now }
{
    models.iter().position(|m| m.name.as_bytes() == name)
}

impl Copied for Attribute {
    fn copy(&self, alloc: Global) -> Result<Attribute, Memory> {
        Ok(Attribute {
            name: self.name.copy(alloc)?,
            kind: self.kind,
            null: self.null,
        })
    }
}

impl Copied for BelongsTo {
    fn copy(&self, alloc: Global) -> Result<BelongsTo, Memory> {
        Ok(BelongsTo {
            name: self.name.copy(alloc)?,
            model: self.model,
            touch: self.touch,
            null: self.null,
        })
    }
}

impl Copied for HasMany {
    fn copy(&self, alloc: Global) -> Result<HasMany, Memory> {
        Ok(HasMany {
            name: self.name.copy(alloc)?,
            model: self.model,
            inverse: self.inverse,
            destroy: self.destroy,
        })
    }
}

impl Copied for Model {
    fn copy(&self, alloc: Global) -> Result<Model, Memory> {
        Ok(Model {
            name: self.name.copy(alloc)?,
            plural: self.plural.copy(alloc)?,
            attributes: copy_list(alloc, self.attributes.as_slice())?,
            belongs_to: copy_list(alloc, self.belongs_to.as_slice())?,
            has_many: copy_list(alloc, self.has_many.as_slice())?,
        })
    }
}

impl Copied for Schema {
    fn copy(&self, alloc: Global) -> Result<Schema, Memory> {
        Ok(Schema {
            models: copy_list(alloc, self.models.as_slice())?,
        })
    }
}
