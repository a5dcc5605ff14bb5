//! Models as they are written: what they refer to is still a name.

use crate::model::Attributes;
use doll_text::{Items, Name, Text};

/// An association to a parent.
#[derive(Drop)]
pub struct ParentDraft {
    pub name: Name,
    /// The foreign key: the name followed by `_id`.
    pub key: Name,
    /// The name of the parent's model.
    pub model: Text,
    pub touch: bool,
    pub null: bool,
}

/// An association to children.
#[derive(Drop)]
pub struct ManyDraft {
    pub name: Name,
    /// The name of the children's model.
    pub model: Text,
    /// The name of the children's association to this model.
    pub inverse: Text,
    pub destroy: bool,
}

pub type ParentDrafts = Items<ParentDraft>;

pub type ManyDrafts = Items<ManyDraft>;

/// A model whose associations aren't looked up yet.
#[derive(Drop)]
pub struct ModelDraft {
    pub name: Name,
    pub plural: Name,
    pub attributes: Attributes,
    pub belongs_to: ParentDrafts,
    pub has_many: ManyDrafts,
}

pub type ModelDrafts = Items<ModelDraft>;
