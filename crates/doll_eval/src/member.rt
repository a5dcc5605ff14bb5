//! What a name after a dot stands for at a record.

ghost use Rattle.std.specs.Prelude.{◌≡◌};
ghost use Rattle.doll_eval.specs.Members;

use doll_schema::Model;

/// What a name stands for at a record of a model, with its place in the model's list of such parts.
#[derive(Clone, Copy, PartialEq, Eq)]
pub enum Member {
    Attribute(usize),
    /// The foreign key of an association to a parent.
    Key(usize),
    /// The record's own id.
    Id,
    /// The moment of the record's last change or touch.
    UpdatedAt,
    /// The record of an association to a parent.
    Parent(usize),
    /// The records of an association to children.
    Children(usize),
    Unknown,
}

impl Member {
    /// What a name stands for at the records of a model.
    pub fn of(model: &Model, name: &[u8]) -> Member
        ensures { result ≡ Members.member_of model.now name.now }
    {
        match model.attribute_named(name) {
            Some(at) => Member::Attribute(at),
            None => key_member(model, name),
        }
    }
}

fn key_member(model: &Model, name: &[u8]) -> Member
    ensures { result ≡ Members.key_member model.now name.now }
{
    match model.key_named(name) {
        Some(at) => Member::Key(at),
        None => common_member(model, name),
    }
}

fn common_member(model: &Model, name: &[u8]) -> Member
    ensures { result ≡ Members.common_member model.now name.now }
{
    if name == b"id".as_slice() {
        return Member::Id;
    }
    if name == b"updated_at".as_slice() {
        return Member::UpdatedAt;
    }
    association_member(model, name)
}

fn association_member(model: &Model, name: &[u8]) -> Member
    ensures { result ≡ Members.association_member model.now name.now }
{
    match model.parent_named(name) {
        Some(at) => Member::Parent(at),
        None => children_member(model, name),
    }
}

fn children_member(model: &Model, name: &[u8]) -> Member
    ensures { result ≡ Members.children_member model.now name.now }
{
    match model.many_named(name) {
        Some(at) => Member::Children(at),
        None => Member::Unknown,
    }
}
