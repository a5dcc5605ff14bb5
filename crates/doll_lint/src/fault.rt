//! What a lint refuses, and how a fault names a path.

ghost use Rattle.std.specs.Prelude.{◌≡◌, ◌++◌, [], IfOk, OnOk};
ghost use Rattle.doll_lint.specs.Faults as spec;

use crate::path::{Path, PathStep, covers, many_of};
use doll_schema::Schema;
use doll_text::{Items, Memory, Name, Text};
use std::alloc::Global;

/// Why a block is refused.
#[derive(Drop)]
pub enum LintKind {
    /// The key doesn't tell this path, as a template writes it.
    Uncovered(Text),
    /// The key tells a record, but a change of its children under this association doesn't touch it.
    NoTouch(Name),
    /// An earlier block of the template, by its number, may have the same key.
    SharedKey { other: u32 },
    /// This variable isn't in the key.
    OutsideVariable(Name),
}

/// A block that reads beyond its key, or may share it: the template with the block, and the place of the tag that does so.
#[derive(Drop)]
pub struct LintFault {
    pub template: Name,
    pub at: u32,
    pub kind: LintKind,
}

/// Faults, each once, ascending by template, place and kind.
pub type LintFaults = Items<LintFault>;

/// The kind of fault of a path that a key doesn't tell.
pub(crate) fn kind_of(
    alloc: Global,
    schema: &Schema,
    key: &[Path],
    root: &Name,
    steps: &[PathStep],
) -> Result<LintKind, Memory>
    ensures { IfOk result (λ kind. kind ≡ spec.kind_of schema.now key.now root.now steps.now) }
{
    let [last, before @ ..] = steps else {
        return Ok(LintKind::OutsideVariable(root.copy(alloc)?));
    };
    if is_children_of(schema, key, root.as_bytes(), *last, before) {
        let name = Name::from_bytes(alloc, step_name(schema, *last))?;
        return Ok(LintKind::NoTouch(name));
    }
    let mut text = Vec::new(alloc);
    add_path_text(schema, root.as_bytes(), steps, &mut text)?;
    Ok(LintKind::Uncovered(Text::from_vec(text)))
}

/// Whether a step leads from a record that a key tells to its children.
fn is_children_of(
    schema: &Schema,
    key: &[Path],
    root: &[u8],
    step: PathStep,
    before: &[PathStep],
) -> bool
    ensures { result ≡ spec.is_children_of schema.now key.now root.now step before.now }
{
    match step {
        PathStep::Children { .. } => covers(schema, key, root, before),
        PathStep::Parent { .. } => false,
    }
}

/// Appends a path as a template writes it.
fn add_path_text(
    schema: &Schema,
    root: &[u8],
    steps: &[PathStep],
    text: &mut Vec<u8>,
) -> Result<(), Memory>
    ensures { OnOk result (text.new.items
        ≡ text.old.items ++ spec.path_text schema.now root.now steps.now) }
{
    let [last, before @ ..] = steps else {
        text.extend_from_slice(root)?;
        return Ok(());
    };
    add_path_text(schema, root, before, text)?;
    text.push(b'.')?;
    text.extend_from_slice(step_name(schema, *last))?;
    Ok(())
}

/// The name of the association along which a step goes.
fn step_name(schema: &Schema, step: PathStep) -> &[u8]
    ensures { result.now ≡ spec.step_name schema.now step }
{
    match step {
        PathStep::Parent { model, at } => parent_name(schema, model, at),
        PathStep::Children { model, at } => match many_of(schema, model, at) {
            Some(many) => many.name.as_bytes(),
            None => &[],
        },
    }
}

fn parent_name(schema: &Schema, model: u16, at: usize) -> &[u8]
    ensures { result.now ≡ spec.parent_name schema.now model at }
{
    let Some(model) = schema.model(model) else {
        return &[];
    };
    match model.belongs_to.get(at) {
        Some(parent) => parent.name.as_bytes(),
        None => &[],
    }
}
