//! Paths from a variable along associations, and which of them a key tells.

ghost use Rattle.std.specs.Prelude.{◌≡◌, ◌∷◌, IfOk, option_copied};
ghost use Rattle.doll_schema.specs.Lookups.{many_of};
ghost use Rattle.doll_lint.specs.Paths as spec;

use doll_schema::{BelongsTo, HasMany, Schema};
use doll_text::{Copied, Items, Memory, Name};
use std::alloc::Global;

/// A step along an association of a record of `model`, by its number among those of the model.
#[derive(Clone, Copy, PartialEq, Eq)]
pub enum PathStep {
    /// To the parent that a `belongs_to` names.
    Parent { model: u16, at: usize },
    /// To the children under a `has_many`, and to each of them.
    Children { model: u16, at: usize },
}

/// A variable, and the steps from it, the last one first. In its normal form no step to a parent takes one to children back.
#[derive(Drop)]
pub struct Path {
    pub root: Name,
    pub steps: Items<PathStep>,
}

pub type Paths = Items<Path>;

impl Copied for Path {
    fn copy(&self, alloc: Global) -> Result<Path, Memory> {
        Ok(Path {
            root: self.root.copy(alloc)?,
            steps: Items::from_slice(alloc, self.steps.as_slice())?,
        })
    }
}

/// A variable by itself.
pub fn root_path(alloc: Global, name: &[u8]) -> Result<Path, Memory>
    ensures { IfOk result (λ path. path ≡ spec.root_path name.now) }
{
    Ok(Path {
        root: Name::from_bytes(alloc, name)?,
        steps: Items::new(alloc),
    })
}

/// The path with a step more, in its normal form.
pub fn path_to(alloc: Global, schema: &Schema, next: PathStep, path: &Path) -> Result<Path, Memory>
    ensures { IfOk result (λ longer. longer ≡ spec.path_to schema.now next path.now) }
{
    let steps = then_step(alloc, schema, path.steps.as_slice(), next)?;
    let root = path.root.copy(alloc)?;
    Ok(Path { root, steps })
}

/// Steps and one more: the parent of a record's children is the record.
fn then_step(
    alloc: Global,
    schema: &Schema,
    steps: &[PathStep],
    next: PathStep,
) -> Result<Items<PathStep>, Memory>
    ensures { IfOk result (λ longer. longer ≡ spec.then_step schema.now steps.now next) }
{
    let [last, before @ ..] = steps else {
        return behind(alloc, next, steps);
    };
    if leads_back(schema, *last, next) {
        return Ok(Items::from_slice(alloc, before)?);
    }
    behind(alloc, next, steps)
}

/// A step before others.
fn behind(alloc: Global, next: PathStep, steps: &[PathStep]) -> Result<Items<PathStep>, Memory>
    ensures { IfOk result (λ longer. longer ≡ next ∷ steps.now) }
{
    let mut longer = Items::from_slice(alloc, &[next])?;
    longer.append(Items::from_slice(alloc, steps)?)?;
    Ok(longer)
}

/// Whether a step names the parent of the children to which the last one led.
fn leads_back(schema: &Schema, last: PathStep, next: PathStep) -> bool
    ensures { result ≡ spec.leads_back schema.now last next }
{
    let PathStep::Children { model: from, at } = last else {
        return false;
    };
    let PathStep::Parent { model, at: back } = next else {
        return false;
    };
    let Some(many) = many_of(schema, from, at) else {
        return false;
    };
    if many.model != model {
        return false;
    }
    usize::from(many.inverse) == back
}

/// An association of a model to children.
pub(crate) fn many_of(schema: &Schema, model: u16, at: usize) -> Option<&HasMany>
    ensures { option_copied result ≡ many_of schema.now model at }
{
    schema.model(model)?.has_many.get(at)
}

/// Whether two steps go along one association.
fn same_step(one: PathStep, other: PathStep) -> bool
    ensures { result ≡ spec.same_step one other }
{
    match (one, other) {
        (PathStep::Parent { model: m, at: a }, PathStep::Parent { model: n, at: b }) => {
            m == n && a == b
        }
        (PathStep::Children { model: m, at: a }, PathStep::Children { model: n, at: b }) => {
            m == n && a == b
        }
        _ => false,
    }
}

/// Whether two lists of steps are the same.
fn same_steps(ones: &[PathStep], others: &[PathStep]) -> bool
    ensures { result ≡ spec.same_steps ones.now others.now }
{
    let [one, more @ ..] = ones else {
        return others.is_empty();
    };
    let [other, rest @ ..] = others else {
        return false;
    };
    if !same_step(*one, *other) {
        return false;
    }
    same_steps(more, rest)
}

/// Whether a change of the children to which a step leads touches the record whose children they are.
fn touches(schema: &Schema, step: PathStep) -> bool
    ensures { result ≡ spec.touches schema.now step }
{
    let PathStep::Children { model: from, at } = step else {
        return false;
    };
    let Some(many) = many_of(schema, from, at) else {
        return false;
    };
    inverse_touches(schema, from, many)
}

/// Whether the association that leads back from these children touches.
fn inverse_touches(schema: &Schema, from: u16, many: &HasMany) -> bool
    ensures { result ≡ spec.inverse_touches schema.now from many.now }
{
    let Some(model) = schema.model(many.model) else {
        return false;
    };
    let Some(back) = model.belongs_to.get(many.inverse as usize) else {
        return false;
    };
    touches_model(from, back)
}

fn touches_model(model: u16, back: &BelongsTo) -> bool
    ensures { result ≡ spec.touches_model model back.now }
{
    if back.model != model {
        return false;
    }
    back.touch
}

/// Whether a key names the end of a path itself.
fn is_named(key: &[Path], root: &[u8], steps: &[PathStep]) -> bool
    ensures { result ≡ spec.is_named key.now root.now steps.now }
{
    key.iter().any(|path| is_at(path, root, steps))
}

/// Whether a path is this root and these steps.
fn is_at(path: &Path, root: &[u8], steps: &[PathStep]) -> bool
    ensures { result ≡ spec.same_path (record { root = root.now; steps = steps.now }) path.now }
{
    if root != path.root.as_bytes() {
        return false;
    }
    same_steps(steps, path.steps.as_slice())
}

/// Whether a key covers a path: it names its end, or it leads to children that touch a record which is covered.
pub fn covers(schema: &Schema, key: &[Path], root: &[u8], steps: &[PathStep]) -> bool
    ensures { result ≡ spec.covers schema.now key.now root.now steps.now }
{
    let [last, before @ ..] = steps else {
        return is_named(key, root, steps);
    };
    if is_named(key, root, steps) {
        return true;
    }
    if !touches(schema, *last) {
        return false;
    }
    covers(schema, key, root, before)
}

/// Whether a key settles a path: it covers it, or the path leads to the parent of a record that is covered.
pub fn settles(schema: &Schema, key: &[Path], root: &[u8], steps: &[PathStep]) -> bool
    ensures { result ≡ spec.settles schema.now key.now root.now steps.now }
{
    let [last, before @ ..] = steps else {
        return covers(schema, key, root, steps);
    };
    if covers(schema, key, root, steps) {
        return true;
    }
    match last {
        PathStep::Parent { .. } => covers(schema, key, root, before),
        PathStep::Children { .. } => false,
    }
}
