//! Cached blocks, the paths that their keys name, and the shapes of their keys.

ghost use Rattle.std.specs.Prelude.{◌≡◌, ◌++◌, IfOk, OnOk, map};
ghost use Rattle.std.specs.List.{flat_map};
ghost use Rattle.std.specs.Option.{option_copied};
ghost use Rattle.doll_lint.specs.Blocks as spec;

use crate::path::{Paths, root_path};
use crate::reading::{Reading, Standing, read_expr};
use doll_erb::KeyPart;
use doll_expr::Expr;
use doll_schema::Schema;
use doll_text::{Copied, Items, Memory, Name, Text};
use doll_types::{TypeKind, Typing, ValueType, type_of};
use std::alloc::Global;

/// The shape of a part of a key: what the part is, whatever its value.
#[derive(Drop)]
pub enum PartShape {
    /// A record of a model, or none.
    Record { model: u16 },
    /// A number, a text, a truth value or nil.
    Single,
    /// This very text.
    Literal(Text),
}

pub type KeyShape = Items<PartShape>;

/// The paths that a key names, where its variables have these types and stand for these paths.
pub(crate) fn key_paths(
    alloc: Global,
    schema: &Schema,
    typing: &Typing,
    standing: &Standing,
    key: &[KeyPart],
) -> Result<Paths, Memory>
    ensures { IfOk result (λ paths. paths
        ≡ flat_map (spec.part_paths schema.now typing.now standing.now) key.now) }
{
    let mut paths = Items::new(alloc);
    for part in key {
        add_part_paths(alloc, schema, typing, standing, part, &mut paths)?;
    }
    Ok(paths)
}

/// Appends the paths that a part of a key names.
fn add_part_paths(
    alloc: Global,
    schema: &Schema,
    typing: &Typing,
    standing: &Standing,
    part: &KeyPart,
    paths: &mut Paths,
) -> Result<(), Memory>
    ensures { OnOk result (paths.new
        ≡ paths.old ++ spec.part_paths schema.now typing.now standing.now part.now) }
{
    let KeyPart::Path(value) = part else {
        return Ok(());
    };
    if let Some(name) = variable_in(value) {
        paths.push(root_path(alloc, name.as_bytes())?)?;
        return Ok(());
    }
    let reading = read_expr(alloc, schema, typing, standing, value)?;
    paths.append(record_paths(alloc, reading))?;
    Ok(())
}

/// The name of a variable that stands by itself.
fn variable_in(value: &Expr) -> Option<&Name>
    ensures { option_copied result ≡ spec.variable_in value.now }
{
    match value {
        Expr::Var(name) => Some(name),
        _ => None,
    }
}

/// Where a record stands.
fn record_paths(alloc: Global, reading: Reading) -> Paths
    ensures { result ≡ spec.record_paths reading }
{
    match reading.of {
        Ok(ValueType::Record { .. }) => reading.paths,
        _ => Items::new(alloc),
    }
}

/// Each variable of a scope stands for itself.
pub(crate) fn scope_roots(alloc: Global, typing: &Typing) -> Result<Standing, Memory>
    ensures { IfOk result (λ standing. standing ≡ spec.scope_roots typing.now) }
{
    let mut standing = Items::new(alloc);
    for binding in typing.as_slice() {
        let mut paths = Items::new(alloc);
        paths.push(root_path(alloc, binding.0.as_bytes())?)?;
        standing.push((binding.0.copy(alloc)?, paths))?;
    }
    Ok(standing)
}

/// The shape of a key.
pub(crate) fn key_shape(
    alloc: Global,
    schema: &Schema,
    typing: &Typing,
    key: &[KeyPart],
) -> Result<KeyShape, Memory>
    ensures { IfOk result (λ shape. shape ≡ map (spec.part_shape schema.now typing.now) key.now) }
{
    let mut shape = Items::new(alloc);
    for part in key {
        shape.push(part_shape(alloc, schema, typing, part)?)?;
    }
    Ok(shape)
}

/// The shape of a part of a key.
fn part_shape(
    alloc: Global,
    schema: &Schema,
    typing: &Typing,
    part: &KeyPart,
) -> Result<PartShape, Memory>
    ensures { IfOk result (λ shape. shape ≡ spec.part_shape schema.now typing.now part.now) }
{
    match part {
        KeyPart::Path(value) => Ok(value_shape(type_of(alloc, schema, typing, value)?)),
        KeyPart::Literal(text) => Ok(PartShape::Literal(text.copy(alloc)?)),
    }
}

fn value_shape(of: Result<ValueType, TypeKind>) -> PartShape
    ensures { result ≡ spec.value_shape of }
{
    match of {
        Ok(ValueType::Record { model }) => PartShape::Record { model },
        _ => PartShape::Single,
    }
}
