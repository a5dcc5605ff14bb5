//! The parts of keys.

ghost use Rattle.std.specs.Prelude.{◌≡◌, ◌++◌, IfOk, OnOk};
ghost use Rattle.std.specs.List.{flat_map};
ghost use Rattle.doll_types.specs.Findings as spec;

use crate::expressions::type_of;
use crate::findings::{Finding, add_failed};
use crate::types::{TypeKind, Typing, ValueType};
use doll_erb::KeyPart;
use doll_expr::Expr;
use doll_schema::Schema;
use doll_text::{Items, Memory};
use std::alloc::Global;

/// Appends the faults of the parts of a key.
pub(crate) fn add_key(
    alloc: Global,
    schema: &Schema,
    typing: &Typing,
    at: u32,
    key: &[KeyPart],
    found: &mut Items<Finding>,
) -> Result<(), Memory>
    ensures { OnOk result (found.new
        ≡ found.old ++ flat_map (spec.part_found schema.now typing.now at) key.now) }
{
    for part in key {
        add_part(alloc, schema, typing, at, part, found)?;
    }
    Ok(())
}

/// Appends the fault of a part of a key.
fn add_part(
    alloc: Global,
    schema: &Schema,
    typing: &Typing,
    at: u32,
    part: &KeyPart,
    found: &mut Items<Finding>,
) -> Result<(), Memory>
    ensures { OnOk result (found.new
        ≡ found.old ++ spec.part_found schema.now typing.now at part.now) }
{
    match part {
        KeyPart::Path(expr) => {
            let of = key_type(alloc, schema, typing, expr)?;
            add_failed(at, of, found)
        }
        KeyPart::Literal(_) => Ok(()),
    }
}

/// The type of a part of a key that is an expression.
fn key_type(
    alloc: Global,
    schema: &Schema,
    typing: &Typing,
    expr: &Expr,
) -> Result<Result<ValueType, TypeKind>, Memory>
    ensures { IfOk result (λ t. t ≡ spec.key_type schema.now typing.now expr.now) }
{
    match type_of(alloc, schema, typing, expr)? {
        Ok(of) => Ok(key_checked(expr, of)),
        Err(kind) => Ok(Err(kind)),
    }
}

fn key_checked(expr: &Expr, of: ValueType) -> Result<ValueType, TypeKind>
    ensures { result ≡ spec.key_checked expr.now of }
{
    if is_key(expr, of) {
        Ok(of)
    } else {
        Err(TypeKind::BadKey)
    }
}

/// Whether an expression of this type may be a part of a key.
fn is_key(expr: &Expr, of: ValueType) -> bool
    ensures { result ≡ spec.is_key expr.now of }
{
    match of {
        ValueType::Record { .. } | ValueType::Nil => is_path(expr),
        ValueType::List { .. } => false,
        ValueType::Integer | ValueType::Text | ValueType::Boolean => is_variable(expr),
    }
}

fn is_variable(expr: &Expr) -> bool
    ensures { result ≡ spec.is_variable expr.now }
{
    matches!(expr, Expr::Var(_))
}

/// Whether an expression is a variable with the steps from it.
fn is_path(expr: &Expr) -> bool
    ensures { result ≡ spec.is_path expr.now }
{
    match expr {
        Expr::Var(_) => true,
        Expr::Step(of, _) => is_path(of.get()),
        _ => false,
    }
}
