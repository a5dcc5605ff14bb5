//! The type of an expression.

ghost use Rattle.std.specs.Prelude.{◌≡◌, ℕ, List, Some, None, IfOk, find, reverse, bytes_eq};
ghost use Rattle.std.specs.Option.{ok_or, option_copied};
ghost use Rattle.doll_types.specs.declared.types.ValueType.{ValueType};
ghost use Rattle.doll_types.specs.declared.types.TypeKind.TheVariants as kinds;
ghost use Rattle.doll_types.specs.Types as spec;

use crate::operators::{binary_type, negated_type, query_type};
use crate::types::{TypeKind, Typing, ValueType};
use doll_eval::Member;
use doll_expr::Expr;
use doll_schema::{Kind, Model, Schema};
use doll_text::{Memory, Name};
use std::alloc::Global;

/// The type of an expression, or its first fault: those of its parts from left to right, then its own.
pub fn type_of(
    alloc: Global,
    schema: &Schema,
    typing: &Typing,
    expr: &Expr,
) -> Result<Result<ValueType, TypeKind>, Memory>
    ensures { IfOk result (λ t. t ≡ spec.type_of schema.now typing.now expr.now) }
{
    match expr {
        Expr::Nil => Ok(Ok(ValueType::Nil)),
        Expr::True | Expr::False => Ok(Ok(ValueType::Boolean)),
        Expr::Int(_) => Ok(Ok(ValueType::Integer)),
        Expr::Text(_) => Ok(Ok(ValueType::Text)),
        Expr::Var(name) => named_type(alloc, typing, name),
        Expr::Step(of, name) => match type_of(alloc, schema, typing, of.get())? {
            Ok(from) => step_type(alloc, schema, from, name),
            Err(kind) => Ok(Err(kind)),
        },
        Expr::Ask(of, query) => match type_of(alloc, schema, typing, of.get())? {
            Ok(from) => Ok(query_type(*query, from)),
            Err(kind) => Ok(Err(kind)),
        },
        Expr::Not(of) => match type_of(alloc, schema, typing, of.get())? {
            Ok(_) => Ok(Ok(ValueType::Boolean)),
            Err(kind) => Ok(Err(kind)),
        },
        Expr::Neg(of) => match type_of(alloc, schema, typing, of.get())? {
            Ok(from) => Ok(negated_type(from)),
            Err(kind) => Ok(Err(kind)),
        },
        Expr::Binary(op, left, right) => {
            let left = match type_of(alloc, schema, typing, left.get())? {
                Ok(left) => left,
                Err(kind) => return Ok(Err(kind)),
            };
            match type_of(alloc, schema, typing, right.get())? {
                Ok(right) => Ok(binary_type(*op, left, right)),
                Err(kind) => Ok(Err(kind)),
            }
        }
    }
}

/// The type of a variable.
pub fn named_type(
    alloc: Global,
    typing: &Typing,
    name: &Name,
) -> Result<Result<ValueType, TypeKind>, Memory>
    ensures { IfOk result (λ t. t
        ≡ ok_or (spec.variable_type typing.now name.now) (kinds.UnknownVariable name.now)) }
{
    match last_binding(typing, name.as_bytes()) {
        Some(binding) => Ok(Ok(binding.1)),
        None => Ok(Err(TypeKind::UnknownVariable(name.copy(alloc)?))),
    }
}

/// The last binding of a name.
fn last_binding<'a>(typing: &'a Typing, name: &[u8]) -> Option<&'a (Name, ValueType)>
    ensures { option_copied result ≡ find (λ (b : List ℕ × ValueType). bytes_eq b.0 name.now)
        (reverse typing.now) }
{
    typing
        .as_slice()
        .iter()
        .rev()
        .find(|binding| binding.0.as_bytes() == name)
}

/// The type of a name after a dot.
pub fn step_type(
    alloc: Global,
    schema: &Schema,
    from: ValueType,
    name: &Name,
) -> Result<Result<ValueType, TypeKind>, Memory>
    ensures { IfOk result (λ t. t ≡ spec.step_type schema.now name.now from) }
{
    if from == ValueType::Nil {
        return Ok(Ok(ValueType::Nil));
    }
    match part_type(schema, from, name.as_bytes()) {
        Some(part) => Ok(Ok(part)),
        None => Ok(Err(TypeKind::UnknownStep(name.copy(alloc)?))),
    }
}

/// The type of a part of a record.
fn part_type(schema: &Schema, from: ValueType, name: &[u8]) -> Option<ValueType>
    ensures { result ≡ spec.part_type schema.now name.now from }
{
    let ValueType::Record { model } = from else {
        return None;
    };
    let of = schema.model(model)?;
    member_type(of, Member::of(of, name))
}

/// The type of what a record of a model has.
fn member_type(of: &Model, member: Member) -> Option<ValueType>
    ensures { result ≡ spec.member_type of.now member }
{
    match member {
        Member::Attribute(at) => attribute_type(of, at),
        Member::Key(_) | Member::Id | Member::UpdatedAt => Some(ValueType::Integer),
        Member::Parent(at) => parent_type(of, at),
        Member::Children(at) => children_type(of, at),
        Member::Unknown => None,
    }
}

fn attribute_type(of: &Model, at: usize) -> Option<ValueType>
    ensures { result ≡ spec.attribute_type of.now at }
{
    let attribute = of.attributes.get(at)?;
    Some(kind_type(attribute.kind))
}

fn parent_type(of: &Model, at: usize) -> Option<ValueType>
    ensures { result ≡ spec.parent_type of.now at }
{
    let parent = of.belongs_to.get(at)?;
    Some(ValueType::Record {
        model: parent.model,
    })
}

fn children_type(of: &Model, at: usize) -> Option<ValueType>
    ensures { result ≡ spec.children_type of.now at }
{
    let many = of.has_many.get(at)?;
    Some(ValueType::List { model: many.model })
}

fn kind_type(kind: Kind) -> ValueType
    ensures { result ≡ spec.kind_type kind }
{
    match kind {
        Kind::Integer => ValueType::Integer,
        Kind::Text => ValueType::Text,
        Kind::Boolean => ValueType::Boolean,
    }
}
