//! The types that operators and questions take and give.

ghost use Rattle.std.specs.Prelude.{◌≡◌};
ghost use Rattle.doll_types.specs.Types as spec;

use crate::types::{TypeKind, ValueType};
use doll_expr::{Op, Query};

/// The type of the answer to a question.
pub fn query_type(query: Query, of: ValueType) -> Result<ValueType, TypeKind>
    ensures { result ≡ spec.query_type query of }
{
    match query {
        Query::Size => checked(is_list(of), ValueType::Integer),
        Query::Empty | Query::Any => checked(is_list(of), ValueType::Boolean),
        Query::IsNil => Ok(ValueType::Boolean),
    }
}

/// The type of a number with its sign changed.
pub fn negated_type(of: ValueType) -> Result<ValueType, TypeKind>
    ensures { result ≡ spec.negated_type of }
{
    checked(is_number(of), ValueType::Integer)
}

/// What an operator gives for sides of these types.
pub fn binary_type(op: Op, left: ValueType, right: ValueType) -> Result<ValueType, TypeKind>
    ensures { result ≡ spec.binary_type op left right }
{
    match op {
        Op::Or | Op::And => sides_type(left, right),
        Op::Eq | Op::Ne => {
            sides_type(left, right)?;
            Ok(ValueType::Boolean)
        }
        Op::Lt | Op::Le | Op::Gt | Op::Ge => {
            ordered_type(left, right)?;
            Ok(ValueType::Boolean)
        }
        Op::Add => ordered_type(left, right),
        Op::Sub | Op::Mul => numbers_type(left, right),
    }
}

/// A type where a test holds.
fn checked(holds: bool, given: ValueType) -> Result<ValueType, TypeKind>
    ensures { result ≡ spec.checked holds given }
{
    if holds {
        Ok(given)
    } else {
        Err(TypeKind::Mismatch)
    }
}

/// The type of two sides that must have one.
fn sides_type(left: ValueType, right: ValueType) -> Result<ValueType, TypeKind>
    ensures { result ≡ spec.sides_type left right }
{
    match common_type(left, right) {
        Some(common) => Ok(common),
        None => Err(TypeKind::Mismatch),
    }
}

/// The same where it must have an order.
fn ordered_type(left: ValueType, right: ValueType) -> Result<ValueType, TypeKind>
    ensures { result ≡ spec.ordered_type left right }
{
    let common = sides_type(left, right)?;
    checked(is_ordered(common), common)
}

fn numbers_type(left: ValueType, right: ValueType) -> Result<ValueType, TypeKind>
    ensures { result ≡ spec.numbers_type left right }
{
    if !is_number(left) {
        return Err(TypeKind::Mismatch);
    }
    checked(is_number(right), ValueType::Integer)
}

/// The type that two sides have in common: nil fits every type.
fn common_type(left: ValueType, right: ValueType) -> Option<ValueType>
    ensures { result ≡ spec.common_type left right }
{
    match (left, right) {
        (ValueType::Nil, _) => Some(right),
        (_, ValueType::Nil) => Some(left),
        _ => same_or_none(left, right),
    }
}

fn same_or_none(left: ValueType, right: ValueType) -> Option<ValueType>
    ensures { result ≡ spec.same_or_none left right }
{
    if is_same(left, right) {
        return Some(left);
    }
    None
}

pub(crate) fn is_same(left: ValueType, right: ValueType) -> bool
    ensures { result ≡ spec.same_type left right }
{
    match (left, right) {
        (ValueType::Integer, ValueType::Integer) => true,
        (ValueType::Text, ValueType::Text) => true,
        (ValueType::Boolean, ValueType::Boolean) => true,
        (ValueType::Record { model: m }, ValueType::Record { model: n }) => m == n,
        (ValueType::List { model: m }, ValueType::List { model: n }) => m == n,
        (ValueType::Nil, ValueType::Nil) => true,
        _ => false,
    }
}

fn is_number(of: ValueType) -> bool
    ensures { result ≡ spec.is_number of }
{
    matches!(of, ValueType::Integer | ValueType::Nil)
}

fn is_ordered(of: ValueType) -> bool
    ensures { result ≡ spec.is_ordered of }
{
    matches!(of, ValueType::Integer | ValueType::Text | ValueType::Nil)
}

fn is_list(of: ValueType) -> bool
    ensures { result ≡ spec.is_list of }
{
    matches!(of, ValueType::List { .. } | ValueType::Nil)
}
