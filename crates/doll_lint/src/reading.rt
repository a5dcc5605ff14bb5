//! What an expression is to a lint.

ghost use Rattle.std.specs.Prelude.{◌≡◌, ◌++◌, [], List, ℕ, IfOk, OnOk, find, reverse, bytes_eq};
ghost use Rattle.std.specs.Option.{option_copied};
ghost use Rattle.doll_lint.specs.declared.path.Path.{Path};
ghost use Rattle.doll_lint.specs.Readings as spec;

use crate::path::{Path, PathStep, Paths, path_to};
use doll_eval::Member;
use doll_expr::{Expr, Op, Query};
use doll_schema::Schema;
use doll_text::{Copied, Items, Memory, Name};
use doll_types::{
    TypeKind, Typing, ValueType, binary_type, named_type, negated_type, query_type, step_type,
};
use std::alloc::Global;

/// How well a key must tell what stands at the end of a path.
#[derive(Clone, Copy, PartialEq, Eq)]
pub enum Grade {
    /// Which record it is.
    Settled,
    /// Which record or list it is, and what it holds.
    Covered,
}

/// A path, and how well a key must tell it.
#[derive(Drop)]
pub struct Wanted {
    pub path: Path,
    pub grade: Grade,
}

pub type Wants = Items<Wanted>;

/// The paths that each variable stands for. Of one name the last counts.
pub type Standing = Items<(Name, Paths)>;

/// What an expression is to a lint.
#[derive(Drop)]
pub struct Reading {
    /// Its type, or its fault.
    pub of: Result<ValueType, TypeKind>,
    /// The paths at which the record or the list that it gives may stand. What is nil by its type stands at the variable that it begins with.
    pub paths: Paths,
    /// What finding its value needs.
    pub wants: Wants,
}

/// What an expression is under a typing, where its variables stand for these paths.
pub fn read_expr(
    alloc: Global,
    schema: &Schema,
    typing: &Typing,
    standing: &Standing,
    expr: &Expr,
) -> Result<Reading, Memory>
    ensures { IfOk result (λ reading. reading
        ≡ spec.reading_of schema.now typing.now standing.now expr.now) }
{
    match expr {
        Expr::Nil => Ok(literal(alloc, ValueType::Nil)),
        Expr::True | Expr::False => Ok(literal(alloc, ValueType::Boolean)),
        Expr::Int(_) => Ok(literal(alloc, ValueType::Integer)),
        Expr::Text(_) => Ok(literal(alloc, ValueType::Text)),
        Expr::Var(name) => {
            let of = named_type(alloc, typing, name)?;
            read_variable(alloc, stands_for(standing, name.as_bytes()), of)
        }
        Expr::Step(of, name) => {
            let from = read_expr(alloc, schema, typing, standing, of.get())?;
            read_step(alloc, schema, from, name)
        }
        Expr::Ask(of, query) => {
            let from = read_expr(alloc, schema, typing, standing, of.get())?;
            read_asked(alloc, from, *query)
        }
        Expr::Not(of) => {
            let from = read_expr(alloc, schema, typing, standing, of.get())?;
            read_not(alloc, from)
        }
        Expr::Neg(of) => {
            let from = read_expr(alloc, schema, typing, standing, of.get())?;
            Ok(read_negated(alloc, from))
        }
        Expr::Binary(op, left, right) => {
            let left = read_expr(alloc, schema, typing, standing, left.get())?;
            let right = read_expr(alloc, schema, typing, standing, right.get())?;
            read_binary(alloc, *op, left, right)
        }
    }
}

/// A value that is written in the expression.
fn literal(alloc: Global, of: ValueType) -> Reading
    ensures { result ≡ spec.literal_reading of }
{
    Reading {
        of: Ok(of),
        paths: Items::new(alloc),
        wants: Items::new(alloc),
    }
}

/// The paths that the last variable with a name stands for, none where there is no such variable.
fn stands_for<'a>(standing: &'a Standing, name: &[u8]) -> &'a [Path]
    ensures { result.now ≡ spec.stands_for standing.now name.now }
{
    match last_standing(standing, name) {
        Some(one) => one.1.as_slice(),
        None => &[],
    }
}

fn last_standing<'a>(standing: &'a Standing, name: &[u8]) -> Option<&'a (Name, Paths)>
    ensures { option_copied result ≡ find (λ (one : List ℕ × List Path). bytes_eq one.0 name.now)
        (reverse standing.now) }
{
    standing
        .as_slice()
        .iter()
        .rev()
        .find(|one| one.0.as_bytes() == name)
}

/// A variable. What has the type of a single value, or is nil by its type, is read at once.
fn read_variable(
    alloc: Global,
    paths: &[Path],
    of: Result<ValueType, TypeKind>,
) -> Result<Reading, Memory>
    ensures { IfOk result (λ reading. reading ≡ spec.variable_reading paths.now of) }
{
    match of {
        Ok(ValueType::Record { .. } | ValueType::List { .. }) => Ok(Reading {
            of,
            paths: copy_paths(alloc, paths)?,
            wants: Items::new(alloc),
        }),
        Ok(ValueType::Nil) => Ok(Reading {
            of,
            paths: copy_paths(alloc, paths)?,
            wants: all_wanted(alloc, Grade::Covered, paths)?,
        }),
        _ => Ok(Reading {
            of,
            paths: Items::new(alloc),
            wants: all_wanted(alloc, Grade::Covered, paths)?,
        }),
    }
}

/// The same paths.
fn copy_paths(alloc: Global, paths: &[Path]) -> Result<Paths, Memory>
    ensures { IfOk result (λ copies. copies ≡ paths.now) }
{
    let mut copies = Items::new(alloc);
    for path in paths {
        copies.push(path.copy(alloc)?)?;
    }
    Ok(copies)
}

/// Each of these paths, to be told so well.
fn all_wanted(alloc: Global, grade: Grade, paths: &[Path]) -> Result<Wants, Memory>
    ensures { IfOk result (λ wants. wants ≡ spec.wanted grade paths.now) }
{
    let mut wants = Items::new(alloc);
    add_wanted(alloc, grade, paths, &mut wants)?;
    Ok(wants)
}

/// Appends each of these paths, to be told so well.
fn add_wanted(alloc: Global, grade: Grade, paths: &[Path], wants: &mut Wants) -> Result<(), Memory>
    ensures { OnOk result (wants.new ≡ wants.old ++ spec.wanted grade paths.now) }
{
    for path in paths {
        let path = path.copy(alloc)?;
        wants.push(Wanted { path, grade })?;
    }
    Ok(())
}

/// Appends what looking at a value itself needs.
pub fn add_looked(
    alloc: Global,
    of: &Result<ValueType, TypeKind>,
    paths: &[Path],
    wants: &mut Wants,
) -> Result<(), Memory>
    ensures { OnOk result (wants.new ≡ wants.old ++ spec.looked_at of.now paths.now) }
{
    match of {
        Ok(ValueType::Record { .. }) => add_wanted(alloc, Grade::Settled, paths, wants),
        Ok(ValueType::List { .. }) => add_wanted(alloc, Grade::Covered, paths, wants),
        _ => Ok(()),
    }
}

/// A step from a value.
fn read_step(alloc: Global, schema: &Schema, from: Reading, name: &Name) -> Result<Reading, Memory>
    ensures { IfOk result (λ reading. reading ≡ spec.step_reading schema.now from.of name.now
        (spec.stepped_type schema.now name.now from.of) from) }
{
    let Reading { of, paths, wants } = from;
    let from = match of {
        Ok(from) => from,
        Err(kind) => return Ok(apart(alloc, Err(kind), wants)),
    };
    let of = step_type(alloc, schema, from, name)?;
    match from {
        ValueType::Record { model } => {
            let member = member_at(schema, model, name.as_bytes());
            read_member(alloc, schema, model, member, of, paths, wants)
        }
        ValueType::Nil => Ok(Reading { of, paths, wants }),
        _ => Ok(apart(alloc, of, wants)),
    }
}

/// A value that stands nowhere.
fn apart(alloc: Global, of: Result<ValueType, TypeKind>, wants: Wants) -> Reading
    ensures { result ≡ spec.apart_reading of wants }
{
    Reading {
        of,
        paths: Items::new(alloc),
        wants,
    }
}

/// What a name after a dot is at a record of a model.
fn member_at(schema: &Schema, model: u16, name: &[u8]) -> Member
    ensures { result ≡ spec.member_at schema.now model name.now }
{
    match schema.model(model) {
        Some(model) => Member::of(model, name),
        None => Member::Unknown,
    }
}

/// A member of a record that stands at these paths: an association leads on, all else is read.
fn read_member(
    alloc: Global,
    schema: &Schema,
    model: u16,
    member: Member,
    of: Result<ValueType, TypeKind>,
    paths: Paths,
    wants: Wants,
) -> Result<Reading, Memory>
    ensures { IfOk result (λ reading. reading
        ≡ spec.member_reading schema.now model member of paths wants) }
{
    let mut wants = wants;
    let step = match member {
        Member::Parent(at) => PathStep::Parent { model, at },
        Member::Children(at) => PathStep::Children { model, at },
        Member::Id => {
            add_wanted(alloc, Grade::Settled, paths.as_slice(), &mut wants)?;
            return Ok(apart(alloc, of, wants));
        }
        _ => {
            add_wanted(alloc, Grade::Covered, paths.as_slice(), &mut wants)?;
            return Ok(apart(alloc, of, wants));
        }
    };
    let paths = paths_to(alloc, schema, step, paths.as_slice())?;
    Ok(Reading { of, paths, wants })
}

/// The paths with a step more.
fn paths_to(alloc: Global, schema: &Schema, step: PathStep, paths: &[Path]) -> Result<Paths, Memory>
    ensures { IfOk result (λ longer. longer ≡ spec.paths_to schema.now step paths.now) }
{
    let mut longer = Items::new(alloc);
    for path in paths {
        longer.push(path_to(alloc, schema, step, path)?)?;
    }
    Ok(longer)
}

/// A question to a value.
fn read_asked(alloc: Global, from: Reading, query: Query) -> Result<Reading, Memory>
    ensures { IfOk result (λ reading. reading
        ≡ spec.apart_reading (spec.asked_type query from.of) (from.wants ++ spec.looked from)) }
{
    let Reading {
        of,
        paths,
        mut wants,
    } = from;
    add_looked(alloc, &of, paths.as_slice(), &mut wants)?;
    Ok(apart(alloc, asked_type(of, query), wants))
}

fn asked_type(of: Result<ValueType, TypeKind>, query: Query) -> Result<ValueType, TypeKind>
    ensures { result ≡ spec.asked_type query of }
{
    query_type(query, of?)
}

/// A value as a truth, with the other one.
fn read_not(alloc: Global, from: Reading) -> Result<Reading, Memory>
    ensures { IfOk result (λ reading. reading
        ≡ spec.apart_reading (spec.truth_type from.of) (from.wants ++ spec.looked from)) }
{
    let Reading {
        of,
        paths,
        mut wants,
    } = from;
    add_looked(alloc, &of, paths.as_slice(), &mut wants)?;
    Ok(apart(alloc, truth_type(of), wants))
}

fn truth_type(of: Result<ValueType, TypeKind>) -> Result<ValueType, TypeKind>
    ensures { result ≡ spec.truth_type of }
{
    match of {
        Ok(_) => Ok(ValueType::Boolean),
        Err(kind) => Err(kind),
    }
}

/// A number with the other sign.
fn read_negated(alloc: Global, from: Reading) -> Reading
    ensures { result ≡ spec.apart_reading (spec.number_type from.of) from.wants }
{
    let Reading { of, wants, .. } = from;
    apart(alloc, number_type(of), wants)
}

fn number_type(of: Result<ValueType, TypeKind>) -> Result<ValueType, TypeKind>
    ensures { result ≡ spec.number_type of }
{
    negated_type(of?)
}

/// An operator with its sides.
fn read_binary(alloc: Global, op: Op, left: Reading, right: Reading) -> Result<Reading, Memory>
    ensures { IfOk result (λ reading. reading
        ≡ spec.binary_reading op (spec.sides_type op left.of right.of) left right) }
{
    let mut wants = left.wants;
    add_looked(alloc, &left.of, left.paths.as_slice(), &mut wants)?;
    wants.append(right.wants)?;
    if let Op::Or | Op::And = op {
        let mut paths = left.paths;
        paths.append(right.paths)?;
        let of = sides_type(op, left.of, right.of);
        return Ok(Reading { of, paths, wants });
    }
    add_looked(alloc, &right.of, right.paths.as_slice(), &mut wants)?;
    Ok(apart(alloc, sides_type(op, left.of, right.of), wants))
}

fn sides_type(
    op: Op,
    left: Result<ValueType, TypeKind>,
    right: Result<ValueType, TypeKind>,
) -> Result<ValueType, TypeKind>
    ensures { result ≡ spec.sides_type op left right }
{
    let left = left?;
    binary_type(op, left, right?)
}
