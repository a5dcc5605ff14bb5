//! The partials that a template renders, with the types of their variables.

ghost use Rattle.std.specs.Prelude.{◌≡◌, ◌++◌, ◌∷◌, [], IfOk, OnOk};
ghost use Rattle.std.specs.List.{flat_map};
ghost use Rattle.doll_types.specs.Findings as spec;
ghost use Rattle.doll_types.specs.Types as types;

use crate::expressions::type_of;
use crate::findings::{Finding, add_failed, add_fault};
use crate::types::{TypeKind, Typing, ValueType};
use doll_erb::Local;
use doll_expr::Expr;
use doll_schema::Schema;
use doll_text::{Items, Memory, Name};
use std::alloc::Global;

/// The type of the items of a list.
pub fn items_type(
    alloc: Global,
    schema: &Schema,
    typing: &Typing,
    list: &Expr,
) -> Result<Result<ValueType, TypeKind>, Memory>
    ensures { IfOk result (λ t. t ≡ spec.items_type schema.now typing.now list.now) }
{
    match type_of(alloc, schema, typing, list)? {
        Ok(of) => Ok(item_type(of)),
        Err(kind) => Ok(Err(kind)),
    }
}

fn item_type(of: ValueType) -> Result<ValueType, TypeKind>
    ensures { result ≡ types.item_type of }
{
    match of {
        ValueType::List { model } => Ok(ValueType::Record { model }),
        ValueType::Nil => Ok(ValueType::Nil),
        _ => Err(TypeKind::NotList),
    }
}

/// Appends what is found in the render of a list: the partial with its item alone, or the list's fault.
pub(crate) fn add_collection(
    alloc: Global,
    schema: &Schema,
    typing: &Typing,
    at: u32,
    name: &Name,
    list: &Expr,
    item: &Name,
    found: &mut Items<Finding>,
) -> Result<(), Memory>
    ensures { OnOk result (found.new ≡ found.old
        ++ spec.collection_found schema.now typing.now at name.now list.now item.now) }
{
    match items_type(alloc, schema, typing, list)? {
        Ok(of) => {
            let typing = only(alloc, item, of)?;
            add_call(alloc, name, typing, found)
        }
        Err(kind) => add_fault(at, kind, found),
    }
}

/// The typing of one variable.
fn only(alloc: Global, name: &Name, of: ValueType) -> Result<Typing, Memory>
    ensures { IfOk result (λ typing. typing ≡ (name.now, of) ∷ []) }
{
    let mut typing = Items::new(alloc);
    typing.push((name.copy(alloc)?, of))?;
    Ok(typing)
}

/// Appends a partial that is rendered.
fn add_call(
    alloc: Global,
    name: &Name,
    typing: Typing,
    found: &mut Items<Finding>,
) -> Result<(), Memory>
    ensures { OnOk result (found.new ≡ found.old ++ Finding.Call name.now typing ∷ []) }
{
    let name = name.copy(alloc)?;
    found.push(Finding::Call { name, typing })?;
    Ok(())
}

/// Appends what is found in a render: the faults of its locals, and where there are none the partial.
pub(crate) fn add_render(
    alloc: Global,
    schema: &Schema,
    typing: &Typing,
    at: u32,
    name: &Name,
    locals: &[Local],
    found: &mut Items<Finding>,
) -> Result<(), Memory>
    ensures { OnOk result (found.new ≡ found.old
        ++ spec.render_found schema.now typing.now at name.now locals.now) }
{
    add_locals(alloc, schema, typing, at, locals, found)?;
    match locals_typing(alloc, schema, typing, locals)? {
        Ok(types) => add_call(alloc, name, types, found),
        Err(_) => Ok(()),
    }
}

/// Appends the faults of locals.
fn add_locals(
    alloc: Global,
    schema: &Schema,
    typing: &Typing,
    at: u32,
    locals: &[Local],
    found: &mut Items<Finding>,
) -> Result<(), Memory>
    ensures { OnOk result (found.new
        ≡ found.old ++ flat_map (spec.local_found schema.now typing.now at) locals.now) }
{
    for local in locals {
        let of = type_of(alloc, schema, typing, &local.value)?;
        add_failed(at, of, found)?;
    }
    Ok(())
}

/// The variables that a partial is rendered with, with their types, or the first fault among them.
#[tactic(auto, using(doll_set::proofs::Making::none_made, doll_set::proofs::Making::one_made, doll_set::proofs::Making::one_fails, doll_set::proofs::Making::all_made))]
pub fn locals_typing(
    alloc: Global,
    schema: &Schema,
    typing: &Typing,
    locals: &[Local],
) -> Result<Result<Typing, TypeKind>, Memory>
    ensures { IfOk result (λ t. t ≡ spec.locals_typing schema.now typing.now locals.now) }
{
    let mut types = Items::new(alloc);
    for local in locals {
        match local_type(alloc, schema, typing, local)? {
            Ok(one) => types.push(one)?,
            Err(kind) => return Ok(Err(kind)),
        }
    }
    Ok(Ok(types))
}

/// A local with its type.
fn local_type(
    alloc: Global,
    schema: &Schema,
    typing: &Typing,
    local: &Local,
) -> Result<Result<(Name, ValueType), TypeKind>, Memory>
    ensures { IfOk result (λ t. t ≡ spec.local_type schema.now typing.now local.now) }
{
    match type_of(alloc, schema, typing, &local.value)? {
        Ok(of) => Ok(Ok((local.name.copy(alloc)?, of))),
        Err(kind) => Ok(Err(kind)),
    }
}
