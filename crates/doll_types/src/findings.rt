//! What typing a template finds: its faults, and the partials that it renders.

ghost use Rattle.std.specs.Prelude.{◌≡◌, ◌++◌, ◌∷◌, ◌-◌, [], OnOk, length, take};
ghost use Rattle.doll_types.specs.Findings as spec;
ghost use Rattle.doll_types.specs.Types as types;

use crate::expressions::type_of;
use crate::keys::add_key;
use crate::renders::{add_collection, add_render, items_type};
use crate::types::{TypeKind, Typing, ValueType};
use doll_erb::Node;
use doll_expr::Expr;
use doll_schema::Schema;
use doll_text::{Items, Memory, Name};
use std::alloc::Global;

/// A fault, or a partial that is rendered.
#[derive(Drop)]
pub enum Finding {
    /// A fault of the tag at a byte place.
    Fault { at: u32, kind: TypeKind },
    /// The partial that the template means by this name is rendered with variables of these types.
    Call { name: Name, typing: Typing },
}

/// Appends what is found in nodes under a typing, in the order of the text.
#[cycle(walk)]
#[tactic(auto, using(crate::proofs::Nodes::if_found, crate::proofs::Nodes::each_found, crate::proofs::Nodes::each_fails, crate::proofs::Nodes::cache_found))]
pub(crate) fn add_findings(
    alloc: Global,
    schema: &Schema,
    nodes: &[Node],
    typing: &mut Typing,
    found: &mut Items<Finding>,
) -> Result<(), Memory>
    ensures found { OnOk result (found.new
        ≡ found.old ++ spec.findings schema.now nodes.now typing.old) }
    ensures typing { OnOk result (typing.new ≡ typing.old) }
{
    for node in nodes {
        add_found(alloc, schema, node, typing, found)?;
    }
    Ok(())
}

/// Appends what is found in a node.
#[cycle(walk)]
#[tactic(auto, using(crate::proofs::Nodes::if_found, crate::proofs::Nodes::each_found, crate::proofs::Nodes::each_fails, crate::proofs::Nodes::cache_found))]
fn add_found(
    alloc: Global,
    schema: &Schema,
    node: &Node,
    typing: &mut Typing,
    found: &mut Items<Finding>,
) -> Result<(), Memory>
    ensures found { OnOk result (found.new
        ≡ found.old ++ spec.found_in schema.now node.now typing.old) }
    ensures typing { OnOk result (typing.new ≡ typing.old) }
{
    match node {
        Node::Text(_) | Node::Depends { .. } => Ok(()),
        Node::Write { at, expr } | Node::Raw { at, expr } => {
            add_printed(alloc, schema, typing, *at, expr, found)
        }
        Node::If {
            arms,
            otherwise,
            ..
        } => {
            for arm in arms.as_slice() {
                add_test(alloc, schema, typing, arm.at, &arm.test, found)?;
                add_findings(alloc, schema, arm.body.as_slice(), typing, found)?;
            }
            add_findings(alloc, schema, otherwise.as_slice(), typing, found)
        }
        Node::Each {
            at,
            list,
            name,
            body,
        } => {
            let item = match items_type(alloc, schema, typing, list)? {
                Ok(item) => item,
                Err(kind) => return add_fault(*at, kind, found),
            };
            bind(alloc, name, item, typing)?;
            add_findings(alloc, schema, body.as_slice(), typing, found)?;
            unbind(typing);
            Ok(())
        }
        Node::Cache { at, key, body, .. } => {
            add_key(alloc, schema, typing, *at, key.as_slice(), found)?;
            add_findings(alloc, schema, body.as_slice(), typing, found)
        }
        Node::Render { at, name, locals } => {
            add_render(alloc, schema, typing, *at, name, locals.as_slice(), found)
        }
        Node::Collection {
            at,
            name,
            list,
            item,
            ..
        } => add_collection(alloc, schema, typing, *at, name, list, item, found),
    }
}

/// Appends the fault of what is written.
fn add_printed(
    alloc: Global,
    schema: &Schema,
    typing: &Typing,
    at: u32,
    expr: &Expr,
    found: &mut Items<Finding>,
) -> Result<(), Memory>
    ensures { OnOk result (found.new
        ≡ found.old ++ spec.printed_found schema.now typing.now at expr.now) }
{
    match type_of(alloc, schema, typing, expr)? {
        Ok(of) => add_failed(at, printed_type(of), found),
        Err(kind) => add_fault(at, kind, found),
    }
}

/// The type of what is written.
fn printed_type(of: ValueType) -> Result<ValueType, TypeKind>
    ensures { result ≡ types.printed_type of }
{
    match of {
        ValueType::Record { .. } | ValueType::List { .. } => Err(TypeKind::NotPrintable),
        _ => Ok(of),
    }
}

/// Appends the fault of a test.
fn add_test(
    alloc: Global,
    schema: &Schema,
    typing: &Typing,
    at: u32,
    test: &Expr,
    found: &mut Items<Finding>,
) -> Result<(), Memory>
    ensures { OnOk result (found.new
        ≡ found.old ++ spec.failed at (types.type_of schema.now typing.now test.now)) }
{
    let of = type_of(alloc, schema, typing, test)?;
    add_failed(at, of, found)
}

/// Appends the fault of what has none of the types that it may have.
pub(crate) fn add_failed(
    at: u32,
    of: Result<ValueType, TypeKind>,
    found: &mut Items<Finding>,
) -> Result<(), Memory>
    ensures { OnOk result (found.new ≡ found.old ++ spec.failed at of) }
{
    match of {
        Ok(_) => Ok(()),
        Err(kind) => add_fault(at, kind, found),
    }
}

/// Appends a fault.
pub(crate) fn add_fault(at: u32, kind: TypeKind, found: &mut Items<Finding>) -> Result<(), Memory>
    ensures { OnOk result (found.new ≡ found.old ++ Finding.Fault at kind ∷ []) }
{
    found.push(Finding::Fault { at, kind })?;
    Ok(())
}

/// Binds a name to a type, after all other variables.
pub(crate) fn bind(
    alloc: Global,
    name: &Name,
    of: ValueType,
    typing: &mut Typing,
) -> Result<(), Memory>
    ensures { OnOk result (typing.new ≡ typing.old ++ (name.now, of) ∷ []) }
{
    let name = name.copy(alloc)?;
    typing.push((name, of))?;
    Ok(())
}

/// Takes the last variable away.
#[tactic(auto, using(crate::proofs::Parts::front_is))]
fn unbind(typing: &mut Typing)
    ensures { typing.new ≡ take (length typing.old - 1) typing.old }
{
    typing.pop();
}
