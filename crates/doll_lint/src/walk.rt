//! The cached blocks of a template, each found where it stands.

ghost use Rattle.std.specs.Prelude.{◌≡◌, ◌++◌, ◌∷◌, ◌-◌, [], IfOk, OnOk, length, take};
ghost use Rattle.doll_set.specs.Dependencies.{partial_of};
ghost use Rattle.doll_lint.specs.Blocks as spec;
ghost use Rattle.doll_lint.specs.Found.{Grows};
ghost use Rattle.doll_lint.specs.Needs.{tree_at};

use crate::found::{CachedBlock, Found, add_block, name_of};
use doll_erb::{Key, KeyPart, Node};
use doll_expr::Expr;
use doll_schema::Schema;
use doll_set::TemplateSet;
use doll_text::{Copied, Items, Memory, Name, Text};
use doll_types::{Typing, ValueType, items_type};
use std::alloc::Global;

/// The number of the block that each item of a cached collection is.
const ITEM_BLOCK: u32 = u32::MAX;

/// The template in which blocks are looked for.
#[derive(Drop)]
pub struct Ground<'a> {
    pub set: &'a TemplateSet,
    pub schema: &'a Schema,
    pub number: usize,
}

/// Finds the blocks in nodes under a typing, in the order of the text.
#[cycle(walk)]
#[tactic(auto, using(crate::proofs::Blocks::none_grows, crate::proofs::Blocks::text_blocks, crate::proofs::Blocks::write_blocks, crate::proofs::Blocks::raw_blocks, crate::proofs::Blocks::render_blocks, crate::proofs::Blocks::depends_blocks))]
pub(crate) fn add_blocks(
    alloc: Global,
    ground: &Ground<'_>,
    nodes: &[Node],
    typing: &mut Typing,
    found: &mut Found,
) -> Result<(), Memory>
    ensures found { OnOk result (Grows ground.now.set.now ground.now.schema.now
        (spec.nodes_blocks ground.now.schema.now ground.now.set.now.templates ground.now.number
        nodes.now typing.old) found.old found.new) }
    ensures typing { OnOk result (typing.new ≡ typing.old) }
{
    for node in nodes {
        add_node_blocks(alloc, ground, node, typing, found)?;
    }
    Ok(())
}

/// Finds the blocks in a node.
#[cycle(walk)]
#[tactic(auto, using(crate::proofs::Blocks::none_grows, crate::proofs::Blocks::text_blocks, crate::proofs::Blocks::write_blocks, crate::proofs::Blocks::raw_blocks, crate::proofs::Blocks::render_blocks, crate::proofs::Blocks::depends_blocks))]
fn add_node_blocks(
    alloc: Global,
    ground: &Ground<'_>,
    node: &Node,
    typing: &mut Typing,
    found: &mut Found,
) -> Result<(), Memory>
    ensures found { OnOk result (Grows ground.now.set.now ground.now.schema.now
        (spec.node_blocks ground.now.schema.now ground.now.set.now.templates ground.now.number
        node.now typing.old) found.old found.new) }
    ensures typing { OnOk result (typing.new ≡ typing.old) }
{
    match node {
        Node::Text(_)
        | Node::Write { .. }
        | Node::Raw { .. }
        | Node::Render { .. }
        | Node::Depends { .. } => Ok(()),
        Node::If {
            arms,
            otherwise,
            ..
        } => {
            for arm in arms.as_slice() {
                add_blocks(alloc, ground, arm.body.as_slice(), typing, found)?;
            }
            add_blocks(alloc, ground, otherwise.as_slice(), typing, found)
        }
        Node::Each {
            list,
            name,
            body,
            ..
        } => {
            let Ok(item) = items_type(alloc, ground.schema, typing, list)? else {
                return Ok(());
            };
            bind_type(alloc, name, item, typing)?;
            add_blocks(alloc, ground, body.as_slice(), typing, found)?;
            unbind_type(typing);
            Ok(())
        }
        Node::Cache {
            at,
            block,
            key,
            body,
        } => {
            add_tag(
                alloc,
                ground,
                *at,
                *block,
                key,
                body.as_slice(),
                typing,
                found,
            )?;
            add_blocks(alloc, ground, body.as_slice(), typing, found)
        }
        Node::Collection {
            name,
            list,
            item,
            cached,
            ..
        } => add_items(alloc, ground, name, list, item, *cached, typing, found),
    }
}

/// Binds a name to a type, after all other variables.
fn bind_type(alloc: Global, name: &Name, of: ValueType, typing: &mut Typing) -> Result<(), Memory>
    ensures { OnOk result (typing.new ≡ typing.old ++ (name.now, of) ∷ []) }
{
    let name = name.copy(alloc)?;
    typing.push((name, of))?;
    Ok(())
}

/// Takes the last variable away.
fn unbind_type(typing: &mut Typing)
    ensures { typing.new ≡ take (length typing.old - 1) typing.old }
{
    typing.pop();
}

/// Finds the block that a tag opens.
fn add_tag(
    alloc: Global,
    ground: &Ground<'_>,
    at: u32,
    number: u32,
    key: &Key,
    body: &[Node],
    typing: &Typing,
    found: &mut Found,
) -> Result<(), Memory>
    ensures { OnOk result (Grows ground.now.set.now ground.now.schema.now
        (spec.tag_block ground.now.number number at typing.now key.now body.now ∷ []) found.old found.new) }
{
    let block = CachedBlock {
        template: ground.number,
        number,
        at,
        typing,
        key: key.as_slice(),
        body,
    };
    add_block(alloc, ground.set, ground.schema, &block, found)
}

/// Finds the block that each item of a collection is, where it is cached and its partial is there.
#[tactic(auto, using(crate::proofs::Blocks::none_grows, crate::proofs::Blocks::not_cached, crate::proofs::Blocks::no_items, crate::proofs::Blocks::no_partial_there))]
fn add_items(
    alloc: Global,
    ground: &Ground<'_>,
    name: &Name,
    list: &Expr,
    item: &Name,
    cached: bool,
    typing: &Typing,
    found: &mut Found,
) -> Result<(), Memory>
    ensures { OnOk result (Grows ground.now.set.now ground.now.schema.now
        (spec.collection_blocks ground.now.schema.now ground.now.set.now.templates ground.now.number
        name.now list.now item.now cached typing.now) found.old found.new) }
{
    if !cached {
        return Ok(());
    }
    let Ok(of) = items_type(alloc, ground.schema, typing, list)? else {
        return Ok(());
    };
    let partial = ground
        .set
        .partial_of(alloc, name_of(ground.set, ground.number), name.as_bytes())?;
    let Some(partial) = partial else {
        return Ok(());
    };
    add_item(alloc, ground, partial, item, of, found)
}

/// Finds the block that each item is of a partial.
fn add_item(
    alloc: Global,
    ground: &Ground<'_>,
    partial: usize,
    item: &Name,
    of: ValueType,
    found: &mut Found,
) -> Result<(), Memory>
    ensures { OnOk result (Grows ground.now.set.now ground.now.schema.now
        (spec.item_block ground.now.set.now.templates partial item.now of ∷ []) found.old found.new) }
{
    let typing = typing_of_one(alloc, item, of)?;
    let key = item_key(alloc, item)?;
    let block = CachedBlock {
        template: partial,
        number: ITEM_BLOCK,
        at: 0,
        typing: &typing,
        key: key.as_slice(),
        body: tree_at(ground.set, partial),
    };
    add_block(alloc, ground.set, ground.schema, &block, found)
}

/// The typing of one variable.
fn typing_of_one(alloc: Global, name: &Name, of: ValueType) -> Result<Typing, Memory>
    ensures { IfOk result (λ typing. typing ≡ (name.now, of) ∷ []) }
{
    let mut typing = Items::new(alloc);
    typing.push((name.copy(alloc)?, of))?;
    Ok(typing)
}

/// The key of an item: itself, and the word `collection`.
fn item_key(alloc: Global, item: &Name) -> Result<Key, Memory>
    ensures { IfOk result (λ key. key ≡ spec.item_key item.now) }
{
    let mut key = Items::new(alloc);
    key.push(KeyPart::Path(Expr::Var(item.copy(alloc)?)))?;
    key.push(KeyPart::Literal(Text::from_bytes(alloc, b"collection")?))?;
    Ok(key)
}

/// The tree of the template with a number, nothing where there is none.
pub(crate) fn tree_at(set: &TemplateSet, number: usize) -> &[Node]
    ensures { result.now ≡ tree_at set.now.templates number }
{
    match set.templates().get(number) {
        Some(template) => template.tree.as_slice(),
        None => &[],
    }
}
