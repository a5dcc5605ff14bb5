//! The cached blocks of a template, and which of them stand round a place.

use doll_erb::Node;
use doll_text::Memory;

/// A cached block: the place of its `cache` tag, its number, and whether it stands round the place that was looked for.
#[derive(Clone, Copy)]
pub struct Block {
    pub at: u32,
    pub number: u32,
    pub is_around: bool,
}

/// Appends the cached blocks of nodes, and tells whether one of these nodes, at any depth, stands at the place.
#[cycle(blocks)]
pub fn add_blocks(nodes: &[Node], place: u32, blocks: &mut Vec<Block>) -> Result<bool, Memory> {
    let mut is_found = false;
    for node in nodes {
        if add_node_blocks(node, place, blocks)? {
            is_found = true;
        }
    }
    Ok(is_found)
}

/// Appends those of a node.
#[cycle(blocks)]
fn add_node_blocks(node: &Node, place: u32, blocks: &mut Vec<Block>) -> Result<bool, Memory> {
    match node {
        Node::Text(_) => Ok(false),
        Node::Write { at, .. }
        | Node::Raw { at, .. }
        | Node::Render { at, .. }
        | Node::Collection { at, .. }
        | Node::Depends { at, .. } => Ok(*at == place),
        Node::If {
            arms,
            otherwise,
            ..
        } => {
            let mut is_found = false;
            for arm in arms.as_slice() {
                if add_blocks(arm.body.as_slice(), place, blocks)? || arm.at == place {
                    is_found = true;
                }
            }
            let is_behind = add_blocks(otherwise.as_slice(), place, blocks)?;
            Ok(is_found || is_behind)
        }
        Node::Each { at, body, .. } => {
            let is_inside = add_blocks(body.as_slice(), place, blocks)?;
            Ok(is_inside || *at == place)
        }
        Node::Cache {
            at,
            block,
            body,
            ..
        } => {
            let is_around = add_blocks(body.as_slice(), place, blocks)?;
            blocks.push(Block {
                at: *at,
                number: *block,
                is_around,
            })?;
            Ok(is_around || *at == place)
        }
    }
}
