//! Where a rendering stopped.

use crate::keys::BlockKey;
use crate::output::Output;
use crate::scope::Scope;
use crate::walk::Walk;
use doll_entry::Fetched;
use doll_text::Items;
use doll_types::ValueType;

/// An item of a cached collection with its key.
#[derive(Drop)]
pub struct KeptItem {
    pub id: u32,
    pub key: BlockKey,
}

/// A collection whose items are cached: the number of its partial, the type and the model of the items, these with their keys,
/// how many of them were passed, and what was found of each.
#[derive(Drop)]
pub struct Kept {
    pub partial: usize,
    pub of: ValueType,
    pub model: u16,
    pub items: Items<KeptItem>,
    pub at: usize,
    pub found: Items<Fetched>,
}

/// Where in a part of a template a rendering stopped. Those further inside stand behind it.
#[derive(Drop)]
pub enum Frame {
    /// In the node with this number of a list of nodes.
    Node { number: usize },
    /// In the body of the arm at a place of an `if`, or in its last part.
    Arm { place: usize },
    /// In the body of an `each`, with the first item that wasn't passed.
    Item { walk: Walk },
    /// It asked for the block.
    Asked { key: BlockKey },
    /// In the body of a block, of which so much is written.
    Body { key: BlockKey, written: Output },
    /// It handed in the block.
    Behind,
    /// In a partial with its own variables.
    Partial { number: usize, scope: Scope },
    /// In the partial of a collection, with the first item that wasn't passed.
    Member { partial: usize, walk: Walk },
    /// It asked for all items of a cached collection.
    AskedMany { kept: Kept },
    /// In the partial of a cached collection, with the first item that wasn't passed, of which so much is written.
    Missed { kept: Kept, written: Output },
    /// It handed in an item of a cached collection.
    HandedIn { kept: Kept },
}
