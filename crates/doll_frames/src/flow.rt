//! How far a rendering came: to its end, or to a call of the cache.

ghost use Rattle.std.specs.Prelude.{◌≡◌, ◌<◌, ◌^◌, IfOk};
ghost use Rattle.doll_frames.specs.Flows as spec;

use crate::keys::BlockKey;
use doll_entry::{Ask, BlockId, Fresh};
use doll_schema::Vars;
use doll_text::{Bytes, Copied, Items, Memory, Shared};
use std::alloc::Global;

/// Questions for several blocks.
pub type Asks = Items<Ask>;

/// How far a part of a rendering came.
#[derive(Drop)]
pub enum Flow {
    /// All of it is written.
    Done,
    /// It needs the fragment of a block.
    Read(Ask),
    /// It needs those of several blocks.
    ReadMany(Asks),
    /// It hands in a block that it rendered.
    Write(Fresh),
}

impl Flow {
    /// Whether all is written.
    pub fn is_done(&self) -> bool
        ensures { result ≡ spec.is_done self.now }
    {
        matches!(self, Flow::Done)
    }
}

/// A block by the numbers of its set and its template, and its own.
pub fn block_id(tree: u32, template: usize, block: u32) -> BlockId
    requires { template < 2 ^ 16 }
    ensures { result ≡ spec.block_id tree template block }
{
    BlockId {
        tree,
        template: template as u16,
        block,
    }
}

/// The question for a block with these variables, which are moved.
pub fn ask_for(alloc: Global, key: &BlockKey, vars: Vars, block: BlockId) -> Result<Ask, Memory>
    ensures { IfOk result (λ ask. ask ≡ spec.ask_for key.now vars block) }
{
    Ok(Ask {
        key: key.text.copy(alloc)?,
        versions: key.versions.copy(alloc)?,
        block,
        vars,
    })
}

/// A block that was rendered as these bytes, with these variables and at this origin.
pub fn fresh_of(
    alloc: Global,
    key: BlockKey,
    vars: &Vars,
    block: BlockId,
    bytes: Bytes,
    origin: u64,
) -> Result<Fresh, Memory>
    ensures { IfOk result (λ fresh. fresh ≡ spec.fresh_of key vars.now block bytes origin) }
{
    let BlockKey { text, versions } = key;
    Ok(Fresh {
        key: text,
        versions,
        value: Shared::new(alloc, bytes)?,
        vars: vars.copy(alloc)?,
        block,
        origin,
    })
}
