//! What is asked of a cache, and what it answers.

use doll_key::{KeyText, Versions};
use doll_schema::Vars;
use doll_text::{Bytes, Copied, Memory, Shared};
use std::alloc::Global;

/// A block that is cached, of the templates of a site.
#[derive(Clone, Copy, PartialEq, Eq)]
pub struct BlockId {
    /// The number of the set of templates.
    pub tree: u32,
    /// The number of the template in its set.
    pub template: u16,
    /// The number of the block in its template, or 2^32 − 1 for an item of a cached collection.
    pub block: u32,
}

/// The bytes that a block came to. A copy shares them.
pub type Fragment = Shared<Bytes>;

/// A question for the fragment of a block.
#[derive(Drop)]
pub struct Ask {
    pub key: KeyText,
    pub versions: Versions,
    pub block: BlockId,
    /// The variables with which the block is rendered where nothing is found.
    pub vars: Vars,
}

impl Copied for Ask {
    fn copy(&self, alloc: Global) -> Result<Ask, Memory> {
        Ok(Ask {
            key: self.key.copy(alloc)?,
            versions: self.versions.copy(alloc)?,
            block: self.block,
            vars: self.vars.copy(alloc)?,
        })
    }
}

/// Why a question found nothing.
#[derive(Clone, Copy, PartialEq, Eq)]
pub enum Miss {
    /// No entry has the key.
    Absent,
    /// The entry has other versions.
    Mismatch,
    /// The entry had just expired. It stays for others for a while, and the one who is answered this renders anew.
    Bumped,
    /// The entry had expired, and is gone.
    Dead,
    /// The cache failed.
    Failed,
    /// No memory was found.
    Memory,
}

/// What a question is answered.
#[derive(Drop)]
pub enum Fetched {
    /// The fragment, which is shared with the entry.
    Hit(Fragment),
    Miss(Miss),
}
