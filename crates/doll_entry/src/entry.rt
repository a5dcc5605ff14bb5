//! Entries.

use crate::asks::{BlockId, Fragment};
use doll_key::{KeyText, Versions};
use doll_schema::Vars;

/// A fragment that was rendered, with what it was rendered from.
#[derive(Drop)]
pub struct Fresh {
    pub key: KeyText,
    pub versions: Versions,
    pub value: Fragment,
    pub vars: Vars,
    pub block: BlockId,
    /// The moment of the last commit of the history that it was rendered over, in microseconds; 0 for none.
    pub origin: u64,
}

/// A fragment that is kept.
#[derive(Drop)]
pub struct Entry {
    pub fresh: Fresh,
    /// When it was written, in microseconds.
    pub written_at: u64,
    /// When it expires, in microseconds, if ever.
    pub expires_at: Option<u64>,
}
