//! What happens to a core.

use doll_journal::Changes;
use doll_text::Text;

/// The author of all commits.
pub const AUTHOR: u32 = 0;

/// One thing that happens. Times are in microseconds.
#[derive(Drop)]
pub enum Event {
    /// A session begins to render the page of a target, for a caller who has seen the moment `seen`.
    Start {
        session: u32,
        target: Text,
        seen: u64,
        now: u64,
    },
    /// A session makes its next call of the cache, or gives its page and ends.
    Turn {
        session: u32,
        now: u64,
    },
    /// These changes are made in one commit.
    Commit {
        changes: Changes,
        now: u64,
    },
    /// A batch of old entries is removed.
    Expire {
        now: u64,
    },
}
