//! What a line of a script orders.

use doll_journal::Changes;
use doll_text::{Items, Text};

/// An order, which is one line of a script.
#[derive(Drop)]
pub enum Order {
    /// The clock of the orders behind this one shows that many microseconds, 2^62 at most.
    Now {
        now: u64,
    },
    /// These changes are made in one commit.
    Commit {
        changes: Changes,
    },
    /// A session begins to render the page of a path, for a visitor who has seen the moment `seen`, 0 where none is told.
    Open {
        session: u32,
        target: Text,
        seen: u64,
    },
    /// A session takes one turn.
    Turn {
        session: u32,
    },
    /// A session takes turns until its page is there.
    Run {
        session: u32,
    },
    /// The page of a path is rendered at once.
    Get {
        target: Text,
    },
    /// A batch of old entries is removed.
    Expire,
}

/// Orders one behind the other.
pub type Orders = Items<Order>;
