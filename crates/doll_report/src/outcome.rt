//! Steps of a replay, and what becomes of them.

use doll_entry::Fetched;
use doll_records::{Committed, RecordFault};
use doll_text::{Bytes, Items};

/// The status of a start whose path has no route, or whose record isn't there.
pub const NOT_FOUND: u16 = 404;

/// The status of a start for a visitor who has seen a later moment than the history has.
pub const CONFLICT: u16 = 409;

/// Which kind of line an outcome belongs to.
#[derive(Clone, Copy, PartialEq, Eq)]
pub enum Step {
    /// A session starts to render a page.
    Open { session: u32 },
    /// A session takes one turn.
    Turn { session: u32 },
    /// Changes are made in one commit.
    Commit,
    /// A batch of old entries is removed.
    Expire,
}

/// What becomes of a step. Moments are in microseconds.
#[derive(Drop)]
pub enum Outcome {
    /// A page is begun over the history up to this moment.
    Opened { moment: u64 },
    /// No page is begun, with the status 404 or 409. The moment is that of the history's last commit.
    NoPage { status: u16, moment: u64 },
    /// A question for one fragment is answered.
    Read(Fetched),
    /// Questions for several fragments are answered, in their order.
    Many(Items<Fetched>),
    /// A fragment is written.
    Wrote,
    /// The page is there.
    Page(Bytes),
    /// A commit is recorded.
    Committed(Committed),
    /// A commit isn't recorded.
    Refused(RecordFault),
    /// So many entries are removed.
    Expired { count: u32 },
    /// A session starts that is open, or takes a turn and isn't.
    BadSession,
}
