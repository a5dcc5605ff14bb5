//! Entries of a cache: what is asked for, what is kept, what a question is answered, and how an entry is judged.
#![tactic(auto)]

pub mod asks;
pub mod entry;
pub mod judging;

pub use asks::{Ask, BlockId, Fetched, Fragment, Miss};
pub use entry::{Entry, Fresh};
pub use judging::{Judged, LATEST_TIME, counted_time, judge, judge_kept};
