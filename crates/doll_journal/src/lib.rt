//! Commits: the changes that they make, how these are written in JSON, and the bytes that are kept of them.
#![tactic(auto)]

pub mod change;
pub mod decoding;
pub mod encoding;
pub mod fault;
pub mod forms;
pub mod lengths;
mod storable;
pub mod tags;

pub use change::{Change, Changes, Commit, Given};
pub use decoding::{decode, one_spelling};
pub use encoding::encode;
pub use fault::JournalFault;
pub use forms::changes_of;
pub use storable::are_storable;
