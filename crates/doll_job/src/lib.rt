//! The resumable renderer: a page up to its next call of the cache.
#![tactic(auto)]

mod job;
mod rendering;
mod steps;

pub use job::{Job, Need};
