//! The lint of a set of templates: which cached blocks read beyond their keys.
#![tactic(auto)]

pub mod block;
pub mod checked;
pub mod fault;
pub mod found;
pub mod lint;
pub mod needs;
pub mod noted;
pub mod order;
pub mod path;
pub mod reading;
pub mod shared;
pub mod walk;
