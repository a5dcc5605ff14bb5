//! Direct rendering of pages, with no cache.
#![tactic(auto)]

mod binding;
mod page;
mod render;
mod variables;

pub use page::{more_levels_change_nothing, plain_page};
