//! The settings of a site: how the shelf of its cache keeps entries, and how its work is shared out.
#![tactic(auto)]

pub mod numbers;
pub mod settings;

pub use doll_entry::LATEST_TIME;
pub use doll_shelf::{MOST_IN_BATCH, ShelfSettings};
pub use numbers::{limit_in, number_in};
pub use settings::{MOST_SHARDS, MOST_WORKERS, SiteSettings, settings_in};
