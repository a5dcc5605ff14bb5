//! The site of a bundle whose files are read: the history that its commits make, and its pages.
//!
//! `read_clock` asks the clock as often as the bundle needs, `Site::of` makes the commits, `Site::page` renders over the records
//! that they leave, and `site_page` does so where the site's parts are held apart.
#![tactic(auto)]

pub mod commits;
mod readings;
mod script;
pub mod site;

pub use commits::untimed;
pub use readings::read_clock;
pub use site::{Site, site_page};
