//! A site's bundle as it is read: its form, its schema and routes, its files, the set of templates that these make, and why a
//! bundle is refused.
//!
//! `Bundle::read` is pure, `Bundle::load` asks the folder for the files that the bundle names.
#![tactic(auto)]

pub mod bundle;
mod digests;
mod faults;
mod files;
mod form;
pub mod refusal;
mod sets;
pub mod views;

pub use bundle::{Bundle, Loaded, commit_refusal, json_of};
pub use digests::digest_lines;
pub use refusal::{BundlePart, Kind, Refusal, json_refusal, refusal_line};
pub use views::{FileName, Listing, NamedFile, Source};
