//! The set of a site's templates: read from files, each with what it depends on and its digest.
#![tactic(auto)]

mod counting;
mod dependencies;
mod digests;
mod fault;
mod files;
mod limits;
mod partials;
mod set;
mod template;
mod weights;

pub use dependencies::{Links, PartialTag};
pub use fault::SetFault;
pub use limits::LONGEST_CHAIN;
pub use set::{TemplateSet, tags_are_dependencies};
pub use template::Template;
